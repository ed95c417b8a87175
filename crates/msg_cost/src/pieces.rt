//! What a program's cost is made of.

ghost use Rattle.std.specs.Prelude.{◌≡◌, true, [], ◌∷◌, ◌++◌, map, IfOk, OnOk};
ghost use Rattle.jif_tree.specs.Trees.{done, expr_tree, block_tree, tree_before, program_tree};
ghost use Rattle.msg_cost.specs.Pieces.{access, giving, walk, given_statements, expr_pieces, argument_pieces};
ghost use Rattle.msg_cost.specs.Pieces.{call_pieces, given_pieces, block_pieces, program_pieces};
ghost use Rattle.msg_cost.specs.PieceViews.{givens_of, piece_shape, all_pieces};
ghost use Rattle.msg_cost.specs.Tables.{KnowsBlock, HasTable, HaveTables};

use crate::around::is_ascending;
use crate::piece::Piece;
use crate::table::block_table;
use crate::walk::Walk;
use crate::weight::inside;
use host_decl::Hosts;
use jif_tree::{Expr, Program, Stmt, StmtKind, params_of, tree_laws};
use js_base::{FieldId, MethodId, OutOfMemory, StmtId, VarId};
use need_labels::Needs;
use std::alloc::Global;

/// The pieces of what a program costs, of which each walk knows its block.
///
/// # Errors
/// That memory ran out.
pub fn program_pieces<'a>(
    alloc: Global,
    program: &'a Program,
    needs: &Needs,
    hosts: &Hosts,
) -> Result<Vec<Piece<'a>>, OutOfMemory>
    ensures pieces { IfOk result (λ pieces. all_pieces pieces.items ≡ program_pieces (program_tree program.now)) }
    ensures tables { IfOk result (λ pieces. HaveTables needs.now hosts.now pieces.items) }
{
    let mut pieces = Vec::new(alloc);
    for method in &program.methods {
        let walk = walk_of(needs, hosts, 1, method.head, false, &method.body);
        add_piece(&mut pieces, needs, hosts, Piece::Walk(walk))?;
        add_block(&mut pieces, program, needs, hosts, &walk)?;
    }
    add_piece(
        &mut pieces,
        needs,
        hosts,
        Piece::Ending {
            method: program.main,
        },
    )?;
    Ok(pieces)
}

/// A walk over a block, which knows its block.
fn walk_of<'a>(
    needs: &Needs,
    hosts: &Hosts,
    weight: u64,
    home: StmtId,
    nested: bool,
    block: &'a [Stmt],
) -> Walk<'a>
    ensures shape { (result.weight ≡ weight) × (result.home ≡ home) × (result.nested ≡ nested)
        × (result.block.now ≡ block.now) }
    ensures table { KnowsBlock needs.now hosts.now result }
{
    Walk {
        weight,
        home,
        nested,
        block,
        ascending: is_ascending(block),
        table: block_table(needs, hosts, block),
    }
}

/// Adds the pieces of the statements of a block, without the walk over them.
#[cycle(pieces)]
fn add_block<'a>(
    pieces: &mut Vec<Piece<'a>>,
    program: &'a Program,
    needs: &Needs,
    hosts: &Hosts,
    walk: &Walk<'a>,
) -> Result<(), OutOfMemory>
    requires knows { KnowsBlock needs.now hosts.now walk.now }
    requires tables { HaveTables needs.now hosts.now pieces.old.items }
    ensures pieces { OnOk result (all_pieces pieces.new.items
        ≡ all_pieces pieces.old.items ++ block_pieces (program_tree program.now) walk.now.weight walk.now.home
        (givens_of walk.now.block.now) 0 (block_tree walk.now.block.now)) }
    ensures tables { OnOk result (HaveTables needs.now hosts.now pieces.new.items) }
{
    for (place, statement) in walk.block.iter().enumerate() {
        add_statement(pieces, program, needs, hosts, walk, place, statement)?;
    }
    Ok(())
}

/// Adds the pieces of a nested block of a statement.
#[cycle(pieces)]
fn add_nested<'a>(
    pieces: &mut Vec<Piece<'a>>,
    program: &'a Program,
    needs: &Needs,
    hosts: &Hosts,
    weight: u64,
    home: StmtId,
    block: &'a [Stmt],
) -> Result<(), OutOfMemory>
    requires { HaveTables needs.now hosts.now pieces.old.items }
    ensures pieces { OnOk result (all_pieces pieces.new.items
        ≡ all_pieces pieces.old.items ++ (walk weight home true (given_statements (block_tree block.now))
        ∷ block_pieces (program_tree program.now) weight home (given_statements (block_tree block.now)) 0
        (block_tree block.now))) }
    ensures tables { OnOk result (HaveTables needs.now hosts.now pieces.new.items) }
{
    let walk = walk_of(needs, hosts, weight, home, true, block);
    add_piece(pieces, needs, hosts, Piece::Walk(walk))?;
    add_block(pieces, program, needs, hosts, &walk)
}

/// Adds the pieces of a statement at a place of a block: those of a block that has it alone.
#[cycle(pieces)]
fn add_statement<'a>(
    pieces: &mut Vec<Piece<'a>>,
    program: &'a Program,
    needs: &Needs,
    hosts: &Hosts,
    walk: &Walk<'a>,
    place: usize,
    statement: &'a Stmt,
) -> Result<(), OutOfMemory>
    requires knows { KnowsBlock needs.now hosts.now walk.now }
    requires tables { HaveTables needs.now hosts.now pieces.old.items }
    ensures pieces { OnOk result (all_pieces pieces.new.items ≡ all_pieces pieces.old.items
        ++ block_pieces (program_tree program.now) walk.now.weight walk.now.home (givens_of walk.now.block.now) place
        (tree_before statement.now done)) }
    ensures tables { OnOk result (HaveTables needs.now hosts.now pieces.new.items) }
{
    tree_laws();
    let id = statement.id;
    let weight = walk.weight;
    match &statement.kind {
        StmtKind::Let { var, value } => {
            add_expr(pieces, needs, hosts, weight, id, value)?;
            add_giving(pieces, needs, hosts, walk, place, id, *var)
        }
        StmtKind::SetField { field, value } => {
            add_expr(pieces, needs, hosts, weight, id, value)?;
            add_access(pieces, needs, hosts, weight, id, *field)
        }
        StmtKind::SetElement {
            field,
            index,
            value,
        } => {
            add_expr(pieces, needs, hosts, weight, id, index)?;
            add_expr(pieces, needs, hosts, weight, id, value)?;
            add_access(pieces, needs, hosts, weight, id, *field)
        }
        StmtKind::If { guard, yes, no } => {
            add_expr(pieces, needs, hosts, weight, id, guard)?;
            add_nested(pieces, program, needs, hosts, weight, id, yes)?;
            add_nested(pieces, program, needs, hosts, weight, id, no)
        }
        StmtKind::While { guard, body } => {
            let deeper = inside(weight);
            add_expr(pieces, needs, hosts, deeper, id, guard)?;
            add_nested(pieces, program, needs, hosts, deeper, id, body)
        }
        StmtKind::Call {
            method,
            args,
            into,
            ..
        } => {
            add_call(
                pieces, program, needs, hosts, weight, id, *method, args, *into,
            )?;
            add_given(pieces, needs, hosts, walk, place, id, *into)
        }
        StmtKind::Return { value } => add_expr(pieces, needs, hosts, weight, id, value),
    }
}

/// Adds the pieces of a call, without what its result gives.
fn add_call(
    pieces: &mut Vec<Piece<'_>>,
    program: &Program,
    needs: &Needs,
    hosts: &Hosts,
    weight: u64,
    statement: StmtId,
    method: MethodId,
    args: &[Expr],
    into: Option<VarId>,
) -> Result<(), OutOfMemory>
    requires { HaveTables needs.now hosts.now pieces.old.items }
    ensures pieces { OnOk result (all_pieces pieces.new.items
        ≡ all_pieces pieces.old.items
        ++ call_pieces (program_tree program.now) weight statement method (map expr_tree args.now) into) }
    ensures tables { OnOk result (HaveTables needs.now hosts.now pieces.new.items) }
{
    let params = params_of(program, method);
    add_arguments(
        pieces, needs, hosts, weight, statement, method, params, args,
    )?;
    add_piece(
        pieces,
        needs,
        hosts,
        Piece::Calling {
            weight,
            statement,
            method,
            kept: into.is_some(),
        },
    )
}

/// Adds the pieces of the arguments of a call, each with the parameter that gets it.
fn add_arguments(
    pieces: &mut Vec<Piece<'_>>,
    needs: &Needs,
    hosts: &Hosts,
    weight: u64,
    statement: StmtId,
    method: MethodId,
    params: &[VarId],
    args: &[Expr],
) -> Result<(), OutOfMemory>
    requires { HaveTables needs.now hosts.now pieces.old.items }
    ensures pieces { OnOk result (all_pieces pieces.new.items ≡ all_pieces pieces.old.items
        ++ argument_pieces weight statement method params.now (map expr_tree args.now)) }
    ensures tables { OnOk result (HaveTables needs.now hosts.now pieces.new.items) }
{
    let mut left = params;
    for arg in args {
        add_expr(pieces, needs, hosts, weight, statement, arg)?;
        if let [param, more @ ..] = left {
            let variable = *param;
            add_piece(
                pieces,
                needs,
                hosts,
                Piece::Passing {
                    weight,
                    statement,
                    method,
                    variable,
                },
            )?;
            left = more;
        }
    }
    Ok(())
}

/// Adds a piece for each field that an expression reads.
fn add_expr(
    pieces: &mut Vec<Piece<'_>>,
    needs: &Needs,
    hosts: &Hosts,
    weight: u64,
    statement: StmtId,
    expr: &Expr,
) -> Result<(), OutOfMemory>
    requires { HaveTables needs.now hosts.now pieces.old.items }
    ensures pieces { OnOk result (all_pieces pieces.new.items
        ≡ all_pieces pieces.old.items ++ expr_pieces weight statement (expr_tree expr.now)) }
    ensures tables { OnOk result (HaveTables needs.now hosts.now pieces.new.items) }
{
    match expr {
        Expr::Number(_) => Ok(()),
        Expr::Local(_) => Ok(()),
        Expr::Scalar(field) => add_access(pieces, needs, hosts, weight, statement, *field),
        Expr::Element(field, index) => {
            add_expr(pieces, needs, hosts, weight, statement, index)?;
            add_access(pieces, needs, hosts, weight, statement, *field)
        }
        Expr::Not(operand) => add_expr(pieces, needs, hosts, weight, statement, operand),
        Expr::Negate(operand) => add_expr(pieces, needs, hosts, weight, statement, operand),
        Expr::Binary(_, left, right) => {
            add_expr(pieces, needs, hosts, weight, statement, left)?;
            add_expr(pieces, needs, hosts, weight, statement, right)
        }
        Expr::Declassify(operand, _) => add_expr(pieces, needs, hosts, weight, statement, operand),
        Expr::Endorse(operand, _) => add_expr(pieces, needs, hosts, weight, statement, operand),
    }
}

/// Adds that a statement reads or writes a field.
fn add_access(
    pieces: &mut Vec<Piece<'_>>,
    needs: &Needs,
    hosts: &Hosts,
    weight: u64,
    statement: StmtId,
    field: FieldId,
) -> Result<(), OutOfMemory>
    requires { HaveTables needs.now hosts.now pieces.old.items }
    ensures pieces { OnOk result (all_pieces pieces.new.items
        ≡ all_pieces pieces.old.items ++ access weight statement field ∷ []) }
    ensures tables { OnOk result (HaveTables needs.now hosts.now pieces.new.items) }
{
    add_piece(
        pieces,
        needs,
        hosts,
        Piece::Access {
            weight,
            statement,
            field,
        },
    )
}

/// Adds that a statement gives a variable a value, at a place of a block.
fn add_giving<'a>(
    pieces: &mut Vec<Piece<'a>>,
    needs: &Needs,
    hosts: &Hosts,
    walk: &Walk<'a>,
    place: usize,
    statement: StmtId,
    variable: VarId,
) -> Result<(), OutOfMemory>
    requires knows { KnowsBlock needs.now hosts.now walk.now }
    requires tables { HaveTables needs.now hosts.now pieces.old.items }
    ensures pieces { OnOk result (all_pieces pieces.new.items ≡ all_pieces pieces.old.items
        ++ giving walk.now.weight statement variable walk.now.home (givens_of walk.now.block.now) place ∷ []) }
    ensures tables { OnOk result (HaveTables needs.now hosts.now pieces.new.items) }
{
    add_piece(
        pieces,
        needs,
        hosts,
        Piece::Giving {
            walk: *walk,
            place,
            statement,
            variable,
        },
    )
}

/// The same where it gives a value to a variable at all.
fn add_given<'a>(
    pieces: &mut Vec<Piece<'a>>,
    needs: &Needs,
    hosts: &Hosts,
    walk: &Walk<'a>,
    place: usize,
    statement: StmtId,
    gives: Option<VarId>,
) -> Result<(), OutOfMemory>
    requires knows { KnowsBlock needs.now hosts.now walk.now }
    requires tables { HaveTables needs.now hosts.now pieces.old.items }
    ensures pieces { OnOk result (all_pieces pieces.new.items ≡ all_pieces pieces.old.items
        ++ given_pieces walk.now.weight statement gives walk.now.home (givens_of walk.now.block.now) place) }
    ensures tables { OnOk result (HaveTables needs.now hosts.now pieces.new.items) }
{
    match gives {
        Some(variable) => add_giving(pieces, needs, hosts, walk, place, statement, variable),
        None => Ok(()),
    }
}

/// Adds a piece.
fn add_piece<'a>(
    pieces: &mut Vec<Piece<'a>>,
    needs: &Needs,
    hosts: &Hosts,
    piece: Piece<'a>,
) -> Result<(), OutOfMemory>
    requires knows { HasTable needs.now hosts.now piece }
    requires tables { HaveTables needs.now hosts.now pieces.old.items }
    ensures pieces { OnOk result (all_pieces pieces.new.items
        ≡ all_pieces pieces.old.items ++ piece_shape piece.entry ∷ []) }
    ensures tables { OnOk result (HaveTables needs.now hosts.now pieces.new.items) }
{
    Ok(pieces.push(piece)?)
}
