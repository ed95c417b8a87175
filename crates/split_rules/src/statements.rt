//! The statements of a program by their numbers, and what their instructions release.

ghost use Rattle.std.specs.Prelude.{◌≡◌, ◌+◌, ◌≤◌, ◌++◌, map, All, IfOk, OnOk};
ghost use Rattle.host_code.specs.declared.code_expr.TheConstants.{MOST_NODES};
ghost use Rattle.jif_tree.specs.Sizes.{expr_nodes};
ghost use Rattle.jif_tree.specs.Trees.{block_tree, done, expr_tree, program_tree, tree_before};
ghost use Rattle.split_rules.specs.Positions.{all_statements};
ghost use Rattle.split_rules.specs.ReleaseRows.{statements_in, statement_at, statement_nodes, statement_rows, shown};
ghost use Rattle.split_rules.specs.ReleaseRows.{element_rows, value_rows};
ghost use Rattle.std.specs.List.{flat_map};

use crate::operands::{Operands, add_reads, add_released, add_value};
use jif_tree::{Expr, Program, Stmt, StmtKind, tree_laws};
use js_base::{OutOfMemory, StmtId};
use std::alloc::Global;

/// The statements of a program by their numbers, where the head of a method has none.
///
/// # Errors
/// Memory ran out.
pub fn statements_of<'a>(
    alloc: Global,
    program: &'a Program,
) -> Result<Vec<Option<&'a Stmt>>, OutOfMemory>
    ensures { IfOk result (λ statements. map shown statements.items ≡ statements_in (program_tree program.now)) }
{
    let mut statements = Vec::new(alloc);
    for method in &program.methods {
        statements.push(None)?;
        add_block(&mut statements, &method.body)?;
    }
    Ok(statements)
}

/// Adds the statements of a block, with those in the blocks inside it.
#[cycle(added_blocks)]
fn add_block<'a>(
    statements: &mut Vec<Option<&'a Stmt>>,
    block: &'a [Stmt],
) -> Result<(), OutOfMemory>
    ensures { OnOk result (map shown statements.new.items
        ≡ map shown statements.old.items ++ all_statements (block_tree block.now)) }
{
    for statement in block {
        add_statement(statements, statement)?;
    }
    Ok(())
}

/// Adds a statement, with those in the blocks inside it.
#[cycle(added_blocks)]
fn add_statement<'a>(
    statements: &mut Vec<Option<&'a Stmt>>,
    statement: &'a Stmt,
) -> Result<(), OutOfMemory>
    ensures { OnOk result (map shown statements.new.items
        ≡ map shown statements.old.items ++ all_statements (tree_before statement.now done)) }
{
    tree_laws();
    statements.push(Some(statement))?;
    match &statement.kind {
        StmtKind::If { yes, no, .. } => {
            add_block(statements, yes)?;
            add_block(statements, no)
        }
        StmtKind::While { body, .. } => add_block(statements, body),
        _ => Ok(()),
    }
}

/// The statement of a number, where there is one.
pub fn statement_at<'a>(statements: &[Option<&'a Stmt>], id: StmtId) -> Option<&'a Stmt>
    ensures { shown result ≡ statement_at (map shown statements.now) id }
{
    statements.get(id.0 as usize).copied().flatten()
}

/// What the instructions release, in their order, that evaluate expressions of a statement.
///
/// # Errors
/// Memory ran out.
pub fn statement_rows(alloc: Global, statement: &Stmt) -> Result<Vec<Operands>, OutOfMemory>
    requires { statement_nodes (tree_before statement.now done) ≤ MOST_NODES }
    ensures { IfOk result (λ rows. rows.items ≡ statement_rows (tree_before statement.now done)) }
{
    tree_laws();
    let mut rows = Vec::new(alloc);
    match &statement.kind {
        StmtKind::Let { value, .. } => add_value(alloc, &mut rows, value)?,
        StmtKind::SetField { value, .. } => add_value(alloc, &mut rows, value)?,
        StmtKind::SetElement { index, value, .. } => add_both(alloc, &mut rows, index, value)?,
        StmtKind::If { guard, .. } => add_value(alloc, &mut rows, guard)?,
        StmtKind::While { guard, .. } => add_value(alloc, &mut rows, guard)?,
        StmtKind::Call { args, .. } => add_arguments(alloc, &mut rows, args)?,
        StmtKind::Return { value } => add_value(alloc, &mut rows, value)?,
    }
    Ok(rows)
}

/// Adds what the reads of an index and of a value release, and what is released where both are used.
fn add_both(
    alloc: Global,
    rows: &mut Vec<Operands>,
    index: &Expr,
    value: &Expr,
) -> Result<(), OutOfMemory>
    requires { expr_nodes (expr_tree index.now) + expr_nodes (expr_tree value.now) ≤ MOST_NODES }
    ensures { OnOk result (rows.new.items
        ≡ rows.old.items ++ element_rows (expr_tree index.now) (expr_tree value.now)) }
{
    let middle = add_reads(alloc, rows, 0, index)?;
    let _next = add_reads(alloc, rows, middle, value)?;
    let mut operands = Operands::none(alloc);
    let behind = add_released(alloc, &mut operands, 0, index)?;
    let _last = add_released(alloc, &mut operands, behind, value)?;
    rows.push(operands)?;
    Ok(())
}

/// Adds what each argument of a call releases.
fn add_arguments(alloc: Global, rows: &mut Vec<Operands>, args: &[Expr]) -> Result<(), OutOfMemory>
    requires { All (λ arg. expr_nodes (expr_tree arg) ≤ MOST_NODES) args.now }
    ensures { OnOk result (rows.new.items ≡ rows.old.items ++ flat_map value_rows (map expr_tree args.now)) }
{
    for arg in args {
        add_value(alloc, rows, arg)?;
    }
    Ok(())
}
