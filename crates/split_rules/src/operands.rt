//! The operands that instructions release.

ghost use Rattle.std.specs.Prelude.{◌≡◌, ◌+◌, ◌≤◌, ◌∷◌, [], ◌++◌, map, IfOk, OnOk};
ghost use Rattle.host_code.specs.declared.code_expr.TheConstants.{MOST_NODES};
ghost use Rattle.jif_tree.specs.Trees.{expr_tree};
ghost use Rattle.jif_tree.specs.Sizes.{expr_nodes};
ghost use Rattle.split_rules.specs.Expressions.{reads_in, readings_of, released_by};
ghost use Rattle.split_rules.specs.ReleaseRows.{read_rows, value_rows};

use crate::expressions::{code_expr, reads_in};
use host_code::CodeExpr;
use jif_tree::Expr;
use js_base::OutOfMemory;
use std::alloc::Global;
use std::marker::Model;

/// The operands that an instruction releases.
#[derive(Drop)]
pub struct Operands {
    exprs: Vec<CodeExpr>,
}

impl Model for Operands {
    ghost use Rattle.std.specs.Prelude.{List};
    ghost use Rattle.host_code.specs.declared.code_expr.Node.{Node};

    ghost Value = { List (List Node) };

    ghost view = { λ o. o.exprs.items };
}

impl Operands {
    /// No operand.
    pub fn none(alloc: Global) -> Operands
        ensures { result ≡ [] }
    {
        Operands {
            exprs: Vec::new(alloc),
        }
    }

    /// The operands in order.
    pub fn exprs(&self) -> &[CodeExpr]
        ensures { result.now ≡ self.now }
    {
        &self.exprs
    }

    /// Adds an operand.
    fn push(&mut self, operand: CodeExpr) -> Result<(), OutOfMemory>
        ensures { OnOk result (self.new ≡ self.old ++ operand ∷ []) }
    {
        Ok(self.exprs.push(operand)?)
    }
}

/// Adds the operands that are released where an expression is evaluated whose first read leaves the temporary of a
/// number, and answers the number behind its last read.
///
/// # Errors
/// Memory ran out.
#[tactic(auto, using(crate::proofs::ExpressionNodes::reads_few))]
pub fn add_released(
    alloc: Global,
    operands: &mut Operands,
    first: u32,
    expr: &Expr,
) -> Result<u32, OutOfMemory>
    requires { first + expr_nodes (expr_tree expr.now) ≤ MOST_NODES }
    ensures operands { OnOk result (operands.new ≡ operands.old ++ released_by first (expr_tree expr.now)) }
    ensures next { IfOk result (λ next. next ≡ first + reads_in (expr_tree expr.now)) }
{
    match expr {
        Expr::Number(_) | Expr::Local(_) => Ok(first),
        Expr::Scalar(_) => Ok(first + 1),
        Expr::Element(_, index) => Ok(first + reads_in(index) + 1),
        Expr::Binary(_, left, right) => {
            let middle = add_released(alloc, operands, first, left)?;
            add_released(alloc, operands, middle, right)
        }
        Expr::Not(operand) | Expr::Negate(operand) => add_released(alloc, operands, first, operand),
        Expr::Endorse(operand, _) => add_released(alloc, operands, first, operand),
        Expr::Declassify(operand, _) => {
            let next = add_released(alloc, operands, first, operand)?;
            operands.push(code_expr(alloc, first, operand)?)?;
            Ok(next)
        }
    }
}

/// Those of one expression.
fn released(alloc: Global, first: u32, expr: &Expr) -> Result<Operands, OutOfMemory>
    requires { first + expr_nodes (expr_tree expr.now) ≤ MOST_NODES }
    ensures { IfOk result (λ operands. operands ≡ released_by first (expr_tree expr.now)) }
{
    let mut operands = Operands::none(alloc);
    let _next = add_released(alloc, &mut operands, first, expr)?;
    Ok(operands)
}

/// Adds what each read of an expression releases, of which the first leaves the temporary of a number, and answers the
/// number behind the last.
///
/// # Errors
/// Memory ran out.
#[tactic(auto, using(crate::proofs::ExpressionNodes::reads_few))]
pub fn add_reads(
    alloc: Global,
    rows: &mut Vec<Operands>,
    first: u32,
    expr: &Expr,
) -> Result<u32, OutOfMemory>
    requires { first + expr_nodes (expr_tree expr.now) ≤ MOST_NODES }
    ensures rows { OnOk result (rows.new.items
        ≡ rows.old.items ++ read_rows (readings_of first (expr_tree expr.now))) }
    ensures next { IfOk result (λ next. next ≡ first + reads_in (expr_tree expr.now)) }
{
    match expr {
        Expr::Number(_) | Expr::Local(_) => Ok(first),
        Expr::Scalar(_) => {
            rows.push(Operands::none(alloc))?;
            Ok(first + 1)
        }
        Expr::Element(_, index) => {
            let next = add_reads(alloc, rows, first, index)?;
            rows.push(released(alloc, first, index)?)?;
            Ok(next + 1)
        }
        Expr::Binary(_, left, right) => {
            let middle = add_reads(alloc, rows, first, left)?;
            add_reads(alloc, rows, middle, right)
        }
        Expr::Not(operand) | Expr::Negate(operand) => add_reads(alloc, rows, first, operand),
        Expr::Declassify(operand, _) | Expr::Endorse(operand, _) => {
            add_reads(alloc, rows, first, operand)
        }
    }
}

/// Adds what the reads of an expression release that stands alone, and what is released where its value is used.
///
/// # Errors
/// Memory ran out.
pub fn add_value(alloc: Global, rows: &mut Vec<Operands>, expr: &Expr) -> Result<(), OutOfMemory>
    requires { expr_nodes (expr_tree expr.now) ≤ MOST_NODES }
    ensures { OnOk result (rows.new.items ≡ rows.old.items ++ value_rows (expr_tree expr.now)) }
{
    let _next = add_reads(alloc, rows, 0, expr)?;
    rows.push(released(alloc, 0, expr)?)?;
    Ok(())
}
