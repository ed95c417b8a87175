//! Expressions in instructions, and the reads before them.

ghost use Rattle.std.specs.Prelude.{◌≡◌, ◌+◌, ◌<◌, ◌≤◌, ◌∷◌, [], ◌++◌, IfOk, OnOk};
ghost use Rattle.host_code.specs.declared.code_expr.TheConstants.{MOST_NODES};
ghost use Rattle.host_code.specs.declared.instruction.Op.TheVariants as op;
ghost use Rattle.jif_tree.specs.Trees.{expr_tree};
ghost use Rattle.jif_tree.specs.Sizes.{expr_nodes};
ghost use Rattle.split_rules.specs.Expressions.{first_element, nodes_of, reads_in};
ghost use Rattle.split_rules.specs.Walk.{emitted, expr_emissions};
ghost use Rattle.control_split.specs.Trace.{traced};

use crate::trace::{Place, Trace};
use host_code::{CodeExpr, Node, Op};
use jif_tree::Expr;
use js_base::{FieldId, OutOfMemory};
use split_rules::code_expr;
use std::alloc::Global;

/// The index of a plain field.
pub fn first_element(alloc: Global) -> Result<CodeExpr, OutOfMemory>
    ensures { IfOk result (λ index. index ≡ first_element) }
{
    let mut nodes = Vec::new(alloc);
    nodes.push(Node::Number(0))?;
    Ok(CodeExpr::new(nodes))
}

/// A read of a field, and the number of the temporary behind the one that it leaves.
fn read(
    trace: &mut Trace,
    place: &Place<'_>,
    temporary: u32,
    field: FieldId,
    index: CodeExpr,
) -> Result<u32, OutOfMemory>
    requires { temporary < MOST_NODES }
    ensures trace { OnOk result (trace.new ≡ traced trace.old
        (emitted place.now.host place.now.label.now place.now.statement (op.Read field index) ∷ [])) }
    ensures next { IfOk result (λ next. next ≡ temporary + 1) }
{
    trace.instruction(place, Op::Read(field, index))?;
    Ok(temporary + 1)
}

/// Adds the reads of an expression, of which the first leaves the temporary of a number, and answers the number behind
/// the last.
///
/// # Errors
/// Memory ran out.
#[tactic(auto, using(crate::proofs::Operands::few_reads))]
pub fn add_reads(
    alloc: Global,
    trace: &mut Trace,
    place: &Place<'_>,
    first: u32,
    expr: &Expr,
) -> Result<u32, OutOfMemory>
    requires { first + expr_nodes (expr_tree expr.now) ≤ MOST_NODES }
    ensures trace { OnOk result (trace.new ≡ traced trace.old
        (expr_emissions place.now.host place.now.label.now place.now.statement first (expr_tree expr.now))) }
    ensures next { IfOk result (λ next. next ≡ first + reads_in (expr_tree expr.now)) }
{
    match expr {
        Expr::Number(_) | Expr::Local(_) => Ok(first),
        Expr::Scalar(field) => read(trace, place, first, *field, first_element(alloc)?),
        Expr::Element(field, index) => {
            let next = add_reads(alloc, trace, place, first, index)?;
            read(trace, place, next, *field, code_expr(alloc, first, index)?)
        }
        Expr::Binary(_, left, right) => {
            let next = add_reads(alloc, trace, place, first, left)?;
            add_reads(alloc, trace, place, next, right)
        }
        Expr::Not(operand) | Expr::Negate(operand) => {
            add_reads(alloc, trace, place, first, operand)
        }
        Expr::Declassify(operand, _) | Expr::Endorse(operand, _) => {
            add_reads(alloc, trace, place, first, operand)
        }
    }
}

/// Adds the reads of an expression that stands alone, and answers its nodes.
///
/// # Errors
/// Memory ran out.
pub fn value(
    alloc: Global,
    trace: &mut Trace,
    place: &Place<'_>,
    expr: &Expr,
) -> Result<CodeExpr, OutOfMemory>
    requires { expr_nodes (expr_tree expr.now) ≤ MOST_NODES }
    ensures trace { OnOk result (trace.new ≡ traced trace.old
        (expr_emissions place.now.host place.now.label.now place.now.statement 0 (expr_tree expr.now))) }
    ensures value { IfOk result (λ nodes. nodes ≡ nodes_of 0 (expr_tree expr.now)) }
{
    let _next = add_reads(alloc, trace, place, 0, expr)?;
    code_expr(alloc, 0, expr)
}
