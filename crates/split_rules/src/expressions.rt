//! Expressions in instructions.

ghost use Rattle.std.specs.Prelude.{◌≡◌, ◌+◌, ◌≤◌, ◌∷◌, [], ◌++◌, IfOk, OnOk};
ghost use Rattle.host_code.specs.declared.code_expr.TheConstants.{MOST_NODES};
ghost use Rattle.jif_tree.specs.Trees.{expr_tree};
ghost use Rattle.jif_tree.specs.Sizes.{expr_nodes};
ghost use Rattle.split_rules.specs.Expressions.{nodes_of, reads_in};

use host_code::{CodeExpr, Node};
use jif_tree::Expr;
use js_base::OutOfMemory;
use std::alloc::Global;

/// Adds the nodes of an expression whose first read leaves the temporary of a number, and answers the number behind its
/// last read.
#[tactic(auto, using(crate::proofs::ExpressionNodes::reads_few, crate::proofs::ExpressionNodes::is_expression))]
fn add_nodes(nodes: &mut Vec<Node>, first: u32, expr: &Expr) -> Result<u32, OutOfMemory>
    requires { first + expr_nodes (expr_tree expr.now) ≤ MOST_NODES }
    ensures nodes { OnOk result (nodes.new.items ≡ nodes.old.items ++ nodes_of first (expr_tree expr.now)) }
    ensures next { IfOk result (λ next. next ≡ first + reads_in (expr_tree expr.now)) }
{
    match expr {
        Expr::Number(value) => add_leaf(nodes, first, Node::Number(*value)),
        Expr::Local(variable) => add_leaf(nodes, first, Node::Var(*variable)),
        Expr::Scalar(_) => {
            nodes.push(Node::Temp(first))?;
            Ok(first + 1)
        }
        Expr::Element(_, index) => {
            let read = first + reads_in(index);
            nodes.push(Node::Temp(read))?;
            Ok(read + 1)
        }
        Expr::Not(operand) => {
            let next = add_nodes(nodes, first, operand)?;
            add_leaf(nodes, next, Node::Not)
        }
        Expr::Negate(operand) => {
            let next = add_nodes(nodes, first, operand)?;
            add_leaf(nodes, next, Node::Negate)
        }
        Expr::Binary(operator, left, right) => {
            let middle = add_nodes(nodes, first, left)?;
            let next = add_nodes(nodes, middle, right)?;
            add_leaf(nodes, next, Node::Binary(*operator))
        }
        Expr::Declassify(operand, _) | Expr::Endorse(operand, _) => {
            add_nodes(nodes, first, operand)
        }
    }
}

/// Adds a node that reads nothing.
fn add_leaf(nodes: &mut Vec<Node>, next: u32, node: Node) -> Result<u32, OutOfMemory>
    ensures nodes { OnOk result (nodes.new.items ≡ nodes.old.items ++ node ∷ []) }
    ensures next { IfOk result (λ same. same ≡ next) }
{
    nodes.push(node)?;
    Ok(next)
}

/// How many fields an expression reads.
#[tactic(auto, using(crate::proofs::ExpressionNodes::reads_few, crate::proofs::ExpressionNodes::is_expression))]
pub fn reads_in(expr: &Expr) -> u32
    requires { expr_nodes (expr_tree expr.now) ≤ MOST_NODES }
    ensures { result ≡ reads_in (expr_tree expr.now) }
{
    match expr {
        Expr::Number(_) | Expr::Local(_) => 0,
        Expr::Scalar(_) => 1,
        Expr::Element(_, index) => reads_in(index) + 1,
        Expr::Binary(_, left, right) => reads_in(left) + reads_in(right),
        Expr::Not(operand) | Expr::Negate(operand) => reads_in(operand),
        Expr::Declassify(operand, _) | Expr::Endorse(operand, _) => reads_in(operand),
    }
}

/// The nodes of an expression whose first read leaves the temporary of this number.
///
/// # Errors
/// Memory ran out.
#[tactic(auto, using(crate::proofs::ExpressionNodes::reads_few, crate::proofs::ExpressionNodes::is_expression))]
pub fn code_expr(alloc: Global, first: u32, expr: &Expr) -> Result<CodeExpr, OutOfMemory>
    requires { first + expr_nodes (expr_tree expr.now) ≤ MOST_NODES }
    ensures { IfOk result (λ nodes. nodes ≡ nodes_of first (expr_tree expr.now)) }
{
    let mut nodes = Vec::new(alloc);
    let _next = add_nodes(&mut nodes, first, expr)?;
    Ok(CodeExpr::new(nodes))
}
