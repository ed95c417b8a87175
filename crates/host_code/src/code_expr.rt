//! Expressions in instructions.

ghost use Rattle.std.specs.Prelude.{◌≡◌, ◌≤◌, ◌<◌, ◌+◌, ◌^◌, Some, None, IfSome};
ghost use Rattle.host_code.specs.CodeExpr.{IsExpression, depth_after, depth_after_node};

use js_base::{BinOp, VarId};
use std::marker::Model;

/// The nodes of an expression, at most.
pub const MOST_NODES: usize = 256;

/// A node of an expression in postfix order.
#[derive(Clone, Copy)]
pub enum Node {
    Number(i64),
    /// A variable of the thread's frame.
    Var(VarId),
    /// What the thread has read, counted from 0 in the order of reading.
    Temp(u32),
    Not,
    Negate,
    Binary(BinOp),
}

/// An expression: 1 to 256 nodes in postfix order that leave exactly one value.
#[derive(Drop)]
pub struct CodeExpr {
    nodes: Vec<Node>,
}

impl Model for CodeExpr {
    ghost use Rattle.std.specs.Prelude.{List};
    ghost use Rattle.host_code.specs.declared.code_expr.Node.{Node};
    ghost use Rattle.host_code.specs.CodeExpr.{IsExpression};

    ghost Value = { List Node };

    ghost view = { λ e. e.nodes.items };

    ghost invariant = { λ e. IsExpression e.nodes.items };
}

impl CodeExpr {
    /// The expression of these nodes, which have to leave one value.
    pub fn new(nodes: Vec<Node>) -> CodeExpr
        requires { IsExpression nodes.items }
        ensures { result ≡ nodes.items }
    {
        CodeExpr { nodes }
    }

    /// The nodes, 1 to 256.
    pub fn nodes(&self) -> &[Node]
        ensures nodes { result.now ≡ self.now }
        ensures sound { IsExpression self.now }
    {
        &self.nodes
    }
}

/// How many values some nodes leave where there are none before them, or `None` where a node lacks an operand.
pub fn depth_of(nodes: &[Node]) -> Option<usize>
    ensures { result ≡ depth_after nodes.now 0 }
{
    let mut depth = 0usize;
    for node in nodes {
        depth = depth_after_node(*node, depth)?;
    }
    Some(depth)
}

/// How many values there are after a node, where there are so many before it, or `None` where it lacks an operand.
fn depth_after_node(node: Node, depth: usize) -> Option<usize>
    requires { depth + 1 < 2 ^ 64 }
    ensures depth { result ≡ depth_after_node node depth }
    ensures one_more { IfSome result (λ after. after ≤ depth + 1) }
{
    match node {
        Node::Number(_) | Node::Var(_) | Node::Temp(_) => Some(depth + 1),
        Node::Not | Node::Negate => {
            if depth == 0 {
                return None;
            }
            Some(depth)
        }
        Node::Binary(_) => {
            if depth < 2 {
                return None;
            }
            Some(depth - 1)
        }
    }
}
