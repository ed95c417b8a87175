//! Readers of expressions.
#![tactic(auto, unfolding(byte_format::specs::Reader::sequel, byte_format::specs::Reader::given, byte_format::specs::Reader::refused, crate::specs::Reader::place, byte_format::specs::Reader::require, crate::specs::Reader::in_range, crate::specs::Reading::operator_of, crate::specs::Reading::number_node_at, crate::specs::Reading::variable_id_at, crate::specs::Reading::variable_node_at, crate::specs::Reading::temporary_node_at, crate::specs::Reading::operator_node_at, crate::specs::Reading::node_of, crate::specs::Reading::node_at, crate::specs::Reading::expression_at, byte_format::specs::Reader::items_at,))]

ghost use Rattle.std.specs.Prelude.{◌≡◌, ◌≤◌, ℕ, List, length, nat_le, [], IfOk};
ghost use Rattle.std.specs.Int.{w32};
ghost use Rattle.host_code.specs.declared.code_expr.TheConstants.{MOST_NODES};
ghost use Rattle.byte_format.specs.Reader.{items_at};
ghost use Rattle.split_file.specs.Reader.{GivesRead, in_range, number_at};
ghost use Rattle.split_file.specs.Reading.{operator_of, variable_id_at, node_of, node_at, leave_one, expression_at};

use crate::fault::ReadError;
use crate::numbers::{byte_of, i64_of, index_of, out_of_range, u32_of};
use host_code::{CodeExpr, MOST_NODES, Node, depth_of};
use js_base::{BinOp, VarId};
use std::alloc::Global;

/// The operator of a byte, with which `item` begins.
fn operator(byte: u8, item: &[u8]) -> Result<BinOp, ReadError>
    ensures { (rest : List ℕ) → GivesRead (λ x. (x, rest)) result (operator_of (length item.now) byte rest) }
{
    match byte {
        6 => Ok(BinOp::Or),
        7 => Ok(BinOp::And),
        8 => Ok(BinOp::Equal),
        9 => Ok(BinOp::NotEqual),
        10 => Ok(BinOp::Less),
        11 => Ok(BinOp::LessEqual),
        12 => Ok(BinOp::Greater),
        13 => Ok(BinOp::GreaterEqual),
        14 => Ok(BinOp::Add),
        15 => Ok(BinOp::Subtract),
        16 => Ok(BinOp::Multiply),
        17 => Ok(BinOp::Divide),
        18 => Ok(BinOp::Remainder),
        _ => Err(out_of_range(item)),
    }
}

/// One of so many variables.
pub fn variable_id_of(vars: usize, bytes: &[u8]) -> Result<(VarId, &[u8]), ReadError>
    ensures { GivesRead (λ x. (x.0, x.1.now)) result (variable_id_at vars bytes.now) }
{
    let (var, rest) = index_of(vars, bytes)?;
    Ok((VarId(var), rest))
}

/// What follows the first byte of a node, which is that of `item`.
fn node_tail_of<'a>(
    vars: usize,
    temporaries: usize,
    byte: u8,
    item: &[u8],
    bytes: &'a [u8],
) -> Result<(Node, &'a [u8]), ReadError>
    ensures { GivesRead (λ x. (x.0, x.1.now)) result (node_of vars temporaries (length item.now) byte bytes.now) }
{
    match byte {
        1 => {
            let (number, rest) = i64_of(bytes)?;
            Ok((Node::Number(number), rest))
        }
        2 => {
            let (var, rest) = variable_id_of(vars, bytes)?;
            Ok((Node::Var(var), rest))
        }
        3 => {
            let (temporary, rest) = index_of(temporaries, bytes)?;
            Ok((Node::Temp(temporary), rest))
        }
        4 => Ok((Node::Not, bytes)),
        5 => Ok((Node::Negate, bytes)),
        _ => {
            let operator = operator(byte, item)?;
            Ok((Node::Binary(operator), bytes))
        }
    }
}

/// A node, where a thread has so many temporaries.
fn node_of(vars: usize, temporaries: usize, bytes: &[u8]) -> Result<(Node, &[u8]), ReadError>
    ensures { GivesRead (λ x. (x.0, x.1.now)) result (node_at vars temporaries bytes.now) }
{
    let (byte, rest) = byte_of(bytes)?;
    node_tail_of(vars, temporaries, byte, bytes, rest)
}

/// So many nodes.
fn nodes_of(
    alloc: Global,
    vars: usize,
    temporaries: usize,
    count: u32,
    bytes: &[u8],
) -> Result<(Vec<Node>, &[u8]), ReadError>
    ensures nodes { GivesRead (λ x. (x.0.items, x.1.now)) result
        (items_at (λ _. node_at vars temporaries) [] count bytes.now) }
    ensures count { IfOk result (λ x. length x.0.items ≡ count) }
{
    let mut nodes = Vec::new(alloc);
    let mut rest = bytes;
    for _ in 0..count {
        let (node, after) = node_of(vars, temporaries, rest)?;
        nodes.push(node)?;
        rest = after;
    }
    Ok((nodes, rest))
}

/// Whether the nodes leave exactly one value.
fn leave_one(nodes: &[Node]) -> bool
    ensures { result ≡ leave_one nodes.now }
{
    match depth_of(nodes) {
        Some(depth) => depth == 1,
        None => false,
    }
}

/// How many nodes an expression has.
fn node_count_of(bytes: &[u8]) -> Result<(u32, &[u8]), ReadError>
    ensures count { GivesRead (λ x. (x.0, x.1.now)) result
        (in_range (λ count. nat_le count MOST_NODES) (number_at w32) bytes.now) }
    ensures few { IfOk result (λ x. x.0 ≤ MOST_NODES) }
{
    let (count, rest) = u32_of(bytes)?;
    if count as usize > MOST_NODES {
        return Err(out_of_range(bytes));
    }
    Ok((count, rest))
}

/// An expression, where a thread has so many temporaries.
pub fn expression_of(
    alloc: Global,
    vars: usize,
    temporaries: usize,
    bytes: &[u8],
) -> Result<(CodeExpr, &[u8]), ReadError>
    ensures { GivesRead (λ x. (x.0, x.1.now)) result (expression_at vars temporaries bytes.now) }
{
    let (count, rest) = node_count_of(bytes)?;
    let (nodes, rest) = nodes_of(alloc, vars, temporaries, count, rest)?;
    if !leave_one(&nodes) {
        return Err(out_of_range(bytes));
    }
    Ok((CodeExpr::new(nodes), rest))
}
