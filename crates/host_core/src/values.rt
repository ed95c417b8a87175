//! The values of expressions.

ghost use Rattle.std.specs.Prelude.{◌≡◌, ◌∷◌, ◌<◌, ◌≤◌, ◌+◌, drop, length, pos};
ghost use Rattle.std.specs.Prelude.{slice_index_or};
ghost use Rattle.host_stores.specs.Stores.{variable_of};
ghost use Rattle.host_core.specs.Values.{after_binary, values_after_node, value_of_nodes};

use host_code::{MOST_NODES, Node};
use host_stores::Stores;
use jif_tree::{binary_value, inverted, negated};
use js_base::{BinOp, FrameId};

/// The nodes of a short expression, at most.
const FEW_NODES: usize = 8;

/// The value of an expression's nodes, where the variables are those of the frame.
pub fn value_of(nodes: &[Node], stores: &Stores, frame: FrameId, temporaries: &[i64]) -> i64
    requires { length nodes.now ≤ MOST_NODES }
    ensures { result ≡ value_of_nodes (variable_of stores.now frame) temporaries.now nodes.now }
{
    // Most expressions are one number, and need no room.
    if let [Node::Number(number)] = nodes {
        return *number;
    }
    // Room for the most nodes takes longer to clear than a short expression takes to run.
    if nodes.len() <= FEW_NODES {
        let mut room = [0; FEW_NODES];
        value_within(&mut room, nodes, stores, frame, temporaries)
    } else {
        let mut room = [0; MOST_NODES];
        value_within(&mut room, nodes, stores, frame, temporaries)
    }
}

/// The value of nodes, with room for so many values. The values so far stand at the end of the room, and the one that
/// was made last stands first.
fn value_within(
    room: &mut [i64],
    nodes: &[Node],
    stores: &Stores,
    frame: FrameId,
    temporaries: &[i64],
) -> i64
    requires { length nodes.now ≤ length room.old }
    ensures { result ≡ value_of_nodes (variable_of stores.now frame) temporaries.now nodes.now }
{
    let mut first = room.len();
    for node in nodes {
        first = run_node(room, first, *node, stores, frame, temporaries);
    }
    room.get(first).copied().unwrap_or(0)
}

/// What a node leaves of the values from a place on: they stand from the place that is answered on.
fn run_node(
    room: &mut [i64],
    first: usize,
    node: Node,
    stores: &Stores,
    frame: FrameId,
    temporaries: &[i64],
) -> usize
    requires some { 0 < first }
    requires within { first ≤ length room.old }
    ensures values { drop result room.new
        ≡ values_after_node (variable_of stores.now frame) temporaries.now node (drop first room.old) }
    ensures within { result ≤ length room.old }
    ensures one_more { first ≤ result + 1 }
{
    match node {
        Node::Number(number) => push(room, first, number),
        Node::Var(var) => push(room, first, stores.var(frame, var)),
        Node::Temp(number) => {
            let value = temporaries.get(number as usize).copied().unwrap_or(0);
            push(room, first, value)
        }
        Node::Not => {
            if first < room.len() {
                room[first] = inverted(room[first]);
            }
            first
        }
        Node::Negate => {
            if first < room.len() {
                room[first] = negated(room[first]);
            }
            first
        }
        Node::Binary(op) => run_binary(room, first, op),
    }
}

/// One more value, which stands first.
fn push(room: &mut [i64], first: usize, value: i64) -> usize
    requires some { 0 < first }
    requires within { first ≤ length room.old }
    ensures values { drop result room.new ≡ value ∷ drop first room.old }
    ensures first { result + 1 ≡ first }
{
    room[first - 1] = value;
    first - 1
}

/// What a binary operator leaves of the values. Nothing changes where there are fewer than two.
fn run_binary(room: &mut [i64], first: usize, op: BinOp) -> usize
    requires { first ≤ length room.old }
    ensures values { drop result room.new ≡ after_binary op (drop first room.old) }
    ensures within { result ≤ length room.old }
    ensures no_more { first ≤ result }
{
    if room.len() - first < 2 {
        return first;
    }
    let right = value_at(room, first);
    let left = value_at(room, first + 1);
    room[first + 1] = binary_value(op, left, right);
    first + 1
}

/// The value at a place.
fn value_at(room: &[i64], place: usize) -> i64
    requires { place < length room.now }
    ensures { result ≡ slice_index_or room.now place (pos 0) }
{
    room[place]
}
