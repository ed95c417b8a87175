//! Instructions at the end of some bytes.
#![tactic(auto, using(crate::proofs::Appends::appends))]

ghost use Rattle.std.specs.Prelude.{◌≡◌, ◌++◌, ◌∷◌, [], ◌≤◌, length, All, OnOk};
ghost use Rattle.host_code.specs.declared.code.TheConstants.{MOST_ITEMS};
ghost use Rattle.byte_format.specs.Numbers.{number_bytes};
ghost use Rattle.split_file.specs.File.{HasWord, IsWordExpression, HasExpressions, IsRealInstruction};
ghost use Rattle.split_file.specs.Spelling.{host_id_bytes, operator_byte, node_bytes, expression_bytes, riders_bytes};
ghost use Rattle.split_file.specs.Spelling.{operation_bytes, instruction_bytes, part_bytes};

use crate::appending::{put_count, put_host_id};
use byte_format::{put_byte, put_integer, put_number};
use host_code::{CodeExpr, Instr, Node, Op, RiderVars};
use js_base::{BinOp, HostId, OutOfMemory, VarId};

/// The byte of an operator.
fn operator_byte(operator: BinOp) -> u8
    ensures { result ≡ operator_byte operator }
{
    match operator {
        BinOp::Or => 6,
        BinOp::And => 7,
        BinOp::Equal => 8,
        BinOp::NotEqual => 9,
        BinOp::Less => 10,
        BinOp::LessEqual => 11,
        BinOp::Greater => 12,
        BinOp::GreaterEqual => 13,
        BinOp::Add => 14,
        BinOp::Subtract => 15,
        BinOp::Multiply => 16,
        BinOp::Divide => 17,
        BinOp::Remainder => 18,
    }
}

/// Adds a node.
fn put_node(out: &mut Vec<u8>, node: &Node) -> Result<(), OutOfMemory>
    ensures bytes { OnOk result (out.new.items ≡ out.old.items ++ node_bytes node.now) }
    ensures real { OnOk result (HasWord node.now) }
{
    match *node {
        Node::Number(number) => {
            put_byte(out, 1)?;
            put_integer(out, number)
        }
        Node::Var(variable) => {
            put_byte(out, 2)?;
            put_number(out, variable.0)
        }
        Node::Temp(temporary) => {
            put_byte(out, 3)?;
            put_number(out, temporary)
        }
        Node::Not => put_byte(out, 4),
        Node::Negate => put_byte(out, 5),
        Node::Binary(operator) => put_byte(out, operator_byte(operator)),
    }
}

/// Adds an expression.
fn put_expression(out: &mut Vec<u8>, expression: &CodeExpr) -> Result<(), OutOfMemory>
    ensures bytes { OnOk result (out.new.items ≡ out.old.items ++ expression_bytes expression.now) }
    ensures real { OnOk result (IsWordExpression expression.now) }
{
    let nodes = expression.nodes();
    put_count(out, nodes.len())?;
    for node in nodes {
        put_node(out, node)?;
    }
    Ok(())
}

/// Adds a variable and its value, behind a byte.
fn put_valued(
    out: &mut Vec<u8>,
    byte: u8,
    variable: VarId,
    value: &CodeExpr,
) -> Result<(), OutOfMemory>
    ensures bytes { OnOk result (out.new.items
        ≡ out.old.items ++ byte ∷ (number_bytes variable.0 ++ expression_bytes value.now)) }
    ensures real { OnOk result (IsWordExpression value.now) }
{
    put_byte(out, byte)?;
    put_number(out, variable.0)?;
    put_expression(out, value)
}

/// Adds a number and a host, behind a byte.
fn put_hosted(out: &mut Vec<u8>, byte: u8, number: u32, host: HostId) -> Result<(), OutOfMemory>
    ensures { OnOk result (out.new.items
        ≡ out.old.items ++ byte ∷ (number_bytes number ++ host_id_bytes host)) }
{
    put_byte(out, byte)?;
    put_number(out, number)?;
    put_host_id(out, host)
}

/// Adds a number, behind a byte.
fn put_numbered(out: &mut Vec<u8>, byte: u8, number: u32) -> Result<(), OutOfMemory>
    ensures { OnOk result (out.new.items ≡ out.old.items ++ byte ∷ number_bytes number) }
{
    put_byte(out, byte)?;
    put_number(out, number)
}

/// Adds the variables whose values ride.
fn put_riders(out: &mut Vec<u8>, riders: &RiderVars) -> Result<(), OutOfMemory>
    ensures { OnOk result (out.new.items ≡ out.old.items ++ riders_bytes riders.now) }
{
    let vars = riders.vars();
    put_count(out, vars.len())?;
    for var in vars {
        put_number(out, var.0)?;
    }
    Ok(())
}

/// Adds an operation.
fn put_operation(out: &mut Vec<u8>, op: &Op) -> Result<(), OutOfMemory>
    ensures bytes { OnOk result (out.new.items ≡ out.old.items ++ operation_bytes op.now) }
    ensures real { OnOk result (HasExpressions op.now) }
{
    match op {
        Op::Read(field, index) => {
            put_numbered(out, 1, field.0)?;
            put_expression(out, index)
        }
        Op::Let(variable, value) => put_valued(out, 2, *variable, value),
        Op::Put(field, index, value) => {
            put_numbered(out, 3, field.0)?;
            put_expression(out, index)?;
            put_expression(out, value)
        }
        Op::Send(variable, to) => put_hosted(out, 4, variable.0, *to),
        Op::Frame(site) => put_numbered(out, 5, site.0),
        Op::Arg(variable, value) => put_valued(out, 6, *variable, value),
        Op::Pass(variable, to) => put_hosted(out, 7, variable.0, *to),
        Op::Push(entry) => put_numbered(out, 8, entry.0),
        Op::Ask(entry, on) => put_hosted(out, 9, entry.0, *on),
        Op::Go(entry, on) => put_hosted(out, 10, entry.0, *on),
        Op::Call(entry, on) => put_hosted(out, 11, entry.0, *on),
        Op::Ret(variable, value) => put_valued(out, 12, *variable, value),
        Op::Back => put_byte(out, 13),
        Op::Branch(guard, target) => {
            put_byte(out, 14)?;
            put_expression(out, guard)?;
            put_number(out, *target)
        }
        Op::GoWith(entry, on, riders) => {
            put_hosted(out, 15, entry.0, *on)?;
            put_riders(out, riders)
        }
        Op::CallWith(entry, on, riders) => {
            put_hosted(out, 16, entry.0, *on)?;
            put_riders(out, riders)
        }
    }
}

/// Adds an instruction.
fn put_instruction(out: &mut Vec<u8>, instruction: &Instr) -> Result<(), OutOfMemory>
    ensures bytes { OnOk result (out.new.items ≡ out.old.items ++ instruction_bytes instruction.now) }
    ensures real { OnOk result (IsRealInstruction instruction.now) }
{
    put_number(out, instruction.label)?;
    put_number(out, instruction.statement.0)?;
    put_operation(out, &instruction.op)
}

/// Adds the instructions of a host.
pub fn put_part(out: &mut Vec<u8>, part: &[Instr]) -> Result<(), OutOfMemory>
    requires { length part.now ≤ MOST_ITEMS }
    ensures bytes { OnOk result (out.new.items ≡ out.old.items ++ part_bytes part.now) }
    ensures real { OnOk result (All IsRealInstruction part.now) }
{
    put_count(out, part.len())?;
    for instruction in part {
        put_instruction(out, instruction)?;
    }
    Ok(())
}
