//! Which operands of `declassify` the instructions of split programs release, where they are evaluated: from the left
//! and inner before outer, each by one instruction.

use crate::rows::{cell, same};
use front_end::{as_loaded, code_of, read_places, releases_of};
use host_code::{Code, CodeExpr, Node, instruction_text, var_name};
use js_base::limits::{HOSTS_BYTES, PROGRAM_BYTES};
use js_base::text::owned_text;
use js_base::{BinOp, HostId};
use split_rules::ReleaseTable;
use std::alloc::Global;
use std::process::Abort;
use std::test::Fail;

/// A program whose parts all stand on T, its hosts, and a line for each instruction that releases something.
///
/// A `declassify` in a `declassify` is evaluated first. What stands within an index that is read is evaluated by the
/// read, and by nothing else. Where an element is assigned its index comes before the value. Of a call each argument is
/// evaluated by itself, and the result that is kept behind the call releases nothing. A guard is evaluated by its
/// branch.
const ON_ONE_HOST: &str = "\
    int{Alice:; ?:Alice} i;\n\
    int{Alice:; ?:Alice} k;\n\
    int{?:Alice} a[4];\n\
    void main{?:Alice}() where authority(Alice) {\n\
    int{?:Alice} x = declassify(declassify(k, {}) + 1, {});\n\
    x = a[declassify(i, {})];\n\
    a[declassify(i, {})] = declassify(k, {});\n\
    x = shown(declassify(i, {}), k);\n\
    while (declassify(k > 0, {})) { k = k - 1; }\n\
    }\n\
    int{?:Alice} shown{?:Alice}(int{?:Alice} place, int{Alice:; ?:Alice} value) where authority(Alice) {\n\
    return declassify(value, {});\n\
    }\n | \
    principals = ['Alice']\n\
    [[host]]\nname = 'T'\nlabel = '{Alice:; ?:Alice}'\n | \
    T let t0, t0 1 +\n\
    T read t0\n\
    T store t0, t1\n\
    T arg t0\n\
    T branch t0 0 >\n\
    T ret shown.value\n";

/// Where nothing is released no instruction has an operand.
const NOTHING: &str = "\
    int{Alice:; ?:Alice} k;\n\
    void main{?:Alice}() { k = k + 1; }\n | \
    principals = ['Alice']\n\
    [[host]]\nname = 'T'\nlabel = '{Alice:; ?:Alice}'\n | ";

/// A node as it is written here.
fn node_text(alloc: Global, code: &Code, node: Node) -> Result<String, Fail> {
    match node {
        Node::Number(value) => Ok(format!(in alloc; "{value}")?),
        Node::Var(var) => Ok(owned_text(alloc, var_name(code, var))?),
        Node::Temp(place) => Ok(format!(in alloc; "t{place}")?),
        Node::Binary(BinOp::Add) => Ok(owned_text(alloc, "+")?),
        Node::Binary(BinOp::Greater) => Ok(owned_text(alloc, ">")?),
        _ => Err(Fail::from("an operator that these programs do not have")),
    }
}

/// The nodes of an operand, parted by spaces.
fn operand_text(alloc: Global, code: &Code, operand: &CodeExpr) -> Result<String, Fail> {
    let mut nodes = Vec::new(alloc);
    for node in operand.nodes() {
        nodes.push(node_text(alloc, code, *node)?)?;
    }
    Ok(nodes.join(alloc, " ")?)
}

/// The line of the instruction of T at a place, and nothing where it releases nothing.
fn line_at(
    alloc: Global,
    code: &Code,
    table: &ReleaseTable,
    at: u32,
    word: &str,
) -> Result<String, Fail> {
    let mut operands = Vec::new(alloc);
    for operand in table.operands(HostId(0), at) {
        operands.push(operand_text(alloc, code, operand)?)?;
    }
    if operands.is_empty() {
        return Ok(String::new(alloc));
    }
    let list = operands.join(alloc, ", ")?;
    Ok(format!(in alloc; "T {word} {list}\n")?)
}

/// The lines of T's instructions.
fn released_lines(alloc: Global, code: &Code, table: &ReleaseTable) -> Result<String, Fail> {
    let mut lines = String::new(alloc);
    for (at, instruction) in code.part(HostId(0)).iter().enumerate() {
        if at > 100 {
            return Err(Fail::from("more instructions than these programs have"));
        }
        let text = instruction_text(alloc, code, &instruction.op)?;
        let (word, _) = text.as_str().split_once(" ").unwrap_or((text.as_str(), ""));
        let line = line_at(alloc, code, table, at as u32, word)?;
        lines.push_str(line.as_str())?;
    }
    Ok(lines)
}

/// The instructions of a program release what is due.
fn releases(rt: &impl Abort, alloc: Global, case: &str) -> Result<(), Fail> {
    let program = as_loaded(owned_text(alloc, cell(case, 0))?, PROGRAM_BYTES);
    let hosts = as_loaded(owned_text(alloc, cell(case, 1))?, HOSTS_BYTES);
    let Ok(placed) = read_places(alloc, &program, &hosts) else {
        return Err(Fail::from("no program in its places"));
    };
    let code = code_of(alloc, &placed)?;
    let table = releases_of(alloc, &placed, &code)?;
    let lines = released_lines(alloc, &code, &table)?;
    same(rt, cell(case, 0), lines.as_str(), cell(case, 2));
    Ok(())
}

#[test]
fn instructions_release_operands_once(rt: HostRuntime) -> Result<(), Fail> {
    let alloc = rt.alloc();
    releases(&rt, alloc, ON_ONE_HOST)?;
    releases(&rt, alloc, NOTHING)
}
