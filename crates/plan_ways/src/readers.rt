//! Which statement of a host reads a variable first.

ghost use Rattle.std.specs.Prelude.{◌≡◌, IfOk, map, vec_items};
ghost use Rattle.plan_ways.specs.Readers as reading;

use crate::ends::WayEnd;
use crate::tables::note;
use host_code::{Code, Instr, Node, Op};
use js_base::limits::HOSTS;
use js_base::{HostId, OutOfMemory, StmtId, VarId};
use std::alloc::Global;

/// For each host and each variable the statement whose instructions there read it first.
pub fn readers_of(alloc: Global, code: &Code) -> Result<Vec<Vec<Option<StmtId>>>, OutOfMemory>
    ensures { IfOk result (λ readers. map vec_items readers.items ≡ reading.readers_of code.now) }
{
    let mut readers = Vec::new(alloc);
    let count = code.hosts().len();
    prove!(count <= HOSTS);
    for number in 0..count {
        readers.push(readers_on(alloc, code, HostId(number as u8))?)?;
    }
    Ok(readers)
}

/// The same of one host.
fn readers_on(alloc: Global, code: &Code, host: HostId) -> Result<Vec<Option<StmtId>>, OutOfMemory>
    ensures { IfOk result (λ table. table.items ≡ reading.readers_on code.now host) }
{
    let mut table = vec![in alloc; None; code.vars().len()]?;
    let part = code.part(host);
    for instruction in part {
        note_instruction(&mut table, instruction);
    }
    Ok(table)
}

/// Notes what the expressions of an instruction read.
fn note_instruction(table: &mut [Option<StmtId>], instruction: &Instr)
    ensures { table.new ≡ reading.with_instruction table.old instruction.now }
{
    let statement = instruction.statement;
    match &instruction.op {
        Op::Read(_, index) => note_nodes(table, statement, index.nodes()),
        Op::Let(_, value) => note_nodes(table, statement, value.nodes()),
        Op::Put(_, index, value) => {
            note_nodes(table, statement, index.nodes());
            note_nodes(table, statement, value.nodes());
        }
        Op::Arg(_, value) => note_nodes(table, statement, value.nodes()),
        Op::Ret(_, value) => note_nodes(table, statement, value.nodes()),
        Op::Branch(guard, _) => note_nodes(table, statement, guard.nodes()),
        _ => {}
    }
}

/// Notes what these nodes of an expression of a statement read.
fn note_nodes(table: &mut [Option<StmtId>], statement: StmtId, nodes: &[Node])
    ensures { table.new ≡ reading.with_nodes table.old statement nodes.now }
{
    for node in nodes {
        note_node(table, statement, *node);
    }
}

/// Notes the variable that a node reads, where none before did.
fn note_node(table: &mut [Option<StmtId>], statement: StmtId, node: Node)
    ensures { table.new ≡ reading.with_node table.old statement node }
{
    let Node::Var(variable) = node else {
        return;
    };
    note(table, variable.0 as usize, statement);
}

/// Where a host takes a variable: at the statement that reads it first, at the host's name where none does.
pub fn reader_on(readers: &[Vec<Option<StmtId>>], host: HostId, variable: VarId) -> WayEnd
    ensures { result ≡ reading.reader_on (map vec_items readers.now) host variable }
{
    match readers.get(host.0 as usize) {
        Some(table) => reader_in(table, host, variable),
        None => WayEnd::Host(host),
    }
}

/// The same, by the table of the host.
fn reader_in(table: &[Option<StmtId>], host: HostId, variable: VarId) -> WayEnd
    ensures { result ≡ reading.reader_in table.now host variable }
{
    match table.get(variable.0 as usize) {
        Some(Some(statement)) => WayEnd::Statement(*statement),
        _ => WayEnd::Host(host),
    }
}
