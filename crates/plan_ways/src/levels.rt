//! Whose token is held at a place, and which entries stand behind the calls of a method.

ghost use Rattle.std.specs.Prelude.{◌≡◌, ◌≤◌, ◌++◌, ◌∷◌, [], IfOk, OnOk, length, map, replicate, vec_items};
ghost use Rattle.host_code.specs.declared.code.TheConstants.{MOST_ITEMS};
ghost use Rattle.plan_ways.specs.Levels as holding;

use crate::stands::{Place, Stand, head_at, instruction_there};
use crate::tables::note;
use host_code::{Code, Instr, Op};
use js_base::{EntryId, OutOfMemory, StmtId};
use std::alloc::Global;

/// Whose token is held.
#[derive(Clone, Copy)]
pub enum Level {
    /// The one with which the method was entered that begins at the entry.
    Body(EntryId),
    /// That of an entry that was pushed.
    Under(EntryId),
}

/// The instruction that names an entry, by its statement, and where control stood there before it.
#[derive(Clone, Copy)]
pub struct Naming {
    pub statement: StmtId,
    pub stand: Stand,
}

/// The instruction that names each entry, where one does.
pub fn namings_of(
    alloc: Global,
    code: &Code,
    places: &[Place],
) -> Result<Vec<Option<Naming>>, OutOfMemory>
    ensures table { IfOk result (λ table. table.items ≡ holding.namings_of code.now places.now) }
    ensures few { IfOk result (λ table. length table.items ≤ MOST_ITEMS) }
{
    let entries = code.entries();
    let mut table = vec![in alloc; None; entries.len()]?;
    for place in places {
        note_naming(&mut table, code, *place);
    }
    Ok(table)
}

/// Notes which entry the instruction at a place names.
fn note_naming(table: &mut [Option<Naming>], code: &Code, place: Place)
    ensures { table.new ≡ holding.with_naming code.now table.old place }
{
    let Some(instruction) = instruction_there(code, place) else {
        return;
    };
    let Some(entry) = named_by(&instruction.op) else {
        return;
    };
    let naming = Naming {
        statement: instruction.statement,
        stand: place.stand,
    };
    note(table, entry.0 as usize, naming);
}

/// The entry that an instruction pushes or hands control on to.
fn named_by(op: &Op) -> Option<EntryId>
    ensures { result ≡ holding.named_by op.now }
{
    match op {
        Op::Push(entry) => Some(*entry),
        Op::Ask(entry, _) => Some(*entry),
        Op::Go(entry, _) => Some(*entry),
        Op::GoWith(entry, _, _) => Some(*entry),
        _ => None,
    }
}

/// Whose token is held where control comes in at each entry. `heads` are those of the methods.
pub fn levels_of(
    alloc: Global,
    heads: &[StmtId],
    namings: &[Option<Naming>],
) -> Result<Vec<Option<Level>>, OutOfMemory>
    requires { length namings.now ≤ MOST_ITEMS }
    ensures { IfOk result (λ known. known.items ≡ holding.levels_of heads.now namings.now) }
{
    let mut known = Vec::new(alloc);
    for (number, naming) in namings.iter().enumerate() {
        let level = entry_level(&known, heads, EntryId(number as u32), *naming);
        known.push(level)?;
    }
    Ok(known)
}

/// Whose token is held where control comes in at an entry, by what is known of those before it.
fn entry_level(
    known: &[Option<Level>],
    heads: &[StmtId],
    entry: EntryId,
    naming: Option<Naming>,
) -> Option<Level>
    ensures { result ≡ holding.entry_level known.now heads.now entry.0 naming }
{
    match head_at(heads, entry) {
        Some(_) => Some(Level::Body(entry)),
        None => level_at(known, naming?.stand),
    }
}

/// Whose token is held where control stands, where this is known of the entries.
pub fn level_at(known: &[Option<Level>], stand: Stand) -> Option<Level>
    ensures { result ≡ holding.level_at known.now stand }
{
    match stand.pushed {
        Some(entry) => Some(Level::Under(entry)),
        None => *known.get(stand.entrance.0 as usize)?,
    }
}

/// The entries behind the calls of the method that begins at each entry.
pub fn behind_calls(
    alloc: Global,
    code: &Code,
    places: &[Place],
) -> Result<Vec<Vec<EntryId>>, OutOfMemory>
    ensures { IfOk result (λ behind. map vec_items behind.items ≡ holding.behind_calls code.now places.now) }
{
    let mut behind = empty_lists(alloc, code.entries().len())?;
    for place in places {
        note_call(&mut behind, code, *place)?;
    }
    Ok(behind)
}

/// So many empty lists.
fn empty_lists(alloc: Global, count: usize) -> Result<Vec<Vec<EntryId>>, OutOfMemory>
    ensures { IfOk result (λ lists. map vec_items lists.items ≡ replicate count []) }
{
    let mut lists = Vec::new(alloc);
    for _made in 0..count {
        lists.push(Vec::new(alloc))?;
    }
    Ok(lists)
}

/// Notes the entry behind the call at a place.
fn note_call(behind: &mut Vec<Vec<EntryId>>, code: &Code, place: Place) -> Result<(), OutOfMemory>
    ensures { OnOk result (map vec_items behind.new.items
        ≡ holding.with_call code.now (map vec_items behind.old.items) place) }
{
    let Some(instruction) = instruction_there(code, place) else {
        return Ok(());
    };
    let Some(method) = called_by(&instruction.op) else {
        return Ok(());
    };
    let Some(entry) = place.stand.pushed else {
        return Ok(());
    };
    push_behind(behind, method, entry)
}

/// Adds an entry to those behind the calls of a method.
fn push_behind(
    behind: &mut Vec<Vec<EntryId>>,
    method: EntryId,
    entry: EntryId,
) -> Result<(), OutOfMemory>
    ensures { OnOk result (map vec_items behind.new.items
        ≡ holding.pushed_behind (map vec_items behind.old.items) method entry) }
{
    let place = method.0 as usize;
    if place < behind.len() {
        push_to(&mut behind[place], entry)?;
    }
    Ok(())
}

/// Adds an entry to a list.
fn push_to(list: &mut Vec<EntryId>, entry: EntryId) -> Result<(), OutOfMemory>
    ensures { OnOk result (list.new.items ≡ list.old.items ++ entry ∷ []) }
{
    list.push(entry)?;
    Ok(())
}

/// The entry of the method that an instruction calls.
fn called_by(op: &Op) -> Option<EntryId>
    ensures { result ≡ holding.called_by op.now }
{
    match op {
        Op::Call(method, _) => Some(*method),
        Op::CallWith(method, _, _) => Some(*method),
        _ => None,
    }
}
