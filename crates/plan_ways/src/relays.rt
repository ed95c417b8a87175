//! Relays: the entries at which control only passes, and where their rows stand.

ghost use Rattle.std.specs.Prelude.{◌≡◌, ◌++◌, IfOk, OnOk, length};
ghost use Rattle.plan_ways.specs.Relays as rows;
ghost use Rattle.plan_ways.specs.Relays.{row_shape};

use crate::ends::{Way, WayEnd};
use crate::lasts::last_in;
use crate::levels::{Level, Naming, level_at};
use crate::stands::{Place, door_of, instruction_there};
use crate::tables::{note, write};
use host_code::{Code, Entry, Op};
use js_base::{EntryId, HostId, OutOfMemory, StmtId};
use std::alloc::Global;

/// What a host does at an entry at which control only passes.
#[derive(Clone, Copy)]
pub enum RelayRole {
    /// The program ends.
    End,
    /// The token is given back at once.
    GivesBack,
    /// Control is handed on, once or more.
    HandsOn,
}

/// An entry at which control only passes, and at which a way begins or ends.
#[derive(Clone, Copy)]
pub struct Relay {
    pub entry: EntryId,
    pub host: HostId,
    /// The number of the statement behind whose row its row stands.
    pub behind: usize,
    /// The statement of the instruction that pushes it or hands control on to it, the first one where none does.
    pub pushed_by: StmtId,
    pub role: RelayRole,
}

/// What relays are found by: the code, which instruction names each entry, to which entry each of them gives the token
/// of another back at once, and at which of them a way begins or ends.
#[derive(Clone, Copy)]
pub struct RelaySheet<'a> {
    pub code: &'a Code,
    pub namings: &'a [Option<Naming>],
    pub handed: &'a [Option<EntryId>],
    pub marks: &'a [bool],
}

/// The relays, those of greater numbers first. So inner ones come first among those behind one statement.
pub fn relays_of(
    alloc: Global,
    sheet: &RelaySheet<'_>,
    spots: &mut [usize],
) -> Result<Vec<Relay>, OutOfMemory>
    ensures { IfOk result (λ found. found.items
        ≡ rows.relays_below (row_shape sheet.now) (length sheet.now.code.now.entries) spots.old) }
{
    let mut found = Vec::new(alloc);
    let count = sheet.code.entries().len();
    for passed in 0..count {
        let entry = EntryId((count - 1 - passed) as u32);
        push_relay(&mut found, sheet, spots, entry)?;
        hand_down(sheet.handed, spots, entry);
    }
    Ok(found)
}

/// Adds the relay of an entry, where it has one.
fn push_relay(
    found: &mut Vec<Relay>,
    sheet: &RelaySheet<'_>,
    spots: &[usize],
    entry: EntryId,
) -> Result<(), OutOfMemory>
    ensures { OnOk result (found.new.items
        ≡ found.old.items ++ rows.relay_at (row_shape sheet.now) spots.now entry) }
{
    if !is_marked(sheet.marks, entry) {
        return Ok(());
    }
    let Some(there) = sheet.code.entry(entry) else {
        return Ok(());
    };
    found.push(relay_of(sheet, spots, entry, there))?;
    Ok(())
}

/// Whether a way begins or ends at an entry.
fn is_marked(marks: &[bool], entry: EntryId) -> bool
    ensures { result ≡ rows.is_marked marks.now entry }
{
    match marks.get(entry.0 as usize) {
        Some(mark) => *mark,
        None => false,
    }
}

/// The relay of an entry.
fn relay_of(sheet: &RelaySheet<'_>, spots: &[usize], entry: EntryId, there: Entry) -> Relay
    ensures { result ≡ rows.relay_of (row_shape sheet.now) spots.now entry there }
{
    Relay {
        entry,
        host: there.host,
        behind: spot_at(spots, entry),
        pushed_by: naming_statement(sheet.namings, entry),
        role: role_of(sheet.code, entry, there),
    }
}

/// The statement of the instruction that names an entry.
fn naming_statement(namings: &[Option<Naming>], entry: EntryId) -> StmtId
    ensures { result ≡ rows.naming_statement namings.now entry }
{
    match namings.get(entry.0 as usize) {
        Some(Some(naming)) => naming.statement,
        _ => StmtId(0),
    }
}

/// What a host does at an entry.
fn role_of(code: &Code, entry: EntryId, there: Entry) -> RelayRole
    ensures { result ≡ rows.role_of code.now entry there }
{
    if entry.0 == 0 {
        return RelayRole::End;
    }
    match code.instruction(there.host, there.at) {
        Some(instruction) => role_by(&instruction.op),
        None => RelayRole::HandsOn,
    }
}

/// What a host does at an entry with this instruction.
fn role_by(op: &Op) -> RelayRole
    ensures { result ≡ rows.role_by op.now }
{
    match op {
        Op::Back => RelayRole::GivesBack,
        _ => RelayRole::HandsOn,
    }
}

/// Where the row of an entry stands, as far as it is known.
fn spot_at(spots: &[usize], entry: EntryId) -> usize
    ensures { result ≡ rows.spot_at spots.now entry }
{
    match spots.get(entry.0 as usize) {
        Some(spot) => *spot,
        None => 0,
    }
}

/// The row of an entry stands behind this statement, or behind a greater one.
fn raise(spots: &mut [usize], entry: EntryId, statement: usize)
    ensures { spots.new ≡ rows.raised spots.old entry statement }
{
    if spot_at(spots, entry) < statement {
        write(spots, entry.0 as usize, statement);
    }
}

/// An entry that gives the token of another back at once stands no further down than that one.
fn hand_down(handed: &[Option<EntryId>], spots: &mut [usize], entry: EntryId)
    ensures { spots.new ≡ rows.handed_down handed.now spots.old entry }
{
    if let Some(Some(to)) = handed.get(entry.0 as usize) {
        let spot = spot_at(spots, entry);
        raise(spots, *to, spot);
    }
}

/// Where the rows of entries stand at the least: behind the instruction that names each, and behind each statement from
/// which its token is given back. The end of the program stands behind the last statement of `main`.
pub fn spots_of(
    alloc: Global,
    code: &Code,
    doors: &[WayEnd],
    lasts: &[usize],
    namings: &[Option<Naming>],
    levels: &[Option<Level>],
    places: &[Place],
) -> Result<Vec<usize>, OutOfMemory>
    ensures { IfOk result (λ spots. spots.items
        ≡ rows.spots_of code.now doors.now lasts.now namings.now levels.now places.now) }
{
    let mut spots = naming_spots(alloc, namings)?;
    write(&mut spots, 0, end_spot(code, doors, lasts));
    for place in places {
        note_back(&mut spots, code, lasts, levels, *place);
    }
    Ok(spots)
}

/// The statements of the instructions that name entries.
fn naming_spots(alloc: Global, namings: &[Option<Naming>]) -> Result<Vec<usize>, OutOfMemory>
    ensures { IfOk result (λ spots. spots.items ≡ rows.naming_spots namings.now) }
{
    let mut spots = Vec::new(alloc);
    for naming in namings {
        spots.push(naming_spot(*naming))?;
    }
    Ok(spots)
}

/// The statement of an instruction that names an entry.
fn naming_spot(naming: Option<Naming>) -> usize
    ensures { result ≡ rows.naming_spot naming }
{
    match naming {
        Some(naming) => naming.statement.0 as usize,
        None => 0,
    }
}

/// The last statement of `main`.
fn end_spot(code: &Code, doors: &[WayEnd], lasts: &[usize]) -> usize
    ensures { result ≡ rows.end_spot code.now doors.now lasts.now }
{
    match door_of(doors, code.main(), code.root()) {
        WayEnd::Statement(head) => last_in(lasts, head),
        _ => 0,
    }
}

/// Notes a statement from which the token of an entry is given back.
fn note_back(
    spots: &mut [usize],
    code: &Code,
    lasts: &[usize],
    levels: &[Option<Level>],
    place: Place,
)
    ensures { spots.new ≡ rows.with_back code.now lasts.now levels.now spots.old place }
{
    let Some(entry) = given_back(code, levels, place) else {
        return;
    };
    if let WayEnd::Statement(statement) = place.stand.station {
        raise(spots, entry, last_in(lasts, statement));
    }
}

/// The entry whose token is given back at a place.
fn given_back(code: &Code, levels: &[Option<Level>], place: Place) -> Option<EntryId>
    ensures { result ≡ rows.given_back code.now levels.now place }
{
    let instruction = instruction_there(code, place)?;
    given_by(&instruction.op, level_at(levels, place.stand))
}

/// The entry whose token an instruction gives back, where this token is held.
fn given_by(op: &Op, level: Option<Level>) -> Option<EntryId>
    ensures { result ≡ rows.given_by op.now level }
{
    match op {
        Op::Back => under(level),
        _ => None,
    }
}

/// The entry whose token is held, where it is that of an entry.
fn under(level: Option<Level>) -> Option<EntryId>
    ensures { result ≡ rows.under level }
{
    match level {
        Some(Level::Under(entry)) => Some(entry),
        _ => None,
    }
}

/// To which entry each entry gives the token back at once.
pub fn handed_of(
    alloc: Global,
    code: &Code,
    levels: &[Option<Level>],
    places: &[Place],
) -> Result<Vec<Option<EntryId>>, OutOfMemory>
    ensures { IfOk result (λ handed. handed.items ≡ rows.handed_of code.now levels.now places.now) }
{
    let mut handed = vec![in alloc; None; code.entries().len()]?;
    for place in places {
        note_handed(&mut handed, code, levels, *place);
    }
    Ok(handed)
}

/// Notes an entry from which the token of another is given back at once.
fn note_handed(handed: &mut [Option<EntryId>], code: &Code, levels: &[Option<Level>], place: Place)
    ensures { handed.new ≡ rows.with_handed code.now levels.now handed.old place }
{
    let Some(entry) = given_back(code, levels, place) else {
        return;
    };
    if let WayEnd::Relay(relay) = place.stand.station {
        note(handed, relay.0 as usize, entry);
    }
}

/// At which of so many entries a way begins or ends.
pub fn marks_of(alloc: Global, count: usize, ways: &[Way]) -> Result<Vec<bool>, OutOfMemory>
    ensures { IfOk result (λ marks. marks.items ≡ rows.marks_of count ways.now) }
{
    let mut marks = vec![in alloc; false; count]?;
    for way in ways {
        mark(&mut marks, way.begin);
        mark(&mut marks, way.end);
    }
    Ok(marks)
}

/// Marks the entry at which a way begins or ends.
fn mark(marks: &mut [bool], end: WayEnd)
    ensures { marks.new ≡ rows.with_end marks.old end }
{
    if let WayEnd::Relay(entry) = end {
        write(marks, entry.0 as usize, true);
    }
}
