//! The ways of an instruction: what it asks of another host, and whom it gives a result or the token back.

ghost use Rattle.std.specs.Prelude.{◌≡◌, ◌++◌, IfOk, OnOk, map, vec_items};
ghost use Rattle.plan_ways.specs.Ways as rules;
ghost use Rattle.plan_ways.specs.Ways.{sheet_shape};

use crate::ends::{Way, WayEnd, WayKind, WayText, push_kept};
use crate::levels::{Level, level_at};
use crate::readers::reader_on;
use crate::stands::{Place, door_of, instruction_there};
use host_code::{Code, Entry, Instr, Op};
use js_base::{EntryId, FieldId, HostId, OutOfMemory, StmtId, VarId};
use need_labels::Plan;
use std::alloc::Global;

/// What ways are found by: the code, the plan that it was made for, where control stands at each entry and whose token
/// it holds there, which entries stand behind calls, and who reads variables first.
#[derive(Clone, Copy)]
pub struct Sheet<'a> {
    pub code: &'a Code,
    pub plan: &'a Plan,
    pub doors: &'a [WayEnd],
    pub levels: &'a [Option<Level>],
    pub behind: &'a [Vec<EntryId>],
    pub readers: &'a [Vec<Option<StmtId>>],
}

/// The ways of the instructions at these places, but those whose ends are one row.
pub fn ways_at(alloc: Global, sheet: &Sheet<'_>, places: &[Place]) -> Result<Vec<Way>, OutOfMemory>
    ensures { IfOk result (λ found. found.items ≡ rules.ways_at (sheet_shape sheet.now) places.now) }
{
    let mut found = Vec::new(alloc);
    for place in places {
        push_place(&mut found, sheet, *place)?;
    }
    Ok(found)
}

/// Adds the ways of the instruction at a place.
fn push_place(ways: &mut Vec<Way>, sheet: &Sheet<'_>, place: Place) -> Result<(), OutOfMemory>
    ensures { OnOk result (ways.new.items ≡ ways.old.items ++ rules.place_ways (sheet_shape sheet.now) place) }
{
    let Some(instruction) = instruction_there(sheet.code, place) else {
        return Ok(());
    };
    push_kept(ways, asked_by(sheet, place, instruction))?;
    push_given(ways, sheet, place, instruction)?;
    Ok(())
}

/// What an instruction asks of another host, or of the host of the method that it calls.
fn asked_by(sheet: &Sheet<'_>, place: Place, instruction: &Instr) -> Option<Way>
    ensures { result ≡ rules.asked_by (sheet_shape sheet.now) place instruction.now }
{
    let statement = instruction.statement;
    match &instruction.op {
        Op::Read(field, _) => elsewhere(place, got(sheet, place, statement, *field)),
        Op::Put(field, _, _) => elsewhere(place, set(sheet, place, statement, *field)),
        Op::Send(variable, to) => elsewhere(place, sent(sheet, place, statement, *variable, *to)),
        Op::Pass(variable, to) => elsewhere(place, sent(sheet, place, statement, *variable, *to)),
        Op::Ask(entry, on) => elsewhere(place, asked(sheet, place, statement, *entry, *on)),
        Op::Go(entry, on) => elsewhere(place, gone(sheet, place, statement, *entry, *on, false)),
        Op::GoWith(entry, on, _) => {
            elsewhere(place, gone(sheet, place, statement, *entry, *on, true))
        }
        Op::Call(entry, on) => Some(called(sheet, place, statement, *entry, *on, false)),
        Op::CallWith(entry, on, _) => Some(called(sheet, place, statement, *entry, *on, true)),
        _ => None,
    }
}

/// A way that begins or ends on another host than that of the place.
fn elsewhere(place: Place, way: Way) -> Option<Way>
    ensures { result ≡ rules.elsewhere place way }
{
    if way.from.0 == way.to.0 {
        None
    } else {
        Some(way)
    }
}

/// The value of a field goes to the place.
fn got(sheet: &Sheet<'_>, place: Place, statement: StmtId, field: FieldId) -> Way
    ensures { result ≡ rules.got (sheet_shape sheet.now) place statement field }
{
    Way {
        kind: WayKind::Get,
        statement,
        host: place.host,
        at: place.at,
        from: sheet.plan.host_of_field(field),
        begin: WayEnd::Field(field),
        to: place.host,
        end: place.stand.station,
        what: WayText::Field(field),
        rides: false,
    }
}

/// A value goes to a field.
fn set(sheet: &Sheet<'_>, place: Place, statement: StmtId, field: FieldId) -> Way
    ensures { result ≡ rules.set (sheet_shape sheet.now) place statement field }
{
    let to = sheet.plan.host_of_field(field);
    let (end, what) = (WayEnd::Field(field), WayText::Field(field));
    going(WayKind::Set, place, statement, to, end, what)
}

/// A variable is sent.
fn sent(sheet: &Sheet<'_>, place: Place, statement: StmtId, variable: VarId, to: HostId) -> Way
    ensures { result ≡ rules.sent (sheet_shape sheet.now) place statement variable to }
{
    let end = reader_on(sheet.readers, to, variable);
    let what = WayText::Variable(variable);
    going(WayKind::Forward, place, statement, to, end, what)
}

/// An entry is pushed on another host.
fn asked(sheet: &Sheet<'_>, place: Place, statement: StmtId, entry: EntryId, on: HostId) -> Way
    ensures { result ≡ rules.asked (sheet_shape sheet.now) place statement entry on }
{
    let end = door_of(sheet.doors, entry, on);
    going(
        WayKind::Sync,
        place,
        statement,
        on,
        end,
        WayText::Entry(entry),
    )
}

/// Control goes on at an entry.
fn gone(
    sheet: &Sheet<'_>,
    place: Place,
    statement: StmtId,
    entry: EntryId,
    on: HostId,
    rides: bool,
) -> Way
    ensures { result ≡ rules.gone (sheet_shape sheet.now) place statement entry on rides }
{
    let end = door_of(sheet.doors, entry, on);
    let way = going(
        WayKind::Go,
        place,
        statement,
        on,
        end,
        WayText::Entry(entry),
    );
    riding(way, rides)
}

/// A method is called.
fn called(
    sheet: &Sheet<'_>,
    place: Place,
    statement: StmtId,
    entry: EntryId,
    on: HostId,
    rides: bool,
) -> Way
    ensures { result ≡ rules.called (sheet_shape sheet.now) place statement entry on rides }
{
    let end = door_of(sheet.doors, entry, on);
    let way = going(
        WayKind::Go,
        place,
        statement,
        on,
        end,
        WayText::Method(entry),
    );
    riding(way, rides)
}

/// A way that begins where control stands at the place.
fn going(
    kind: WayKind,
    place: Place,
    statement: StmtId,
    to: HostId,
    end: WayEnd,
    what: WayText,
) -> Way
    ensures { result ≡ rules.going kind place statement to end what }
{
    Way {
        kind,
        statement,
        host: place.host,
        at: place.at,
        from: place.host,
        begin: place.stand.station,
        to,
        end,
        what,
        rides: false,
    }
}

/// The same way, with values that ride or without.
fn riding(way: Way, rides: bool) -> Way
    ensures { result ≡ rules.riding way rides }
{
    let mut with = way;
    with.rides = rides;
    with
}

/// Adds the ways of a result or of the token to those to whom the instruction gives it.
fn push_given(
    ways: &mut Vec<Way>,
    sheet: &Sheet<'_>,
    place: Place,
    instruction: &Instr,
) -> Result<(), OutOfMemory>
    ensures { OnOk result (ways.new.items
        ≡ ways.old.items ++ rules.given_by (sheet_shape sheet.now) place instruction.now) }
{
    let statement = instruction.statement;
    match &instruction.op {
        Op::Ret(result, _) => push_results(ways, sheet, place, statement, *result),
        Op::Back => push_backs(ways, sheet, place, statement),
        _ => Ok(()),
    }
}

/// Adds the ways of a result to the entries behind the calls of its method on other hosts.
fn push_results(
    ways: &mut Vec<Way>,
    sheet: &Sheet<'_>,
    place: Place,
    statement: StmtId,
    variable: VarId,
) -> Result<(), OutOfMemory>
    ensures { OnOk result (ways.new.items
        ≡ ways.old.items ++ rules.result_ways (sheet_shape sheet.now) place statement variable
        (rules.level_of (sheet_shape sheet.now) place)) }
{
    let Some(Level::Body(method)) = level_at(sheet.levels, place.stand) else {
        return Ok(());
    };
    let entries = entries_behind(sheet.behind, method);
    for entry in entries {
        push_kept(ways, result_to(sheet, place, statement, variable, *entry))?;
    }
    Ok(())
}

/// The way of a result to an entry, where that stands on another host.
fn result_to(
    sheet: &Sheet<'_>,
    place: Place,
    statement: StmtId,
    variable: VarId,
    entry: EntryId,
) -> Option<Way>
    ensures { result ≡ rules.result_to (sheet_shape sheet.now) place statement variable entry }
{
    let there = sheet.code.entry(entry)?;
    let end = door_of(sheet.doors, entry, there.host);
    let what = WayText::Result(variable);
    elsewhere(
        place,
        going(WayKind::Forward, place, statement, there.host, end, what),
    )
}

/// Adds the ways of the token that is given back at a place.
fn push_backs(
    ways: &mut Vec<Way>,
    sheet: &Sheet<'_>,
    place: Place,
    statement: StmtId,
) -> Result<(), OutOfMemory>
    ensures { OnOk result (ways.new.items
        ≡ ways.old.items ++ rules.back_ways (sheet_shape sheet.now) place statement
        (rules.level_of (sheet_shape sheet.now) place)) }
{
    match level_at(sheet.levels, place.stand) {
        None => Ok(()),
        Some(Level::Under(entry)) => {
            push_kept(ways, back_elsewhere(sheet, place, statement, entry))
        }
        Some(Level::Body(method)) => push_returns(ways, sheet, place, statement, method),
    }
}

/// Adds the ways back from the end of the method that begins at an entry.
fn push_returns(
    ways: &mut Vec<Way>,
    sheet: &Sheet<'_>,
    place: Place,
    statement: StmtId,
    method: EntryId,
) -> Result<(), OutOfMemory>
    ensures { OnOk result (ways.new.items
        ≡ ways.old.items ++ rules.return_ways (sheet_shape sheet.now) place statement method) }
{
    push_kept(ways, end_of_main(sheet, place, statement, method))?;
    let entries = entries_behind(sheet.behind, method);
    for entry in entries {
        push_kept(ways, back_to(sheet, place, statement, *entry))?;
    }
    Ok(())
}

/// The way to the end of the program, where `main` ends on another host than the root.
fn end_of_main(sheet: &Sheet<'_>, place: Place, statement: StmtId, method: EntryId) -> Option<Way>
    ensures { result ≡ rules.end_of_main (sheet_shape sheet.now) place statement method }
{
    if method.0 == sheet.code.main().0 {
        back_elsewhere(sheet, place, statement, EntryId(0))
    } else {
        None
    }
}

/// The way of the token back to an entry, where that stands on another host.
fn back_elsewhere(sheet: &Sheet<'_>, place: Place, statement: StmtId, entry: EntryId) -> Option<Way>
    ensures { result ≡ rules.back_elsewhere (sheet_shape sheet.now) place statement entry }
{
    elsewhere(place, back_to(sheet, place, statement, entry)?)
}

/// The way of the token back to an entry, where there is one.
fn back_to(sheet: &Sheet<'_>, place: Place, statement: StmtId, entry: EntryId) -> Option<Way>
    ensures { result ≡ rules.back_to (sheet_shape sheet.now) place statement entry }
{
    let there = sheet.code.entry(entry)?;
    let end = door_of(sheet.doors, entry, there.host);
    let what = WayText::Entry(entry);
    Some(going(WayKind::Back, place, statement, there.host, end, what))
}

/// The entries behind the calls of the method that begins at an entry.
fn entries_behind(behind: &[Vec<EntryId>], method: EntryId) -> &[EntryId]
    ensures { result.now ≡ rules.entries_behind (map vec_items behind.now) method }
{
    match behind.get(method.0 as usize) {
        Some(entries) => entries,
        None => &[],
    }
}
