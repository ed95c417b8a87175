//! Where control stands at each place of the code, and which entry was pushed last on the way there.

ghost use Rattle.std.specs.Prelude.{◌≡◌, ◌++◌, IfOk, OnOk, None, option_copied};
ghost use Rattle.host_code.specs.Code.{instruction_at};
ghost use Rattle.plan_ways.specs.Stands as stands;

use crate::ends::WayEnd;
use crate::tables::{note, write};
use host_code::{Code, Entry, Instr, Op};
use js_base::limits::HOSTS;
use js_base::{EntryId, HostId, OutOfMemory, StmtId};
use std::alloc::Global;

/// Where control stands, and whose token the thread holds there: that of the entry that was pushed last, or the one
/// with which it came in.
#[derive(Clone, Copy)]
pub struct Stand {
    pub station: WayEnd,
    /// The entry through which the way to the place leads, 0 where none is known.
    pub entrance: EntryId,
    /// The entry that was pushed last behind it.
    pub pushed: Option<EntryId>,
}

/// A place of the code: the number of an instruction of a host, and where control stands there.
#[derive(Clone, Copy)]
pub struct Place {
    pub host: HostId,
    pub at: usize,
    pub stand: Stand,
}

/// The instruction at a place.
pub fn instruction_there(code: &Code, place: Place) -> Option<&Instr>
    ensures { option_copied result ≡ instruction_at code.now place.host place.at }
{
    code.part(place.host).get(place.at)
}

/// The places of all instructions, by hosts and numbers. `doors` has where control stands at each entry.
pub fn places_of(alloc: Global, code: &Code, doors: &[WayEnd]) -> Result<Vec<Place>, OutOfMemory>
    ensures { IfOk result (λ places. places.items ≡ stands.code_places code.now doors.now) }
{
    let mut places = Vec::new(alloc);
    let count = code.hosts().len();
    prove!(count <= HOSTS);
    for number in 0..count {
        push_places(alloc, &mut places, code, doors, HostId(number as u8))?;
    }
    Ok(places)
}

/// Adds the places of the instructions of a host.
fn push_places(
    alloc: Global,
    places: &mut Vec<Place>,
    code: &Code,
    doors: &[WayEnd],
    host: HostId,
) -> Result<(), OutOfMemory>
    ensures { OnOk result (places.new.items ≡ places.old.items ++ stands.host_places code.now doors.now host) }
{
    let mut arrivals = arrivals_of(alloc, code, doors, host)?;
    push_part(places, &mut arrivals, host, code.part(host))
}

/// Adds the places of these instructions of a host, where this is known of the ways to them.
fn push_part(
    places: &mut Vec<Place>,
    arrivals: &mut [Option<Stand>],
    host: HostId,
    part: &[Instr],
) -> Result<(), OutOfMemory>
    ensures { OnOk result (places.new.items ≡ places.old.items
        ++ stands.places_from host 0 arrivals.old None part.now) }
{
    let mut before = None;
    for (at, instruction) in part.iter().enumerate() {
        let stand = stood(arrived(arrivals, host, at, before), instruction);
        places.push(Place { host, at, stand })?;
        land(arrivals, stand, &instruction.op);
        before = passed(stand, &instruction.op);
    }
    Ok(())
}

/// Where nothing is known of the way to a place of a host.
fn first_stand(host: HostId) -> Stand
    ensures { result ≡ stands.first_stand host }
{
    Stand {
        station: WayEnd::Host(host),
        entrance: EntryId(0),
        pushed: None,
    }
}

/// How control comes to a place of a host: from the place before it, where that leads on, and otherwise through an
/// entry or a branch.
fn arrived(arrivals: &[Option<Stand>], host: HostId, at: usize, before: Option<Stand>) -> Stand
    ensures { result ≡ stands.arrived arrivals.now host at before }
{
    match before {
        Some(stand) => stand,
        None => entered_at(arrivals, host, at),
    }
}

/// How control comes to a place of a host to which the one before it does not lead.
fn entered_at(arrivals: &[Option<Stand>], host: HostId, at: usize) -> Stand
    ensures { result ≡ stands.entered_at arrivals.now host at }
{
    match arrivals.get(at) {
        Some(Some(stand)) => *stand,
        _ => first_stand(host),
    }
}

/// Where control stands at an instruction, where it stood here before it.
fn stood(before: Stand, instruction: &Instr) -> Stand
    ensures { result ≡ stands.stood before instruction.now }
{
    let mut here = before;
    here.station = station_at(before.station, instruction);
    here
}

/// The station at an instruction, where this is the one before it.
pub fn station_at(before: WayEnd, instruction: &Instr) -> WayEnd
    ensures { result ≡ stands.station_at before instruction.now }
{
    if is_moving(&instruction.op) {
        WayEnd::Statement(instruction.statement)
    } else {
        before
    }
}

/// Whether control stands at the statement of the instruction while it runs.
fn is_moving(op: &Op) -> bool
    ensures { result ≡ stands.is_moving op.now }
{
    match op {
        Op::Push(_) => false,
        Op::Ask(_, _) => false,
        Op::Go(_, _) => false,
        Op::GoWith(_, _, _) => false,
        Op::Back => false,
        _ => true,
    }
}

/// Behind an instruction, where that leads on to the next place.
fn passed(here: Stand, op: &Op) -> Option<Stand>
    ensures { result ≡ stands.passed here op.now }
{
    match op {
        Op::Push(entry) => Some(with_pushed(here, *entry)),
        Op::Ask(entry, _) => Some(with_pushed(here, *entry)),
        Op::Go(_, _) => None,
        Op::GoWith(_, _, _) => None,
        Op::Call(_, _) => None,
        Op::CallWith(_, _, _) => None,
        Op::Back => None,
        _ => Some(here),
    }
}

/// An entry is pushed.
fn with_pushed(here: Stand, entry: EntryId) -> Stand
    ensures { result ≡ stands.with_pushed here entry }
{
    let Stand {
        station,
        entrance,
        ..
    } = here;
    Stand {
        station,
        entrance,
        pushed: Some(entry),
    }
}

/// Notes where a branch leads.
fn land(arrivals: &mut [Option<Stand>], here: Stand, op: &Op)
    ensures { arrivals.new ≡ stands.landed arrivals.old here op.now }
{
    if let Op::Branch(_, target) = op {
        write(arrivals, *target as usize, Some(here));
    }
}

/// What is known of the ways to the places of a host before any instruction is looked at: its entries.
fn arrivals_of(
    alloc: Global,
    code: &Code,
    doors: &[WayEnd],
    host: HostId,
) -> Result<Vec<Option<Stand>>, OutOfMemory>
    ensures { IfOk result (λ table. table.items ≡ stands.arrivals_of code.now doors.now host) }
{
    let mut table = vec![in alloc; None; code.part(host).len()]?;
    let entries = code.entries();
    for (number, there) in entries.iter().enumerate() {
        enter(&mut table, doors, host, EntryId(number as u32), *there);
    }
    Ok(table)
}

/// Notes an entry at its place, where it is one of the host, does not end the program, and none before it is there.
fn enter(table: &mut [Option<Stand>], doors: &[WayEnd], host: HostId, entry: EntryId, there: Entry)
    ensures { table.new ≡ stands.entered doors.now host table.old entry.0 there }
{
    if entry.0 == 0 {
        return;
    }
    if there.host.0 != host.0 {
        return;
    }
    let stand = Stand {
        station: door_of(doors, entry, host),
        entrance: entry,
        pushed: None,
    };
    note(table, there.at as usize, stand);
}

/// Where control stands at an entry of a host, at the host's name where there is no such entry.
pub fn door_of(doors: &[WayEnd], entry: EntryId, host: HostId) -> WayEnd
    ensures { result ≡ stands.door_of doors.now entry host }
{
    match doors.get(entry.0 as usize) {
        Some(door) => *door,
        None => WayEnd::Host(host),
    }
}

/// Where control stands at each entry. `heads` are those of the methods.
pub fn doors_of(alloc: Global, code: &Code, heads: &[StmtId]) -> Result<Vec<WayEnd>, OutOfMemory>
    ensures { IfOk result (λ doors. doors.items ≡ stands.doors_of code.now heads.now) }
{
    let mut doors = Vec::new(alloc);
    let entries = code.entries();
    for (number, there) in entries.iter().enumerate() {
        doors.push(door_at(code, heads, EntryId(number as u32), *there))?;
    }
    Ok(doors)
}

/// Where control stands at an entry.
fn door_at(code: &Code, heads: &[StmtId], entry: EntryId, there: Entry) -> WayEnd
    ensures { result ≡ stands.door_at code.now heads.now entry.0 there }
{
    let passing = WayEnd::Relay(entry);
    if entry.0 == 0 {
        return passing;
    }
    if let Some(head) = head_at(heads, entry) {
        return WayEnd::Statement(head);
    }
    match first_done(code.part(there.host), there.at as usize) {
        Some(instruction) => station_at(passing, instruction),
        None => passing,
    }
}

/// The first instruction from a place on that is no push.
fn first_done(part: &[Instr], at: usize) -> Option<&Instr>
    ensures { option_copied result ≡ stands.first_done part.now at }
{
    if part.len() < at {
        return None;
    }
    let rest = &part[at..];
    for instruction in rest {
        if is_done(&instruction.op) {
            return Some(instruction);
        }
    }
    None
}

/// Whether an instruction does more than to push an entry on its own host.
fn is_done(op: &Op) -> bool
    ensures { result ≡ stands.is_done op.now }
{
    match op {
        Op::Push(_) => false,
        _ => true,
    }
}

/// The head of the method that is entered at an entry, where there is one.
pub fn head_at(heads: &[StmtId], entry: EntryId) -> Option<StmtId>
    ensures { result ≡ stands.head_at heads.now entry.0 }
{
    match entry.0 {
        0 => None,
        place => heads.get(place as usize - 1).copied(),
    }
}
