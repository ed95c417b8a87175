//! What two runs have in common, as far as misbehaving hosts may see them.

ghost use Rattle.std.specs.Prelude.{◌≡◌, ◌≢◌, ◌↔◌, ℕ, ℤ, List, Some, IfOk, IsTrue, MatchOption, map, option_copied};
ghost use Rattle.std.specs.Prelude.{slice_get, ◌++◌};
ghost use Rattle.js_base.specs.declared.status.Status.{Status};
ghost use Rattle.host_code.specs.Code.{CodeShape};
ghost use Rattle.net_world.specs.Fits.{WorldFits, world_of};
ghost use Rattle.std.specs.String.{string_bytes};
ghost use Rattle.net_world.specs.World.{WorldShape};
ghost use Rattle.net_world.specs.Released.{OneIsFront};
ghost use Rattle.run_comparison.specs.Compare.{Compared, DifferAt, GoApart, IsFirstUnlike, IsPromptRun};
ghost use Rattle.run_comparison.specs.Compare.{SameBits, SameEvents, SameValues, StartAlike, StartsUnlike, agree_text};
ghost use Rattle.run_comparison.specs.Compare.{differ_text};
ghost use Rattle.run_comparison.specs.ReleaseLines.{release_lines};
ghost use Rattle.run_comparison.specs.FollowedRuns.{run_with};
ghost use Rattle.front_end.specs.Loading.{EndsAs};
ghost use Rattle.front_end.specs.PlacedShapes.{placed_shape};
ghost use Rattle.net_world.specs.Replay.{events_in};
ghost use Rattle.front_end.specs.Verdicts.{Print, verdict_shape};

use crate::following::Seen;
use crate::message_parts::{is_same_event, is_same_sent};
use crate::release_lines::push_release_lines;
use crate::releasing::first_release;
use event_text::Event;
use front_end::{LineCause, PlacedSource, Stop, Verdict, stopped};
use host_code::{Code, CodeField, Message};
use jif_tree::{Row, Store};
use js_base::{HostId, OutOfMemory, Status};
use net_world::World;
use std::alloc::Global;

/// Whether the same hosts misbehave in both runs, by a bit for each host.
pub fn same_misbehave(one: u16, other: u16) -> Result<(), Stop>
    ensures { EndsAs (λ _. tt) (SameBits one other) result }
{
    if one == other {
        Ok(())
    } else {
        Err(Stop::Due(Verdict::bad_differ()))
    }
}

/// The first field whose starting values differ, where an obeying host has it and misbehaving hosts may read it.
pub fn unlike_field<'a>(
    code: &'a Code,
    world: &World,
    one: &Store,
    other: &Store,
) -> Option<&'a CodeField>
    requires { WorldFits code.now world.now }
    ensures { MatchOption result
        (StartAlike code.now (world_of world.now) one.now other.now)
        (λ field. (number : ℕ) × IsFirstUnlike code.now (world_of world.now) one.now other.now number field.now) }
{
    for (number, field) in code.fields().iter().enumerate() {
        if starts_unlike(code, world, one, other, number, field) {
            return Some(field);
        }
    }
    None
}

/// Whether the starting values of the field of this number differ, an obeying host has it, and misbehaving hosts may
/// read it.
fn starts_unlike(
    code: &Code,
    world: &World,
    one: &Store,
    other: &Store,
    number: usize,
    field: &CodeField,
) -> bool
    requires fits { WorldFits code.now world.now }
    requires there { slice_get code.now.fields number ≡ Some field.now }
    ensures { IsTrue result ↔ StartsUnlike code.now (world_of world.now) one.now other.now number }
{
    world.readable(code, field.label())
        && world.host(field.host()).is_some()
        && are_unlike(one.rows().get(number), other.rows().get(number))
}

/// Whether two rows differ, of which either may be missing.
fn are_unlike(one: Option<&Row>, other: Option<&Row>) -> bool
    ensures { IsTrue result ↔ (option_copied one.entry ≢ option_copied other.entry) }
{
    match (one, other) {
        (Some(one), Some(other)) => !is_same_row(one, other),
        (None, None) => false,
        _ => true,
    }
}

/// Whether two rows have the same elements.
fn is_same_row(one: &Row, other: &Row) -> bool
    ensures { IsTrue result ↔ (one.now ≡ other.now) }
{
    one.elements() == other.elements()
}

/// Whether no field starts unlike.
pub fn same_starts(alloc: Global, unlike: Option<&CodeField>) -> Result<(), Stop>
    ensures { (code : CodeShape) (world : WorldShape) (one other : List (List ℤ)) →
        MatchOption unlike.entry (StartAlike code world one other)
        (λ field. (number : ℕ) × IsFirstUnlike code world one other number field.now) →
        EndsAs (λ _. tt) (SameValues code world one other) result }
{
    match unlike {
        None => Ok(()),
        Some(field) => Err(stopped(Verdict::starts_differ(alloc, field.name()))),
    }
}

/// Whether the events that may be seen are alike, of which the first are those of a file of this name.
pub fn same_events(alloc: Global, name: &str, one: &Seen<'_>, other: &Seen<'_>) -> Result<(), Stop>
    ensures { (last last_too : WorldShape) →
        EndsAs (λ _. tt) (SameEvents name.now (run_with one.now last) (run_with other.now last_too)) result }
{
    match going_apart(&one.events, &other.events) {
        None => Ok(()),
        Some(line) => {
            Err(stopped(Verdict::at_line(alloc, name, line, LineCause::EventsDiffer)))
        },
    }
}

/// The line of the first list on which the events go apart.
fn going_apart(one: &[&(u32, Event)], other: &[&(u32, Event)]) -> Option<u32>
    ensures { MatchOption result
        (OneIsFront (events_in (map (λ it. it.now) one.now)) (events_in (map (λ it. it.now) other.now)))
        (GoApart (map (λ it. it.now) one.now) (map (λ it. it.now) other.now)) }
{
    for place in 0..one.len().min(other.len()) {
        if !is_same_event(&one[place].1, &other[place].1) {
            return Some(one[place].0);
        }
    }
    None
}

/// Whether the world was quiet at each event of a script of this name that may be seen.
pub fn is_prompt(alloc: Global, name: &str, seen: &Seen<'_>) -> Result<(), Stop>
    ensures { (last : WorldShape) → EndsAs (λ _. tt) (IsPromptRun name.now (run_with seen.now last)) result }
{
    match seen.late {
        None => Ok(()),
        Some(line) => { Err(stopped(Verdict::at_line(alloc, name, line, LineCause::NotPrompt))) },
    }
}

/// What is due for the messages that misbehaving hosts were sent in two runs of a program, and for the values that the
/// runs released.
pub fn compared(
    alloc: Global,
    placed: &PlacedSource,
    one: &[(HostId, HostId, Message)],
    other: &[(HostId, HostId, Message)],
    released: &[i64],
    released_too: &[i64],
) -> Result<Verdict, OutOfMemory>
    ensures { IfOk result (λ verdict. Compared (placed_shape placed.now) one.now other.now released.now
        released_too.now (verdict_shape verdict)) }
{
    let Some(place) = first_difference(one, other) else {
        let text = agreement(alloc, one, other)?;
        return with_release_lines(Status::Done, text, released, released_too);
    };
    let source = &placed.source;
    let statement = first_release(alloc, &source.checked.program)?;
    let text = difference(alloc, place, statement)?;
    with_release_lines(Status::Differ, text, released, released_too)
}

/// The report that begins with a line, and says behind it what two runs released.
fn with_release_lines(
    status: Status,
    line: String,
    released: &[i64],
    released_too: &[i64],
) -> Result<Verdict, OutOfMemory>
    ensures { IfOk result (λ verdict. verdict_shape verdict
        ≡ Print status (string_bytes line ++ release_lines released.now released_too.now)) }
{
    let mut text = line;
    push_release_lines(&mut text, released, released_too)?;
    Ok(Verdict::Print { status, text })
}

/// The line that says that the messages agree, as far as both lists go.
fn agreement(
    alloc: Global,
    one: &[(HostId, HostId, Message)],
    other: &[(HostId, HostId, Message)],
) -> Result<String, OutOfMemory>
    ensures { IfOk result (λ text. string_bytes text ≡ agree_text one.now other.now) }
{
    Ok(format!(in alloc; "agree {} {}\n", one.len(), other.len())?)
}

/// The line that says that they differ first at a place, of a program that releases something first in this statement.
fn difference(alloc: Global, place: usize, statement: u32) -> Result<String, OutOfMemory>
    ensures { IfOk result (λ text. string_bytes text ≡ differ_text place statement) }
{
    Ok(format!(in alloc; "differ {place} statement {statement}\n")?)
}

/// The first place at which the messages differ, of those that both lists have.
fn first_difference(
    one: &[(HostId, HostId, Message)],
    other: &[(HostId, HostId, Message)],
) -> Option<usize>
    ensures { MatchOption result (OneIsFront one.now other.now) (DifferAt one.now other.now) }
{
    for place in 0..one.len().min(other.len()) {
        if !is_same_sent(&one[place], &other[place]) {
            return Some(place);
        }
    }
    None
}
