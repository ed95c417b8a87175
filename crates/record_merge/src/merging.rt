//! The one list of events that journals allow.

ghost use Rattle.std.specs.Prelude.{◌≡◌, ◌↔◌, ◌∷◌, ◌<◌, [], IfOk, IsTrue, Some, IfSome, IfNone, length, map};
ghost use Rattle.std.specs.Prelude.{Option, ℕ, ◌+◌};
ghost use Rattle.std.specs.Prelude.{◌++◌, OnOk, replicate, slice_index};
ghost use Rattle.std.specs.Option.{option_map};
ghost use Rattle.host_code.specs.Messages.{MessageFits};
ghost use Rattle.host_core.specs.declared.host.TheConstants.{MOST_CALLS};
ghost use Rattle.net_world.specs.Choice.{IsNextEvent};
ghost use Rattle.net_world.specs.Fits.{WorldFits, world_of};
ghost use Rattle.net_world.specs.Steps.{HaveMade};
ghost use Rattle.net_world.specs.World.{mover, AllObey, IsStep};
ghost use Rattle.event_text.specs.Lines.{words};
ghost use Rattle.record_merge.specs.JournalLines.{journal_of, lines_in, met, next_of, IsFitting, IsPassed, HasPassed};
ghost use Rattle.record_merge.specs.Meeting.{journal_at, IsMetToEnd};
ghost use Rattle.record_merge.specs.Single.{IsSingle};
ghost use Rattle.event_text.specs.declared.event.Event.{Event};
ghost use Rattle.event_text.specs.JournalText.{send_words};
ghost use Rattle.record_merge.specs.NextLines.{IsFirstFlight, step_words, sent_next};

use crate::step_lines::{is_send_line, is_take_line, is_turn_line};
use event_text::{BadMessage, Event, Line};
use host_code::{Code, Message};
use js_base::{HostId, OutOfMemory};
use net_world::World;
use std::alloc::Global;

/// The host whose step an event is.
fn mover(event: &Event) -> HostId
    ensures { result ≡ mover event.now }
{
    match event {
        Event::Take(_, to, _) => *to,
        Event::Turn(host) => *host,
        Event::Act(_, to, _) => *to,
    }
}

/// The first message in flight from a host to a host.
fn first_flying<'a>(code: &Code, world: &'a World, from: HostId, to: HostId) -> Option<&'a Message>
    requires fits { WorldFits code.now world.now }
    ensures none { IfNone result ((world_of world.now).flying from to ≡ []) }
    ensures some { IfSome result (λ message. IsFirstFlight code.now ((world_of world.now).flying from to) message.now) }
{
    match world.flying(from, to) {
        [message, ..] => Some(message),
        [] => None,
    }
}

/// Whether a line is that of the step that an event is, which comes next in a world.
fn is_step_line(
    alloc: Global,
    code: &Code,
    world: &World,
    event: &Event,
    line: &[u8],
) -> Result<bool, OutOfMemory>
    requires fits { WorldFits code.now world.now }
    requires next { IsNextEvent (world_of world.now) (Some event.now) }
    ensures { IfOk result (λ is.
        IsTrue is ↔ (words line.now ≡ step_words code.now (world_of world.now) event.now)) }
{
    match event {
        Event::Turn(_) => Ok(is_turn_line(line)),
        Event::Take(from, to, _) => match first_flying(code, world, *from, *to) {
            Some(message) => is_take_line(alloc, code, line, *from, message),
            None => unreachable!(),
        },
        Event::Act(..) => unreachable!(),
    }
}

/// The next line of a host's journal, none where the journal was left or has ended.
fn next_line<'a>(
    journals: &[Vec<Line<'a>>],
    places: &[usize],
    left: &[bool],
    host: HostId,
) -> Option<Line<'a>>
    requires places { length places.now ≡ length journals.now }
    requires left { length left.now ≡ length journals.now }
    ensures { option_map (λ line. words line.bytes.now) result
        ≡ next_of (map (λ journal. journal_of journal.items) journals.now) places.now left.now host }
{
    let number = host.0 as usize;
    if number >= journals.len() {
        return None;
    }
    if left[number] {
        return None;
    }
    journals[number].get(places[number]).copied()
}

/// The event that comes next, where its line is the next one of its host's journal.
fn fitting(
    alloc: Global,
    code: &Code,
    world: &World,
    journals: &[Vec<Line<'_>>],
    places: &[usize],
    left: &[bool],
) -> Result<Option<Event>, OutOfMemory>
    requires fits { WorldFits code.now world.now }
    requires places { length places.now ≡ length journals.now }
    requires left { length left.now ≡ length journals.now }
    ensures { IfOk result (IsFitting code.now (world_of world.now)
        (map (λ journal. journal_of journal.items) journals.now) places.now left.now) }
{
    let Some(event) = world.next_event() else {
        return Ok(None);
    };
    let Some(line) = next_line(journals, places, left, mover(&event)) else {
        return Ok(None);
    };
    if is_step_line(alloc, code, world, &event, line.bytes)? {
        Ok(Some(event))
    } else {
        Ok(None)
    }
}

/// How far a journal is met behind the line of a step at a place, and whether it is left there. What the step sent is
/// what is taken next.
fn passed(
    alloc: Global,
    code: &Code,
    world: &World,
    journal: &[Line<'_>],
    place: usize,
) -> Result<(usize, bool), OutOfMemory>
    requires fits { WorldFits code.now world.now }
    requires within { place < length journal.now }
    ensures { IfOk result (λ passed. (next : Option Event) × IsNextEvent (world_of world.now) next
        × IsPassed (journal_of journal.now) place (sent_next code.now (world_of world.now) next) passed) }
{
    match world.next_event() {
        Some(Event::Take(from, to, _)) => match first_flying(code, world, from, to) {
            Some(message) => behind_send(alloc, code, journal, place, to, message),
            None => unreachable!(),
        },
        _ => Ok((place + 1, false)),
    }
}

/// The same, where this message was sent.
fn behind_send(
    alloc: Global,
    code: &Code,
    journal: &[Line<'_>],
    place: usize,
    to: HostId,
    message: &Message,
) -> Result<(usize, bool), OutOfMemory>
    requires fits { MessageFits code.now message.now }
    requires within { place < length journal.now }
    ensures { IfOk result (IsPassed (journal_of journal.now) place (send_words code.now to message.now ∷ [])) }
{
    let Some(line) = journal.get(place + 1) else {
        return Ok((place + 1, true));
    };
    if is_send_line(alloc, code, line.bytes, to, message)? {
        Ok((place + 2, false))
    } else {
        Ok((place + 1, true))
    }
}

/// An event that comes next happens, whose line is the next one of its host's journal. After want of memory the places
/// are as before.
fn go_on(
    alloc: Global,
    code: &Code,
    world: &mut World,
    journals: &[Vec<Line<'_>>],
    places: &mut Vec<usize>,
    left: &mut Vec<bool>,
    event: &Event,
) -> Result<(), OutOfMemory>
    requires fits { WorldFits code.now world.old }
    requires obey { AllObey (world_of world.old) }
    requires next { IsNextEvent (world_of world.old) (Some event.now) }
    requires answers { HaveMade (met places.old.items) world.old.hosts }
    requires few { met places.old.items < MOST_CALLS }
    requires host { (mover event.now).0 < length journals.now }
    requires there { slice_index places.old.items (mover event.now).0 < length (journal_at
        (map (λ journal. journal_of journal.items) journals.now) (mover event.now)) }
    requires places { length places.old.items ≡ length journals.now }
    requires left { length left.old.items ≡ length journals.now }
    ensures step { OnOk result (IsStep code.now (world_of world.old) event.now (world_of world.new)) }
    ensures passed { OnOk result (HasPassed code.now (world_of world.new)
        (map (λ journal. journal_of journal.items) journals.now) (mover event.now) places.old.items left.old.items
        places.new.items left.new.items) }
    ensures made { OnOk result ((n : ℕ) → HaveMade n world.old.hosts → HaveMade (n + 1) world.new.hosts) }
    ensures fits { WorldFits code.now world.new }
{
    let host = mover(event).0 as usize;
    if let Err(error) = world.apply(code, event) {
        return Err(error.only_memory());
    }
    let (place, gone) = passed(alloc, code, world, &journals[host], places[host])?;
    places[host] = place;
    left[host] = gone;
    Ok(())
}

/// Makes the events happen whose lines come next in the journals of their hosts, as long as there is one, and tells how
/// far each journal is met.
// The kit's borrow checker has to be told of each type that an event holds, so the function names one.
pub fn walk(
    alloc: Global,
    code: &Code,
    world: &mut World,
    journals: &[Vec<Line<'_>>],
    places: &mut Vec<usize>,
) -> Result<Vec<Event>, OutOfMemory>
    requires fits { WorldFits code.now world.old }
    requires single { IsSingle (world_of world.old) }
    requires fresh { HaveMade 0 world.old.hosts }
    requires few { lines_in (map (λ journal. journal_of journal.items) journals.now) < MOST_CALLS }
    requires places { places.old.items ≡ replicate (length journals.now) 0 }
    ensures end { IfOk result (λ events. IsMetToEnd code.now (world_of world.old)
        (map (λ journal. journal_of journal.items) journals.now) places.new.items events.items) }
    ensures count { IfOk result (λ _. length places.new.items ≡ length journals.now) }
{
    let _no_message: Option<BadMessage> = None;
    let mut left = vec![in alloc; false; journals.len()]?;
    let mut events = Vec::new(alloc);
    while let Some(event) = fitting(alloc, code, world, journals, places, &left)? {
        go_on(alloc, code, world, journals, places, &mut left, &event)?;
        add_event(&mut events, event)?;
    }
    Ok(events)
}

/// Puts an event behind the others.
fn add_event(events: &mut Vec<Event>, event: Event) -> Result<(), OutOfMemory>
    ensures { OnOk result (events.new.items ≡ events.old.items ++ event ∷ []) }
{
    let _no_message: Option<BadMessage> = None;
    Ok(events.push(event)?)
}
