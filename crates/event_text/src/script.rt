//! Scripts: hosts that misbehave, starting values of fields, and then events.

ghost use Rattle.std.specs.Prelude.{◌≡◌, ◌≤◌, ◌+◌, All, length, map, Ok, Err, MatchResult, IfOk};
ghost use Rattle.std.specs.Str.Lines.{lines};
ghost use Rattle.event_text.specs.Lines.{said_from};
ghost use Rattle.event_text.specs.Events.{events_of};
ghost use Rattle.event_text.specs.OwnTokens.{IsOwnEvent};
ghost use Rattle.event_text.specs.Settings.{form_of, HasRows};
ghost use Rattle.event_text.specs.Script.{script_of, EventsFail, EventLinesFail};

use crate::event::Event;
use crate::event_lines::{event_of, push_event};
use crate::lines::{Lines, next_line};
use crate::misbehaving::take_bad;
use crate::settings::{starting_store, take_settings};
use host_code::Code;
use jif_tree::Store;
use js_base::OutOfMemory;
use js_base::limits::SCRIPT_BYTES;
use std::alloc::Global;
use std::marker::Model;
use thiserror::Error;

/// Why a script was not read.
#[derive(Clone, Copy, Debug, PartialEq, Eq, Error)]
pub enum EventsError {
    #[error("out of memory")]
    OutOfMemory,
    /// The first line, from 1, that has no form.
    #[error("line {0}: no form")]
    BadLine(u32),
    /// It has more than 16,777,216 bytes.
    #[error("too long")]
    TooLong,
}

impl From<OutOfMemory> for EventsError {
    ghost use Rattle.std.specs.Prelude.{◌≡◌};
    ghost use Rattle.event_text.specs.declared.script.EventsError.TheVariants as error;

    ghost from_gives = { λ _ e. e ≡ error.OutOfMemory };

    fn from(_error: OutOfMemory) -> EventsError {
        EventsError::OutOfMemory
    }
}

/// What a script says: which hosts misbehave, what fields start with, and what happens.
#[derive(Drop)]
pub struct Script {
    bad: u16,
    start: Store,
    events: Vec<(u32, Event)>,
}

impl Model for Script {
    ghost use Rattle.event_text.specs.Settings.{form_of, HasRows};
    ghost use Rattle.event_text.specs.Script.{ScriptShape};

    ghost Value = { ScriptShape };

    ghost view = { λ s. record { bad = s.bad; start = s.start; events = s.events.items } };
}

impl Script {
    /// A word with a bit for each host that misbehaves.
    pub fn bad(&self) -> u16
        ensures { result ≡ self.now.bad }
    {
        self.bad
    }

    /// The starting values of all fields.
    pub fn start(&self) -> &Store
        ensures { result.now ≡ self.now.start }
    {
        &self.start
    }

    /// The events in order, each with the number of its line, from 1.
    pub fn events(&self) -> &[(u32, Event)]
        ensures { result.now ≡ self.now.events }
    {
        &self.events
    }
}

/// What a script says, by the names of the code's hosts and fields.
///
/// # Errors
/// `TooLong` where it has more than 16,777,216 bytes, otherwise `BadLine` of the first line that has no form or stands
/// in another place than after the lines before it.
pub fn read_events(alloc: Global, code: &Code, bytes: &[u8]) -> Result<Script, EventsError>
    ensures answer { MatchResult result
        (λ script. (length bytes.now ≤ SCRIPT_BYTES) × (script_of code.now bytes.now ≡ Ok script))
        (EventsFail code.now bytes.now) }
    ensures rows { IfOk result (λ script. HasRows (map form_of code.now.fields) script.start) }
    ensures own { IfOk result (λ script. All (λ one. IsOwnEvent code.now.hosts script.bad one.1) script.events) }
{
    if bytes.len() > SCRIPT_BYTES {
        return Err(EventsError::TooLong);
    }
    read_lines(alloc, code, bytes)
}

/// What the lines say.
#[tactic(auto, using(crate::proofs::Rows::sizes_after))]
fn read_lines(alloc: Global, code: &Code, bytes: &[u8]) -> Result<Script, EventsError>
    requires { length bytes.now ≤ SCRIPT_BYTES }
    ensures answer { MatchResult result
        (λ script. script_of code.now bytes.now ≡ Ok script)
        (EventsFail code.now bytes.now) }
    ensures rows { IfOk result (λ script. HasRows (map form_of code.now.fields) script.start) }
    ensures own { IfOk result (λ script. All (λ one. IsOwnEvent code.now.hosts script.bad one.1) script.events) }
{
    let (bad, left) = take_bad(code.hosts(), Lines { bytes, number: 1 });
    let fields = code.fields();
    let mut start = starting_store(alloc, fields)?;
    let left = take_settings(fields, left, &mut start);
    let events = read_event_lines(alloc, code, bad, left)?;
    Ok(Script { bad, start, events })
}

/// The events of the lines.
fn read_event_lines(
    alloc: Global,
    code: &Code,
    bad: u16,
    from: Lines<'_>,
) -> Result<Vec<(u32, Event)>, EventsError>
    requires few { from.number + length from.bytes.now ≤ SCRIPT_BYTES + 1 }
    ensures { MatchResult result
        (λ events.
        events_of code.now bad (said_from from.entry.number (lines from.entry.bytes.now)) ≡ Ok events.items)
        (EventLinesFail code.now bad (said_from from.entry.number (lines from.entry.bytes.now))) }
{
    let mut events = Vec::new(alloc);
    let mut left = from;
    while let Some((line, after)) = next_line(left) {
        let Some(event) = event_of(code, bad, line.bytes) else {
            return Err(EventsError::BadLine(line.number));
        };
        push_event(&mut events, line.number, event)?;
        left = after;
    }
    Ok(events)
}
