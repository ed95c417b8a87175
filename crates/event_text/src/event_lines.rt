//! The lines that say events.

ghost use Rattle.std.specs.Prelude.{◌≡◌, ◌≤◌, ◌++◌, ◌∷◌, [], length, OnOk};
ghost use Rattle.event_text.specs.Lines.{words};
ghost use Rattle.event_text.specs.Events.{event_of, turn_of, take_of, act_of};

use crate::acts::message_of;
use crate::event::{BadMessage, Event};
use crate::numbers::number;
use crate::parts::host_named;
use crate::words::{first_word, one_word, three_words};
use host_code::{Code, CodeHost};
use js_base::OutOfMemory;
use js_base::limits::HOSTS;

/// The event that a line says. Bit h of the word says that host h misbehaves.
pub fn event_of(code: &Code, bad: u16, line: &[u8]) -> Option<Event>
    ensures { result ≡ event_of code.now bad (words line.now) }
{
    let (verb, operands) = first_word(line)?;
    match verb {
        b"turn" => turn_of(code.hosts(), operands),
        b"take" => take_of(code.hosts(), operands),
        b"act" => act_of(code, bad, operands),
        _ => None,
    }
}

/// The event that `turn` and these operands say.
fn turn_of(hosts: &[CodeHost], operands: &[u8]) -> Option<Event>
    requires { length hosts.now ≤ HOSTS }
    ensures { result ≡ turn_of hosts.now (words operands.now) }
{
    let host = one_word(operands)?;
    Some(Event::Turn(host_named(hosts, host)?))
}

/// The event that `take` and these operands say.
fn take_of(hosts: &[CodeHost], operands: &[u8]) -> Option<Event>
    requires { length hosts.now ≤ HOSTS }
    ensures { result ≡ take_of hosts.now (words operands.now) }
{
    let (from, to, place) = three_words(operands)?;
    let from = host_named(hosts, from)?;
    let to = host_named(hosts, to)?;
    Some(Event::Take(from, to, number(place)?))
}

/// The event that `act` and these operands say.
fn act_of(code: &Code, bad: u16, operands: &[u8]) -> Option<Event>
    ensures { result ≡ act_of code.now bad (words operands.now) }
{
    let (from, rest) = first_word(operands)?;
    let (to, said) = first_word(rest)?;
    let from = host_named(code.hosts(), from)?;
    let to = host_named(code.hosts(), to)?;
    let made = message_of(code, bad, said)?;
    Some(Event::Act(from, to, made))
}

/// Puts the event of a line behind the others.
// The kit's borrow checker has to be told of each type that an event holds, so the function names one.
pub fn push_event(
    events: &mut Vec<(u32, Event)>,
    number: u32,
    event: Event,
) -> Result<(), OutOfMemory>
    ensures { OnOk result (events.new.items ≡ events.old.items ++ (number, event) ∷ []) }
{
    let _no_message: Option<BadMessage> = None;
    Ok(events.push((number, event))?)
}
