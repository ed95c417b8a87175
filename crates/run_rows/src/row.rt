//! The record of one event of a run.

ghost use Rattle.std.specs.Prelude.{◌≡◌, ◌∷◌, ◌++◌, [], OnOk};

use event_text::BadMessage;
use host_code::Message;
use ignored_reasons::Why;
use js_base::{EntryId, HostId, OutOfMemory};

/// What an event was.
#[derive(Clone, Copy)]
pub enum What {
    /// The host ran the instruction at this place among its own.
    Turn(HostId, u32),
    /// The second host took this message of the first, which was in flight.
    Take(HostId, HostId, Message),
    /// The first host, which misbehaves, sent the second this message, which was taken at once.
    Act(HostId, HostId, BadMessage),
}

/// What an event did to the control stack of its host.
#[derive(Clone, Copy)]
pub enum Change {
    Same,
    Pushed(EntryId),
    TakenOff(EntryId),
}

/// An event of a run, and what is to be seen of it.
#[derive(Clone, Copy)]
pub struct Row {
    /// The line of the script on which the event stands.
    pub line: u32,
    pub what: What,
    /// The number, from 0, of the event that sent the message that is taken.
    pub sent_by: Option<u64>,
    /// To whom the event's host sent a message that is in flight after the event.
    pub posts: Option<HostId>,
    /// Why the host ignored what was asked of it, or the token that it gave back itself. None where it did not.
    pub ignored: Option<Why>,
    /// The number, from 0, of what a misbehaving host was sent in the event, among all that such hosts were sent.
    pub told: Option<u64>,
    pub change: Change,
    /// Whether the program halted in the event.
    pub halts: bool,
    /// Whether a thread runs on the event's host after it.
    pub runs: bool,
    /// Whether a thread waits for an answer there.
    pub waits: bool,
}

/// Adds a row.
pub fn keep(rows: &mut Vec<Row>, row: Row) -> Result<(), OutOfMemory>
    ensures { OnOk result (rows.new.items ≡ rows.old.items ++ row ∷ []) }
{
    let what = row.what;
    // Written out by its kinds, as the check looks up what a message is made of only where a function names one.
    let what = match what {
        What::Turn(host, at) => What::Turn(host, at),
        What::Take(from, to, message) => What::Take(from, to, message),
        What::Act(from, to, made) => What::Act(from, to, made),
    };
    rows.push(Row { what, ..row })?;
    Ok(())
}
