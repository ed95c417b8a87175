//! What the chart of a run is drawn by: texts and numbers, with nothing of the program's own.

use js_base::HostId;

/// What a message does, which tells how its arrow is drawn.
#[derive(Clone, Copy)]
pub enum Stroke {
    /// Control goes on at an entry of another host.
    Go,
    /// Control comes back, and uses a token up.
    Back,
    /// A field is asked for, or its value comes.
    Get,
    /// A field is set.
    Set,
    /// A variable is sent.
    Forward,
    /// An entry is pushed on another host, or its token comes.
    Sync,
    /// A request is confirmed.
    Ack,
}

/// Where the arrow of a message begins.
#[derive(Clone, Copy)]
pub struct Start {
    /// The number, from 0, of the row in which the message was sent.
    pub row: u64,
    /// How many other messages of the sender were then in flight, at most 2: so far beside the lifeline it goes down.
    pub lane: u8,
}

/// What an event was.
#[derive(Clone, Copy)]
pub enum ChartEvent {
    /// The host ran an instruction.
    Turn(HostId),
    /// The second host took a message of the first.
    Take(HostId, HostId, Stroke, Start),
    /// The first host, which misbehaves, sent the second a message, which was taken at once.
    Act(HostId, HostId),
}

/// A text that stands beside an event, and the whole of it in a tip.
#[derive(Drop)]
pub struct ChartNote {
    pub text: String,
    pub tip: String,
}

/// What a misbehaving host was sent in an event, by the event's host.
#[derive(Drop)]
pub struct ChartTold {
    /// Its number, from 0, among all that misbehaving hosts were sent.
    pub number: u64,
    pub to: HostId,
    pub stroke: Stroke,
    /// The message.
    pub text: String,
}

/// A row of the chart: an event.
#[derive(Drop)]
pub struct ChartRow {
    /// The line of the script on which the event stands.
    pub line: u32,
    pub event: ChartEvent,
    /// The text of the instruction that ran, or of the message.
    pub text: String,
    /// The statement whose instruction ran, where it is worth a note.
    pub note: Option<ChartNote>,
    /// Why the host ignored what was asked of it, where it did.
    pub ignored: Option<String>,
    pub told: Option<ChartTold>,
    /// What was pushed on the control stack of the event's host or taken off it, as `+e3`, with the stack in its tip.
    pub stack: Option<ChartNote>,
    /// Whether the program halted in the event.
    pub halts: bool,
    /// Whether a thread runs on the event's host after it.
    pub runs: bool,
    /// Whether a thread waits for an answer there.
    pub waits: bool,
}

/// A message that is in flight at the end, from the first host to the second.
#[derive(Drop)]
pub struct ChartFlight {
    pub from: HostId,
    pub to: HostId,
    pub stroke: Stroke,
    pub start: Start,
    /// The message.
    pub text: String,
}

/// Whether a field may have been affected.
#[derive(Clone, Copy)]
pub enum Mark {
    /// No host misbehaves.
    Plain,
    /// No misbehaving host may affect it.
    Kept,
    /// Some misbehaving host may affect it.
    Open,
}

/// A field at the end of the run.
#[derive(Drop)]
pub struct ChartField {
    /// Its name and value, as `total = 7`.
    pub text: String,
    pub mark: Mark,
    /// Who may affect it, as `B may affect it` or `as B likes`. Empty where the mark is not `Open`.
    pub who: String,
}

/// A host: a column of the chart.
#[derive(Drop)]
pub struct ChartHost {
    pub name: String,
    pub label: String,
    pub misbehaves: bool,
    /// Whether a thread runs on it before the first event.
    pub runs: bool,
    /// Its fields, in order.
    pub fields: Vec<ChartField>,
}

/// What the chart of a run is drawn by.
#[derive(Drop)]
pub struct ChartSheet {
    /// The hosts, by number.
    pub hosts: Vec<ChartHost>,
    /// The host on which the program begins.
    pub root: HostId,
    /// The events, in order.
    pub rows: Vec<ChartRow>,
    /// What is in flight at the end.
    pub flights: Vec<ChartFlight>,
    /// Whether the program has halted.
    pub halted: bool,
}
