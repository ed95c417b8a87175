//! Ways, their kinds and their ends.

ghost use Rattle.std.specs.Prelude.{◌≡◌, ◌++◌, OnOk};
ghost use Rattle.plan_ways.specs.Ends as ends;

use js_base::{EntryId, FieldId, HostId, OutOfMemory, StmtId, VarId};

/// What goes along a way.
#[derive(Clone, Copy)]
pub enum WayKind {
    /// The value of a field that is asked for.
    Get,
    /// The new value of a field.
    Set,
    /// The value of a variable.
    Forward,
    /// The token with which an entry is pushed on another host.
    Sync,
    /// Control, which goes on at another host or enters a method.
    Go,
    /// Control, which comes back with its token.
    Back,
}

/// Where a way begins or ends.
#[derive(Clone, Copy)]
pub enum WayEnd {
    /// The name of the host: nothing there is known that takes or gives it.
    Host(HostId),
    Field(FieldId),
    Statement(StmtId),
    /// An entry at which control only passes.
    Relay(EntryId),
}

/// What a way is about.
#[derive(Clone, Copy)]
pub enum WayText {
    Field(FieldId),
    /// A variable that is sent.
    Variable(VarId),
    /// The result of a method, which goes to those behind its calls.
    Result(VarId),
    Entry(EntryId),
    /// The method that is entered at the entry.
    Method(EntryId),
}

/// A way of a value or of control, for which one instruction asks.
#[derive(Clone, Copy)]
pub struct Way {
    pub kind: WayKind,
    /// The statement for which the instruction was made.
    pub statement: StmtId,
    /// The host whose instruction asks, and the number of the instruction there.
    pub host: HostId,
    pub at: usize,
    pub from: HostId,
    pub begin: WayEnd,
    pub to: HostId,
    pub end: WayEnd,
    pub what: WayText,
    /// Whether values of variables ride along.
    pub rides: bool,
}

/// Whether two ends are one row of the picture.
pub fn is_same_end(one: WayEnd, other: WayEnd) -> bool
    ensures { result ≡ ends.is_same_end one other }
{
    match (one, other) {
        (WayEnd::Host(a), WayEnd::Host(b)) => a.0 == b.0,
        (WayEnd::Field(a), WayEnd::Field(b)) => a.0 == b.0,
        (WayEnd::Statement(a), WayEnd::Statement(b)) => a.0 == b.0,
        (WayEnd::Relay(a), WayEnd::Relay(b)) => a.0 == b.0,
        _ => false,
    }
}

/// Adds a way, where there is one and its ends are two rows.
pub fn push_kept(ways: &mut Vec<Way>, found: Option<Way>) -> Result<(), OutOfMemory>
    ensures { OnOk result (ways.new.items ≡ ways.old.items ++ ends.kept found) }
{
    let Some(way) = found else {
        return Ok(());
    };
    if is_same_end(way.begin, way.end) {
        return Ok(());
    }
    ways.push(way)?;
    Ok(())
}
