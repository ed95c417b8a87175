//! How the right to go on moves from host to host.

ghost use Rattle.std.specs.Prelude.{◌≡◌, ◌∷◌, [], IfOk, OnOk, List};
ghost use Rattle.js_base.specs.declared.ids.StmtId.{StmtId};
ghost use Rattle.split_rules.specs.Emissions.{entry, stands};
ghost use Rattle.split_rules.specs.Walk.{leave_emissions, end_emissions, push_or_ask, enter_emissions, move_emissions};
ghost use Rattle.split_rules.specs.Walk.{Walked, lane_at, emitted, entry_id, go_with};
ghost use Rattle.control_split.specs.Ahead.{IsAhead};
ghost use Rattle.control_split.specs.Trace.{traced, lent};
ghost use Rattle.control_split.specs.Views.{around_of, lane_of, riders_of};

use crate::needs::Ahead;
use crate::riders::{go_with, one_rider};
use crate::trace::Trace;
use crate::walk::{Around, Lane};
use host_code::{Op, RiderVars};
use js_base::{EntryId, HostId, OutOfMemory};
use msg_cost::Spot;
use std::alloc::Global;

/// A lent segment gives the token back, to an entry that stands there from now on.
fn leave(trace: &mut Trace, around: &Around<'_>, lane: Lane) -> Result<(), OutOfMemory>
    ensures { OnOk result (trace.new ≡ traced trace.old (leave_emissions (around_of around.now) (lane_of lane))) }
{
    if let Some(back) = lane.spot.back {
        trace.instruction(&around.place_on(lane.spot.host), Op::Back)?;
        trace.stands(back, lane.return_entry)?;
    }
    Ok(())
}

/// The end of a block.
///
/// # Errors
/// Memory ran out.
pub fn end(trace: &mut Trace, around: &Around<'_>, lane: Lane) -> Result<(), OutOfMemory>
    ensures { OnOk result (trace.new ≡ traced trace.old (end_emissions (around_of around.now) (lane_of lane))) }
{
    leave(trace, around, lane)?;
    trace.instruction(&around.place_on(lane.spot.end()), Op::Back)
}

/// A host has an entry pushed on its own stack, or on another's.
fn push_or_ask(from: HostId, host: HostId, number: u32) -> Op
    ensures { result ≡ push_or_ask from host number }
{
    if from.0 == host.0 {
        Op::Push(EntryId(number))
    } else {
        Op::Ask(EntryId(number), host)
    }
}

/// The token is handed on from a host to another, whose statements need so much. The values of some variables ride.
fn hand_on(
    trace: &mut Trace,
    around: &Around<'_>,
    from: HostId,
    riders: Option<RiderVars>,
    host: HostId,
    need: u64,
) -> Result<(), OutOfMemory>
    ensures { OnOk result (trace.new ≡ traced trace.old
        (entry (record { host = host; label = around.now.pc.now; need = need })
        ∷ emitted from around.now.pc.now around.now.owner
        (go_with (riders_of riders) (entry_id trace.old.counts.entries) host)
        ∷ stands host trace.old.counts.entries ∷ [])) }
{
    let number = trace.entries();
    trace.entry(host, around.pc, need)?;
    trace.instruction(
        &around.place_on(from),
        go_with(riders, EntryId(number), host),
    )?;
    trace.stands(host, number)
}

/// The token is lent from a host to another, and given back to a third, which may be the first. The values of some
/// variables ride.
fn lend(
    trace: &mut Trace,
    around: &Around<'_>,
    from: HostId,
    riders: Option<RiderVars>,
    host: HostId,
    back: HostId,
    ahead: Ahead,
) -> Result<(), OutOfMemory>
    ensures { OnOk result (trace.new ≡ traced trace.old
        (lent around.now.owner around.now.pc.now trace.old.counts from (riders_of riders) host back ahead)) }
{
    let number = trace.entries();
    trace.entry(back, around.pc, ahead.behind)?;
    let segment = trace.entries();
    trace.entry(host, around.pc, ahead.row)?;
    trace.instruction(&around.place_on(from), push_or_ask(from, back, number))?;
    trace.instruction(
        &around.place_on(from),
        go_with(riders, EntryId(segment), host),
    )?;
    trace.stands(host, segment)
}

/// The token comes from a host to a spot, where statements begin that need so much. The values of some variables ride.
fn enter(
    trace: &mut Trace,
    around: &Around<'_>,
    from: HostId,
    riders: Option<RiderVars>,
    spot: Spot,
    ahead: Ahead,
) -> Result<(), OutOfMemory>
    ensures { (walked : Walked) (statements : List StmtId) →
        IsAhead walked.planned spot.host statements ahead →
        OnOk result (trace.new ≡ traced trace.old
        (enter_emissions walked (around_of around.now) trace.old.counts from (riders_of riders) spot statements)) }
{
    if from.0 == spot.host.0 {
        return Ok(());
    }
    match spot.back {
        None => hand_on(trace, around, from, riders, spot.host, ahead.all),
        Some(back) => lend(trace, around, from, riders, spot.host, back, ahead),
    }
}

/// The token goes from a lane to the next spot, which may be the same. There begin statements that need so much. It
/// answers the lane from there on.
///
/// # Errors
/// Memory ran out.
pub fn move_on(
    alloc: Global,
    trace: &mut Trace,
    around: &Around<'_>,
    lane: Lane,
    next: Spot,
    ahead: Ahead,
) -> Result<Lane, OutOfMemory>
    ensures trace { (walked : Walked) (statements : List StmtId) →
        IsAhead walked.planned next.host statements ahead →
        OnOk result (trace.new ≡ traced trace.old
        (move_emissions walked (around_of around.now) trace.old.counts (lane_of lane) next statements)) }
    ensures lane { IfOk result (λ there. lane_of there ≡ lane_at trace.old.counts (lane_of lane) next) }
{
    if lane.spot.host.0 == next.host.0 {
        return Ok(lane);
    }
    let return_entry = trace.entries();
    let riders = one_rider(alloc, lane.riding)?;
    leave(trace, around, lane)?;
    enter(trace, around, lane.spot.end(), riders, next, ahead)?;
    Ok(Lane {
        spot: next,
        return_entry,
        riding: None,
    })
}
