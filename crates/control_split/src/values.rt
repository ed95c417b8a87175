//! Values that are sent to the hosts that read them.

ghost use Rattle.std.specs.Prelude.{◌≡◌, IfOk, OnOk};
ghost use Rattle.msg_cost.specs.Moves.{is_to};
ghost use Rattle.split_rules.specs.Walk.{told_readers, send_emissions, pass_emissions};
ghost use Rattle.control_split.specs.Trace.{traced};
ghost use Rattle.control_split.specs.Views.{planned_in};

use crate::trace::{Place, Trace};
use crate::walk::Split;
use host_code::Op;
use js_base::bits::has_bit;
use js_base::{HostId, OutOfMemory, VarId};
use msg_cost::reading_hosts;

/// Whether a value rides to this host.
fn is_to(carried: Option<HostId>, other: u8) -> bool
    ensures { result ≡ is_to carried other }
{
    match carried {
        Some(host) => other == host.0,
        None => false,
    }
}

/// Each other host with a statement that reads the variable, but for the one to which its value rides, in the order of
/// the hosts.
fn told_readers(
    split: &Split<'_>,
    host: HostId,
    x: VarId,
    carried: Option<HostId>,
) -> Result<Vec<HostId>, OutOfMemory>
    ensures { IfOk result (λ readers. readers.items ≡ told_readers (planned_in split.now) host x carried) }
{
    let reading = reading_hosts(&split.planned(), x);
    let count = split.hosts.hosts().len() as u8;
    let mut readers = Vec::new(split.alloc);
    for other in 0..count {
        if other != host.0 && has_bit(reading, other) && !is_to(carried, other) {
            readers.push(HostId(other))?;
        }
    }
    Ok(readers)
}

/// A variable of the frame is sent to each other host that reads it, but for the one to which its value rides.
///
/// # Errors
/// Memory ran out.
pub fn send(
    split: &Split<'_>,
    trace: &mut Trace,
    place: &Place<'_>,
    x: VarId,
    carried: Option<HostId>,
) -> Result<(), OutOfMemory>
    ensures { OnOk result (trace.new ≡ traced trace.old
        (send_emissions (planned_in split.now) place.now.host place.now.label.now place.now.statement x carried)) }
{
    let readers = told_readers(split, place.host, x, carried)?;
    for other in &readers {
        trace.instruction(place, Op::Send(x, *other))?;
    }
    Ok(())
}

/// A variable of the new frame is passed to each other host that reads it, but for the one to which its value rides.
///
/// # Errors
/// Memory ran out.
pub fn pass(
    split: &Split<'_>,
    trace: &mut Trace,
    place: &Place<'_>,
    x: VarId,
    carried: Option<HostId>,
) -> Result<(), OutOfMemory>
    ensures { OnOk result (trace.new ≡ traced trace.old
        (pass_emissions (planned_in split.now) place.now.host place.now.label.now place.now.statement x carried)) }
{
    let readers = told_readers(split, place.host, x, carried)?;
    for other in &readers {
        trace.instruction(place, Op::Pass(x, *other))?;
    }
    Ok(())
}
