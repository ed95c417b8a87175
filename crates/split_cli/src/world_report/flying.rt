//! The lines of what is in flight.

ghost use Rattle.std.specs.Prelude.{◌≡◌, ◌++◌, All, OnOk};
ghost use Rattle.std.specs.String.{string_bytes};
ghost use Rattle.host_code.specs.Messages.{MessageFits};
ghost use Rattle.net_world.specs.Fits.{WorldFits, world_of};
ghost use Rattle.split_cli.specs.WorldReport.{flying_line, flying_lines, lines_from, queue_lines};
ghost use Rattle.front_end.specs.Text.{line_text, lines_text};

use host_code::{Code, Message, host_name, message_text};
use js_base::limits::HOSTS;
use js_base::{HostId, OutOfMemory};
use net_world::World;
use std::alloc::Global;
use std::fmt::Write;

/// Adds the lines of what is in flight, by pairs of hosts.
#[tactic(auto, using(crate::proofs::WorldLines::range_more))]
pub fn push_flying(
    alloc: Global,
    text: &mut String,
    code: &Code,
    world: &World,
) -> Result<(), OutOfMemory>
    requires { WorldFits code.now world.now }
    ensures { OnOk result (
        string_bytes text.new ≡ string_bytes text.old ++ lines_text (flying_lines code.now (world_of world.now))) }
{
    let count = code.hosts().len();
    prove!(count <= HOSTS);
    for from in 0..count {
        push_flying_from(alloc, text, code, world, HostId(from as u8))?;
    }
    Ok(())
}

/// Adds the lines of what is in flight from a host to each host.
#[tactic(auto, using(crate::proofs::WorldLines::range_more))]
fn push_flying_from(
    alloc: Global,
    text: &mut String,
    code: &Code,
    world: &World,
    from: HostId,
) -> Result<(), OutOfMemory>
    requires { WorldFits code.now world.now }
    ensures { OnOk result (
        string_bytes text.new ≡ string_bytes text.old
        ++ lines_text (lines_from code.now (world_of world.now) from.0)) }
{
    let count = code.hosts().len();
    prove!(count <= HOSTS);
    for to in 0..count {
        let to = HostId(to as u8);
        push_queue(alloc, text, code, (from, to), world.flying(from, to))?;
    }
    Ok(())
}

/// Adds the lines of the messages in flight from the first host of a pair to the second.
fn push_queue(
    alloc: Global,
    text: &mut String,
    code: &Code,
    pair: (HostId, HostId),
    queue: &[Message],
) -> Result<(), OutOfMemory>
    requires { All (MessageFits code.now) queue.now }
    ensures { OnOk result (
        string_bytes text.new ≡ string_bytes text.old
        ++ lines_text (queue_lines code.now pair.0.0 pair.1.0 0 queue.now)) }
{
    for (place, message) in queue.iter().enumerate() {
        push_message(alloc, text, code, pair, place, message)?;
    }
    Ok(())
}

/// Adds the line of a message in flight from the first host of a pair to the second.
fn push_message(
    alloc: Global,
    text: &mut String,
    code: &Code,
    pair: (HostId, HostId),
    place: usize,
    message: &Message,
) -> Result<(), OutOfMemory>
    requires { MessageFits code.now message.now }
    ensures { OnOk result (
        string_bytes text.new ≡ string_bytes text.old
        ++ line_text (flying_line code.now pair.0.0 pair.1.0 place message.now)) }
{
    let from = host_name(code, pair.0);
    let to = host_name(code, pair.1);
    let said = message_text(alloc, code, message)?;
    writeln!(text, "flying {from} {to} {place}: {said}").map_err(|_| OutOfMemory)
}
