//! The lines of what misbehaving hosts were sent.

ghost use Rattle.std.specs.Prelude.{◌≡◌, ◌++◌, OnOk};
ghost use Rattle.std.specs.String.{string_bytes};
ghost use Rattle.host_code.specs.Messages.{MessageFits};
ghost use Rattle.net_world.specs.Fits.{WorldFits, world_of};
ghost use Rattle.split_cli.specs.WorldReport.{sent_line, sent_lines};
ghost use Rattle.front_end.specs.Text.{line_text, lines_text};

use host_code::{Code, Message, host_name, message_text};
use js_base::{HostId, OutOfMemory};
use net_world::World;
use std::alloc::Global;
use std::fmt::Write;

/// Adds the lines of what misbehaving hosts were sent, in order.
pub fn push_sent(
    alloc: Global,
    text: &mut String,
    code: &Code,
    world: &World,
) -> Result<(), OutOfMemory>
    requires { WorldFits code.now world.now }
    ensures { OnOk result (
        string_bytes text.new ≡ string_bytes text.old ++ lines_text (sent_lines code.now 0 (world_of world.now).sent)) }
{
    for (number, sent) in world.sent().iter().enumerate() {
        push_message(alloc, text, code, number, sent)?;
    }
    Ok(())
}

/// Adds the line of the message of this number: from whom, to whom, and what.
fn push_message(
    alloc: Global,
    text: &mut String,
    code: &Code,
    number: usize,
    sent: &(HostId, HostId, Message),
) -> Result<(), OutOfMemory>
    requires { MessageFits code.now sent.now.2 }
    ensures { OnOk result (
        string_bytes text.new ≡ string_bytes text.old ++ line_text (sent_line code.now number sent.now)) }
{
    let from = host_name(code, sent.0);
    let to = host_name(code, sent.1);
    let said = message_text(alloc, code, &sent.2)?;
    writeln!(text, "sent {number} {from} {to}: {said}").map_err(|_| OutOfMemory)
}
