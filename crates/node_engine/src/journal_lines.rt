//! The lines of a journal.

ghost use Rattle.std.specs.Prelude.{◌≡◌, IfOk, codes};
ghost use Rattle.std.specs.String.{string_bytes};
ghost use Rattle.host_code.specs.Messages.{MessageFits};
ghost use Rattle.node_engine.specs.JournalLines as lines;

use event_text::{done_text, send_text, take_text};
use host_code::{Code, Message};
use js_base::{HostId, OutOfMemory};
use node_seals::DropReason;
use std::alloc::Global;
use wire_msg::WireError;

/// The line of an instruction that ran.
pub const TURN_LINE: &str = "turn\n";

/// The line of a message that was taken from a host.
pub fn take_line(
    alloc: Global,
    code: &Code,
    from: HostId,
    message: &Message,
) -> Result<String, OutOfMemory>
    requires { MessageFits code.now message.now }
    ensures { IfOk result (λ line. string_bytes line ≡ lines.take_line code.now from message.now) }
{
    let text = take_text(alloc, code, from, message)?;
    Ok(format!(in alloc; "{text}\n")?)
}

/// The line of a message that was sent to a host.
pub fn send_line(
    alloc: Global,
    code: &Code,
    to: HostId,
    message: &Message,
) -> Result<String, OutOfMemory>
    requires { MessageFits code.now message.now }
    ensures { IfOk result (λ line. string_bytes line ≡ lines.send_line code.now to message.now) }
{
    let text = send_text(alloc, code, to, message)?;
    Ok(format!(in alloc; "{text}\n")?)
}

/// The line of a host that said that it is done.
pub fn done_line(alloc: Global, code: &Code, from: HostId) -> Result<String, OutOfMemory>
    ensures { IfOk result (λ line. string_bytes line ≡ lines.done_line code.now from) }
{
    let text = done_text(alloc, code, from)?;
    Ok(format!(in alloc; "{text}\n")?)
}

/// The line of what arrived and was dropped.
pub fn drop_line(why: DropReason) -> &'static str
    ensures { result.now ≡ lines.drop_line why }
{
    match why {
        DropReason::Frame(WireError::Short) => "bad short\n",
        DropReason::Frame(WireError::BadKind) => "bad kind\n",
        DropReason::Frame(WireError::BadField) => "bad field\n",
        DropReason::Frame(WireError::TooLong) => "bad long\n",
        DropReason::Frame(WireError::Trailing) => "bad trailing\n",
        DropReason::Seal => "bad seal\n",
    }
}
