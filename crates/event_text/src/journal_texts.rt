//! The lines of journals, without what ends them.

ghost use Rattle.std.specs.Prelude.{◌≡◌, ◌<◌, IfOk, length};
ghost use Rattle.std.specs.String.{string_bytes};
ghost use Rattle.js_base.specs.declared.ids.HostId.{HostId};
ghost use Rattle.host_code.specs.declared.message.Message.{Message};
ghost use Rattle.host_code.specs.Code.{CodeShape};
ghost use Rattle.host_code.specs.Messages.{MessageFits};
ghost use Rattle.host_code.specs.Sound.{IsSoundCode};
ghost use Rattle.event_text.specs.JournalText.{turn_words, take_words, send_words};
ghost use Rattle.event_text.specs.JournalText as journal;
ghost use Rattle.event_text.specs.Lines.{words};

use host_code::{Code, Message, host_name, message_text};
use js_base::{HostId, OutOfMemory};
use std::alloc::Global;

/// The line of an instruction that ran.
pub const TURN_TEXT: &str = "turn";

/// The line of a message that was taken from a host: `take HOST MESSAGE`.
pub fn take_text(
    alloc: Global,
    code: &Code,
    from: HostId,
    message: &Message,
) -> Result<String, OutOfMemory>
    requires { MessageFits code.now message.now }
    ensures { IfOk result (λ line. string_bytes line ≡ journal.take_text code.now from message.now) }
{
    let name = host_name(code, from);
    let said = message_text(alloc, code, message)?;
    Ok(format!(in alloc; "take {name} {said}")?)
}

/// The line of a message that was sent to a host: `send HOST MESSAGE`.
pub fn send_text(
    alloc: Global,
    code: &Code,
    to: HostId,
    message: &Message,
) -> Result<String, OutOfMemory>
    requires { MessageFits code.now message.now }
    ensures { IfOk result (λ line. string_bytes line ≡ journal.send_text code.now to message.now) }
{
    let name = host_name(code, to);
    let said = message_text(alloc, code, message)?;
    Ok(format!(in alloc; "send {name} {said}")?)
}

/// The line of a host that said that it is done: `done HOST`.
pub fn done_text(alloc: Global, code: &Code, from: HostId) -> Result<String, OutOfMemory>
    ensures { IfOk result (λ line. string_bytes line ≡ journal.done_text code.now from) }
{
    let name = host_name(code, from);
    Ok(format!(in alloc; "done {name}")?)
}

/// The words of the lines of steps and of what is sent. The call does nothing.
pub fn journal_laws()
    ensures turn { words journal.turn_text ≡ turn_words }
    ensures take { (code : CodeShape) (from : HostId) (message : Message) → IsSoundCode code →
        from.0 < length code.hosts → words (journal.take_text code from message) ≡ take_words code from message }
    ensures send { (code : CodeShape) (to : HostId) (message : Message) → IsSoundCode code →
        to.0 < length code.hosts → words (journal.send_text code to message) ≡ send_words code to message }
{}
