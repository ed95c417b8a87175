//! Whether the line of a journal is that of a step, or of a message that was sent.

ghost use Rattle.std.specs.Prelude.{◌≡◌, ◌↔◌, ◌∷◌, IfOk, IsTrue};
ghost use Rattle.host_code.specs.Messages.{MessageFits};
ghost use Rattle.host_code.specs.MessageText.{host_text, message_text};
ghost use Rattle.event_text.specs.Lines.{words};
ghost use Rattle.event_text.specs.JournalText.{turn_words, take_words, send_words};

use event_text::{TURN_TEXT, first_word};
use host_code::{Code, Message, host_name, message_text};
use js_base::{HostId, OutOfMemory};
use std::alloc::Global;

/// Whether a line is that of a turn.
pub fn is_turn_line(line: &[u8]) -> bool
    ensures { IsTrue result ↔ (words line.now ≡ turn_words) }
{
    is_same_words(line, TURN_TEXT.as_bytes())
}

/// Whether a line is that of a message that was taken from a host.
pub fn is_take_line(
    alloc: Global,
    code: &Code,
    line: &[u8],
    from: HostId,
    message: &Message,
) -> Result<bool, OutOfMemory>
    requires { MessageFits code.now message.now }
    ensures { IfOk result (λ is. IsTrue is ↔ (words line.now ≡ take_words code.now from message.now)) }
{
    is_message_line(alloc, code, line, b"take", from, message)
}

/// Whether a line is that of a message that was sent to a host.
pub fn is_send_line(
    alloc: Global,
    code: &Code,
    line: &[u8],
    to: HostId,
    message: &Message,
) -> Result<bool, OutOfMemory>
    requires { MessageFits code.now message.now }
    ensures { IfOk result (λ is. IsTrue is ↔ (words line.now ≡ send_words code.now to message.now)) }
{
    is_message_line(alloc, code, line, b"send", to, message)
}

/// Whether a line says this of a message.
fn is_message_line(
    alloc: Global,
    code: &Code,
    line: &[u8],
    verb: &[u8],
    host: HostId,
    message: &Message,
) -> Result<bool, OutOfMemory>
    requires { MessageFits code.now message.now }
    ensures { IfOk result (λ is. IsTrue is ↔ (words line.now
        ≡ verb.now ∷ host_text code.now host ∷ words (message_text code.now message.now))) }
{
    let Some((first, rest)) = first_word(line) else {
        return Ok(false);
    };
    let Some((second, said)) = first_word(rest) else {
        return Ok(false);
    };
    if first != verb || second != host_name(code, host).as_bytes() {
        return Ok(false);
    }
    let text = message_text(alloc, code, message)?;
    Ok(is_same_words(said, text.as_bytes()))
}

/// Whether two lines have the same words.
fn is_same_words(one: &[u8], other: &[u8]) -> bool
    ensures { IsTrue result ↔ (words one.now ≡ words other.now) }
{
    let mut left = one;
    let mut against = other;
    while let Some((word, rest)) = first_word(left) {
        let Some((next, behind)) = first_word(against) else {
            return false;
        };
        if word != next {
            return false;
        }
        left = rest;
        against = behind;
    }
    first_word(against).is_none()
}
