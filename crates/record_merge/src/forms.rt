//! The lines that a journal may have.

ghost use Rattle.std.specs.Prelude.{◌≡◌};
ghost use Rattle.event_text.specs.Lines.{words};
ghost use Rattle.record_merge.specs.Journals.{has_form, is_aside, is_nothing, is_of_message, is_of_reason, is_of_host};
ghost use Rattle.record_merge.specs.Journals.{is_reason};

use event_text::{first_word, host_named, one_word, says_message};
use host_code::Code;

/// Whether a line is one that a journal may have.
pub fn has_form(code: &Code, line: &[u8]) -> bool
    ensures { result ≡ has_form code.now (words line.now) }
{
    let Some((verb, operands)) = first_word(line) else {
        return false;
    };
    if verb == b"turn".as_slice() {
        is_nothing(operands)
    } else if verb == b"take".as_slice() {
        is_of_message(code, operands)
    } else if verb == b"send".as_slice() {
        is_of_message(code, operands)
    } else if verb == b"bad".as_slice() {
        is_of_reason(operands)
    } else if verb == b"done".as_slice() {
        is_of_host(code, operands)
    } else {
        false
    }
}

/// Whether a line tells neither of a step nor of what was sent.
pub fn is_aside(line: &[u8]) -> bool
    ensures { result ≡ is_aside (words line.now) }
{
    match first_word(line) {
        Some((verb, _)) => verb == b"bad".as_slice() || verb == b"done".as_slice(),
        None => false,
    }
}

/// Whether a line has no words.
fn is_nothing(line: &[u8]) -> bool
    ensures { result ≡ is_nothing (words line.now) }
{
    match first_word(line) {
        Some(_) => false,
        None => true,
    }
}

/// Whether a line names a host, and then says a message.
fn is_of_message(code: &Code, line: &[u8]) -> bool
    ensures { result ≡ is_of_message code.now (words line.now) }
{
    match first_word(line) {
        Some((host, said)) => {
            host_named(code.hosts(), host).is_some() && says_message(code, said)
        }
        None => false,
    }
}

/// Whether a line says why a frame is no message, and nothing else.
fn is_of_reason(line: &[u8]) -> bool
    ensures { result ≡ is_of_reason (words line.now) }
{
    match one_word(line) {
        Some(word) => is_reason(word),
        None => false,
    }
}

/// Whether a word says why a frame is no message.
fn is_reason(word: &[u8]) -> bool
    ensures { result ≡ is_reason word.now }
{
    word == b"short".as_slice()
        || word == b"kind".as_slice()
        || word == b"field".as_slice()
        || word == b"long".as_slice()
        || word == b"trailing".as_slice()
        || word == b"seal".as_slice()
}

/// Whether a line names a host, and nothing else.
fn is_of_host(code: &Code, line: &[u8]) -> bool
    ensures { result ≡ is_of_host code.now (words line.now) }
{
    match one_word(line) {
        Some(word) => host_named(code.hosts(), word).is_some(),
        None => false,
    }
}
