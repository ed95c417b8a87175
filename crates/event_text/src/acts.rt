//! What a misbehaving host sends, as scripts say it.

ghost use Rattle.std.specs.Prelude.{◌≡◌, ◌⊎◌, ◌↔◌, ◌∷◌, [], None, IfSome, IfNone, IsTrue, is_some};
ghost use Rattle.std.specs.Option.{option_map, option_and_then};
ghost use Rattle.host_code.specs.Riders.{riders_from};
ghost use Rattle.event_text.specs.Lines.{words};
ghost use Rattle.event_text.specs.Acts.{read_token, get_of, set_of, forward_of, sync_by, rgoto_by, riders_in};
ghost use Rattle.event_text.specs.Acts.{rgoto_with_by, any_rgoto_by, lgoto_by, value_of, ack_of, answer_by};
ghost use Rattle.event_text.specs.Acts.{message_by, message_of, printed_message};

use crate::event::BadMessage;
use crate::numbers::signed;
use crate::parts::{entry_of, field_of, frame_of, request_of, variable_of};
use crate::tokens::{Tokens, token_read};
use crate::words::{first_word, four_words, one_word, three_words, two_words};
use host_code::{Code, MOST_RIDERS, Riders};
use js_base::VarId;

/// The message that the words of a line say. Bit h of the word says that host h misbehaves.
pub fn message_of(code: &Code, bad: u16, line: &[u8]) -> Option<BadMessage>
    ensures { result ≡ message_of code.now bad (words line.now) }
{
    message_by(code, Tokens::Presented(bad), line)
}

/// Whether the words of a line say a message as reports and journals print it.
pub fn says_message(code: &Code, line: &[u8]) -> bool
    ensures { result ≡ is_some (printed_message code.now (words line.now)) }
{
    printed_message(code, line).is_some()
}

/// The message that the words of a line say as reports and journals print it, with a tag of zeros in its token.
pub fn printed_message(code: &Code, line: &[u8]) -> Option<BadMessage>
    ensures { result ≡ printed_message code.now (words line.now) }
{
    message_by(code, Tokens::Printed, line)
}

/// The message that the words of a line say, where tokens are written so.
fn message_by(code: &Code, tokens: Tokens, line: &[u8]) -> Option<BadMessage>
    ensures { result ≡ message_by code.now (read_token code.now.hosts tokens) (words line.now) }
{
    let (kind, operands) = first_word(line)?;
    if kind == b"get".as_slice() {
        get_of(code, operands)
    } else if kind == b"set".as_slice() {
        set_of(code, operands)
    } else if kind == b"forward".as_slice() {
        forward_of(code, operands)
    } else if kind == b"sync".as_slice() {
        sync_of(code, tokens, operands)
    } else if kind == b"rgoto".as_slice() {
        any_rgoto_of(code, tokens, operands)
    } else if kind == b"lgoto".as_slice() {
        lgoto_of(code, tokens, operands)
    } else if kind == b"value".as_slice() {
        value_of(operands)
    } else if kind == b"ack".as_slice() {
        ack_of(operands)
    } else if kind == b"token".as_slice() {
        answer_of(code, tokens, operands)
    } else {
        None
    }
}

fn get_of(code: &Code, operands: &[u8]) -> Option<BadMessage>
    ensures { result ≡ get_of code.now (words operands.now) }
{
    let (request, field, index) = three_words(operands)?;
    let request = request_of(request)?;
    let field = field_of(code.fields(), field)?;
    let index = signed(index)?;
    Some(BadMessage::Get {
        request,
        field,
        index,
    })
}

fn set_of(code: &Code, operands: &[u8]) -> Option<BadMessage>
    ensures { result ≡ set_of code.now (words operands.now) }
{
    let (request, field, index, value) = four_words(operands)?;
    let request = request_of(request)?;
    let field = field_of(code.fields(), field)?;
    let index = signed(index)?;
    let value = signed(value)?;
    Some(BadMessage::Set {
        request,
        field,
        index,
        value,
    })
}

fn forward_of(code: &Code, operands: &[u8]) -> Option<BadMessage>
    ensures { result ≡ forward_of code.now (words operands.now) }
{
    let (request, frame, var, value) = four_words(operands)?;
    let request = request_of(request)?;
    let frame = frame_of(frame)?;
    let var = variable_of(code.vars(), var)?;
    let value = signed(value)?;
    Some(BadMessage::Forward {
        request,
        frame,
        var,
        value,
    })
}

fn sync_of(code: &Code, tokens: Tokens, operands: &[u8]) -> Option<BadMessage>
    ensures { result ≡ sync_by code.now (read_token code.now.hosts tokens) (words operands.now) }
{
    let (request, frame, entry, token) = four_words(operands)?;
    let request = request_of(request)?;
    let frame = frame_of(frame)?;
    let entry = entry_of(entry)?;
    let token = token_read(code.hosts(), tokens, token)?;
    Some(BadMessage::Sync {
        request,
        frame,
        entry,
        token,
    })
}

fn rgoto_of(code: &Code, tokens: Tokens, operands: &[u8]) -> Option<BadMessage>
    ensures { result ≡ rgoto_by code.now (read_token code.now.hosts tokens) (words operands.now) }
{
    let (frame, entry, token) = three_words(operands)?;
    let frame = frame_of(frame)?;
    let entry = entry_of(entry)?;
    let token = token_read(code.hosts(), tokens, token)?;
    Some(BadMessage::Rgoto {
        frame,
        entry,
        token,
    })
}

/// An rgoto with riders or without.
fn any_rgoto_of(code: &Code, tokens: Tokens, operands: &[u8]) -> Option<BadMessage>
    ensures { result ≡ any_rgoto_by code.now (read_token code.now.hosts tokens) (words operands.now) }
{
    match rgoto_of(code, tokens, operands) {
        Some(made) => Some(made),
        None => rgoto_with_of(code, tokens, operands),
    }
}

/// An rgoto with which 1 to 8 values ride.
fn rgoto_with_of(code: &Code, tokens: Tokens, operands: &[u8]) -> Option<BadMessage>
    ensures { result ≡ rgoto_with_by code.now (read_token code.now.hosts tokens) (words operands.now) }
{
    let (frame, rest) = first_word(operands)?;
    let (entry, rest) = first_word(rest)?;
    let (token, rest) = first_word(rest)?;
    let (mark, rest) = first_word(rest)?;
    if mark != b"with".as_slice() {
        return None;
    }
    let frame = frame_of(frame)?;
    let entry = entry_of(entry)?;
    let token = token_read(code.hosts(), tokens, token)?;
    let pairs = riders_of(code, rest)?;
    Some(BadMessage::RgotoWith {
        frame,
        entry,
        token,
        pairs,
    })
}

/// The riders that words say by two, 1 to 8 of them.
fn riders_of(code: &Code, line: &[u8]) -> Option<Riders>
    ensures { result ≡ option_and_then riders_from (riders_in code.now (words line.now)) }
{
    let (first, mut rest) = next_rider(code, line)?;
    let mut riders = Riders::one(first);
    for _ in 1..MOST_RIDERS {
        if is_blank_line(rest) {
            return Some(riders);
        }
        let (rider, behind) = next_rider(code, rest)?;
        riders.push(rider);
        rest = behind;
    }
    if is_blank_line(rest) {
        Some(riders)
    } else {
        None
    }
}

/// The rider that the first two words of a line say, and what follows them.
fn next_rider<'a>(code: &Code, line: &'a [u8]) -> Option<((VarId, i64), &'a [u8])>
    ensures none { IfNone result ((words line.now ≡ []) ⊎ (riders_in code.now (words line.now) ≡ None)) }
    ensures some { IfSome result (λ it. riders_in code.now (words line.now)
        ≡ option_map (λ riders. it.0 ∷ riders) (riders_in code.now (words it.1.now))) }
{
    let (name, rest) = first_word(line)?;
    let (value, rest) = first_word(rest)?;
    let var = variable_of(code.vars(), name)?;
    let value = signed(value)?;
    Some(((var, value), rest))
}

/// Whether a line has no words.
fn is_blank_line(line: &[u8]) -> bool
    ensures { IsTrue result ↔ (words line.now ≡ []) }
{
    first_word(line).is_none()
}

fn lgoto_of(code: &Code, tokens: Tokens, operands: &[u8]) -> Option<BadMessage>
    ensures { result ≡ lgoto_by code.now (read_token code.now.hosts tokens) (words operands.now) }
{
    let token = one_word(operands)?;
    let token = token_read(code.hosts(), tokens, token)?;
    Some(BadMessage::Lgoto { token })
}

fn value_of(operands: &[u8]) -> Option<BadMessage>
    ensures { result ≡ value_of (words operands.now) }
{
    let (request, value) = two_words(operands)?;
    let request = request_of(request)?;
    let value = signed(value)?;
    Some(BadMessage::Value { request, value })
}

fn ack_of(operands: &[u8]) -> Option<BadMessage>
    ensures { result ≡ ack_of (words operands.now) }
{
    let request = one_word(operands)?;
    let request = request_of(request)?;
    Some(BadMessage::Ack { request })
}

fn answer_of(code: &Code, tokens: Tokens, operands: &[u8]) -> Option<BadMessage>
    ensures { result ≡ answer_by code.now (read_token code.now.hosts tokens) (words operands.now) }
{
    let (request, token) = two_words(operands)?;
    let request = request_of(request)?;
    let token = token_read(code.hosts(), tokens, token)?;
    Some(BadMessage::Token { request, token })
}
