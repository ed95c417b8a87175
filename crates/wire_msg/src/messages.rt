//! Readers of messages.
#![tactic(auto, unfolding(byte_format::specs::Reader::sequel, byte_format::specs::Reader::given, byte_format::specs::Reader::refused, crate::specs::Reading::get_at, crate::specs::Reading::set_at, crate::specs::Reading::forward_at, crate::specs::Reading::sync_at, crate::specs::Reading::rgoto_at, crate::specs::Reading::lgoto_at, crate::specs::Reading::value_at, crate::specs::Reading::ack_at, crate::specs::Reading::answer_at, crate::specs::Reading::message_at))]

ghost use Rattle.wire_msg.specs.Reader.{GivesWire};
ghost use Rattle.wire_msg.specs.Reading.{get_at, set_at, forward_at, sync_at, rgoto_at, lgoto_at, value_at, ack_at};
ghost use Rattle.wire_msg.specs.Reading.{answer_at, message_at};

use crate::error::WireError;
use crate::fields::{entry_of, field_of, frame_id_of, request_of, token_of, var_of};
use crate::numbers::i64_of;
use crate::riding::rgoto_with_of;
use host_code::Message;

/// What a get asks for.
fn get_of(bytes: &[u8]) -> Result<(Message, &[u8]), WireError>
    ensures { GivesWire (λ x. (x.0, x.1.now)) result (get_at bytes.now) }
{
    let (request, rest) = request_of(bytes)?;
    let (field, rest) = field_of(rest)?;
    let (index, rest) = i64_of(rest)?;
    let message = Message::Get {
        request,
        field,
        index,
    };
    Ok((message, rest))
}

/// What a set changes.
fn set_of(bytes: &[u8]) -> Result<(Message, &[u8]), WireError>
    ensures { GivesWire (λ x. (x.0, x.1.now)) result (set_at bytes.now) }
{
    let (request, rest) = request_of(bytes)?;
    let (field, rest) = field_of(rest)?;
    let (index, rest) = i64_of(rest)?;
    let (value, rest) = i64_of(rest)?;
    let message = Message::Set {
        request,
        field,
        index,
        value,
    };
    Ok((message, rest))
}

/// What a forward changes.
fn forward_of(bytes: &[u8]) -> Result<(Message, &[u8]), WireError>
    ensures { GivesWire (λ x. (x.0, x.1.now)) result (forward_at bytes.now) }
{
    let (request, rest) = request_of(bytes)?;
    let (frame, rest) = frame_id_of(rest)?;
    let (var, rest) = var_of(rest)?;
    let (value, rest) = i64_of(rest)?;
    let message = Message::Forward {
        request,
        frame,
        var,
        value,
    };
    Ok((message, rest))
}

/// What a sync pushes.
fn sync_of(bytes: &[u8]) -> Result<(Message, &[u8]), WireError>
    ensures { GivesWire (λ x. (x.0, x.1.now)) result (sync_at bytes.now) }
{
    let (request, rest) = request_of(bytes)?;
    let (frame, rest) = frame_id_of(rest)?;
    let (entry, rest) = entry_of(rest)?;
    let (token, rest) = token_of(rest)?;
    let message = Message::Sync {
        request,
        frame,
        entry,
        token,
    };
    Ok((message, rest))
}

/// Where an rgoto starts a thread.
fn rgoto_of(bytes: &[u8]) -> Result<(Message, &[u8]), WireError>
    ensures { GivesWire (λ x. (x.0, x.1.now)) result (rgoto_at bytes.now) }
{
    let (frame, rest) = frame_id_of(bytes)?;
    let (entry, rest) = entry_of(rest)?;
    let (token, rest) = token_of(rest)?;
    let message = Message::Rgoto {
        frame,
        entry,
        token,
    };
    Ok((message, rest))
}

/// What an lgoto takes off the control stack.
fn lgoto_of(bytes: &[u8]) -> Result<(Message, &[u8]), WireError>
    ensures { GivesWire (λ x. (x.0, x.1.now)) result (lgoto_at bytes.now) }
{
    let (token, rest) = token_of(bytes)?;
    Ok((Message::Lgoto { token }, rest))
}

/// The answer to a get.
fn value_of(bytes: &[u8]) -> Result<(Message, &[u8]), WireError>
    ensures { GivesWire (λ x. (x.0, x.1.now)) result (value_at bytes.now) }
{
    let (request, rest) = request_of(bytes)?;
    let (value, rest) = i64_of(rest)?;
    Ok((Message::Value { request, value }, rest))
}

/// The answer to a set or a forward.
fn ack_of(bytes: &[u8]) -> Result<(Message, &[u8]), WireError>
    ensures { GivesWire (λ x. (x.0, x.1.now)) result (ack_at bytes.now) }
{
    let (request, rest) = request_of(bytes)?;
    Ok((Message::Ack { request }, rest))
}

/// The answer to a sync.
fn answer_of(bytes: &[u8]) -> Result<(Message, &[u8]), WireError>
    ensures { GivesWire (λ x. (x.0, x.1.now)) result (answer_at bytes.now) }
{
    let (request, rest) = request_of(bytes)?;
    let (token, rest) = token_of(rest)?;
    Ok((Message::Token { request, token }, rest))
}

/// The fields of a message of this kind.
pub fn message_of(kind: u8, bytes: &[u8]) -> Result<(Message, &[u8]), WireError>
    ensures { GivesWire (λ x. (x.0, x.1.now)) result (message_at kind bytes.now) }
{
    match kind {
        1 => get_of(bytes),
        2 => set_of(bytes),
        3 => forward_of(bytes),
        4 => sync_of(bytes),
        5 => rgoto_of(bytes),
        6 => lgoto_of(bytes),
        7 => value_of(bytes),
        8 => ack_of(bytes),
        9 => answer_of(bytes),
        11 => rgoto_with_of(bytes),
        _ => Err(WireError::BadKind),
    }
}
