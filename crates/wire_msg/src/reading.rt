//! Reading a frame.
#![tactic(auto, unfolding(byte_format::specs::Reader::sequel, byte_format::specs::Reader::given, byte_format::specs::Reader::require, crate::specs::Reader::known, crate::specs::Reader::whole, crate::specs::Reading::some_message_at, crate::specs::Reading::fields_at, crate::specs::Reading::sent_at, crate::specs::Reading::body_at, crate::specs::Reading::frame_at, crate::specs::Reading::reading_of))]

ghost use Rattle.std.specs.Prelude.{◌≡◌, IfOk, Ok};
ghost use Rattle.js_base.specs.declared.ids.HostId.{HostId};
ghost use Rattle.wire_msg.specs.declared.frame.Frame.{Frame};
ghost use Rattle.wire_msg.specs.Faults.{first_fault, fault_in};
ghost use Rattle.wire_msg.specs.Frames.{token_in, has_host, IsSent};
ghost use Rattle.wire_msg.specs.Reader.{GivesWire, whole};
ghost use Rattle.wire_msg.specs.Reading.{fields_at, sent_at, body_at, reading_of};
ghost use Rattle.wire_msg.specs.Spelling.{frame_bytes};

use crate::error::WireError;
use crate::frame::Frame;
use crate::messages::message_of;
use crate::numbers::{byte_of, bytes_of, u32_of};
use capability::Token;
use host_code::Message;
use js_base::HostId;
use js_base::limits::{FRAME_BYTES, HOSTS};

/// The kind of the frame of a sender that is done.
pub(crate) const DONE: u8 = 10;

/// The token in a message, if it has one.
fn token_in(message: &Message) -> Option<Token>
    ensures { result ≡ token_in message.now }
{
    match message {
        Message::Sync { token, .. }
        | Message::Rgoto { token, .. }
        | Message::RgotoWith { token, .. }
        | Message::Lgoto { token }
        | Message::Token { token, .. } => Some(*token),
        Message::Get { .. }
        | Message::Set { .. }
        | Message::Forward { .. }
        | Message::Value { .. }
        | Message::Ack { .. } => None,
    }
}

/// Whether the host of a token in a frame is one that there may be.
fn has_host(frame: &Frame) -> bool
    ensures { result ≡ has_host frame.now }
{
    match frame {
        Frame::Message(message) => match token_in(message) {
            Some(token) => (token.host.0 as usize) < HOSTS,
            None => true,
        },
        Frame::Done => true,
    }
}

/// The fields of a frame of this kind.
fn fields_of(kind: u8, bytes: &[u8]) -> Result<(Frame, &[u8]), WireError>
    ensures { GivesWire (λ x. (x.0, x.1.now)) result (fields_at kind bytes.now) }
{
    if kind == DONE {
        return Ok((Frame::Done, bytes));
    }
    // A `match`, since a `?` on a message, which may have riders, beside a slice has no proof.
    match message_of(kind, bytes) {
        Ok((message, rest)) => Ok((Frame::Message(message), rest)),
        Err(error) => Err(error),
    }
}

/// Who sent a body, and what it says.
fn sent_of(body: &[u8]) -> Result<(HostId, Frame), WireError>
    ensures { GivesWire (λ x. x) result (whole sent_at body.now) }
{
    let (from, rest) = byte_of(body)?;
    let (kind, rest) = byte_of(rest)?;
    if from as usize >= HOSTS {
        return Err(WireError::BadField);
    }
    // As for the message.
    let (frame, rest) = match fields_of(kind, rest) {
        Ok(read) => read,
        Err(error) => return Err(error),
    };
    if !has_host(&frame) {
        return Err(WireError::BadField);
    }
    if !rest.is_empty() {
        return Err(WireError::Trailing);
    }
    Ok((HostId(from), frame))
}

/// The body of a frame, and the bytes behind the frame.
fn body_of(bytes: &[u8]) -> Result<(&[u8], &[u8]), WireError>
    ensures { GivesWire (λ x. (x.0.now, x.1.now)) result (body_at bytes.now) }
{
    let (len, rest) = u32_of(bytes)?;
    if len as usize > FRAME_BYTES {
        return Err(WireError::TooLong);
    }
    bytes_of(len as usize, rest)
}

/// Who sent the frame of these bytes, and what it says, or the first cause why there is none.
fn frame_of(bytes: &[u8]) -> Result<(HostId, Frame), WireError>
    ensures { GivesWire (λ x. x) result (reading_of bytes.now) }
{
    let (body, behind) = body_of(bytes)?;
    let sent = sent_of(body)?;
    if !behind.is_empty() {
        return Err(WireError::Trailing);
    }
    Ok(sent)
}

/// Who sent the frame of these bytes, and what it says.
///
/// # Errors
/// The bytes are no frame. Of several causes the first of these is told:
///
/// 1. `Short`: there are fewer than four bytes;
/// 2. `TooLong`: the length is above 4096;
/// 3. `Short`: fewer bytes follow than the length says, or the body has fewer than two;
/// 4. `BadField`: the sender's number is above 15;
/// 5. `BadKind`: there is no such kind;
/// 6. `Short`: the body ends before the fields of its kind do, the pairs of an rgoto with values aside;
/// 7. `BadField`: the number of a token's host is above 15;
/// 8. `BadField`: the count of pairs is not 1 to 8;
/// 9. `Short`: the body ends before the pairs do;
/// 10. `Trailing`: bytes are left in the body or behind the frame.
pub fn read(bytes: &[u8]) -> Result<(HostId, Frame), WireError>
    // What is read is spelled so.
    ensures found { IfOk result (λ x. IsSent x.0 x.1 × (bytes.now ≡ frame_bytes x.0 x.1)) }
    // What is spelled so is read.
    ensures only { (from : HostId) (sent : Frame) → IsSent from sent → bytes.now ≡ frame_bytes from sent →
        result ≡ Ok (from, sent) }
    // Which frame it is, or which cause is told.
    ensures exact { GivesWire (λ x. x) result (reading_of bytes.now) }
    // The cause is the first of all, told by places and lengths alone.
    ensures cause { fault_in result ≡ first_fault bytes.now }
{
    frame_of(bytes)
}
