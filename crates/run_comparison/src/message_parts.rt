//! Whether messages and events are the same, part by part.

ghost use Rattle.std.specs.Prelude.{◌≡◌, ◌↔◌, IsTrue, option_copied};
ghost use Rattle.run_comparison.specs.MessageParts.{no_frame, no_request, parts_made, parts_of, parts_with};
ghost use Rattle.run_comparison.specs.MessageParts.{riders_in, riders_made, token_made, token_of};

use capability::Token;
use event_text::{BadMessage, BadToken, Event};
use host_code::Message;
use js_base::{FrameId, HostId, RequestId, SiteId, VarId};

/// What a message says beside its token and what rides: its kind, and then what it names, 0 where its kind names no
/// such thing.
#[derive(Clone, Copy, PartialEq, Eq)]
pub struct Parts {
    kind: u8,
    request: RequestId,
    frame: FrameId,
    named: u32,
    index: i64,
    value: i64,
}

/// Whether two messages are the same, of the same sender to the same host.
pub fn is_same_sent(one: &(HostId, HostId, Message), other: &(HostId, HostId, Message)) -> bool
    ensures { IsTrue result ↔ (one.now ≡ other.now) }
{
    one.0 == other.0 && one.1 == other.1 && is_same_message(&one.2, &other.2)
}

/// Whether two events are the same.
pub fn is_same_event(one: &Event, other: &Event) -> bool
    ensures { IsTrue result ↔ (one.now ≡ other.now) }
{
    match (one, other) {
        (Event::Take(from, to, place), Event::Take(by, at, also)) => {
            from == by && to == at && place == also
        }
        (Event::Turn(host), Event::Turn(also)) => host == also,
        (Event::Act(from, to, made), Event::Act(by, at, also)) => {
            from == by && to == at && is_same_made(made, also)
        }
        _ => false,
    }
}

/// Whether two messages are the same.
#[tactic(auto, using(crate::proofs::SameMessages::one_message))]
fn is_same_message(one: &Message, other: &Message) -> bool
    ensures { IsTrue result ↔ (one.now ≡ other.now) }
{
    if !is_same_without_riders(one, other) {
        return false;
    }
    is_same_riders(riders_of(one), riders_of(other))
}

/// Whether two messages are the same but for what rides.
fn is_same_without_riders(one: &Message, other: &Message) -> bool
    ensures { IsTrue result
        ↔ ((parts_of one.now ≡ parts_of other.now) × (token_of one.now ≡ token_of other.now)) }
{
    let here = parts_of(one);
    let there = parts_of(other);
    if !is_same_parts(&here, &there) {
        return false;
    }
    is_same_token(token_of(one), token_of(other))
}

/// Whether two messages of misbehaving hosts are the same.
#[tactic(auto, using(crate::proofs::SameMessages::one_made))]
fn is_same_made(one: &BadMessage, other: &BadMessage) -> bool
    ensures { IsTrue result ↔ (one.now ≡ other.now) }
{
    if !is_made_without_riders(one, other) {
        return false;
    }
    is_same_riders(riders_made(one), riders_made(other))
}

/// Whether two messages of misbehaving hosts are the same but for what rides.
fn is_made_without_riders(one: &BadMessage, other: &BadMessage) -> bool
    ensures { IsTrue result
        ↔ ((parts_made one.now ≡ parts_made other.now) × (token_made one.now ≡ token_made other.now)) }
{
    let here = parts_made(one);
    let there = parts_made(other);
    if !is_same_parts(&here, &there) {
        return false;
    }
    is_same_token_made(token_made(one), token_made(other))
}

/// Whether all parts are the same.
fn is_same_parts(one: &Parts, other: &Parts) -> bool
    ensures { IsTrue result ↔ (one.now ≡ other.now) }
{
    *one == *other
}

/// Whether there is the same token, or none.
fn is_same_token(one: Option<&Token>, other: Option<&Token>) -> bool
    ensures { IsTrue result ↔ (option_copied one.entry ≡ option_copied other.entry) }
{
    match (one, other) {
        (Some(one), Some(other)) => one.is_same(other),
        (None, None) => true,
        _ => false,
    }
}

/// Whether there is the same token of a misbehaving host, or none.
fn is_same_token_made(one: Option<&BadToken>, other: Option<&BadToken>) -> bool
    ensures { IsTrue result ↔ (option_copied one.entry ≡ option_copied other.entry) }
{
    match (one, other) {
        (Some(BadToken::Sent(one)), Some(BadToken::Sent(other))) => one == other,
        (Some(BadToken::Own(one)), Some(BadToken::Own(other))) => one.is_same(other),
        (None, None) => true,
        _ => false,
    }
}

/// Whether the same values ride for the same variables, in the same order.
fn is_same_riders(one: &[(VarId, i64)], other: &[(VarId, i64)]) -> bool
    ensures { IsTrue result ↔ (one.now ≡ other.now) }
{
    one == other
}

/// No request.
fn no_request() -> RequestId
    ensures { result ≡ no_request }
{
    RequestId { at: 0, count: 0 }
}

/// No frame.
fn no_frame() -> FrameId
    ensures { result ≡ no_frame }
{
    FrameId {
        site: SiteId(0),
        count: 0,
    }
}

/// These parts.
fn parts_with(
    kind: u8,
    request: RequestId,
    frame: FrameId,
    named: u32,
    index: i64,
    value: i64,
) -> Parts
    ensures { result ≡ parts_with kind request frame named index value }
{
    Parts {
        kind,
        request,
        frame,
        named,
        index,
        value,
    }
}

/// The parts of a message, but for its token and what rides.
fn parts_of(message: &Message) -> Parts
    ensures { result ≡ parts_of message.now }
{
    let (none, here) = (no_request(), no_frame());
    match *message {
        Message::Get {
            request,
            field,
            index,
        } => parts_with(1, request, here, field.0, index, 0),
        Message::Set {
            request,
            field,
            index,
            value,
        } => { parts_with(2, request, here, field.0, index, value) }
        Message::Forward {
            request,
            frame,
            var,
            value,
        } => { parts_with(3, request, frame, var.0, 0, value) }
        Message::Sync {
            request,
            frame,
            entry,
            ..
        } => { parts_with(4, request, frame, entry.0, 0, 0) }
        Message::Rgoto { frame, entry, .. } => parts_with(5, none, frame, entry.0, 0, 0),
        Message::RgotoWith { frame, entry, .. } => parts_with(10, none, frame, entry.0, 0, 0),
        Message::Lgoto { .. } => parts_with(6, none, here, 0, 0, 0),
        Message::Value { request, value } => parts_with(7, request, here, 0, 0, value),
        Message::Ack { request } => parts_with(8, request, here, 0, 0, 0),
        Message::Token { request, .. } => parts_with(9, request, here, 0, 0, 0),
    }
}

/// The same of a message as a misbehaving host makes it.
fn parts_made(made: &BadMessage) -> Parts
    ensures { result ≡ parts_made made.now }
{
    let (none, here) = (no_request(), no_frame());
    match *made {
        BadMessage::Get {
            request,
            field,
            index,
        } => { parts_with(1, request, here, field.0, index, 0) }
        BadMessage::Set {
            request,
            field,
            index,
            value,
        } => { parts_with(2, request, here, field.0, index, value) }
        BadMessage::Forward {
            request,
            frame,
            var,
            value,
        } => { parts_with(3, request, frame, var.0, 0, value) }
        BadMessage::Sync {
            request,
            frame,
            entry,
            ..
        } => { parts_with(4, request, frame, entry.0, 0, 0) }
        BadMessage::Rgoto { frame, entry, .. } => parts_with(5, none, frame, entry.0, 0, 0),
        BadMessage::RgotoWith { frame, entry, .. } => { parts_with(10, none, frame, entry.0, 0, 0) }
        BadMessage::Lgoto { .. } => parts_with(6, none, here, 0, 0, 0),
        BadMessage::Value { request, value } => parts_with(7, request, here, 0, 0, value),
        BadMessage::Ack { request } => parts_with(8, request, here, 0, 0, 0),
        BadMessage::Token { request, .. } => parts_with(9, request, here, 0, 0, 0),
    }
}

/// The token of a message, where it has one.
fn token_of(message: &Message) -> Option<&Token>
    ensures { option_copied result ≡ token_of message.now }
{
    match message {
        Message::Sync { token, .. }
        | Message::Rgoto { token, .. }
        | Message::RgotoWith { token, .. }
        | Message::Lgoto { token }
        | Message::Token { token, .. } => Some(token),
        _ => None,
    }
}

/// The same of a message as a misbehaving host makes it.
fn token_made(made: &BadMessage) -> Option<&BadToken>
    ensures { option_copied result ≡ token_made made.now }
{
    match made {
        BadMessage::Sync { token, .. }
        | BadMessage::Rgoto { token, .. }
        | BadMessage::RgotoWith { token, .. }
        | BadMessage::Lgoto { token }
        | BadMessage::Token { token, .. } => Some(token),
        _ => None,
    }
}

/// What rides with a message.
fn riders_of(message: &Message) -> &[(VarId, i64)]
    ensures { result.now ≡ riders_in message.now }
{
    match message {
        Message::RgotoWith { pairs, .. } => pairs.pairs(),
        _ => &[],
    }
}

/// The same of a message as a misbehaving host makes it.
fn riders_made(made: &BadMessage) -> &[(VarId, i64)]
    ensures { result.now ≡ riders_made made.now }
{
    match made {
        BadMessage::RgotoWith { pairs, .. } => pairs.pairs(),
        _ => &[],
    }
}
