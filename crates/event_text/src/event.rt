//! What happens in a world of hosts, one step at a time.

use capability::Token;
use host_code::Riders;
use js_base::{EntryId, FieldId, FrameId, HostId, RequestId, VarId};

/// What happens next. The first host of a take is the sender, and the first of an act the one that misbehaves.
#[derive(Clone, Copy)]
pub enum Event {
    /// The second host takes the message at this place, from 0, of those in flight to it from the first.
    Take(HostId, HostId, u64),
    /// The host runs one instruction.
    Turn(HostId),
    /// A misbehaving host sends an obeying host a message, which is taken at once.
    Act(HostId, HostId, BadMessage),
}

/// A message as a misbehaving host makes it: a host's message whose token is one that it may come by.
#[derive(Clone, Copy)]
pub enum BadMessage {
    Get {
        request: RequestId,
        field: FieldId,
        index: i64,
    },
    Set {
        request: RequestId,
        field: FieldId,
        index: i64,
        value: i64,
    },
    Forward {
        request: RequestId,
        frame: FrameId,
        var: VarId,
        value: i64,
    },
    Sync {
        request: RequestId,
        frame: FrameId,
        entry: EntryId,
        token: BadToken,
    },
    Rgoto {
        frame: FrameId,
        entry: EntryId,
        token: BadToken,
    },
    RgotoWith {
        frame: FrameId,
        entry: EntryId,
        token: BadToken,
        pairs: Riders,
    },
    Lgoto {
        token: BadToken,
    },
    Value {
        request: RequestId,
        value: i64,
    },
    Ack {
        request: RequestId,
    },
    Token {
        request: RequestId,
        token: BadToken,
    },
}

/// A token that a misbehaving host may present.
#[derive(Clone, Copy)]
pub enum BadToken {
    /// The token with this number, from 0, among those that misbehaving hosts were sent.
    Sent(u64),
    /// A token that names a misbehaving host, with a tag of zeros.
    Own(Token),
}
