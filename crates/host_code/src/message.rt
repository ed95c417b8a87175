//! Messages between hosts.

ghost use Rattle.std.specs.Prelude.{◌↔◌, IsTrue};
ghost use Rattle.host_code.specs.Messages.{AreOfCode, MessageFits};
ghost use Rattle.host_code.specs.Sound.{IsHost, IsField, IsVariable};

use crate::code::Code;
use crate::riders::Riders;
use capability::Token;
use js_base::{EntryId, FieldId, FrameId, HostId, RequestId, VarId};

/// What one host tells another. A request has a number by which the answer is known.
#[derive(Clone, Copy, Debug)]
pub enum Message {
    /// What is the element of a field?
    Get {
        request: RequestId,
        field: FieldId,
        index: i64,
    },
    /// The element of a field becomes a value.
    Set {
        request: RequestId,
        field: FieldId,
        index: i64,
        value: i64,
    },
    /// A variable of a frame becomes a value.
    Forward {
        request: RequestId,
        frame: FrameId,
        var: VarId,
        value: i64,
    },
    /// Push an entry in a frame, and keep the token with it.
    Sync {
        request: RequestId,
        frame: FrameId,
        entry: EntryId,
        token: Token,
    },
    /// Start a thread at an entry in a frame. It holds the token.
    Rgoto {
        frame: FrameId,
        entry: EntryId,
        token: Token,
    },
    /// Start a thread at an entry in a frame, some of whose variables become the values that ride. It holds the token.
    RgotoWith {
        frame: FrameId,
        entry: EntryId,
        token: Token,
        pairs: Riders,
    },
    /// Start the thread of the entry that the token takes off the control stack.
    Lgoto {
        token: Token,
    },
    /// The answer to a get.
    Value {
        request: RequestId,
        value: i64,
    },
    /// The answer to a set or a forward.
    Ack {
        request: RequestId,
    },
    /// The answer to a sync: the token of the entry that was pushed.
    Token {
        request: RequestId,
        token: Token,
    },
}

impl Message {
    /// Whether each token in the message names a host of the code, and each field and variable that it names is there.
    pub fn fits(&self, code: &Code) -> bool
        ensures { IsTrue result ↔ MessageFits code.now self.now }
    {
        match self {
            Message::Get { field, .. } | Message::Set { field, .. } => has_field(code, *field),
            Message::Forward { var, .. } => has_var(code, *var),
            Message::Sync { token, .. }
            | Message::Rgoto { token, .. }
            | Message::Lgoto { token }
            | Message::Token { token, .. } => has_host(code, token.host),
            Message::RgotoWith { token, pairs, .. } => {
                has_host(code, token.host) && all_vars(code, pairs.pairs())
            }
            Message::Value { .. } | Message::Ack { .. } => true,
        }
    }
}

/// Whether the code has a host of the number.
fn has_host(code: &Code, host: HostId) -> bool
    ensures { IsTrue result ↔ IsHost code.now host }
{
    (host.0 as usize) < code.hosts().len()
}

/// Whether the code has a field of the number.
fn has_field(code: &Code, field: FieldId) -> bool
    ensures { IsTrue result ↔ IsField code.now field }
{
    (field.0 as usize) < code.fields().len()
}

/// Whether the code has a variable of the number.
fn has_var(code: &Code, var: VarId) -> bool
    ensures { IsTrue result ↔ IsVariable code.now var }
{
    (var.0 as usize) < code.vars().len()
}

/// Whether the code has each variable that rides.
fn all_vars(code: &Code, riders: &[(VarId, i64)]) -> bool
    ensures { IsTrue result ↔ AreOfCode code.now riders.now }
{
    match riders {
        [] => true,
        [(var, _), others @ ..] => has_var(code, *var) && all_vars(code, others),
    }
}
