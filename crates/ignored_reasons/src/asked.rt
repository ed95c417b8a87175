//! What a message asks of the host that takes it.

ghost use Rattle.std.specs.Prelude.{◌≡◌};
ghost use Rattle.ignored_reasons.specs.Reasons.{asked_of};

use host_code::{Message, Riders};
use js_base::{EntryId, FieldId, VarId};

/// What a message asks, as far as a check looks at it in the code. A misbehaving host asks it too, whatever token it
/// presents.
#[derive(Clone, Copy)]
pub enum Asked {
    /// What is the element of a field?
    Get(FieldId),
    /// The element of a field becomes a value.
    Set(FieldId),
    /// A variable becomes a value.
    Forward(VarId),
    /// An entry is pushed, or a thread starts there.
    Enter(EntryId),
    /// A thread starts at an entry, and variables become values.
    EnterWith(EntryId, Riders),
    /// A token is given back.
    GiveBack,
    /// A thread that waits goes on.
    Answer,
}

/// What a message asks.
pub fn asked_by(message: &Message) -> Asked
    ensures { result ≡ asked_of message.now }
{
    match *message {
        Message::Get { field, .. } => Asked::Get(field),
        Message::Set { field, .. } => Asked::Set(field),
        Message::Forward { var, .. } => Asked::Forward(var),
        Message::Sync { entry, .. } | Message::Rgoto { entry, .. } => Asked::Enter(entry),
        Message::RgotoWith { entry, pairs, .. } => Asked::EnterWith(entry, pairs),
        Message::Lgoto { .. } => Asked::GiveBack,
        Message::Value { .. } | Message::Ack { .. } | Message::Token { .. } => Asked::Answer,
    }
}
