//! What a misbehaving host asks, whatever token it presents.

ghost use Rattle.std.specs.Prelude.{◌≡◌};
ghost use Rattle.run_rows.specs.Asking.{asked_in};

use event_text::BadMessage;
use ignored_reasons::Asked;

/// What a message of a misbehaving host asks.
pub fn asked_in(made: &BadMessage) -> Asked
    ensures { result ≡ asked_in made.now }
{
    match *made {
        BadMessage::Get { field, .. } => Asked::Get(field),
        BadMessage::Set { field, .. } => Asked::Set(field),
        BadMessage::Forward { var, .. } => Asked::Forward(var),
        BadMessage::Sync { entry, .. } | BadMessage::Rgoto { entry, .. } => Asked::Enter(entry),
        BadMessage::RgotoWith { entry, pairs, .. } => Asked::EnterWith(entry, pairs),
        BadMessage::Lgoto { .. } => Asked::GiveBack,
        BadMessage::Value { .. } | BadMessage::Ack { .. } | BadMessage::Token { .. } =>
            Asked::Answer,
    }
}
