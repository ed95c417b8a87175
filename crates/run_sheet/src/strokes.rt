//! What the arrow of a message is drawn with.

ghost use Rattle.std.specs.Prelude.{◌≡◌};
ghost use Rattle.run_sheet.specs.ChartStrokes.{message_stroke};

use host_code::Message;
use run_chart::Stroke;

/// What the arrow of a message is drawn with.
pub fn message_stroke(message: &Message) -> Stroke
    ensures { result ≡ message_stroke message.now }
{
    match message {
        Message::Get { .. } | Message::Value { .. } => Stroke::Get,
        Message::Set { .. } => Stroke::Set,
        Message::Forward { .. } => Stroke::Forward,
        Message::Sync { .. } | Message::Token { .. } => Stroke::Sync,
        Message::Rgoto { .. } | Message::RgotoWith { .. } => Stroke::Go,
        Message::Lgoto { .. } => Stroke::Back,
        Message::Ack { .. } => Stroke::Ack,
    }
}
