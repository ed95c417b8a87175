//! What the types of a frame keep. The calls do nothing.

ghost use Rattle.std.specs.List.{AllByRecursion};
ghost use Rattle.wire_msg.specs.Frames.{IsToken, IsRider, IsMessage, IsFrame};

use crate::frame::Frame;
use capability::Token;
use host_code::Message;
use js_base::VarId;

/// Each number of a token fits its type.
fn token_law(token: Token)
    ensures { IsToken token }
{}

/// The numbers of a variable and of its value fit their types.
fn rider_law(rider: (VarId, i64))
    ensures { IsRider rider }
{}

/// Each number of what rides fits its type.
fn riders_law(riders: &[(VarId, i64)])
    ensures { AllByRecursion IsRider riders.now }
{
    match riders {
        [] => {}
        [rider, others @ ..] => {
            rider_law(*rider);
            riders_law(others);
        }
    }
}

/// Each number of a message fits its type.
pub fn message_law(message: Message)
    ensures { IsMessage message }
{
    match message {
        Message::Sync { token, .. } => token_law(token),
        Message::Rgoto { token, .. } => token_law(token),
        Message::RgotoWith { token, pairs, .. } => {
            token_law(token);
            riders_law(pairs.pairs());
        }
        Message::Lgoto { token } => token_law(token),
        Message::Token { token, .. } => token_law(token),
        Message::Get { .. } => {}
        Message::Set { .. } => {}
        Message::Forward { .. } => {}
        Message::Value { .. } => {}
        Message::Ack { .. } => {}
    }
}

/// Each number of a frame fits its type.
pub fn frame_law(frame: Frame)
    ensures { IsFrame frame }
{
    match frame {
        Frame::Message(message) => message_law(message),
        Frame::Done => {}
    }
}
