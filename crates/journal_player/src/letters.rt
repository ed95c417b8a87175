//! What the line of a take says.

ghost use Rattle.std.specs.Prelude.{◌≡◌};
ghost use Rattle.event_text.specs.Lines.{words};
ghost use Rattle.journal_player.specs.Letters.{letter_of, plain_letter, taken_of, token_in, token_letter};

use capability::Token;
use event_text::{BadMessage, BadToken, first_word, host_named, printed_message};
use host_code::{Code, Message};
use js_base::HostId;

/// The host and the message of a line `take HOST MESSAGE`, with a tag of zeros in the token of the message.
pub fn taken(code: &Code, line: &[u8]) -> Option<(HostId, Message)>
    ensures { result ≡ taken_of code.now (words line.now) }
{
    let (verb, operands) = first_word(line)?;
    if verb != b"take".as_slice() {
        return None;
    }
    let (name, said) = first_word(operands)?;
    let from = host_named(code.hosts(), name)?;
    let message = letter(printed_message(code, said)?)?;
    Some((from, message))
}

/// The message, where its token was printed.
fn letter(said: BadMessage) -> Option<Message>
    ensures { result ≡ letter_of said }
{
    match plain_letter(&said) {
        Some(letter) => Some(letter),
        None => token_letter(&said),
    }
}

/// A message that has no token.
fn plain_letter(said: &BadMessage) -> Option<Message>
    ensures { result ≡ plain_letter said.now }
{
    match *said {
        BadMessage::Get {
            request,
            field,
            index,
        } => Some(Message::Get {
            request,
            field,
            index,
        }),
        BadMessage::Set {
            request,
            field,
            index,
            value,
        } => Some(Message::Set {
            request,
            field,
            index,
            value,
        }),
        BadMessage::Forward {
            request,
            frame,
            var,
            value,
        } => Some(Message::Forward {
            request,
            frame,
            var,
            value,
        }),
        BadMessage::Value { request, value } => Some(Message::Value { request, value }),
        BadMessage::Ack { request } => Some(Message::Ack { request }),
        _ => None,
    }
}

/// And one that has, where that was printed.
fn token_letter(said: &BadMessage) -> Option<Message>
    ensures { result ≡ token_letter said.now }
{
    match *said {
        BadMessage::Sync {
            request,
            frame,
            entry,
            token,
        } => Some(Message::Sync {
            request,
            frame,
            entry,
            token: printed(token)?,
        }),
        BadMessage::Rgoto {
            frame,
            entry,
            token,
        } => Some(Message::Rgoto {
            frame,
            entry,
            token: printed(token)?,
        }),
        BadMessage::RgotoWith {
            frame,
            entry,
            token,
            pairs,
        } => Some(Message::RgotoWith {
            frame,
            entry,
            token: printed(token)?,
            pairs,
        }),
        BadMessage::Lgoto { token } => Some(Message::Lgoto {
            token: printed(token)?,
        }),
        BadMessage::Token { request, token } => Some(Message::Token {
            request,
            token: printed(token)?,
        }),
        _ => None,
    }
}

/// A token that was printed.
fn printed(token: BadToken) -> Option<Token>
    ensures { result ≡ token_in token }
{
    match token {
        BadToken::Own(token) => Some(token),
        BadToken::Sent(_) => None,
    }
}
