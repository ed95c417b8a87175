//! What misbehaving hosts were sent, and the tokens in it.

ghost use Rattle.std.specs.Prelude.{◌≡◌, ◌<◌, ◌-◌, ◌∷◌, ◌++◌, [], OnOk, length};
ghost use Rattle.net_world.specs.Told.{ToldHasRoom, token_in, token_list, tokens_in, message_made};
ghost use Rattle.net_world.specs.Told.{token_presented};
ghost use Rattle.std.specs.Vec.{vec_len, vec_capacity};

use capability::Token;
use event_text::{BadMessage, BadToken};
use host_code::Message;
use js_base::{HostId, OutOfMemory};
use std::alloc::Global;
use std::marker::Model;

/// The messages that misbehaving hosts were sent, and the tokens in them, both in order.
#[derive(Drop)]
pub struct Told {
    messages: Vec<(HostId, HostId, Message)>,
    tokens: Vec<Token>,
}

impl Model for Told {
    ghost use Rattle.std.specs.Prelude.{◌≡◌, ◌-◌};
    ghost use Rattle.std.specs.Vec.{vec_len, vec_capacity};
    ghost use Rattle.net_world.specs.Told.{ToldShape, tokens_in};

    ghost Value = { ToldShape };

    ghost view = { λ t. record {
      sent = t.messages.items;
      message_room = vec_capacity t.messages - vec_len t.messages;
      token_room = vec_capacity t.tokens - vec_len t.tokens;
    } };

    ghost invariant = { λ t. t.tokens.items ≡ tokens_in t.messages.items };
}

impl Told {
    /// Nobody was sent anything.
    pub fn new(alloc: Global) -> Told
        ensures { result.sent ≡ [] }
    {
        Told {
            messages: Vec::new(alloc),
            tokens: Vec::new(alloc),
        }
    }

    /// Each message with its sender and the host that it was sent to.
    pub fn messages(&self) -> &[(HostId, HostId, Message)]
        ensures { result.now ≡ self.now.sent }
    {
        &self.messages
    }

    /// How many tokens the messages have.
    pub fn token_count(&self) -> u64
        ensures { result ≡ length (tokens_in self.now.sent) }
    {
        self.tokens.len() as u64
    }

    /// Makes room for one more message, and changes nothing else, also after an error.
    pub fn reserve(&mut self) -> Result<(), OutOfMemory>
        ensures room { OnOk result (ToldHasRoom self.new) }
        ensures same { self.new.sent ≡ self.old.sent }
    {
        self.messages.reserve(1)?;
        self.tokens.reserve(1)?;
        Ok(())
    }

    /// Adds a message, for which there is room.
    #[tactic(auto, using(crate::proofs::ToldTokens::tokens_more))]
    pub fn push(&mut self, from: HostId, to: HostId, message: &Message)
        requires { ToldHasRoom self.old }
        ensures { self.new.sent ≡ self.old.sent ++ (from, to, message.now) ∷ [] }
    {
        keep_token(&mut self.tokens, message);
        let pushed = self.messages.push((from, to, *message));
        prove!(pushed.is_ok());
    }

    /// The token that a misbehaving host presents, where it is one of its own or one that such hosts were sent.
    fn presented(&self, token: BadToken) -> Option<Token>
        ensures { result ≡ token_presented (tokens_in self.now.sent) token }
    {
        match token {
            BadToken::Sent(number) => self.tokens.get(number as usize).copied(),
            BadToken::Own(token) => Some(token),
        }
    }

    /// The message that a misbehaving host makes, where its token is one that it may come by.
    pub fn made(&self, made: &BadMessage) -> Option<Message>
        ensures { result ≡ message_made (tokens_in self.now.sent) made.now }
    {
        match *made {
            BadMessage::Get {
                request,
                field,
                index,
            } => Some(Message::Get {
                request,
                field,
                index,
            }),
            BadMessage::Set {
                request,
                field,
                index,
                value,
            } => Some(Message::Set {
                request,
                field,
                index,
                value,
            }),
            BadMessage::Forward {
                request,
                frame,
                var,
                value,
            } => Some(Message::Forward {
                request,
                frame,
                var,
                value,
            }),
            BadMessage::Value { request, value } => Some(Message::Value { request, value }),
            BadMessage::Ack { request } => Some(Message::Ack { request }),
            BadMessage::Sync {
                request,
                frame,
                entry,
                token,
            } => {
                let token = self.presented(token)?;
                Some(Message::Sync {
                    request,
                    frame,
                    entry,
                    token,
                })
            }
            BadMessage::Rgoto {
                frame,
                entry,
                token,
            } => {
                let token = self.presented(token)?;
                Some(Message::Rgoto {
                    frame,
                    entry,
                    token,
                })
            }
            BadMessage::RgotoWith {
                frame,
                entry,
                token,
                pairs,
            } => {
                let token = self.presented(token)?;
                Some(Message::RgotoWith {
                    frame,
                    entry,
                    token,
                    pairs,
                })
            }
            BadMessage::Lgoto { token } => {
                let token = self.presented(token)?;
                Some(Message::Lgoto { token })
            }
            BadMessage::Token { request, token } => {
                let token = self.presented(token)?;
                Some(Message::Token { request, token })
            }
        }
    }
}

/// Adds the token of a message to those so far, for which there is room.
fn keep_token(tokens: &mut Vec<Token>, message: &Message)
    requires { 0 < vec_capacity tokens.old - vec_len tokens.old }
    ensures { tokens.new.items ≡ tokens.old.items ++ token_list (token_in message.now) }
{
    if let Some(token) = token_in(message) {
        let kept = tokens.push(token);
        prove!(kept.is_ok());
    }
}

/// The token in a message.
fn token_in(message: &Message) -> Option<Token>
    ensures { result ≡ token_in message.now }
{
    match message {
        Message::Sync { token, .. }
        | Message::Rgoto { token, .. }
        | Message::RgotoWith { token, .. }
        | Message::Lgoto { token }
        | Message::Token { token, .. } => Some(*token),
        _ => None,
    }
}
