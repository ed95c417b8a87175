//! How events are printed, so that a script can say them again.

ghost use Rattle.std.specs.Prelude.{◌≡◌, IfOk};
ghost use Rattle.std.specs.String.{string_bytes};
ghost use Rattle.event_text.specs.EventText.{event_text, bad_message_text, bad_token_text};

use crate::event::{BadMessage, BadToken, Event};
use host_code::{
    Code, ack_text, answer_text, field_name, forward_text, get_text, host_name, lgoto_text,
    rgoto_text, rgoto_with_text, riders_text, set_text, sync_text, token_text, value_text,
    var_name,
};
use js_base::OutOfMemory;
use std::alloc::Global;

/// The line that says an event: `turn HOST`, `take FROM TO PLACE` or `act FROM TO MESSAGE`. Where some line of a script
/// says the event, this one says it too, as long as the same hosts misbehave.
pub fn event_line(alloc: Global, code: &Code, event: &Event) -> Result<String, OutOfMemory>
    ensures { IfOk result (λ line. string_bytes line ≡ event_text code.now event.now) }
{
    match event {
        Event::Turn(host) => {
            let host = host_name(code, *host);
            Ok(format!(in alloc; "turn {host}")?)
        }
        Event::Take(from, to, place) => {
            let from = host_name(code, *from);
            let to = host_name(code, *to);
            Ok(format!(in alloc; "take {from} {to} {place}")?)
        }
        Event::Act(from, to, made) => {
            let said = bad_message_text(alloc, code, made)?;
            let from = host_name(code, *from);
            let to = host_name(code, *to);
            Ok(format!(in alloc; "act {from} {to} {said}")?)
        }
    }
}

/// A message of a misbehaving host, as a script says it.
pub fn bad_message_text(
    alloc: Global,
    code: &Code,
    made: &BadMessage,
) -> Result<String, OutOfMemory>
    ensures { IfOk result (λ said. string_bytes said ≡ bad_message_text code.now made.now) }
{
    match made {
        BadMessage::Get {
            request,
            field,
            index,
        } => get_text(alloc, *request, field_name(code, *field), *index),
        BadMessage::Set {
            request,
            field,
            index,
            value,
        } => set_text(alloc, *request, field_name(code, *field), *index, *value),
        BadMessage::Forward {
            request,
            frame,
            var,
            value,
        } => forward_text(alloc, *request, *frame, var_name(code, *var), *value),
        BadMessage::Sync {
            request,
            frame,
            entry,
            token,
        } => {
            let token = bad_token_text(alloc, code, token)?;
            sync_text(alloc, *request, *frame, *entry, token.as_str())
        }
        BadMessage::Rgoto {
            frame,
            entry,
            token,
        } => {
            let token = bad_token_text(alloc, code, token)?;
            rgoto_text(alloc, *frame, *entry, token.as_str())
        }
        BadMessage::RgotoWith {
            frame,
            entry,
            token,
            pairs,
        } => {
            let token = bad_token_text(alloc, code, token)?;
            let riders = riders_text(alloc, code, pairs.pairs())?;
            rgoto_with_text(alloc, *frame, *entry, token.as_str(), riders.as_str())
        }
        BadMessage::Lgoto { token } => {
            let token = bad_token_text(alloc, code, token)?;
            lgoto_text(alloc, token.as_str())
        }
        BadMessage::Value { request, value } => value_text(alloc, *request, *value),
        BadMessage::Ack { request } => ack_text(alloc, *request),
        BadMessage::Token { request, token } => {
            let token = bad_token_text(alloc, code, token)?;
            answer_text(alloc, *request, token.as_str())
        }
    }
}

/// A token that a misbehaving host presents as it is printed.
fn bad_token_text(alloc: Global, code: &Code, token: &BadToken) -> Result<String, OutOfMemory>
    ensures { IfOk result (λ said. string_bytes said ≡ bad_token_text code.now token.now) }
{
    match token {
        BadToken::Sent(number) => Ok(format!(in alloc; "#{number}")?),
        BadToken::Own(token) => {
            let said = token_text(alloc, code, token)?;
            Ok(format!(in alloc; "own:{said}")?)
        }
    }
}
