//! How messages are printed.

ghost use Rattle.std.specs.Prelude.{◌≡◌, IfOk};
ghost use Rattle.std.specs.String.{string_bytes};
ghost use Rattle.host_code.specs.Messages.{MessageFits};
ghost use Rattle.host_code.specs.MessageText as text;

use crate::code::Code;
use crate::message::Message;
use capability::Token;
use js_base::{EntryId, FieldId, FrameId, HostId, OutOfMemory, RequestId, VarId};
use std::alloc::Global;

/// A message as reports, journals and scripts print it. It has to fit the code.
pub fn message_text(alloc: Global, code: &Code, message: &Message) -> Result<String, OutOfMemory>
    requires { MessageFits code.now message.now }
    ensures { IfOk result (λ printed. string_bytes printed ≡ text.message_text code.now message.now) }
{
    match message {
        Message::Get {
            request,
            field,
            index,
        } => { get_text(alloc, *request, field_name(code, *field), *index) }
        Message::Set {
            request,
            field,
            index,
            value,
        } => { set_text(alloc, *request, field_name(code, *field), *index, *value) }
        Message::Forward {
            request,
            frame,
            var,
            value,
        } => { forward_text(alloc, *request, *frame, var_name(code, *var), *value) }
        Message::Sync {
            request,
            frame,
            entry,
            token,
        } => {
            let token = token_text(alloc, code, token)?;
            sync_text(alloc, *request, *frame, *entry, token.as_str())
        }
        Message::Rgoto {
            frame,
            entry,
            token,
        } => {
            let token = token_text(alloc, code, token)?;
            rgoto_text(alloc, *frame, *entry, token.as_str())
        }
        Message::RgotoWith {
            frame,
            entry,
            token,
            pairs,
        } => {
            let token = token_text(alloc, code, token)?;
            let riders = riders_text(alloc, code, pairs.pairs())?;
            rgoto_with_text(alloc, *frame, *entry, token.as_str(), riders.as_str())
        }
        Message::Lgoto { token } => {
            let token = token_text(alloc, code, token)?;
            lgoto_text(alloc, token.as_str())
        }
        Message::Value { request, value } => value_text(alloc, *request, *value),
        Message::Ack { request } => ack_text(alloc, *request),
        Message::Token { request, token } => {
            let token = token_text(alloc, code, token)?;
            answer_text(alloc, *request, token.as_str())
        }
    }
}

/// A token as it is printed: `HOST:FRAME:ENTRY:SERIAL`.
pub fn token_text(alloc: Global, code: &Code, token: &Token) -> Result<String, OutOfMemory>
    ensures { IfOk result (λ printed. string_bytes printed ≡ text.token_text code.now token.now) }
{
    let host = host_name(code, token.host);
    let frame = token.frame;
    let (entry, serial) = (token.entry, token.serial);
    Ok(format!(in alloc;
        "{host}:{}.{}:e{}:{serial}",
        frame.site.0, frame.count, entry.0
    )?)
}

/// A get of a field of this name.
pub fn get_text(
    alloc: Global,
    request: RequestId,
    field: &str,
    index: i64,
) -> Result<String, OutOfMemory>
    ensures { IfOk result (λ printed. string_bytes printed ≡ text.get_text request field.now index) }
{
    Ok(format!(in alloc; "get {}.{} {field} {index}", request.at, request.count)?)
}

/// A set of a field of this name.
pub fn set_text(
    alloc: Global,
    request: RequestId,
    field: &str,
    index: i64,
    value: i64,
) -> Result<String, OutOfMemory>
    ensures { IfOk result (λ printed. string_bytes printed ≡ text.set_text request field.now index value) }
{
    Ok(format!(in alloc;
        "set {}.{} {field} {index} {value}",
        request.at, request.count
    )?)
}

/// A forward of a variable of this name.
pub fn forward_text(
    alloc: Global,
    request: RequestId,
    frame: FrameId,
    var: &str,
    value: i64,
) -> Result<String, OutOfMemory>
    ensures { IfOk result (λ printed. string_bytes printed ≡ text.forward_text request frame var.now value) }
{
    Ok(format!(in alloc;
        "forward {}.{} {}.{} {var} {value}",
        request.at, request.count, frame.site.0, frame.count
    )?)
}

/// A sync whose token is printed so.
pub fn sync_text(
    alloc: Global,
    request: RequestId,
    frame: FrameId,
    entry: EntryId,
    token: &str,
) -> Result<String, OutOfMemory>
    ensures { IfOk result (λ printed.
        string_bytes printed ≡ text.sync_text request frame entry token.now) }
{
    Ok(format!(in alloc;
        "sync {}.{} {}.{} e{} {token}",
        request.at, request.count, frame.site.0, frame.count, entry.0
    )?)
}

/// An rgoto whose token is printed so.
pub fn rgoto_text(
    alloc: Global,
    frame: FrameId,
    entry: EntryId,
    token: &str,
) -> Result<String, OutOfMemory>
    ensures { IfOk result (λ printed.
        string_bytes printed ≡ text.rgoto_text frame entry token.now) }
{
    Ok(format!(in alloc;
        "rgoto {}.{} e{} {token}",
        frame.site.0, frame.count, entry.0
    )?)
}

/// An rgoto whose token is printed so, with which values ride that are printed so.
pub fn rgoto_with_text(
    alloc: Global,
    frame: FrameId,
    entry: EntryId,
    token: &str,
    riders: &str,
) -> Result<String, OutOfMemory>
    ensures { IfOk result (λ printed.
        string_bytes printed ≡ text.rgoto_with_text frame entry token.now riders.now) }
{
    Ok(format!(in alloc;
        "rgoto {}.{} e{} {token} with{riders}",
        frame.site.0, frame.count, entry.0
    )?)
}

/// The variables and values that ride, with a blank before each.
pub fn riders_text(
    alloc: Global,
    code: &Code,
    riders: &[(VarId, i64)],
) -> Result<String, OutOfMemory>
    ensures { IfOk result (λ printed. string_bytes printed ≡ text.riders_text code.now riders.now) }
{
    let mut printed = String::new(alloc);
    for (var, value) in riders {
        let name = var_name(code, *var);
        write!(printed, " {name} {value}").map_err(|_| OutOfMemory)?;
    }
    Ok(printed)
}

/// An lgoto whose token is printed so.
pub fn lgoto_text(alloc: Global, token: &str) -> Result<String, OutOfMemory>
    ensures { IfOk result (λ printed. string_bytes printed ≡ text.lgoto_text token.now) }
{
    Ok(format!(in alloc; "lgoto {token}")?)
}

/// The answer to a get.
pub fn value_text(alloc: Global, request: RequestId, value: i64) -> Result<String, OutOfMemory>
    ensures { IfOk result (λ printed. string_bytes printed ≡ text.value_text request value) }
{
    Ok(format!(in alloc; "value {}.{} {value}", request.at, request.count)?)
}

/// The answer to a set or a forward.
pub fn ack_text(alloc: Global, request: RequestId) -> Result<String, OutOfMemory>
    ensures { IfOk result (λ printed. string_bytes printed ≡ text.ack_text request) }
{
    Ok(format!(in alloc; "ack {}.{}", request.at, request.count)?)
}

/// The answer to a sync whose token is printed so.
pub fn answer_text(alloc: Global, request: RequestId, token: &str) -> Result<String, OutOfMemory>
    ensures { IfOk result (λ printed.
        string_bytes printed ≡ text.answer_text request token.now) }
{
    Ok(format!(in alloc; "token {}.{} {token}", request.at, request.count)?)
}

/// The name of a host, empty where there is no such host.
pub fn host_name(code: &Code, host: HostId) -> &str
    ensures { result.now ≡ text.host_text code.now host }
{
    match code.host(host) {
        Some(there) => there.name(),
        None => "",
    }
}

/// The name of a field, empty where there is no such field.
pub fn field_name(code: &Code, field: FieldId) -> &str
    ensures { result.now ≡ text.field_text code.now field }
{
    match code.field(field) {
        Some(there) => there.name(),
        None => "",
    }
}

/// The name of a variable, empty where there is no such variable.
pub fn var_name(code: &Code, var: VarId) -> &str
    ensures { result.now ≡ text.variable_text code.now var }
{
    match code.var(var) {
        Some(there) => there.name(),
        None => "",
    }
}
