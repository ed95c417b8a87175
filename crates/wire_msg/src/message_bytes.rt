//! Messages at the end of some bytes.
#![tactic(auto, using(crate::proofs::Appends::appends))]

ghost use Rattle.std.specs.Prelude.{◌≡◌, ◌++◌, OnOk};
ghost use Rattle.std.specs.List.{flat_map};
ghost use Rattle.host_code.specs.declared.message.Message.TheVariants as message;
ghost use Rattle.wire_msg.specs.Spelling.{rider_bytes, message_bytes};

use crate::appending::{put_frame_id, put_request, put_token};
use byte_format::{put_byte, put_integer, put_number};
use capability::Token;
use host_code::{Message, Riders};
use js_base::{EntryId, FieldId, FrameId, OutOfMemory, RequestId, VarId};

/// Adds a get.
fn put_get(
    out: &mut Vec<u8>,
    request: RequestId,
    field: FieldId,
    index: i64,
) -> Result<(), OutOfMemory>
    ensures { OnOk result (out.new.items ≡ out.old.items ++ message_bytes (message.Get request field index)) }
{
    put_byte(out, 1)?;
    put_request(out, request)?;
    put_number(out, field.0)?;
    put_integer(out, index)
}

/// Adds a set.
fn put_set(
    out: &mut Vec<u8>,
    request: RequestId,
    field: FieldId,
    index: i64,
    value: i64,
) -> Result<(), OutOfMemory>
    ensures { OnOk result (out.new.items ≡ out.old.items ++ message_bytes (message.Set request field index value)) }
{
    put_byte(out, 2)?;
    put_request(out, request)?;
    put_number(out, field.0)?;
    put_integer(out, index)?;
    put_integer(out, value)
}

/// Adds a forward.
fn put_forward(
    out: &mut Vec<u8>,
    request: RequestId,
    frame: FrameId,
    var: VarId,
    value: i64,
) -> Result<(), OutOfMemory>
    ensures { OnOk result (out.new.items ≡ out.old.items ++ message_bytes (message.Forward request frame var value)) }
{
    put_byte(out, 3)?;
    put_request(out, request)?;
    put_frame_id(out, frame)?;
    put_number(out, var.0)?;
    put_integer(out, value)
}

/// Adds a sync.
fn put_sync(
    out: &mut Vec<u8>,
    request: RequestId,
    frame: FrameId,
    entry: EntryId,
    token: &Token,
) -> Result<(), OutOfMemory>
    ensures { OnOk result
        (out.new.items ≡ out.old.items ++ message_bytes (message.Sync request frame entry token.now)) }
{
    put_byte(out, 4)?;
    put_request(out, request)?;
    put_frame_id(out, frame)?;
    put_number(out, entry.0)?;
    put_token(out, token)
}

/// Adds an rgoto.
fn put_rgoto(
    out: &mut Vec<u8>,
    frame: FrameId,
    entry: EntryId,
    token: &Token,
) -> Result<(), OutOfMemory>
    ensures { OnOk result (out.new.items ≡ out.old.items ++ message_bytes (message.Rgoto frame entry token.now)) }
{
    put_byte(out, 5)?;
    put_frame_id(out, frame)?;
    put_number(out, entry.0)?;
    put_token(out, token)
}

/// Adds an lgoto.
fn put_lgoto(out: &mut Vec<u8>, token: &Token) -> Result<(), OutOfMemory>
    ensures { OnOk result (out.new.items ≡ out.old.items ++ message_bytes (message.Lgoto token.now)) }
{
    put_byte(out, 6)?;
    put_token(out, token)
}

/// Adds the answer to a get.
fn put_value(out: &mut Vec<u8>, request: RequestId, value: i64) -> Result<(), OutOfMemory>
    ensures { OnOk result (out.new.items ≡ out.old.items ++ message_bytes (message.Value request value)) }
{
    put_byte(out, 7)?;
    put_request(out, request)?;
    put_integer(out, value)
}

/// Adds the answer to a set or a forward.
fn put_ack(out: &mut Vec<u8>, request: RequestId) -> Result<(), OutOfMemory>
    ensures { OnOk result (out.new.items ≡ out.old.items ++ message_bytes (message.Ack request)) }
{
    put_byte(out, 8)?;
    put_request(out, request)
}

/// Adds the answer to a sync.
fn put_answer(out: &mut Vec<u8>, request: RequestId, token: &Token) -> Result<(), OutOfMemory>
    ensures { OnOk result (out.new.items ≡ out.old.items ++ message_bytes (message.Token request token.now)) }
{
    put_byte(out, 9)?;
    put_request(out, request)?;
    put_token(out, token)
}

/// Adds variables, and the values that ride for them.
fn put_riders(out: &mut Vec<u8>, riders: &[(VarId, i64)]) -> Result<(), OutOfMemory>
    ensures { OnOk result (out.new.items ≡ out.old.items ++ flat_map rider_bytes riders.now) }
{
    for (var, value) in riders {
        put_number(out, var.0)?;
        put_integer(out, *value)?;
    }
    Ok(())
}

/// Adds an rgoto with which values ride.
fn put_rgoto_with(
    out: &mut Vec<u8>,
    frame: FrameId,
    entry: EntryId,
    token: &Token,
    pairs: &Riders,
) -> Result<(), OutOfMemory>
    ensures { OnOk result
        (out.new.items ≡ out.old.items ++ message_bytes (message.RgotoWith frame entry token.now pairs.now)) }
{
    let riders = pairs.pairs();
    put_byte(out, 11)?;
    put_frame_id(out, frame)?;
    put_number(out, entry.0)?;
    put_token(out, token)?;
    put_byte(out, riders.len() as u8)?;
    put_riders(out, riders)
}

/// Adds a message, behind its kind.
pub fn put_message(out: &mut Vec<u8>, message: &Message) -> Result<(), OutOfMemory>
    ensures { OnOk result (out.new.items ≡ out.old.items ++ message_bytes message.now) }
{
    match message {
        Message::Get {
            request,
            field,
            index,
        } => put_get(out, *request, *field, *index),
        Message::Set {
            request,
            field,
            index,
            value,
        } => put_set(out, *request, *field, *index, *value),
        Message::Forward {
            request,
            frame,
            var,
            value,
        } => put_forward(out, *request, *frame, *var, *value),
        Message::Sync {
            request,
            frame,
            entry,
            token,
        } => put_sync(out, *request, *frame, *entry, token),
        Message::Rgoto {
            frame,
            entry,
            token,
        } => put_rgoto(out, *frame, *entry, token),
        Message::RgotoWith {
            frame,
            entry,
            token,
            pairs,
        } => put_rgoto_with(out, *frame, *entry, token, pairs),
        Message::Lgoto { token } => put_lgoto(out, token),
        Message::Value { request, value } => put_value(out, *request, *value),
        Message::Ack { request } => put_ack(out, *request),
        Message::Token { request, token } => put_answer(out, *request, token),
    }
}
