//! Readers of what messages name.
#![tactic(auto, unfolding(byte_format::specs::Reader::sequel, byte_format::specs::Reader::given, crate::specs::Reading::field_at, crate::specs::Reading::variable_at, crate::specs::Reading::entry_at, crate::specs::Reading::request_at, crate::specs::Reading::frame_id_at, crate::specs::Reading::token_at))]

ghost use Rattle.wire_msg.specs.Reader.{GivesWire};
ghost use Rattle.wire_msg.specs.Reading.{field_at, variable_at, entry_at, request_at, frame_id_at, token_at};

use crate::error::WireError;
use crate::numbers::{byte_of, tag_of, u32_of, u64_of};
use capability::Token;
use js_base::{EntryId, FieldId, FrameId, HostId, RequestId, SiteId, VarId};

/// A field.
pub fn field_of(bytes: &[u8]) -> Result<(FieldId, &[u8]), WireError>
    ensures { GivesWire (λ x. (x.0, x.1.now)) result (field_at bytes.now) }
{
    let (field, rest) = u32_of(bytes)?;
    Ok((FieldId(field), rest))
}

/// A variable.
pub fn var_of(bytes: &[u8]) -> Result<(VarId, &[u8]), WireError>
    ensures { GivesWire (λ x. (x.0, x.1.now)) result (variable_at bytes.now) }
{
    let (var, rest) = u32_of(bytes)?;
    Ok((VarId(var), rest))
}

/// An entry.
pub fn entry_of(bytes: &[u8]) -> Result<(EntryId, &[u8]), WireError>
    ensures { GivesWire (λ x. (x.0, x.1.now)) result (entry_at bytes.now) }
{
    let (entry, rest) = u32_of(bytes)?;
    Ok((EntryId(entry), rest))
}

/// A request.
pub fn request_of(bytes: &[u8]) -> Result<(RequestId, &[u8]), WireError>
    ensures { GivesWire (λ x. (x.0, x.1.now)) result (request_at bytes.now) }
{
    let (at, rest) = u32_of(bytes)?;
    let (count, rest) = u64_of(rest)?;
    Ok((RequestId { at, count }, rest))
}

/// A frame of the program.
pub fn frame_id_of(bytes: &[u8]) -> Result<(FrameId, &[u8]), WireError>
    ensures { GivesWire (λ x. (x.0, x.1.now)) result (frame_id_at bytes.now) }
{
    let (site, rest) = u32_of(bytes)?;
    let (count, rest) = u64_of(rest)?;
    let site = SiteId(site);
    Ok((FrameId { site, count }, rest))
}

/// A token. Its host is any byte.
pub fn token_of(bytes: &[u8]) -> Result<(Token, &[u8]), WireError>
    ensures { GivesWire (λ x. (x.0, x.1.now)) result (token_at bytes.now) }
{
    let (host, rest) = byte_of(bytes)?;
    let (frame, rest) = frame_id_of(rest)?;
    let (entry, rest) = entry_of(rest)?;
    let (serial, rest) = u64_of(rest)?;
    let (tag, rest) = tag_of(rest)?;
    let host = HostId(host);
    let token = Token {
        host,
        frame,
        entry,
        serial,
        tag,
    };
    Ok((token, rest))
}
