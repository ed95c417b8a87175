//! Readers of numbers: what stands at the front of some bytes, and the bytes behind it.
#![tactic(auto, unfolding(byte_format::specs::Reader::sequel, byte_format::specs::Reader::given, byte_format::specs::Reader::byte_at, byte_format::specs::Reader::bytes_at, byte_format::specs::Reader::number_at, byte_format::specs::Reader::integer_at))]

ghost use Rattle.std.specs.Int.{w32, w64};
ghost use Rattle.capability.specs.declared.tags.TheConstants.{TAG_BYTES};
ghost use Rattle.wire_msg.specs.Reader.{GivesWire, byte_at, bytes_at, number_at, integer_at};

use crate::error::WireError;
use capability::TAG_BYTES;

/// The first byte.
pub fn byte_of(bytes: &[u8]) -> Result<(u8, &[u8]), WireError>
    ensures { GivesWire (λ x. (x.0, x.1.now)) result (byte_at bytes.now) }
{
    match bytes {
        [] => Err(WireError::Short),
        [byte, rest @ ..] => Ok((*byte, rest)),
    }
}

/// So many bytes.
pub fn bytes_of(count: usize, bytes: &[u8]) -> Result<(&[u8], &[u8]), WireError>
    ensures { GivesWire (λ x. (x.0.now, x.1.now)) result (bytes_at count bytes.now) }
{
    if bytes.len() < count {
        return Err(WireError::Short);
    }
    Ok(bytes.split_at(count))
}

/// A tag.
pub fn tag_of(bytes: &[u8]) -> Result<([u8; TAG_BYTES], &[u8]), WireError>
    ensures { GivesWire (λ x. (x.0, x.1.now)) result (bytes_at TAG_BYTES bytes.now) }
{
    if bytes.len() < TAG_BYTES {
        return Err(WireError::Short);
    }
    let (front, rest) = bytes.split_at(TAG_BYTES);
    let mut tag = [0; TAG_BYTES];
    tag.copy_from_slice(front);
    Ok((tag, rest))
}

/// A number of four bytes.
pub fn u32_of(bytes: &[u8]) -> Result<(u32, &[u8]), WireError>
    ensures { GivesWire (λ x. (x.0, x.1.now)) result (number_at w32 bytes.now) }
{
    if bytes.len() < 4 {
        return Err(WireError::Short);
    }
    let (front, rest) = bytes.split_at(4);
    let number = u32::from_be_bytes([front[0], front[1], front[2], front[3]]);
    Ok((number, rest))
}

/// A number of eight bytes.
pub fn u64_of(bytes: &[u8]) -> Result<(u64, &[u8]), WireError>
    ensures { GivesWire (λ x. (x.0, x.1.now)) result (number_at w64 bytes.now) }
{
    if bytes.len() < 8 {
        return Err(WireError::Short);
    }
    let (front, rest) = bytes.split_at(8);
    let number = u64::from_be_bytes([
        front[0], front[1], front[2], front[3], front[4], front[5], front[6], front[7],
    ]);
    Ok((number, rest))
}

/// A signed number of eight bytes.
pub fn i64_of(bytes: &[u8]) -> Result<(i64, &[u8]), WireError>
    ensures { GivesWire (λ x. (x.0, x.1.now)) result (integer_at bytes.now) }
{
    let (word, rest) = u64_of(bytes)?;
    Ok((word.cast_signed(), rest))
}
