//! Reading the parts of a sealed frame: what stands at the front of some bytes, and the bytes behind it.
#![tactic(auto, unfolding(byte_format::specs::Reader::sequel, byte_format::specs::Reader::given, byte_format::specs::Reader::require, byte_format::specs::Reader::bytes_at, byte_format::specs::Reader::number_at, crate::specs::Opening::parts_at))]

ghost use Rattle.std.specs.Prelude.{◌≡◌, ◌≢◌, ◌≤◌, IfOk, IfErr, length};
ghost use Rattle.std.specs.Int.{w32};
ghost use Rattle.byte_format.specs.Reader.{bytes_at, number_at};
ghost use Rattle.link_seal.specs.declared.errors.OpenError.TheVariants as refusal;
ghost use Rattle.link_seal.specs.declared.sizes.TheConstants.{HEAD_BYTES, TAG_BYTES};
ghost use Rattle.link_seal.specs.Opening.{OpensAs, parts_at};

use crate::errors::OpenError;
use crate::sizes::{LEAST_BODY_BYTES, MOST_BODY_BYTES, TAG_BYTES};

/// A number of four bytes.
fn number_of(bytes: &[u8]) -> Result<(u32, &[u8]), OpenError>
    ensures read { OpensAs (λ x. (x.0, x.1.now)) result (number_at refusal.Short w32 bytes.now) }
    ensures memory { IfErr result (λ error. error ≢ refusal.OutOfMemory) }
{
    let [first, second, third, fourth, rest @ ..] = bytes else {
        return Err(OpenError::Short);
    };
    Ok((u32::from_be_bytes([*first, *second, *third, *fourth]), rest))
}

/// So many bytes.
fn bytes_of(count: usize, bytes: &[u8]) -> Result<(&[u8], &[u8]), OpenError>
    ensures read { OpensAs (λ x. (x.0.now, x.1.now)) result (bytes_at refusal.Short count bytes.now) }
    ensures count { IfOk result (λ x. length x.0.now ≡ count) }
    ensures memory { IfErr result (λ error. error ≢ refusal.OutOfMemory) }
{
    if bytes.len() < count {
        return Err(OpenError::Short);
    }
    Ok(bytes.split_at(count))
}

/// The text and the tag of a sealed frame, and the bytes behind it.
pub fn parts_of(bytes: &[u8]) -> Result<((&[u8], &[u8]), &[u8]), OpenError>
    ensures read { OpensAs (λ x. ((x.0.0.now, x.0.1.now), x.1.now)) result (parts_at bytes.now) }
    ensures text { IfOk result (λ x. HEAD_BYTES ≤ length x.0.0.now) }
    ensures tag { IfOk result (λ x. length x.0.1.now ≡ TAG_BYTES) }
    ensures memory { IfErr result (λ error. error ≢ refusal.OutOfMemory) }
{
    let (len, rest) = number_of(bytes)?;
    let len = len as usize;
    if len > MOST_BODY_BYTES {
        return Err(OpenError::TooLong);
    }
    if len < LEAST_BODY_BYTES {
        return Err(OpenError::Short);
    }
    let (text, rest) = bytes_of(len - TAG_BYTES, rest)?;
    let (tag, rest) = bytes_of(TAG_BYTES, rest)?;
    Ok(((text, tag), rest))
}
