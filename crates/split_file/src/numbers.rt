//! Readers of numbers and texts: what stands at the front of some bytes, and the bytes behind it.
#![tactic(auto, unfolding(byte_format::specs::Reader::sequel, byte_format::specs::Reader::given, crate::specs::Reader::place, byte_format::specs::Reader::require, crate::specs::Reader::in_range, byte_format::specs::Reader::byte_at, byte_format::specs::Reader::bytes_at, byte_format::specs::Reader::number_at, crate::specs::Reader::text_at, byte_format::specs::Reader::integer_at, crate::specs::Reading::flag_at, crate::specs::Reading::index_at,))]

ghost use Rattle.std.specs.Prelude.{◌≡◌, length, nat_lt};
ghost use Rattle.std.specs.Int.{w16, w32, w64};
ghost use Rattle.split_file.specs.declared.fault.Fault.TheVariants as fault;
ghost use Rattle.split_file.specs.declared.fault.ReadError.TheVariants as error;
ghost use Rattle.split_file.specs.Reader.{GivesRead, byte_at, bytes_at, number_at, integer_at, text_at};
ghost use Rattle.split_file.specs.Reading.{flag_at, index_at};

use crate::fault::{Fault, ReadError};

/// The fault of the item with which these bytes begin.
pub fn out_of_range(bytes: &[u8]) -> ReadError
    ensures { result ≡ error.Fault (fault.BadField (length bytes.now)) }
{
    ReadError::Fault(Fault::BadField(bytes.len()))
}

/// The first byte.
pub fn byte_of(bytes: &[u8]) -> Result<(u8, &[u8]), ReadError>
    ensures { GivesRead (λ x. (x.0, x.1.now)) result (byte_at bytes.now) }
{
    match bytes {
        [] => Err(ReadError::Fault(Fault::Short)),
        [byte, rest @ ..] => Ok((*byte, rest)),
    }
}

/// So many bytes.
pub fn bytes_of(count: usize, bytes: &[u8]) -> Result<(&[u8], &[u8]), ReadError>
    ensures { GivesRead (λ x. (x.0.now, x.1.now)) result (bytes_at count bytes.now) }
{
    if bytes.len() < count {
        return Err(ReadError::Fault(Fault::Short));
    }
    Ok(bytes.split_at(count))
}

/// A number of two bytes.
pub fn u16_of(bytes: &[u8]) -> Result<(u16, &[u8]), ReadError>
    ensures { GivesRead (λ x. (x.0, x.1.now)) result (number_at w16 bytes.now) }
{
    if bytes.len() < 2 {
        return Err(ReadError::Fault(Fault::Short));
    }
    let (front, rest) = bytes.split_at(2);
    Ok((u16::from_be_bytes([front[0], front[1]]), rest))
}

/// A number of four bytes.
pub fn u32_of(bytes: &[u8]) -> Result<(u32, &[u8]), ReadError>
    ensures { GivesRead (λ x. (x.0, x.1.now)) result (number_at w32 bytes.now) }
{
    if bytes.len() < 4 {
        return Err(ReadError::Fault(Fault::Short));
    }
    let (front, rest) = bytes.split_at(4);
    let number = u32::from_be_bytes([front[0], front[1], front[2], front[3]]);
    Ok((number, rest))
}

/// A number of eight bytes.
pub fn u64_of(bytes: &[u8]) -> Result<(u64, &[u8]), ReadError>
    ensures { GivesRead (λ x. (x.0, x.1.now)) result (number_at w64 bytes.now) }
{
    if bytes.len() < 8 {
        return Err(ReadError::Fault(Fault::Short));
    }
    let (front, rest) = bytes.split_at(8);
    let number = u64::from_be_bytes([
        front[0], front[1], front[2], front[3], front[4], front[5], front[6], front[7],
    ]);
    Ok((number, rest))
}

/// A signed number of eight bytes.
pub fn i64_of(bytes: &[u8]) -> Result<(i64, &[u8]), ReadError>
    ensures { GivesRead (λ x. (x.0, x.1.now)) result (integer_at bytes.now) }
{
    let (word, rest) = u64_of(bytes)?;
    Ok((word.cast_signed(), rest))
}

/// A text, behind its length.
pub fn text_of(bytes: &[u8]) -> Result<(&[u8], &[u8]), ReadError>
    ensures { GivesRead (λ x. (x.0.now, x.1.now)) result (text_at bytes.now) }
{
    let (count, rest) = u32_of(bytes)?;
    bytes_of(count as usize, rest)
}

/// A number below a count.
pub fn index_of(count: usize, bytes: &[u8]) -> Result<(u32, &[u8]), ReadError>
    ensures { GivesRead (λ x. (x.0, x.1.now)) result (index_at count bytes.now) }
{
    let (index, rest) = u32_of(bytes)?;
    if index as usize >= count {
        return Err(out_of_range(bytes));
    }
    Ok((index, rest))
}

/// A byte that is 0 or 1.
pub fn flag_of(bytes: &[u8]) -> Result<(bool, &[u8]), ReadError>
    ensures { GivesRead (λ x. (x.0, x.1.now)) result (flag_at bytes.now) }
{
    let (byte, rest) = byte_of(bytes)?;
    if byte > 1 {
        return Err(out_of_range(bytes));
    }
    Ok((byte == 1, rest))
}
