//! Numbers at the end of some bytes.
#![tactic(auto, unfolding(crate::specs::Numbers::number_bytes, crate::specs::Numbers::word_bytes))]

ghost use Rattle.std.specs.Prelude.{◌≡◌, ◌++◌, ◌∷◌, [], ◌<◌, ◌^◌, OnOk};
ghost use Rattle.js_base.specs.declared.bits.TheConstants.{WORD_BITS};
ghost use Rattle.byte_format.specs.Numbers.{number_bytes, word_bytes, integer_bytes};

use js_base::OutOfMemory;

/// Adds a byte.
///
/// # Errors
/// Memory ran out.
pub fn put_byte(out: &mut Vec<u8>, byte: u8) -> Result<(), OutOfMemory>
    ensures { OnOk result (out.new.items ≡ out.old.items ++ byte ∷ []) }
{
    out.push(byte)?;
    Ok(())
}

/// Adds a number of four bytes.
///
/// # Errors
/// Memory ran out.
pub fn put_number(out: &mut Vec<u8>, number: u32) -> Result<(), OutOfMemory>
    ensures { OnOk result (out.new.items ≡ out.old.items ++ number_bytes number) }
{
    out.extend_from_slice(&number.to_be_bytes())?;
    Ok(())
}

/// Adds a number of eight bytes.
///
/// # Errors
/// Memory ran out.
pub fn put_word(out: &mut Vec<u8>, word: u64) -> Result<(), OutOfMemory>
    ensures bytes { OnOk result (out.new.items ≡ out.old.items ++ word_bytes word) }
    ensures fits { word < 2 ^ WORD_BITS }
{
    out.extend_from_slice(&word.to_be_bytes())?;
    Ok(())
}

/// Adds a signed number of eight bytes.
///
/// # Errors
/// Memory ran out.
pub fn put_integer(out: &mut Vec<u8>, number: i64) -> Result<(), OutOfMemory>
    ensures { OnOk result (out.new.items ≡ out.old.items ++ integer_bytes number) }
{
    out.extend_from_slice(&number.to_be_bytes())?;
    Ok(())
}
