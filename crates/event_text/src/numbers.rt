//! Numbers as scripts write them.

ghost use Rattle.std.specs.Prelude.{◌≡◌, Some};
ghost use Rattle.event_text.specs.Numbers.{is_plain_number, number_of, not_below_zero, below_zero, signed_of};

use js_base::digits::{are_digits, digits_value};

/// The number of 64 bits that a word writes.
pub fn number(word: &[u8]) -> Option<u64>
    ensures { result ≡ number_of word.now }
{
    if is_plain_number(word) {
        digits_value(word)
    } else {
        None
    }
}

/// Whether a word is `0`, or digits without a leading 0.
fn is_plain_number(word: &[u8]) -> bool
    ensures { result ≡ is_plain_number word.now }
{
    match word {
        [] => false,
        [b'0', _, ..] => false,
        digits => are_digits(digits),
    }
}

/// The number of 64 bits with a sign that a word writes.
pub fn signed(word: &[u8]) -> Option<i64>
    ensures { result ≡ signed_of word.now }
{
    match word {
        [b'-', digits @ ..] => below_zero(number(digits)?),
        _ => not_below_zero(number(word)?),
    }
}

/// The number as one with a sign, where it fits.
fn not_below_zero(size: u64) -> Option<i64>
    ensures { result ≡ not_below_zero (Some size) }
{
    i64::try_from(size).ok()
}

/// The number that is so far below 0, where there is one and it fits.
fn below_zero(size: u64) -> Option<i64>
    ensures { result ≡ below_zero (Some size) }
{
    let before = size.checked_sub(1)?;
    let before = i64::try_from(before).ok()?;
    Some(-1 - before)
}
