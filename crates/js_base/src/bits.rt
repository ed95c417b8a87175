//! Words of 64 bits, as sets of small numbers.

ghost use Rattle.std.specs.Prelude.{◌≡◌, ℕ, ◌-◌, ◌<◌, ◌≢◌, ◌↔◌, min, max, IsTrue};
ghost use Rattle.std.specs.Int.{bit_at};
ghost use Rattle.js_base.specs.Bits.{BitsWithin};

/// The bits of a word, which are its places from 0.
pub const WORD_BITS: u8 = 64;

/// Whether this bit is set.
pub fn has_bit(word: u64, place: u8) -> bool
    requires { place < WORD_BITS }
    ensures { IsTrue result ↔ (bit_at word place ≡ 1) }
{
    (word >> place) & 1 == 1
}

/// Whether every bit that is set in `inner` is set in `outer`.
pub fn bits_within(inner: u64, outer: u64) -> bool
    ensures { IsTrue result ↔ BitsWithin inner outer }
{
    inner & outer == inner
}

/// The word with the bits that are set in either.
pub fn all_bits(first: u64, second: u64) -> u64
    ensures { (k : ℕ) → bit_at result k ≡ max (bit_at first k) (bit_at second k) }
{
    first | second
}

/// The word with the bits that are set in both.
pub fn common_bits(first: u64, second: u64) -> u64
    ensures { (k : ℕ) → bit_at result k ≡ min (bit_at first k) (bit_at second k) }
{
    first & second
}

/// The word without the bits that are set in `removed`.
pub fn without_bits(word: u64, removed: u64) -> u64
    ensures { (k : ℕ) → k < WORD_BITS → bit_at result k ≡ min (bit_at word k) (1 - bit_at removed k) }
{
    word & !removed
}

/// The word with one more bit set.
pub fn with_bit(word: u64, place: u8) -> u64
    requires { place < WORD_BITS }
    ensures set { bit_at result place ≡ 1 }
    ensures others { (k : ℕ) → k ≢ place → bit_at result k ≡ bit_at word k }
{
    word | (1 << place)
}
