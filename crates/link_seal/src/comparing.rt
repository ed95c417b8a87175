//! Comparing bytes.

ghost use Rattle.std.specs.Prelude.{◌≡◌, length};
ghost use Rattle.std.specs.Str.{bytes_eq};
ghost use Rattle.link_seal.specs.declared.sizes.TheConstants.{TAG_BYTES};

use crate::sizes::TAG_BYTES;

/// Whether these are the same bytes.
pub fn is_same(one: &[u8], other: &[u8]) -> bool
    ensures { result ≡ bytes_eq one.now other.now }
{
    one == other
}

/// Whether two tags are the same. All bytes are looked at, whatever they are. So the code does nothing that depends on
/// how many bytes of a tag were guessed; that the compiled program takes the same time is not known.
pub fn is_same_tag(one: &[u8; TAG_BYTES], other: &[u8]) -> bool
    requires { length other.now ≡ TAG_BYTES }
    ensures { result ≡ bytes_eq one.now other.now }
{
    let mut differing = 0;
    for place in 0..TAG_BYTES {
        differing += u32::from(one[place] != other[place]);
    }
    differing == 0
}
