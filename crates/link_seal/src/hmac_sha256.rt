//! HMAC with SHA-256.

ghost use Rattle.std.specs.Prelude.{◌≡◌};
ghost use Rattle.link_seal.specs.Hmac.{hmac_of, key_block, with_pad};

use crate::sizes::{KEY_BYTES, TAG_BYTES};
use sha2::{Digest, Sha256};

/// Bytes of a block of SHA-256.
pub const BLOCK_BYTES: usize = 64;
/// With which each byte of the key's block is combined for the inner digest.
pub const INNER_PAD: u8 = 0x36;
/// And for the outer one.
pub const OUTER_PAD: u8 = 0x5c;

/// The block of a key, each byte combined with the pad.
fn padded(key: &[u8; KEY_BYTES], pad: u8) -> [u8; BLOCK_BYTES]
    ensures { result ≡ with_pad pad (key_block key.now) }
{
    let mut block = [pad; BLOCK_BYTES];
    for (place, byte) in key.iter().enumerate() {
        block[place] = *byte ^ pad;
    }
    block
}

/// The HMAC (RFC 2104, FIPS 198-1) of some bytes under a key, with SHA-256 (FIPS 180-4). A shorter key has the HMAC of
/// that key with zeros behind it.
#[tactic(auto, unfolding(crate::specs::Hmac::hmac_of))]
pub fn hmac(key: &[u8; KEY_BYTES], bytes: &[u8]) -> [u8; TAG_BYTES]
    ensures { result ≡ hmac_of key.now bytes.now }
{
    let mut inner = Sha256::new();
    inner.update(&padded(key, INNER_PAD));
    inner.update(bytes);
    let inner = inner.finalize();
    let mut outer = Sha256::new();
    outer.update(&padded(key, OUTER_PAD));
    outer.update(&inner);
    outer.finalize()
}
