//! The tags of tokens.

ghost use Rattle.std.specs.Prelude.{◌≡◌, take};
ghost use Rattle.capability.specs.Tag.{tag_of};

use js_base::{EntryId, FrameId, HostId};
use sha2::{Digest, Sha256};

/// The bytes of a tag, half of a digest.
pub const TAG_BYTES: usize = 16;

/// The bytes of a host's key.
pub const KEY_BYTES: usize = 32;

/// The tag of a token of these parts under the key of its host: the first 16 bytes of the SHA-256 digest (FIPS 180-4)
/// of the key and the parts.
pub fn tag(
    key: &[u8; KEY_BYTES],
    host: HostId,
    frame: FrameId,
    entry: EntryId,
    serial: u64,
) -> [u8; TAG_BYTES]
    ensures { result ≡ tag_of key.now host frame entry serial }
{
    let mut hasher = Sha256::new();
    hasher.update(key.as_slice());
    hasher.update([host.0].as_slice());
    hasher.update(frame.site.0.to_be_bytes().as_slice());
    hasher.update(frame.count.to_be_bytes().as_slice());
    hasher.update(entry.0.to_be_bytes().as_slice());
    hasher.update(serial.to_be_bytes().as_slice());
    first_half(hasher.finalize())
}

/// The first half of a digest.
fn first_half(digest: [u8; KEY_BYTES]) -> [u8; TAG_BYTES]
    ensures { result ≡ take TAG_BYTES digest }
{
    let mut half = [0; TAG_BYTES];
    half.copy_from_slice(&digest[..TAG_BYTES]);
    half
}
