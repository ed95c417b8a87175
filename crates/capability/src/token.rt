//! Tokens.

ghost use Rattle.std.specs.Prelude.{◌≡◌, ◌↔◌, IsTrue};

use crate::tags::TAG_BYTES;
use js_base::{EntryId, FrameId, HostId};

/// The right to enter once, at an entry of a host and in a frame, what was pushed on that host's control stack.
///
/// Two tokens are the same only where all their parts are. The tag is made with the host's key, so that no other host
/// can make up a token of it.
#[derive(Clone, Copy, Debug, PartialEq, Eq)]
pub struct Token {
    /// The host on whose control stack the entry was pushed.
    pub host: HostId,
    /// The frame in which the entry's thread will run.
    pub frame: FrameId,
    pub entry: EntryId,
    /// How many times the entry was pushed before.
    pub serial: u64,
    /// The tag of these parts under the host's key.
    pub tag: [u8; TAG_BYTES],
}

impl Token {
    /// Whether two tokens are the same in all their parts.
    pub fn is_same(&self, other: &Token) -> bool
        ensures { IsTrue result ↔ (self.now ≡ other.now) }
    {
        self == other
    }
}
