//! How much there may be of what is sealed.

use js_base::limits::FRAME_BYTES;

/// Bytes of the key of a link.
pub const KEY_BYTES: usize = 32;
/// Bytes of a tag, which is a whole digest of SHA-256.
pub const TAG_BYTES: usize = 32;
/// Bytes of a body before its frame: two hosts and a number.
pub const HEAD_BYTES: usize = 10;
/// Bytes of the longest frame that can be sealed: the four of its length, and the most that may follow them.
pub const MOST_FRAME_BYTES: usize = 4 + FRAME_BYTES;
/// Bytes of the shortest body, whose frame has none.
pub const LEAST_BODY_BYTES: usize = HEAD_BYTES + TAG_BYTES;
/// Bytes of the longest body.
pub const MOST_BODY_BYTES: usize = LEAST_BODY_BYTES + MOST_FRAME_BYTES;
/// Frames that can be sealed for a link, so that no number comes to its end.
pub const MOST_FRAMES: u64 = 1 << 63;
