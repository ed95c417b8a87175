//! Why bytes are no frame.

use thiserror::Error;

/// Why bytes are no frame. Of several causes the one that is named first in `read` is told.
#[derive(Clone, Copy, Debug, PartialEq, Eq, Error)]
pub enum WireError {
    /// The bytes end before the frame does, or the body ends before its fields do.
    #[error("short")]
    Short,
    /// There is no such kind of message.
    #[error("bad kind")]
    BadKind,
    /// The number of the sender or of a token's host is above 15, or not 1 to 8 values ride.
    #[error("bad field")]
    BadField,
    /// The body is said to have more than 4096 bytes.
    #[error("too long")]
    TooLong,
    /// Bytes are left in the body or behind the frame.
    #[error("trailing bytes")]
    Trailing,
}
