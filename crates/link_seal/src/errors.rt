//! Why a frame was not sealed, and why bytes were not opened.

use js_base::OutOfMemory;
use thiserror::Error;

/// Why a frame was not sealed. Of several causes the first of these is told, but for want of memory.
#[derive(Clone, Copy, Debug, PartialEq, Eq, Error)]
pub enum SealError {
    #[error("out of memory")]
    OutOfMemory,
    /// The frame has more than `MOST_FRAME_BYTES` bytes.
    #[error("too long")]
    TooLong,
    /// `MOST_FRAMES` frames were sealed for the link.
    #[error("ended")]
    Ended,
}

impl From<OutOfMemory> for SealError {
    ghost use Rattle.std.specs.Prelude.{◌≡◌};
    ghost use Rattle.link_seal.specs.declared.errors.SealError.TheVariants as refusal;

    ghost from_gives = { λ _ error. error ≡ refusal.OutOfMemory };

    fn from(_error: OutOfMemory) -> Self {
        SealError::OutOfMemory
    }
}

/// Why bytes were not opened. Of several causes the one that is named first in `Opener::open` is told.
#[derive(Clone, Copy, Debug, PartialEq, Eq, Error)]
pub enum OpenError {
    #[error("out of memory")]
    OutOfMemory,
    /// The bytes end before the sealed frame does, or its body has fewer bytes than a body has.
    #[error("short")]
    Short,
    /// The body is said to have more bytes than a body may have.
    #[error("too long")]
    TooLong,
    /// Bytes are left behind the sealed frame.
    #[error("trailing bytes")]
    Trailing,
    /// The tag is not that of the key of the link.
    #[error("bad tag")]
    BadTag,
    /// The hosts are not those of the link.
    #[error("wrong link")]
    WrongLink,
    /// The number is not the next one of the link, which is told, or the link has ended.
    #[error("wrong number, where {0} is next")]
    WrongNumber(u64),
}
