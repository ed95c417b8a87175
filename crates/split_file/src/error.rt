//! Why a split file was refused.

use crate::fault::{Fault, ReadError};
use thiserror::Error;

/// Why a split file was refused. Memory may run out at any time. Otherwise the first fault from the front comes; an
/// index into a later part is tested when that part was read, and told only where all else is sound.
#[derive(Clone, Copy, Debug, PartialEq, Eq, Error)]
pub enum SplitError {
    /// Memory ran out.
    #[error("out of memory")]
    OutOfMemory,
    /// The bytes end before the file does.
    #[error("short")]
    Short,
    /// The first eight bytes are not those of a split file.
    #[error("bad magic")]
    BadMagic,
    /// The file is of another version.
    #[error("bad version")]
    BadVersion,
    /// The item whose first byte stands at this place, counted from 0, is out of range.
    #[error("bad field at {0}")]
    BadField(u32),
    /// Bytes are left behind the last part.
    #[error("trailing bytes")]
    Trailing,
}
