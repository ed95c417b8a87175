//! Why there is no list of events.

use js_base::{HostId, OutOfMemory};
use std::alloc::AllocFailed;

/// Why journals are not merged.
#[derive(Clone, Copy, Debug, PartialEq, Eq)]
pub enum MergeError {
    OutOfMemory,
    /// The journal of the host has more than 16,777,216 bytes.
    TooLong(HostId),
    /// The first line, from 1, of the journal of the host that has no form.
    BadLine(HostId, u32),
    /// No list of events meets the journals: that of the host is the first that is left before its end, at the line
    /// with the number.
    NoMatch(HostId, u32),
}

impl From<OutOfMemory> for MergeError {
    ghost use Rattle.std.specs.Prelude.{◌≡◌};
    ghost use Rattle.record_merge.specs.declared.journal.MergeError.TheVariants as error;

    ghost from_gives = { λ _ e. e ≡ error.OutOfMemory };

    fn from(_error: OutOfMemory) -> MergeError {
        MergeError::OutOfMemory
    }
}

impl<T: Drop> From<AllocFailed<T>> for MergeError {
    ghost use Rattle.std.specs.Prelude.{◌≡◌};
    ghost use Rattle.record_merge.specs.declared.journal.MergeError.TheVariants as error;

    ghost from_gives = { λ _ e. e ≡ error.OutOfMemory };

    fn from(_error: AllocFailed<T>) -> MergeError {
        MergeError::OutOfMemory
    }
}
