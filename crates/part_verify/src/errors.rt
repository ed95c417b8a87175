//! Why a part was refused.

use js_base::{EntryId, OutOfMemory};
use thiserror::Error;

/// Why a host does not run its part. Of several causes the first of these is told, but for want of memory.
#[derive(Clone, Copy, Debug, PartialEq, Eq, Error)]
pub enum VerifyError {
    #[error("out of memory")]
    OutOfMemory,
    /// An instruction that the entry leads to names what the entry's need does not have: the first such entry by its
    /// number, and the least of its instructions.
    #[error("instruction {1} names more than the need of an entry that leads to it")]
    WeakEntry(EntryId, u32),
    /// The first instruction that shows another host what this host may not see.
    #[error("instruction {0} shows a host what it may not see")]
    Reveals(u32),
}

impl From<OutOfMemory> for VerifyError {
    ghost use Rattle.std.specs.Prelude.{◌≡◌};
    ghost use Rattle.part_verify.specs.declared.errors.VerifyError.TheVariants as refusal;

    ghost from_gives = { λ _ error. error ≡ refusal.OutOfMemory };

    fn from(_error: OutOfMemory) -> Self {
        VerifyError::OutOfMemory
    }
}
