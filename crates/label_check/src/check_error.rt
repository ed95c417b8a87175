//! Why a program is not well labelled.

use js_base::{OutOfMemory, StmtId};
use label_lattice::Label;
use std::alloc::AllocFailed;
use thiserror::Error;

/// Why the labels of a program were refused: the first rule that fails, with its statement.
#[derive(Clone, Copy, Debug, PartialEq, Eq, Error)]
pub enum CheckError {
    #[error("out of memory")]
    OutOfMemory,
    /// A value of the first label, joined with the program label, may not flow to the second.
    #[error("statement {0:?}: a label may not flow to another")]
    BadFlow(StmtId, Label, Label),
    /// A method that begins under the second label may not be called under the first.
    #[error("statement {0:?}: the program label may not flow to a begin label")]
    BadBegin(StmtId, Label, Label),
    /// The authority of the method does not suffice to release or to endorse a value.
    #[error("statement {0:?}: no authority")]
    NoAuthority(StmtId),
    /// A principal by whose authority a value is released does not trust the program label.
    #[error("statement {0:?}: program label not trusted")]
    WeakProgramLabel(StmtId),
}

impl From<OutOfMemory> for CheckError {
    ghost use Rattle.std.specs.Prelude.{◌≡◌};
    ghost use Rattle.label_check.specs.declared.check_error.CheckError.TheVariants as error;

    ghost from_gives = { λ _ e. e ≡ error.OutOfMemory };

    fn from(_error: OutOfMemory) -> CheckError {
        CheckError::OutOfMemory
    }
}

impl<T: Drop> From<AllocFailed<T>> for CheckError {
    ghost use Rattle.std.specs.Prelude.{◌≡◌};
    ghost use Rattle.label_check.specs.declared.check_error.CheckError.TheVariants as error;

    ghost from_gives = { λ _ e. e ≡ error.OutOfMemory };

    fn from(_error: AllocFailed<T>) -> CheckError {
        CheckError::OutOfMemory
    }
}
