//! Why a program cannot be placed.

use js_base::{FieldId, OutOfMemory, StmtId};
use std::alloc::AllocFailed;
use thiserror::Error;

/// Why a program cannot be placed on hosts. A field comes before a statement, and of each the first by number.
#[derive(Clone, Copy, Debug, PartialEq, Eq, Error)]
pub enum PlaceError {
    /// Memory ran out.
    #[error("out of memory")]
    OutOfMemory,
    /// No host may hold the field.
    #[error("no host may hold field {0:?}")]
    NoHostForField(FieldId),
    /// No host may hold the statement.
    #[error("no host may hold statement {0:?}")]
    NoHostForStatement(StmtId),
}

impl From<OutOfMemory> for PlaceError {
    ghost use Rattle.std.specs.Prelude.{◌≡◌};
    ghost use Rattle.place_rules.specs.declared.place_error.PlaceError.TheVariants as error;

    ghost from_gives = { λ _ e. e ≡ error.OutOfMemory };

    fn from(_error: OutOfMemory) -> PlaceError {
        PlaceError::OutOfMemory
    }
}

impl<T: Drop> From<AllocFailed<T>> for PlaceError {
    ghost use Rattle.std.specs.Prelude.{◌≡◌};
    ghost use Rattle.place_rules.specs.declared.place_error.PlaceError.TheVariants as error;

    ghost from_gives = { λ _ e. e ≡ error.OutOfMemory };

    fn from(_error: AllocFailed<T>) -> PlaceError {
        PlaceError::OutOfMemory
    }
}
