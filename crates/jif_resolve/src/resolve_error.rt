//! Why a draft is no program.

use js_base::OutOfMemory;
use std::alloc::AllocFailed;
use thiserror::Error;

/// Why a draft was not resolved. A place is the number of a token, from 0.
#[derive(Clone, Copy, Debug, PartialEq, Eq, Error)]
pub enum ResolveError {
    #[error("out of memory")]
    OutOfMemory,
    /// The name at this token stands for nothing.
    #[error("unknown name at token {0}")]
    UnknownName(u32),
    /// Another has the name at this token.
    #[error("name twice at token {0}")]
    Twice(u32),
    /// The name at this token stands for something else than what is used there.
    #[error("wrong type at token {0}")]
    WrongType(u32),
    /// The method at this token is called with another number of arguments than it has parameters.
    #[error("wrong count at token {0}")]
    WrongCount(u32),
    /// There is no `void main` without parameters.
    #[error("no main")]
    NoMain,
}

impl From<OutOfMemory> for ResolveError {
    ghost use Rattle.std.specs.Prelude.{◌≡◌};
    ghost use Rattle.jif_resolve.specs.declared.resolve_error.ResolveError.TheVariants as error;

    ghost from_gives = { λ _ e. e ≡ error.OutOfMemory };

    fn from(_error: OutOfMemory) -> ResolveError {
        ResolveError::OutOfMemory
    }
}

impl<T: Drop> From<AllocFailed<T>> for ResolveError {
    ghost use Rattle.std.specs.Prelude.{◌≡◌};
    ghost use Rattle.jif_resolve.specs.declared.resolve_error.ResolveError.TheVariants as error;

    ghost from_gives = { λ _ e. e ≡ error.OutOfMemory };

    fn from(_error: AllocFailed<T>) -> ResolveError {
        ResolveError::OutOfMemory
    }
}
