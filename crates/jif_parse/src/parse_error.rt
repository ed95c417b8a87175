//! Why tokens are no program.

use jif_grammar::What;
use js_base::OutOfMemory;
use std::alloc::{AllocError, AllocFailed};
use thiserror::Error;

/// Why tokens were not parsed.
#[derive(Clone, Copy, Debug, PartialEq, Eq, Error)]
pub enum ParseError {
    #[error("out of memory")]
    OutOfMemory,
    /// The number of the first token, from 0, with which no program goes on, or of all tokens where they end too early.
    #[error("unexpected token {0}")]
    Unexpected(u32),
    /// Constructs are nested past 64: the number of the first token at which more are open.
    #[error("nested past 64")]
    TooDeep(u32),
    /// There are too many of something: the number of the first token at which it is certain that one more has begun.
    #[error("too many {0:?}")]
    TooMany(What, u32),
}

impl From<OutOfMemory> for ParseError {
    ghost use Rattle.std.specs.Prelude.{◌≡◌};
    ghost use Rattle.jif_parse.specs.declared.parse_error.ParseError.TheVariants as fault;

    ghost from_gives = { λ _ e. e ≡ fault.OutOfMemory };

    fn from(_error: OutOfMemory) -> ParseError {
        ParseError::OutOfMemory
    }
}

impl From<AllocError> for ParseError {
    ghost use Rattle.std.specs.Prelude.{◌≡◌};
    ghost use Rattle.jif_parse.specs.declared.parse_error.ParseError.TheVariants as fault;

    ghost from_gives = { λ _ e. e ≡ fault.OutOfMemory };

    fn from(_error: AllocError) -> ParseError {
        ParseError::OutOfMemory
    }
}

impl<T: Drop> From<AllocFailed<T>> for ParseError {
    ghost use Rattle.std.specs.Prelude.{◌≡◌};
    ghost use Rattle.jif_parse.specs.declared.parse_error.ParseError.TheVariants as fault;

    ghost from_gives = { λ _ e. e ≡ fault.OutOfMemory };

    fn from(_error: AllocFailed<T>) -> ParseError {
        ParseError::OutOfMemory
    }
}
