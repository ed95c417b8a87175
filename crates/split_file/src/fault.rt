//! Why the bytes from some place on could not be read.

use js_base::OutOfMemory;
use std::alloc::{AllocError, AllocFailed};

/// What is wrong with bytes, the first fault from the front.
#[derive(Clone, Copy)]
pub enum Fault {
    /// The bytes end before an item does.
    Short,
    /// The file does not begin as split files do.
    BadMagic,
    /// The file is of a version that is not read here.
    BadVersion,
    /// The item is out of range from whose first byte on there are so many bytes.
    BadField(usize),
    /// Bytes are left.
    Trailing,
}

/// Why nothing was read.
#[derive(Clone, Copy)]
pub enum ReadError {
    /// Memory ran out.
    OutOfMemory,
    Fault(Fault),
}

impl From<OutOfMemory> for ReadError {
    ghost use Rattle.std.specs.Prelude.{◌≡◌};
    ghost use Rattle.split_file.specs.declared.fault.ReadError.TheVariants as error;

    ghost from_gives = { λ _ e. e ≡ error.OutOfMemory };

    fn from(_error: OutOfMemory) -> ReadError {
        ReadError::OutOfMemory
    }
}

impl From<AllocError> for ReadError {
    ghost use Rattle.std.specs.Prelude.{◌≡◌};
    ghost use Rattle.split_file.specs.declared.fault.ReadError.TheVariants as error;

    ghost from_gives = { λ _ e. e ≡ error.OutOfMemory };

    fn from(_error: AllocError) -> ReadError {
        ReadError::OutOfMemory
    }
}

impl<T: Drop> From<AllocFailed<T>> for ReadError {
    ghost use Rattle.std.specs.Prelude.{◌≡◌};
    ghost use Rattle.split_file.specs.declared.fault.ReadError.TheVariants as error;

    ghost from_gives = { λ _ e. e ≡ error.OutOfMemory };

    fn from(_error: AllocFailed<T>) -> ReadError {
        ReadError::OutOfMemory
    }
}
