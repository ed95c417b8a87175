//! Where bytes go, as a trait.

ghost use Rattle.std.specs.Prelude.{◌≡◌, ◌≤◌, ◌⊎◌, ℕ, List, Option, OnOk, OnErr, IsErrOf};
ghost use Rattle.js_base.specs.Counts.{Rose};
ghost use Rattle.js_base.specs.Sink.{Takes, TakesFront};

use std::alloc::{AllocError, Global};
use thiserror::Error;

/// Why bytes were not put.
#[derive(Clone, Copy, Debug, PartialEq, Eq, Error)]
pub enum PutError {
    #[error("out of memory")]
    OutOfMemory,
    /// The sink's own fault, which it counts.
    #[error("output fault")]
    Failed,
}

/// Where bytes go. What it has taken is told by a sink in memory, and not by those of the system.
pub trait Sink {
    /// How many faults the sink counted. It never falls.
    ghost faults: { Self → ℕ };

    /// All that it has taken, where the sink tells.
    ghost taken: { Self → Option (List ℕ) };

    /// Appends all the bytes. After an error a front of them was taken, which may be none or all of them.
    fn put(&mut self, alloc: Global, bytes: &[u8]) -> Result<(), PutError>
        ensures ok { OnOk result (Takes bytes.now (taken self.old) (taken self.new)) }
        ensures err { OnErr result (TakesFront bytes.now (taken self.old) (taken self.new)) }
        ensures faults { faults self.old ≤ faults self.new }
        ensures no_fault { IsErrOf result PutError.Failed ⊎ (faults self.new ≡ faults self.old) }
        ensures cause { IsErrOf result PutError.Failed → Rose (faults self.old) (faults self.new) };
}

impl From<AllocError> for PutError {
    ghost use Rattle.std.specs.Prelude.{◌≡◌};
    ghost use Rattle.js_base.specs.declared.sink.PutError.TheVariants.{OutOfMemory};

    ghost from_gives = { λ _ e. e ≡ OutOfMemory };

    fn from(_error: AllocError) -> PutError {
        PutError::OutOfMemory
    }
}
