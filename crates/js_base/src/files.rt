//! Files under names, as a trait.

ghost use Rattle.std.specs.Prelude.{◌≡◌, ◌≤◌, ◌⊎◌, ℕ, List, Option, Some, IfOk, IfSome, OnOk};
ghost use Rattle.std.specs.Prelude.{MatchResult, IsErrOf};
ghost use Rattle.std.specs.Prelude.{vec_len};
ghost use Rattle.js_base.specs.Counts.{counted, Rose};
ghost use Rattle.js_base.specs.Files.{LoadFails, ChangesOnly};

use std::alloc::{AllocError, Global};
use thiserror::Error;

/// Why a file was not read.
#[derive(Clone, Copy, Debug, PartialEq, Eq, Error)]
pub enum LoadError {
    #[error("out of memory")]
    OutOfMemory,
    /// It has more bytes than were asked for.
    #[error("too long")]
    TooLong,
    /// Nothing is held under the name. This is no fault.
    #[error("no such file")]
    Absent,
    /// The files' own fault, which they count.
    #[error("file fault")]
    Failed,
}

/// Why a file was not written.
#[derive(Clone, Copy, Debug, PartialEq, Eq, Error)]
pub enum SaveError {
    #[error("out of memory")]
    OutOfMemory,
    /// The files' own fault, which they count.
    #[error("file fault")]
    Failed,
}

/// Files under names. What they hold is told by the files in memory, and not by those of the system.
pub trait Files {
    /// How many faults the files counted. It never falls.
    ghost faults: { Self → ℕ };

    /// How many loads were asked for, whatever came of them.
    ghost loads: { Self → ℕ };

    /// How many saves were asked for, whatever came of them.
    ghost saves: { Self → ℕ };

    /// The name at which the last fault came, empty at first.
    ghost failed: { Self → List ℕ };

    /// What is held under each name, where the files tell.
    ghost held: { Self → Option (List ℕ → Option (List ℕ)) };

    /// The bytes that are held under a name, at most so many of them. It changes nothing that is held.
    fn load(&mut self, alloc: Global, name: &str, most: usize) -> Result<Vec<u8>, LoadError>
        ensures within { IfOk result (λ bytes. vec_len bytes ≤ most) }
        ensures gives { IfSome (held self.old) (λ holds.
            MatchResult result (λ bytes. holds name.now ≡ Some bytes.items) (LoadFails (holds name.now) most)) }
        ensures held { held self.new ≡ held self.old }

        ensures loads { loads self.new ≡ counted (loads self.old) }
        ensures saves { saves self.new ≡ saves self.old }
        ensures faults { faults self.old ≤ faults self.new }
        ensures no_fault { IsErrOf result LoadError.Failed ⊎ (faults self.new ≡ faults self.old) }
        ensures cause { IsErrOf result LoadError.Failed → Rose (faults self.old) (faults self.new) }
        ensures failed_at { IsErrOf result LoadError.Failed → failed self.new ≡ name.now }
        ensures failed_before { (failed self.new ≡ failed self.old) ⊎ IsErrOf result LoadError.Failed };

    /// Replaces what is held under a name, and touches no other name. After an error nothing is said of that name.
    fn save(&mut self, alloc: Global, name: &str, bytes: &[u8]) -> Result<(), SaveError>
        ensures saved { OnOk result (IfSome (held self.new) (λ holds. holds name.now ≡ Some bytes.now)) }
        ensures others { ChangesOnly name.now (held self.old) (held self.new) }

        ensures loads { loads self.new ≡ loads self.old }
        ensures saves { saves self.new ≡ counted (saves self.old) }
        ensures faults { faults self.old ≤ faults self.new }
        ensures no_fault { IsErrOf result SaveError.Failed ⊎ (faults self.new ≡ faults self.old) }
        ensures cause { IsErrOf result SaveError.Failed → Rose (faults self.old) (faults self.new) }
        ensures failed_at { IsErrOf result SaveError.Failed → failed self.new ≡ name.now }
        ensures failed_before { (failed self.new ≡ failed self.old) ⊎ IsErrOf result SaveError.Failed };
}

impl From<AllocError> for LoadError {
    ghost use Rattle.std.specs.Prelude.{◌≡◌};
    ghost use Rattle.js_base.specs.declared.files.LoadError.TheVariants.{OutOfMemory};

    ghost from_gives = { λ _ e. e ≡ OutOfMemory };

    fn from(_error: AllocError) -> LoadError {
        LoadError::OutOfMemory
    }
}

impl From<AllocError> for SaveError {
    ghost use Rattle.std.specs.Prelude.{◌≡◌};
    ghost use Rattle.js_base.specs.declared.files.SaveError.TheVariants.{OutOfMemory};

    ghost from_gives = { λ _ e. e ≡ OutOfMemory };

    fn from(_error: AllocError) -> SaveError {
        SaveError::OutOfMemory
    }
}
