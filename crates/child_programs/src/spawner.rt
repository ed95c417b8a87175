//! Programs that are started and waited for, as a trait.

ghost use Rattle.std.specs.Prelude.{◌≡◌, ◌≤◌, ◌⊎◌, ◌∷◌, ◌++◌, [], ℕ, ℤ, List, Option, Some, None, Contains, map};
ghost use Rattle.std.specs.Prelude.{IfOk, OnErr, IsErrOf, string_bytes};
ghost use Rattle.js_base.specs.Counts.{Rose};
ghost use Rattle.node_links.specs.Links.{OneMore};
ghost use Rattle.child_programs.specs.Children.{without};

use js_base::OutOfMemory;
use std::alloc::{AllocError, Global};
use thiserror::Error;

/// Why a call of a spawner did not go well.
#[derive(Clone, Copy, Debug, PartialEq, Eq, Error)]
pub enum SpawnError {
    #[error("out of memory")]
    OutOfMemory,
    /// The spawner's own fault, which it counts.
    #[error("child fault")]
    Failed,
}

/// Starts programs as children, each under a number, and waits for them. Which children are still to be waited for is
/// told by every spawner. What it was asked to start and how children ended is told by a spawner in memory, and not by
/// that of the system.
pub trait Spawner {
    /// How many faults the spawner counted. It never falls.
    ghost faults: { Self → ℕ };

    /// The children that it was not waited for, in the order of their starts.
    ghost live: { Self → List ℕ };

    /// The programs that it was asked to start, each with its words, in order, where it tells.
    ghost asked: { Self → Option (List (List ℕ × List (List ℕ))) };

    /// What each of these requests gave, in the same order, a child or none, where it tells.
    ghost gave: { Self → Option (List (Option ℕ)) };

    /// The children that it was waited for, each with its status, in order, where it tells.
    ghost ended: { Self → Option (List (ℕ × ℤ)) };

    /// Starts a program with words, and gives the number of the child, which no child has that is still to be waited
    /// for. After `OutOfMemory` it was asked or it was not.
    fn spawn(&mut self, alloc: Global, program: &str, words: &[String]) -> Result<u32, SpawnError>
        ensures live { IfOk result (λ child. live self.new ≡ live self.old ++ child ∷ []) }
        ensures fresh { IfOk result (λ child. ¬ Contains (live self.old) child) }
        ensures err { OnErr result (live self.new ≡ live self.old) }
        ensures asked { (IsErrOf result SpawnError.OutOfMemory → ⊥) →
            OneMore (program.now, map string_bytes words.now) (asked self.old) (asked self.new) }
        ensures gave { IfOk result (λ child. OneMore (Some child) (gave self.old) (gave self.new)) }
        ensures gave_none { IsErrOf result SpawnError.Failed → OneMore None (gave self.old) (gave self.new) }
        ensures memory { IsErrOf result SpawnError.OutOfMemory →
            ((asked self.new ≡ asked self.old) × (gave self.new ≡ gave self.old))
            ⊎ (OneMore (program.now, map string_bytes words.now) (asked self.old) (asked self.new)
            × OneMore None (gave self.old) (gave self.new)) }
        ensures ended { ended self.new ≡ ended self.old }
        ensures faults { faults self.old ≤ faults self.new }
        ensures no_fault { IsErrOf result SpawnError.Failed ⊎ (faults self.new ≡ faults self.old) }
        ensures cause { IsErrOf result SpawnError.Failed → Rose (faults self.old) (faults self.new) };

    /// Waits for a child that is still to be waited for, and gives its status, or -1 where it has none. After an error
    /// it is not to be waited for either.
    fn wait(&mut self, child: u32) -> Result<i32, SpawnError>
        requires { Contains (live self.old) child }
        ensures live { live self.new ≡ without child (live self.old) }
        ensures asked { asked self.new ≡ asked self.old }
        ensures gave { gave self.new ≡ gave self.old }
        ensures ended { IfOk result (λ status. OneMore (child, status) (ended self.old) (ended self.new)) }
        ensures err { OnErr result (ended self.new ≡ ended self.old) }
        ensures faults { faults self.old ≤ faults self.new }
        ensures no_fault { IsErrOf result SpawnError.Failed ⊎ (faults self.new ≡ faults self.old) }
        ensures cause { IsErrOf result SpawnError.Failed → Rose (faults self.old) (faults self.new) };
}

impl From<AllocError> for SpawnError {
    ghost use Rattle.std.specs.Prelude.{◌≡◌};
    ghost use Rattle.child_programs.specs.declared.spawner.SpawnError.TheVariants.{OutOfMemory};

    ghost from_gives = { λ _ e. e ≡ OutOfMemory };

    fn from(_error: AllocError) -> SpawnError {
        SpawnError::OutOfMemory
    }
}

impl From<OutOfMemory> for SpawnError {
    ghost use Rattle.std.specs.Prelude.{◌≡◌};
    ghost use Rattle.child_programs.specs.declared.spawner.SpawnError.TheVariants as spawn_error;

    ghost from_gives = { λ _ e. e ≡ spawn_error.OutOfMemory };

    fn from(_error: OutOfMemory) -> SpawnError {
        SpawnError::OutOfMemory
    }
}
