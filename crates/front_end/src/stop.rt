//! Where a command goes no further.

ghost use Rattle.std.specs.Prelude.{◌≡◌, MatchResult};
ghost use Rattle.front_end.specs.declared.stop.Stop.TheVariants as stop;

use crate::verdict::Verdict;
use js_base::OutOfMemory;
use std::alloc::AllocFailed;

/// Why a command goes no further.
#[derive(Drop)]
pub enum Stop {
    OutOfMemory,
    /// This is due.
    Due(Verdict),
}

impl From<OutOfMemory> for Stop {
    ghost use Rattle.std.specs.Prelude.{◌≡◌};
    ghost use Rattle.front_end.specs.declared.stop.Stop.TheVariants as stop;

    ghost from_gives = { λ _ e. e ≡ stop.OutOfMemory };

    fn from(_error: OutOfMemory) -> Stop {
        Stop::OutOfMemory
    }
}

impl<T: Drop> From<AllocFailed<T>> for Stop {
    ghost use Rattle.std.specs.Prelude.{◌≡◌};
    ghost use Rattle.front_end.specs.declared.stop.Stop.TheVariants as stop;

    ghost from_gives = { λ _ e. e ≡ stop.OutOfMemory };

    fn from(_error: AllocFailed<T>) -> Stop {
        Stop::OutOfMemory
    }
}

/// The command stops with what is due.
pub fn stopped(due: Result<Verdict, OutOfMemory>) -> Stop
    ensures { MatchResult due (λ verdict. result ≡ stop.Due verdict) (λ _. result ≡ stop.OutOfMemory) }
{
    match due {
        Ok(verdict) => Stop::Due(verdict),
        Err(OutOfMemory) => Stop::OutOfMemory,
    }
}
