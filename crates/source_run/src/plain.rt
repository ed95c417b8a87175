//! Runs of programs.

ghost use Rattle.std.specs.Prelude.{◌≡◌, ◌≤◌, ℕ, IfOk, OnErr};
ghost use Rattle.jif_tree.specs.SourceRun.{prefix};
ghost use Rattle.source_run.specs.Runs.{RunsTo, IsStoreOfPrefix};

use crate::machine::Machine;
use crate::windows::find_windows;
use jif_tree::{Program, Store};
use js_base::OutOfMemory;
use std::alloc::Global;

/// How a run ended.
#[derive(Clone, Copy)]
pub enum RunEnd {
    /// The run came to its end after so many steps.
    Ended(u64),
    /// The given steps did not end it.
    NotYet,
}

/// Runs a program from a store, for at most so many steps, and leaves the store as the last of these steps does.
/// `Ended` comes exactly where the run ends within the given steps, with the number of steps that it takes, and
/// `NotYet` exactly where they do not end it.
///
/// # Errors
/// `OutOfMemory` only. The store is then that after some of the steps.
pub fn run(
    alloc: Global,
    program: &Program,
    store: &mut Store,
    steps: u64,
) -> Result<RunEnd, OutOfMemory>
    ensures ok { IfOk result (λ end. RunsTo program.now store.old steps end store.new) }
    ensures err { OnErr result (IsStoreOfPrefix program.now store.old steps store.new) }
{
    let windows = find_windows(alloc, program)?;
    let mut machine = Machine::start(alloc, program, &windows)?;
    for taken in 0..steps {
        if machine.is_at_end() {
            return Ok(RunEnd::Ended(taken));
        }
        machine.step(alloc, program, &windows, store)?;
    }
    if machine.is_at_end() {
        return Ok(RunEnd::Ended(steps));
    }
    Ok(RunEnd::NotYet)
}
