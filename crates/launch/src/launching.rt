//! Programs that are started one after the other, and then waited for.

ghost use Rattle.std.specs.Prelude.{◌≡◌, ◌≤◌, [], ℕ, List, Contains, Ok, IfErr, IfOk, length, map, string_bytes};
ghost use Rattle.std.specs.Vec.{vec_capacity};
ghost use Rattle.std.specs.List.{sum_by};
ghost use Rattle.launch.specs.Launching.{AllEnded, AllStarted, AreLive, Launched, Spawned, Waited, children};
ghost use Rattle.launch.specs.Starts.{RoseBy, failed_start, spawner_state};

use crate::child_end::ChildEnd;
use child_programs::{SpawnError, Spawner};
use js_base::OutOfMemory;
use std::alloc::Global;

/// Starts a program with each list of words, in order, and then waits for each child that was started, in order, and
/// gives how each ended. Nothing of this stops where a child can't be started or waited for.
///
/// # Errors
/// `OutOfMemory` comes only before the first start.
pub fn launch<P: Spawner>(
    alloc: Global,
    spawner: &mut P,
    program: &str,
    words: &[Vec<String>],
) -> Result<Vec<ChildEnd>, OutOfMemory>
    ensures launched { IfOk result (λ ends.
        Launched program.now (map (λ one. map string_bytes one.items) words.now) ends.items
        (spawner_state P.Spawner spawner.old) (spawner_state P.Spawner spawner.new)) }
    ensures many { IfOk result (λ ends. length ends.items ≡ length words.now) }
    ensures unasked { IfErr result (λ _.
        spawner_state P.Spawner spawner.new ≡ spawner_state P.Spawner spawner.old) }
{
    let mut answers = Vec::with_capacity(alloc, words.len())?;
    let mut ends = Vec::with_capacity(alloc, words.len())?;
    start_all(alloc, spawner, program, words, &mut answers);
    wait_for_all(spawner, &answers, &mut ends);
    Ok(ends)
}

/// Starts a program with each list of words, in order, and keeps each answer.
fn start_all<P: Spawner>(
    alloc: Global,
    spawner: &mut P,
    program: &str,
    words: &[Vec<String>],
    answers: &mut Vec<Result<u32, SpawnError>>,
)
    requires none { answers.old.items ≡ [] }
    requires room { length words.now ≤ vec_capacity answers.old }
    ensures started { AllStarted program.now (map (λ one. map string_bytes one.items) words.now) answers.new.items
        (spawner_state P.Spawner spawner.old) (spawner_state P.Spawner spawner.new) }
    ensures many { length answers.new.items ≡ length words.now }
{
    for one in words {
        let answer = start(alloc, spawner, program, one);
        let pushed = answers.push(answer);
        prove!(pushed.is_ok());
    }
}

/// Starts a program with words.
fn start<P: Spawner>(
    alloc: Global,
    spawner: &mut P,
    program: &str,
    words: &[String],
) -> Result<u32, SpawnError>
    ensures { Spawned program.now (map string_bytes words.now) result
        (spawner_state P.Spawner spawner.old) (spawner_state P.Spawner spawner.new) }
{
    spawner.spawn(alloc, program, words)
}

/// Waits for each child that was started, in order, and keeps how each ended.
fn wait_for_all<P: Spawner>(
    spawner: &mut P,
    answers: &[Result<u32, SpawnError>],
    ends: &mut Vec<ChildEnd>,
)
    requires none { ends.old.items ≡ [] }
    requires room { length answers.now ≤ vec_capacity ends.old }
    requires live { (others : List ℕ) × AreLive others (P.live spawner.old) (children answers.now) }
    ensures ended { (others : List ℕ) (before : ℕ) → AreLive others (P.live spawner.old) (children answers.now) →
        RoseBy (sum_by failed_start answers.now) before (P.faults spawner.old) →
        AllEnded others answers.now ends.new.items before
        (spawner_state P.Spawner spawner.old) (spawner_state P.Spawner spawner.new) }
    ensures many { length ends.new.items ≡ length answers.now }
{
    for answer in answers {
        let end = end_of(spawner, answer);
        let pushed = ends.push(end);
        prove!(pushed.is_ok());
    }
}

/// Waits for a child, where one was started.
fn end_of<P: Spawner>(spawner: &mut P, answer: &Result<u32, SpawnError>) -> ChildEnd
    requires { (child : ℕ) → answer.now ≡ Ok child → Contains (P.live spawner.old) child }
    ensures { Waited answer.now result (spawner_state P.Spawner spawner.old) (spawner_state P.Spawner spawner.new) }
{
    match answer {
        Ok(child) => waited(spawner, *child),
        Err(SpawnError::Failed) => ChildEnd::NotStarted,
        Err(SpawnError::OutOfMemory) => ChildEnd::NoMemory,
    }
}

/// Waits for a child.
fn waited<P: Spawner>(spawner: &mut P, child: u32) -> ChildEnd
    requires { Contains (P.live spawner.old) child }
    ensures { Waited (Ok child) result (spawner_state P.Spawner spawner.old) (spawner_state P.Spawner spawner.new) }
{
    match spawner.wait(child) {
        Ok(status) => ChildEnd::Ended(status),
        Err(SpawnError::Failed) => ChildEnd::NotWaited,
        Err(SpawnError::OutOfMemory) => ChildEnd::NoMemory,
    }
}
