//! The command `drive`.

ghost use Rattle.std.specs.Prelude.{◌≡◌, ◌≤◌, ◌+◌, ◌∷◌, [], ℕ, List, IfOk};
ghost use Rattle.js_base.specs.declared.limits.TheConstants.{PROGRAM_BYTES, HOSTS_BYTES, SCRIPT_BYTES};
ghost use Rattle.front_end.specs.declared.step_counts.TheConstants.{STEPS};
ghost use Rattle.split_words.specs.Commands as command;
ghost use Rattle.front_end.specs.StepCounts.{IsStepCount};
ghost use Rattle.split_cli.specs.Drive.{IsDriveReport};
ghost use Rattle.split_cli.specs.Due.{DueForBytes, IsDueForCommand};
ghost use Rattle.front_end.specs.Loading.{EndsIn, IsLoaded};
ghost use Rattle.front_end.specs.Loads.{AreKept, files_change};
ghost use Rattle.front_end.specs.PlacedShapes.{placed_shape};
ghost use Rattle.front_end.specs.Verdicts.{verdict_shape};

use crate::driving::drive;
use crate::world_report::drive_text;
use front_end::{
    Loaded, PlacedSource, Stop, Verdict, code_of, host_file, load_all, program_file, read_places,
    script_file, starting_values,
};
use jif_tree::Store;
use js_base::{Files, OutOfMemory};
use net_world::World;
use std::alloc::Global;

/// What is due for `drive P H START N`.
pub fn verdict_for_drive<F: Files>(
    alloc: Global,
    program: &str,
    hosts: &str,
    start: &str,
    events: u64,
    files: &mut F,
) -> Result<Verdict, Stop>
    requires { IsStepCount events }
    ensures due { EndsIn (IsDueForCommand (command.Drive program.now hosts.now start.now events)
        (files_change F.Files files.old files.new)) result }
    ensures loads { F.loads files.new ≤ F.loads files.old + 3 }
    ensures kept { AreKept (files_change F.Files files.old files.new) }
{
    let asked = [program_file(program), host_file(hosts), script_file(start)];
    let loaded = load_all(alloc, files, &asked)?;
    let [p, h, s] = loaded.as_slice() else {
        unreachable!();
    };
    verdict_for_loaded(alloc, start, events, p, h, s)
}

/// What is due for a program, a host file and a file of starting values of this name that were loaded.
fn verdict_for_loaded(
    alloc: Global,
    name: &str,
    most: u64,
    program: &Loaded,
    hosts: &Loaded,
    start: &Loaded,
) -> Result<Verdict, Stop>
    requires { most ≤ STEPS }
    ensures { (names others p h s : List ℕ) →
        IsLoaded PROGRAM_BYTES p program.now → IsLoaded HOSTS_BYTES h hosts.now →
        IsLoaded SCRIPT_BYTES s start.now →
        EndsIn (DueForBytes (command.Drive names others name.now most) (p ∷ h ∷ s ∷ [])) result }
{
    let placed = read_places(alloc, program, hosts)?;
    let source = &placed.source;
    let store = starting_values(alloc, name, start, &source.checked.program.fields)?;
    Ok(driven(alloc, &placed, &store, most)?)
}

/// The report of the hosts of a program in its places, after at most so many events from these starting values.
fn driven(
    alloc: Global,
    placed: &PlacedSource,
    store: &Store,
    most: u64,
) -> Result<Verdict, OutOfMemory>
    requires { most ≤ STEPS }
    ensures { IfOk result (λ verdict. IsDriveReport (placed_shape placed.now) store.now most (verdict_shape verdict)) }
{
    let code = code_of(alloc, placed)?;
    let mut world = World::start(alloc, &code, placed.hosts(), 0, store)?;
    let driven = drive(&code, &mut world, most)?;
    let text = drive_text(alloc, &code, driven.made, &world)?;
    Ok(Verdict::Print {
        status: driven.status,
        text,
    })
}
