//! The command `make`.

ghost use Rattle.std.specs.Prelude.{◌≡◌, [], IfOk};
ghost use Rattle.js_base.specs.declared.limits.TheConstants.{PROGRAM_BYTES, HOSTS_BYTES};
ghost use Rattle.front_end.specs.declared.step_counts.TheConstants.{STEPS};
ghost use Rattle.front_end.specs.PlacedCode.{cost_of};
ghost use Rattle.split_words.specs.Commands as command;
ghost use Rattle.split_cli.specs.Drive.{TellsDrive};
ghost use Rattle.split_cli.specs.Due.{IsDueForCommand};
ghost use Rattle.front_end.specs.Loading.{EndsIn, IsLoaded};
ghost use Rattle.front_end.specs.Loads.{files_change};
ghost use Rattle.made_laws.specs.MadePrograms as made;
ghost use Rattle.split_cli.specs.Making.{DueForMake, made_text};
ghost use Rattle.front_end.specs.PlacedShapes.{placed_shape};
ghost use Rattle.front_end.specs.Verdicts.{verdict_shape};

use crate::driving::drive;
use crate::making::{made_hosts, made_program};
use crate::world_report::made_text;
use front_end::{
    Loaded, PlacedSource, STEPS, Stop, Verdict, as_loaded, code_of, read_places, starting_values,
};
use jif_tree::Store;
use js_base::limits::{HOSTS_BYTES, PROGRAM_BYTES, SCRIPT_BYTES};
use js_base::{Files, OutOfMemory};
use net_world::World;
use std::alloc::Global;

/// What is due for `make N`. No file is loaded or saved.
pub fn verdict_for_make<F: Files>(
    alloc: Global,
    statements: u64,
    files: &F,
) -> Result<Verdict, Stop>
    ensures { EndsIn (IsDueForCommand (command.Make statements)
        (files_change F.Files files.now files.now)) result }
{
    let program = as_loaded(made_program(alloc, statements)?, PROGRAM_BYTES);
    let hosts = as_loaded(made_hosts(alloc)?, HOSTS_BYTES);
    verdict_for_made(alloc, statements, &program, &hosts)
}

/// What is due for the program and the host file that were made for so many statements.
fn verdict_for_made(
    alloc: Global,
    statements: u64,
    program: &Loaded,
    hosts: &Loaded,
) -> Result<Verdict, Stop>
    requires program { IsLoaded PROGRAM_BYTES (made.made_program statements) program.now }
    requires hosts { IsLoaded HOSTS_BYTES made.made_hosts hosts.now }
    ensures { EndsIn (DueForMake statements) result }
{
    let placed = read_places(alloc, program, hosts)?;
    let source = &placed.source;
    let start = as_loaded(String::new(alloc), SCRIPT_BYTES);
    let store = starting_values(alloc, "", &start, &source.checked.program.fields)?;
    Ok(driven(alloc, statements, &placed, &store)?)
}

/// The line of the hosts of a program in its places, after at most so many events as can be asked for.
fn driven(
    alloc: Global,
    statements: u64,
    placed: &PlacedSource,
    store: &Store,
) -> Result<Verdict, OutOfMemory>
    ensures { IfOk result (λ verdict. TellsDrive (made_text statements (cost_of (placed_shape placed.now)))
        (placed_shape placed.now) store.now STEPS (verdict_shape verdict)) }
{
    let code = code_of(alloc, placed)?;
    let mut world = World::start(alloc, &code, placed.hosts(), 0, store)?;
    let driven = drive(&code, &mut world, STEPS)?;
    let text = made_text(alloc, statements, placed.cost(), &code, driven.made, &world)?;
    Ok(Verdict::Print {
        status: driven.status,
        text,
    })
}
