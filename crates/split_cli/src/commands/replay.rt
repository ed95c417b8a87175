//! The command `replay`.

ghost use Rattle.std.specs.Prelude.{◌≡◌, ◌≤◌, ◌+◌, ◌∷◌, [], ℕ, List, All};
ghost use Rattle.js_base.specs.declared.limits.TheConstants.{PROGRAM_BYTES, HOSTS_BYTES, SCRIPT_BYTES};
ghost use Rattle.event_text.specs.OwnTokens.{IsOwnEvent};
ghost use Rattle.split_words.specs.Commands as command;
ghost use Rattle.front_end.specs.PlacedCode.{code_of};
ghost use Rattle.split_cli.specs.Due.{DueForBytes, IsDueForCommand};
ghost use Rattle.front_end.specs.Loading.{EndsIn, IsLoaded};
ghost use Rattle.front_end.specs.Loads.{AreKept, files_change};
ghost use Rattle.front_end.specs.PlacedShapes.{placed_shape};
ghost use Rattle.split_cli.specs.Replay.{DueForSaid};

use crate::world_report::replay_text;
use event_text::Script;
use front_end::{
    Loaded, PlacedSource, Stop, Verdict, code_of, host_file, load_all, program_file, read_places,
    script_file,
};
use host_code::Code;
use js_base::{Files, Status};
use script_stages::{events_happen, first_world, read_script};
use std::alloc::Global;

/// What is due for `replay P H EVENTS`.
pub fn verdict_for_replay<F: Files>(
    alloc: Global,
    program: &str,
    hosts: &str,
    events: &str,
    files: &mut F,
) -> Result<Verdict, Stop>
    ensures due { EndsIn (IsDueForCommand (command.Replay program.now hosts.now events.now)
        (files_change F.Files files.old files.new)) result }
    ensures loads { F.loads files.new ≤ F.loads files.old + 3 }
    ensures kept { AreKept (files_change F.Files files.old files.new) }
{
    let asked = [program_file(program), host_file(hosts), script_file(events)];
    let loaded = load_all(alloc, files, &asked)?;
    let [p, h, e] = loaded.as_slice() else {
        unreachable!();
    };
    verdict_for_loaded(alloc, events, p, h, e)
}

/// What is due for a program, a host file and a script of this name that were loaded.
fn verdict_for_loaded(
    alloc: Global,
    name: &str,
    program: &Loaded,
    hosts: &Loaded,
    events: &Loaded,
) -> Result<Verdict, Stop>
    ensures { (names others p h e : List ℕ) →
        IsLoaded PROGRAM_BYTES p program.now → IsLoaded HOSTS_BYTES h hosts.now →
        IsLoaded SCRIPT_BYTES e events.now →
        EndsIn (DueForBytes (command.Replay names others name.now) (p ∷ h ∷ e ∷ [])) result }
{
    let placed = read_places(alloc, program, hosts)?;
    let code = code_of(alloc, &placed)?;
    let said = read_script(alloc, name, &code, events)?;
    verdict_for_said(alloc, &placed, &code, name, &said)
}

/// What is due for a script of a file of this name that was read.
fn verdict_for_said(
    alloc: Global,
    placed: &PlacedSource,
    code: &Code,
    name: &str,
    said: &Script,
) -> Result<Verdict, Stop>
    requires code { code.now ≡ code_of (placed_shape placed.now) }
    requires own { All (λ one. IsOwnEvent code.now.hosts said.now.bad one.1) said.now.events }
    ensures { EndsIn (DueForSaid name.now (placed_shape placed.now) said.now) result }
{
    let first = first_world(alloc, placed, code, said)?;
    let last = events_happen(alloc, name, code, first, said.events())?;
    let text = replay_text(alloc, code, &last)?;
    Ok(Verdict::Print {
        status: Status::Done,
        text,
    })
}
