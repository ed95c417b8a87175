//! The command `compare`.

ghost use Rattle.std.specs.Prelude.{◌≡◌, ◌≤◌, ◌+◌, ◌∷◌, [], ℕ, List, All, IfOk};
ghost use Rattle.js_base.specs.declared.limits.TheConstants.{PROGRAM_BYTES, HOSTS_BYTES, SCRIPT_BYTES};
ghost use Rattle.event_text.specs.OwnTokens.{IsOwnEvent};
ghost use Rattle.split_words.specs.Commands as command;
ghost use Rattle.run_comparison.specs.Compare.{DueForReadScripts};
ghost use Rattle.front_end.specs.PlacedCode.{code_of};
ghost use Rattle.split_cli.specs.Due.{DueForBytes, IsDueForCommand};
ghost use Rattle.front_end.specs.Loading.{EndsIn, IsLoaded};
ghost use Rattle.front_end.specs.Loads.{AreKept, files_change};
ghost use Rattle.front_end.specs.PlacedShapes.{placed_shape};

use event_text::Script;
use front_end::{
    Loaded, PlacedSource, Stop, Verdict, code_of, host_file, load_all, program_file, read_places,
    releases_of, script_file,
};
use host_code::Code;
use js_base::Files;
use run_comparison::{
    compared, follow, is_prompt, same_events, same_misbehave, same_starts, unlike_field,
};
use script_stages::{first_world, read_script};
use std::alloc::Global;

/// What is due for `compare P H EVENTS1 EVENTS2`.
pub fn verdict_for_compare<F: Files>(
    alloc: Global,
    program: &str,
    hosts: &str,
    one: &str,
    other: &str,
    files: &mut F,
) -> Result<Verdict, Stop>
    ensures due { EndsIn (IsDueForCommand (command.Compare program.now hosts.now one.now other.now)
        (files_change F.Files files.old files.new)) result }
    ensures loads { F.loads files.new ≤ F.loads files.old + 4 }
    ensures kept { AreKept (files_change F.Files files.old files.new) }
{
    let asked = [
        program_file(program),
        host_file(hosts),
        script_file(one),
        script_file(other),
    ];
    let loaded = load_all(alloc, files, &asked)?;
    let [p, h, s, t] = loaded.as_slice() else {
        unreachable!();
    };
    verdict_for_loaded(alloc, one, other, p, h, s, t)
}

/// What is due for a program, a host file and two scripts of these names that were loaded.
fn verdict_for_loaded(
    alloc: Global,
    name: &str,
    other_name: &str,
    program: &Loaded,
    hosts: &Loaded,
    one: &Loaded,
    other: &Loaded,
) -> Result<Verdict, Stop>
    ensures { (names others p h s t : List ℕ) →
        IsLoaded PROGRAM_BYTES p program.now → IsLoaded HOSTS_BYTES h hosts.now →
        IsLoaded SCRIPT_BYTES s one.now → IsLoaded SCRIPT_BYTES t other.now →
        EndsIn (DueForBytes (command.Compare names others name.now other_name.now) (p ∷ h ∷ s ∷ t ∷ [])) result }
{
    let placed = read_places(alloc, program, hosts)?;
    let code = code_of(alloc, &placed)?;
    let one = read_script(alloc, name, &code, one)?;
    let other = read_script(alloc, other_name, &code, other)?;
    verdict_for_said(alloc, &placed, &code, name, &one, other_name, &other)
}

/// What is due for two scripts of files of these names. Each is followed to its end, and then the premises are tested.
fn verdict_for_said(
    alloc: Global,
    placed: &PlacedSource,
    code: &Code,
    name: &str,
    one: &Script,
    other_name: &str,
    other: &Script,
) -> Result<Verdict, Stop>
    requires code { code.now ≡ code_of (placed_shape placed.now) }
    requires own { All (λ it. IsOwnEvent code.now.hosts one.now.bad it.1) one.now.events }
    requires own_too { All (λ it. IsOwnEvent code.now.hosts other.now.bad it.1) other.now.events }
    ensures { EndsIn (DueForReadScripts (placed_shape placed.now) name.now one.now other_name.now other.now) result }
{
    let table = releases_of(alloc, placed, code)?;
    let world = first_world(alloc, placed, code, one)?;
    let unlike = unlike_field(code, &world, one.start(), other.start());
    let run = follow(alloc, name, code, &table, world, one.events())?;
    let other_world = first_world(alloc, placed, code, other)?;
    let other_run = follow(alloc, other_name, code, &table, other_world, other.events())?;
    same_misbehave(one.bad(), other.bad())?;
    same_starts(alloc, unlike)?;
    same_events(alloc, name, &run.seen, &other_run.seen)?;
    is_prompt(alloc, name, &run.seen)?;
    is_prompt(alloc, other_name, &other_run.seen)?;
    Ok(compared(
        alloc,
        placed,
        run.world.sent(),
        other_run.world.sent(),
        &run.released,
        &other_run.released,
    )?)
}
