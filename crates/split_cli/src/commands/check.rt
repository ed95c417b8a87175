//! The command `check`.

ghost use Rattle.std.specs.Prelude.{◌≡◌, ◌≤◌, ◌+◌, ◌∷◌, [], ℕ, List, IfOk};
ghost use Rattle.js_base.specs.declared.limits.TheConstants.{PROGRAM_BYTES, HOSTS_BYTES};
ghost use Rattle.std.specs.String.{string_bytes};
ghost use Rattle.jif_tree.specs.Trees.{program_tree};
ghost use Rattle.split_words.specs.Commands as command;
ghost use Rattle.split_cli.specs.Check.{accepted_line, plan_lines};
ghost use Rattle.split_cli.specs.Due.{DueForBytes, IsDueForCommand};
ghost use Rattle.front_end.specs.Loading.{EndsIn, IsLoaded};
ghost use Rattle.front_end.specs.Loads.{AreKept, files_change};
ghost use Rattle.front_end.specs.PlacedShapes.{placed_shape};
ghost use Rattle.front_end.specs.Text.{line_text, lines_text};

use crate::place_lines::push_places;
use front_end::{
    Loaded, PlacedSource, Source, Stop, Verdict, host_file, load_all, program_file, read_places,
};
use js_base::{Files, OutOfMemory, Status};
use std::alloc::Global;
use std::fmt::Write;

/// What is due for `check P H`.
pub fn verdict_for_check<F: Files>(
    alloc: Global,
    program: &str,
    hosts: &str,
    files: &mut F,
) -> Result<Verdict, Stop>
    ensures due { EndsIn (IsDueForCommand (command.Check program.now hosts.now)
        (files_change F.Files files.old files.new)) result }
    ensures loads { F.loads files.new ≤ F.loads files.old + 2 }
    ensures kept { AreKept (files_change F.Files files.old files.new) }
{
    let asked = [program_file(program), host_file(hosts)];
    let loaded = load_all(alloc, files, &asked)?;
    let [p, h] = loaded.as_slice() else {
        unreachable!();
    };
    verdict_for_loaded(alloc, p, h)
}

/// What is due for a program and a host file that were loaded.
fn verdict_for_loaded(alloc: Global, program: &Loaded, hosts: &Loaded) -> Result<Verdict, Stop>
    ensures { (names others p h : List ℕ) →
        IsLoaded PROGRAM_BYTES p program.now → IsLoaded HOSTS_BYTES h hosts.now →
        EndsIn (DueForBytes (command.Check names others) (p ∷ h ∷ [])) result }
{
    let placed = read_places(alloc, program, hosts)?;
    let text = plan_text(alloc, &placed)?;
    Ok(Verdict::Print {
        status: Status::Done,
        text,
    })
}

/// What is printed of a program in its places: how much there is of it, which hosts may hold what, where it stands, and
/// what its plan costs.
pub fn plan_text(alloc: Global, placed: &PlacedSource) -> Result<String, OutOfMemory>
    ensures { IfOk result (λ text. string_bytes text ≡ lines_text (plan_lines (placed_shape placed.now))) }
{
    let source = &placed.source;
    let mut text = accepted(alloc, source)?;
    push_places(alloc, &mut text, placed)?;
    let cost = placed.cost();
    writeln!(text, "cost {cost}").map_err(|_| OutOfMemory)?;
    Ok(text)
}

/// The line of a program that is accepted: how many fields, methods and statements it has. There is a program label for
/// each statement.
fn accepted(alloc: Global, source: &Source) -> Result<String, OutOfMemory>
    ensures { IfOk result
        (λ text. string_bytes text ≡ line_text (accepted_line (program_tree source.now.checked.program))) }
{
    let checked = &source.checked;
    let fields = checked.program.fields.len();
    let methods = checked.program.methods.len();
    let statements = checked.pc.len();
    Ok(format!(in alloc; "accepted {fields} fields {methods} methods {statements} statements\n")?)
}
