//! The command `run`.

ghost use Rattle.std.specs.Prelude.{◌≡◌, ◌≤◌, ◌+◌, ◌++◌, ◌∷◌, [], ℕ, List, IfOk, OnOk, map};
ghost use Rattle.std.specs.String.{string_bytes};
ghost use Rattle.js_base.specs.declared.limits.TheConstants.{PROGRAM_BYTES, HOSTS_BYTES, SCRIPT_BYTES};
ghost use Rattle.jif_tree.specs.Trees.{field_tree};
ghost use Rattle.split_words.specs.Commands as command;
ghost use Rattle.split_cli.specs.Due.{DueForBytes, IsDueForCommand};
ghost use Rattle.front_end.specs.Loading.{EndsIn, IsLoaded};
ghost use Rattle.front_end.specs.Loads.{AreKept, files_change};
ghost use Rattle.split_cli.specs.PlainRun.{IsRunReport, end_line, end_status, run_report, store_lines};
ghost use Rattle.front_end.specs.Text.{line_text, lines_text};
ghost use Rattle.front_end.specs.Verdicts.{verdict_shape};

use crate::row_line::push_row_line;
use front_end::{
    Loaded, Stop, Verdict, host_file, load_all, program_file, read_sources, script_file,
    starting_values,
};
use jif_tree::{Field, Program, Row, Store};
use js_base::{Files, OutOfMemory, Status};
use source_run::RunEnd;
use std::alloc::Global;
use std::fmt::Write;

/// What is due for `run P H START N`.
pub fn verdict_for_run<F: Files>(
    alloc: Global,
    program: &str,
    hosts: &str,
    start: &str,
    steps: u64,
    files: &mut F,
) -> Result<Verdict, Stop>
    ensures due { EndsIn (IsDueForCommand (command.Run program.now hosts.now start.now steps)
        (files_change F.Files files.old files.new)) result }
    ensures loads { F.loads files.new ≤ F.loads files.old + 3 }
    ensures kept { AreKept (files_change F.Files files.old files.new) }
{
    let asked = [program_file(program), host_file(hosts), script_file(start)];
    let loaded = load_all(alloc, files, &asked)?;
    let [p, h, s] = loaded.as_slice() else {
        unreachable!();
    };
    verdict_for_loaded(alloc, start, steps, p, h, s)
}

/// What is due for a program, a host file and a file of starting values of this name that were loaded.
fn verdict_for_loaded(
    alloc: Global,
    name: &str,
    steps: u64,
    program: &Loaded,
    hosts: &Loaded,
    start: &Loaded,
) -> Result<Verdict, Stop>
    ensures { (names others p h s : List ℕ) →
        IsLoaded PROGRAM_BYTES p program.now → IsLoaded HOSTS_BYTES h hosts.now →
        IsLoaded SCRIPT_BYTES s start.now →
        EndsIn (DueForBytes (command.Run names others name.now steps) (p ∷ h ∷ s ∷ [])) result }
{
    let source = read_sources(alloc, program, hosts)?;
    let program = &source.checked.program;
    let store = starting_values(alloc, name, start, &program.fields)?;
    Ok(run_from(alloc, program, store, steps)?)
}

/// The report of a run of at most so many steps from these starting values.
fn run_from(
    alloc: Global,
    program: &Program,
    start: Store,
    steps: u64,
) -> Result<Verdict, OutOfMemory>
    ensures { IfOk result (λ verdict. IsRunReport program.now steps start (verdict_shape verdict)) }
{
    let mut store = start;
    let end = source_run::run(alloc, program, &mut store, steps)?;
    run_report(alloc, &program.fields, steps, end, &store)
}

/// The report of a run of at most so many steps that ended in this way and left this store.
fn run_report(
    alloc: Global,
    fields: &[Field],
    steps: u64,
    end: RunEnd,
    store: &Store,
) -> Result<Verdict, OutOfMemory>
    ensures { IfOk result (λ verdict.
        verdict_shape verdict ≡ run_report (map field_tree fields.now) steps end store.now) }
{
    let mut text = String::new(alloc);
    push_end(&mut text, steps, end)?;
    push_rows(&mut text, fields, store.rows())?;
    let status = end_status(end);
    Ok(Verdict::Print { status, text })
}

/// Adds the line that says how a run of at most so many steps ended.
fn push_end(text: &mut String, steps: u64, end: RunEnd) -> Result<(), OutOfMemory>
    ensures { OnOk result (string_bytes text.new ≡ string_bytes text.old ++ line_text (end_line steps end)) }
{
    match end {
        RunEnd::Ended(taken) => writeln!(text, "ended after {taken} steps").map_err(
            |_| OutOfMemory,
        ),
        RunEnd::NotYet => writeln!(text, "not ended after {steps} steps").map_err(|_| OutOfMemory),
    }
}

/// The status of a run that ended in this way.
fn end_status(end: RunEnd) -> Status
    ensures { result ≡ end_status end }
{
    match end {
        RunEnd::Ended(_) => Status::Done,
        RunEnd::NotYet => Status::Spent,
    }
}

/// Adds a line for each field that has a row.
fn push_rows(text: &mut String, fields: &[Field], rows: &[Row]) -> Result<(), OutOfMemory>
    ensures { OnOk result (string_bytes text.new
        ≡ string_bytes text.old ++ lines_text (store_lines (map field_tree fields.now) rows.now)) }
{
    for (number, field) in fields.iter().enumerate() {
        let Some(row) = rows.get(number) else {
            return Ok(());
        };
        push_row_line(text, field.name.as_str(), row.elements())?;
    }
    Ok(())
}
