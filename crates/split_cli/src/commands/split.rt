//! The command `split`.

ghost use Rattle.std.specs.Prelude.{◌≡◌, ◌≤◌, ◌+◌, ℕ, List, string_bytes, IfOk, IfErr, OnOk};
ghost use Rattle.js_base.specs.Counts.{Rose};
ghost use Rattle.js_base.specs.declared.limits.TheConstants.{PROGRAM_BYTES, HOSTS_BYTES};
ghost use Rattle.js_base.specs.declared.status.Status.{Status};
ghost use Rattle.split_words.specs.Commands as command;
ghost use Rattle.split_cli.specs.Due.{IsDueForCommand, MaySave};
ghost use Rattle.front_end.specs.Loading.{EndsAs, EndsIn, IsLoaded, StopsWith};
ghost use Rattle.front_end.specs.Loads.{files_change};
ghost use Rattle.front_end.specs.PlacedShapes.{placed_shape};
ghost use Rattle.split_cli.specs.Saves.{IsSaved, SavesUnder};
ghost use Rattle.split_cli.specs.Split.{SplitSources, split_of, split_shape};
ghost use Rattle.front_end.specs.Verdicts.{Print, file_fault, verdict_shape};

use crate::code_lines::push_code;
use crate::commands::check::plan_text;
use front_end::{
    Loaded, PlacedSource, Stop, Verdict, code_of, host_file, load_all, program_file, read_places,
    stopped,
};
use js_base::{Files, OutOfMemory, SaveError, Status};
use split_file::write;
use std::alloc::Global;

/// The code of a program in its places.
#[derive(Drop)]
pub struct Split {
    /// Its split file.
    pub bytes: Vec<u8>,
    /// What is printed of it: its plan, its entries, and the instructions of each host.
    pub text: String,
}

/// What is due for `split P H OUT`.
pub fn verdict_for_split<F: Files>(
    alloc: Global,
    program: &str,
    hosts: &str,
    out: &str,
    files: &mut F,
) -> Result<Verdict, Stop>
    ensures due { EndsIn (IsDueForCommand (command.Split program.now hosts.now out.now)
        (files_change F.Files files.old files.new)) result }
    ensures loads { F.loads files.new ≤ F.loads files.old + 2 }
    ensures saves { MaySave (command.Split program.now hosts.now out.now) (files_change F.Files files.old files.new) }
{
    let asked = [program_file(program), host_file(hosts)];
    let loaded = load_all(alloc, files, &asked)?;
    let [p, h] = loaded.as_slice() else {
        unreachable!();
    };
    let split = split_of(alloc, p, h)?;
    saved(alloc, out, split, files)
}

/// The split of a program and a host file that were loaded.
fn split_of(alloc: Global, program: &Loaded, hosts: &Loaded) -> Result<Split, Stop>
    ensures { (p h : List ℕ) → IsLoaded PROGRAM_BYTES p program.now → IsLoaded HOSTS_BYTES h hosts.now →
        EndsAs split_shape (SplitSources p h) result }
{
    let placed = read_places(alloc, program, hosts)?;
    Ok(split_placed(alloc, &placed)?)
}

/// The split of a program in its places.
fn split_placed(alloc: Global, placed: &PlacedSource) -> Result<Split, OutOfMemory>
    ensures { IfOk result (λ split. split_shape split ≡ split_of (placed_shape placed.now)) }
{
    let code = code_of(alloc, placed)?;
    let bytes = write(alloc, &code)?;
    let mut text = plan_text(alloc, placed)?;
    push_code(alloc, &mut text, &code)?;
    Ok(Split { bytes, text })
}

/// Saves a split under this name. It gives the report of the split.
///
/// # Errors
/// `Due` with the line that the files failed, where they did.
fn saved<F: Files>(alloc: Global, out: &str, split: Split, files: &mut F) -> Result<Verdict, Stop>
    ensures report { IfOk result (λ verdict.
        verdict_shape verdict ≡ Print Status.Done (string_bytes split.text)) }
    ensures saved { OnOk result (IsSaved out.now split.bytes.items (files_change F.Files files.old files.new)) }
    ensures faults { OnOk result (F.faults files.new ≡ F.faults files.old) }
    ensures fails { IfErr result (StopsWith (λ verdict. (verdict ≡ file_fault out.now)
        × (F.failed files.new ≡ out.now) × Rose (F.faults files.old) (F.faults files.new))) }
    ensures loads { F.loads files.new ≡ F.loads files.old }
    ensures under { SavesUnder out.now (files_change F.Files files.old files.new) }
{
    match files.save(alloc, out, &split.bytes) {
        Ok(()) => Ok(Verdict::Print {
            status: Status::Done,
            text: split.text,
        }),
        Err(SaveError::Failed) => Err(stopped(Verdict::file_fault(alloc, out))),
        Err(SaveError::OutOfMemory) => Err(Stop::OutOfMemory),
    }
}
