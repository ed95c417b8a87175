//! What is due for the words: from files to an explanation.

ghost use Rattle.std.specs.Prelude.{◌≡◌, ◌≤◌, ◌+◌, ℕ, List, length, map, string_bytes, IfOk};
ghost use Rattle.js_base.specs.declared.limits.TheConstants.{HOSTS_BYTES, PROGRAM_BYTES};
ghost use Rattle.front_end.specs.Loading.{EndsIn, IsLoaded};
ghost use Rattle.front_end.specs.Loads.{AreKept, files_change};
ghost use Rattle.front_end.specs.Verdicts.{verdict_shape};
ghost use Rattle.jifexplain.specs.Due.{DueForBytes, IsDue, IsDueForNames};
ghost use Rattle.jifexplain.specs.Questions.{asked_shape};

use crate::explained::{Names, explained_verdict};
use crate::places::{Asked, places_told};
use front_end::{Loaded, Stop, Verdict, host_file, load_all, program_file, read_places};
use js_base::{Files, OutOfMemory};
use std::alloc::Global;

/// The forms of the words.
const FORMS: &str = "P H / P H PART";

/// What is due for the words.
pub fn due_verdict<F: Files>(
    alloc: Global,
    words: &[String],
    files: &mut F,
) -> Result<Verdict, OutOfMemory>
    ensures due { IfOk result (λ verdict. IsDue (map string_bytes words.now)
        (files_change F.Files files.old files.new)
        (verdict_shape verdict)) }
    ensures loads { F.loads files.new ≤ F.loads files.old + length words.now }
    ensures kept { AreKept (files_change F.Files files.old files.new) }
{
    match words {
        [program, hosts] => verdict_for_names(
            alloc,
            program.as_str(),
            hosts.as_str(),
            Asked::All,
            files,
        ),
        [program, hosts, part] => {
            let asked = Asked::Meant(part.as_str());
            verdict_for_names(alloc, program.as_str(), hosts.as_str(), asked, files)
        }
        _ => Verdict::usage(alloc, FORMS),
    }
}

/// What is due for the names of a program and a host file, and what is asked.
fn verdict_for_names<F: Files>(
    alloc: Global,
    program: &str,
    hosts: &str,
    asked: Asked<'_>,
    files: &mut F,
) -> Result<Verdict, OutOfMemory>
    ensures due { IfOk result (λ verdict. IsDueForNames program.now hosts.now (asked_shape asked.entry)
        (files_change F.Files files.old files.new)
        (verdict_shape verdict)) }
    ensures loads { F.loads files.new ≤ F.loads files.old + 2 }
    ensures kept { AreKept (files_change F.Files files.old files.new) }
{
    let names = Names {
        program,
        hosts,
        asked,
    };
    match verdict_or_stop(alloc, &names, files) {
        Ok(verdict) => Ok(verdict),
        Err(Stop::Due(verdict)) => Ok(verdict),
        Err(Stop::OutOfMemory) => Err(OutOfMemory),
    }
}

/// How the two names end: what is due for them, whether they stop early or not.
fn verdict_or_stop<F: Files>(
    alloc: Global,
    names: &Names<'_>,
    files: &mut F,
) -> Result<Verdict, Stop>
    ensures due { EndsIn (IsDueForNames names.now.program.now names.now.hosts.now (asked_shape names.now.asked)
        (files_change F.Files files.old files.new)) result }
    ensures loads { F.loads files.new ≤ F.loads files.old + 2 }
    ensures kept { AreKept (files_change F.Files files.old files.new) }
{
    let asked = [program_file(names.program), host_file(names.hosts)];
    let loaded = load_all(alloc, files, &asked)?;
    let [p, h] = loaded.as_slice() else {
        unreachable!();
    };
    verdict_for_loaded(alloc, names, p, h)
}

/// What is due for a program and a host file of these names that were loaded.
fn verdict_for_loaded(
    alloc: Global,
    names: &Names<'_>,
    program: &Loaded,
    hosts: &Loaded,
) -> Result<Verdict, Stop>
    ensures { (p h : List ℕ) → IsLoaded PROGRAM_BYTES p program.now → IsLoaded HOSTS_BYTES h hosts.now →
        EndsIn (DueForBytes names.now.program.now names.now.hosts.now (asked_shape names.now.asked) p h) result }
{
    match read_places(alloc, program, hosts) {
        Ok(_) => places_told(alloc, names.program, names.asked, None, program, hosts),
        Err(Stop::Due(refused)) => explained_verdict(alloc, names, program, hosts, refused),
        Err(Stop::OutOfMemory) => Err(Stop::OutOfMemory),
    }
}
