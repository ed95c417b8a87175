//! What is due for the words: from files to a picture, or to a refusal.

ghost use Rattle.std.specs.Prelude.{◌≡◌, ◌≤◌, ◌+◌, ◌∷◌, [], ℕ, List, length, map, string_bytes, IfOk};
ghost use Rattle.js_base.specs.declared.limits.TheConstants.{HOSTS_BYTES, PROGRAM_BYTES, SCRIPT_BYTES};
ghost use Rattle.front_end.specs.Loading.{EndsIn, IsLoaded};
ghost use Rattle.front_end.specs.Loads.{AreKept, files_change};
ghost use Rattle.front_end.specs.Verdicts.{verdict_shape};
ghost use Rattle.jifpicture.specs.Due.{DueForPlan, IsDue};

use crate::picture::picture_text;
use front_end::{
    Loaded, Stop, Verdict, host_file, load_all, program_file, read_places, script_file,
};
use js_base::{Files, OutOfMemory, Status};
use run_picture::run_due;
use std::alloc::Global;

/// The forms of the words.
const FORMS: &str = "P H / P H EVENTS";

/// What is due for the words.
pub fn due_verdict<F: Files>(
    alloc: Global,
    words: &[String],
    files: &mut F,
) -> Result<Verdict, OutOfMemory>
    ensures due { IfOk result (λ verdict. IsDue (map string_bytes words.now)
        (files_change F.Files files.old files.new)
        (verdict_shape verdict)) }
    ensures loads { F.loads files.new ≤ F.loads files.old + length words.now }
    ensures kept { AreKept (files_change F.Files files.old files.new) }
{
    match verdict_or_stop(alloc, words, files) {
        Ok(verdict) => Ok(verdict),
        Err(Stop::Due(verdict)) => Ok(verdict),
        Err(Stop::OutOfMemory) => Err(OutOfMemory),
    }
}

/// How the words end: what is due for them, whether they stop early or not.
fn verdict_or_stop<F: Files>(
    alloc: Global,
    words: &[String],
    files: &mut F,
) -> Result<Verdict, Stop>
    ensures due { EndsIn (IsDue (map string_bytes words.now) (files_change F.Files files.old files.new)) result }
    ensures loads { F.loads files.new ≤ F.loads files.old + length words.now }
    ensures kept { AreKept (files_change F.Files files.old files.new) }
{
    match words {
        [program, hosts] => verdict_for_plan(alloc, program.as_str(), hosts.as_str(), files),
        [program, hosts, events] => verdict_for_run(
            alloc,
            program.as_str(),
            hosts.as_str(),
            events.as_str(),
            files,
        ),
        _ => Ok(Verdict::usage(alloc, FORMS)?),
    }
}

/// What is due for `P H`.
fn verdict_for_plan<F: Files>(
    alloc: Global,
    program: &str,
    hosts: &str,
    files: &mut F,
) -> Result<Verdict, Stop>
    ensures due { EndsIn (IsDue (program.now ∷ hosts.now ∷ []) (files_change F.Files files.old files.new)) result }
    ensures loads { F.loads files.new ≤ F.loads files.old + 2 }
    ensures kept { AreKept (files_change F.Files files.old files.new) }
{
    let asked = [program_file(program), host_file(hosts)];
    let loaded = load_all(alloc, files, &asked)?;
    let [p, h] = loaded.as_slice() else {
        unreachable!();
    };
    plan_due(alloc, p, h)
}

/// What is due for a program and a host file that were loaded.
fn plan_due(alloc: Global, program: &Loaded, hosts: &Loaded) -> Result<Verdict, Stop>
    ensures { (p h : List ℕ) → IsLoaded PROGRAM_BYTES p program.now → IsLoaded HOSTS_BYTES h hosts.now →
        EndsIn (DueForPlan p h) result }
{
    let placed = read_places(alloc, program, hosts)?;
    let text = picture_text(alloc, &placed)?;
    Ok(Verdict::Print {
        status: Status::Done,
        text,
    })
}

/// What is due for `P H EVENTS`.
fn verdict_for_run<F: Files>(
    alloc: Global,
    program: &str,
    hosts: &str,
    events: &str,
    files: &mut F,
) -> Result<Verdict, Stop>
    ensures due { EndsIn (IsDue (program.now ∷ hosts.now ∷ events.now ∷ [])
        (files_change F.Files files.old files.new)) result }
    ensures loads { F.loads files.new ≤ F.loads files.old + 3 }
    ensures kept { AreKept (files_change F.Files files.old files.new) }
{
    let asked = [program_file(program), host_file(hosts), script_file(events)];
    let loaded = load_all(alloc, files, &asked)?;
    let [p, h, e] = loaded.as_slice() else {
        unreachable!();
    };
    run_due(alloc, events, p, h, e)
}
