//! What is due for the words: from a host file to a report of how nodes ended, or to a refusal.

ghost use Rattle.std.specs.Prelude.{◌≡◌, ◌≤◌, ◌+◌, map, string_bytes, IfErr, IfNone, IfOk, IfSome, MatchResult};
ghost use Rattle.front_end.specs.declared.stop.Stop.TheVariants as stops;
ghost use Rattle.front_end.specs.Loading.{EndsAs};
ghost use Rattle.front_end.specs.Loads.{AreKept, files_change};
ghost use Rattle.front_end.specs.Verdicts.{verdict_shape};
ghost use Rattle.launch.specs.Due.{HostsOf, IsDue, AreRunWords, IsUndueLaunch, IsUnlaunched, LaunchesTo};
ghost use Rattle.launch.specs.Report.{RunWords, run_words};
ghost use Rattle.launch.specs.Starts.{spawner_state};

use crate::launching::launch;
use crate::node_words::{Run, all_words};
use crate::report::{report_text, status_of};
use child_programs::Spawner;
use front_end::{Asked, Stop, Verdict, hosts_read, load_all, step_count};
use host_decl::Hosts;
use js_base::limits::HOSTS_BYTES;
use js_base::{Files, OutOfMemory};
use std::alloc::Global;

/// The only form of the words.
const FORMS: &str = "P H START N";

/// The program that is started for each host.
const NODE: &str = "jifhost";

/// What is due for the words.
pub fn due_verdict<F: Files, P: Spawner>(
    alloc: Global,
    words: &[String],
    files: &mut F,
    spawner: &mut P,
) -> Result<Verdict, OutOfMemory>
    ensures due { IfOk result (λ verdict. IsDue (map string_bytes words.now)
        (files_change F.Files files.old files.new)
        (spawner_state P.Spawner spawner.old) (spawner_state P.Spawner spawner.new)
        (verdict_shape verdict)) }
    ensures undue { IfErr result (λ _. IsUndueLaunch (map string_bytes words.now)
        (files_change F.Files files.old files.new)
        (spawner_state P.Spawner spawner.old) (spawner_state P.Spawner spawner.new)) }
    ensures loads { F.loads files.new ≤ F.loads files.old + 1 }
    ensures kept { AreKept (files_change F.Files files.old files.new) }
{
    let Some(run) = run_of(words) else {
        return Verdict::usage(alloc, FORMS);
    };
    match hosts_of(alloc, run.hosts, files) {
        Ok(hosts) => launched(alloc, &run, &hosts, spawner),
        Err(stop) => verdict_at(stop),
    }
}

/// What is due where a run goes no further.
fn verdict_at(stop: Stop) -> Result<Verdict, OutOfMemory>
    ensures { MatchResult result (λ verdict. stop ≡ stops.Due verdict) (λ _. stop ≡ stops.OutOfMemory) }
{
    match stop {
        Stop::Due(verdict) => Ok(verdict),
        Stop::OutOfMemory => Err(OutOfMemory),
    }
}

/// What the words ask for, where they have the form.
fn run_of(words: &[String]) -> Option<Run<'_>>
    ensures some { IfSome result (λ run. AreRunWords (map string_bytes words.now) (run_words run)) }
    ensures none { IfNone result ((run : RunWords) → AreRunWords (map string_bytes words.now) run → ⊥) }
{
    let [program, hosts, start, turns] = words else {
        return None;
    };
    step_count(turns.as_str())?;
    Some(Run {
        program: program.as_str(),
        hosts: hosts.as_str(),
        start: start.as_str(),
        turns: turns.as_str(),
    })
}

/// The hosts of a host file of this name.
fn hosts_of<F: Files>(alloc: Global, name: &str, files: &mut F) -> Result<Hosts, Stop>
    ensures hosts { EndsAs (λ hosts. hosts) (HostsOf name.now (files_change F.Files files.old files.new)) result }
    ensures loads { F.loads files.new ≤ F.loads files.old + 1 }
    ensures kept { AreKept (files_change F.Files files.old files.new) }
{
    let asked = [Asked {
        name,
        most: HOSTS_BYTES,
    }];
    let loaded = load_all(alloc, files, &asked)?;
    let [file] = loaded.as_slice() else {
        unreachable!();
    };
    hosts_read(alloc, file)
}

/// The report of the nodes of these hosts.
fn launched<P: Spawner>(
    alloc: Global,
    run: &Run<'_>,
    hosts: &Hosts,
    spawner: &mut P,
) -> Result<Verdict, OutOfMemory>
    ensures due { IfOk result (λ verdict. LaunchesTo (run_words run.now) hosts.now
        (spawner_state P.Spawner spawner.old) (spawner_state P.Spawner spawner.new) (verdict_shape verdict)) }
    ensures undue { IfErr result (λ _. IsUnlaunched (run_words run.now) hosts.now
        (spawner_state P.Spawner spawner.old) (spawner_state P.Spawner spawner.new)) }
{
    let words = all_words(alloc, run, hosts)?;
    let ends = launch(alloc, spawner, NODE, &words)?;
    let text = report_text(alloc, hosts.hosts(), &ends)?;
    Ok(Verdict::Print {
        status: status_of(&ends),
        text,
    })
}
