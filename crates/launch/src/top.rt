//! The top call, from words and files to a status and what is put out.

ghost use Rattle.std.specs.Prelude.{◌≡◌, ◌≤◌, ◌+◌, codes, map, string_bytes};
ghost use Rattle.js_base.specs.declared.status.Status.{Status};
ghost use Rattle.front_end.specs.Answers.{AnswersTo, sink_change};
ghost use Rattle.front_end.specs.Loads.{AreKept, files_change};
ghost use Rattle.launch.specs.Due.{IsDue, IsUndueLaunch};
ghost use Rattle.launch.specs.Starts.{RoseBy, spawner_state};

use crate::due::due_verdict;
use child_programs::Spawner;
use front_end::answer;
use js_base::{Files, Sink, Status};
use std::alloc::Global;

/// The program's name, which stands in front of its lines on the error output.
const PROGRAM: &str = "jifrun";

/// The line that says that memory ran out.
const NO_MEMORY: &str = "jifrun: no memory\n";

/// Runs `jifrun` on the words after its name: the names of a program, a host file and a file of starting values, and
/// how many turns each node may make. It starts `jifhost` for each host of the host file, in order, waits for each, and
/// puts a line on `out` for each that says how it ended. The host file alone is read here; the nodes read all three.
///
/// - `Done`: each node ended with 0.
/// - `ChildEnded`: some node ended with another status.
/// - `ChildFault`: some node could not be started or waited for, and the spawner counted a fault.
/// - `Usage`: the words are not four, or the last is no number of turns.
/// - `InputRefused`: the host file is absent or refused.
/// - `FileFault`: the host file could not be read.
/// - `OutFault`: the lines could not all be put out.
/// - `NoMemory`: memory ran out, here or where some node was to be started or waited for.
///
/// After the refusals nothing was started. After any answer each node that was started was waited for. It may wait, so
/// its return is not promised.
pub fn jifrun<F: Files, P: Spawner, S: Sink, E: Sink>(
    alloc: Global,
    words: &[String],
    files: &mut F,
    spawner: &mut P,
    out: &mut S,
    err: &mut E,
) -> Status
    // What is answered and put out is what is due. Where memory runs out before, nothing was launched, or all nodes
    // were.
    ensures answer { AnswersTo (codes "jifrun")
        (IsUndueLaunch (map string_bytes words.now)
        (files_change F.Files files.old files.new)
        (spawner_state P.Spawner spawner.old) (spawner_state P.Spawner spawner.new))
        (IsDue (map string_bytes words.now)
        (files_change F.Files files.old files.new)
        (spawner_state P.Spawner spawner.old) (spawner_state P.Spawner spawner.new))
        result
        (sink_change S.Sink out.old out.new)
        (sink_change E.Sink err.old err.new) }
    // Whatever it answers, each child that it started was waited for.
    ensures live { P.live spawner.new ≡ P.live spawner.old }
    // It answers that a child was not started or not waited for only where the spawner counted a fault.
    ensures child_cause { result ≡ Status.ChildFault → RoseBy 1 (P.faults spawner.old) (P.faults spawner.new) }
    // Whatever it answers, it asks for one load at most, saves nothing, and leaves what is held.
    ensures loads { F.loads files.new ≤ F.loads files.old + 1 }
    ensures kept { AreKept (files_change F.Files files.old files.new) }
{
    let found = due_verdict(alloc, words, files, spawner);
    answer(alloc, PROGRAM, NO_MEMORY, found, out, err)
}
