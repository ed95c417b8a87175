//! The top call, from words and files to a status and what is put out.

ghost use Rattle.std.specs.Prelude.{◌≡◌, ◌<◌, ◌≤◌, ◌+◌, ◌⊎◌, ℕ, List, length, map, string_bytes};
ghost use Rattle.std.specs.Prelude.{Option, Some};
ghost use Rattle.js_base.specs.Counts.{last_count};
ghost use Rattle.js_base.specs.declared.status.Status.{Status};
ghost use Rattle.front_end.specs.Answers.{sink_change};
ghost use Rattle.front_end.specs.Loads.{AreKept, files_change};
ghost use Rattle.front_end.specs.Verdicts.{Print};
ghost use Rattle.jifpicture.specs.Answers.{AnswersTo};
ghost use Rattle.jifpicture.specs.Due.{Due};

use crate::due::due_verdict;
use crate::laws::picture_laws;
use front_end::answer;
use js_base::{Files, Sink, Status};
use std::alloc::Global;

/// The program's name, which stands in front of its lines on the error output.
const PROGRAM: &str = "jifpicture";

/// The line that says that memory ran out.
const NO_MEMORY: &str = "jifpicture: no memory\n";

/// Runs `jifpicture` on the words after its name, which are the names of a program and a host file, for the picture of
/// the plan, or of a program, a host file and a script, for the chart of the run.
///
/// It answers `Done` where the picture or the chart was put on `out`. Any other answer is a refusal or a fault, and but
/// for `Usage` each comes where `jifsplit check` of the same files, or with a script `jifsplit replay` of them, would
/// answer it, with the same words on `err`:
/// - `Usage`: the words are neither two nor three.
/// - `SourceRefused`: the program is refused for its text, its names or its labels; or no host may hold some part of
///   it.
/// - `InputRefused`: a file is absent, the host file is refused, or the script is too long, or a line of it has no form
///   or asks for what cannot happen.
/// - `FileFault`: a file could not be read.
/// - `OutFault`: what was due could not all be put out.
/// - `NoMemory`: memory ran out.
///
/// Files are loaded in the order of the words, and after the first that is absent or could not be read none is loaded.
/// Where memory runs out, a front of what was due may have been put, and the line `jifpicture: no memory` follows on
/// `err` where it can.
pub fn jifpicture<F: Files, S: Sink, E: Sink>(
    alloc: Global,
    words: &[String],
    files: &mut F,
    out: &mut S,
    err: &mut E,
) -> Status
    // What is answered and put out is what is due.
    ensures answer { AnswersTo (map string_bytes words.now)
        (files_change F.Files files.old files.new)
        result
        (sink_change S.Sink out.old out.new)
        (sink_change E.Sink err.old err.new) }
    // Where a picture or a chart is due for what the files hold, and neither they nor the output count a fault, the
    // answer is its status, or memory ran out.
    ensures complete { (holds : List ℕ → Option (List ℕ)) (number : ℕ) (status : Status) (text : List ℕ) →
        F.held files.old ≡ Some holds → Due (map string_bytes words.now) (Some holds) number (Print status text) →
        F.faults files.new ≡ F.faults files.old → F.faults files.old < last_count →
        S.faults out.new ≡ S.faults out.old → S.faults out.old < last_count →
        (result ≡ status) ⊎ (result ≡ Status.NoMemory) }
    // Whatever it answers, it asks for no more loads than there are words, saves nothing, and leaves what is held.
    ensures loads { F.loads files.new ≤ F.loads files.old + length words.now }
    ensures kept { AreKept (files_change F.Files files.old files.new) }
{
    picture_laws();
    let found = due_verdict(alloc, words, files);
    answer(alloc, PROGRAM, NO_MEMORY, found, out, err)
}
