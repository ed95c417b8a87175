//! The top call, from words and files to a status and what is put out.

ghost use Rattle.std.specs.Prelude.{◌≤◌, ◌+◌, length, map, string_bytes};
ghost use Rattle.front_end.specs.Answers.{sink_change};
ghost use Rattle.front_end.specs.Loads.{AreKept, files_change};
ghost use Rattle.jifexplain.specs.Answers.{AnswersTo};

use crate::due::due_verdict;
use crate::laws::explanation_laws;
use crate::line_laws::line_laws;
use front_end::answer;
use js_base::{Files, Sink, Status};
use std::alloc::Global;

/// The program's name, which stands in front of its lines on the error output.
const PROGRAM: &str = "jifexplain";

/// The line that says that memory ran out.
const NO_MEMORY: &str = "jifexplain: no memory\n";

/// Runs `jifexplain` on the words after its name, which are the names of a program and a host file, and a word that
/// means some parts of the program where only those are asked about.
///
/// It answers what `jifsplit check` of the same files answers. On `out` it says which hosts may not hold which parts of
/// an accepted program and why, and on `err` why a program is refused:
/// - `Done`: the program is accepted, and each part of it has a host.
/// - `Usage`: the words are neither two nor three.
/// - `SourceRefused`: the program is refused for its text, its names or its labels; or no host may hold some part of
///   it.
/// - `InputRefused`: a file is absent, or the host file is refused; or the third word means no part.
/// - `FileFault`: a file could not be read.
/// - `OutFault`: what was due could not all be put out.
/// - `NoMemory`: memory ran out.
///
/// The program is loaded first, and after the first file that is absent or could not be read none is loaded. Where
/// memory runs out, a front of what was due may have been put, and the line `jifexplain: no memory` follows on `err`
/// where it can.
pub fn jifexplain<F: Files, S: Sink, E: Sink>(
    alloc: Global,
    words: &[String],
    files: &mut F,
    out: &mut S,
    err: &mut E,
) -> Status
    // What is answered and put out is what is due.
    ensures answer { AnswersTo (map string_bytes words.now)
        (files_change F.Files files.old files.new)
        result
        (sink_change S.Sink out.old out.new)
        (sink_change E.Sink err.old err.new) }
    // Whatever it answers, it asks for no more loads than there are words, saves nothing, and leaves what is held.
    ensures loads { F.loads files.new ≤ F.loads files.old + length words.now }
    ensures kept { AreKept (files_change F.Files files.old files.new) }
{
    explanation_laws();
    line_laws();
    let found = due_verdict(alloc, words, files);
    answer(alloc, PROGRAM, NO_MEMORY, found, out, err)
}
