//! The top calls: a node from its words and files to its end.

ghost use Rattle.std.specs.Prelude.{◌≡◌, ◌≤◌, ◌+◌, length, map, string_bytes};
ghost use Rattle.front_end.specs.Loads.{AreKept, files_change};
ghost use Rattle.node_engine.specs.Nodes.{IsComplete, IsEndOf, NodeAnswer, NodeAnswers, OptionsAnswer, end_shape};
ghost use Rattle.node_engine.specs.Nodes.{files_of};
ghost use Rattle.node_engine.specs.Options.{Asked, IsAsked, asked_shape};
ghost use Rattle.node_engine.specs.Told.{Faults, Reaches, node_change, outside};

use crate::node_end::NodeEnd;
use crate::node_files::node_for;
use crate::options::{OptionError, Options, option_laws, read_options};
use crate::running::run_node;
use crate::start_laws::node_laws;
use front_end::{Stop, Verdict};
use js_base::{Files, Status};
use node_links::{Journal, Links};
use std::alloc::Global;

/// Runs `jifhost` on the words after its name: one host's part of a program, beside the nodes of the other hosts.
///
/// It answers as `serve` does once it has begun. Before that:
/// - `Usage`: the words ask for no node.
/// - `SourceRefused`: the program is refused for its text, its names or its labels; or no host may hold some part of
///   it.
/// - `InputRefused`: a file is absent; the host file, the split file, the file of starting values or that of keys is
///   refused; the host file has no host of the name; or the code is for other hosts.
/// - `FileFault`: a file could not be read.
/// - `LinkFault`, `OutFault`: links or journal could not begin.
/// - `NoMemory`: memory ran out.
///
/// Files are loaded in the order program or code, hosts, start, seals, and after the first that is absent or could not
/// be read none is loaded. Nothing is saved.
pub fn jifhost<F: Files, L: Links, R: Journal>(
    alloc: Global,
    words: &[String],
    files: &mut F,
    links: &mut L,
    journal: &mut R,
) -> Status
    // What is answered, sent and noted is what is due for the words and the files, and what serving leaves. Links and
    // journal begin once, with what the host file says, where a node is due.
    ensures answer { NodeAnswers (map string_bytes words.now) (files_change F.Files files.old files.new) result
        (node_change L.Links R.Sink R.named links.old links.new journal.old journal.new) (Reaches R.named) }
    // Where the files that the words name are accepted, and nothing outside counts a fault, it serves to an end.
    ensures complete { IsComplete (map string_bytes words.now) (files_change F.Files files.old files.new) result
        (outside L.Links R.Sink links.old journal.old) (outside L.Links R.Sink links.new journal.new) }
    ensures loads { (asked : Asked) → IsAsked (map string_bytes words.now) asked →
        F.loads files.new ≤ F.loads files.old + length (files_of asked) }
    ensures no_loads { ((asked : Asked) → ¬ IsAsked (map string_bytes words.now) asked) →
        F.loads files.new ≡ F.loads files.old }
    ensures kept { AreKept (files_change F.Files files.old files.new) }
    // A fault of links or journal was counted where it is answered, and no other.
    ensures faults { Faults result (outside L.Links R.Sink links.old journal.old)
        (outside L.Links R.Sink links.new journal.new) }
{
    run_jifhost(alloc, words, files, links, journal).status
}

/// Runs `jifhost`, and also says why the files are refused, where they are. The words of a refusal name no program.
pub fn run_jifhost<F: Files, L: Links, R: Journal>(
    alloc: Global,
    words: &[String],
    files: &mut F,
    links: &mut L,
    journal: &mut R,
) -> NodeEnd
    ensures answer { NodeAnswer (map string_bytes words.now) (files_change F.Files files.old files.new)
        (end_shape result)
        (node_change L.Links R.Sink R.named links.old links.new journal.old journal.new) (Reaches R.named) }
    ensures complete { IsComplete (map string_bytes words.now) (files_change F.Files files.old files.new)
        result.status (outside L.Links R.Sink links.old journal.old) (outside L.Links R.Sink links.new journal.new) }
    ensures loads { (asked : Asked) → IsAsked (map string_bytes words.now) asked →
        F.loads files.new ≤ F.loads files.old + length (files_of asked) }
    ensures no_loads { ((asked : Asked) → ¬ IsAsked (map string_bytes words.now) asked) →
        F.loads files.new ≡ F.loads files.old }
    ensures kept { AreKept (files_change F.Files files.old files.new) }
    ensures faults { Faults result.status (outside L.Links R.Sink links.old journal.old)
        (outside L.Links R.Sink links.new journal.new) }
{
    node_laws();
    option_laws();
    answered(alloc, words, files, links, journal)
}

/// The answer for the words.
fn answered<F: Files, L: Links, R: Journal>(
    alloc: Global,
    words: &[String],
    files: &mut F,
    links: &mut L,
    journal: &mut R,
) -> NodeEnd
    ensures answer { NodeAnswer (map string_bytes words.now) (files_change F.Files files.old files.new)
        (end_shape result)
        (node_change L.Links R.Sink R.named links.old links.new journal.old journal.new) (Reaches R.named) }
    ensures loads { (asked : Asked) → IsAsked (map string_bytes words.now) asked →
        F.loads files.new ≤ F.loads files.old + length (files_of asked) }
    ensures no_loads { ((asked : Asked) → ¬ IsAsked (map string_bytes words.now) asked) →
        F.loads files.new ≡ F.loads files.old }
    ensures kept { AreKept (files_change F.Files files.old files.new) }
    ensures faults { Faults result.status (outside L.Links R.Sink links.old journal.old)
        (outside L.Links R.Sink links.new journal.new) }
{
    match read_options(alloc, words) {
        Ok(options) => asked(alloc, &options, files, links, journal),
        Err(OptionError::Usage) => NodeEnd {
            status: Status::Usage,
            refusal: None,
        },
        Err(OptionError::OutOfMemory) => NodeEnd {
            status: Status::NoMemory,
            refusal: None,
        },
    }
}

/// The node that was asked for.
fn asked<F: Files, L: Links, R: Journal>(
    alloc: Global,
    options: &Options<'_>,
    files: &mut F,
    links: &mut L,
    journal: &mut R,
) -> NodeEnd
    ensures answer { OptionsAnswer (asked_shape options.now) (files_change F.Files files.old files.new)
        (end_shape result)
        (node_change L.Links R.Sink R.named links.old links.new journal.old journal.new) (Reaches R.named) }
    ensures loads { F.loads files.new ≤ F.loads files.old + length (files_of (asked_shape options.now)) }
    ensures kept { AreKept (files_change F.Files files.old files.new) }
    ensures faults { Faults result.status (outside L.Links R.Sink links.old journal.old)
        (outside L.Links R.Sink links.new journal.new) }
{
    match node_for(alloc, options, files) {
        Ok(node) => NodeEnd {
            status: run_node(alloc, node, options.turns, links, journal),
            refusal: None,
        },
        Err(stop) => node_end(stop),
    }
}

/// The end of a node that goes no further.
fn node_end(stop: Stop) -> NodeEnd
    ensures { IsEndOf stop (end_shape result) }
{
    match stop {
        Stop::OutOfMemory => NodeEnd {
            status: Status::NoMemory,
            refusal: None,
        },
        Stop::Due(Verdict::Refuse(refusal)) => NodeEnd {
            status: refusal.status(),
            refusal: Some(refusal),
        },
        // A node prints nothing, so no report is due.
        Stop::Due(Verdict::Print { .. }) => NodeEnd {
            status: Status::InputRefused,
            refusal: None,
        },
    }
}
