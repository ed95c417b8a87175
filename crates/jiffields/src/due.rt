//! What is due for the words: from files to the fields of a host, or to a refusal.

ghost use Rattle.std.specs.Prelude.{◌≡◌, ◌<◌, ◌≤◌, ◌+◌, ℕ, List, length, map, string_bytes, IfOk};
ghost use Rattle.js_base.specs.declared.limits.TheConstants.{HOSTS_BYTES, SCRIPT_BYTES};
ghost use Rattle.host_core.specs.declared.host.TheConstants.{MOST_CALLS};
ghost use Rattle.journal_laws.specs.Plays.{HaveOwnNames};
ghost use Rattle.node_starts.specs.NodeSources.{IsStarted, NodeSources, node_source, node_start};
ghost use Rattle.node_starts.specs.SourceNames.{most_of, name_of, source_name};
ghost use Rattle.record_merge.specs.JournalLines.{said_line};
ghost use Rattle.record_merge.specs.declared.lines.TheConstants.{JOURNAL_BYTES};
ghost use Rattle.front_end.specs.Loading.{EndsAs, EndsIn, IsLoaded, StopsWith};
ghost use Rattle.front_end.specs.Loads.{AreKept, files_change};
ghost use Rattle.front_end.specs.Verdicts.{verdict_shape};
ghost use Rattle.jiffields.specs.Due.{DueForBytes, DueForNode, FieldsHostFound, IsDue, IsDueForAsked};
ghost use Rattle.jiffields.specs.Runs.{DueForLines, no_run};
ghost use Rattle.jiffields.specs.Words.{asked_shape};

use crate::fields::fields_text;
use crate::lines::lines_read;
use crate::names::names_read;
use crate::words::{Asked, asked_for};
use event_text::Line;
use front_end::{Asked as File, Loaded, Refusal, Stop, Verdict, load_all};
use journal_player::{PlayError, play};
use js_base::limits::{HOSTS_BYTES, SCRIPT_BYTES};
use js_base::{Files, OutOfMemory, Status};
use node_starts::{
    NodeSource, NodeStart, SourceWord, code_source, copies, of_host, program_source, source_file,
};
use record_merge::JOURNAL_BYTES;
use std::alloc::{AllocError, Global};

/// The two forms of the words.
const FORMS: &str = "CODE HOSTS HOST START JOURNAL / --program P HOSTS HOST START JOURNAL";

/// What is due for the words.
pub fn due_verdict<F: Files>(
    alloc: Global,
    words: &[String],
    files: &mut F,
) -> Result<Verdict, OutOfMemory>
    ensures due { IfOk result (λ verdict. IsDue (map string_bytes words.now)
        (files_change F.Files files.old files.new)
        (verdict_shape verdict)) }
    ensures loads { F.loads files.new ≤ F.loads files.old + length words.now }
    ensures kept { AreKept (files_change F.Files files.old files.new) }
{
    match asked_for(words) {
        Some(asked) => verdict_for_asked(alloc, &asked, files),
        None => Verdict::usage(alloc, FORMS),
    }
}

/// What is due for what is asked for.
fn verdict_for_asked<F: Files>(
    alloc: Global,
    asked: &Asked<'_>,
    files: &mut F,
) -> Result<Verdict, OutOfMemory>
    ensures due { IfOk result (λ verdict. IsDueForAsked (asked_shape asked.now)
        (files_change F.Files files.old files.new)
        (verdict_shape verdict)) }
    ensures loads { F.loads files.new ≤ F.loads files.old + 4 }
    ensures kept { AreKept (files_change F.Files files.old files.new) }
{
    match verdict_or_stop(alloc, asked, files) {
        Ok(verdict) => Ok(verdict),
        Err(Stop::Due(verdict)) => Ok(verdict),
        Err(Stop::OutOfMemory) => Err(OutOfMemory),
    }
}

/// How what is asked for ends: what is due for it, whether it stops early or not.
fn verdict_or_stop<F: Files>(
    alloc: Global,
    asked: &Asked<'_>,
    files: &mut F,
) -> Result<Verdict, Stop>
    ensures due { EndsIn (IsDueForAsked (asked_shape asked.now) (files_change F.Files files.old files.new)) result }
    ensures loads { F.loads files.new ≤ F.loads files.old + 4 }
    ensures kept { AreKept (files_change F.Files files.old files.new) }
{
    let names = [
        source_file(asked.source),
        file_of(asked.hosts, HOSTS_BYTES),
        file_of(asked.start, SCRIPT_BYTES),
        file_of(asked.journal, JOURNAL_BYTES),
    ];
    let loaded = load_all(alloc, files, &names)?;
    let [source, hosts, start, journal] = loaded.as_slice() else {
        unreachable!();
    };
    verdict_for_loaded(alloc, asked, source, hosts, start, journal)
}

/// A file of this name, of which so many bytes are read.
fn file_of(name: &str, most: usize) -> File<'_>
    ensures name { result.name.now ≡ name.now }
    ensures most { result.most ≡ most }
{
    File { name, most }
}

/// What is due for files that were loaded.
fn verdict_for_loaded(
    alloc: Global,
    asked: &Asked<'_>,
    source: &Loaded,
    hosts: &Loaded,
    start: &Loaded,
    journal: &Loaded,
) -> Result<Verdict, Stop>
    ensures { (c h s j : List ℕ) → IsLoaded (most_of (source_name asked.now.source)) c source.now →
        IsLoaded HOSTS_BYTES h hosts.now → IsLoaded SCRIPT_BYTES s start.now → IsLoaded JOURNAL_BYTES j journal.now →
        EndsIn (DueForBytes (asked_shape asked.now) c h s j) result }
{
    let node = host_of_loaded(alloc, asked, source, hosts, start)?;
    verdict_for_node(alloc, asked, &node, journal)
}

/// The node of files that were loaded.
fn host_of_loaded(
    alloc: Global,
    asked: &Asked<'_>,
    source: &Loaded,
    hosts: &Loaded,
    start: &Loaded,
) -> Result<NodeStart, Stop>
    ensures due { (c h s : List ℕ) → IsLoaded (most_of (source_name asked.now.source)) c source.now →
        IsLoaded HOSTS_BYTES h hosts.now → IsLoaded SCRIPT_BYTES s start.now →
        EndsAs node_start (FieldsHostFound (asked_shape asked.now) c h s) result }
    ensures started { IfOk result IsStarted }
{
    let source = source_of_loaded(alloc, asked, source, hosts, start)?;
    let code = name_of(asked.source);
    of_host(alloc, source, asked.host, code, asked.hosts)
}

/// What the node begins with, of files that were loaded.
fn source_of_loaded(
    alloc: Global,
    asked: &Asked<'_>,
    source: &Loaded,
    hosts: &Loaded,
    start: &Loaded,
) -> Result<NodeSource, Stop>
    ensures { (c h s : List ℕ) → IsLoaded (most_of (source_name asked.now.source)) c source.now →
        IsLoaded HOSTS_BYTES h hosts.now → IsLoaded SCRIPT_BYTES s start.now →
        EndsAs node_source (NodeSources (source_name asked.now.source) c h asked.now.start.now s) result }
{
    match asked.source {
        SourceWord::Program(_) => program_source(alloc, asked.start, source, hosts, start),
        SourceWord::Code(name) => { code_source(alloc, name, asked.start, source, hosts, start) }
    }
}

/// The name of the file that the code comes from.
fn name_of(source: SourceWord<'_>) -> &str
    ensures { result.now ≡ name_of (source_name source.entry) }
{
    match source {
        SourceWord::Program(name) => name,
        SourceWord::Code(name) => name,
    }
}

/// What is due for a node and its journal that was loaded.
fn verdict_for_node(
    alloc: Global,
    asked: &Asked<'_>,
    node: &NodeStart,
    journal: &Loaded,
) -> Result<Verdict, Stop>
    requires { IsStarted node.now }
    ensures { (j : List ℕ) → IsLoaded JOURNAL_BYTES j journal.now →
        EndsIn (DueForNode (asked_shape asked.now) j (node_start node.now)) result }
{
    let code = &node.source.code;
    names_read(alloc, name_of(asked.source), code, &node.source.hosts)?;
    let lines = lines_read(alloc, asked.journal, code, journal)?;
    verdict_for_lines(alloc, asked.journal, asked.host, node, &lines)
}

/// What is due for the lines of the journal of this name, of the host of this name.
fn verdict_for_lines(
    alloc: Global,
    file: &str,
    host: &str,
    node: &NodeStart,
    lines: &[Line<'_>],
) -> Result<Verdict, Stop>
    requires started { IsStarted node.now }
    requires own { HaveOwnNames node.now.source.code }
    requires few { length lines.now < MOST_CALLS }
    ensures { EndsIn (DueForLines file.now host.now (node_start node.now) (map said_line lines.now)) result }
{
    let _hosts = node.source.code.hosts();
    match play(alloc, &node.source.code, node.me, &node.source.store, lines) {
        Ok(shown) => {
            let text = fields_text(alloc, &node.source.code, node.me, &shown)?;
            Ok(Verdict::Print {
                status: Status::Done,
                text,
            })
        }
        Err(PlayError::NoRun(line)) => Err(no_run(alloc, file, line, host)),
        Err(PlayError::OutOfMemory) => Err(Stop::OutOfMemory),
    }
}

/// No run of the host has this line of the file here.
fn no_run(alloc: Global, file: &str, line: u32, host: &str) -> Stop
    ensures { StopsWith (λ verdict. verdict ≡ no_run file.now line host.now) result }
{
    match copies(alloc, file, host) {
        Ok((file, host)) => Stop::Due(Verdict::Refuse(Refusal::NoRun { file, line, host })),
        Err(AllocError) => Stop::OutOfMemory,
    }
}
