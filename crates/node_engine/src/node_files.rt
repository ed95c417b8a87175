//! The files of a node, and what they give.

ghost use Rattle.std.specs.Prelude.{◌≡◌, ◌≤◌, ◌+◌, ℕ, List, [], None, Some, Err, IfOk, length};
ghost use Rattle.js_base.specs.declared.limits.TheConstants.{HOSTS_BYTES, SCRIPT_BYTES};
ghost use Rattle.front_end.specs.Loading.{EndsAs, IsLoaded, StopsWith};
ghost use Rattle.front_end.specs.Loads.{AreKept, files_change};
ghost use Rattle.front_end.specs.Stages.{Then, stopped};
ghost use Rattle.node_engine.specs.ReadyNodes.{HostFound};
ghost use Rattle.node_starts.specs.NodeSources.{IsStarted, NodeSources, NodeStart as SourcedNode};
ghost use Rattle.node_engine.specs.ReadyNodes.{NodeStarts, Sealed, SealedBy, no_key};
ghost use Rattle.node_starts.specs.NodeSources.{node_source, node_start};
ghost use Rattle.node_engine.specs.ReadyNodes.{ready_node};
ghost use Rattle.node_engine.specs.Nodes.{IsNodeDue, files_of};
ghost use Rattle.node_starts.specs.SourceNames.{most_of};
ghost use Rattle.node_engine.specs.Options.{asked_shape};
ghost use Rattle.node_starts.specs.SourceNames.{name_of, source_name};

use crate::options::Options;
use front_end::{
    Asked as File, LineCause, Loaded, Refusal, Stop, Verdict, host_file, load_all, script_file,
    stopped,
};
use host_code::{Code, host_name};
use js_base::Files;
use js_base::limits::{PROGRAM_BYTES, SPLIT_FILE_BYTES};
use node_seals::{SEALS_BYTES, Seals, SealsError};
use node_starts::{
    NodeSource, NodeStart, SourceWord, code_source, copies, of_host, part_checked, program_source,
    source_file,
};
use std::alloc::{AllocError, Global};

/// A node that is ready to run: what it is, and its seals.
#[derive(Drop)]
pub struct ReadyNode {
    pub start: NodeStart,
    pub seals: Seals,
}

/// A file of keys that was loaded, with its name.
#[derive(Clone, Copy)]
struct LoadedKeys<'a> {
    name: &'a str,
    loaded: &'a Loaded,
}

/// The node that options ask for, before it begins.
pub fn node_for<F: Files>(
    alloc: Global,
    options: &Options<'_>,
    files: &mut F,
) -> Result<ReadyNode, Stop>
    ensures due { EndsAs ready_node (IsNodeDue (asked_shape options.now) (files_change F.Files files.old files.new))
        result }
    ensures started { IfOk result (λ node. IsStarted node.start) }
    ensures loads { F.loads files.new ≤ F.loads files.old + length (files_of (asked_shape options.now)) }
    ensures kept { AreKept (files_change F.Files files.old files.new) }
{
    match options.seals {
        None => plain_node(alloc, options, files),
        Some(name) => sealed_node(alloc, options, name, files),
    }
}

/// The node that options ask for with no file of keys.
fn plain_node<F: Files>(
    alloc: Global,
    options: &Options<'_>,
    files: &mut F,
) -> Result<ReadyNode, Stop>
    requires { (asked_shape options.now).seals ≡ None }
    ensures due { EndsAs ready_node (IsNodeDue (asked_shape options.now) (files_change F.Files files.old files.new))
        result }
    ensures started { IfOk result (λ node. IsStarted node.start) }
    ensures loads { F.loads files.new ≤ F.loads files.old + 3 }
    ensures kept { AreKept (files_change F.Files files.old files.new) }
{
    let asked = [
        source_file(options.source),
        host_file(options.hosts),
        script_file(options.start),
    ];
    let loaded = load_all(alloc, files, &asked)?;
    let [source, hosts, start] = loaded.as_slice() else {
        unreachable!();
    };
    plain_of_loaded(alloc, options, source, hosts, start)
}

/// The node that options ask for with a file of keys of this name.
fn sealed_node<F: Files>(
    alloc: Global,
    options: &Options<'_>,
    name: &str,
    files: &mut F,
) -> Result<ReadyNode, Stop>
    requires { (asked_shape options.now).seals ≡ Some name.now }
    ensures due { EndsAs ready_node (IsNodeDue (asked_shape options.now) (files_change F.Files files.old files.new))
        result }
    ensures started { IfOk result (λ node. IsStarted node.start) }
    ensures loads { F.loads files.new ≤ F.loads files.old + 4 }
    ensures kept { AreKept (files_change F.Files files.old files.new) }
{
    let asked = [
        source_file(options.source),
        host_file(options.hosts),
        script_file(options.start),
        key_file(name),
    ];
    let loaded = load_all(alloc, files, &asked)?;
    let [source, hosts, start, keys] = loaded.as_slice() else {
        unreachable!();
    };
    let keys = LoadedKeys { name, loaded: keys };
    sealed_of_loaded(alloc, options, source, hosts, start, keys)
}

/// Its name.
fn source_name(source: SourceWord<'_>) -> &str
    ensures { result.now ≡ name_of (source_name source.entry) }
{
    match source {
        SourceWord::Program(name) => name,
        SourceWord::Code(name) => name,
    }
}

/// A file of keys.
fn key_file(name: &str) -> File<'_>
    ensures name { result.name.now ≡ name.now }
    ensures most { result.most ≡ SEALS_BYTES }
{
    File {
        name,
        most: SEALS_BYTES,
    }
}

/// The node of files that were loaded, with nothing sealed.
fn plain_of_loaded(
    alloc: Global,
    options: &Options<'_>,
    source: &Loaded,
    hosts: &Loaded,
    start: &Loaded,
) -> Result<ReadyNode, Stop>
    ensures due { (c h s : List ℕ) → IsLoaded (most_of (source_name options.now.source)) c source.now →
        IsLoaded HOSTS_BYTES h hosts.now → IsLoaded SCRIPT_BYTES s start.now →
        EndsAs ready_node (Then (NodeStarts (asked_shape options.now) c h s) (Sealed None [])) result }
    ensures started { IfOk result (λ node. IsStarted node.start) }
{
    let start = node_of_loaded(alloc, options, source, hosts, start)?;
    Ok(ReadyNode {
        start,
        seals: Seals::none(),
    })
}

/// The node of files that were loaded, with the seals of a file of keys.
fn sealed_of_loaded(
    alloc: Global,
    options: &Options<'_>,
    source: &Loaded,
    hosts: &Loaded,
    start: &Loaded,
    keys: LoadedKeys<'_>,
) -> Result<ReadyNode, Stop>
    ensures due { (c h s k : List ℕ) → IsLoaded (most_of (source_name options.now.source)) c source.now →
        IsLoaded HOSTS_BYTES h hosts.now → IsLoaded SCRIPT_BYTES s start.now →
        IsLoaded SEALS_BYTES k keys.entry.loaded.now →
        EndsAs ready_node (Then (NodeStarts (asked_shape options.now) c h s) (Sealed (Some keys.entry.name.now) k))
        result }
    ensures started { IfOk result (λ node. IsStarted node.start) }
{
    let start = node_of_loaded(alloc, options, source, hosts, start)?;
    with_seals(alloc, keys.name, start, keys.loaded)
}

/// A node with the seals that a file of this name gives it.
fn with_seals(alloc: Global, name: &str, start: NodeStart, keys: &Loaded) -> Result<ReadyNode, Stop>
    requires { IsStarted start }
    ensures due { (k : List ℕ) → IsLoaded SEALS_BYTES k keys.now →
        EndsAs ready_node (Sealed (Some name.now) k (node_start start)) result }
    ensures started { IfOk result (λ node. IsStarted node.start) }
{
    let Loaded::Bytes(bytes) = keys else {
        return Err(stopped(Verdict::too_long(alloc, name)));
    };
    match Seals::read(alloc, &start.source.code, start.me, bytes) {
        Ok(seals) => Ok(ReadyNode { start, seals }),
        Err(why) => Err(no_seals(alloc, name, &start.source.code, why)),
    }
}

/// A file of this name gives the node of a code no seals.
fn no_seals(alloc: Global, name: &str, code: &Code, why: SealsError) -> Stop
    ensures { StopsWith (λ verdict. (node : SourcedNode) → node.source.code ≡ code.now →
        SealedBy name.now node (Err why) (stopped verdict)) result }
{
    match why {
        SealsError::OutOfMemory => Stop::OutOfMemory,
        SealsError::TooLong => stopped(Verdict::too_long(alloc, name)),
        SealsError::BadLine(line) => {
            stopped(Verdict::at_line(alloc, name, line, LineCause::NoForm))
        }
        SealsError::NoKey(host) => no_key(alloc, name, host_name(code, host)),
    }
}

/// A file of keys has not both for the host of this name.
fn no_key(alloc: Global, file: &str, host: &str) -> Stop
    ensures { StopsWith (λ verdict. verdict ≡ no_key file.now host.now) result }
{
    match copies(alloc, file, host) {
        Ok((file, host)) => Stop::Due(Verdict::Refuse(Refusal::NoKey { file, host })),
        Err(AllocError) => Stop::OutOfMemory,
    }
}

/// The node of files that were loaded, whose host has looked at its part.
fn node_of_loaded(
    alloc: Global,
    options: &Options<'_>,
    source: &Loaded,
    hosts: &Loaded,
    start: &Loaded,
) -> Result<NodeStart, Stop>
    ensures due { (c h s : List ℕ) → IsLoaded (most_of (source_name options.now.source)) c source.now →
        IsLoaded HOSTS_BYTES h hosts.now → IsLoaded SCRIPT_BYTES s start.now →
        EndsAs node_start (NodeStarts (asked_shape options.now) c h s) result }
    ensures started { IfOk result IsStarted }
{
    let node = host_of_loaded(alloc, options, source, hosts, start)?;
    part_checked(alloc, options.source, node)
}

/// The node of files that were loaded, before its host has looked at its part.
fn host_of_loaded(
    alloc: Global,
    options: &Options<'_>,
    source: &Loaded,
    hosts: &Loaded,
    start: &Loaded,
) -> Result<NodeStart, Stop>
    ensures due { (c h s : List ℕ) → IsLoaded (most_of (source_name options.now.source)) c source.now →
        IsLoaded HOSTS_BYTES h hosts.now → IsLoaded SCRIPT_BYTES s start.now →
        EndsAs node_start (HostFound (asked_shape options.now) c h s) result }
    ensures started { IfOk result IsStarted }
{
    let source = source_of_loaded(alloc, options, source, hosts, start)?;
    let code = source_name(options.source);
    of_host(alloc, source, options.host, code, options.hosts)
}

/// What a node begins with, of files that were loaded.
fn source_of_loaded(
    alloc: Global,
    options: &Options<'_>,
    source: &Loaded,
    hosts: &Loaded,
    start: &Loaded,
) -> Result<NodeSource, Stop>
    ensures { (c h s : List ℕ) → IsLoaded (most_of (source_name options.now.source)) c source.now →
        IsLoaded HOSTS_BYTES h hosts.now → IsLoaded SCRIPT_BYTES s start.now →
        EndsAs node_source (NodeSources (source_name options.now.source) c h options.now.start.now s) result }
{
    match options.source {
        SourceWord::Program(_) => program_source(alloc, options.start, source, hosts, start),
        SourceWord::Code(name) => { code_source(alloc, name, options.start, source, hosts, start) }
    }
}
