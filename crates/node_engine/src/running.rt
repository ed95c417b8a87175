//! A node that begins, and serves.

ghost use Rattle.std.specs.Prelude.{◌≡◌, IfErr, IfOk, OnOk, map, string_bytes};
ghost use Rattle.node_engine.specs.Beginnings.{EndsUnbegun, HasBegun};
ghost use Rattle.node_starts.specs.NodeSources.{IsStarted};
ghost use Rattle.node_engine.specs.ReadyNodes.{ready_node};
ghost use Rattle.node_engine.specs.Nodes.{RunsNode};
ghost use Rattle.node_engine.specs.Statuses.{status_in, status_of};
ghost use Rattle.node_engine.specs.Told.{Faults, Reaches, node_change, outside};

use crate::node_error::NodeError;
use crate::node_files::ReadyNode;
use crate::serving::serve;
use host_core::Host;
use host_decl::HostRow;
use js_base::{HostId, OutOfMemory, PutError, Status};
use node_links::{Journal, LinkError, Links};
use std::alloc::Global;

/// Runs a node, for so many turns at most.
pub fn run_node<L: Links, R: Journal>(
    alloc: Global,
    node: ReadyNode,
    turns: u64,
    links: &mut L,
    journal: &mut R,
) -> Status
    requires { IsStarted node.start }
    ensures runs { RunsNode turns (ready_node node) result
        (node_change L.Links R.Sink R.named links.old links.new journal.old journal.new) (Reaches R.named) }
    ensures faults { Faults result (outside L.Links R.Sink links.old journal.old)
        (outside L.Links R.Sink links.new journal.new) }
{
    let ReadyNode { start, mut seals } = node;
    let source = &start.source;
    let rows = source.hosts.hosts();
    let row = &rows[start.me.0 as usize];
    let Ok(mut host) = Host::start(alloc, &source.code, start.me, *row.key(), &source.store) else {
        return Status::NoMemory;
    };
    match begin(alloc, start.me, rows, row.name(), links, journal) {
        Ok(()) => serve(
            alloc,
            &mut host,
            &source.code,
            start.me,
            links,
            journal,
            &mut seals,
            turns,
        ),
        Err(error) => error.status(),
    }
}

/// Links begin, and then the journal.
fn begin<L: Links, R: Journal>(
    alloc: Global,
    me: HostId,
    rows: &[HostRow],
    name: &str,
    links: &mut L,
    journal: &mut R,
) -> Result<(), NodeError>
    ensures ok { OnOk result (HasBegun
        (record { me = me; paths = map (λ row. row.path) rows.now; name = name.now })
        (node_change L.Links R.Sink R.named links.old links.new journal.old journal.new)) }
    ensures err { IfErr result (λ error. EndsUnbegun
        (record { me = me; paths = map (λ row. row.path) rows.now; name = name.now }) (status_of error)
        (node_change L.Links R.Sink R.named links.old links.new journal.old journal.new)) }
    ensures faults { Faults (status_in result) (outside L.Links R.Sink links.old journal.old)
        (outside L.Links R.Sink links.new journal.new) }
{
    let paths = paths(alloc, rows)?;
    match links.begin(alloc, me, &paths) {
        Ok(()) => {}
        Err(LinkError::OutOfMemory) => return Err(NodeError::OutOfMemory),
        Err(LinkError::Failed) => return Err(NodeError::LinkFault),
    }
    match journal.begin(alloc, name) {
        Ok(()) => Ok(()),
        Err(PutError::OutOfMemory) => Err(NodeError::OutOfMemory),
        Err(PutError::Failed) => Err(NodeError::OutFault),
    }
}

/// The paths of the sockets of all hosts.
fn paths(alloc: Global, rows: &[HostRow]) -> Result<Vec<String>, OutOfMemory>
    ensures { IfOk result (λ paths. map string_bytes paths.items ≡ map (λ row. row.path) rows.now) }
{
    let mut paths = Vec::new(alloc);
    for row in rows {
        paths.push(String::from_str(alloc, row.path())?)?;
    }
    Ok(paths)
}
