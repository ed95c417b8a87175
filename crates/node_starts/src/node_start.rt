//! Which host a node is.

ghost use Rattle.std.specs.Prelude.{◌≡◌, ◌≢◌, ◌<◌, ◌↔◌, ℕ, List, All, IfOk, IfSome, IfNone, IsTrue, length, map};
ghost use Rattle.host_code.specs.Code.{CodeShape};
ghost use Rattle.std.specs.String.{string_bytes};
ghost use Rattle.front_end.specs.Loading.{EndsAs, StopsWith};
ghost use Rattle.js_base.specs.declared.limits.TheConstants.{HOSTS};
ghost use Rattle.node_starts.specs.NodeSources.{IsHostNamed, IsStarted, OfHost, named_host, no_host, node_source};
ghost use Rattle.node_starts.specs.NodeSources.{node_start, other_hosts};

use crate::node_source::NodeSource;
use front_end::{Refusal, Stop, Verdict};
use host_code::{Code, CodeHost};
use host_decl::{HostRow, Hosts};
use js_base::HostId;
use js_base::limits::HOSTS;
use std::alloc::{AllocError, Global};

/// A node before it begins: what it begins with, and the number of its host.
#[derive(Drop)]
pub struct NodeStart {
    pub source: NodeSource,
    pub me: HostId,
}

/// The node of the host of this name, or what is due where there is no such host or the code is for other hosts. The
/// files of these names have the code and the hosts.
pub fn of_host(
    alloc: Global,
    source: NodeSource,
    name: &str,
    code: &str,
    hosts: &str,
) -> Result<NodeStart, Stop>
    ensures due { EndsAs node_start (OfHost name.now code.now hosts.now (node_source source)) result }
    ensures started { IfOk result IsStarted }
{
    let Some(me) = host_named(&source.hosts, name) else {
        return Err(no_host(alloc, name));
    };
    if !are_alike(source.code.hosts(), source.hosts.hosts()) {
        return Err(other_hosts(alloc, code, hosts));
    }
    Ok(NodeStart { source, me })
}

/// The host file has no host of this name.
fn no_host(alloc: Global, name: &str) -> Stop
    ensures { StopsWith (λ verdict. verdict ≡ no_host name.now) result }
{
    match String::from_str(alloc, name) {
        Ok(name) => Stop::Due(Verdict::Refuse(Refusal::NoHost { name })),
        Err(AllocError) => Stop::OutOfMemory,
    }
}

/// The code of a file is for other hosts than a host file has.
fn other_hosts(alloc: Global, code: &str, hosts: &str) -> Stop
    ensures { StopsWith (λ verdict. verdict ≡ other_hosts code.now hosts.now) result }
{
    match copies(alloc, code, hosts) {
        Ok((code, hosts)) => Stop::Due(Verdict::Refuse(Refusal::OtherHosts { code, hosts })),
        Err(AllocError) => Stop::OutOfMemory,
    }
}

/// Two texts again.
pub fn copies(alloc: Global, one: &str, other: &str) -> Result<(String, String), AllocError>
    ensures { IfOk result (λ both. (string_bytes both.0 ≡ one.now) × (string_bytes both.1 ≡ other.now)) }
{
    let first = String::from_str(alloc, one)?;
    let second = String::from_str(alloc, other)?;
    Ok((first, second))
}

/// The number of the host of a name.
fn host_named(hosts: &Hosts, name: &str) -> Option<HostId>
    ensures found { IfSome result (IsHostNamed hosts.now name.now) }
    ensures none { IfNone result (All (λ row. row.name ≢ name.now) hosts.now.hosts) }
{
    let rows = hosts.hosts();
    let few = rows.len() <= HOSTS;
    prove!(few);
    for (number, row) in rows.iter().enumerate() {
        if row.name() == name {
            return Some(HostId(number as u8));
        }
    }
    None
}

/// Whether the hosts of a code have the names and labels of the rows of a host file.
fn are_alike(hosts: &[CodeHost], rows: &[HostRow]) -> bool
    ensures { IsTrue result ↔ (map named_host rows.now ≡ hosts.now) }
{
    if hosts.len() != rows.len() {
        return false;
    }
    for place in 0..hosts.len() {
        if !is_alike(&hosts[place], &rows[place]) {
            return false;
        }
    }
    true
}

/// Whether a host of a code has the name and the label of a row.
fn is_alike(host: &CodeHost, row: &HostRow) -> bool
    ensures { IsTrue result ↔ (named_host row.now ≡ host.now) }
{
    host.name() == row.name() && host.label() == row.label()
}
