//! How the token of a method goes from host to host.

ghost use Rattle.std.specs.Prelude.{◌≡◌, ◌+◌, ◌<◌, ◌≤◌, ◌∷◌, ◌↔◌, IsTrue, List, drop, length};
ghost use Rattle.js_base.specs.declared.ids.StmtId.{StmtId};
ghost use Rattle.jif_tree.specs.LabelRules.{method_at};
ghost use Rattle.jif_tree.specs.Trees.{block_tree, program_tree};
ghost use Rattle.msg_cost.specs.Moves.{link_cost, host_behind, return_host, entered, next_spot, block_end};
ghost use Rattle.msg_cost.specs.Moves.{called_home};
ghost use Rattle.msg_cost.specs.Tables.{IsRight};
ghost use Rattle.msg_cost.specs.Views.{seated_shape, ids_of};

use crate::messages::link_cost;
use crate::seated::Seated;
use crate::spot::Spot;
use crate::trust::{Trust, is_trusted_from};
use jif_tree::Stmt;
use js_base::limits::HOSTS;
use js_base::{HostId, MethodId};

/// The host of the first statement behind the segment on this host with which the statements begin.
fn host_behind(planned: &Seated<'_>, host: HostId, statements: &[Stmt]) -> Option<HostId>
    ensures { result ≡ host_behind (seated_shape planned.now) host (ids_of statements.now) }
{
    for statement in statements {
        let other = planned.host_of(statement.id);
        if other.0 != host.0 {
            return Some(other);
        }
    }
    None
}

/// Whether the way from a host over the next one to another is shorter than the way straight to it.
fn is_shorter(planned: &Seated<'_>, host: HostId, next: HostId, from: HostId) -> bool
    ensures { IsTrue result ↔ (link_cost planned.now.hosts.now next from + link_cost planned.now.hosts.now host next
        < link_cost planned.now.hosts.now host from) }
{
    let hosts = planned.hosts;
    let over = u64::from(link_cost(hosts, next, from)) + u64::from(link_cost(hosts, host, next));
    over < u64::from(link_cost(hosts, host, from))
}

/// The host that gets the token back of the segment on a host that begins at a place of a block.
fn return_host(
    planned: &Seated<'_>,
    from: HostId,
    host: HostId,
    block: &[Stmt],
    place: usize,
    trust: &mut Trust<'_>,
) -> HostId
    requires here { place ≤ length block.now }
    requires right { IsRight (seated_shape planned.now) block.now place trust.old }
    ensures result { result ≡ return_host (seated_shape planned.now) from host (ids_of (drop place block.now)) }
    ensures right { IsRight (seated_shape planned.now) block.now place trust.new }
{
    let Some(next) = host_behind(planned, host, &block[place..]) else {
        return from;
    };
    let trusted = is_trusted_from(planned, next, block, place, trust);
    if trusted && is_shorter(planned, host, next, from) {
        next
    } else {
        from
    }
}

/// Where the statements of a block from a place on begin, which stand on a host, behind one that held the token.
fn entered(
    planned: &Seated<'_>,
    from: HostId,
    host: HostId,
    block: &[Stmt],
    place: usize,
    trust: &mut Trust<'_>,
) -> Spot
    requires here { place ≤ length block.now }
    requires right { IsRight (seated_shape planned.now) block.now place trust.old }
    ensures result { result ≡ entered (seated_shape planned.now) from host (ids_of (drop place block.now)) }
    ensures right { IsRight (seated_shape planned.now) block.now place trust.new }
{
    if from.0 == host.0 {
        return Spot::on(host);
    }
    if is_trusted_from(planned, host, block, place, trust) {
        return Spot::on(host);
    }
    let back = return_host(planned, from, host, block, place, trust);
    Spot {
        host,
        back: Some(back),
    }
}

/// Where the statement at a place of a block runs.
#[tactic(auto, using(crate::proofs::Between::right_on))]
pub fn next_spot(
    planned: &Seated<'_>,
    spot: Spot,
    block: &[Stmt],
    place: usize,
    trust: &mut Trust<'_>,
) -> Spot
    requires here { place < length block.now }
    requires right { IsRight (seated_shape planned.now) block.now place trust.old }
    ensures result { (statement : StmtId) (others : List StmtId) →
        ids_of (drop place block.now) ≡ statement ∷ others →
        result ≡ next_spot (seated_shape planned.now) spot statement others }
    ensures right { IsRight (seated_shape planned.now) block.now (place + 1) trust.new }
{
    let host = planned.host_of(block[place].id);
    if spot.host.0 == host.0 {
        spot
    } else {
        entered(planned, spot.end(), host, block, place, trust)
    }
}

/// The host that holds the token behind a block that begins on this host.
pub fn block_end(planned: &Seated<'_>, home: HostId, block: &[Stmt]) -> HostId
    ensures { result ≡ block_end (seated_shape planned.now) home (block_tree block.now) }
{
    let mut spot = Spot::on(home);
    let mut trust = Trust::Noted([0; HOSTS]);
    for place in 0..block.len() {
        spot = next_spot(planned, spot, block, place, &mut trust);
    }
    spot.end()
}

/// The home of a method: the host of its head.
pub fn called_home(planned: &Seated<'_>, method: MethodId) -> HostId
    ensures { result
        ≡ called_home (seated_shape planned.now) (method_at (program_tree planned.now.program.now) method) }
{
    match planned.program.methods.get(method.0 as usize) {
        Some(called) => planned.host_of(called.head),
        None => HostId(0),
    }
}
