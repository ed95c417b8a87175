//! Spots of walks that are known without going over the statements before them.
//!
//! A host that is trusted for all that is left of a block is handed the token, whoever held it before. So a statement
//! on such a host is at the spot of that host alone, unless the segment began where the host was not trusted yet. A
//! host that may hold its statements is trusted for each of them. Where it is not trusted for a statement, that one
//! stands elsewhere, and the segment began behind it.

ghost use Rattle.std.specs.Prelude.{◌≡◌, ◌<◌, ◌≤◌, IfSome, None, suc, length};
ghost use Rattle.msg_cost.specs.Moves.{on, end_host};
ghost use Rattle.msg_cost.specs.Tables.{IsTable};
ghost use Rattle.msg_cost.specs.Views.{seated_shape, ids_of};
ghost use Rattle.msg_cost.specs.Walks.{spot_behind, IsSettled};

use crate::seated::Seated;
use crate::spot::Spot;
use crate::table::FAR;
use crate::tokens::block_end;
use jif_tree::Stmt;
use js_base::HostId;
use js_base::limits::HOSTS;

/// A place of a block, and the spot at which a walk stands before it.
#[derive(Clone, Copy)]
pub struct Start {
    pub place: usize,
    pub spot: Spot,
}

/// The spot of the statement at a place, where it is known from the table. No walk comes there at another one.
fn settled_spot(
    planned: &Seated<'_>,
    block: &[Stmt],
    table: &[u16; HOSTS],
    place: usize,
) -> Option<Spot>
    requires place { place < length block.now }
    requires table { IsTable planned.now.needs.now planned.now.hosts.now block.now table.now }
    ensures { IfSome result (λ spot. IsSettled (seated_shape planned.now) (ids_of block.now) (suc place) spot) }
{
    let host = planned.host_of(block[place].id);
    if place >= FAR || host.0 as usize >= HOSTS {
        return None;
    }
    let since = usize::from(table[host.0 as usize]);
    if since > place {
        return None;
    }
    if since > 0 && planned.host_of(block[since - 1].id).0 == host.0 {
        return None;
    }
    Some(Spot::on(host))
}

/// The last start of a walk up to this place at which its spot is known: one behind a statement of which the table
/// tells it, or that of the block.
pub fn last_start(
    planned: &Seated<'_>,
    home: HostId,
    block: &[Stmt],
    table: &[u16; HOSTS],
    most: usize,
) -> Start
    requires most { most ≤ length block.now }
    requires table { IsTable planned.now.needs.now planned.now.hosts.now block.now table.now }
    ensures place { result.place ≤ most }
    ensures spot { result.spot ≡ spot_behind (seated_shape planned.now) (on home) (ids_of block.now) result.place }
    ensures alone { result.spot.back ≡ None }
{
    let mut place = most;
    while place > 0 {
        if let Some(spot) = settled_spot(planned, block, table, place - 1) {
            return Start { place, spot };
        }
        place -= 1;
    }
    Start {
        place: 0,
        spot: Spot::on(home),
    }
}

/// The host that holds the token behind a block that begins on a host. The statements are gone over where the table
/// does not tell it, which is for no plan that puts each statement on a host that may hold it.
pub fn walk_end(planned: &Seated<'_>, home: HostId, block: &[Stmt], table: &[u16; HOSTS]) -> HostId
    requires { IsTable planned.now.needs.now planned.now.hosts.now block.now table.now }
    ensures { result ≡ end_host (seated_shape planned.now) (on home) (ids_of block.now) }
{
    let count = block.len();
    if count > 0 {
        if let Some(spot) = settled_spot(planned, block, table, count - 1) {
            return spot.end();
        }
    }
    block_end(planned, home, block)
}
