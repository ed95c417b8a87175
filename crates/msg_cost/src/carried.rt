//! What a moved statement touches of what others give, and where a value rides that is given at a place of a block.

ghost use Rattle.std.specs.Prelude.{◌≡◌, ◌≢◌, ◌≤◌, ◌↔◌, ◌||◌, false, IsTrue, length, nat_eq};
ghost use Rattle.std.specs.List.{list_any};
ghost use Rattle.msg_cost.specs.Kept.{is_trusted_from};
ghost use Rattle.msg_cost.specs.Moves.{on};
ghost use Rattle.msg_cost.specs.Pieces.{carried_at, is_moved, moved_reads, touches};
ghost use Rattle.msg_cost.specs.Tables.{KnowsBlock, IsTable};
ghost use Rattle.msg_cost.specs.Views.{seated_shape, ids_of};
ghost use Rattle.msg_cost.specs.Walks.{spot_behind};

use crate::seated::Seated;
use crate::settled::last_start;
use crate::spot::{Spot, straight_to};
use crate::tokens::next_spot;
use crate::trust::{Trust, is_trusted_from};
use crate::walk::Walk;
use jif_tree::Stmt;
use js_base::limits::HOSTS;
use js_base::{HostId, StmtId, VarId};
use need_labels::Needs;

/// Whether the move of a statement touches what another one gives to a variable: it is that one, or reads the variable.
pub fn touches(needs: &Needs, moved: Option<StmtId>, statement: StmtId, x: VarId) -> bool
    ensures { result ≡ touches needs.now moved statement x }
{
    is_moved(moved, statement) || moved_reads(needs, moved, x)
}

/// The same where it is known whether the moved statement reads the variable.
pub fn is_touched(moved: Option<StmtId>, statement: StmtId, reads: bool) -> bool
    ensures { result ≡ (is_moved moved statement || reads) }
{
    is_moved(moved, statement) || reads
}

/// Whether a statement is the moved one.
fn is_moved(moved: Option<StmtId>, statement: StmtId) -> bool
    ensures { result ≡ is_moved moved statement }
{
    match moved {
        Some(one) => statement.0 == one.0,
        None => false,
    }
}

/// Whether the moved statement reads the variable.
pub fn moved_reads(needs: &Needs, moved: Option<StmtId>, x: VarId) -> bool
    ensures { result ≡ moved_reads needs.now moved x }
{
    match moved {
        Some(one) => is_among(needs.readers(x), one),
        None => false,
    }
}

/// Whether a statement is among these.
fn is_among(statements: &[StmtId], one: StmtId) -> bool
    ensures { result ≡ list_any (λ reader. nat_eq reader.0 one.0) statements.now }
{
    statements.iter().any(|reader| reader.0 == one.0)
}

/// The host to which a value rides that is given at a place of a block. In a plan that puts each statement on a host
/// that may hold it, the spot there is known from the table, or the host is lent the token. So no stretch is gone over.
pub fn carried_at(planned: &Seated<'_>, walk: &Walk<'_>, place: usize) -> Option<HostId>
    requires { KnowsBlock planned.now.needs.now planned.now.hosts.now walk.now }
    ensures { result ≡ carried_at (seated_shape planned.now) walk.now.home (ids_of walk.now.block.now) place }
{
    let left = walk.block.len().saturating_sub(place);
    if left < 2 {
        return None;
    }
    let host = planned.host_of(walk.block[place].id);
    if planned.host_of(walk.block[place + 1].id).0 == host.0 {
        return None;
    }
    let home = planned.host_of(walk.home);
    if is_lent(planned, walk, home, host, place + 1) {
        return None;
    }
    let spot = spot_at(planned, home, walk.block, &walk.table, place + 1);
    let mut trust = Trust::Table(&walk.table);
    let next = next_spot(planned, spot, walk.block, place + 1, &mut trust);
    straight_to(spot, next)
}

/// Whether a host that is not the home of a walk is not trusted for what is left of its block. Then it does not hold
/// the token there.
fn is_lent(planned: &Seated<'_>, walk: &Walk<'_>, home: HostId, host: HostId, place: usize) -> bool
    requires { KnowsBlock planned.now.needs.now planned.now.hosts.now walk.now }
    ensures { IsTrue result ↔ ((host.0 ≢ home.0)
        × (is_trusted_from (seated_shape planned.now) host walk.now.block.now place ≡ false)) }
{
    if host.0 == home.0 {
        return false;
    }
    let mut trust = Trust::Table(&walk.table);
    !is_trusted_from(planned, host, walk.block, place, &mut trust)
}

/// The spot at which a walk stands behind the first statements of a block, so many.
fn spot_at(
    planned: &Seated<'_>,
    home: HostId,
    block: &[Stmt],
    table: &[u16; HOSTS],
    count: usize,
) -> Spot
    requires count { count ≤ length block.now }
    requires table { IsTable planned.now.needs.now planned.now.hosts.now block.now table.now }
    ensures { result ≡ spot_behind (seated_shape planned.now) (on home) (ids_of block.now) count }
{
    let start = last_start(planned, home, block, table, count);
    let mut trust = Trust::Table(table);
    let mut spot = start.spot;
    for place in start.place..count {
        spot = next_spot(planned, spot, block, place, &mut trust);
    }
    spot
}
