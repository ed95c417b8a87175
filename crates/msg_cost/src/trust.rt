//! Which hosts are trusted for which statements.

ghost use Rattle.std.specs.Prelude.{◌≡◌, ◌≤◌, length, nat_le, slice_index, slice_set};
ghost use Rattle.jif_tree.specs.Trees.{ProgramTree};
ghost use Rattle.msg_cost.specs.Kept.{is_trusted_from, IsTrustedBetween, AreTrustedTo};
ghost use Rattle.msg_cost.specs.Moves.{is_trusted_by, is_trusted_for};
ghost use Rattle.msg_cost.specs.Tables.{planned_with, IsTable, IsRight};
ghost use Rattle.msg_cost.specs.Views.{seated_shape};
ghost use Rattle.need_labels.specs.Plan.{PlanShape};

use crate::seated::Seated;
use crate::table::FAR;
use host_decl::Hosts;
use jif_tree::Stmt;
use js_base::limits::HOSTS;
use js_base::{HostId, StmtId};
use label_lattice::Label;
use need_labels::Needs;

/// What a walk over a block knows of where hosts are trusted.
#[derive(Clone, Copy)]
pub enum Trust<'a> {
    /// For each host a place up to which it is known to be trusted, noted as it is asked for.
    Noted([usize; HOSTS]),
    /// The table of the block.
    Table(&'a [u16; HOSTS]),
}

/// Whether each principal of a word trusts the label.
fn is_trusted_by(label: &Label, need: u64) -> bool
    ensures { result ≡ is_trusted_by label.now need }
{
    label.is_trusted_by(need)
}

/// Whether the principals that a statement needs trust the host.
pub fn is_trusted_for(needs: &Needs, hosts: &Hosts, host: HostId, statement: StmtId) -> bool
    ensures { (program : ProgramTree) (plan : PlanShape) →
        result ≡ is_trusted_for (planned_with needs.now hosts.now program plan) host statement }
{
    let need = needs.need().get(statement.0 as usize).copied().unwrap_or(0);
    match hosts.hosts().get(host.0 as usize) {
        Some(row) => is_trusted_by(row.label(), need),
        None => false,
    }
}

/// The place of the first statement from this one on for which the host is not trusted, or one behind the block.
fn trusted_to(planned: &Seated<'_>, host: HostId, block: &[Stmt], first: usize) -> usize
    ensures between { IsTrustedBetween (seated_shape planned.now) host block.now first result }
    ensures later { first ≤ result }
    ensures stops { is_trusted_from (seated_shape planned.now) host block.now result
        ≡ nat_le (length block.now) result }
{
    let mut end = first;
    for place in first..block.len() {
        if !is_trusted_for(planned.needs, planned.hosts, host, block[place].id) {
            return place;
        }
        end = place + 1;
    }
    end
}

/// The place that is noted for a host, 0 where there is no note for it.
fn noted_at(noted: &[usize; HOSTS], host: HostId) -> usize
    ensures { result ≡ slice_index noted.now host.0 }
{
    noted.get(host.0 as usize).copied().unwrap_or(0)
}

/// Notes a place for a host. There is no note for a host past the last.
fn note(noted: &mut [usize; HOSTS], host: HostId, place: usize)
    ensures { noted.new ≡ slice_set noted.old host.0 place }
{
    if (host.0 as usize) < HOSTS {
        noted[host.0 as usize] = place;
    }
}

/// Whether the host is trusted for all statements of a block from a place on. For each host it is noted up to where it
/// is known to be trusted, so that a walk of the block asks once for each host and statement.
fn noted_from(
    planned: &Seated<'_>,
    host: HostId,
    block: &[Stmt],
    place: usize,
    noted: &mut [usize; HOSTS],
) -> bool
    requires { AreTrustedTo (seated_shape planned.now) block.now place noted.old }
    ensures result { result ≡ is_trusted_from (seated_shape planned.now) host block.now place }
    ensures noted { AreTrustedTo (seated_shape planned.now) block.now place noted.new }
{
    let known = noted_at(noted, host);
    let end = trusted_to(planned, host, block, known.max(place));
    note(noted, host, end);
    end >= block.len()
}

/// The same as the table of the block has it. It is asked anew for a place of which the table says nothing.
fn listed_from(
    planned: &Seated<'_>,
    host: HostId,
    block: &[Stmt],
    place: usize,
    table: &[u16; HOSTS],
) -> bool
    requires { IsTable planned.now.needs.now planned.now.hosts.now block.now table.now }
    ensures { result ≡ is_trusted_from (seated_shape planned.now) host block.now place }
{
    if place < FAR && (host.0 as usize) < HOSTS {
        usize::from(table[host.0 as usize]) <= place
    } else {
        trusted_to(planned, host, block, place) >= block.len()
    }
}

/// Whether the host is trusted for all statements of a block from a place on.
pub fn is_trusted_from(
    planned: &Seated<'_>,
    host: HostId,
    block: &[Stmt],
    place: usize,
    trust: &mut Trust<'_>,
) -> bool
    requires { IsRight (seated_shape planned.now) block.now place trust.old }
    ensures result { result ≡ is_trusted_from (seated_shape planned.now) host block.now place }
    ensures right { IsRight (seated_shape planned.now) block.now place trust.new }
{
    match trust {
        Trust::Noted(noted) => noted_from(planned, host, block, place, noted),
        Trust::Table(table) => listed_from(planned, host, block, place, table),
    }
}
