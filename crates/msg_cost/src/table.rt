//! From where on hosts are trusted in a block.

ghost use Rattle.std.specs.Prelude.{◌≡◌, ◌<◌, ℕ, nat_le};
ghost use Rattle.jif_tree.specs.Trees.{ProgramTree};
ghost use Rattle.need_labels.specs.Plan.{PlanShape};
ghost use Rattle.msg_cost.specs.Kept.{is_trusted_from};
ghost use Rattle.msg_cost.specs.Tables.{planned_with, IsTrustedSince, IsTable};

use crate::trust::is_trusted_for;
use host_decl::Hosts;
use jif_tree::Stmt;
use js_base::HostId;
use js_base::limits::HOSTS;
use need_labels::Needs;

/// The first place of a block of which a table says nothing, since its numbers are short. No program within the limits
/// has such a place.
pub const FAR: usize = 65_535;

/// The table of a block: for each host the first place from which it is trusted for all statements to the end.
pub fn block_table(needs: &Needs, hosts: &Hosts, block: &[Stmt]) -> [u16; HOSTS]
    ensures { IsTable needs.now hosts.now block.now result }
{
    let mut table = [0; HOSTS];
    for number in 0..HOSTS {
        table[number] = trusted_since(needs, hosts, HostId(number as u8), block);
    }
    table
}

/// The first place of a block from which the host is trusted for all statements to the end, as a short number.
fn trusted_since(needs: &Needs, hosts: &Hosts, host: HostId, block: &[Stmt]) -> u16
    ensures { IsTrustedSince needs.now hosts.now host block.now result }
{
    short(first_trusted(needs, hosts, host, block))
}

/// The first place of a block from which the host is trusted for all statements to the end, one behind the block where
/// it is trusted for none.
fn first_trusted(needs: &Needs, hosts: &Hosts, host: HostId, block: &[Stmt]) -> usize
    ensures { (program : ProgramTree) (plan : PlanShape) (place : ℕ) →
        is_trusted_from (planned_with needs.now hosts.now program plan) host block.now place ≡ nat_le result place }
{
    let mut first = 0;
    for place in 0..block.len() {
        if !is_trusted_for(needs, hosts, host, block[place].id) {
            first = place + 1;
        }
    }
    first
}

/// The number, or the largest one of 16 bits where it is larger. Of places before `FAR` that tells the same.
fn short(number: usize) -> u16
    ensures { (place : ℕ) → place < FAR → nat_le result place ≡ nat_le number place }
{
    if number < FAR {
        number as u16
    } else {
        u16::MAX
    }
}
