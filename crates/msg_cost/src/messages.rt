//! What messages cost.

ghost use Rattle.std.specs.Prelude.{◌≡◌, [], ◌∷◌};
ghost use Rattle.msg_cost.specs.Cost.{cost_of};
ghost use Rattle.msg_cost.specs.Moves.{link_cost};
ghost use Rattle.msg_cost.specs.Terms.{message, exchange, leave_terms, enter_terms, move_terms};
ghost use Rattle.msg_cost.specs.Views.{capped};

use crate::spot::Spot;
use host_decl::Hosts;
use js_base::HostId;

/// The cost of a message from one host to another, 0 where there are no such hosts.
pub fn link_cost(hosts: &Hosts, from: HostId, to: HostId) -> u32
    ensures { result ≡ link_cost hosts.now from to }
{
    let count = hosts.hosts().len();
    if (from.0 as usize) < count && (to.0 as usize) < count {
        hosts.cost(from, to)
    } else {
        0
    }
}

/// The cost of a message.
pub fn message(hosts: &Hosts, weight: u64, from: HostId, to: HostId) -> u64
    ensures { result ≡ capped (cost_of hosts.now (message weight from to ∷ [])) }
{
    weight.saturating_mul(u64::from(link_cost(hosts, from, to)))
}

/// The cost of a message and of the one that answers it.
pub fn exchange(hosts: &Hosts, weight: u64, from: HostId, to: HostId) -> u64
    ensures { result ≡ capped (cost_of hosts.now (exchange weight from to ∷ [])) }
{
    let there = u64::from(link_cost(hosts, from, to));
    let back = u64::from(link_cost(hosts, to, from));
    weight.saturating_mul(there + back)
}

/// The cost of giving back the token that a segment was lent.
pub fn leave(hosts: &Hosts, weight: u64, spot: Spot) -> u64
    ensures { result ≡ capped (cost_of hosts.now (leave_terms weight spot)) }
{
    match spot.back {
        Some(back) => message(hosts, weight, spot.host, back),
        None => 0,
    }
}

/// The cost of bringing the token from a host to a spot.
fn enter(hosts: &Hosts, weight: u64, from: HostId, spot: Spot) -> u64
    ensures { result ≡ capped (cost_of hosts.now (enter_terms weight from spot)) }
{
    if from.0 == spot.host.0 {
        return 0;
    }
    let there = message(hosts, weight, from, spot.host);
    match spot.back {
        Some(back) => exchange(hosts, weight, from, back).saturating_add(there),
        None => there,
    }
}

/// The cost of going from a spot to the next, which may be the same.
pub fn move_on(hosts: &Hosts, weight: u64, spot: Spot, next: Spot) -> u64
    ensures { result ≡ capped (cost_of hosts.now (move_terms weight spot next)) }
{
    if spot.host.0 == next.host.0 {
        return 0;
    }
    let left = leave(hosts, weight, spot);
    left.saturating_add(enter(hosts, weight, spot.end(), next))
}
