//! The links of a file: which are sound, and what they cost.

ghost use Rattle.std.specs.Prelude.{◌≡◌, ◌≤◌, length, map, pos, IfOk, IfSome, IfNone, IsTrue, ◌&&◌};
ghost use Rattle.std.specs.List.{AllByRecursion, list_any};
ghost use Rattle.std.specs.Str.{bytes_eq};
ghost use Rattle.std.specs.String.{string_bytes};
ghost use Rattle.js_base.specs.declared.limits.TheConstants.{HOSTS};
ghost use Rattle.host_decl.specs.DraftView.{link_draft};
ghost use Rattle.host_decl.specs.Hosts.{names_of};
ghost use Rattle.host_decl.specs.Meaning.{is_sound_link, has_sound_ends, have_same_ends, is_cost, AreSoundLinks};
ghost use Rattle.host_decl.specs.Meaning.{IsFirstBadLink, link_cost, cost_between, cost_table};

use crate::draft::LinkDraft;
use crate::hosts::HostRow;
use js_base::OutOfMemory;
use js_base::limits::LINK_COST;
use std::alloc::Global;

/// What a link costs that is not declared.
const DEFAULT_COST: u32 = 1;

/// The number of the first link that is not sound. As there are few hosts, it is small.
pub fn first_bad_link(hosts: &[HostRow], links: &[LinkDraft]) -> Option<u32>
    requires { length hosts.now ≤ HOSTS }
    ensures none { IfNone result (AreSoundLinks (names_of hosts.now) (map link_draft links.now)) }
    ensures some { IfSome result (IsFirstBadLink (names_of hosts.now) (map link_draft links.now)) }
{
    for number in 0..links.len() {
        if !is_sound(hosts, &links[..number], &links[number]) {
            return Some(number as u32);
        }
    }
    None
}

/// Whether the link leads from a known host to another one, costs 1 to 1,000, and has other ends than the earlier
/// links.
#[tactic(auto, using(crate::proofs::Lists::any_of_map))]
fn is_sound(hosts: &[HostRow], earlier: &[LinkDraft], link: &LinkDraft) -> bool
    ensures { result ≡ is_sound_link (names_of hosts.now) (map link_draft earlier.now) (link_draft link.now) }
{
    has_sound_ends(hosts, link) && is_cost(link.cost) && !is_given(earlier, link)
}

/// Whether the link leads from a known host to another one.
#[tactic(auto, using(crate::proofs::Lists::any_of_map))]
fn has_sound_ends(hosts: &[HostRow], link: &LinkDraft) -> bool
    ensures { result ≡ has_sound_ends (names_of hosts.now) (link_draft link.now) }
{
    let (from, to) = (link.from.as_str(), link.to.as_str());
    from != to && is_known(hosts, from) && is_known(hosts, to)
}

/// Whether one of the hosts has the name.
fn is_known(hosts: &[HostRow], name: &str) -> bool
    ensures { result ≡ list_any (λ host. bytes_eq name.now host.name) hosts.now }
{
    hosts.iter().any(|host| name == host.name())
}

/// Whether the cost is 1 to 1,000.
fn is_cost(cost: i64) -> bool
    ensures { result ≡ is_cost cost }
{
    1 <= cost && cost <= i64::from(LINK_COST)
}

/// Whether one of the links has the ends of this one.
fn is_given(links: &[LinkDraft], link: &LinkDraft) -> bool
    ensures { result ≡ list_any (λ other. have_same_ends (link_draft link.now) (link_draft other)) links.now }
{
    links.iter().any(|other| is_between(link, other.from.as_str(), other.to.as_str()))
}

/// Whether the link leads from the first host to the second.
fn is_between(link: &LinkDraft, from: &str, to: &str) -> bool
    ensures { result ≡
        (bytes_eq (string_bytes link.now.from) from.now && bytes_eq (string_bytes link.now.to) to.now) }
{
    link.from.as_str() == from && link.to.as_str() == to
}

/// The costs from each host to each host, a row for each host.
pub fn costs_of(
    alloc: Global,
    hosts: &[HostRow],
    links: &[LinkDraft],
) -> Result<Vec<Vec<u32>>, OutOfMemory>
    requires { AllByRecursion (λ link. IsTrue (is_cost link.cost)) links.now }
    ensures { IfOk result (λ costs.
        map (λ row. map pos row.items) costs.items ≡ cost_table (names_of hosts.now) (map link_draft links.now)) }
{
    let mut costs = Vec::new(alloc);
    for host in hosts {
        let row = costs_from(alloc, hosts, links, host.name())?;
        costs.push(row)?;
    }
    Ok(costs)
}

/// The costs from one host to each host.
fn costs_from(
    alloc: Global,
    hosts: &[HostRow],
    links: &[LinkDraft],
    from: &str,
) -> Result<Vec<u32>, OutOfMemory>
    requires { AllByRecursion (λ link. IsTrue (is_cost link.cost)) links.now }
    ensures { IfOk result (λ row.
        map pos row.items ≡ map (cost_between (map link_draft links.now) from.now) (names_of hosts.now)) }
{
    let mut row = Vec::new(alloc);
    for host in hosts {
        row.push(cost_between(links, from, host.name()))?;
    }
    Ok(row)
}

/// The cost from one host to another, or to itself.
fn cost_between(links: &[LinkDraft], from: &str, to: &str) -> u32
    requires { AllByRecursion (λ link. IsTrue (is_cost link.cost)) links.now }
    ensures { pos result ≡ cost_between (map link_draft links.now) from.now to.now }
{
    if from == to {
        0
    } else {
        link_cost(links, from, to)
    }
}

/// What the link between two hosts costs, and 1 where there is none.
fn link_cost(links: &[LinkDraft], from: &str, to: &str) -> u32
    requires { AllByRecursion (λ link. IsTrue (is_cost link.cost)) links.now }
    ensures { pos result ≡ link_cost (map link_draft links.now) from.now to.now }
{
    for link in links {
        if is_between(link, from, to) {
            return link.cost as u32;
        }
    }
    DEFAULT_COST
}
