//! The first pair and the first principal that stand against a host.

ghost use Rattle.std.specs.Prelude.{◌≡◌, ◌<◌, IfOk, slice_get};
ghost use Rattle.label_lattice.specs.Printed.{is_trusted_by};
ghost use Rattle.label_reasons.specs.Listed.{listed};
ghost use Rattle.label_reasons.specs.Reasons.{fails_in};
ghost use Rattle.jif_tree.specs.LabelRules.{may_release};
ghost use Rattle.place_reasons.specs.Reasons.{first_pair, pair_at, untrusting, first_untrusting};
ghost use Rattle.place_reasons.specs.Firsts.{or_first};
ghost use Rattle.place_reasons.specs.Search.{site_is};

use crate::site::HostSite;
use js_base::OutOfMemory;
use js_base::bits::has_bit;
use label_lattice::{Label, READERS, text_laws};
use label_reasons::{Demand, Trait, all_distrusts, all_pairs, listed, listing_laws};
use principals::{Principals, acts_for_laws};
use std::alloc::Global;

/// Whether the principal trusts a label.
pub fn is_trusted_by(label: &Label, principal: u8) -> bool
    requires { principal < READERS }
    ensures { result ≡ is_trusted_by label.now principal }
{
    has_bit(label.trust(), principal)
}

/// The first pair that is listed of those that the first label keeps and the second does not.
fn listed_pair(
    alloc: Global,
    principals: &Principals,
    from: &Label,
    to: &Label,
) -> Result<Option<Trait>, OutOfMemory>
    ensures { IfOk result (λ pair. pair ≡ first_pair principals.now from.now to.now) }
{
    let pairs = all_pairs(alloc, principals)?;
    let distrusts = all_distrusts(alloc, principals)?;
    let release = Demand::Release(*from, *to);
    let found = listed(alloc, principals, &[], &release, &pairs, &distrusts)?;
    Ok(found.get(0).copied())
}

/// The same. Where all may flow, nothing is made for it.
pub fn first_pair(
    alloc: Global,
    principals: &Principals,
    from: &Label,
    to: &Label,
) -> Result<Option<Trait>, OutOfMemory>
    ensures { IfOk result (λ pair. pair ≡ first_pair principals.now from.now to.now) }
{
    listing_laws();
    acts_for_laws();
    text_laws();
    let _count = principals.count();
    if from.conf_flows(to) {
        return Ok(None);
    }
    listed_pair(alloc, principals, from, to)
}

/// The first pair of a label that the host of a site does not keep.
pub fn pair_at(
    alloc: Global,
    site: &HostSite<'_>,
    label: &Label,
) -> Result<Option<Trait>, OutOfMemory>
    ensures { IfOk result (λ pair. pair ≡ pair_at (site_is site.now) label.now) }
{
    first_pair(alloc, site.principals, label, site.host)
}

/// The principal, where it trusts a label and not that of the host.
fn untrusting(host: &Label, label: &Label, principal: u8) -> Option<u8>
    requires { principal < READERS }
    ensures { result ≡ untrusting host.now label.now principal }
{
    if is_trusted_by(label, principal) && !is_trusted_by(host, principal) {
        Some(principal)
    } else {
        None
    }
}

/// The first, and the second where there is none.
fn or_first(first: Option<u8>, second: Option<u8>) -> Option<u8>
    ensures { result ≡ or_first first second }
{
    match first {
        Some(_) => first,
        None => second,
    }
}

/// The first principal that trusts a label and not that of the host.
pub fn first_untrusting(principals: &Principals, host: &Label, label: &Label) -> Option<u8>
    ensures { result ≡ first_untrusting principals.now host.now label.now }
{
    let mut found = None;
    for principal in 0..principals.count() {
        found = or_first(found, untrusting(host, label, principal));
    }
    found
}
