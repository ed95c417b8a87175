//! What is listed of what fails.

ghost use Rattle.std.specs.Prelude.{◌≡◌, ◌==◌, ◌<◌, ◌++◌, All, IfOk, OnOk, length};
ghost use Rattle.std.specs.List.{filter, list_any};
ghost use Rattle.principals.specs.ActsFor.{AreDeclared, IsReader};
ghost use Rattle.label_reasons.specs.Listed.{acts_for, IsListable, is_of_another, is_declared_pair_of};
ghost use Rattle.label_reasons.specs.Listed.{goes_without_saying, said_pairs, all_pairs, all_distrusts, listed};
ghost use Rattle.label_reasons.specs.Reasons.{may_tell, fails_in, constraint_of};

use crate::demand::Demand;
use crate::laws::listing_laws;
use crate::reason::Trait;
use crate::traits::{fails, has};
use js_base::limits::PRINCIPALS;
use js_base::{OutOfMemory, PrincipalId};
use principals::{Principals, acts_for_laws};
use std::alloc::Global;

/// Whether a reader acts for a declared principal. The outsider acts for none.
pub fn acts_for(principals: &Principals, first: u8, second: u8) -> bool
    requires reader { IsReader principals.now first }
    requires declared { second < length principals.now.names }
    ensures { result ≡ acts_for principals.now first second }
{
    listing_laws();
    acts_for_laws();
    first < principals.count() && principals.acts_for(PrincipalId(first), PrincipalId(second))
}

/// Whether one of these may tell the reader what the owner keeps.
fn may_tell(principals: &Principals, authority: &[PrincipalId], owner: u8, reader: u8) -> bool
    requires authority { AreDeclared principals.now authority.now }
    requires owner { owner < length principals.now.names }
    requires reader { IsReader principals.now reader }
    ensures { result ≡ list_any (may_tell principals.now owner reader) authority.now }
{
    for member in authority {
        if acts_for(principals, member.0, owner) && !acts_for(principals, reader, member.0) {
            return true;
        }
    }
    false
}

/// Whether the principal is one of these.
fn is_named(authority: &[PrincipalId], principal: u8) -> bool
    ensures { result ≡ list_any (λ member. member.0 == principal) authority.now }
{
    for member in authority {
        if member.0 == principal {
            return true;
        }
    }
    false
}

/// Whether one of these acts for the principal.
fn is_acted_for(principals: &Principals, authority: &[PrincipalId], principal: u8) -> bool
    requires authority { AreDeclared principals.now authority.now }
    requires declared { principal < length principals.now.names }
    ensures { result ≡ list_any (λ member. acts_for principals.now member.0 principal) authority.now }
{
    for member in authority {
        if acts_for(principals, member.0, principal) {
            return true;
        }
    }
    false
}

/// Whether it fails where this is demanded by an authority.
fn fails_in(
    principals: &Principals,
    authority: &[PrincipalId],
    demand: &Demand,
    held: Trait,
) -> bool
    requires authority { AreDeclared principals.now authority.now }
    requires listable { IsListable principals.now held }
    ensures { result ≡ fails_in principals.now (constraint_of authority.now demand.now) held }
{
    let _count = principals.count();
    match (demand, held) {
        (Demand::Release(from, to), Trait::Keeps(owner, reader)) => {
            fails(held, from, to) && !may_tell(principals, authority, owner, reader)
        }
        (Demand::Trust(pc), Trait::Distrusts(principal)) => is_named(authority, principal)
            && has(held, pc),
        (Demand::Endorse(from, to), Trait::Distrusts(principal)) => {
            fails(held, from, to) && !is_acted_for(principals, authority, principal)
        }
        (Demand::Begin(from, to), _) | (Demand::Flow(from, to), _) => fails(held, from, to),
        _ => false,
    }
}

/// Whether one of these fails where this is demanded.
pub fn some_fails(
    principals: &Principals,
    authority: &[PrincipalId],
    demand: &Demand,
    traits: &[Trait],
) -> bool
    requires authority { AreDeclared principals.now authority.now }
    requires listable { All (IsListable principals.now) traits.now }
    ensures { result ≡ list_any (fails_in principals.now (constraint_of authority.now demand.now)) traits.now }
{
    for held in traits {
        if fails_in(principals, authority, demand, *held) {
            return true;
        }
    }
    false
}

/// Adds those that fail where this is demanded.
fn push_failing(
    principals: &Principals,
    authority: &[PrincipalId],
    demand: &Demand,
    traits: &[Trait],
    failing: &mut Vec<Trait>,
) -> Result<(), OutOfMemory>
    requires authority { AreDeclared principals.now authority.now }
    requires listable { All (IsListable principals.now) traits.now }
    ensures { OnOk result (failing.new.items
        ≡ failing.old.items ++ filter (fails_in principals.now (constraint_of authority.now demand.now)) traits.now) }
{
    for held in traits {
        if fails_in(principals, authority, demand, *held) {
            failing.push(*held)?;
        }
    }
    Ok(())
}

/// Whether it is a pair whose reader does not act for the owner.
fn is_of_another(principals: &Principals, held: Trait) -> bool
    requires { IsListable principals.now held }
    ensures { result ≡ is_of_another principals.now held }
{
    match held {
        Trait::Keeps(owner, reader) => !acts_for(principals, reader, owner),
        Trait::Distrusts(_) => true,
    }
}

/// The pairs whose reader does not act for the owner.
fn others(
    alloc: Global,
    principals: &Principals,
    pairs: &[Trait],
) -> Result<Vec<Trait>, OutOfMemory>
    requires { All (IsListable principals.now) pairs.now }
    ensures { IfOk result (λ others. others.items ≡ filter (is_of_another principals.now) pairs.now) }
{
    let mut others = Vec::new(alloc);
    for held in pairs {
        if is_of_another(principals, *held) {
            others.push(*held)?;
        }
    }
    Ok(others)
}

/// Whether it is a pair of this owner with a declared reader.
fn is_declared_pair_of(owner: u8, held: Trait) -> bool
    ensures { result ≡ is_declared_pair_of owner held }
{
    match held {
        Trait::Keeps(other, reader) => other == owner && reader as usize != PRINCIPALS,
        Trait::Distrusts(_) => false,
    }
}

/// Whether one of these is a pair of this owner with a declared reader.
fn has_declared_pair(pairs: &[Trait], owner: u8) -> bool
    ensures { result ≡ list_any (is_declared_pair_of owner) pairs.now }
{
    for held in pairs {
        if is_declared_pair_of(owner, *held) {
            return true;
        }
    }
    false
}

/// Whether it is a pair with the outsider, whose owner has another one among these.
fn goes_without_saying(pairs: &[Trait], held: Trait) -> bool
    ensures { result ≡ goes_without_saying pairs.now held }
{
    match held {
        Trait::Keeps(owner, reader) => reader as usize == PRINCIPALS
            && has_declared_pair(pairs, owner),
        Trait::Distrusts(_) => false,
    }
}

/// The pairs that say something.
fn said_pairs(alloc: Global, pairs: &[Trait]) -> Result<Vec<Trait>, OutOfMemory>
    ensures { IfOk result (λ said. said.items ≡ said_pairs pairs.now) }
{
    let mut said = Vec::new(alloc);
    for held in pairs {
        if !goes_without_saying(pairs, *held) {
            said.push(*held)?;
        }
    }
    Ok(said)
}

/// What is listed of what fails where this is demanded, of all pairs and of all principals.
pub fn listed(
    alloc: Global,
    principals: &Principals,
    authority: &[PrincipalId],
    demand: &Demand,
    pairs: &[Trait],
    distrusts: &[Trait],
) -> Result<Vec<Trait>, OutOfMemory>
    requires authority { AreDeclared principals.now authority.now }
    requires pairs { pairs.now ≡ all_pairs principals.now }
    requires distrusts { distrusts.now ≡ all_distrusts principals.now }
    ensures { IfOk result (λ found. found.items
        ≡ listed principals.now (fails_in principals.now (constraint_of authority.now demand.now))) }
{
    let mut failing = Vec::new(alloc);
    push_failing(principals, authority, demand, pairs, &mut failing)?;
    let others = others(alloc, principals, &failing)?;
    let mut found = if others.is_empty() {
        said_pairs(alloc, &failing)?
    } else {
        said_pairs(alloc, &others)?
    };
    push_failing(principals, authority, demand, distrusts, &mut found)?;
    Ok(found)
}
