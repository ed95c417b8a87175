//! What may be held against labels, and whether it is.

ghost use Rattle.std.specs.Prelude.{◌≡◌, ◌++◌, IfOk, OnOk};
ghost use Rattle.label_reasons.specs.Traits.{has, IsTrait};
ghost use Rattle.label_reasons.specs.Listed.{pairs_of, all_pairs, all_distrusts};
ghost use Rattle.label_reasons.specs.Reasons.{fails};

use crate::reason::Trait;
use js_base::OutOfMemory;
use js_base::bits::has_bit;
use js_base::limits::PRINCIPALS;
use label_lattice::Label;
use principals::Principals;
use std::alloc::Global;

/// Whether it is held against the label.
pub fn has(held: Trait, label: &Label) -> bool
    requires { IsTrait held }
    ensures { result ≡ has held label.now }
{
    match held {
        Trait::Keeps(owner, reader) => !has_bit(label.rows()[owner as usize], reader),
        Trait::Distrusts(principal) => !has_bit(label.trust(), principal),
    }
}

/// Whether it is held against the first label, and not against the second.
pub fn fails(held: Trait, from: &Label, to: &Label) -> bool
    requires { IsTrait held }
    ensures { result ≡ fails held from.now to.now }
{
    has(held, from) && !has(held, to)
}

/// Adds the pairs of an owner with each reader.
fn push_pairs(principals: &Principals, owner: u8, pairs: &mut Vec<Trait>) -> Result<(), OutOfMemory>
    ensures { OnOk result (pairs.new.items ≡ pairs.old.items ++ pairs_of principals.now owner) }
{
    for reader in 0..principals.count() {
        pairs.push(Trait::Keeps(owner, reader))?;
    }
    pairs.push(Trait::Keeps(owner, PRINCIPALS as u8))?;
    Ok(())
}

/// All pairs of an owner and a reader, by owners in declared order.
pub fn all_pairs(alloc: Global, principals: &Principals) -> Result<Vec<Trait>, OutOfMemory>
    ensures { IfOk result (λ pairs. pairs.items ≡ all_pairs principals.now) }
{
    let mut pairs = Vec::new(alloc);
    for owner in 0..principals.count() {
        push_pairs(principals, owner, &mut pairs)?;
    }
    Ok(pairs)
}

/// That a principal does not trust, for each in declared order.
pub fn all_distrusts(alloc: Global, principals: &Principals) -> Result<Vec<Trait>, OutOfMemory>
    ensures { IfOk result (λ distrusts. distrusts.items ≡ all_distrusts principals.now) }
{
    let mut distrusts = Vec::new(alloc);
    for principal in 0..principals.count() {
        distrusts.push(Trait::Distrusts(principal))?;
    }
    Ok(distrusts)
}
