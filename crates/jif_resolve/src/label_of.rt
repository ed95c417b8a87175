//! The labels that are written in a draft, where each name is that of a declared principal.

ghost use Rattle.std.specs.Prelude.{◌≡◌, [], ◌∷◌, ◌++◌, List, IfOk, map};
ghost use Rattle.std.specs.List.{flat_map};
ghost use Rattle.std.specs.Option.{option_map};
ghost use Rattle.label_lattice.specs.Written.{Part};
ghost use Rattle.jif_grammar.specs.DraftShapes.{name_shape, policy_shape, label_shape};
ghost use Rattle.jif_resolve.specs.Faults.{policy_faults, trust_faults, label_faults, optional_label_faults};
ghost use Rattle.jif_resolve.specs.Labels.{policy_part, trust_parts, IsLabelFor, IsOptionalLabelFor};
ghost use Rattle.jif_resolve.specs.Making.{IsOfParts};

use crate::names::{known_principal, known_principals};
use jif_tree::{LabelDraft, NameDraft, PolicyDraft};
use js_base::OutOfMemory;
use label_lattice::Label;
use principals::Principals;
use std::alloc::Global;

/// The label with one more policy.
fn with_policy(
    alloc: Global,
    label: Label,
    policy: &PolicyDraft,
    principals: &Principals,
) -> Result<Label, OutOfMemory>
    requires { policy_faults principals.now (policy_shape policy.now) ≡ [] }
    ensures { IfOk result (λ more. (parts : List Part) → IsOfParts principals.now parts label →
        IsOfParts principals.now (parts ++ policy_part (policy_shape policy.now) ∷ []) more) }
{
    let owner = known_principal(&policy.owner, principals);
    let readers = known_principals(alloc, &policy.readers, principals)?;
    Ok(label.with_policy(principals, owner, &readers))
}

/// The label of some policies.
fn of_policies(
    alloc: Global,
    policies: &[PolicyDraft],
    principals: &Principals,
) -> Result<Label, OutOfMemory>
    requires { flat_map (policy_faults principals.now) (map policy_shape policies.now) ≡ [] }
    ensures { IfOk result (IsOfParts principals.now (map policy_part (map policy_shape policies.now))) }
{
    let mut label = Label::empty();
    for policy in policies {
        label = with_policy(alloc, label, policy, principals)?;
    }
    Ok(label)
}

/// The label that is also trusted by those who are named, where a label says so.
fn with_trust(
    alloc: Global,
    label: Label,
    trust: &Option<Vec<NameDraft>>,
    principals: &Principals,
) -> Result<Label, OutOfMemory>
    requires { trust_faults principals.now (option_map (λ names. map name_shape names.items) trust.now) ≡ [] }
    ensures { IfOk result (λ more. (parts : List Part) → IsOfParts principals.now parts label →
        IsOfParts principals.now
        (parts ++ trust_parts (option_map (λ names. map name_shape names.items) trust.now)) more) }
{
    let Some(members) = trust else {
        return Ok(label);
    };
    let known = known_principals(alloc, members, principals)?;
    Ok(label.with_trust(principals, &known))
}

/// The label that is written.
#[tactic(auto, using(crate::proofs::Parts::label_is_of_parts))]
pub fn label_of(
    alloc: Global,
    written: &LabelDraft,
    principals: &Principals,
) -> Result<Label, OutOfMemory>
    requires { label_faults principals.now (label_shape written.now) ≡ [] }
    ensures { IfOk result (IsLabelFor principals.now (label_shape written.now)) }
{
    let policies = of_policies(alloc, &written.policies, principals)?;
    with_trust(alloc, policies, &written.trust, principals)
}

/// The label that is written, where one is.
pub fn optional_label_of(
    alloc: Global,
    written: &Option<LabelDraft>,
    principals: &Principals,
) -> Result<Option<Label>, OutOfMemory>
    requires { optional_label_faults principals.now (option_map label_shape written.now) ≡ [] }
    ensures { IfOk result (IsOptionalLabelFor principals.now (option_map label_shape written.now)) }
{
    match written {
        None => Ok(None),
        Some(written) => Ok(Some(label_of(alloc, written, principals)?)),
    }
}
