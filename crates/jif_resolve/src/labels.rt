//! The faults of labels: names that are no declared principals.

ghost use Rattle.std.specs.Prelude.{◌≡◌, map};
ghost use Rattle.std.specs.List.{flat_map};
ghost use Rattle.std.specs.Option.{option_map};
ghost use Rattle.jif_grammar.specs.DraftShapes.{name_shape, policy_shape, label_shape};
ghost use Rattle.jif_resolve.specs.First.{with_faults};
ghost use Rattle.jif_resolve.specs.Faults.{principal_faults, principals_faults, policy_faults, trust_faults};
ghost use Rattle.jif_resolve.specs.Faults.{label_faults, optional_label_faults};

use crate::fault::{Fault, FaultKind, sooner};
use crate::names::principal_of;
use jif_tree::{LabelDraft, NameDraft, PolicyDraft};
use principals::Principals;

/// The first of the faults so far and that of a name which should be a principal's.
fn with_principal(first: Option<Fault>, name: &NameDraft, principals: &Principals) -> Option<Fault>
    ensures { result ≡ with_faults first (principal_faults principals.now (name_shape name.now)) }
{
    match principal_of(principals, name.text.as_str()) {
        Some(_) => first,
        None => sooner(
            first,
            Fault {
                at: name.at,
                kind: FaultKind::UnknownName,
            },
        ),
    }
}

/// The same for some names.
pub fn with_principals(
    first: Option<Fault>,
    names: &[NameDraft],
    principals: &Principals,
) -> Option<Fault>
    ensures { result ≡ with_faults first (principals_faults principals.now (map name_shape names.now)) }
{
    let mut sooner_one = first;
    for name in names {
        sooner_one = with_principal(sooner_one, name, principals);
    }
    sooner_one
}

/// The same for the names of a policy.
#[tactic(auto, using(crate::proofs::Sooner::faults_joined))]
fn with_policy(first: Option<Fault>, policy: &PolicyDraft, principals: &Principals) -> Option<Fault>
    ensures { result ≡ with_faults first (policy_faults principals.now (policy_shape policy.now)) }
{
    let owner = with_principal(first, &policy.owner, principals);
    with_principals(owner, &policy.readers, principals)
}

/// The same for the names of some policies.
#[tactic(auto, using(crate::proofs::Sooner::faults_more))]
fn with_policies(
    first: Option<Fault>,
    policies: &[PolicyDraft],
    principals: &Principals,
) -> Option<Fault>
    ensures { result ≡ with_faults first (flat_map (policy_faults principals.now) (map policy_shape policies.now)) }
{
    let mut sooner_one = first;
    for policy in policies {
        sooner_one = with_policy(sooner_one, policy, principals);
    }
    sooner_one
}

/// The same for the names of those who trust, where a label says so.
fn with_trust(
    first: Option<Fault>,
    trust: &Option<Vec<NameDraft>>,
    principals: &Principals,
) -> Option<Fault>
    ensures { result ≡ with_faults first
        (trust_faults principals.now (option_map (λ names. map name_shape names.items) trust.now)) }
{
    match trust {
        None => first,
        Some(members) => with_principals(first, members, principals),
    }
}

/// The same for the names of a label.
#[tactic(auto, using(crate::proofs::Sooner::faults_joined))]
pub fn with_label(
    first: Option<Fault>,
    label: &LabelDraft,
    principals: &Principals,
) -> Option<Fault>
    ensures { result ≡ with_faults first (label_faults principals.now (label_shape label.now)) }
{
    let policies = with_policies(first, &label.policies, principals);
    with_trust(policies, &label.trust, principals)
}

/// The same for the names of a label, where one is written.
pub fn with_optional_label(
    first: Option<Fault>,
    label: &Option<LabelDraft>,
    principals: &Principals,
) -> Option<Fault>
    ensures { result ≡ with_faults first (optional_label_faults principals.now (option_map label_shape label.now)) }
{
    match label {
        None => first,
        Some(label) => with_label(first, label, principals),
    }
}
