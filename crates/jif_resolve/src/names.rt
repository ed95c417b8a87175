//! The principals that names stand for, where each is declared.

ghost use Rattle.std.specs.Prelude.{◌≡◌, ◌≢◌, ◌<◌, [], All, Contains, IfOk, IfSome, IfNone, IsTrue, Some, length, map};
ghost use Rattle.std.specs.Prelude.{slice_get};
ghost use Rattle.std.specs.Str.{bytes_eq};
ghost use Rattle.std.specs.String.{string_bytes};
ghost use Rattle.label_lattice.specs.Written.{IsKnown, AreKnown};
ghost use Rattle.jif_grammar.specs.DraftShapes.{name_shape};
ghost use Rattle.jif_resolve.specs.Faults.{principal_faults, principals_faults};
ghost use Rattle.jif_resolve.specs.Labels.{texts};

use jif_tree::NameDraft;
use js_base::{OutOfMemory, PrincipalId};
use principals::Principals;
use std::alloc::Global;

/// Whether two names end in different bytes. Names are often numbered, so that most are told apart by their ends.
fn ends_differ(first: &[u8], second: &[u8]) -> bool
    ensures { IsTrue result → first.now ≢ second.now }
{
    let Some(one) = first.last() else {
        return false;
    };
    let Some(other) = second.last() else {
        return false;
    };
    *one != *other
}

/// Whether a principal has a name.
fn is_named(own: &str, name: &str) -> bool
    ensures { result ≡ bytes_eq own.now name.now }
{
    if ends_differ(own.as_bytes(), name.as_bytes()) {
        false
    } else {
        own == name
    }
}

/// The principal of a name, if it is declared.
pub fn principal_of(principals: &Principals, name: &str) -> Option<PrincipalId>
    ensures found { IfSome result (λ p. slice_get principals.now.names p.0 ≡ Some name.now) }
    ensures declared { IfSome result (λ p. p.0 < length principals.now.names) }
    ensures none { IfNone result (¬ Contains principals.now.names name.now) }
{
    for place in 0..principals.count() {
        if is_named(principals.name(PrincipalId(place)), name) {
            return Some(PrincipalId(place));
        }
    }
    None
}

/// The principal of a declared name.
pub fn known_principal(name: &NameDraft, principals: &Principals) -> PrincipalId
    requires { principal_faults principals.now (name_shape name.now) ≡ [] }
    ensures known { IsKnown principals.now (string_bytes name.now.text) result }
    ensures declared { result.0 < length principals.now.names }
{
    match principal_of(principals, name.text.as_str()) {
        Some(principal) => principal,
        None => unreachable!(),
    }
}

/// The principals of declared names, in their order.
pub fn known_principals(
    alloc: Global,
    names: &[NameDraft],
    principals: &Principals,
) -> Result<Vec<PrincipalId>, OutOfMemory>
    requires { principals_faults principals.now (map name_shape names.now) ≡ [] }
    ensures known { IfOk result (λ known.
        AreKnown principals.now (texts (map name_shape names.now)) known.items) }
    ensures declared { IfOk result (λ known.
        All (λ named. named.0 < length principals.now.names) known.items) }
{
    let mut known = Vec::new(alloc);
    for name in names {
        known.push(known_principal(name, principals))?;
    }
    Ok(known)
}
