//! Labels as they are printed.

ghost use Rattle.std.specs.Prelude.{◌≡◌, ◌<◌, ◌==◌, ◌++◌, ℕ, List, Some, IfOk, OnOk};
ghost use Rattle.std.specs.Prelude.{map, length, slice_get, codes};
ghost use Rattle.std.specs.Int.{bit_at};
ghost use Rattle.std.specs.String.{string_bytes};
ghost use Rattle.label_lattice.specs.Printed.{is_trusted_by, names_where, printed_label, printed_part};
ghost use Rattle.label_lattice.specs.Printed.{printed_policies, printed_policy, trust_parts, joined};

use crate::Label;
use js_base::bits::has_bit;
use js_base::limits::PRINCIPALS;
use js_base::text::owned_text;
use js_base::{OutOfMemory, PrincipalId};
use principals::Principals;
use std::alloc::Global;

/// A label as it is printed, with the names of these principals: a policy for each owner who forbids some reader, with
/// all whom that owner allows, and then who trusts.
pub fn label_text(
    alloc: Global,
    label: &Label,
    principals: &Principals,
) -> Result<String, OutOfMemory>
    ensures { IfOk result (λ text. string_bytes text ≡ printed_label principals.now label.now) }
{
    let mut parts = policy_texts(alloc, label, principals)?;
    push_trust(alloc, &mut parts, label, principals)?;
    let inside = parts.join(alloc, "; ")?;
    Ok(format!(in alloc; "{{{inside}}}")?)
}

/// The policies, by their owners.
fn policy_texts(
    alloc: Global,
    label: &Label,
    principals: &Principals,
) -> Result<Vec<String>, OutOfMemory>
    ensures { IfOk result (λ texts.
        map string_bytes texts.items ≡ map printed_part (printed_policies principals.now label.now)) }
{
    let mut texts = Vec::new(alloc);
    for place in 0..principals.count() {
        let owner = PrincipalId(place);
        if label.forbids_some(owner) {
            texts.push(policy_text(alloc, label, principals, owner)?)?;
        }
    }
    Ok(texts)
}

/// The policy of one owner.
fn policy_text(
    alloc: Global,
    label: &Label,
    principals: &Principals,
    owner: PrincipalId,
) -> Result<String, OutOfMemory>
    requires row { owner.0 < PRINCIPALS }
    requires declared { owner.0 < length principals.now.names }
    ensures { IfOk result (λ text. (name : List ℕ) → slice_get principals.now.names owner.0 ≡ Some name →
        string_bytes text ≡ printed_part (printed_policy principals.now label.now owner.0 name)) }
{
    let readers = names_of(alloc, label.allowed_by(owner), principals)?;
    part_text(alloc, principals.name(owner), &readers)
}

/// Adds who trusts, where there is one.
fn push_trust(
    alloc: Global,
    texts: &mut Vec<String>,
    label: &Label,
    principals: &Principals,
) -> Result<(), OutOfMemory>
    ensures { OnOk result (map string_bytes texts.new.items ≡ map string_bytes texts.old.items
        ++ map printed_part (trust_parts (names_where (is_trusted_by label.now) principals.now))) }
{
    let members = names_of(alloc, label.trust(), principals)?;
    if !members.is_empty() {
        texts.push(part_text(alloc, "?", &members)?)?;
    }
    Ok(())
}

/// A part: what stands before the colon, and the names after it.
fn part_text(alloc: Global, head: &str, names: &[String]) -> Result<String, OutOfMemory>
    ensures { IfOk result (λ text. string_bytes text
        ≡ head.now ++ codes ": " ++ joined (codes ", ") (map string_bytes names.now)) }
{
    let list = names.join(alloc, ", ")?;
    Ok(format!(in alloc; "{head}: {list}")?)
}

/// The names of the principals whose bits a word has, in order.
fn names_of(alloc: Global, word: u64, principals: &Principals) -> Result<Vec<String>, OutOfMemory>
    ensures { IfOk result (λ names. map string_bytes names.items
        ≡ names_where (λ principal. bit_at word principal == 1) principals.now) }
{
    let mut names = Vec::new(alloc);
    for place in 0..principals.count() {
        if has_bit(word, place) {
            names.push(owned_text(alloc, principals.name(PrincipalId(place)))?)?;
        }
    }
    Ok(names)
}
