//! The first fault of a draft, and its `main`.

ghost use Rattle.std.specs.Prelude.{◌≡◌, ◌<◌, ◌^◌, None, map, length, IfOk};
ghost use Rattle.std.specs.List.{flat_map};
ghost use Rattle.jif_grammar.specs.DraftShapes.{field_shape, method_shape, draft_shape};
ghost use Rattle.jif_resolve.specs.First.{with_faults};
ghost use Rattle.jif_resolve.specs.Meanings.{globals_of, is_main, main_from, main_of};
ghost use Rattle.jif_resolve.specs.Faults.{label_faults, faults_of};
ghost use Rattle.jif_resolve.specs.Sizes.{KeepsLimits};

use crate::fault::Fault;
use crate::globals::Globals;
use crate::labels::with_label;
use crate::method_faults::with_methods;
use jif_tree::{Draft, FieldDraft, MethodDraft};
use js_base::{MethodId, OutOfMemory};
use principals::Principals;
use std::alloc::Global;

/// The first fault of a draft, whose names in the whole program are these.
pub fn first_fault(
    alloc: Global,
    draft: &Draft,
    principals: &Principals,
    globals: &Globals,
) -> Result<Option<Fault>, OutOfMemory>
    requires limits { KeepsLimits (draft_shape draft.now) }
    requires names { globals.now ≡ globals_of (draft_shape draft.now) }
    ensures { IfOk result (λ found. found ≡ with_faults None (faults_of principals.now (draft_shape draft.now))) }
{
    let repeated = globals.with_repeated(None);
    let labelled = with_fields(repeated, &draft.fields, principals);
    with_methods(alloc, labelled, draft, principals, globals)
}

/// The first of the faults so far and those of the labels of fields.
#[tactic(auto, using(crate::proofs::Sooner::faults_more))]
fn with_fields(
    first: Option<Fault>,
    fields: &[FieldDraft],
    principals: &Principals,
) -> Option<Fault>
    ensures { result ≡ with_faults first
        (flat_map (λ field. label_faults principals.now field.label) (map field_shape fields.now)) }
{
    let mut sooner_one = first;
    for field in fields {
        sooner_one = with_label(sooner_one, &field.label, principals);
    }
    sooner_one
}

/// The method where a program begins: `void main` without parameters.
pub fn main_of(draft: &Draft) -> Option<MethodId>
    requires { KeepsLimits (draft_shape draft.now) }
    ensures { result ≡ main_of (draft_shape draft.now) }
{
    main_in(&draft.methods)
}

/// The first of these methods that is `void main` without parameters.
fn main_in(methods: &[MethodDraft]) -> Option<MethodId>
    requires { length methods.now < 2 ^ 32 }
    ensures { result ≡ main_from 0 (map method_shape methods.now) }
{
    for (number, method) in methods.iter().enumerate() {
        if is_main(method) {
            return Some(MethodId(number as u32));
        }
    }
    None
}

/// Whether a method is `void main` without parameters.
fn is_main(method: &MethodDraft) -> bool
    ensures { result ≡ is_main (method_shape method.now) }
{
    let is_called_main = method.name.text.as_str() == "main";
    let has_params = !method.params.is_empty();
    let gives = method.result.is_some();
    is_called_main && !has_params && !gives
}
