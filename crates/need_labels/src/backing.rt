//! Who has to trust the host of a statement, as the label that just these trust.

ghost use Rattle.std.specs.Prelude.{◌≡◌, ◌∷◌, [], ◌++◌, List, Bool, map};
ghost use Rattle.std.specs.List.{list_any};
ghost use Rattle.jif_tree.specs.Trees.{ExprTree};
ghost use Rattle.jif_tree.specs.LabelRules.{method_at, begin_label, params_of};
ghost use Rattle.need_labels.specs.Labelled.{labelled_of};
ghost use Rattle.need_labels.specs.Needs.{Backing, for_label, for_releases, releases, label_of, labels_of, IsNeed};
ghost use Rattle.need_labels.specs.Finding.{IsBackedBy, setting_at, labelled_at};
ghost use Rattle.principals.specs.ActsFor.{Declared, AreDeclared};

use crate::place::Place;
use crate::variables::label_of;
use jif_tree::{begin_label, params_of};
use js_base::bits::with_bit;
use js_base::{MethodId, VarId};
use label_lattice::{Label, READERS};

/// The word with a bit for each principal that trusts a label.
pub fn need_of(backing: &Label) -> u64
    ensures { (principals : Declared) (parts : List Backing) → IsBackedBy principals parts backing.now →
        IsNeed principals parts result }
{
    let mut need = 0;
    for principal in 0..READERS as u8 {
        if backing.is_trusted_by(with_bit(0, principal)) {
            need = with_bit(need, principal);
        }
    }
    need
}

/// The backing of a statement with this one by labels, where its expressions release values or not.
pub fn with_releases(place: &Place<'_>, backing: Label, releasing: bool) -> Label
    requires { AreDeclared place.now.principals.now place.now.method.now.authority.items }
    ensures { (parts : List Backing) (exprs : List ExprTree) → releasing ≡ list_any releases exprs →
        IsBackedBy place.now.principals.now parts backing →
        IsBackedBy place.now.principals.now (parts ++ for_releases (setting_at place.now) exprs) result }
{
    if releasing {
        backing.with_trust(place.principals, &place.method.authority)
    } else {
        backing
    }
}

/// The backing of a statement that assigns to a variable, if any.
pub fn variable_backing(place: &Place<'_>, into: Option<VarId>) -> Label
    ensures { IsBackedBy place.now.principals.now (map for_label (labels_of (labelled_at place.now) into)) result }
{
    match into {
        Some(variable) => label_of(place.checked, variable),
        None => Label::empty(),
    }
}

/// The backing of a call: by the begin label, by the labels of the parameters, and by that of the variable that keeps
/// the result.
pub fn call_backing(place: &Place<'_>, method: MethodId, into: Option<VarId>) -> Label
    ensures { let labelled = labelled_at place.now in
        let called = method_at labelled.program method in
        IsBackedBy place.now.principals.now
        (map for_label (begin_label called ∷ map (label_of labelled) (params_of called) ++ labels_of labelled into))
        result }
{
    let mut backing = begin_label(&place.checked.program, method);
    for param in params_of(&place.checked.program, method) {
        backing = backing.meet_integrity(label_of(place.checked, *param));
    }
    backing.meet_integrity(variable_backing(place, into))
}
