//! What single statements need.

ghost use Rattle.std.specs.Prelude.{◌≡◌, ◌∷◌, [], ◌++◌, List, map, IfOk, OnOk, length};
ghost use Rattle.std.specs.List.{fold};
ghost use Rattle.principals.specs.ActsFor.{AreDeclared};
ghost use Rattle.label_lattice.specs.declared.label.Label.{Label};
ghost use Rattle.label_lattice.specs.Lattice.{join_of};
ghost use Rattle.jif_tree.specs.Trees.{ExprTree, expr_tree};
ghost use Rattle.jif_tree.specs.LabelRules.{method_at, begin_label, params_of};
ghost use Rattle.need_labels.specs.Needs.{for_label, statement_use, kept_result, label_of, labels_of};
ghost use Rattle.need_labels.specs.Finding.{IsBackedBy, started, IsWalked, AddsUses};
ghost use Rattle.need_labels.specs.Finding.{setting_at, labelled_at};
ghost use Rattle.need_labels.specs.declared.place.Found.{Found};

use crate::backing::{call_backing, need_of, with_releases};
use crate::expressions::{add_expr, add_exprs};
use crate::place::{Current, Found, Place};
use crate::variables::{label_of, pc_of};
use jif_tree::{Expr, begin_label, result_of};
use js_base::{MethodId, OutOfMemory, StmtId, VarId};
use label_lattice::Label;

/// A statement whose expressions are not walked yet.
fn start(place: &Place<'_>, found: &Found, id: StmtId) -> Current
    ensures { result ≡ started (labelled_at place.now) (length found.now.used.items) id }
{
    let pc = pc_of(place.checked, id);
    Current {
        id,
        turn: found.used.len() + 1,
        pc,
        used: pc,
        releases: false,
    }
}

/// Walks the one expression of a statement.
///
/// # Errors
/// That memory ran out.
fn walk_one(
    place: &Place<'_>,
    id: StmtId,
    value: &Expr,
    found: &mut Found,
) -> Result<Current, OutOfMemory>
    ensures { IfOk result (λ current.
        IsWalked place.now found.old id (expr_tree value.now ∷ []) [] current found.new) }
{
    let mut current = start(place, found, id);
    add_expr(place, &mut current, &mut found.reads, value)?;
    Ok(current)
}

/// Walks the two expressions of a statement.
///
/// # Errors
/// That memory ran out.
fn walk_two(
    place: &Place<'_>,
    id: StmtId,
    first: &Expr,
    second: &Expr,
    found: &mut Found,
) -> Result<Current, OutOfMemory>
    ensures { IfOk result (λ current.
        IsWalked place.now found.old id (expr_tree first.now ∷ expr_tree second.now ∷ []) [] current found.new) }
{
    let mut current = start(place, found, id);
    add_expr(place, &mut current, &mut found.reads, first)?;
    add_expr(place, &mut current, &mut found.reads, second)?;
    Ok(current)
}

/// Walks the arguments of a call, which also tells the begin label of the method, and the label of its result where it
/// is kept.
///
/// # Errors
/// That memory ran out.
fn walk_call(
    place: &Place<'_>,
    id: StmtId,
    method: MethodId,
    args: &[Expr],
    into: Option<VarId>,
    found: &mut Found,
) -> Result<Current, OutOfMemory>
    ensures { IfOk result (λ current.
        let called = method_at (labelled_at place.now).program method in
        IsWalked place.now found.old id (map expr_tree args.now)
        (begin_label called ∷ kept_result (labelled_at place.now) called into) current found.new) }
{
    let mut current = start(place, found, id);
    add_exprs(place, &mut current, &mut found.reads, args)?;
    current.used = after_call(place, method, into, current.used);
    Ok(current)
}

/// The label joined with what a call tells beside its arguments.
fn after_call(place: &Place<'_>, method: MethodId, into: Option<VarId>, used: Label) -> Label
    ensures { let called = method_at (labelled_at place.now).program method in
        result ≡ fold join_of used (begin_label called ∷ kept_result (labelled_at place.now) called into) }
{
    let used = used.join(begin_label(&place.checked.program, method));
    match (into, result_of(&place.checked.program, method)) {
        (Some(_), Some(kept)) => used.join(label_of(place.checked, kept)),
        _ => used,
    }
}

/// Adds a statement that was walked, with this backing by labels. Answers all its backing.
///
/// # Errors
/// That memory ran out.
fn finish(
    place: &Place<'_>,
    current: &Current,
    backing: Label,
    found: &mut Found,
) -> Result<Label, OutOfMemory>
    requires { AreDeclared place.now.principals.now place.now.method.now.authority.items }
    ensures { IfOk result (λ backed.
        (start : Found) (id : StmtId) (exprs : List ExprTree) (told changed : List Label) →
        IsWalked place.now start id exprs told current.now found.old →
        IsBackedBy place.now.principals.now (map for_label changed) backing →
        AddsUses place.now.principals.now (labelled_at place.now) start
        (statement_use (labelled_at place.now) (setting_at place.now) id exprs told changed [] ∷ []) found.new backed) }
{
    let backed = with_releases(place, backing, current.releases);
    found.used.push(current.used)?;
    found.need.push(need_of(&backed))?;
    Ok(backed)
}

/// Adds a statement with one expression, that changes what these have to trust. Answers all its backing.
///
/// # Errors
/// That memory ran out.
pub fn add_use(
    place: &Place<'_>,
    id: StmtId,
    value: &Expr,
    backing: Label,
    found: &mut Found,
) -> Result<Label, OutOfMemory>
    requires { AreDeclared place.now.principals.now place.now.method.now.authority.items }
    ensures { IfOk result (λ backed. (changed : List Label) →
        IsBackedBy place.now.principals.now (map for_label changed) backing →
        AddsUses place.now.principals.now (labelled_at place.now) found.old
        (statement_use (labelled_at place.now) (setting_at place.now) id (expr_tree value.now ∷ []) [] changed [] ∷ [])
        found.new backed) }
{
    let current = walk_one(place, id, value, found)?;
    finish(place, &current, backing, found)
}

/// Adds a statement with two expressions, likewise.
///
/// # Errors
/// That memory ran out.
pub fn add_use_of_two(
    place: &Place<'_>,
    id: StmtId,
    first: &Expr,
    second: &Expr,
    backing: Label,
    found: &mut Found,
) -> Result<Label, OutOfMemory>
    requires { AreDeclared place.now.principals.now place.now.method.now.authority.items }
    ensures { IfOk result (λ backed. (changed : List Label) →
        IsBackedBy place.now.principals.now (map for_label changed) backing →
        AddsUses place.now.principals.now (labelled_at place.now) found.old
        (statement_use (labelled_at place.now) (setting_at place.now) id
        (expr_tree first.now ∷ expr_tree second.now ∷ []) [] changed [] ∷ []) found.new backed) }
{
    let current = walk_two(place, id, first, second, found)?;
    finish(place, &current, backing, found)
}

/// Adds a call. Answers its backing.
///
/// # Errors
/// That memory ran out.
pub fn add_call(
    place: &Place<'_>,
    id: StmtId,
    method: MethodId,
    args: &[Expr],
    into: Option<VarId>,
    found: &mut Found,
) -> Result<Label, OutOfMemory>
    requires { AreDeclared place.now.principals.now place.now.method.now.authority.items }
    ensures { IfOk result (λ backed.
        let labelled = labelled_at place.now in
        let called = method_at labelled.program method in
        AddsUses place.now.principals.now labelled found.old
        (statement_use labelled (setting_at place.now) id (map expr_tree args.now)
        (begin_label called ∷ kept_result labelled called into)
        (begin_label called ∷ map (label_of labelled) (params_of called) ++ labels_of labelled into) [] ∷ [])
        found.new backed) }
{
    let current = walk_call(place, id, method, args, into, found)?;
    let backing = call_backing(place, method, into);
    finish(place, &current, backing, found)
}
