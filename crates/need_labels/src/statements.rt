//! Statements and blocks.

ghost use Rattle.std.specs.Prelude.{◌≡◌, ◌∷◌, [], List, IfOk, length};
ghost use Rattle.principals.specs.ActsFor.{Declared, AreDeclared};
ghost use Rattle.jif_tree.specs.Trees.{done, block_tree, tree_before};
ghost use Rattle.need_labels.specs.declared.place.Found.{Found};
ghost use Rattle.need_labels.specs.Labelled.{Labelled};
ghost use Rattle.need_labels.specs.Needs.{StatementUse, block_uses};
ghost use Rattle.need_labels.specs.Finding.{AddsUses, enclosing, setting_at, labelled_at};

use crate::backing::{need_of, variable_backing};
use crate::place::{Found, Place};
use crate::uses::{add_call, add_use, add_use_of_two};
use crate::variables::label_of;
use jif_tree::{Stmt, StmtKind, field_label, tree_laws};
use js_base::OutOfMemory;
use label_lattice::Label;

/// Those who back the statements in the statement at this place also have to trust its host. Answers all its backing.
fn enclose(found: &mut Found, at: usize, own: Label, inside: Label) -> Label
    ensures { (principals : Declared) (labelled : Labelled) (start first : Found) (one : StatementUse)
        (nested : List StatementUse) → at ≡ length start.need.items →
        AddsUses principals labelled start (one ∷ []) first own →
        AddsUses principals labelled first nested found.old inside →
        AddsUses principals labelled start (enclosing one nested ∷ nested) found.new result }
{
    let backing = own.meet_integrity(inside);
    if at < found.need.len() {
        found.need[at] = need_of(&backing);
    }
    backing
}

/// Adds the statements of a block, and answers their backing.
///
/// # Errors
/// That memory ran out.
#[cycle(blocks)]
pub fn add_block(
    place: &Place<'_>,
    statements: &[Stmt],
    found: &mut Found,
) -> Result<Label, OutOfMemory>
    requires { AreDeclared place.now.principals.now place.now.method.now.authority.items }
    ensures { IfOk result (AddsUses place.now.principals.now (labelled_at place.now) found.old
        (block_uses (labelled_at place.now) (setting_at place.now) (block_tree statements.now)) found.new) }
{
    let mut backing = Label::empty();
    for statement in statements {
        let one = add_statement(place, statement, found)?;
        backing = backing.meet_integrity(one);
    }
    Ok(backing)
}

/// Adds a statement and those in it, and answers their backing.
///
/// # Errors
/// That memory ran out.
#[cycle(blocks)]
fn add_statement(
    place: &Place<'_>,
    statement: &Stmt,
    found: &mut Found,
) -> Result<Label, OutOfMemory>
    requires { AreDeclared place.now.principals.now place.now.method.now.authority.items }
    ensures { IfOk result (AddsUses place.now.principals.now (labelled_at place.now) found.old
        (block_uses (labelled_at place.now) (setting_at place.now) (tree_before statement.now done)) found.new) }
{
    tree_laws();
    let id = statement.id;
    match &statement.kind {
        StmtKind::Let { var, value } => {
            add_use(place, id, value, label_of(place.checked, *var), found)
        }
        StmtKind::SetField { field, value } => {
            add_use(
                place,
                id,
                value,
                field_label(&place.checked.program, *field),
                found,
            )
        }
        StmtKind::SetElement {
            field,
            index,
            value,
        } => {
            add_use_of_two(
                place,
                id,
                index,
                value,
                field_label(&place.checked.program, *field),
                found,
            )
        }
        StmtKind::If { guard, yes, no } => {
            let at = found.need.len();
            let own = add_use(place, id, guard, Label::empty(), found)?;
            let first = add_block(place, yes, found)?;
            let second = add_block(place, no, found)?;
            Ok(enclose(found, at, own, first.meet_integrity(second)))
        }
        StmtKind::While { guard, body } => {
            let at = found.need.len();
            let own = add_use(place, id, guard, Label::empty(), found)?;
            let inside = add_block(place, body, found)?;
            Ok(enclose(found, at, own, inside))
        }
        StmtKind::Call {
            method,
            args,
            into,
            ..
        } => add_call(place, id, *method, args, *into, found),
        StmtKind::Return { value } => {
            let backing = variable_backing(place, place.method.result);
            add_use(place, id, value, backing, found)
        }
    }
}
