//! What the expressions of a statement need.

ghost use Rattle.std.specs.Prelude.{◌≡◌, ◌∷◌, [], map, IfOk, OnOk};
ghost use Rattle.jif_tree.specs.Trees.{expr_tree, local, scalar, element, inverted, binary, declassified, endorsed};
ghost use Rattle.jif_tree.specs.LabelRules.{expr_label};
ghost use Rattle.js_base.specs.declared.binary_operator.BinOp.{BinOp};
ghost use Rattle.label_lattice.specs.Lattice.{bottom_of, join_of};
ghost use Rattle.need_labels.specs.Labelled.{all_labels};
ghost use Rattle.need_labels.specs.Finding.{AddsExprs, setting_at, labelled_at};

use crate::place::{Current, Place, Reads};
use crate::reads::{read, tell};
use crate::variables::label_of;
use jif_tree::{Expr, crossed, field_label};
use js_base::{FieldId, OutOfMemory, VarId};
use label_lattice::Label;

/// The execution of the statement tells this label, which is handed back.
fn telling(current: &mut Current, label: Label) -> Label
    ensures label { result ≡ label }
    ensures current { current.new ≡ record current.old { used = join_of current.old.used label } }
{
    current.used = current.used.join(label);
    label
}

/// Adds a number, and answers its label.
fn add_number(place: &Place<'_>, current: &mut Current) -> Label
    ensures label { result ≡ bottom_of place.now.principals.now }
    ensures current { current.new ≡ record current.old { used = join_of current.old.used result } }
{
    telling(current, Label::bottom(place.principals))
}

/// Adds a read of a variable, and answers its label.
///
/// # Errors
/// That memory ran out.
fn add_local(
    place: &Place<'_>,
    current: &mut Current,
    reads: &mut Reads,
    variable: VarId,
) -> Result<Label, OutOfMemory>
    ensures label { IfOk result (λ label. label ≡ expr_label (setting_at place.now) current.old.pc
        (all_labels (labelled_at place.now)) (local variable)) }
    ensures adds { OnOk result (AddsExprs place.now current.old reads.old (local variable ∷ []) current.new
        reads.new) }
{
    read(reads, current.id, current.turn, variable)?;
    Ok(telling(current, label_of(place.checked, variable)))
}

/// Adds a read of a plain field, and answers its label.
fn add_scalar(place: &Place<'_>, current: &mut Current, reads: &mut Reads, field: FieldId) -> Label
    ensures label { result ≡ expr_label (setting_at place.now) current.old.pc (all_labels (labelled_at place.now))
        (scalar field) }
    ensures adds { AddsExprs place.now current.old reads.old (scalar field ∷ []) current.new reads.new }
{
    tell(reads, field, current.pc);
    telling(current, field_label(&place.checked.program, field))
}

/// Adds a read of an element, and answers its label.
///
/// # Errors
/// That memory ran out.
#[cycle(expressions)]
fn add_element(
    place: &Place<'_>,
    current: &mut Current,
    reads: &mut Reads,
    array: FieldId,
    index: &Expr,
) -> Result<Label, OutOfMemory>
    ensures label { IfOk result (λ label. label ≡ expr_label (setting_at place.now) current.old.pc
        (all_labels (labelled_at place.now)) (element array (expr_tree index.now))) }
    ensures adds { OnOk result (AddsExprs place.now current.old reads.old (element array (expr_tree index.now) ∷ [])
        current.new reads.new) }
{
    let index = add_expr(place, current, reads, index)?;
    tell(reads, array, current.pc);
    tell(reads, array, index);
    let label = field_label(&place.checked.program, array).join(index);
    Ok(telling(current, label))
}

/// Adds what an operator makes of one operand, and answers its label, which is that of the operand.
///
/// # Errors
/// That memory ran out.
#[cycle(expressions)]
fn add_operand(
    place: &Place<'_>,
    current: &mut Current,
    reads: &mut Reads,
    operand: &Expr,
) -> Result<Label, OutOfMemory>
    ensures label { IfOk result (λ label. label ≡ expr_label (setting_at place.now) current.old.pc
        (all_labels (labelled_at place.now)) (inverted (expr_tree operand.now))) }
    ensures adds { OnOk result (AddsExprs place.now current.old reads.old (inverted (expr_tree operand.now) ∷ [])
        current.new reads.new) }
{
    let label = add_expr(place, current, reads, operand)?;
    Ok(telling(current, label))
}

/// Adds what an operator makes of two operands, and answers its label.
///
/// # Errors
/// That memory ran out.
#[cycle(expressions)]
fn add_binary(
    place: &Place<'_>,
    current: &mut Current,
    reads: &mut Reads,
    left: &Expr,
    right: &Expr,
) -> Result<Label, OutOfMemory>
    ensures label { (operator : BinOp) → IfOk result (λ label. label ≡ expr_label (setting_at place.now)
        current.old.pc (all_labels (labelled_at place.now))
        (binary operator (expr_tree left.now) (expr_tree right.now))) }
    ensures adds { (operator : BinOp) → OnOk result (AddsExprs place.now current.old reads.old
        (binary operator (expr_tree left.now) (expr_tree right.now) ∷ []) current.new reads.new) }
{
    let left = add_expr(place, current, reads, left)?;
    let right = add_expr(place, current, reads, right)?;
    Ok(telling(current, left.join(right)))
}

/// Adds a value that is released to a label, and answers its label.
///
/// # Errors
/// That memory ran out.
#[cycle(expressions)]
fn add_release(
    place: &Place<'_>,
    current: &mut Current,
    reads: &mut Reads,
    operand: &Expr,
    to: &Label,
) -> Result<Label, OutOfMemory>
    ensures label { IfOk result (λ label. label ≡ expr_label (setting_at place.now) current.old.pc
        (all_labels (labelled_at place.now)) (declassified (expr_tree operand.now) to.now)) }
    ensures adds { OnOk result (AddsExprs place.now current.old reads.old
        (declassified (expr_tree operand.now) to.now ∷ []) current.new reads.new) }
{
    let from = add_expr(place, current, reads, operand)?;
    current.releases = true;
    Ok(telling(current, crossed(&to.join(current.pc), &from)))
}

/// Adds a value that is endorsed by a label, and answers its label.
///
/// # Errors
/// That memory ran out.
#[cycle(expressions)]
fn add_endorsement(
    place: &Place<'_>,
    current: &mut Current,
    reads: &mut Reads,
    operand: &Expr,
    to: &Label,
) -> Result<Label, OutOfMemory>
    ensures label { IfOk result (λ label. label ≡ expr_label (setting_at place.now) current.old.pc
        (all_labels (labelled_at place.now)) (endorsed (expr_tree operand.now) to.now)) }
    ensures adds { OnOk result (AddsExprs place.now current.old reads.old
        (endorsed (expr_tree operand.now) to.now ∷ []) current.new reads.new) }
{
    let from = add_expr(place, current, reads, operand)?;
    Ok(telling(current, crossed(&from, &to.join(current.pc))))
}

/// Adds an expression of a statement, and answers its label. What each kind of expression needs stands in a function of
/// its own: labels are large, and a function clears the places of all its labels when it begins.
///
/// # Errors
/// That memory ran out.
#[cycle(expressions)]
pub fn add_expr(
    place: &Place<'_>,
    current: &mut Current,
    reads: &mut Reads,
    expr: &Expr,
) -> Result<Label, OutOfMemory>
    ensures label { IfOk result (λ label. label ≡ expr_label (setting_at place.now) current.old.pc
        (all_labels (labelled_at place.now)) (expr_tree expr.now)) }
    ensures adds { OnOk result (AddsExprs place.now current.old reads.old (expr_tree expr.now ∷ []) current.new
        reads.new) }
{
    match expr {
        Expr::Number(_) => Ok(add_number(place, current)),
        Expr::Local(variable) => add_local(place, current, reads, *variable),
        Expr::Scalar(field) => Ok(add_scalar(place, current, reads, *field)),
        Expr::Element(array, index) => add_element(place, current, reads, *array, index),
        Expr::Not(operand) => add_operand(place, current, reads, operand),
        Expr::Negate(operand) => add_operand(place, current, reads, operand),
        Expr::Binary(_, left, right) => add_binary(place, current, reads, left, right),
        Expr::Declassify(operand, to) => add_release(place, current, reads, operand, to),
        Expr::Endorse(operand, to) => add_endorsement(place, current, reads, operand, to),
    }
}

/// Adds the arguments of a call.
///
/// # Errors
/// That memory ran out.
pub fn add_exprs(
    place: &Place<'_>,
    current: &mut Current,
    reads: &mut Reads,
    exprs: &[Expr],
) -> Result<(), OutOfMemory>
    ensures { OnOk result (AddsExprs place.now current.old reads.old (map expr_tree exprs.now) current.new
        reads.new) }
{
    for expr in exprs {
        add_expr(place, current, reads, expr)?;
    }
    Ok(())
}
