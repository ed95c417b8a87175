//! The labels of expressions.

ghost use Rattle.std.specs.Prelude.{◌≡◌, OnOk, IfOk, IfErr};
ghost use Rattle.js_base.specs.declared.binary_operator.BinOp.{BinOp};
ghost use Rattle.principals.specs.ActsFor.{AreDeclared};
ghost use Rattle.jif_tree.specs.Trees.{expr_tree, element, binary, declassified, endorsed};
ghost use Rattle.jif_tree.specs.LabelRules.{expr_label, expr_constraints};
ghost use Rattle.label_check.specs.Parts.{asked, AreMet, RefusesFor};
ghost use Rattle.label_check.specs.Places.{setting_at};

use crate::CheckError;
use crate::constraints::{ask_endorse, ask_release};
use crate::place::Place;
use crate::variables::variable_label;
use jif_tree::{Expr, crossed, field_label};
use js_base::{FieldId, StmtId};
use label_lattice::Label;

/// The label of an element, where all is met that its index asks for.
///
/// # Errors
/// The first of what its index asks for that fails.
#[cycle(labels)]
fn element_label(
    place: &Place<'_>,
    statement: StmtId,
    pc: &Label,
    labels: &[Option<Label>],
    array: FieldId,
    index: &Expr,
) -> Result<Label, CheckError>
    requires { AreDeclared place.now.principals.now place.now.method.now.authority.items }
    ensures label { IfOk result (λ label.
        label ≡ expr_label (setting_at place.now) pc.now labels.now (element array (expr_tree index.now))) }
    ensures ok { OnOk result (AreMet place.now.principals.now (asked statement
        (expr_constraints (setting_at place.now) pc.now labels.now (element array (expr_tree index.now))))) }
    ensures err { IfErr result (RefusesFor place.now.principals.now (asked statement
        (expr_constraints (setting_at place.now) pc.now labels.now (element array (expr_tree index.now))))) }
{
    let index = expr_label(place, statement, pc, labels, index)?;
    Ok(field_label(place.program, array).join(index))
}

/// The same for what an operator makes of two operands.
///
/// # Errors
/// The first of what its operands ask for that fails.
#[cycle(labels)]
fn binary_label(
    place: &Place<'_>,
    statement: StmtId,
    pc: &Label,
    labels: &[Option<Label>],
    left: &Expr,
    right: &Expr,
) -> Result<Label, CheckError>
    requires { AreDeclared place.now.principals.now place.now.method.now.authority.items }
    ensures label { (operator : BinOp) → IfOk result (λ label. label ≡ expr_label (setting_at place.now) pc.now
        labels.now (binary operator (expr_tree left.now) (expr_tree right.now))) }
    ensures ok { (operator : BinOp) → OnOk result (AreMet place.now.principals.now (asked statement
        (expr_constraints (setting_at place.now) pc.now labels.now
        (binary operator (expr_tree left.now) (expr_tree right.now))))) }
    ensures err { (operator : BinOp) → IfErr result (RefusesFor place.now.principals.now (asked statement
        (expr_constraints (setting_at place.now) pc.now labels.now
        (binary operator (expr_tree left.now) (expr_tree right.now))))) }
{
    let left = expr_label(place, statement, pc, labels, left)?;
    let right = expr_label(place, statement, pc, labels, right)?;
    Ok(left.join(right))
}

/// The same for a value that is released to a label.
///
/// # Errors
/// The first of what its operand and the release ask for that fails.
#[cycle(labels)]
fn release_label(
    place: &Place<'_>,
    statement: StmtId,
    pc: &Label,
    labels: &[Option<Label>],
    operand: &Expr,
    to: &Label,
) -> Result<Label, CheckError>
    requires { AreDeclared place.now.principals.now place.now.method.now.authority.items }
    ensures label { IfOk result (λ label. label
        ≡ expr_label (setting_at place.now) pc.now labels.now (declassified (expr_tree operand.now) to.now)) }
    ensures ok { OnOk result (AreMet place.now.principals.now (asked statement
        (expr_constraints (setting_at place.now) pc.now labels.now (declassified (expr_tree operand.now) to.now)))) }
    ensures err { IfErr result (RefusesFor place.now.principals.now (asked statement
        (expr_constraints (setting_at place.now) pc.now labels.now (declassified (expr_tree operand.now) to.now)))) }
{
    let from = expr_label(place, statement, pc, labels, operand)?;
    ask_release(
        place.principals,
        &place.method.authority,
        statement,
        pc,
        &from,
        to,
    )?;
    Ok(crossed(&to.join(*pc), &from))
}

/// The same for a value that is endorsed by a label.
///
/// # Errors
/// The first of what its operand and the endorsement ask for that fails.
#[cycle(labels)]
fn endorsement_label(
    place: &Place<'_>,
    statement: StmtId,
    pc: &Label,
    labels: &[Option<Label>],
    operand: &Expr,
    to: &Label,
) -> Result<Label, CheckError>
    requires { AreDeclared place.now.principals.now place.now.method.now.authority.items }
    ensures label { IfOk result (λ label. label
        ≡ expr_label (setting_at place.now) pc.now labels.now (endorsed (expr_tree operand.now) to.now)) }
    ensures ok { OnOk result (AreMet place.now.principals.now (asked statement
        (expr_constraints (setting_at place.now) pc.now labels.now (endorsed (expr_tree operand.now) to.now)))) }
    ensures err { IfErr result (RefusesFor place.now.principals.now (asked statement
        (expr_constraints (setting_at place.now) pc.now labels.now (endorsed (expr_tree operand.now) to.now)))) }
{
    let from = expr_label(place, statement, pc, labels, operand)?;
    ask_endorse(
        place.principals,
        &place.method.authority,
        statement,
        &from,
        to,
    )?;
    Ok(crossed(&from, &to.join(*pc)))
}

/// The label of an expression of a statement under a program label, where all is met that its parts ask for. Each
/// kind with parts stands in a function of its own: labels are large, and a function clears the places of all its
/// labels when it begins.
///
/// # Errors
/// The first of what its parts ask for that fails, inner before outer and from the left.
#[cycle(labels)]
pub fn expr_label(
    place: &Place<'_>,
    statement: StmtId,
    pc: &Label,
    labels: &[Option<Label>],
    expr: &Expr,
) -> Result<Label, CheckError>
    requires { AreDeclared place.now.principals.now place.now.method.now.authority.items }
    ensures label { IfOk result (λ label.
        label ≡ expr_label (setting_at place.now) pc.now labels.now (expr_tree expr.now)) }
    ensures ok { OnOk result (AreMet place.now.principals.now
        (asked statement (expr_constraints (setting_at place.now) pc.now labels.now (expr_tree expr.now)))) }
    ensures err { IfErr result (RefusesFor place.now.principals.now
        (asked statement (expr_constraints (setting_at place.now) pc.now labels.now (expr_tree expr.now)))) }
{
    match expr {
        Expr::Number(_) => Ok(Label::bottom(place.principals)),
        Expr::Local(var) => Ok(variable_label(labels, *var)),
        Expr::Scalar(field) => Ok(field_label(place.program, *field)),
        Expr::Element(array, index) => element_label(place, statement, pc, labels, *array, index),
        Expr::Not(operand) => expr_label(place, statement, pc, labels, operand),
        Expr::Negate(operand) => expr_label(place, statement, pc, labels, operand),
        Expr::Binary(_, left, right) => binary_label(place, statement, pc, labels, left, right),
        Expr::Declassify(operand, to) => release_label(place, statement, pc, labels, operand, to),
        Expr::Endorse(operand, to) => endorsement_label(place, statement, pc, labels, operand, to),
    }
}
