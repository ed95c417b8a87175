//! The labels of variables and expressions, and what brings a trait into them.

ghost use Rattle.std.specs.Prelude.{◌≡◌};
ghost use Rattle.js_base.specs.declared.ids.VarId.{VarId};
ghost use Rattle.label_reasons.specs.declared.reason.Source.TheVariants.{OfField};
ghost use Rattle.jif_tree.specs.Trees.{expr_tree, program_tree};
ghost use Rattle.jif_tree.specs.LabelRules.{expr_label, field_label, variable_label, labels_after_assignment};
ghost use Rattle.label_reasons.specs.Traits.{has, IsTrait};
ghost use Rattle.label_reasons.specs.Causes.{or_else, cause_where, through, released_cause, endorsed_cause, expr_cause};
ghost use Rattle.label_reasons.specs.Causes.{causes_after_assignment};
ghost use Rattle.label_reasons.specs.Search.{listed_cause, setting_at, AreCausesKnown};

use crate::reason::{Cause, Source, Trait, Via};
use crate::search_place::{Known, Place};
use crate::traits::has;
use jif_tree::{Expr, crossed, field_label};
use js_base::{FieldId, StmtId, VarId};
use label_lattice::Label;

/// The label of a variable, `{}` where it has none yet.
pub fn variable_label(labels: &[Option<Label>], var: VarId) -> Label
    ensures { result ≡ variable_label labels.now var }
{
    match labels.get(var.0 as usize) {
        Some(Some(label)) => *label,
        _ => Label::empty(),
    }
}

/// What brings the trait into a variable.
pub fn variable_cause(causes: &[Option<Cause>], var: VarId) -> Option<Cause>
    ensures { result ≡ listed_cause causes.now var }
{
    match causes.get(var.0 as usize) {
        Some(cause) => *cause,
        None => None,
    }
}

/// The first, and the second where there is none.
pub fn or_else(first: Option<Cause>, second: Option<Cause>) -> Option<Cause>
    ensures { result ≡ or_else first second }
{
    match first {
        Some(_) => first,
        None => second,
    }
}

/// The same source, through this.
pub fn through(via: Via, cause: Option<Cause>) -> Option<Cause>
    ensures { result ≡ through via cause }
{
    match cause {
        Some(cause) => Some(Cause {
            source: cause.source,
            via,
        }),
        None => None,
    }
}

/// This source, where its label has what is held.
pub fn cause_where(held: Trait, label: &Label, source: Source) -> Option<Cause>
    requires { IsTrait held }
    ensures { result ≡ cause_where (has held label.now) source }
{
    if has(held, label) {
        Some(Cause {
            source,
            via: Via::Itself,
        })
    } else {
        None
    }
}

/// What brings it into a value that is released to a label.
fn released_cause(
    held: Trait,
    here: StmtId,
    of_pc: Option<Cause>,
    label: &Label,
    operand: Option<Cause>,
) -> Option<Cause>
    requires { IsTrait held }
    ensures { result ≡ released_cause held here of_pc label.now operand }
{
    match held {
        Trait::Keeps(_, _) => or_else(cause_where(held, label, Source::Written(here)), of_pc),
        Trait::Distrusts(_) => operand,
    }
}

/// What brings it into a value that is endorsed by a label.
fn endorsed_cause(
    held: Trait,
    here: StmtId,
    of_pc: Option<Cause>,
    label: &Label,
    operand: Option<Cause>,
) -> Option<Cause>
    requires { IsTrait held }
    ensures { result ≡ endorsed_cause held here of_pc label.now operand }
{
    match held {
        Trait::Keeps(_, _) => operand,
        Trait::Distrusts(_) => or_else(cause_where(held, label, Source::Written(here)), of_pc),
    }
}

/// What brings it into a field.
fn field_cause(place: &Place<'_>, field: FieldId) -> Option<Cause>
    requires { IsTrait place.now.held }
    ensures { result ≡ cause_where (has place.now.held (field_label (program_tree place.now.program.now) field))
        (OfField field) }
{
    cause_where(
        place.held,
        &field_label(place.program, field),
        Source::OfField(field),
    )
}

/// The label of an expression under a program label.
#[cycle(labels)]
pub fn expr_label(place: &Place<'_>, pc: &Label, labels: &[Option<Label>], expr: &Expr) -> Label
    ensures { result ≡ expr_label (setting_at place.now) pc.now labels.now (expr_tree expr.now) }
{
    match expr {
        Expr::Number(_) => Label::bottom(place.principals),
        Expr::Local(var) => variable_label(labels, *var),
        Expr::Scalar(field) => field_label(place.program, *field),
        Expr::Element(array, index) => {
            field_label(place.program, *array).join(expr_label(place, pc, labels, index))
        }
        Expr::Not(operand) => expr_label(place, pc, labels, operand),
        Expr::Negate(operand) => expr_label(place, pc, labels, operand),
        Expr::Binary(_, left, right) => {
            expr_label(place, pc, labels, left).join(expr_label(place, pc, labels, right))
        }
        Expr::Declassify(operand, to) => {
            crossed(&to.join(*pc), &expr_label(place, pc, labels, operand))
        }
        Expr::Endorse(operand, to) => {
            crossed(&expr_label(place, pc, labels, operand), &to.join(*pc))
        }
    }
}

/// What brings it into an expression of a statement.
#[cycle(causes)]
pub fn expr_cause(
    place: &Place<'_>,
    here: StmtId,
    of_pc: Option<Cause>,
    causes: &[Option<Cause>],
    expr: &Expr,
) -> Option<Cause>
    requires { IsTrait place.now.held }
    ensures { result ≡ expr_cause place.now.held (setting_at place.now) here of_pc (listed_cause causes.now)
        (expr_tree expr.now) }
{
    match expr {
        Expr::Number(_) => None,
        Expr::Local(var) => variable_cause(causes, *var),
        Expr::Scalar(field) => field_cause(place, *field),
        Expr::Element(array, index) => {
            or_else(
                expr_cause(place, here, of_pc, causes, index),
                field_cause(place, *array),
            )
        }
        Expr::Not(operand) => expr_cause(place, here, of_pc, causes, operand),
        Expr::Negate(operand) => expr_cause(place, here, of_pc, causes, operand),
        Expr::Binary(_, left, right) => or_else(
            expr_cause(place, here, of_pc, causes, left),
            expr_cause(place, here, of_pc, causes, right),
        ),
        Expr::Declassify(operand, to) => {
            let inner = expr_cause(place, here, of_pc, causes, operand);
            released_cause(place.held, here, of_pc, to, inner)
        }
        Expr::Endorse(operand, to) => {
            let inner = expr_cause(place, here, of_pc, causes, operand);
            endorsed_cause(place.held, here, of_pc, to, inner)
        }
    }
}

/// Gives a variable that has no label yet the label of what is assigned to it, and its cause.
pub fn assign(known: &mut Known, var: VarId, here: StmtId, label: Label, cause: Option<Cause>)
    requires { AreCausesKnown known.old }
    ensures labels { known.new.labels.items ≡ labels_after_assignment known.old.labels.items var label }
    ensures causes { (x : VarId) → listed_cause known.new.causes.items x
        ≡ causes_after_assignment known.old.labels.items (listed_cause known.old.causes.items) var here cause x }
    ensures long { AreCausesKnown known.new }
{
    if let Some(None) = known.labels.get(var.0 as usize) {
        known.labels[var.0 as usize] = Some(label);
        known.causes[var.0 as usize] = through(Via::ByLocal(var, here), cause);
    }
}
