//! What brings a trait into what a statement tells.

ghost use Rattle.std.specs.Prelude.{◌≡◌, ◌∷◌, [], map};
ghost use Rattle.jif_tree.specs.Trees.{BlockTree, ExprTree, expr_tree, tree_before};
ghost use Rattle.label_reasons.specs.Traits.{IsTrait};
ghost use Rattle.label_reasons.specs.Search.{listed_cause, setting_at};
ghost use Rattle.place_reasons.specs.Firsts.{or_first, first_some};
ghost use Rattle.place_reasons.specs.Questions.{use_cause, own_index_cause, index_cause, expr_answer, run_answer};
ghost use Rattle.place_reasons.specs.Reasons.{exprs_of};
ghost use Rattle.place_reasons.specs.Search.{answer_is};

use crate::question::Question;
use jif_tree::{Expr, Stmt, StmtKind, tree_laws};
use js_base::{FieldId, StmtId};
use label_reasons::{Cause, Known, Place, Stand, expr_cause};

/// The first, and the second where there is none.
fn or_first(first: Option<Cause>, second: Option<Cause>) -> Option<Cause>
    ensures { result ≡ or_first first second }
{
    match first {
        Some(_) => first,
        None => second,
    }
}

/// What brings the trait into the first of the expressions in an expression that has it.
#[cycle(uses)]
fn use_cause(
    place: &Place<'_>,
    here: StmtId,
    of_pc: Option<Cause>,
    causes: &[Option<Cause>],
    expr: &Expr,
) -> Option<Cause>
    requires { IsTrait place.now.held }
    ensures { result ≡ use_cause place.now.held (setting_at place.now) here of_pc (listed_cause causes.now)
        (expr_tree expr.now) }
{
    let own = expr_cause(place, here, of_pc, causes, expr);
    match expr {
        Expr::Number(_) => None,
        Expr::Local(_) | Expr::Scalar(_) => own,
        Expr::Element(_, index) => or_first(use_cause(place, here, of_pc, causes, index), own),
        Expr::Not(operand) => or_first(use_cause(place, here, of_pc, causes, operand), own),
        Expr::Negate(operand) => or_first(use_cause(place, here, of_pc, causes, operand), own),
        Expr::Binary(_, left, right) => or_first(
            use_cause(place, here, of_pc, causes, left),
            or_first(use_cause(place, here, of_pc, causes, right), own),
        ),
        Expr::Declassify(operand, _) => {
            or_first(use_cause(place, here, of_pc, causes, operand), own)
        }
        Expr::Endorse(operand, _) => {
            or_first(use_cause(place, here, of_pc, causes, operand), own)
        }
    }
}

/// What brings the trait into the index of an element, where it is of the array.
fn own_index_cause(
    place: &Place<'_>,
    here: StmtId,
    of_pc: Option<Cause>,
    causes: &[Option<Cause>],
    array: FieldId,
    field: FieldId,
    index: &Expr,
) -> Option<Cause>
    requires { IsTrait place.now.held }
    ensures { result ≡ own_index_cause place.now.held (setting_at place.now) here of_pc (listed_cause causes.now) array
        field (expr_tree index.now) }
{
    if field.0 == array.0 {
        expr_cause(place, here, of_pc, causes, index)
    } else {
        None
    }
}

/// What brings the trait into the first index by which an expression reads the array.
#[cycle(indexes)]
fn index_cause(
    place: &Place<'_>,
    here: StmtId,
    of_pc: Option<Cause>,
    causes: &[Option<Cause>],
    array: FieldId,
    expr: &Expr,
) -> Option<Cause>
    requires { IsTrait place.now.held }
    ensures { result ≡ index_cause place.now.held (setting_at place.now) here of_pc (listed_cause causes.now) array
        (expr_tree expr.now) }
{
    match expr {
        Expr::Number(_) | Expr::Local(_) | Expr::Scalar(_) => None,
        Expr::Element(field, index) => or_first(
            index_cause(place, here, of_pc, causes, array, index),
            own_index_cause(place, here, of_pc, causes, array, *field, index),
        ),
        Expr::Not(operand) => index_cause(place, here, of_pc, causes, array, operand),
        Expr::Negate(operand) => index_cause(place, here, of_pc, causes, array, operand),
        Expr::Binary(_, left, right) => or_first(
            index_cause(place, here, of_pc, causes, array, left),
            index_cause(place, here, of_pc, causes, array, right),
        ),
        Expr::Declassify(operand, _) => index_cause(place, here, of_pc, causes, array, operand),
        Expr::Endorse(operand, _) => index_cause(place, here, of_pc, causes, array, operand),
    }
}

/// What is answered of one expression of a statement.
fn expr_answer(
    place: &Place<'_>,
    question: Question,
    here: StmtId,
    stand: &Stand,
    known: &Known,
    value: &Expr,
) -> Option<Cause>
    requires { IsTrait place.now.held }
    ensures { result ≡ expr_answer question place.now.held (setting_at place.now) here stand.now.of_pc
        (listed_cause known.now.causes.items) (expr_tree value.now) }
{
    match question {
        Question::OfRun => None,
        Question::OfUse => use_cause(place, here, stand.of_pc, &known.causes, value),
        Question::OfIndex(array) => {
            index_cause(place, here, stand.of_pc, &known.causes, array, value)
        }
    }
}

/// What is answered of a program label.
fn run_answer(question: Question, stand: &Stand) -> Option<Cause>
    ensures { result ≡ run_answer question stand.now.of_pc }
{
    match question {
        Question::OfRun => stand.of_pc,
        _ => None,
    }
}

/// What is answered of some expressions.
fn exprs_answer(
    place: &Place<'_>,
    question: Question,
    here: StmtId,
    stand: &Stand,
    known: &Known,
    values: &[Expr],
) -> Option<Cause>
    requires { IsTrait place.now.held }
    ensures { result ≡ first_some (λ value. expr_answer question place.now.held (setting_at place.now) here
        stand.now.of_pc (listed_cause known.now.causes.items) (expr_tree value)) values.now }
{
    let mut found = None;
    for value in values {
        found = or_first(
            found,
            expr_answer(place, question, here, stand, known, value),
        );
    }
    found
}

/// What is answered of the expressions of a statement.
fn own_answer(
    place: &Place<'_>,
    question: Question,
    stand: &Stand,
    known: &Known,
    statement: &Stmt,
) -> Option<Cause>
    requires { IsTrait place.now.held }
    ensures { (rest : BlockTree) → result ≡ first_some (expr_answer question place.now.held (setting_at place.now)
        statement.now.id stand.now.of_pc (listed_cause known.now.causes.items))
        (exprs_of (tree_before statement.now rest)) }
{
    tree_laws();
    let here = statement.id;
    match &statement.kind {
        StmtKind::Let { value, .. } => expr_answer(place, question, here, stand, known, value),
        StmtKind::SetField { value, .. } => expr_answer(place, question, here, stand, known, value),
        StmtKind::SetElement { index, value, .. } => or_first(
            expr_answer(place, question, here, stand, known, index),
            expr_answer(place, question, here, stand, known, value),
        ),
        StmtKind::If { guard, .. } => expr_answer(place, question, here, stand, known, guard),
        StmtKind::While { guard, .. } => expr_answer(place, question, here, stand, known, guard),
        StmtKind::Call { args, .. } => exprs_answer(place, question, here, stand, known, args),
        StmtKind::Return { value } => expr_answer(place, question, here, stand, known, value),
    }
}

/// What is answered of a statement where the walk stands.
pub fn answer_of(
    place: &Place<'_>,
    question: Question,
    stand: &Stand,
    known: &Known,
    statement: &Stmt,
) -> Option<Cause>
    requires { IsTrait place.now.held }
    ensures { (rest : BlockTree) → result ≡ answer_is place.now question statement.now.id stand.now known.now
        (exprs_of (tree_before statement.now rest)) }
{
    let own = own_answer(place, question, stand, known, statement);
    or_first(run_answer(question, stand), own)
}
