//! The walk that answers one question of each statement of a program, for one trait.

ghost use Rattle.std.specs.Prelude.{◌≡◌, ◌<◌, ◌^◌, ◌∷◌, [], ◌++◌, Some, IfOk, OnOk, length, take, map};
ghost use Rattle.js_base.specs.declared.ids.VarId.{VarId};
ghost use Rattle.jif_tree.specs.Trees.{BlockTree, done, set_local, block_tree, tree_before, expr_tree, program_tree};
ghost use Rattle.jif_tree.specs.Trees.{method_tree};
ghost use Rattle.jif_tree.specs.LabelRules.{declared_labels};
ghost use Rattle.label_reasons.specs.Traits.{IsTrait};
ghost use Rattle.label_reasons.specs.Causes.{declared_causes, label_cause};
ghost use Rattle.label_reasons.specs.Search.{listed_cause, AreCausesKnown, stand_inside};
ghost use Rattle.place_reasons.specs.Questions.{program_answers};
ghost use Rattle.place_reasons.specs.Reasons.{exprs_of};
ghost use Rattle.place_reasons.specs.Search.{AnswersInBlock, AnswersMethod, answer_is, assigned_labels};
ghost use Rattle.place_reasons.specs.Search.{assigned_causes};

use crate::answers::answer_of;
use crate::question::Question;
use jif_tree::{Expr, Method, Program, Stmt, StmtKind, tree_laws};
use js_base::{MethodId, OutOfMemory, StmtId, VarId};
use label_reasons::{
    Cause, Known, Place, Source, Stand, Trait, Via, assign, cause_where, declared, expr_cause,
    expr_label, or_else, through,
};
use principals::Principals;
use std::alloc::Global;

/// Where the blocks inside a branch or a loop stand.
fn inside(place: &Place<'_>, here: StmtId, stand: &Stand, known: &Known, guard: &Expr) -> Stand
    requires { IsTrait place.now.held }
    ensures { result ≡ stand_inside place.now here stand.now known.now (expr_tree guard.now) }
{
    let from = expr_label(place, &stand.pc, &known.labels, guard);
    let cause = expr_cause(place, here, stand.of_pc, &known.causes, guard);
    Stand {
        pc: stand.pc.join(from),
        of_pc: or_else(stand.of_pc, through(Via::ByGuard(here), cause)),
    }
}

/// Goes over an assignment to a variable.
fn set_local(
    place: &Place<'_>,
    here: StmtId,
    stand: &Stand,
    known: &mut Known,
    var: VarId,
    value: &Expr,
)
    requires held { IsTrait place.now.held }
    requires known { AreCausesKnown known.old }
    ensures labels { known.new.labels.items ≡ assigned_labels place.now stand.now known.old var (expr_tree value.now) }
    ensures causes { (x : VarId) → listed_cause known.new.causes.items x
        ≡ assigned_causes place.now here stand.now known.old var (expr_tree value.now) x }
    ensures long { AreCausesKnown known.new }
{
    let label = expr_label(place, &stand.pc, &known.labels, value).join(stand.pc);
    let cause = or_else(
        expr_cause(place, here, stand.of_pc, &known.causes, value),
        stand.of_pc,
    );
    assign(known, var, here, label, cause);
}

/// Adds what is answered of a statement, without those in it.
///
/// # Errors
/// That memory ran out.
fn push_answer(
    place: &Place<'_>,
    question: Question,
    stand: &Stand,
    known: &Known,
    statement: &Stmt,
    answers: &mut Vec<Option<Cause>>,
) -> Result<(), OutOfMemory>
    requires { IsTrait place.now.held }
    ensures { OnOk result ((rest : BlockTree) → answers.new.items ≡ answers.old.items
        ++ answer_is place.now question statement.now.id stand.now known.now (exprs_of (tree_before statement.now rest))
        ∷ []) }
{
    answers.push(answer_of(place, question, stand, known, statement))?;
    Ok(())
}

/// AnswersInBlock for the statements of a block.
///
/// # Errors
/// That memory ran out.
#[cycle(blocks)]
fn answer_block(
    place: &Place<'_>,
    question: Question,
    stand: &Stand,
    statements: &[Stmt],
    known: &mut Known,
    answers: &mut Vec<Option<Cause>>,
) -> Result<(), OutOfMemory>
    requires held { IsTrait place.now.held }
    requires known { AreCausesKnown known.old }
    ensures { OnOk result (AnswersInBlock place.now question stand.now known.old answers.old.items
        (block_tree statements.now) known.new answers.new.items done) }
{
    for statement in statements {
        answer_statement(place, question, stand, statement, known, answers)?;
    }
    Ok(())
}

/// AnswersInBlock for a statement, and for those in it.
///
/// # Errors
/// That memory ran out.
#[cycle(blocks)]
fn answer_statement(
    place: &Place<'_>,
    question: Question,
    stand: &Stand,
    statement: &Stmt,
    known: &mut Known,
    answers: &mut Vec<Option<Cause>>,
) -> Result<(), OutOfMemory>
    requires held { IsTrait place.now.held }
    requires known { AreCausesKnown known.old }
    ensures { OnOk result ((rest : BlockTree) → AnswersInBlock place.now question stand.now known.old answers.old.items
        (tree_before statement.now rest) known.new answers.new.items rest) }
{
    tree_laws();
    let here = statement.id;
    match &statement.kind {
        StmtKind::Let { var, value } => {
            push_answer(place, question, stand, known, statement, answers)?;
            set_local(place, here, stand, known, *var, value);
            Ok(())
        }
        StmtKind::If { guard, yes, no } => {
            push_answer(place, question, stand, known, statement, answers)?;
            let inside = inside(place, here, stand, known, guard);
            answer_block(place, question, &inside, yes, known, answers)?;
            answer_block(place, question, &inside, no, known, answers)?;
            Ok(())
        }
        StmtKind::While { guard, body } => {
            let inside = inside(place, here, stand, known, guard);
            push_answer(place, question, &inside, known, statement, answers)?;
            answer_block(place, question, &inside, body, known, answers)?;
            Ok(())
        }
        StmtKind::SetField { .. } => {
            push_answer(place, question, stand, known, statement, answers)
        }
        StmtKind::SetElement { .. } => {
            push_answer(place, question, stand, known, statement, answers)
        }
        StmtKind::Call { .. } => push_answer(place, question, stand, known, statement, answers),
        StmtKind::Return { .. } => push_answer(place, question, stand, known, statement, answers),
    }
}

/// AnswersInBlock for a method.
///
/// # Errors
/// That memory ran out.
fn answer_method(
    principals: &Principals,
    program: &Program,
    number: u32,
    method: &Method,
    question: Question,
    held: Trait,
    known: &mut Known,
    answers: &mut Vec<Option<Cause>>,
) -> Result<(), OutOfMemory>
    requires held { IsTrait held }
    requires known { AreCausesKnown known.old }
    ensures { OnOk result (AnswersMethod question principals.now (program_tree program.now) held number
        (method_tree method.now) known.old answers.old.items known.new answers.new.items) }
{
    let place = Place {
        principals,
        program,
        method,
        held,
        pairs: &[],
        distrusts: &[],
    };
    let stand = Stand {
        pc: method.begin,
        of_pc: cause_where(held, &method.begin, Source::OfBegin(MethodId(number))),
    };
    answers.push(stand.of_pc)?;
    answer_block(&place, question, &stand, &method.body, known, answers)?;
    Ok(())
}

/// AnswersInBlock for a program.
///
/// # Errors
/// That memory ran out.
pub fn answer_program(
    alloc: Global,
    principals: &Principals,
    program: &Program,
    question: Question,
    held: Trait,
) -> Result<Vec<Option<Cause>>, OutOfMemory>
    requires held { IsTrait held }
    requires few { length program.now.vars.items < 2 ^ 32 }
    requires few_methods { length program.now.methods.items < 2 ^ 32 }
    ensures { IfOk result (λ answers.
        answers.items ≡ program_answers question held principals.now (program_tree program.now)) }
{
    let mut known = declared(alloc, program, held)?;
    let mut answers = Vec::new(alloc);
    for (number, method) in program.methods.iter().enumerate() {
        answer_method(
            principals,
            program,
            number as u32,
            method,
            question,
            held,
            &mut known,
            &mut answers,
        )?;
    }
    Ok(answers)
}
