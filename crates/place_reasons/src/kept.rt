//! The answers to questions that were asked already, each found by one walk over the program.

ghost use Rattle.std.specs.Prelude.{◌≡◌, ◌<◌, ◌^◌, ◌↔◌, [], All, Any, IfNone, IfOk, IfSome, IsTrue, OnOk, length};
ghost use Rattle.std.specs.Prelude.{slice_get, unwrap_or, Some};
ghost use Rattle.jif_tree.specs.Trees.{program_tree};
ghost use Rattle.label_reasons.specs.Traits.{IsTrait};
ghost use Rattle.place_reasons.specs.Questions.{answer_at, program_answers};
ghost use Rattle.place_reasons.specs.Kept.{AreAnswers, AnswersQuestion, answer_in};

use crate::question::Question;
use crate::walk::answer_program;
use jif_tree::Program;
use js_base::{OutOfMemory, StmtId};
use label_reasons::{Cause, Trait};
use principals::Principals;
use std::alloc::Global;

/// What was answered of each statement, for one question and one pair.
#[derive(Drop)]
pub struct Kept {
    pub question: Question,
    pub held: Trait,
    pub answers: Vec<Option<Cause>>,
}

/// The answers to the questions that were asked about one program.
#[derive(Drop)]
pub struct KeptAnswers {
    pub kept: Vec<Kept>,
}

impl KeptAnswers {
    /// Nothing was asked yet.
    pub fn new(alloc: Global) -> KeptAnswers
        ensures { result.kept.items ≡ [] }
    {
        KeptAnswers {
            kept: Vec::new(alloc),
        }
    }
}

/// Whether they are the same.
fn is_same_trait(one: Trait, other: Trait) -> bool
    ensures { IsTrue result ↔ (one ≡ other) }
{
    match one {
        Trait::Keeps(owner, reader) => match other {
            Trait::Keeps(of, from) => owner == of && reader == from,
            Trait::Distrusts(_) => false,
        },
        Trait::Distrusts(principal) => match other {
            Trait::Keeps(_, _) => false,
            Trait::Distrusts(of) => principal == of,
        },
    }
}

/// Whether they are the same.
fn is_same_question(one: Question, other: Question) -> bool
    ensures { IsTrue result ↔ (one ≡ other) }
{
    match one {
        Question::OfRun => match other {
            Question::OfRun => true,
            Question::OfUse => false,
            Question::OfIndex(_) => false,
        },
        Question::OfUse => match other {
            Question::OfRun => false,
            Question::OfUse => true,
            Question::OfIndex(_) => false,
        },
        Question::OfIndex(array) => match other {
            Question::OfRun => false,
            Question::OfUse => false,
            Question::OfIndex(of) => array.0 == of.0,
        },
    }
}

/// Whether this was asked.
fn is_asked(kept: &Kept, question: Question, held: Trait) -> bool
    ensures { IsTrue result ↔ AnswersQuestion question held kept.now }
{
    is_same_question(kept.question, question) && is_same_trait(kept.held, held)
}

/// The answer for one statement.
fn answer_in(answers: &[Option<Cause>], statement: StmtId) -> Option<Cause>
    ensures { result ≡ answer_in answers.now statement }
{
    match answers.get(statement.0 as usize) {
        Some(answer) => *answer,
        None => None,
    }
}

/// The answers to a question that was asked.
fn kept_answers<'a>(
    principals: &Principals,
    program: &Program,
    question: Question,
    held: Trait,
    kept: &'a [Kept],
) -> Option<&'a [Option<Cause>]>
    requires { AreAnswers principals.now (program_tree program.now) kept.now }
    ensures answers { IfSome result (λ answers.
        answers.now ≡ program_answers question held principals.now (program_tree program.now)) }
    ensures unasked { IfNone result (All (λ one. ¬ AnswersQuestion question held one) kept.now) }
{
    for one in kept {
        if is_asked(one, question, held) {
            return Some(&one.answers);
        }
    }
    None
}

/// The answer for one statement, by a walk over the program where nobody asked for this question and pair before.
///
/// # Errors
/// That memory ran out.
pub fn answer_at(
    alloc: Global,
    principals: &Principals,
    program: &Program,
    question: Question,
    statement: StmtId,
    held: Trait,
    answers: &mut KeptAnswers,
) -> Result<Option<Cause>, OutOfMemory>
    requires held { IsTrait held }
    requires few { length program.now.vars.items < 2 ^ 32 }
    requires few_methods { length program.now.methods.items < 2 ^ 32 }
    requires kept { AreAnswers principals.now (program_tree program.now) answers.old.kept.items }
    ensures answer { IfOk result (λ answer.
        answer ≡ answer_at question principals.now (program_tree program.now) statement held) }
    ensures kept { OnOk result (AreAnswers principals.now (program_tree program.now) answers.new.kept.items) }
    // Nothing is walked for that was answered before.
    ensures asked { Any (AnswersQuestion question held) answers.old.kept.items →
        answers.new.kept.items ≡ answers.old.kept.items }
{
    if let Some(found) = kept_answers(principals, program, question, held, &answers.kept) {
        return Ok(answer_in(found, statement));
    }
    let made = answer_program(alloc, principals, program, question, held)?;
    let answer = answer_in(&made, statement);
    answers.kept.push(Kept {
        question,
        held,
        answers: made,
    })?;
    Ok(answer)
}
