//! Expressions with numbers in place of names.

ghost use Rattle.std.specs.Prelude.{◌≡◌, ℕ, [], IfOk, Some, map};
ghost use Rattle.std.specs.List.{AllZip, flat_map};
ghost use Rattle.jif_tree.specs.Trees.{expr_tree};
ghost use Rattle.jif_grammar.specs.DraftShapes.{name_shape, expr_shape, label_shape, element_shape, complement_shape};
ghost use Rattle.jif_grammar.specs.DraftShapes.{negation_shape, binary_shape, release_shape, endorsement_shape};
ghost use Rattle.jif_resolve.specs.Places.{meaning_at};
ghost use Rattle.jif_resolve.specs.Faults.{variable_faults, array_faults, expr_faults};
ghost use Rattle.jif_resolve.specs.Resolved.{variable_tree, array_of, IsExprFor};
ghost use Rattle.jif_resolve.specs.Contexts.{setting_in};

use crate::context::Context;
use crate::label_of::label_of;
use crate::meaning::Meaning;
use crate::scope::Scope;
use jif_tree::{Expr, ExprDraft, LabelDraft, NameDraft};
use js_base::{BinOp, FieldId, OutOfMemory};
use std::alloc::Global;

/// The value of a name.
fn value_of(meaning: Option<Meaning>) -> Expr
    requires { (at : ℕ) × (variable_faults at meaning ≡ []) }
    ensures { variable_tree meaning ≡ Some (expr_tree result) }
{
    match meaning {
        Some(Meaning::Variable(variable)) => Expr::Local(variable),
        Some(Meaning::Plain(field)) => Expr::Scalar(field),
        _ => unreachable!(),
    }
}

/// The array of a name.
pub fn array_of(meaning: Option<Meaning>) -> FieldId
    requires { (at : ℕ) × (array_faults at meaning ≡ []) }
    ensures { array_of meaning ≡ Some result }
{
    match meaning {
        Some(Meaning::Array(field)) => field,
        _ => unreachable!(),
    }
}

/// What an expression at a place becomes, in a box.
#[cycle(expressions)]
fn boxed_of(
    alloc: Global,
    draft: &ExprDraft,
    scope: &Scope,
    context: &Context,
) -> Result<Box<Expr>, OutOfMemory>
    requires { expr_faults (setting_in context.now) scope.now (expr_shape draft.now) ≡ [] }
    ensures { IfOk result (λ boxed.
        IsExprFor (setting_in context.now) scope.now (expr_shape draft.now) (expr_tree boxed.value)) }
{
    let expr = expr_of(alloc, draft, scope, context)?;
    Ok(Box::new(alloc, expr)?)
}

/// What an element becomes.
#[cycle(expressions)]
fn element_of(
    alloc: Global,
    name: &NameDraft,
    index: &ExprDraft,
    scope: &Scope,
    context: &Context,
) -> Result<Expr, OutOfMemory>
    requires { expr_faults (setting_in context.now) scope.now
        (element_shape (name_shape name.now) (expr_shape index.now)) ≡ [] }
    ensures { IfOk result (λ expr. IsExprFor (setting_in context.now) scope.now
        (element_shape (name_shape name.now) (expr_shape index.now)) (expr_tree expr)) }
{
    let field = array_of(scope.meaning(context.globals, name.text.as_str()));
    let index = boxed_of(alloc, index, scope, context)?;
    Ok(Expr::Element(field, index))
}

/// What `!` before an expression becomes.
#[cycle(expressions)]
fn complement_of(
    alloc: Global,
    operand: &ExprDraft,
    scope: &Scope,
    context: &Context,
) -> Result<Expr, OutOfMemory>
    requires { expr_faults (setting_in context.now) scope.now
        (complement_shape (expr_shape operand.now)) ≡ [] }
    ensures { IfOk result (λ expr. IsExprFor (setting_in context.now) scope.now
        (complement_shape (expr_shape operand.now)) (expr_tree expr)) }
{
    let operand = boxed_of(alloc, operand, scope, context)?;
    Ok(Expr::Not(operand))
}

/// What `-` before an expression becomes.
#[cycle(expressions)]
fn negation_of(
    alloc: Global,
    operand: &ExprDraft,
    scope: &Scope,
    context: &Context,
) -> Result<Expr, OutOfMemory>
    requires { expr_faults (setting_in context.now) scope.now
        (negation_shape (expr_shape operand.now)) ≡ [] }
    ensures { IfOk result (λ expr. IsExprFor (setting_in context.now) scope.now
        (negation_shape (expr_shape operand.now)) (expr_tree expr)) }
{
    let operand = boxed_of(alloc, operand, scope, context)?;
    Ok(Expr::Negate(operand))
}

/// What an operator between expressions becomes.
#[cycle(expressions)]
fn binary_of(
    alloc: Global,
    operator: BinOp,
    left: &ExprDraft,
    right: &ExprDraft,
    scope: &Scope,
    context: &Context,
) -> Result<Expr, OutOfMemory>
    requires { expr_faults (setting_in context.now) scope.now
        (binary_shape operator (expr_shape left.now) (expr_shape right.now)) ≡ [] }
    ensures { IfOk result (λ expr. IsExprFor (setting_in context.now) scope.now
        (binary_shape operator (expr_shape left.now) (expr_shape right.now)) (expr_tree expr)) }
{
    let left = boxed_of(alloc, left, scope, context)?;
    let right = boxed_of(alloc, right, scope, context)?;
    Ok(Expr::Binary(operator, left, right))
}

/// What a release becomes.
#[cycle(expressions)]
fn release_of(
    alloc: Global,
    operand: &ExprDraft,
    written: &LabelDraft,
    scope: &Scope,
    context: &Context,
) -> Result<Expr, OutOfMemory>
    requires { expr_faults (setting_in context.now) scope.now
        (release_shape (expr_shape operand.now) (label_shape written.now)) ≡ [] }
    ensures { IfOk result (λ expr. IsExprFor (setting_in context.now) scope.now
        (release_shape (expr_shape operand.now) (label_shape written.now)) (expr_tree expr)) }
{
    let operand = boxed_of(alloc, operand, scope, context)?;
    let label = label_of(alloc, written, context.principals)?;
    Ok(Expr::Declassify(operand, Box::new(alloc, label)?))
}

/// What an endorsement becomes.
#[cycle(expressions)]
fn endorsement_of(
    alloc: Global,
    operand: &ExprDraft,
    written: &LabelDraft,
    scope: &Scope,
    context: &Context,
) -> Result<Expr, OutOfMemory>
    requires { expr_faults (setting_in context.now) scope.now
        (endorsement_shape (expr_shape operand.now) (label_shape written.now)) ≡ [] }
    ensures { IfOk result (λ expr. IsExprFor (setting_in context.now) scope.now
        (endorsement_shape (expr_shape operand.now) (label_shape written.now)) (expr_tree expr)) }
{
    let operand = boxed_of(alloc, operand, scope, context)?;
    let label = label_of(alloc, written, context.principals)?;
    Ok(Expr::Endorse(operand, Box::new(alloc, label)?))
}

/// What an expression at a place becomes. Each kind with parts stands in a function of its own: labels are large, and a
/// function clears the places of all its labels when it begins.
#[cycle(expressions)]
pub fn expr_of(
    alloc: Global,
    draft: &ExprDraft,
    scope: &Scope,
    context: &Context,
) -> Result<Expr, OutOfMemory>
    requires { expr_faults (setting_in context.now) scope.now (expr_shape draft.now) ≡ [] }
    ensures { IfOk result (λ expr.
        IsExprFor (setting_in context.now) scope.now (expr_shape draft.now) (expr_tree expr)) }
{
    match draft {
        ExprDraft::Number(value) => Ok(Expr::Number(*value)),
        ExprDraft::Name(name) => {
            let meaning = scope.meaning(context.globals, name.text.as_str());
            Ok(value_of(meaning))
        }
        ExprDraft::Element(name, index) => element_of(alloc, name, index, scope, context),
        ExprDraft::Not(operand) => complement_of(alloc, operand, scope, context),
        ExprDraft::Negate(operand) => negation_of(alloc, operand, scope, context),
        ExprDraft::Binary(operator, left, right) => {
            binary_of(alloc, *operator, left, right, scope, context)
        }
        ExprDraft::Declassify(operand, written) => {
            release_of(alloc, operand, written, scope, context)
        }
        ExprDraft::Endorse(operand, written) => {
            endorsement_of(alloc, operand, written, scope, context)
        }
    }
}
