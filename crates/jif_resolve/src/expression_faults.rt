//! The faults of expressions and of calls.

ghost use Rattle.std.specs.Prelude.{◌≡◌, ◌++◌, map};
ghost use Rattle.std.specs.List.{flat_map};
ghost use Rattle.std.specs.Option.{option_map};
ghost use Rattle.jif_grammar.specs.DraftShapes.{name_shape, expr_shape};
ghost use Rattle.jif_resolve.specs.Contexts.{setting_in};
ghost use Rattle.jif_resolve.specs.First.{with_faults};
ghost use Rattle.jif_resolve.specs.Places.{meaning_at};
ghost use Rattle.jif_resolve.specs.Faults.{variable_faults, array_faults, expr_faults, into_faults, call_faults};
ghost use Rattle.jif_resolve.specs.Faults.{called_faults};

use crate::context::Context;
use crate::fault::Fault;
use crate::labels::with_label;
use crate::scope::Scope;
use crate::uses::{with_array, with_called, with_keeper, with_variable};
use jif_tree::{ExprDraft, NameDraft};

/// The first of the faults so far and that of a name whose value is read or that is assigned to.
pub fn with_variable_name(
    first: Option<Fault>,
    name: &NameDraft,
    scope: &Scope,
    context: &Context,
) -> Option<Fault>
    ensures { result ≡ with_faults first
        (variable_faults name.now.at (meaning_at (setting_in context.now) scope.now (name_shape name.now).text)) }
{
    let meaning = scope.meaning(context.globals, name.text.as_str());
    with_variable(first, name.at, meaning)
}

/// The same for a name of which an element is read or assigned to.
pub fn with_array_name(
    first: Option<Fault>,
    name: &NameDraft,
    scope: &Scope,
    context: &Context,
) -> Option<Fault>
    ensures { result ≡ with_faults first
        (array_faults name.now.at (meaning_at (setting_in context.now) scope.now (name_shape name.now).text)) }
{
    let meaning = scope.meaning(context.globals, name.text.as_str());
    with_array(first, name.at, meaning)
}

/// The same for an expression.
#[tactic(auto, using(crate::proofs::Sooner::faults_joined))]
pub fn with_expr(
    first: Option<Fault>,
    expr: &ExprDraft,
    scope: &Scope,
    context: &Context,
) -> Option<Fault>
    ensures { result ≡ with_faults first (expr_faults (setting_in context.now) scope.now (expr_shape expr.now)) }
{
    match expr {
        ExprDraft::Number(_) => first,
        ExprDraft::Name(name) => with_variable_name(first, name, scope, context),
        ExprDraft::Element(name, index) => {
            let array = with_array_name(first, name, scope, context);
            with_expr(array, index, scope, context)
        }
        ExprDraft::Not(operand) => with_expr(first, operand, scope, context),
        ExprDraft::Negate(operand) => with_expr(first, operand, scope, context),
        ExprDraft::Binary(_, left, right) => {
            let before = with_expr(first, left, scope, context);
            with_expr(before, right, scope, context)
        }
        ExprDraft::Declassify(inner, label) => {
            let before = with_expr(first, inner, scope, context);
            with_label(before, label, context.principals)
        }
        ExprDraft::Endorse(inner, label) => {
            let before = with_expr(first, inner, scope, context);
            with_label(before, label, context.principals)
        }
    }
}

/// The same for arguments.
#[tactic(auto, using(crate::proofs::Sooner::faults_more))]
fn with_args(
    first: Option<Fault>,
    args: &[ExprDraft],
    scope: &Scope,
    context: &Context,
) -> Option<Fault>
    ensures { result ≡ with_faults first
        (flat_map (expr_faults (setting_in context.now) scope.now) (map expr_shape args.now)) }
{
    let mut sooner_one = first;
    for arg in args {
        sooner_one = with_expr(sooner_one, arg, scope, context);
    }
    sooner_one
}

/// The same for the name that keeps a result, where one does.
fn with_into(
    first: Option<Fault>,
    into: &Option<NameDraft>,
    scope: &Scope,
    context: &Context,
) -> Option<Fault>
    ensures { result ≡ with_faults first
        (into_faults (setting_in context.now) scope.now (option_map name_shape into.now)) }
{
    match into {
        None => first,
        Some(name) => {
            let meaning = scope.meaning(context.globals, name.text.as_str());
            with_keeper(first, name.at, meaning)
        }
    }
}

/// The same for a name that is called with so many arguments, and whose result is kept or not.
fn with_called_name(
    first: Option<Fault>,
    method: &NameDraft,
    keeps: bool,
    args: usize,
    scope: &Scope,
    context: &Context,
) -> Option<Fault>
    ensures { result ≡ with_faults first (called_faults method.now.at keeps args
        (meaning_at (setting_in context.now) scope.now (name_shape method.now).text)) }
{
    let meaning = scope.meaning(context.globals, method.text.as_str());
    with_called(first, method.at, keeps, args, meaning)
}

/// The same for a call.
pub fn with_call(
    first: Option<Fault>,
    method: &NameDraft,
    args: &[ExprDraft],
    into: &Option<NameDraft>,
    scope: &Scope,
    context: &Context,
) -> Option<Fault>
    ensures { result ≡ with_faults first (call_faults (setting_in context.now) scope.now (name_shape method.now)
        (map expr_shape args.now) (option_map name_shape into.now)) }
{
    let keeps = into.is_some();
    let called = with_called_name(first, method, keeps, args.len(), scope, context);
    let kept = with_into(called, into, scope, context);
    with_args(kept, args, scope, context)
}
