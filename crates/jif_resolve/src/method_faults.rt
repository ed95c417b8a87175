//! The faults of methods.

ghost use Rattle.std.specs.Prelude.{◌≡◌, ◌++◌, [], map, IfOk, OnOk};
ghost use Rattle.jif_grammar.specs.DraftShapes.{name_shape, label_shape, block_shape, param_shape, method_shape};
ghost use Rattle.jif_grammar.specs.DraftShapes.{draft_shape};
ghost use Rattle.jif_resolve.specs.Contexts.{setting_in};
ghost use Rattle.jif_resolve.specs.First.{with_faults};
ghost use Rattle.jif_resolve.specs.KnownNames.{IsCounted};
ghost use Rattle.jif_resolve.specs.Places.{after_variable, after_params, after_block, body_place};
ghost use Rattle.jif_resolve.specs.Faults.{label_faults, local_faults, params_faults, ends_in_return, method_faults};
ghost use Rattle.jif_resolve.specs.Faults.{methods_faults};
ghost use Rattle.jif_resolve.specs.Sizes.{KeepsLimits};
ghost use Rattle.jif_resolve.specs.Walks.{is_return};

use crate::context::Context;
use crate::fault::{Fault, FaultKind};
use crate::globals::Globals;
use crate::labels::{with_label, with_optional_label, with_principals};
use crate::scope::Scope;
use crate::statement_faults::{with_block, with_local};
use crate::uses::with_kind_where;
use jif_tree::{Draft, MethodDraft, ParamDraft, StmtDraft, StmtKindDraft};
use js_base::OutOfMemory;
use principals::Principals;
use std::alloc::Global;

/// The first of the faults so far and those of a parameter, which is known behind it.
#[tactic(auto, using(crate::proofs::Sooner::faults_joined))]
fn with_param(
    alloc: Global,
    first: Option<Fault>,
    param: &ParamDraft,
    scope: &mut Scope,
    context: &Context,
) -> Result<Option<Fault>, OutOfMemory>
    requires { IsCounted (after_variable scope.old (name_shape param.now.name)) }
    ensures faults { IfOk result (λ found. found ≡ with_faults first
        (label_faults (setting_in context.now).principals (label_shape param.now.label)
        ++ local_faults (setting_in context.now) scope.old (name_shape param.now.name))) }
    ensures place { OnOk result (scope.new ≡ after_variable scope.old (name_shape param.now.name)) }
{
    let labelled = with_label(first, &param.label, context.principals);
    let found = with_local(labelled, &param.name, scope, context);
    scope.declare(alloc, &param.name)?;
    Ok(found)
}

/// The same for parameters.
fn with_params(
    alloc: Global,
    first: Option<Fault>,
    params: &[ParamDraft],
    scope: &mut Scope,
    context: &Context,
) -> Result<Option<Fault>, OutOfMemory>
    requires { IsCounted (after_params scope.old (map param_shape params.now)) }
    ensures faults { IfOk result (λ found. found
        ≡ with_faults first (params_faults (setting_in context.now) scope.old (map param_shape params.now))) }
    ensures place { OnOk result (scope.new ≡ after_params scope.old (map param_shape params.now)) }
{
    let mut sooner_one = first;
    for param in params {
        sooner_one = with_param(alloc, sooner_one, param, scope, context)?;
    }
    Ok(sooner_one)
}

/// Whether a statement is a `return`.
fn is_return(statement: &StmtDraft) -> bool
    ensures { result ≡ is_return statement.now.kind }
{
    matches!(&statement.kind, StmtKindDraft::Return { .. })
}

/// Whether the last statement of a block is a `return`.
fn ends_in_return(block: &[StmtDraft]) -> bool
    ensures { result ≡ ends_in_return (block_shape block.now) }
{
    match block.last() {
        Some(statement) => is_return(statement),
        None => false,
    }
}

/// The same for a method, whose head stands at this place. Its own name is left aside.
#[tactic(auto, using(crate::proofs::Sooner::faults_joined))]
fn with_method(
    alloc: Global,
    first: Option<Fault>,
    method: &MethodDraft,
    scope: &mut Scope,
    context: &Context,
) -> Result<Option<Fault>, OutOfMemory>
    requires { IsCounted (after_block (body_place scope.old (method_shape method.now))
        (block_shape method.now.body.items)) }
    ensures faults { IfOk result (λ found. found
        ≡ with_faults first (method_faults (setting_in context.now) scope.old (method_shape method.now))) }
    ensures place { OnOk result (scope.new ≡ after_block (body_place scope.old (method_shape method.now))
        (block_shape method.now.body.items)) }
{
    let given = with_optional_label(first, &method.result, context.principals);
    let begun = with_label(given, &method.begin, context.principals);
    let declared = with_params(alloc, begun, &method.params, scope, context)?;
    let allowed = with_principals(declared, &method.authority, context.principals);
    let ends = ends_in_return(&method.body);
    let missing = context.gives && !ends;
    let headed = with_kind_where(allowed, missing, method.name.at, FaultKind::WrongType);
    scope.pass_statement();
    with_block(alloc, headed, &method.body, scope, context)
}

/// The same for the methods of a draft.
pub fn with_methods(
    alloc: Global,
    first: Option<Fault>,
    draft: &Draft,
    principals: &Principals,
    globals: &Globals,
) -> Result<Option<Fault>, OutOfMemory>
    requires { KeepsLimits (draft_shape draft.now) }
    ensures { IfOk result (λ found. found
        ≡ with_faults first (methods_faults principals.now globals.now [] (draft_shape draft.now).methods)) }
{
    let mut scope = Scope::at(alloc, 0, 0, 1);
    let mut sooner_one = first;
    for method in &draft.methods {
        let gives = method.result.is_some();
        let context = Context {
            principals,
            globals,
            gives,
        };
        sooner_one = with_method(alloc, sooner_one, method, &mut scope, &context)?;
        scope.next_method(gives);
    }
    Ok(sooner_one)
}
