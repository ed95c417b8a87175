//! Methods with their numbers.

ghost use Rattle.std.specs.Prelude.{◌≡◌, ◌+◌, [], ◌≤◌, if◌then◌else◌, IfOk, OnOk, Some, None};
ghost use Rattle.std.specs.Prelude.{length, map};
ghost use Rattle.jif_tree.specs.Trees.{method_tree};
ghost use Rattle.jif_grammar.specs.DraftShapes.{param_shape, method_shape, MethodShape, DraftShape};
ghost use Rattle.jif_resolve.specs.Meanings.{has_result};
ghost use Rattle.jif_resolve.specs.Places.{next_variable, after_params, after_block, body_place};
ghost use Rattle.jif_resolve.specs.Faults.{method_faults, methods_faults};
ghost use Rattle.jif_resolve.specs.KnownNames.{IsCounted, largest};
ghost use Rattle.jif_resolve.specs.Sizes.{KeepsLimits};
ghost use Rattle.jif_resolve.specs.Variables.{param_ids};
ghost use Rattle.jif_resolve.specs.Resolved.{IsMethodFor, AreMethodsFor};
ghost use Rattle.jif_resolve.specs.Contexts.{setting_in};

use crate::block_of::block_of;
use crate::context::Context;
use crate::globals::Globals;
use crate::label_of::label_of;
use crate::names::known_principals;
use crate::scope::Scope;
use jif_tree::{Method, MethodDraft, ParamDraft};
use js_base::{OutOfMemory, StmtId, VarId};
use principals::Principals;
use std::alloc::Global;

/// The numbers of parameters, which are known behind them.
fn params_of(
    alloc: Global,
    params: &[ParamDraft],
    scope: &mut Scope,
) -> Result<Vec<VarId>, OutOfMemory>
    requires { IsCounted (after_params scope.old (map param_shape params.now)) }
    ensures ids { IfOk result (λ ids. ids.items
        ≡ param_ids (scope.old.first + length scope.old.earlier) (map param_shape params.now)) }
    ensures place { OnOk result (scope.new ≡ after_params scope.old (map param_shape params.now)) }
{
    let mut ids = Vec::new(alloc);
    for param in params {
        let id = scope.next_variable();
        scope.declare(alloc, &param.name)?;
        ids.push(id)?;
    }
    Ok(ids)
}

/// The number of a method's result, where it has one. All its locals stand before it.
fn result_of(scope: &Scope, gives: bool) -> Option<VarId>
    requires { scope.now.first + length scope.now.earlier ≤ largest }
    ensures { result ≡ (if gives then Some (next_variable scope.now) else None) }
{
    if gives {
        Some(scope.next_variable())
    } else {
        None
    }
}

/// What a method becomes, whose head stands at this place.
fn method_of(
    alloc: Global,
    draft: MethodDraft,
    scope: &mut Scope,
    context: &Context,
) -> Result<Method, OutOfMemory>
    requires clean { method_faults (setting_in context.now) scope.old (method_shape draft) ≡ [] }
    requires counted { IsCounted (after_block (body_place scope.old (method_shape draft)) (method_shape draft).body) }
    requires gives { context.now.gives ≡ has_result (method_shape draft).result }
    requires fresh { scope.old.earlier ≡ [] }
    ensures method { IfOk result (λ method.
        IsMethodFor (setting_in context.now) scope.old (method_shape draft) (method_tree method)) }
    ensures place { OnOk result (scope.new
        ≡ after_block (body_place scope.old (method_shape draft)) (method_shape draft).body) }
{
    let begin = label_of(alloc, &draft.begin, context.principals)?;
    let authority = known_principals(alloc, &draft.authority, context.principals)?;
    let head = StmtId(scope.statement());
    let params = params_of(alloc, &draft.params, scope)?;
    scope.pass_statement();
    let body = block_of(alloc, &draft.body, scope, context)?;
    let result = result_of(scope, context.gives);
    Ok(Method {
        name: draft.name.text,
        begin,
        params,
        result,
        authority,
        head,
        line: draft.line,
        body,
    })
}

/// What methods become.
pub fn methods_of(
    alloc: Global,
    drafts: Vec<MethodDraft>,
    principals: &Principals,
    globals: &Globals,
) -> Result<Vec<Method>, OutOfMemory>
    requires clean { methods_faults principals.now globals.now [] (map method_shape drafts.items) ≡ [] }
    requires limits { (draft : DraftShape) × KeepsLimits draft × (draft.methods ≡ map method_shape drafts.items) }
    ensures { IfOk result (λ methods. AreMethodsFor principals.now globals.now []
        (map method_shape drafts.items) (map method_tree methods.items)) }
{
    let mut scope = Scope::at(alloc, 0, 0, 1);
    let mut methods = Vec::new(alloc);
    for draft in drafts {
        let gives = draft.result.is_some();
        let context = Context {
            principals,
            globals,
            gives,
        };
        methods.push(method_of(alloc, draft, &mut scope, &context)?)?;
        scope.next_method(gives);
    }
    Ok(methods)
}
