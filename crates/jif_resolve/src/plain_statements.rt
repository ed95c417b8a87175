//! Statements without blocks, with numbers in place of names.

ghost use Rattle.std.specs.Prelude.{◌≡◌, ℕ, [], Bool, IfOk, OnOk, Option, Some, None, map};
ghost use Rattle.std.specs.List.{AllZip, flat_map};
ghost use Rattle.std.specs.Option.{option_map};
ghost use Rattle.jif_tree.specs.Trees.{expr_tree, statement_tree, Heading, BlockTree};
ghost use Rattle.jif_grammar.specs.DraftShapes.{name_shape, expr_shape, LabelShape};
ghost use Rattle.jif_grammar.specs.DraftShapes.{end_shape, declaration_shape, assignment_shape};
ghost use Rattle.jif_grammar.specs.DraftShapes.{element_assignment_shape, call_shape, return_shape};
ghost use Rattle.jif_resolve.specs.Places.{after_statement, after_call, after_declaration};
ghost use Rattle.jif_resolve.specs.Faults.{variable_faults, keeper_faults, called_faults, into_faults};
ghost use Rattle.jif_resolve.specs.Faults.{expr_faults, call_faults, block_faults};
ghost use Rattle.jif_resolve.specs.Resolved.{assignment_tree, local_of, method_of, into_tree, IsExprFor};
ghost use Rattle.jif_resolve.specs.Contexts.{setting_in};
ghost use Rattle.jif_resolve.specs.KnownNames.{IsCounted};
ghost use Rattle.jif_resolve.specs.Making.{no_start, IsKindFor};

use crate::context::Context;
use crate::expr_of::{array_of, expr_of};
use crate::meaning::Meaning;
use crate::scope::Scope;
use jif_tree::{Expr, ExprDraft, NameDraft, StmtKind};
use js_base::{MethodId, OutOfMemory, SiteId, VarId};
use std::alloc::Global;

/// A declaration of a local.
pub fn declaration_of(
    alloc: Global,
    name: &NameDraft,
    value: &ExprDraft,
    scope: &mut Scope,
    context: &Context,
) -> Result<StmtKind, OutOfMemory>
    requires clean { expr_faults (setting_in context.now) scope.old (expr_shape value.now) ≡ [] }
    requires counted { IsCounted (after_declaration scope.old (name_shape name.now)) }
    ensures kind { IfOk result (λ kind. (label : Option LabelShape) →
        IsKindFor (setting_in context.now) scope.old scope.new
        (λ start rest. declaration_shape start label (name_shape name.now) (expr_shape value.now) rest) kind) }
    ensures place { OnOk result (scope.new ≡ after_declaration scope.old (name_shape name.now)) }
{
    let value = expr_of(alloc, value, scope, context)?;
    let var = scope.next_variable();
    scope.declare(alloc, name)?;
    scope.pass_statement();
    Ok(StmtKind::Let { var, value })
}

/// The assignment of a value to what a name stands for.
fn assigned(meaning: Option<Meaning>, value: Expr) -> StmtKind
    requires { (at : ℕ) × (variable_faults at meaning ≡ []) }
    ensures { (heading : Heading) (behind : BlockTree) →
        assignment_tree heading meaning (expr_tree value) behind ≡ Some (statement_tree result heading behind) }
{
    match meaning {
        Some(Meaning::Variable(var)) => StmtKind::Let { var, value },
        Some(Meaning::Plain(field)) => StmtKind::SetField { field, value },
        _ => unreachable!(),
    }
}

/// An assignment to a plain field or a local.
pub fn assignment_of(
    alloc: Global,
    name: &NameDraft,
    value: &ExprDraft,
    scope: &mut Scope,
    context: &Context,
) -> Result<StmtKind, OutOfMemory>
    requires clean { block_faults (setting_in context.now) scope.old
        (assignment_shape no_start (name_shape name.now) (expr_shape value.now) end_shape) ≡ [] }
    requires counted { IsCounted (after_statement scope.old) }
    ensures kind { IfOk result (IsKindFor (setting_in context.now) scope.old scope.new
        (λ start rest. assignment_shape start (name_shape name.now) (expr_shape value.now) rest)) }
    ensures place { OnOk result (scope.new ≡ after_statement scope.old) }
{
    let meaning = scope.meaning(context.globals, name.text.as_str());
    let value = expr_of(alloc, value, scope, context)?;
    scope.pass_statement();
    Ok(assigned(meaning, value))
}

/// An assignment to an element of an array.
pub fn element_assignment_of(
    alloc: Global,
    array: &NameDraft,
    index: &ExprDraft,
    value: &ExprDraft,
    scope: &mut Scope,
    context: &Context,
) -> Result<StmtKind, OutOfMemory>
    requires clean { block_faults (setting_in context.now) scope.old
        (element_assignment_shape no_start (name_shape array.now) (expr_shape index.now) (expr_shape value.now)
        end_shape) ≡ [] }
    requires counted { IsCounted (after_statement scope.old) }
    ensures kind { IfOk result (IsKindFor (setting_in context.now) scope.old scope.new
        (λ start rest. element_assignment_shape start (name_shape array.now) (expr_shape index.now)
        (expr_shape value.now) rest)) }
    ensures place { OnOk result (scope.new ≡ after_statement scope.old) }
{
    let field = array_of(scope.meaning(context.globals, array.text.as_str()));
    let index = expr_of(alloc, index, scope, context)?;
    let value = expr_of(alloc, value, scope, context)?;
    scope.pass_statement();
    Ok(StmtKind::SetElement {
        field,
        index,
        value,
    })
}

/// The method that is called.
fn called(meaning: Option<Meaning>) -> MethodId
    requires { (at : ℕ) × (keeps : Bool) × (args : ℕ) × (called_faults at keeps args meaning ≡ []) }
    ensures { method_of meaning ≡ Some result }
{
    match meaning {
        Some(Meaning::Method(method, _, _)) => method,
        _ => unreachable!(),
    }
}

/// The local that keeps the result of a call.
fn keeper(meaning: Option<Meaning>) -> VarId
    requires { (at : ℕ) × (keeper_faults at meaning ≡ []) }
    ensures { local_of meaning ≡ Some result }
{
    match meaning {
        Some(Meaning::Variable(variable)) => variable,
        _ => unreachable!(),
    }
}

/// Where the result of a call goes, where it is kept.
fn into_of(into: &Option<NameDraft>, scope: &Scope, context: &Context) -> Option<VarId>
    requires { into_faults (setting_in context.now) scope.now (option_map name_shape into.now) ≡ [] }
    ensures { into_tree (setting_in context.now) scope.now (option_map name_shape into.now) ≡ Some result }
{
    match into {
        None => None,
        Some(name) => Some(keeper(scope.meaning(context.globals, name.text.as_str()))),
    }
}

/// Arguments.
fn arguments_of(
    alloc: Global,
    drafts: &[ExprDraft],
    scope: &Scope,
    context: &Context,
) -> Result<Vec<Expr>, OutOfMemory>
    requires { flat_map (expr_faults (setting_in context.now) scope.now) (map expr_shape drafts.now) ≡ [] }
    ensures { IfOk result (λ exprs. AllZip (IsExprFor (setting_in context.now) scope.now)
        (map expr_shape drafts.now) (map expr_tree exprs.items)) }
{
    let mut exprs = Vec::new(alloc);
    for draft in drafts {
        let expr = expr_of(alloc, draft, scope, context)?;
        exprs.push(expr)?;
    }
    Ok(exprs)
}

/// A call of a method.
pub fn call_of(
    alloc: Global,
    method: &NameDraft,
    args: &[ExprDraft],
    into: &Option<NameDraft>,
    scope: &mut Scope,
    context: &Context,
) -> Result<StmtKind, OutOfMemory>
    requires clean { call_faults (setting_in context.now) scope.old (name_shape method.now)
        (map expr_shape args.now) (option_map name_shape into.now) ≡ [] }
    requires counted { IsCounted (after_call scope.old) }
    ensures kind { IfOk result (IsKindFor (setting_in context.now) scope.old scope.new
        (λ start rest. call_shape start (name_shape method.now) (map expr_shape args.now)
        (option_map name_shape into.now) rest)) }
    ensures place { OnOk result (scope.new ≡ after_call scope.old) }
{
    let method = called(scope.meaning(context.globals, method.text.as_str()));
    let into = into_of(into, scope, context);
    let args = arguments_of(alloc, args, scope, context)?;
    let site = SiteId(scope.site());
    scope.pass_call();
    Ok(StmtKind::Call {
        site,
        method,
        args,
        into,
    })
}

/// A `return`.
pub fn return_of(
    alloc: Global,
    value: &ExprDraft,
    scope: &mut Scope,
    context: &Context,
) -> Result<StmtKind, OutOfMemory>
    requires clean { expr_faults (setting_in context.now) scope.old (expr_shape value.now) ≡ [] }
    requires counted { IsCounted (after_statement scope.old) }
    ensures kind { IfOk result (IsKindFor (setting_in context.now) scope.old scope.new
        (λ start rest. return_shape start (expr_shape value.now) rest)) }
    ensures place { OnOk result (scope.new ≡ after_statement scope.old) }
{
    let value = expr_of(alloc, value, scope, context)?;
    scope.pass_statement();
    Ok(StmtKind::Return { value })
}

/// The guard of an `if` or a `while`, behind which the place goes on.
pub fn guard_of(
    alloc: Global,
    guard: &ExprDraft,
    scope: &mut Scope,
    context: &Context,
) -> Result<Expr, OutOfMemory>
    requires clean { expr_faults (setting_in context.now) scope.old (expr_shape guard.now) ≡ [] }
    requires counted { IsCounted (after_statement scope.old) }
    ensures guard { IfOk result (λ expr.
        IsExprFor (setting_in context.now) scope.old (expr_shape guard.now) (expr_tree expr)) }
    ensures place { OnOk result (scope.new ≡ after_statement scope.old) }
{
    let guard = expr_of(alloc, guard, scope, context)?;
    scope.pass_statement();
    Ok(guard)
}
