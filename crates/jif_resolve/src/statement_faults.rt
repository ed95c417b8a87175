//! The faults of statements and blocks.

ghost use Rattle.std.specs.Prelude.{◌≡◌, ◌++◌, ◌∷◌, [], not, map, IfOk, OnOk};
ghost use Rattle.std.specs.Option.{option_map};
ghost use Rattle.jif_grammar.specs.DraftShapes.{name_shape, label_shape, expr_shape, block_shape};
ghost use Rattle.jif_resolve.specs.Contexts.{setting_in};
ghost use Rattle.jif_resolve.specs.First.{with_faults};
ghost use Rattle.jif_resolve.specs.KnownNames.{IsCounted};
ghost use Rattle.jif_resolve.specs.Places.{meaning_at, after_statement, after_call, after_declaration, after_block};
ghost use Rattle.jif_resolve.specs.Faults.{optional_label_faults, local_faults, variable_faults, array_faults};
ghost use Rattle.jif_resolve.specs.Faults.{expr_faults, call_faults, block_faults, fault_where};
ghost use Rattle.jif_resolve.specs.Walks.{behind};
ghost use Rattle.jif_resolve.specs.declared.fault.FaultKind.TheVariants.{WrongType};

use crate::context::Context;
use crate::expression_faults::{with_array_name, with_call, with_expr, with_variable_name};
use crate::fault::{Fault, FaultKind};
use crate::labels::with_optional_label;
use crate::scope::Scope;
use crate::uses::with_kind_where;
use jif_tree::{ExprDraft, LabelDraft, NameDraft, StmtDraft, StmtKindDraft};
use js_base::OutOfMemory;
use std::alloc::Global;

/// The first of the faults so far and that of the name of a parameter or a local which is declared here.
pub fn with_local(
    first: Option<Fault>,
    name: &NameDraft,
    scope: &Scope,
    context: &Context,
) -> Option<Fault>
    ensures { result ≡ with_faults first (local_faults (setting_in context.now) scope.now (name_shape name.now)) }
{
    let in_program = context.globals.has(name.text.as_str());
    let in_method = scope.is_taken(name.text.as_str());
    with_kind_where(first, in_program || in_method, name.at, FaultKind::Twice)
}

/// The same for the declaration of a local.
#[tactic(auto, using(crate::proofs::Sooner::faults_joined))]
fn with_declaration(
    alloc: Global,
    first: Option<Fault>,
    label: &Option<LabelDraft>,
    name: &NameDraft,
    value: &ExprDraft,
    scope: &mut Scope,
    context: &Context,
) -> Result<Option<Fault>, OutOfMemory>
    requires { IsCounted (after_declaration scope.old (name_shape name.now)) }
    ensures faults { IfOk result (λ found. found ≡ with_faults first
        (optional_label_faults (setting_in context.now).principals (option_map label_shape label.now)
        ++ local_faults (setting_in context.now) scope.old (name_shape name.now)
        ++ expr_faults (setting_in context.now) scope.old (expr_shape value.now))) }
    ensures place { OnOk result (scope.new ≡ after_declaration scope.old (name_shape name.now)) }
{
    let labelled = with_optional_label(first, label, context.principals);
    let named = with_local(labelled, name, scope, context);
    let found = with_expr(named, value, scope, context);
    scope.declare(alloc, name)?;
    scope.pass_statement();
    Ok(found)
}

/// The same for an assignment.
#[tactic(auto, using(crate::proofs::Sooner::faults_joined))]
fn with_assignment(
    first: Option<Fault>,
    name: &NameDraft,
    value: &ExprDraft,
    scope: &mut Scope,
    context: &Context,
) -> Option<Fault>
    requires { IsCounted (after_statement scope.old) }
    ensures faults { result ≡ with_faults first
        (variable_faults name.now.at (meaning_at (setting_in context.now) scope.old (name_shape name.now).text)
        ++ expr_faults (setting_in context.now) scope.old (expr_shape value.now)) }
    ensures place { scope.new ≡ after_statement scope.old }
{
    let named = with_variable_name(first, name, scope, context);
    let found = with_expr(named, value, scope, context);
    scope.pass_statement();
    found
}

/// The same for an assignment to an element.
#[tactic(auto, using(crate::proofs::Sooner::faults_joined))]
fn with_element(
    first: Option<Fault>,
    array: &NameDraft,
    index: &ExprDraft,
    value: &ExprDraft,
    scope: &mut Scope,
    context: &Context,
) -> Option<Fault>
    requires { IsCounted (after_statement scope.old) }
    ensures faults { result ≡ with_faults first
        (array_faults array.now.at (meaning_at (setting_in context.now) scope.old (name_shape array.now).text)
        ++ expr_faults (setting_in context.now) scope.old (expr_shape index.now)
        ++ expr_faults (setting_in context.now) scope.old (expr_shape value.now)) }
    ensures place { scope.new ≡ after_statement scope.old }
{
    let named = with_array_name(first, array, scope, context);
    let indexed = with_expr(named, index, scope, context);
    let found = with_expr(indexed, value, scope, context);
    scope.pass_statement();
    found
}

/// The same for a call, behind which the place goes on.
fn with_call_statement(
    first: Option<Fault>,
    method: &NameDraft,
    args: &[ExprDraft],
    into: &Option<NameDraft>,
    scope: &mut Scope,
    context: &Context,
) -> Option<Fault>
    requires { IsCounted (after_call scope.old) }
    ensures faults { result ≡ with_faults first (call_faults (setting_in context.now) scope.old
        (name_shape method.now) (map expr_shape args.now) (option_map name_shape into.now)) }
    ensures place { scope.new ≡ after_call scope.old }
{
    let found = with_call(first, method, args, into, scope, context);
    scope.pass_call();
    found
}

/// The same for a `return` whose first token is this one.
#[tactic(auto, using(crate::proofs::Sooner::faults_joined))]
fn with_return(
    first: Option<Fault>,
    at: u32,
    value: &ExprDraft,
    scope: &mut Scope,
    context: &Context,
) -> Option<Fault>
    requires { IsCounted (after_statement scope.old) }
    ensures faults { result ≡ with_faults first
        (fault_where (not (setting_in context.now).gives) WrongType at
        ++ expr_faults (setting_in context.now) scope.old (expr_shape value.now)) }
    ensures place { scope.new ≡ after_statement scope.old }
{
    let placed = with_kind_where(first, !context.gives, at, FaultKind::WrongType);
    let found = with_expr(placed, value, scope, context);
    scope.pass_statement();
    found
}

/// The same for a guard, behind which the place goes on.
fn with_guard(
    first: Option<Fault>,
    guard: &ExprDraft,
    scope: &mut Scope,
    context: &Context,
) -> Option<Fault>
    requires { IsCounted (after_statement scope.old) }
    ensures faults { result
        ≡ with_faults first (expr_faults (setting_in context.now) scope.old (expr_shape guard.now)) }
    ensures place { scope.new ≡ after_statement scope.old }
{
    let found = with_expr(first, guard, scope, context);
    scope.pass_statement();
    found
}

/// The same for a block. Behind it its locals are no longer known.
#[cycle(statement_faults)]
pub fn with_block(
    alloc: Global,
    first: Option<Fault>,
    block: &[StmtDraft],
    scope: &mut Scope,
    context: &Context,
) -> Result<Option<Fault>, OutOfMemory>
    requires { IsCounted (after_block scope.old (block_shape block.now)) }
    ensures faults { IfOk result (λ found. found
        ≡ with_faults first (block_faults (setting_in context.now) scope.old (block_shape block.now))) }
    ensures place { OnOk result (scope.new ≡ after_block scope.old (block_shape block.now)) }
{
    let mark = scope.mark();
    let mut sooner_one = first;
    for statement in block {
        sooner_one = with_statement(alloc, sooner_one, statement, scope, context)?;
    }
    scope.leave(mark);
    Ok(sooner_one)
}

/// The same for a statement. Behind it a local that it declares is known.
#[cycle(statement_faults)]
fn with_statement(
    alloc: Global,
    first: Option<Fault>,
    statement: &StmtDraft,
    scope: &mut Scope,
    context: &Context,
) -> Result<Option<Fault>, OutOfMemory>
    requires { IsCounted (behind scope.old (block_shape (statement.now ∷ []))) }
    ensures faults { IfOk result (λ found. found
        ≡ with_faults first (block_faults (setting_in context.now) scope.old (block_shape (statement.now ∷ [])))) }
    ensures place { OnOk result (scope.new ≡ behind scope.old (block_shape (statement.now ∷ []))) }
{
    match &statement.kind {
        StmtKindDraft::Declare { label, name, value } => {
            with_declaration(alloc, first, label, name, value, scope, context)
        }
        StmtKindDraft::Assign { name, value } => {
            Ok(with_assignment(first, name, value, scope, context))
        }
        StmtKindDraft::AssignElement {
            array,
            index,
            value,
        } => Ok(with_element(first, array, index, value, scope, context)),
        StmtKindDraft::If { guard, yes, no } => {
            let guarded = with_guard(first, guard, scope, context);
            let found = with_block(alloc, guarded, yes, scope, context)?;
            with_block(alloc, found, no, scope, context)
        }
        StmtKindDraft::While { guard, body } => {
            let guarded = with_guard(first, guard, scope, context);
            with_block(alloc, guarded, body, scope, context)
        }
        StmtKindDraft::Call { method, args, into } => Ok(with_call_statement(
            first, method, args, into, scope, context,
        )),
        StmtKindDraft::Return { value } => {
            Ok(with_return(first, statement.at, value, scope, context))
        }
    }
}
