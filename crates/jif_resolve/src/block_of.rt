//! Blocks of statements, which are numbered in the order of the text.

ghost use Rattle.std.specs.Prelude.{◌≡◌, ◌∷◌, [], IfOk, OnOk};
ghost use Rattle.jif_tree.specs.Trees.{block_tree};
ghost use Rattle.jif_grammar.specs.DraftShapes.{statement_shape, block_shape};
ghost use Rattle.jif_resolve.specs.Places.{after_block};
ghost use Rattle.jif_resolve.specs.Faults.{block_faults};
ghost use Rattle.jif_resolve.specs.KnownNames.{IsCounted};
ghost use Rattle.jif_resolve.specs.Walks.{behind};
ghost use Rattle.jif_resolve.specs.Resolved.{IsBlockFor};
ghost use Rattle.jif_resolve.specs.Contexts.{setting_in};
ghost use Rattle.jif_resolve.specs.Making.{IsKindFor, IsStatementFor};

use crate::context::Context;
use crate::plain_statements::{
    assignment_of, call_of, declaration_of, element_assignment_of, guard_of, return_of,
};
use crate::scope::Scope;
use jif_tree::{Stmt, StmtDraft, StmtKind, StmtKindDraft, tree_laws};
use js_base::{OutOfMemory, StmtId};
use std::alloc::Global;

/// The statements of a block. Behind it its locals are no longer known.
#[cycle(numbered_blocks)]
pub fn block_of(
    alloc: Global,
    block: &[StmtDraft],
    scope: &mut Scope,
    context: &Context,
) -> Result<Vec<Stmt>, OutOfMemory>
    requires clean { block_faults (setting_in context.now) scope.old (block_shape block.now) ≡ [] }
    requires counted { IsCounted (after_block scope.old (block_shape block.now)) }
    ensures block { IfOk result (λ statements. IsBlockFor (setting_in context.now) scope.old
        (block_shape block.now) (block_tree statements.items)) }
    ensures place { OnOk result (scope.new ≡ after_block scope.old (block_shape block.now)) }
{
    let mark = scope.mark();
    let mut statements = Vec::new(alloc);
    for draft in block {
        let statement = statement_of(alloc, draft, scope, context)?;
        statements.push(statement)?;
    }
    scope.leave(mark);
    Ok(statements)
}

/// A statement with its number. Behind it a local that it declares is known.
#[cycle(numbered_blocks)]
fn statement_of(
    alloc: Global,
    draft: &StmtDraft,
    scope: &mut Scope,
    context: &Context,
) -> Result<Stmt, OutOfMemory>
    requires clean { block_faults (setting_in context.now) scope.old (block_shape (draft.now ∷ [])) ≡ [] }
    requires counted { IsCounted (behind scope.old (block_shape (draft.now ∷ []))) }
    ensures statement { IfOk result (IsStatementFor (setting_in context.now) scope.old scope.new
        (statement_shape draft.now.kind (record { at = draft.now.at; line = draft.now.line }))) }
    ensures place { OnOk result (scope.new ≡ behind scope.old (block_shape (draft.now ∷ []))) }
{
    let id = StmtId(scope.statement());
    let kind = kind_of(alloc, draft, scope, context)?;
    Ok(Stmt {
        id,
        line: draft.line,
        kind,
    })
}

/// What a statement does.
#[cycle(numbered_blocks)]
fn kind_of(
    alloc: Global,
    draft: &StmtDraft,
    scope: &mut Scope,
    context: &Context,
) -> Result<StmtKind, OutOfMemory>
    requires clean { block_faults (setting_in context.now) scope.old (block_shape (draft.now ∷ [])) ≡ [] }
    requires counted { IsCounted (behind scope.old (block_shape (draft.now ∷ []))) }
    ensures kind { IfOk result (IsKindFor (setting_in context.now) scope.old scope.new
        (statement_shape draft.now.kind)) }
    ensures place { OnOk result (scope.new ≡ behind scope.old (block_shape (draft.now ∷ []))) }
{
    tree_laws();
    match &draft.kind {
        StmtKindDraft::Declare { name, value, .. } => {
            declaration_of(alloc, name, value, scope, context)
        }
        StmtKindDraft::Assign { name, value } => assignment_of(alloc, name, value, scope, context),
        StmtKindDraft::AssignElement {
            array,
            index,
            value,
        } => element_assignment_of(alloc, array, index, value, scope, context),
        StmtKindDraft::If { guard, yes, no } => {
            let guard = guard_of(alloc, guard, scope, context)?;
            let yes = block_of(alloc, yes, scope, context)?;
            let no = block_of(alloc, no, scope, context)?;
            Ok(StmtKind::If { guard, yes, no })
        }
        StmtKindDraft::While { guard, body } => {
            let guard = guard_of(alloc, guard, scope, context)?;
            let body = block_of(alloc, body, scope, context)?;
            Ok(StmtKind::While { guard, body })
        }
        StmtKindDraft::Call { method, args, into } => {
            call_of(alloc, method, args, into, scope, context)
        }
        StmtKindDraft::Return { value } => return_of(alloc, value, scope, context),
    }
}
