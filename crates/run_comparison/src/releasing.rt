//! The statements of a program that release something.

ghost use Rattle.std.specs.Prelude.{◌≡◌, ◌++◌, IfOk, OnOk};
ghost use Rattle.jif_tree.specs.Trees.{block_tree, program_tree};
ghost use Rattle.releasing_statements.specs.Kinds.{own_exprs};
ghost use Rattle.releasing_statements.specs.Releases as spec;
ghost use Rattle.run_comparison.specs.ReleasingKinds.{kind_releases};

use jif_tree::{Program, Stmt, StmtKind};
use js_base::OutOfMemory;
use releasing_statements::releases_itself;
use std::alloc::Global;

/// The number of the first statement whose own expressions hold a `declassify`, and 0 where there is none.
pub fn first_release(alloc: Global, program: &Program) -> Result<u32, OutOfMemory>
    ensures { IfOk result (λ statement. statement ≡ spec.first_release (program_tree program.now)) }
{
    let mut found = Vec::new(alloc);
    for method in &program.methods {
        push_block(&mut found, &method.body)?;
    }
    Ok(found.first().copied().unwrap_or(0))
}

/// Adds the statements of a block, and of the blocks in it, that release something.
#[cycle(found)]
fn push_block(found: &mut Vec<u32>, block: &[Stmt]) -> Result<(), OutOfMemory>
    ensures { OnOk result (found.new.items ≡ found.old.items ++ spec.block_releases (block_tree block.now)) }
{
    for statement in block {
        push_own(found, statement)?;
        push_nested(found, &statement.kind)?;
    }
    Ok(())
}

/// Adds the statements in the blocks of a statement that release something.
#[cycle(found)]
fn push_nested(found: &mut Vec<u32>, what: &StmtKind) -> Result<(), OutOfMemory>
    ensures { OnOk result (found.new.items ≡ found.old.items ++ kind_releases what.now) }
{
    match what {
        StmtKind::If { guard: _, yes, no } => {
            push_block(found, yes)?;
            push_block(found, no)?;
        }
        StmtKind::While { guard: _, body } => push_block(found, body)?,
        _ => {}
    }
    Ok(())
}

/// Adds a statement of whose own expressions one releases something.
fn push_own(found: &mut Vec<u32>, statement: &Stmt) -> Result<(), OutOfMemory>
    ensures { OnOk result (found.new.items
        ≡ found.old.items ++ spec.if_releasing statement.now.id.0 (own_exprs statement.now.kind)) }
{
    if releases_itself(&statement.kind) {
        found.push(statement.id.0)?;
    }
    Ok(())
}
