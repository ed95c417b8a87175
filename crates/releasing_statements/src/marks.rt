//! Of each statement by its number whether it releases something.

ghost use Rattle.std.specs.Prelude.{◌≡◌, ◌++◌, IfOk, OnOk};
ghost use Rattle.jif_tree.specs.Trees.{block_tree, program_tree};
ghost use Rattle.releasing_statements.specs.Kinds.{kind_marks};
ghost use Rattle.releasing_statements.specs.Marks.{block_marks, released_statements};

use crate::expressions::releases_itself;
use jif_tree::{Program, Stmt, StmtKind};
use js_base::OutOfMemory;
use std::alloc::Global;

/// Of each statement by its number, where the head of a method is a statement, whether one of its own expressions
/// releases a value.
pub fn released_statements(alloc: Global, program: &Program) -> Result<Vec<bool>, OutOfMemory>
    ensures { IfOk result (λ marks. marks.items ≡ released_statements (program_tree program.now)) }
{
    let mut marks = Vec::new(alloc);
    for method in &program.methods {
        marks.push(false)?;
        push_block(&mut marks, &method.body)?;
    }
    Ok(marks)
}

/// Adds those of a block, and of the blocks in it.
#[cycle(marks)]
fn push_block(marks: &mut Vec<bool>, block: &[Stmt]) -> Result<(), OutOfMemory>
    ensures { OnOk result (marks.new.items ≡ marks.old.items ++ block_marks (block_tree block.now)) }
{
    for statement in block {
        marks.push(releases_itself(&statement.kind))?;
        push_nested(marks, &statement.kind)?;
    }
    Ok(())
}

/// Adds those in the blocks of a statement.
#[cycle(marks)]
fn push_nested(marks: &mut Vec<bool>, what: &StmtKind) -> Result<(), OutOfMemory>
    ensures { OnOk result (marks.new.items ≡ marks.old.items ++ kind_marks what.now) }
{
    match what {
        StmtKind::If { guard: _, yes, no } => {
            push_block(marks, yes)?;
            push_block(marks, no)?;
        }
        StmtKind::While { guard: _, body } => push_block(marks, body)?,
        _ => {}
    }
    Ok(())
}
