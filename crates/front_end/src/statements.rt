//! The lines on which the statements of a program stand.

ghost use Rattle.std.specs.Prelude.{◌≡◌, ◌++◌, IfOk, OnOk};
ghost use Rattle.jif_tree.specs.Trees.{block_tree, program_tree};
ghost use Rattle.jif_tree.specs.Numbering as numbering;
ghost use Rattle.front_end.specs.StatementLines.{kind_lines};

use jif_tree::{Program, Stmt, StmtKind};
use js_base::OutOfMemory;
use std::alloc::Global;

/// The line of each statement by its number, from 1, where the head of a method is a statement.
pub fn statement_lines(alloc: Global, program: &Program) -> Result<Vec<u32>, OutOfMemory>
    ensures { IfOk result (λ lines. lines.items ≡ numbering.statement_lines (program_tree program.now)) }
{
    let mut lines = Vec::new(alloc);
    for method in &program.methods {
        lines.push(method.line)?;
        push_block(&mut lines, &method.body)?;
    }
    Ok(lines)
}

/// Adds the lines of the statements of a block, and of the blocks in it.
#[cycle(lines)]
fn push_block(lines: &mut Vec<u32>, block: &[Stmt]) -> Result<(), OutOfMemory>
    ensures { OnOk result (lines.new.items ≡ lines.old.items ++ numbering.block_lines (block_tree block.now)) }
{
    for statement in block {
        lines.push(statement.line)?;
        push_nested(lines, &statement.kind)?;
    }
    Ok(())
}

/// Adds the lines of the statements in the blocks of a statement.
#[cycle(lines)]
fn push_nested(lines: &mut Vec<u32>, what: &StmtKind) -> Result<(), OutOfMemory>
    ensures { OnOk result (lines.new.items ≡ lines.old.items ++ kind_lines what.now) }
{
    match what {
        StmtKind::If { guard: _, yes, no } => {
            push_block(lines, yes)?;
            push_block(lines, no)?;
        }
        StmtKind::While { guard: _, body } => push_block(lines, body)?,
        _ => {}
    }
    Ok(())
}
