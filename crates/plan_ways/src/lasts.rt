//! The last statement inside each statement.

ghost use Rattle.std.specs.Prelude.{◌≡◌, ◌++◌, IfOk, OnOk, length, map};
ghost use Rattle.jif_tree.specs.Trees.{block_tree, program_tree};
ghost use Rattle.plan_ways.specs.Lasts as inside;

use jif_tree::{Program, Stmt, StmtKind};
use js_base::{OutOfMemory, StmtId};
use std::alloc::Global;

/// For each statement of a program the number of the last one in it, its own where it has no block. The head of a
/// method is a statement, and its body is inside it. Statements are numbered in the order of the text.
pub fn lasts_of(alloc: Global, program: &Program) -> Result<Vec<usize>, OutOfMemory>
    ensures { IfOk result (λ lasts. lasts.items ≡ inside.lasts_of (program_tree program.now)) }
{
    let mut lasts = Vec::new(alloc);
    for method in &program.methods {
        let head = lasts.len();
        lasts.push(head)?;
        push_block(&mut lasts, &method.body)?;
        lasts[head] = lasts.len() - 1;
    }
    Ok(lasts)
}

/// Adds the last statements inside those of a block, and of the blocks in it.
#[cycle(lasts)]
fn push_block(lasts: &mut Vec<usize>, block: &[Stmt]) -> Result<(), OutOfMemory>
    ensures { OnOk result (lasts.new.items
        ≡ lasts.old.items ++ inside.block_lasts (length lasts.old.items) (block_tree block.now)) }
{
    for statement in block {
        let own = lasts.len();
        lasts.push(own)?;
        push_nested(lasts, &statement.kind)?;
        lasts[own] = lasts.len() - 1;
    }
    Ok(())
}

/// Adds the last statements inside those in the blocks of a statement.
#[cycle(lasts)]
fn push_nested(lasts: &mut Vec<usize>, what: &StmtKind) -> Result<(), OutOfMemory>
    ensures { OnOk result (lasts.new.items
        ≡ lasts.old.items ++ inside.kind_lasts (length lasts.old.items) what.now) }
{
    match what {
        StmtKind::If { guard: _, yes, no } => {
            push_block(lasts, yes)?;
            push_block(lasts, no)?;
        }
        StmtKind::While { guard: _, body } => push_block(lasts, body)?,
        _ => {}
    }
    Ok(())
}

/// The heads of the methods.
pub fn heads_of(alloc: Global, program: &Program) -> Result<Vec<StmtId>, OutOfMemory>
    ensures { IfOk result (λ heads. heads.items ≡ inside.heads_of (program_tree program.now)) }
{
    let mut heads = Vec::new(alloc);
    for method in &program.methods {
        heads.push(method.head)?;
    }
    Ok(heads)
}

/// The number of the last statement inside a statement, its own where the table has none.
pub fn last_in(lasts: &[usize], statement: StmtId) -> usize
    ensures { result ≡ inside.last_in lasts.now statement }
{
    match lasts.get(statement.0 as usize) {
        Some(last) => *last,
        None => statement.0 as usize,
    }
}
