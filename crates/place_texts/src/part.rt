//! The parts of a program that hosts hold.

ghost use Rattle.std.specs.Prelude.{◌≡◌, ◌++◌, ◌<◌, ◌^◌, ℕ, All, IfOk, OnOk, length, map};
ghost use Rattle.jif_tree.specs.Trees.{BlockTree, block_tree, method_tree, program_tree, tree_before};
ghost use Rattle.place_texts.specs.Parts as parts;
ghost use Rattle.place_texts.specs.Parts.{block_parts, fields_of, method_parts, part_shape, statements_of};

use jif_tree::{Method, Program, Stmt, StmtKind, tree_laws};
use js_base::{FieldId, OutOfMemory, StmtId};
use std::alloc::Global;

/// A part of a program.
#[derive(Clone, Copy)]
pub enum Part<'a> {
    Field(FieldId),
    /// The head of a method.
    Head(&'a Method),
    /// A statement of a method.
    Statement(&'a Method, &'a Stmt),
}

/// The number of a field, or of a statement.
pub fn number_of(part: &Part<'_>) -> u32
    ensures { result ≡ parts.number_of (part_shape part.now) }
{
    match *part {
        Part::Field(field) => field.0,
        Part::Head(method) => method.head.0,
        Part::Statement(_, statement) => statement.id.0,
    }
}

/// The line on which a head or a statement begins.
pub fn line_of(part: &Part<'_>) -> u32
    ensures { result ≡ parts.line_of (part_shape part.now) }
{
    match *part {
        Part::Field(_) => 0,
        Part::Head(method) => method.line,
        Part::Statement(_, statement) => statement.line,
    }
}

/// All parts of a program: its fields, and then its heads and statements, by their numbers.
///
/// # Errors
/// That memory ran out.
pub fn parts_of<'a>(alloc: Global, program: &'a Program) -> Result<Vec<Part<'a>>, OutOfMemory>
    requires { length program.now.fields.items < 2 ^ 32 }
    ensures { IfOk result (λ all. map part_shape all.items ≡ parts.parts_of (program_tree program.now)) }
{
    let mut all = Vec::new(alloc);
    push_fields(&mut all, program)?;
    push_statements(&mut all, program)?;
    Ok(all)
}

/// The heads and statements of a program, by their numbers.
///
/// # Errors
/// That memory ran out.
pub fn statements_of<'a>(alloc: Global, program: &'a Program) -> Result<Vec<Part<'a>>, OutOfMemory>
    ensures { IfOk result (λ all. map part_shape all.items ≡ statements_of (program_tree program.now)) }
{
    let mut all = Vec::new(alloc);
    push_statements(&mut all, program)?;
    Ok(all)
}

/// Adds the fields.
fn push_fields<'a>(all: &mut Vec<Part<'a>>, program: &'a Program) -> Result<(), OutOfMemory>
    requires { length program.now.fields.items < 2 ^ 32 }
    ensures { OnOk result (map part_shape all.new.items
        ≡ map part_shape all.old.items ++ fields_of (program_tree program.now)) }
{
    for number in 0..program.fields.len() {
        all.push(Part::Field(FieldId(number as u32)))?;
    }
    Ok(())
}

/// Adds the heads and statements.
fn push_statements<'a>(all: &mut Vec<Part<'a>>, program: &'a Program) -> Result<(), OutOfMemory>
    ensures { OnOk result (map part_shape all.new.items
        ≡ map part_shape all.old.items ++ statements_of (program_tree program.now)) }
{
    for method in &program.methods {
        push_method(all, method)?;
    }
    Ok(())
}

/// Adds the head of a method and its statements.
fn push_method<'a>(all: &mut Vec<Part<'a>>, method: &'a Method) -> Result<(), OutOfMemory>
    ensures { OnOk result (map part_shape all.new.items
        ≡ map part_shape all.old.items ++ method_parts (method_tree method.now)) }
{
    all.push(Part::Head(method))?;
    push_block(all, method, &method.body)?;
    Ok(())
}

/// Adds the statements of a block, and of the blocks in it.
#[cycle(blocks)]
fn push_block<'a>(
    all: &mut Vec<Part<'a>>,
    method: &'a Method,
    block: &'a [Stmt],
) -> Result<(), OutOfMemory>
    ensures { OnOk result (map part_shape all.new.items
        ≡ map part_shape all.old.items ++ block_parts (method_tree method.now) (block_tree block.now)) }
{
    for statement in block {
        push_statement(all, method, statement)?;
    }
    Ok(())
}

/// Adds a statement, and those in it.
#[cycle(blocks)]
fn push_statement<'a>(
    all: &mut Vec<Part<'a>>,
    method: &'a Method,
    statement: &'a Stmt,
) -> Result<(), OutOfMemory>
    ensures { OnOk result ((rest : BlockTree) →
        map part_shape all.new.items ++ block_parts (method_tree method.now) rest
        ≡ map part_shape all.old.items ++ block_parts (method_tree method.now) (tree_before statement.now rest)) }
{
    tree_laws();
    all.push(Part::Statement(method, statement))?;
    match &statement.kind {
        StmtKind::If { yes, no, .. } => {
            push_block(all, method, yes)?;
            push_block(all, method, no)?;
            Ok(())
        }
        StmtKind::While { body, .. } => {
            push_block(all, method, body)?;
            Ok(())
        }
        StmtKind::Let { .. } => Ok(()),
        StmtKind::SetField { .. } => Ok(()),
        StmtKind::SetElement { .. } => Ok(()),
        StmtKind::Call { .. } => Ok(()),
        StmtKind::Return { .. } => Ok(()),
    }
}
