//! The parts that a word means, and the part that no host may hold.

ghost use Rattle.std.specs.Prelude.{◌≡◌, ◌<◌, ◌^◌, IfOk, Some, length, map, slice_get};
ghost use Rattle.jif_tree.specs.Trees.{program_tree};
ghost use Rattle.place_texts.specs.Meant as meaning;
ghost use Rattle.place_texts.specs.Parts.{fields_of, part_shape, statements_of};

use crate::part::{Part, line_of, parts_of, statements_of};
use explain_texts::field_name;
use jif_tree::Program;
use js_base::{FieldId, OutOfMemory, StmtId};
use place_rules::PlaceError;
use std::alloc::{AllocError, Global};

/// Whether the word is the number of this line.
fn begins_on(alloc: Global, word: &str, line: u32) -> Result<bool, AllocError>
    ensures { IfOk result (λ begins. begins ≡ meaning.begins_on word.now line) }
{
    let number = format!(in alloc; "{line}")?;
    Ok(number.as_str() == word)
}

/// Whether the word means the part.
fn is_meant(
    alloc: Global,
    program: &Program,
    word: &str,
    part: &Part<'_>,
) -> Result<bool, OutOfMemory>
    ensures { IfOk result (λ is_so.
        is_so ≡ meaning.is_meant (program_tree program.now) word.now (part_shape part.now)) }
{
    match *part {
        Part::Field(field) => Ok(field_name(program, field) == word),
        Part::Head(method) => {
            if method.name.as_str() == word {
                return Ok(true);
            }
            Ok(begins_on(alloc, word, method.line)?)
        }
        Part::Statement(_, _) => Ok(begins_on(alloc, word, line_of(part))?),
    }
}

/// The parts that the word means: the field or the head of this name, or what begins on this line.
///
/// # Errors
/// That memory ran out.
pub fn meant<'a>(
    alloc: Global,
    program: &'a Program,
    word: &str,
) -> Result<Vec<Part<'a>>, OutOfMemory>
    requires { length program.now.fields.items < 2 ^ 32 }
    ensures { IfOk result (λ parts. map part_shape parts.items ≡ meaning.meant (program_tree program.now) word.now) }
{
    let all = parts_of(alloc, program)?;
    let mut parts = Vec::new(alloc);
    for part in &all {
        if is_meant(alloc, program, word, part)? {
            parts.push(*part)?;
        }
    }
    Ok(parts)
}

/// The part that no host may hold.
///
/// # Errors
/// That memory ran out.
pub fn unheld_parts<'a>(
    alloc: Global,
    program: &'a Program,
    why: PlaceError,
) -> Result<Vec<Part<'a>>, OutOfMemory>
    ensures { IfOk result (λ parts.
        map part_shape parts.items ≡ meaning.unheld_parts (program_tree program.now) why) }
{
    match why {
        PlaceError::OutOfMemory => Ok(Vec::new(alloc)),
        PlaceError::NoHostForField(field) => unheld_field(alloc, program, field),
        PlaceError::NoHostForStatement(statement) => unheld_statement(alloc, program, statement),
    }
}

/// A field of the program.
fn unheld_field<'a>(
    alloc: Global,
    program: &'a Program,
    field: FieldId,
) -> Result<Vec<Part<'a>>, OutOfMemory>
    ensures { IfOk result (λ parts. map part_shape parts.items
        ≡ meaning.one_of (slice_get (fields_of (program_tree program.now)) field.0)) }
{
    let mut parts = Vec::new(alloc);
    if (field.0 as usize) < program.fields.len() {
        parts.push(Part::Field(field))?;
        return Ok(parts);
    }
    Ok(parts)
}

/// A statement of the program.
fn unheld_statement<'a>(
    alloc: Global,
    program: &'a Program,
    statement: StmtId,
) -> Result<Vec<Part<'a>>, OutOfMemory>
    ensures { IfOk result (λ parts. map part_shape parts.items
        ≡ meaning.one_of (slice_get (statements_of (program_tree program.now)) statement.0)) }
{
    let all = statements_of(alloc, program)?;
    let mut parts = Vec::new(alloc);
    if let Some(part) = all.get(statement.0 as usize).copied() {
        parts.push(part)?;
    }
    Ok(parts)
}
