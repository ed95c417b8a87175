//! How it is told what brings something into a label.

ghost use Rattle.std.specs.Prelude.{◌≡◌, IfOk};
ghost use Rattle.std.specs.String.{string_bytes};
ghost use Rattle.explain_texts.specs.Causes as causes;
ghost use Rattle.explain_texts.specs.Sheets.{sheet_shape};

use crate::names::{field_name, kind_of_field, method_name, variable_name, variable_words};
use crate::sheet::{Sheet, part_line};
use js_base::{FieldId, OutOfMemory};
use label_reasons::{Cause, Source, Via};
use std::alloc::Global;

/// Where the label is written that has it, and what it came through.
pub fn cause_text(alloc: Global, sheet: &Sheet<'_>, cause: Cause) -> Result<String, OutOfMemory>
    ensures { IfOk result (λ text. string_bytes text ≡ causes.cause_text (sheet_shape sheet.now) cause) }
{
    let source = source_text(alloc, sheet, cause.source)?;
    let via = via_text(alloc, sheet, cause.via)?;
    Ok(format!(in alloc; "{source}{via}")?)
}

/// Where the label is written that has it.
pub fn source_text(alloc: Global, sheet: &Sheet<'_>, source: Source) -> Result<String, OutOfMemory>
    ensures { IfOk result (λ text. string_bytes text ≡ causes.source_text (sheet_shape sheet.now) source) }
{
    match source {
        Source::OfField(field) => field_source(alloc, sheet, field),
        Source::OfVariable(x) => {
            let words = variable_words(alloc, sheet.program, "local ", x)?;
            let line = part_line(sheet, &sheet.places.variables, x.0);
            on_line(alloc, words.as_str(), line)
        }
        Source::OfBegin(method) => {
            let name = method_name(sheet.program, method);
            let words = format!(in alloc; "the begin label of {name}")?;
            let line = part_line(sheet, &sheet.places.methods, method.0);
            on_line(alloc, words.as_str(), line)
        }
        Source::Written(statement) => {
            let line = part_line(sheet, &sheet.places.statements, statement.0);
            Ok(format!(in alloc; "the label in line {line}")?)
        }
    }
}

/// A field or an array whose label has it.
fn field_source(alloc: Global, sheet: &Sheet<'_>, field: FieldId) -> Result<String, OutOfMemory>
    ensures { IfOk result (λ text.
        string_bytes text ≡ causes.source_text (sheet_shape sheet.now) (Source.OfField field)) }
{
    let kind = kind_of_field(sheet.program, field);
    let name = field_name(sheet.program, field);
    let words = format!(in alloc; "{kind}{name}")?;
    let line = part_line(sheet, &sheet.places.fields, field.0);
    on_line(alloc, words.as_str(), line)
}

/// Words, and the line of what they name.
pub fn on_line(alloc: Global, words: &str, line: u32) -> Result<String, OutOfMemory>
    ensures { IfOk result (λ text. string_bytes text ≡ causes.on_line words.now line) }
{
    Ok(format!(in alloc; "{words} (line {line})")?)
}

/// What it came through last.
fn via_text(alloc: Global, sheet: &Sheet<'_>, via: Via) -> Result<String, OutOfMemory>
    ensures { IfOk result (λ text. string_bytes text ≡ causes.via_text (sheet_shape sheet.now) via) }
{
    match via {
        Via::Itself => Ok(String::new(alloc)),
        Via::ByLocal(x, statement) => {
            let name = variable_name(sheet.program, x);
            let line = part_line(sheet, &sheet.places.statements, statement.0);
            Ok(format!(in alloc; ", through local {name} (line {line})")?)
        }
        Via::ByGuard(statement) => {
            let line = part_line(sheet, &sheet.places.statements, statement.0);
            Ok(format!(in alloc; ", through the guard of line {line}")?)
        }
    }
}
