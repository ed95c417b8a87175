//! The script that journals are merged into.

ghost use Rattle.std.specs.Prelude.{◌≡◌, ◌++◌, ◌∷◌, [], IfOk, OnOk, map};
ghost use Rattle.std.specs.String.{string_bytes};
ghost use Rattle.event_text.specs.EventText.{event_text};
ghost use Rattle.event_text.specs.ScriptText.{row_lines, script_text, setting_lines, text_of_lines};
ghost use Rattle.event_text.specs.Settings.{form_of};

use event_text::{Event, event_line, setting_line};
use host_code::{Code, CodeField};
use jif_tree::{Row, Store};
use js_base::OutOfMemory;
use std::alloc::Global;

/// The script of these starting values and events, where no host misbehaves: a line for each element that is not what
/// the elements of its field start with, and then one for each event.
pub fn merged_script(
    alloc: Global,
    code: &Code,
    start: &Store,
    events: &[Event],
) -> Result<String, OutOfMemory>
    ensures { IfOk result (λ text. string_bytes text ≡ script_text code.now 0 start.now events.now) }
{
    let mut text = String::new(alloc);
    push_settings(alloc, &mut text, code.fields(), start.rows())?;
    push_events(alloc, &mut text, code, events)?;
    Ok(text)
}

/// Adds a line for each element that is not what the elements of its field start with.
fn push_settings(
    alloc: Global,
    text: &mut String,
    fields: &[CodeField],
    rows: &[Row],
) -> Result<(), OutOfMemory>
    ensures { OnOk result (string_bytes text.new
        ≡ string_bytes text.old ++ text_of_lines (setting_lines (map form_of fields.now) rows.now)) }
{
    for (place, field) in fields.iter().enumerate() {
        let Some(row) = rows.get(place) else {
            return Ok(());
        };
        push_row(alloc, text, field, row.elements())?;
    }
    Ok(())
}

/// Adds a line for each of these elements of a field that is not what its elements start with.
fn push_row(
    alloc: Global,
    text: &mut String,
    field: &CodeField,
    elements: &[i64],
) -> Result<(), OutOfMemory>
    ensures { OnOk result (string_bytes text.new
        ≡ string_bytes text.old ++ text_of_lines (row_lines (form_of field.now) 0 elements.now)) }
{
    for (index, value) in elements.iter().enumerate() {
        push_element(alloc, text, field, index, *value)?;
    }
    Ok(())
}

/// Adds the line of an element of a field, where it is not what its elements start with.
fn push_element(
    alloc: Global,
    text: &mut String,
    field: &CodeField,
    index: usize,
    value: i64,
) -> Result<(), OutOfMemory>
    ensures { OnOk result (string_bytes text.new
        ≡ string_bytes text.old ++ text_of_lines (row_lines (form_of field.now) index (value ∷ []))) }
{
    if value == field.first() {
        return Ok(());
    }
    let line = setting_line(alloc, field, index, value)?;
    push_line(text, line.as_str())
}

/// Adds a line for each event.
fn push_events(
    alloc: Global,
    text: &mut String,
    code: &Code,
    events: &[Event],
) -> Result<(), OutOfMemory>
    ensures { OnOk result (string_bytes text.new
        ≡ string_bytes text.old ++ text_of_lines (map (event_text code.now) events.now)) }
{
    for event in events {
        let line = event_line(alloc, code, event)?;
        push_line(text, line.as_str())?;
    }
    Ok(())
}

/// Adds a line and the line feed that ends it.
fn push_line(text: &mut String, line: &str) -> Result<(), OutOfMemory>
    ensures { OnOk result (string_bytes text.new ≡ string_bytes text.old ++ text_of_lines (line.now ∷ [])) }
{
    text.push_str(line)?;
    text.push_str("\n")?;
    Ok(())
}
