//! The lines of the fields on a host.

ghost use Rattle.std.specs.Prelude.{◌≡◌, ◌∷◌, ◌++◌, ◌<◌, ◌^◌, IfOk, OnOk};
ghost use Rattle.std.specs.Fmt.{signed_decimal};
ghost use Rattle.std.specs.List.{flat_map};
ghost use Rattle.std.specs.String.{string_bytes};
ghost use Rattle.front_end.specs.Text.{line_text, lines_text};
ghost use Rattle.jiffields.specs.Fields.{elements_of, field_line, fields_text, row_line, row_text};

use host_code::{Code, CodeField};
use host_core::ToldHost;
use js_base::{FieldId, HostId, OutOfMemory};
use std::alloc::Global;
use std::fmt::Write;

/// The lines of the fields on the host of this number, by what it holds.
pub fn fields_text(
    alloc: Global,
    code: &Code,
    me: HostId,
    host: &ToldHost,
) -> Result<String, OutOfMemory>
    ensures { IfOk result (λ text. string_bytes text ≡ fields_text code.now me host.now.stores.rows) }
{
    let mut text = String::new(alloc);
    for (number, field) in code.fields().iter().enumerate() {
        push_field(alloc, &mut text, me, host, number, field)?;
    }
    Ok(text)
}

/// Adds the line of the field of this number, where it is on the host.
fn push_field(
    alloc: Global,
    text: &mut String,
    me: HostId,
    host: &ToldHost,
    number: usize,
    field: &CodeField,
) -> Result<(), OutOfMemory>
    requires { number < 2 ^ 32 }
    ensures { OnOk result (
        string_bytes text.new ≡ string_bytes text.old
        ++ lines_text (field_line me host.now.stores.rows number field.now)) }
{
    if field.host().0 != me.0 {
        return Ok(());
    }
    let row = elements_of(alloc, host, FieldId(number as u32), field.size())?;
    push_row_line(text, field.name(), &row)
}

/// So many elements of a field on a host.
fn elements_of(
    alloc: Global,
    host: &ToldHost,
    field: FieldId,
    size: u32,
) -> Result<Vec<i64>, OutOfMemory>
    ensures { IfOk result (λ row. row.items ≡ elements_of host.now.stores.rows field.0 size) }
{
    let mut row = Vec::new(alloc);
    for index in 0..size {
        row.push(host.field(field, i64::from(index)))?;
    }
    Ok(row)
}

/// Adds the line of a field of this name and these elements.
fn push_row_line(text: &mut String, name: &str, row: &[i64]) -> Result<(), OutOfMemory>
    ensures { OnOk result (string_bytes text.new ≡ string_bytes text.old ++ line_text (row_line name.now row.now)) }
{
    write!(text, "field {name} = ").map_err(|_| OutOfMemory)?;
    push_row(text, row)?;
    text.push('\n')?;
    Ok(())
}

/// Adds elements, parted by spaces.
fn push_row(text: &mut String, row: &[i64]) -> Result<(), OutOfMemory>
    ensures { OnOk result (string_bytes text.new ≡ string_bytes text.old ++ row_text row.now) }
{
    let Some((first, rest)) = row.split_first() else {
        return Ok(());
    };
    write!(text, "{first}").map_err(|_| OutOfMemory)?;
    push_rest(text, rest)
}

/// Adds the elements after the first, each after a space.
fn push_rest(text: &mut String, rest: &[i64]) -> Result<(), OutOfMemory>
    ensures { OnOk result (
        string_bytes text.new ≡ string_bytes text.old
        ++ flat_map (λ element. 32 ∷ signed_decimal element) rest.now) }
{
    for element in rest {
        write!(text, " {element}").map_err(|_| OutOfMemory)?;
    }
    Ok(())
}
