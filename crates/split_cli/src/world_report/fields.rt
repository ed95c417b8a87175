//! The lines and the values of the fields.

ghost use Rattle.std.specs.Prelude.{◌≡◌, ◌^◌, ◌<◌, ◌++◌, IfOk, OnOk};
ghost use Rattle.std.specs.String.{string_bytes};
ghost use Rattle.host_core.specs.Host.{state_of};
ghost use Rattle.net_world.specs.Fits.{world_of};
ghost use Rattle.net_world.specs.World.{state_at};
ghost use Rattle.split_cli.specs.Making.{field_value, field_values};
ghost use Rattle.split_cli.specs.WorldReport.{elements_of, field_line, field_lines};
ghost use Rattle.front_end.specs.Text.{lines_text};

use crate::row_line::{push_row, push_row_line};
use host_code::{Code, CodeField};
use host_core::Host;
use js_base::{FieldId, OutOfMemory};
use net_world::World;
use std::alloc::Global;
use std::fmt::Write;

/// Adds the lines of the fields, where their hosts obey.
#[tactic(auto, using(crate::proofs::WorldLines::field_lines_more))]
pub fn push_fields(
    alloc: Global,
    text: &mut String,
    code: &Code,
    world: &World,
) -> Result<(), OutOfMemory>
    ensures { OnOk result (
        string_bytes text.new ≡ string_bytes text.old
        ++ lines_text (field_lines (world_of world.now) 0 code.now.fields)) }
{
    for (number, field) in code.fields().iter().enumerate() {
        push_field(alloc, text, world, number, field)?;
    }
    Ok(())
}

/// Adds the line of the field of this number, where its host obeys.
fn push_field(
    alloc: Global,
    text: &mut String,
    world: &World,
    number: usize,
    field: &CodeField,
) -> Result<(), OutOfMemory>
    requires { number < 2 ^ 32 }
    ensures { OnOk result (
        string_bytes text.new ≡ string_bytes text.old
        ++ lines_text (field_line (state_at (world_of world.now) field.now.host) number field.now)) }
{
    let Some(host) = world.host(field.host()) else {
        return Ok(());
    };
    let row = elements_of(alloc, host, FieldId(number as u32), field.size())?;
    push_row_line(text, field.name(), &row)
}

/// Adds the names and values of the fields, where their hosts obey.
pub fn push_values(
    alloc: Global,
    text: &mut String,
    code: &Code,
    world: &World,
) -> Result<(), OutOfMemory>
    ensures { OnOk result (
        string_bytes text.new ≡ string_bytes text.old ++ field_values (world_of world.now) 0 code.now.fields) }
{
    for (number, field) in code.fields().iter().enumerate() {
        push_value(alloc, text, world, number, field)?;
    }
    Ok(())
}

/// Adds the name and the value of the field of this number, where its host obeys.
fn push_value(
    alloc: Global,
    text: &mut String,
    world: &World,
    number: usize,
    field: &CodeField,
) -> Result<(), OutOfMemory>
    requires { number < 2 ^ 32 }
    ensures { OnOk result (
        string_bytes text.new ≡ string_bytes text.old
        ++ field_value (state_at (world_of world.now) field.now.host) number field.now) }
{
    let Some(host) = world.host(field.host()) else {
        return Ok(());
    };
    let row = elements_of(alloc, host, FieldId(number as u32), field.size())?;
    let name = field.name();
    write!(text, " {name} ").map_err(|_| OutOfMemory)?;
    push_row(text, &row)
}

/// So many elements of a field on a host.
fn elements_of(
    alloc: Global,
    host: &Host,
    field: FieldId,
    size: u32,
) -> Result<Vec<i64>, OutOfMemory>
    ensures { IfOk result (λ row. row.items ≡ elements_of (state_of host.now) field.0 size) }
{
    let mut row = Vec::new(alloc);
    for index in 0..size {
        row.push(host.field(field, i64::from(index)))?;
    }
    Ok(row)
}
