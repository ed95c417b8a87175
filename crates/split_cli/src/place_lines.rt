//! The lines that say which hosts may hold what, and where the plan puts it.

ghost use Rattle.std.specs.Prelude.{◌≡◌, ◌≤◌, ◌<◌, ◌^◌, ◌++◌, ◌∷◌, ℕ, OnOk, length, map};
ghost use Rattle.std.specs.String.{string_bytes};
ghost use Rattle.jif_tree.specs.Trees.{field_tree};
ghost use Rattle.front_end.specs.PlacedShapes.{placed_shape};
ghost use Rattle.split_cli.specs.PlaceLines.{field_place, field_places, name_at, names_in, place_lines, placing};
ghost use Rattle.split_cli.specs.PlaceLines.{statement_place, statement_places};
ghost use Rattle.front_end.specs.Text.{line_text, lines_text};

use front_end::{PlacedSource, statement_lines};
use host_decl::HostRow;
use jif_tree::Field;
use js_base::bits::has_bit;
use js_base::limits::HOSTS;
use js_base::{FieldId, HostId, OutOfMemory, StmtId};
use std::alloc::Global;
use std::fmt::Write;

/// Adds the lines of all fields, and then of all statements.
pub fn push_places(
    alloc: Global,
    text: &mut String,
    placed: &PlacedSource,
) -> Result<(), OutOfMemory>
    ensures { OnOk result (string_bytes text.new
        ≡ string_bytes text.old ++ lines_text (place_lines (placed_shape placed.now))) }
{
    let source = &placed.source;
    let program = &source.checked.program;
    push_fields(text, placed, &program.fields)?;
    let lines = statement_lines(alloc, program)?;
    push_statements(text, placed, &lines)
}

/// Adds the lines of the fields.
fn push_fields(
    text: &mut String,
    placed: &PlacedSource,
    fields: &[Field],
) -> Result<(), OutOfMemory>
    requires { length fields.now < 2 ^ 32 }
    ensures { OnOk result (string_bytes text.new ≡ string_bytes text.old
        ++ lines_text (field_places (placed_shape placed.now) 0 (map field_tree fields.now))) }
{
    for (number, field) in fields.iter().enumerate() {
        push_field(text, placed, number, field)?;
    }
    Ok(())
}

/// Adds the line of the field of this number.
fn push_field(
    text: &mut String,
    placed: &PlacedSource,
    number: usize,
    field: &Field,
) -> Result<(), OutOfMemory>
    requires { number < 2 ^ 32 }
    ensures { OnOk result (string_bytes text.new ≡ string_bytes text.old
        ++ line_text (field_place (placed_shape placed.now) number (field_tree field.now))) }
{
    let name = field.name.as_str();
    let word = placed.allowed.fields().get(number).copied().unwrap_or(0);
    let host = placed.plan.host_of_field(FieldId(number as u32));
    write!(text, "field {name}").map_err(|_| OutOfMemory)?;
    push_placing(text, placed.hosts().hosts(), word, host)
}

/// Adds the lines of the statements, which stand on these lines of the program.
fn push_statements(
    text: &mut String,
    placed: &PlacedSource,
    lines: &[u32],
) -> Result<(), OutOfMemory>
    requires { length lines.now < 2 ^ 32 }
    ensures { OnOk result (string_bytes text.new ≡ string_bytes text.old
        ++ lines_text (statement_places (placed_shape placed.now) 0 lines.now)) }
{
    for (number, line) in lines.iter().enumerate() {
        push_statement(text, placed, number, *line)?;
    }
    Ok(())
}

/// Adds the line of the statement of this number, which stands on this line of the program.
fn push_statement(
    text: &mut String,
    placed: &PlacedSource,
    number: usize,
    line: u32,
) -> Result<(), OutOfMemory>
    requires { number < 2 ^ 32 }
    ensures { OnOk result (string_bytes text.new ≡ string_bytes text.old
        ++ line_text (statement_place (placed_shape placed.now) number line)) }
{
    let word = placed
        .allowed
        .statements()
        .get(number)
        .copied()
        .unwrap_or(0);
    let host = placed.plan.host_of(StmtId(number as u32));
    write!(text, "statement {number} line {line}").map_err(|_| OutOfMemory)?;
    push_placing(text, placed.hosts().hosts(), word, host)
}

/// Adds the rest of a line: the hosts of a word, and the host of the plan.
fn push_placing(
    text: &mut String,
    hosts: &[HostRow],
    word: u16,
    host: HostId,
) -> Result<(), OutOfMemory>
    requires { length hosts.now ≤ HOSTS }
    ensures { OnOk result (string_bytes text.new
        ≡ string_bytes text.old ++ line_text (placing hosts.now word host.0)) }
{
    text.push_str(" may")?;
    push_names(text, hosts, word)?;
    let name = host_name(hosts, host);
    writeln!(text, " at {name}").map_err(|_| OutOfMemory)
}

/// Adds the names of the hosts of a word, each after a blank.
fn push_names(text: &mut String, hosts: &[HostRow], word: u16) -> Result<(), OutOfMemory>
    requires { length hosts.now ≤ HOSTS }
    ensures { OnOk result (string_bytes text.new ≡ string_bytes text.old ++ names_in word 0 hosts.now) }
{
    for (number, host) in hosts.iter().enumerate() {
        if has_bit(word as u64, number as u8) {
            let name = host.name();
            write!(text, " {name}").map_err(|_| OutOfMemory)?;
        }
    }
    Ok(())
}

/// The name of a host, empty where there is no such host.
fn host_name(hosts: &[HostRow], host: HostId) -> &str
    ensures { result.now ≡ name_at hosts.now host.0 }
{
    match hosts.get(host.0 as usize) {
        Some(row) => row.name(),
        None => "",
    }
}
