//! The boxes of hosts, fields, statements and relays.

ghost use Rattle.std.specs.Prelude.{◌≡◌, ◌≤◌, ◌<◌, ◌^◌, ◌++◌, OnOk, codes, false, slice_get, slice_index, unwrap_or};
ghost use Rattle.std.specs.String.{string_bytes};
ghost use Rattle.plan_picture.specs.Boxes as boxes;
ghost use Rattle.plan_picture.specs.Sheets.{sheet_shape};
ghost use Rattle.plan_picture.specs.Texts.{line_room};
ghost use Rattle.statement_texts.specs.Texts.{statement_text_shape};

use crate::columns::has_part;
use crate::paths::Grid;
use crate::rows::{Row, Standing};
use crate::sheet::PictureSheet;
use crate::texts::{
    field_label, field_letters, host_label, host_letters, indent, line_room, push_cut,
    small_letters, statement_letters, wide_letters,
};
use drawing_text::{letters, push_escaped};
use host_code::host_name;
use js_base::limits::HOSTS;
use js_base::{FieldId, HostId, OutOfMemory, StmtId};
use plan_ways::{Relay, RelayRole};
use statement_texts::StatementText;
use std::alloc::Global;
use std::fmt::Write;

/// Where a box is.
#[derive(Clone, Copy)]
pub struct Place {
    pub x: u64,
    pub y: u64,
    pub width: u16,
    pub height: u16,
}

/// Adds the begin of a box of a class.
fn push_open(text: &mut String, class: &str, place: &Place) -> Result<(), OutOfMemory>
    ensures { OnOk result (string_bytes text.new ≡ string_bytes text.old ++ boxes.open_text class.now place.now) }
{
    let Place {
        x,
        y,
        width,
        height,
    } = *place;
    write!(
        text,
        "<svg class='{class}' x='{x}' y='{y}' width='{width}' height='{height}'><title>"
    )
    .map_err(|_| OutOfMemory)?;
    Ok(())
}

/// Adds the edge of a box, with corners of this radius.
fn push_frame(text: &mut String, place: &Place, radius: u16) -> Result<(), OutOfMemory>
    ensures { OnOk result (string_bytes text.new ≡ string_bytes text.old ++ boxes.frame_text place.now radius) }
{
    let width = place.width.saturating_sub(1);
    let height = place.height.saturating_sub(1);
    write!(
        text,
        "</title><rect x='.5' y='.5' width='{width}' height='{height}' rx='{radius}'/>"
    )
    .map_err(|_| OutOfMemory)?;
    Ok(())
}

/// Adds the begin of a text of a style.
fn push_label_open(text: &mut String, style: &str, x: u16, y: u16) -> Result<(), OutOfMemory>
    ensures { OnOk result (string_bytes text.new ≡ string_bytes text.old ++ boxes.label_open style.now x y) }
{
    write!(text, "<text class='{style}' x='{x}' y='{y}'>").map_err(|_| OutOfMemory)?;
    Ok(())
}

/// Adds a text of a style, of which so many letters have room.
fn push_label(
    alloc: Global,
    text: &mut String,
    style: &str,
    x: u16,
    y: u16,
    letters: &[char],
    room: usize,
) -> Result<(), OutOfMemory>
    requires { 2 ≤ room }
    ensures { OnOk result (string_bytes text.new ≡ string_bytes text.old
        ++ boxes.label_text style.now x y letters.now room) }
{
    push_label_open(text, style, x, y)?;
    push_cut(alloc, text, letters, room)?;
    text.push_str("</text>")?;
    Ok(())
}

/// Adds a word, a name and a label.
fn push_named(
    text: &mut String,
    word: &str,
    name: &[char],
    label: &[char],
) -> Result<(), OutOfMemory>
    ensures { OnOk result (string_bytes text.new ≡ string_bytes text.old
        ++ boxes.named_text word.now name.now label.now) }
{
    text.push_str(word)?;
    push_escaped(text, name)?;
    text.push_str(" ")?;
    push_escaped(text, label)?;
    Ok(())
}

/// Where a box of a host is, in the row of a number and of this height.
fn place_of(grid: &Grid, host: HostId, row: usize, height: u16) -> Place
    ensures { result ≡ boxes.place_of grid.now host row height }
{
    Place {
        x: grid.columns.left(host),
        y: grid.places.start(row),
        width: grid.columns.width(host),
        height,
    }
}

/// Adds the heads of all hosts.
pub fn push_heads(
    alloc: Global,
    text: &mut String,
    sheet: &PictureSheet<'_>,
    grid: &Grid,
    rows: &[Row],
) -> Result<(), OutOfMemory>
    ensures { OnOk result (string_bytes text.new ≡ string_bytes text.old
        ++ boxes.heads_text (sheet_shape sheet.now) grid.now rows.now) }
{
    let count = sheet.code.hosts().len();
    prove!(count <= HOSTS);
    for number in 0..count {
        push_head_of(alloc, text, sheet, grid, rows, HostId(number as u8))?;
    }
    Ok(())
}

/// Adds the head of a host.
fn push_head_of(
    alloc: Global,
    text: &mut String,
    sheet: &PictureSheet<'_>,
    grid: &Grid,
    rows: &[Row],
    host: HostId,
) -> Result<(), OutOfMemory>
    ensures { OnOk result (string_bytes text.new ≡ string_bytes text.old
        ++ boxes.head_of (sheet_shape sheet.now) grid.now rows.now host.0) }
{
    let name = host_letters(alloc, sheet, host)?;
    let label = host_label(alloc, sheet, host)?;
    let place = place_of(grid, host, 0, 44);
    push_head(
        alloc,
        text,
        name.as_slice(),
        label.as_slice(),
        has_part(rows, host),
        &place,
    )
}

/// Adds the head of a host with this name and label.
fn push_head(
    alloc: Global,
    text: &mut String,
    name: &[char],
    label: &[char],
    part: bool,
    place: &Place,
) -> Result<(), OutOfMemory>
    ensures { OnOk result (string_bytes text.new ≡ string_bytes text.old
        ++ boxes.head_text name.now label.now part place.now) }
{
    push_open(text, "host", place)?;
    push_named(text, "host ", name, label)?;
    push_frame(text, place, 4)?;
    push_head_inside(alloc, text, name, label, part, place.width)?;
    text.push_str("</svg>\n")?;
    Ok(())
}

/// Adds the name of a host, and its label where it has a part.
fn push_head_inside(
    alloc: Global,
    text: &mut String,
    name: &[char],
    label: &[char],
    part: bool,
    width: u16,
) -> Result<(), OutOfMemory>
    ensures { OnOk result (string_bytes text.new ≡ string_bytes text.old
        ++ boxes.head_inside name.now label.now part width) }
{
    push_label(alloc, text, "b", 8, 18, name, wide_letters(width))?;
    push_part(alloc, text, part, label, width)?;
    Ok(())
}

/// Adds the label of a host that has a part.
fn push_part(
    alloc: Global,
    text: &mut String,
    part: bool,
    label: &[char],
    width: u16,
) -> Result<(), OutOfMemory>
    ensures { OnOk result (string_bytes text.new ≡ string_bytes text.old
        ++ boxes.part_text part label.now width) }
{
    if part {
        push_label(alloc, text, "s d", 8, 35, label, small_letters(width))?;
    }
    Ok(())
}

/// Adds the box of a field.
fn push_field_of(
    alloc: Global,
    text: &mut String,
    sheet: &PictureSheet<'_>,
    field: FieldId,
    place: &Place,
) -> Result<(), OutOfMemory>
    ensures { OnOk result (string_bytes text.new ≡ string_bytes text.old
        ++ boxes.field_of (sheet_shape sheet.now) field place.now) }
{
    let name = field_letters(alloc, sheet, field)?;
    let label = field_label(alloc, sheet, field)?;
    push_field(alloc, text, name.as_slice(), label.as_slice(), place)
}

/// Adds the box of a field with this name and label.
fn push_field(
    alloc: Global,
    text: &mut String,
    name: &[char],
    label: &[char],
    place: &Place,
) -> Result<(), OutOfMemory>
    ensures { OnOk result (string_bytes text.new ≡ string_bytes text.old
        ++ boxes.field_text name.now label.now place.now) }
{
    push_open(text, "field", place)?;
    push_named(text, "field ", name, label)?;
    push_frame(text, place, 4)?;
    push_field_inside(alloc, text, name, label, place.width)?;
    text.push_str("</svg>\n")?;
    Ok(())
}

/// Adds the name and the label of a field.
fn push_field_inside(
    alloc: Global,
    text: &mut String,
    name: &[char],
    label: &[char],
    width: u16,
) -> Result<(), OutOfMemory>
    ensures { OnOk result (string_bytes text.new ≡ string_bytes text.old
        ++ boxes.field_inside name.now label.now width) }
{
    push_label(alloc, text, "b", 8, 17, name, wide_letters(width))?;
    push_label(alloc, text, "s d", 8, 32, label, small_letters(width))?;
    Ok(())
}

/// Adds the box of a statement, nothing where there is none of the number.
fn push_statement_of(
    alloc: Global,
    text: &mut String,
    sheet: &PictureSheet<'_>,
    statement: StmtId,
    room: u16,
    place: &Place,
) -> Result<(), OutOfMemory>
    requires small { room ≤ 200 }
    ensures { OnOk result (string_bytes text.new ≡ string_bytes text.old
        ++ boxes.statement_of (sheet_shape sheet.now) statement room place.now) }
{
    let number = statement.0 as usize;
    let line = line_at(sheet.lines, number);
    let released = is_released(sheet.released, number);
    match sheet.texts.get(number) {
        Some(one) => push_statement(alloc, text, one, statement, line, released, room, place),
        None => Ok(()),
    }
}

/// The line of a statement, and 0 where there is none.
fn line_at(lines: &[u32], number: usize) -> u32
    ensures { result ≡ slice_index lines.now number }
{
    match lines.get(number) {
        Some(line) => *line,
        None => 0,
    }
}

/// Whether a statement releases a value.
fn is_released(released: &[bool], number: usize) -> bool
    ensures { result ≡ unwrap_or (slice_get released.now number) false }
{
    released.get(number).copied().unwrap_or(false)
}

/// Adds the box of a statement of a number on a line.
fn push_statement(
    alloc: Global,
    text: &mut String,
    one: &StatementText,
    statement: StmtId,
    line: u32,
    released: bool,
    room: u16,
    place: &Place,
) -> Result<(), OutOfMemory>
    requires small { room ≤ 200 }
    ensures { OnOk result (string_bytes text.new ≡ string_bytes text.old
        ++ boxes.statement_text (statement_text_shape one.now) statement.0 line released room place.now) }
{
    push_open(text, "statement", place)?;
    push_statement_title(alloc, text, one, statement, line)?;
    push_frame(text, place, 4)?;
    push_statement_inside(alloc, text, one, line, released, room, place.width)?;
    text.push_str("</svg>\n")?;
    Ok(())
}

/// Adds the number, the line and the whole text of a statement.
fn push_statement_title(
    alloc: Global,
    text: &mut String,
    one: &StatementText,
    statement: StmtId,
    line: u32,
) -> Result<(), OutOfMemory>
    ensures { OnOk result (string_bytes text.new ≡ string_bytes text.old
        ++ boxes.titled_text (statement_text_shape one.now) statement.0 line) }
{
    push_numbers(text, statement.0, line)?;
    let whole = letters(alloc, one.text.as_str())?;
    push_escaped(text, whole.as_slice())?;
    Ok(())
}

/// Adds the number and the line of a statement.
fn push_numbers(text: &mut String, number: u32, line: u32) -> Result<(), OutOfMemory>
    ensures { OnOk result (string_bytes text.new ≡ string_bytes text.old ++ boxes.statement_title number line) }
{
    write!(text, "statement {number} line {line}: ").map_err(|_| OutOfMemory)?;
    Ok(())
}

/// Adds the mark, the line and the short text of a statement.
fn push_statement_inside(
    alloc: Global,
    text: &mut String,
    one: &StatementText,
    line: u32,
    released: bool,
    room: u16,
    width: u16,
) -> Result<(), OutOfMemory>
    requires small { room ≤ 200 }
    ensures { OnOk result (string_bytes text.new ≡ string_bytes text.old
        ++ boxes.statement_inside (statement_text_shape one.now) line released room width) }
{
    push_mark(text, released)?;
    push_line(text, room + 2, line)?;
    push_short(alloc, text, one, room, width)?;
    Ok(())
}

/// Adds the mark of a statement that releases a value.
fn push_mark(text: &mut String, released: bool) -> Result<(), OutOfMemory>
    ensures { OnOk result (string_bytes text.new ≡ string_bytes text.old ++ boxes.mark_text released) }
{
    if released {
        text.push_str("<rect class='mark' x='1' y='1' width='5' height='32'/>")?;
    }
    Ok(())
}

/// Adds the number of a line, which ends here.
fn push_line(text: &mut String, x: u16, line: u32) -> Result<(), OutOfMemory>
    ensures { OnOk result (string_bytes text.new ≡ string_bytes text.old ++ boxes.line_text x line) }
{
    write!(
        text,
        "<text class='s d' x='{x}' y='21' text-anchor='end'>{line}</text>"
    )
    .map_err(|_| OutOfMemory)?;
    Ok(())
}

/// Adds the short text of a statement.
fn push_short(
    alloc: Global,
    text: &mut String,
    one: &StatementText,
    room: u16,
    width: u16,
) -> Result<(), OutOfMemory>
    requires small { room ≤ 200 }
    ensures { OnOk result (string_bytes text.new ≡ string_bytes text.old
        ++ boxes.short_label (statement_text_shape one.now) room width) }
{
    let short = statement_letters(alloc, one)?;
    let own = room + indent(one);
    let fits = wide_letters(width.saturating_sub(own));
    push_label(
        alloc,
        text,
        style_of(one),
        8 + own,
        21,
        short.as_slice(),
        fits,
    )
}

/// The style of a statement: the head of a method is bold.
fn style_of(one: &StatementText) -> &'static str
    ensures { result.now ≡ boxes.style_of (statement_text_shape one.now) }
{
    if one.blocks == 0 { "b" } else { "c" }
}

/// Adds the box of a relay on a host of this name.
fn push_relay(
    text: &mut String,
    relay: &Relay,
    host: &str,
    place: &Place,
) -> Result<(), OutOfMemory>
    ensures { OnOk result (string_bytes text.new ≡ string_bytes text.old
        ++ boxes.relay_text relay.now host.now place.now) }
{
    push_open(text, "relay", place)?;
    push_relay_title(text, relay.entry.0, host)?;
    push_frame(text, place, 10)?;
    push_relay_inside(text, role_text(relay.role))?;
    text.push_str("</svg>\n")?;
    Ok(())
}

/// Adds the entry and the host of a relay.
fn push_relay_title(text: &mut String, entry: u32, host: &str) -> Result<(), OutOfMemory>
    ensures { OnOk result (string_bytes text.new ≡ string_bytes text.old ++ boxes.relay_title entry host.now) }
{
    write!(text, "entry e{entry} of {host}").map_err(|_| OutOfMemory)?;
    Ok(())
}

/// Adds what a relay does.
fn push_relay_inside(text: &mut String, role: &str) -> Result<(), OutOfMemory>
    ensures { OnOk result (string_bytes text.new ≡ string_bytes text.old ++ boxes.relay_inside role.now) }
{
    write!(text, "<text class='s d p' x='12' y='15'>{role}</text>").map_err(|_| OutOfMemory)?;
    Ok(())
}

/// What a relay does.
fn role_text(role: RelayRole) -> &'static str
    ensures { result.now ≡ boxes.role_text role }
{
    match role {
        RelayRole::End => "end",
        RelayRole::GivesBack => "gives back",
        RelayRole::HandsOn => "hands on",
    }
}

/// Adds the boxes of these rows, of which the first has the number 1, where so much is left free for the numbers of
/// lines.
pub fn push_boxes(
    alloc: Global,
    text: &mut String,
    sheet: &PictureSheet<'_>,
    grid: &Grid,
    rows: &[Row],
) -> Result<(), OutOfMemory>
    ensures { OnOk result (string_bytes text.new ≡ string_bytes text.old
        ++ boxes.boxes_text (sheet_shape sheet.now) grid.now (line_room sheet.now.lines.now) 1 rows.now) }
{
    let room = line_room(alloc, sheet.lines)?;
    for (place, row) in rows.iter().enumerate() {
        push_box(alloc, text, sheet, grid, room, place + 1, row)?;
    }
    Ok(())
}

/// Adds the box of the row of a number.
fn push_box(
    alloc: Global,
    text: &mut String,
    sheet: &PictureSheet<'_>,
    grid: &Grid,
    room: u16,
    number: usize,
    row: &Row,
) -> Result<(), OutOfMemory>
    requires small { room ≤ 200 }
    ensures { OnOk result (string_bytes text.new ≡ string_bytes text.old
        ++ boxes.box_text (sheet_shape sheet.now) grid.now room number row.now.host row.now.standing) }
{
    match row.standing {
        Standing::OfField(field) => {
            let place = place_of(grid, row.host, number, 40);
            push_field_of(alloc, text, sheet, field, &place)
        }
        Standing::OfStatement(statement) => {
            let place = place_of(grid, row.host, number, 34);
            push_statement_of(alloc, text, sheet, statement, room, &place)
        }
        Standing::OfRelay(relay) => {
            let place = place_of(grid, row.host, number, 22);
            push_relay(text, &relay, host_name(sheet.code, relay.host), &place)
        }
    }
}
