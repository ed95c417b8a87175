//! The foot of a chart: the messages that are in flight at the end, and the fields.

ghost use Rattle.std.specs.Prelude.{◌≡◌, ◌<◌, ◌≤◌, ◌^◌, ◌++◌, IfOk, OnOk, length, map};
ghost use Rattle.std.specs.String.{string_bytes};
ghost use Rattle.run_chart.specs.Foot as shown;
ghost use Rattle.run_chart.specs.Grids.{grid_shape};
ghost use Rattle.run_chart.specs.Sheets.{chart_field_shape, chart_flight_shape, chart_host_shape, chart_sheet_shape};

use crate::arrows::{ChartArrow, ahead, class_of_stroke, flight_arrow, push_arrow};
use crate::columns::{ChartColumn, column_at, name_of};
use crate::events::ChartGrid;
use crate::sheet::{ChartField, ChartFlight, ChartHost, ChartSheet, Mark};
use crate::texts::{letters_in, push_cut, push_whole, small};
use drawing_text::{small_width, wide_room};
use js_base::OutOfMemory;
use std::alloc::Global;
use std::fmt::Write;

/// Adds a ring, and the note that a message is in flight.
fn push_ring(text: &mut String, x: u64, y: u64, notes: u32) -> Result<(), OutOfMemory>
    requires { y < 2 ^ 40 }
    ensures { OnOk result (string_bytes text.new ≡ string_bytes text.old ++ shown.ring_text x y notes) }
{
    let low = y + 4;
    writeln!(
        text,
        "<circle class='ring' cx='{x}' cy='{y}' r='3'/><text class='s d' x='{notes}' y='{low}'>in flight</text>"
    )
    .map_err(|_| OutOfMemory)?;
    Ok(())
}

/// Adds the ring behind the end of an arrow.
fn push_ring_of(text: &mut String, arrow: &ChartArrow, notes: u32) -> Result<(), OutOfMemory>
    requires end { arrow.now.end < 2 ^ 40 }
    requires line { arrow.now.line < 2 ^ 40 }
    ensures { OnOk result (string_bytes text.new ≡ string_bytes text.old ++ shown.ring_of arrow.now notes) }
{
    push_ring(text, ahead(arrow.right, arrow.end, 3), arrow.line, notes)
}

/// Adds a message in flight with its arrow.
fn push_drawn(
    alloc: Global,
    text: &mut String,
    from: &str,
    to: &str,
    flight: &ChartFlight,
    notes: u32,
    arrow: &ChartArrow,
) -> Result<(), OutOfMemory>
    requires end { arrow.now.end < 2 ^ 40 }
    requires line { arrow.now.line < 2 ^ 40 }
    ensures { OnOk result (string_bytes text.new ≡ string_bytes text.old
        ++ shown.drawn_flight from.now to.now (chart_flight_shape flight.now) notes arrow.now) }
{
    let class = class_of_stroke(flight.stroke);
    push_arrow(
        alloc,
        text,
        class,
        "in flight, ",
        from,
        to,
        flight.text.as_str(),
        arrow,
    )?;
    text.push_str("\n")?;
    push_ring_of(text, arrow, notes)?;
    Ok(())
}

/// Adds a message in flight on a line.
fn push_flight(
    alloc: Global,
    text: &mut String,
    sheet: &ChartSheet,
    grid: &ChartGrid<'_>,
    line: u64,
    flight: &ChartFlight,
) -> Result<(), OutOfMemory>
    requires { line < 2 ^ 40 }
    ensures { OnOk result (string_bytes text.new ≡ string_bytes text.old
        ++ shown.flight_text (chart_sheet_shape sheet.now) (grid_shape grid.now) line
        (chart_flight_shape flight.now)) }
{
    let arrow = flight_arrow(
        grid.columns,
        grid.places,
        flight.from,
        flight.to,
        flight.start,
        line,
    );
    let (from, to) = (name_of(sheet, flight.from), name_of(sheet, flight.to));
    push_drawn(alloc, text, from, to, flight, grid.notes, &arrow)
}

/// Adds the messages in flight, of which the first has this line.
pub fn push_flights(
    alloc: Global,
    text: &mut String,
    sheet: &ChartSheet,
    grid: &ChartGrid<'_>,
    line: u64,
    flights: &[ChartFlight],
) -> Result<(), OutOfMemory>
    requires line { line < 2 ^ 34 }
    requires few { length flights.now < 2 ^ 32 }
    ensures { OnOk result (string_bytes text.new ≡ string_bytes text.old
        ++ shown.flights_text (chart_sheet_shape sheet.now) (grid_shape grid.now) line 0
        (map chart_flight_shape flights.now)) }
{
    for (number, flight) in flights.iter().enumerate() {
        let below = line + 22 * number as u64;
        push_flight(alloc, text, sheet, grid, below, flight)?;
    }
    Ok(())
}

/// The class of a field.
fn class_of_mark(mark: Mark) -> &'static str
    ensures { result.now ≡ shown.class_of_mark mark }
{
    match mark {
        Mark::Plain => "kept",
        Mark::Kept => "kept",
        Mark::Open => "open",
    }
}

/// Adds the begin of the box of a field.
fn push_field_open(
    text: &mut String,
    class: &str,
    x: u32,
    y: u64,
    width: u16,
) -> Result<(), OutOfMemory>
    ensures { OnOk result (string_bytes text.new ≡ string_bytes text.old
        ++ shown.field_open class.now x y width) }
{
    write!(
        text,
        "<svg class='{class}' x='{x}' y='{y}' width='{width}' height='30'><title>"
    )
    .map_err(|_| OutOfMemory)?;
    Ok(())
}

/// Adds what is known of a field.
fn push_about(alloc: Global, text: &mut String, mark: Mark, who: &str) -> Result<(), OutOfMemory>
    ensures { OnOk result (string_bytes text.new ≡ string_bytes text.old ++ shown.about_text mark who.now) }
{
    match mark {
        Mark::Plain => Ok(()),
        Mark::Kept => push_kept(text),
        Mark::Open => push_about_who(alloc, text, who),
    }
}

/// Adds that no misbehaving host may affect a field.
fn push_kept(text: &mut String) -> Result<(), OutOfMemory>
    ensures { OnOk result (string_bytes text.new ≡ string_bytes text.old ++ shown.kept_text) }
{
    text.push_str(": misbehaving hosts may not affect it")?;
    Ok(())
}

/// Adds who may affect a field.
fn push_about_who(alloc: Global, text: &mut String, who: &str) -> Result<(), OutOfMemory>
    ensures { OnOk result (string_bytes text.new ≡ string_bytes text.old ++ shown.open_text who.now) }
{
    text.push_str(": ")?;
    push_whole(alloc, text, who)?;
    Ok(())
}

/// Adds the edge of a field.
fn push_field_frame(text: &mut String, width: u16) -> Result<(), OutOfMemory>
    ensures { OnOk result (string_bytes text.new ≡ string_bytes text.old ++ shown.field_frame width) }
{
    let inner = width.saturating_sub(2);
    write!(
        text,
        "</title><rect x='1' y='1' width='{inner}' height='28' rx='4'/>"
    )
    .map_err(|_| OutOfMemory)?;
    Ok(())
}

/// How much of the box of a field is left to what stands beside its value.
fn side_width(alloc: Global, mark: Mark, who: &str) -> Result<u16, OutOfMemory>
    ensures { IfOk result (λ width. width ≡ shown.side_width mark who.now) }
{
    match mark {
        Mark::Plain => Ok(36),
        Mark::Kept => Ok(36),
        Mark::Open => who_width(alloc, who),
    }
}

/// How much of the box is left to who may affect a field.
fn who_width(alloc: Global, who: &str) -> Result<u16, OutOfMemory>
    ensures { IfOk result (λ width. width ≡ shown.who_width who.now) }
{
    let letters = letters_in(alloc, who)?.min(1000);
    Ok(16 + small_width(letters as u64) as u16)
}

/// Adds the value of a field.
fn push_value(alloc: Global, text: &mut String, what: &str, room: usize) -> Result<(), OutOfMemory>
    ensures { OnOk result (string_bytes text.new ≡ string_bytes text.old ++ shown.value_text what.now room) }
{
    text.push_str("<text class='b' x='8' y='19'>")?;
    push_cut(alloc, text, what, room)?;
    text.push_str("</text>")?;
    Ok(())
}

/// Adds the begin of who may affect a field.
fn push_who_open(text: &mut String, x: u16) -> Result<(), OutOfMemory>
    ensures { OnOk result (string_bytes text.new ≡ string_bytes text.old ++ shown.who_open x) }
{
    write!(
        text,
        "<text class='s no p' x='{x}' y='19' text-anchor='end'>"
    )
    .map_err(|_| OutOfMemory)?;
    Ok(())
}

/// Adds who may affect a field.
fn push_who(alloc: Global, text: &mut String, who: &str, width: u16) -> Result<(), OutOfMemory>
    ensures { OnOk result (string_bytes text.new ≡ string_bytes text.old ++ shown.who_text who.now width) }
{
    push_who_open(text, width.saturating_sub(8))?;
    push_whole(alloc, text, who)?;
    text.push_str("</text>")?;
    Ok(())
}

/// Adds a check.
fn push_check(text: &mut String, width: u16) -> Result<(), OutOfMemory>
    ensures { OnOk result (string_bytes text.new ≡ string_bytes text.old ++ shown.check_text width) }
{
    let left = width.saturating_sub(22);
    write!(text, "<path class='mk' d='M{left} 15l4 5 8-10'/>").map_err(|_| OutOfMemory)?;
    Ok(())
}

/// Adds a check, or who may affect a field.
fn push_mark(
    alloc: Global,
    text: &mut String,
    mark: Mark,
    who: &str,
    width: u16,
) -> Result<(), OutOfMemory>
    ensures { OnOk result (string_bytes text.new ≡ string_bytes text.old ++ shown.mark_text mark who.now width) }
{
    match mark {
        Mark::Plain => Ok(()),
        Mark::Kept => push_check(text, width),
        Mark::Open => push_who(alloc, text, who, width),
    }
}

/// Adds what is shown beside the pointer of a field.
fn push_field_title(alloc: Global, text: &mut String, field: &ChartField) -> Result<(), OutOfMemory>
    ensures { OnOk result (string_bytes text.new ≡ string_bytes text.old
        ++ shown.field_title (chart_field_shape field.now)) }
{
    push_whole(alloc, text, field.text.as_str())?;
    push_about(alloc, text, field.mark, field.who.as_str())?;
    Ok(())
}

/// Adds what is in the box of a field.
fn push_field_inside(
    alloc: Global,
    text: &mut String,
    field: &ChartField,
    width: u16,
) -> Result<(), OutOfMemory>
    ensures { OnOk result (string_bytes text.new ≡ string_bytes text.old
        ++ shown.field_inside (chart_field_shape field.now) width) }
{
    let side = side_width(alloc, field.mark, field.who.as_str())?;
    let room = wide_room(width.saturating_sub(side) as u64) as usize;
    push_value(alloc, text, field.text.as_str(), room)?;
    push_mark(alloc, text, field.mark, field.who.as_str(), width)?;
    text.push_str("</svg>\n")?;
    Ok(())
}

/// Adds the box of a field.
fn push_field(
    alloc: Global,
    text: &mut String,
    x: u32,
    y: u64,
    width: u16,
    field: &ChartField,
) -> Result<(), OutOfMemory>
    ensures { OnOk result (string_bytes text.new ≡ string_bytes text.old
        ++ shown.field_text x y width (chart_field_shape field.now)) }
{
    push_field_open(text, class_of_mark(field.mark), x, y, width)?;
    push_field_title(alloc, text, field)?;
    push_field_frame(text, width)?;
    push_field_inside(alloc, text, field, width)?;
    Ok(())
}

/// Adds these fields below each other.
fn push_fields(
    alloc: Global,
    text: &mut String,
    x: u32,
    y: u32,
    width: u16,
    fields: &[ChartField],
) -> Result<(), OutOfMemory>
    ensures { OnOk result (string_bytes text.new ≡ string_bytes text.old
        ++ shown.fields_text x y width 0 (map chart_field_shape fields.now)) }
{
    let _few = small(fields.len() as u64)?;
    for (number, field) in fields.iter().enumerate() {
        let below = y as u64 + 36 * number as u64;
        push_field(alloc, text, x, below, width, field)?;
    }
    Ok(())
}

/// Adds the fields of these hosts below their columns.
pub fn push_foot(
    alloc: Global,
    text: &mut String,
    y: u32,
    columns: &[ChartColumn],
    hosts: &[ChartHost],
) -> Result<(), OutOfMemory>
    ensures { OnOk result (string_bytes text.new ≡ string_bytes text.old
        ++ shown.foot_text y columns.now 0 (map chart_host_shape hosts.now)) }
{
    for (number, host) in hosts.iter().enumerate() {
        let column = column_at(columns, number);
        push_fields(alloc, text, column.left, y, column.width, &host.fields)?;
    }
    Ok(())
}
