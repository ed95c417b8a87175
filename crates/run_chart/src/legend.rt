//! What the strokes and marks of a chart stand for.

ghost use Rattle.std.specs.Prelude.{◌≡◌, ◌≤◌, ◌<◌, ◌^◌, ◌++◌, IfOk, OnOk, length, map, option_map};
ghost use Rattle.std.specs.List.{list_any};
ghost use Rattle.std.specs.String.{string_bytes};
ghost use Rattle.run_chart.specs.Legend as legend;
ghost use Rattle.run_chart.specs.Sheets.{chart_flight_shape, chart_row_shape, chart_sheet_shape, chart_told_shape};

use crate::arrows::{class_of_stroke, push_class};
use crate::sheet::{ChartEvent, ChartFlight, ChartRow, ChartSheet, ChartTold, Stroke};
use js_base::OutOfMemory;
use std::alloc::Global;
use std::fmt::Write;

/// What the legend may have.
#[derive(Clone, Copy)]
pub enum ChartSign {
    /// The stroke of messages of a kind.
    OfStroke(Stroke),
    /// The arrow of an act of a misbehaving host.
    OfAct,
    /// The cross of what is ignored.
    Cross,
    /// The circle with the number of what a misbehaving host is sent.
    Seen,
    /// What is pushed on a control stack, or taken off it.
    Stack,
    /// The bars of threads.
    Bars,
}

/// All that the legend may have, in its order.
const SIGNS: [ChartSign; 12] = [
    ChartSign::OfStroke(Stroke::Go),
    ChartSign::OfStroke(Stroke::Back),
    ChartSign::OfStroke(Stroke::Get),
    ChartSign::OfStroke(Stroke::Set),
    ChartSign::OfStroke(Stroke::Forward),
    ChartSign::OfStroke(Stroke::Sync),
    ChartSign::OfStroke(Stroke::Ack),
    ChartSign::OfAct,
    ChartSign::Cross,
    ChartSign::Seen,
    ChartSign::Stack,
    ChartSign::Bars,
];

/// What the legend has: what occurs in the chart.
pub fn legend_of(alloc: Global, sheet: &ChartSheet) -> Result<Vec<ChartSign>, OutOfMemory>
    ensures found { IfOk result (λ found. found.items ≡ legend.legend_of (chart_sheet_shape sheet.now)) }
    ensures few { IfOk result (λ found. length found.items ≤ 12) }
{
    let mut found = Vec::new(alloc);
    for sign in SIGNS.as_slice() {
        if occurs(sheet, *sign) {
            found.push(*sign)?;
        }
    }
    Ok(found)
}

/// Whether a sign occurs in the chart.
fn occurs(sheet: &ChartSheet, sign: ChartSign) -> bool
    ensures { result ≡ legend.occurs (chart_sheet_shape sheet.now) sign }
{
    match sign {
        ChartSign::OfStroke(one) => some_stroke(sheet, one),
        ChartSign::OfAct => some_act(&sheet.rows),
        ChartSign::Cross => some_ignored(&sheet.rows),
        ChartSign::Seen => some_told(&sheet.rows),
        ChartSign::Stack => some_stack(&sheet.rows),
        ChartSign::Bars => true,
    }
}

/// Whether some message is drawn with a stroke.
fn some_stroke(sheet: &ChartSheet, one: Stroke) -> bool
    ensures { result ≡ legend.occurs_stroke (chart_sheet_shape sheet.now) one }
{
    some_drawn(&sheet.rows, one) || some_flies(&sheet.flights, one)
}

/// The number of a stroke.
fn number_of_stroke(stroke: Stroke) -> u8
    ensures { result ≡ legend.number_of_stroke stroke }
{
    match stroke {
        Stroke::Go => 0,
        Stroke::Back => 1,
        Stroke::Get => 2,
        Stroke::Set => 3,
        Stroke::Forward => 4,
        Stroke::Sync => 5,
        Stroke::Ack => 6,
    }
}

/// Whether strokes are the same.
fn is_stroke(one: Stroke, other: Stroke) -> bool
    ensures { result ≡ legend.is_stroke one other }
{
    number_of_stroke(other) == number_of_stroke(one)
}

/// Whether the message that is taken in an event has a stroke.
fn has_stroke(one: Stroke, event: ChartEvent) -> bool
    ensures { result ≡ legend.has_stroke one event }
{
    match event {
        ChartEvent::Turn(_) => false,
        ChartEvent::Take(_, _, other, _) => is_stroke(one, other),
        ChartEvent::Act(_, _) => false,
    }
}

/// Whether what a misbehaving host is sent has a stroke.
fn tells_stroke(one: Stroke, told: &Option<ChartTold>) -> bool
    ensures { result ≡ legend.tells_stroke one (option_map chart_told_shape told.now) }
{
    match told {
        Some(told) => is_stroke(one, told.stroke),
        None => false,
    }
}

/// Whether a message in a row has a stroke.
fn draws_stroke(one: Stroke, row: &ChartRow) -> bool
    ensures { result ≡ legend.draws_stroke one (chart_row_shape row.now) }
{
    has_stroke(one, row.event) || tells_stroke(one, &row.told)
}

/// Whether some message in a row has a stroke.
fn some_drawn(rows: &[ChartRow], one: Stroke) -> bool
    ensures { result ≡ list_any (legend.draws_stroke one) (map chart_row_shape rows.now) }
{
    for row in rows {
        if draws_stroke(one, row) {
            return true;
        }
    }
    false
}

/// Whether a message in flight has a stroke.
fn flies_as(one: Stroke, flight: &ChartFlight) -> bool
    ensures { result ≡ legend.flies_as one (chart_flight_shape flight.now) }
{
    is_stroke(one, flight.stroke)
}

/// Whether some message in flight has a stroke.
fn some_flies(flights: &[ChartFlight], one: Stroke) -> bool
    ensures { result ≡ list_any (legend.flies_as one) (map chart_flight_shape flights.now) }
{
    for flight in flights {
        if flies_as(one, flight) {
            return true;
        }
    }
    false
}

/// Whether an event is an act of a misbehaving host.
fn is_act(event: ChartEvent) -> bool
    ensures { result ≡ legend.is_act event }
{
    match event {
        ChartEvent::Turn(_) => false,
        ChartEvent::Take(_, _, _, _) => false,
        ChartEvent::Act(_, _) => true,
    }
}

/// Whether the event of a row is an act of a misbehaving host.
fn draws_act(row: &ChartRow) -> bool
    ensures { result ≡ legend.draws_act (chart_row_shape row.now) }
{
    is_act(row.event)
}

/// Whether some event is an act of a misbehaving host.
fn some_act(rows: &[ChartRow]) -> bool
    ensures { result ≡ list_any legend.draws_act (map chart_row_shape rows.now) }
{
    for row in rows {
        if draws_act(row) {
            return true;
        }
    }
    false
}

/// Whether what is asked in a row is ignored.
pub fn is_ignored(row: &ChartRow) -> bool
    ensures { result ≡ legend.is_ignored (chart_row_shape row.now) }
{
    row.ignored.is_some()
}

/// Whether something is ignored.
fn some_ignored(rows: &[ChartRow]) -> bool
    ensures { result ≡ list_any legend.is_ignored (map chart_row_shape rows.now) }
{
    for row in rows {
        if is_ignored(row) {
            return true;
        }
    }
    false
}

/// Whether a misbehaving host is sent something in a row.
fn tells(row: &ChartRow) -> bool
    ensures { result ≡ legend.tells (chart_row_shape row.now) }
{
    row.told.is_some()
}

/// Whether a misbehaving host is sent something.
fn some_told(rows: &[ChartRow]) -> bool
    ensures { result ≡ list_any legend.tells (map chart_row_shape rows.now) }
{
    for row in rows {
        if tells(row) {
            return true;
        }
    }
    false
}

/// Whether something is pushed on a control stack in a row, or taken off it.
fn moves_stack(row: &ChartRow) -> bool
    ensures { result ≡ legend.moves_stack (chart_row_shape row.now) }
{
    row.stack.is_some()
}

/// Whether something is pushed on a control stack, or taken off it.
fn some_stack(rows: &[ChartRow]) -> bool
    ensures { result ≡ list_any legend.moves_stack (map chart_row_shape rows.now) }
{
    for row in rows {
        if moves_stack(row) {
            return true;
        }
    }
    false
}

/// How many cells of the legend have room beside each other in a chart of a width.
fn cells(width: u32) -> u32
    ensures value { result ≡ legend.cells width }
    ensures least { 1 ≤ result }
{
    (width.saturating_sub(40) / 340).max(1)
}

/// How many lines the legend has of so many signs.
pub fn legend_lines(width: u32, signs: usize) -> u32
    requires { signs ≤ 12 }
    ensures value { result ≡ legend.legend_lines width signs }
    ensures within { result ≤ 12 }
{
    let cells = cells(width);
    (signs as u32 + (cells - 1)) / cells
}

/// Adds the legend.
pub fn push_legend(text: &mut String, width: u32, signs: &[ChartSign]) -> Result<(), OutOfMemory>
    requires { length signs.now ≤ 12 }
    ensures { OnOk result (string_bytes text.new ≡ string_bytes text.old ++ legend.cells_text width 0 signs.now) }
{
    for (number, sign) in signs.iter().enumerate() {
        push_numbered(text, width, number, *sign)?;
    }
    Ok(())
}

/// Adds the cell of a number.
fn push_numbered(
    text: &mut String,
    width: u32,
    number: usize,
    sign: ChartSign,
) -> Result<(), OutOfMemory>
    requires { number < 12 }
    ensures { OnOk result (string_bytes text.new ≡ string_bytes text.old ++ legend.numbered_cell width number sign) }
{
    let cells = cells(width);
    let place = number as u32;
    let beside = place % cells;
    let below = place / cells;
    push_cell(text, sign, 20 + 340 * beside, 66 + 20 * below)
}

/// Adds a sign with what it stands for.
fn push_cell(text: &mut String, sign: ChartSign, x: u32, y: u32) -> Result<(), OutOfMemory>
    requires x { x < 2 ^ 16 }
    requires y { y < 2 ^ 16 }
    ensures { OnOk result (string_bytes text.new ≡ string_bytes text.old ++ legend.cell_text sign x y) }
{
    push_class(text, class_of_sign(sign))?;
    push_sample(text, sign, x, y)?;
    push_meaning(text, x + 44, y + 4, meaning_of(sign))?;
    Ok(())
}

/// Adds what a sign stands for.
fn push_meaning(text: &mut String, x: u32, y: u32, meaning: &str) -> Result<(), OutOfMemory>
    ensures { OnOk result (string_bytes text.new ≡ string_bytes text.old ++ legend.meaning_text x y meaning.now) }
{
    writeln!(
        text,
        "</g><text class='d p' x='{x}' y='{y}'>{meaning}</text>"
    )
    .map_err(|_| OutOfMemory)?;
    Ok(())
}

/// Adds a sign as it occurs.
fn push_sample(text: &mut String, sign: ChartSign, x: u32, y: u32) -> Result<(), OutOfMemory>
    requires x { x < 2 ^ 16 }
    requires y { y < 2 ^ 16 }
    ensures { OnOk result (string_bytes text.new ≡ string_bytes text.old ++ legend.sample_of sign x y) }
{
    match sign {
        ChartSign::OfStroke(_) => push_stroke_sample(text, x, y),
        ChartSign::OfAct => push_stroke_sample(text, x, y),
        ChartSign::Cross => push_cross_sample(text, x, y),
        ChartSign::Seen => push_seen_sample(text, x, y),
        ChartSign::Stack => push_stack_sample(text, x, y),
        ChartSign::Bars => push_bars_sample(text, x, y),
    }
}

/// Adds a stroke with its tip.
fn push_stroke_sample(text: &mut String, x: u32, y: u32) -> Result<(), OutOfMemory>
    requires { x < 2 ^ 16 }
    ensures { OnOk result (string_bytes text.new ≡ string_bytes text.old ++ legend.stroke_sample x y) }
{
    let (end, tip) = (x + 26, x + 34);
    write!(
        text,
        "<path d='M{x} {y}H{end}'/><path class='tip' d='M{tip} {y}l-8-3.5v7z'/>"
    )
    .map_err(|_| OutOfMemory)?;
    Ok(())
}

/// Adds a cross.
fn push_cross_sample(text: &mut String, x: u32, y: u32) -> Result<(), OutOfMemory>
    requires { x < 2 ^ 16 }
    ensures { OnOk result (string_bytes text.new ≡ string_bytes text.old ++ legend.cross_sample x y) }
{
    let (left, top) = (x + 12, y.saturating_sub(5));
    write!(text, "<path d='M{left} {top}l9 9m0-9l-9 9'/>").map_err(|_| OutOfMemory)?;
    Ok(())
}

/// Adds a circle with a number.
fn push_seen_sample(text: &mut String, x: u32, y: u32) -> Result<(), OutOfMemory>
    requires x { x < 2 ^ 16 }
    requires y { y < 2 ^ 16 }
    ensures { OnOk result (string_bytes text.new ≡ string_bytes text.old ++ legend.seen_sample x y) }
{
    let (middle, low) = (x + 16, y + 4);
    write!(
        text,
        "<circle cx='{middle}' cy='{y}' r='7'/><text class='s' x='{middle}' y='{low}' text-anchor='middle'>0</text>"
    )
    .map_err(|_| OutOfMemory)?;
    Ok(())
}

/// Adds what is pushed and taken off.
fn push_stack_sample(text: &mut String, x: u32, y: u32) -> Result<(), OutOfMemory>
    requires { y < 2 ^ 16 }
    ensures { OnOk result (string_bytes text.new ≡ string_bytes text.old ++ legend.stack_sample x y) }
{
    let low = y + 4;
    write!(text, "<text class='s push' x='{x}' y='{low}'>+e -e</text>").map_err(|_| OutOfMemory)?;
    Ok(())
}

/// Adds a filled and an open bar.
fn push_bars_sample(text: &mut String, x: u32, y: u32) -> Result<(), OutOfMemory>
    requires { x < 2 ^ 16 }
    ensures { OnOk result (string_bytes text.new ≡ string_bytes text.old ++ legend.bars_sample x y) }
{
    let (left, top) = (x + 6, y.saturating_sub(7));
    let (right, high) = (x + 20, y.saturating_sub(6));
    push_two_bars(text, left, top, right, high)
}

/// Adds a filled and an open bar at two places.
fn push_two_bars(
    text: &mut String,
    left: u32,
    top: u32,
    right: u32,
    high: u32,
) -> Result<(), OutOfMemory>
    ensures { OnOk result (string_bytes text.new ≡ string_bytes text.old ++ legend.two_bars left top right high) }
{
    write!(
        text,
        "<rect class='run' x='{left}' y='{top}' width='6' height='14'/>\
        <rect class='wait' x='{right}' y='{high}' width='5' height='13'/>"
    )
    .map_err(|_| OutOfMemory)?;
    Ok(())
}

/// The class of a sign.
fn class_of_sign(sign: ChartSign) -> &'static str
    ensures { result.now ≡ legend.class_of_sign sign }
{
    match sign {
        ChartSign::OfStroke(one) => class_of_stroke(one),
        ChartSign::OfAct => "act",
        ChartSign::Cross => "x",
        ChartSign::Seen => "seen",
        ChartSign::Stack => "push",
        ChartSign::Bars => "bar",
    }
}

/// What messages with a stroke do.
fn meaning_of_stroke(stroke: Stroke) -> &'static str
    ensures { result.now ≡ legend.meaning_of_stroke stroke }
{
    match stroke {
        Stroke::Go => "control goes on",
        Stroke::Back => "control comes back: a token is used up",
        Stroke::Get => "a field is asked for, or its value comes",
        Stroke::Set => "a field is set",
        Stroke::Forward => "a variable is sent",
        Stroke::Sync => "an entry is pushed elsewhere",
        Stroke::Ack => "a request is confirmed",
    }
}

/// What a sign stands for.
fn meaning_of(sign: ChartSign) -> &'static str
    ensures { result.now ≡ legend.meaning_of sign }
{
    match sign {
        ChartSign::OfStroke(one) => meaning_of_stroke(one),
        ChartSign::OfAct => "an act of a misbehaving host",
        ChartSign::Cross => "ignored",
        ChartSign::Seen => "what it was sent, by number",
        ChartSign::Stack => "pushed on the control stack, taken off",
        ChartSign::Bars => "a thread runs; waits for an answer",
    }
}
