//! What stands in a row.

ghost use Rattle.std.specs.Prelude.{◌≡◌, ◌<◌, ◌^◌, ◌++◌, IfOk, OnOk, codes, map, option_map};
ghost use Rattle.std.specs.String.{string_bytes};
ghost use Rattle.run_chart.specs.Events as shown;
ghost use Rattle.run_chart.specs.Grids.{grid_shape};
ghost use Rattle.run_chart.specs.Sheets.{chart_note_shape, chart_row_shape, chart_sheet_shape, chart_told_shape};

use crate::arrows::{
    ChartArrow, act_arrow, ahead, class_of_stroke, is_right, push_act, push_arrow, push_label,
    push_label_open, take_arrow, told_arrow,
};
use crate::columns::{ChartColumn, column_at, name_of};
use crate::legend::is_ignored;
use crate::rows::{ChartPlace, own_host, place_at};
use crate::sheet::{ChartEvent, ChartNote, ChartRow, ChartSheet, ChartTold};
use crate::texts::{letters_in, push_whole};
use js_base::{HostId, OutOfMemory};
use std::alloc::Global;
use std::fmt::Write;

/// Where all things are: the columns, the rows, where the numbers of lines end, and where the notes begin.
#[derive(Clone, Copy)]
pub struct ChartGrid<'a> {
    pub columns: &'a [ChartColumn],
    pub places: &'a [ChartPlace],
    pub lines: u32,
    pub notes: u32,
}

/// Where the lifeline of a host is.
fn middle_of(grid: &ChartGrid<'_>, host: HostId) -> u32
    ensures { result ≡ shown.middle_of (grid_shape grid.now) host }
{
    column_at(grid.columns, host.0 as usize).middle
}

/// Adds the number of a line.
fn push_line(text: &mut String, x: u32, y: u64, line: u32) -> Result<(), OutOfMemory>
    ensures { OnOk result (string_bytes text.new ≡ string_bytes text.old ++ shown.line_text x y line) }
{
    write!(
        text,
        "<text class='s d' x='{x}' y='{y}' text-anchor='end'>{line}</text>"
    )
    .map_err(|_| OutOfMemory)?;
    Ok(())
}

/// Adds an instruction.
fn push_turn(
    alloc: Global,
    text: &mut String,
    x: u32,
    y: u32,
    what: &str,
) -> Result<(), OutOfMemory>
    ensures { OnOk result (string_bytes text.new ≡ string_bytes text.old ++ shown.turn_text x y what.now) }
{
    push_label(
        alloc,
        text,
        "s",
        x as u64 + 24,
        y as u64 + 4,
        true,
        what,
        28,
    )
}

/// Adds an event on a line.
fn push_event(
    alloc: Global,
    text: &mut String,
    sheet: &ChartSheet,
    grid: &ChartGrid<'_>,
    event: ChartEvent,
    what: &str,
    ignored: bool,
    line: u32,
) -> Result<(), OutOfMemory>
    ensures { OnOk result (string_bytes text.new ≡ string_bytes text.old
        ++ shown.event_text (chart_sheet_shape sheet.now) (grid_shape grid.now) event what.now ignored line) }
{
    match event {
        ChartEvent::Turn(host) => push_turn(alloc, text, middle_of(grid, host), line, what),
        ChartEvent::Take(from, to, stroke, start) => {
            let arrow = take_arrow(grid.columns, grid.places, from, to, start, ignored, line);
            let (sender, taker) = (name_of(sheet, from), name_of(sheet, to));
            let class = class_of_stroke(stroke);
            push_arrow(alloc, text, class, "", sender, taker, what, &arrow)
        }
        ChartEvent::Act(from, to) => {
            let arrow = act_arrow(grid.columns, from, to, ignored, line);
            let (sender, taker) = (name_of(sheet, from), name_of(sheet, to));
            push_act(
                alloc,
                text,
                middle_of(grid, from),
                sender,
                taker,
                what,
                &arrow,
            )
        }
    }
}

/// Adds a cross, with why a message is ignored.
fn push_cross(
    alloc: Global,
    text: &mut String,
    x: u64,
    y: u64,
    why: &str,
) -> Result<(), OutOfMemory>
    ensures { OnOk result (string_bytes text.new ≡ string_bytes text.old ++ shown.cross_text x y why.now) }
{
    text.push_str("<g class='x'><title>")?;
    push_whole(alloc, text, why)?;
    push_cross_stroke(text, x, y)?;
    Ok(())
}

/// Adds the stroke of a cross.
fn push_cross_stroke(text: &mut String, x: u64, y: u64) -> Result<(), OutOfMemory>
    ensures { OnOk result (string_bytes text.new ≡ string_bytes text.old ++ shown.cross_stroke x y) }
{
    write!(text, "</title><path d='M{x} {y}l9 9m0-9l-9 9'/></g>").map_err(|_| OutOfMemory)?;
    Ok(())
}

/// Adds a cross before the lifeline of the host that ignores a message.
fn push_cross_before(
    alloc: Global,
    text: &mut String,
    from: HostId,
    to: HostId,
    x: u32,
    line: u32,
    why: &str,
) -> Result<(), OutOfMemory>
    ensures { OnOk result (string_bytes text.new ≡ string_bytes text.old
        ++ shown.cross_before from to x line why.now) }
{
    let at = ahead(!is_right(from, to), x as u64, 27).saturating_sub(4);
    push_cross(alloc, text, at, line.saturating_sub(4) as u64, why)
}

/// Adds the cross of an event that is ignored.
fn push_cross_of(
    alloc: Global,
    text: &mut String,
    grid: &ChartGrid<'_>,
    event: ChartEvent,
    line: u32,
    ignored: &Option<String>,
) -> Result<(), OutOfMemory>
    ensures { OnOk result (string_bytes text.new ≡ string_bytes text.old
        ++ shown.cross_of (grid_shape grid.now) event line (option_map string_bytes ignored.now)) }
{
    match ignored {
        Some(why) => push_cross_why(alloc, text, grid, event, line, why.as_str()),
        None => Ok(()),
    }
}

/// Adds the cross of an event that is ignored for a reason.
fn push_cross_why(
    alloc: Global,
    text: &mut String,
    grid: &ChartGrid<'_>,
    event: ChartEvent,
    line: u32,
    why: &str,
) -> Result<(), OutOfMemory>
    ensures { OnOk result (string_bytes text.new ≡ string_bytes text.old
        ++ shown.cross_why (grid_shape grid.now) event line why.now) }
{
    match event {
        ChartEvent::Turn(_) => Ok(()),
        ChartEvent::Take(from, to, _, _) => {
            push_cross_before(alloc, text, from, to, middle_of(grid, to), line, why)
        }
        ChartEvent::Act(from, to) => {
            push_cross_before(alloc, text, from, to, middle_of(grid, to), line, why)
        }
    }
}

/// Adds a circle with a number.
fn push_seen(text: &mut String, x: u32, y: u64, number: u64) -> Result<(), OutOfMemory>
    requires { y < 2 ^ 40 }
    ensures { OnOk result (string_bytes text.new ≡ string_bytes text.old ++ shown.seen_text x y number) }
{
    push_circle(text, x, y)?;
    push_number(text, x, y + 4, number)?;
    Ok(())
}

/// Adds a circle.
fn push_circle(text: &mut String, x: u32, y: u64) -> Result<(), OutOfMemory>
    ensures { OnOk result (string_bytes text.new ≡ string_bytes text.old ++ shown.circle_text x y) }
{
    write!(text, "<g class='seen'><circle cx='{x}' cy='{y}' r='8'/>").map_err(|_| OutOfMemory)?;
    Ok(())
}

/// Adds the number in a circle.
fn push_number(text: &mut String, x: u32, y: u64, number: u64) -> Result<(), OutOfMemory>
    ensures { OnOk result (string_bytes text.new ≡ string_bytes text.old ++ shown.number_text x y number) }
{
    write!(
        text,
        "<text class='s' x='{x}' y='{y}' text-anchor='middle'>{number}</text></g>"
    )
    .map_err(|_| OutOfMemory)?;
    Ok(())
}

/// What is before the message that a misbehaving host is sent.
fn sent_text(alloc: Global, number: u64) -> Result<String, OutOfMemory>
    ensures { IfOk result (λ text. string_bytes text ≡ shown.sent_text number) }
{
    Ok(format!(in alloc; "sent {number}, ")?)
}

/// Adds the arrow of what a misbehaving host is sent.
fn push_told_arrow(
    alloc: Global,
    text: &mut String,
    from: &str,
    to: &str,
    told: &ChartTold,
    arrow: &ChartArrow,
) -> Result<(), OutOfMemory>
    ensures { OnOk result (string_bytes text.new ≡ string_bytes text.old
        ++ shown.drawn_told from.now to.now (chart_told_shape told.now) arrow.now) }
{
    let before = sent_text(alloc, told.number)?;
    let class = class_of_stroke(told.stroke);
    let message = told.text.as_str();
    push_arrow(
        alloc,
        text,
        class,
        before.as_str(),
        from,
        to,
        message,
        arrow,
    )
}

/// Adds what a misbehaving host is sent: an arrow, and a circle with a number.
fn push_told(
    alloc: Global,
    text: &mut String,
    sheet: &ChartSheet,
    grid: &ChartGrid<'_>,
    own: HostId,
    place: &ChartPlace,
    told: &ChartTold,
) -> Result<(), OutOfMemory>
    ensures { OnOk result (string_bytes text.new ≡ string_bytes text.old
        ++ shown.told_text (chart_sheet_shape sheet.now) (grid_shape grid.now) own place.now
        (chart_told_shape told.now)) }
{
    let arrow = told_arrow(grid.columns, own, told.to, place);
    let (from, to) = (name_of(sheet, own), name_of(sheet, told.to));
    let x = middle_of(grid, told.to);
    push_told_arrow(alloc, text, from, to, told, &arrow)?;
    push_seen(text, x, place.line as u64 + 24, told.number)?;
    Ok(())
}

/// Adds what a misbehaving host is sent where it is.
fn push_told_of(
    alloc: Global,
    text: &mut String,
    sheet: &ChartSheet,
    grid: &ChartGrid<'_>,
    own: HostId,
    place: &ChartPlace,
    told: &Option<ChartTold>,
) -> Result<(), OutOfMemory>
    ensures { OnOk result (string_bytes text.new ≡ string_bytes text.old
        ++ shown.told_of (chart_sheet_shape sheet.now) (grid_shape grid.now) own place.now
        (option_map chart_told_shape told.now)) }
{
    match told {
        Some(told) => push_told(alloc, text, sheet, grid, own, place, told),
        None => Ok(()),
    }
}

/// Whether what is pushed or taken off stands to the right of the lifeline.
fn is_from_left(event: ChartEvent) -> bool
    ensures { result ≡ shown.is_from_left event }
{
    match event {
        ChartEvent::Turn(_) => false,
        ChartEvent::Take(from, to, _, _) => is_right(from, to),
        ChartEvent::Act(from, to) => is_right(from, to),
    }
}

/// Adds what is pushed or taken off, with the stack.
fn push_stack(
    alloc: Global,
    text: &mut String,
    x: u32,
    y: u32,
    right: bool,
    stack: &ChartNote,
) -> Result<(), OutOfMemory>
    ensures { OnOk result (string_bytes text.new ≡ string_bytes text.old
        ++ shown.stack_text x y right (chart_note_shape stack.now)) }
{
    push_stack_tip(alloc, text, stack.tip.as_str())?;
    push_label_open(
        text,
        "s push",
        ahead(right, x as u64, 24),
        y as u64 + 4,
        right,
    )?;
    push_whole(alloc, text, stack.text.as_str())?;
    text.push_str("</text></g>")?;
    Ok(())
}

/// Adds what is shown beside the pointer.
fn push_stack_tip(alloc: Global, text: &mut String, tip: &str) -> Result<(), OutOfMemory>
    ensures { OnOk result (string_bytes text.new ≡ string_bytes text.old ++ shown.tip_title tip.now) }
{
    text.push_str("<g><title>")?;
    push_whole(alloc, text, tip)?;
    text.push_str("</title>")?;
    Ok(())
}

/// Adds what is pushed or taken off where something is.
fn push_stack_of(
    alloc: Global,
    text: &mut String,
    x: u32,
    line: u32,
    right: bool,
    stack: &Option<ChartNote>,
) -> Result<(), OutOfMemory>
    ensures { OnOk result (string_bytes text.new ≡ string_bytes text.old
        ++ shown.stack_of x line right (option_map chart_note_shape stack.now)) }
{
    match stack {
        Some(stack) => push_stack(alloc, text, x, line, right, stack),
        None => Ok(()),
    }
}

/// Adds the double bar where the program halts.
fn push_halt(
    alloc: Global,
    text: &mut String,
    name: &str,
    x: u32,
    y: u32,
) -> Result<(), OutOfMemory>
    ensures { OnOk result (string_bytes text.new ≡ string_bytes text.old ++ shown.halt_text name.now x y) }
{
    text.push_str("<g class='halt'><title>")?;
    push_whole(alloc, text, name)?;
    push_halt_bars(text, x, y as u64 + 7, y as u64 + 12)?;
    Ok(())
}

/// Adds two bars.
fn push_halt_bars(text: &mut String, x: u32, y: u64, next: u64) -> Result<(), OutOfMemory>
    ensures { OnOk result (string_bytes text.new ≡ string_bytes text.old ++ shown.halt_bars x y next) }
{
    write!(
        text,
        " has halted</title><path d='M{x} {y}h24M{x} {next}h24'/></g>"
    )
    .map_err(|_| OutOfMemory)?;
    Ok(())
}

/// Adds the double bar where the program halts in an event.
fn push_halt_of(
    alloc: Global,
    text: &mut String,
    name: &str,
    x: u32,
    line: u32,
    halts: bool,
) -> Result<(), OutOfMemory>
    ensures { OnOk result (string_bytes text.new ≡ string_bytes text.old ++ shown.halt_of name.now x line halts) }
{
    if halts {
        push_halt(alloc, text, name, x.saturating_sub(12), line)?;
    }
    Ok(())
}

/// The note on why a message is ignored.
fn why_text(alloc: Global, why: &str) -> Result<String, OutOfMemory>
    ensures { IfOk result (λ text. string_bytes text ≡ shown.why_text why.now) }
{
    Ok(format!(in alloc; "ignored: {why}")?)
}

/// How many letters the note on a row has.
fn note_letters(
    alloc: Global,
    ignored: &Option<String>,
    note: &Option<ChartNote>,
) -> Result<usize, OutOfMemory>
    ensures { IfOk result (λ count. count
        ≡ shown.note_letters (option_map string_bytes ignored.now) (option_map chart_note_shape note.now)) }
{
    match ignored {
        Some(why) => {
            let text = why_text(alloc, why.as_str())?;
            letters_in(alloc, text.as_str())
        }
        None => own_letters(alloc, note),
    }
}

/// How many letters a note has.
fn own_letters(alloc: Global, note: &Option<ChartNote>) -> Result<usize, OutOfMemory>
    ensures { IfOk result (λ count. count ≡ shown.own_letters (option_map chart_note_shape note.now)) }
{
    match note {
        Some(note) => letters_in(alloc, note.text.as_str()),
        None => Ok(0),
    }
}

/// The most letters that the note on a row has.
pub fn longest_note(alloc: Global, rows: &[ChartRow]) -> Result<usize, OutOfMemory>
    ensures { IfOk result (λ most. most ≡ shown.longest_note 0 (map chart_row_shape rows.now)) }
{
    let mut most = 0;
    for row in rows {
        most = note_letters(alloc, &row.ignored, &row.note)?.max(most);
    }
    Ok(most)
}

/// Adds a note.
fn push_note(
    alloc: Global,
    text: &mut String,
    class: &str,
    x: u32,
    y: u32,
    note: &str,
    tip: &str,
) -> Result<(), OutOfMemory>
    ensures { OnOk result (string_bytes text.new ≡ string_bytes text.old
        ++ shown.note_text class.now x y note.now tip.now) }
{
    push_stack_tip(alloc, text, tip)?;
    push_label(alloc, text, class, x as u64, y as u64 + 4, true, note, 54)?;
    text.push_str("</g>")?;
    Ok(())
}

/// Adds the note on a row: why it is ignored, or of which statement the instruction is.
fn push_note_of(
    alloc: Global,
    text: &mut String,
    x: u32,
    line: u32,
    ignored: &Option<String>,
    note: &Option<ChartNote>,
) -> Result<(), OutOfMemory>
    ensures { OnOk result (string_bytes text.new ≡ string_bytes text.old
        ++ shown.note_of x line (option_map string_bytes ignored.now) (option_map chart_note_shape note.now)) }
{
    match ignored {
        Some(why) => {
            let whole = why_text(alloc, why.as_str())?;
            push_note(alloc, text, "s no", x, line, whole.as_str(), whole.as_str())
        }
        None => push_own_note(alloc, text, x, line, note),
    }
}

/// Adds the note on a statement.
fn push_own_note(
    alloc: Global,
    text: &mut String,
    x: u32,
    line: u32,
    note: &Option<ChartNote>,
) -> Result<(), OutOfMemory>
    ensures { OnOk result (string_bytes text.new ≡ string_bytes text.old
        ++ shown.own_note x line (option_map chart_note_shape note.now)) }
{
    match note {
        Some(note) => {
            push_note(
                alloc,
                text,
                "s d",
                x,
                line,
                note.text.as_str(),
                note.tip.as_str(),
            )
        }
        None => Ok(()),
    }
}

/// Adds the number of the line, the event, and its cross.
fn push_row_front(
    alloc: Global,
    text: &mut String,
    sheet: &ChartSheet,
    grid: &ChartGrid<'_>,
    place: &ChartPlace,
    row: &ChartRow,
) -> Result<(), OutOfMemory>
    ensures { OnOk result (string_bytes text.new ≡ string_bytes text.old
        ++ shown.row_front (chart_sheet_shape sheet.now) (grid_shape grid.now) place.now
        (chart_row_shape row.now)) }
{
    let ignored = is_ignored(row);
    let what = row.text.as_str();
    push_line(text, grid.lines, place.line as u64 + 4, row.line)?;
    push_event(
        alloc, text, sheet, grid, row.event, what, ignored, place.line,
    )?;
    push_cross_of(alloc, text, grid, row.event, place.line, &row.ignored)?;
    Ok(())
}

/// Adds what is sent to a misbehaving host, and what becomes of the control stack.
fn push_row_middle(
    alloc: Global,
    text: &mut String,
    sheet: &ChartSheet,
    grid: &ChartGrid<'_>,
    place: &ChartPlace,
    row: &ChartRow,
) -> Result<(), OutOfMemory>
    ensures { OnOk result (string_bytes text.new ≡ string_bytes text.old
        ++ shown.row_middle (chart_sheet_shape sheet.now) (grid_shape grid.now) place.now
        (chart_row_shape row.now)) }
{
    let own = own_host(row.event);
    let right = is_from_left(row.event);
    push_told_of(alloc, text, sheet, grid, own, place, &row.told)?;
    push_stack_of(
        alloc,
        text,
        middle_of(grid, own),
        place.line,
        right,
        &row.stack,
    )?;
    Ok(())
}

/// Adds the double bar of the end, and the note.
fn push_row_back(
    alloc: Global,
    text: &mut String,
    sheet: &ChartSheet,
    grid: &ChartGrid<'_>,
    place: &ChartPlace,
    row: &ChartRow,
) -> Result<(), OutOfMemory>
    ensures { OnOk result (string_bytes text.new ≡ string_bytes text.old
        ++ shown.row_back (chart_sheet_shape sheet.now) (grid_shape grid.now) place.now
        (chart_row_shape row.now)) }
{
    let own = own_host(row.event);
    let x = middle_of(grid, own);
    push_halt_of(alloc, text, name_of(sheet, own), x, place.line, row.halts)?;
    push_note_of(alloc, text, grid.notes, place.line, &row.ignored, &row.note)?;
    Ok(())
}

/// Adds a row.
fn push_row(
    alloc: Global,
    text: &mut String,
    sheet: &ChartSheet,
    grid: &ChartGrid<'_>,
    place: &ChartPlace,
    row: &ChartRow,
) -> Result<(), OutOfMemory>
    ensures { OnOk result (string_bytes text.new ≡ string_bytes text.old
        ++ shown.row_text (chart_sheet_shape sheet.now) (grid_shape grid.now) place.now
        (chart_row_shape row.now)) }
{
    push_row_front(alloc, text, sheet, grid, place, row)?;
    push_row_middle(alloc, text, sheet, grid, place, row)?;
    push_row_back(alloc, text, sheet, grid, place, row)?;
    text.push_str("\n")?;
    Ok(())
}

/// Adds these rows.
pub fn push_rows(
    alloc: Global,
    text: &mut String,
    sheet: &ChartSheet,
    grid: &ChartGrid<'_>,
    rows: &[ChartRow],
) -> Result<(), OutOfMemory>
    ensures { OnOk result (string_bytes text.new ≡ string_bytes text.old
        ++ shown.rows_text (chart_sheet_shape sheet.now) (grid_shape grid.now) 0 (map chart_row_shape rows.now)) }
{
    for (number, row) in rows.iter().enumerate() {
        let place = place_at(grid.places, number);
        push_row(alloc, text, sheet, grid, &place, row)?;
    }
    Ok(())
}
