//! The columns of hosts.

ghost use Rattle.std.specs.Prelude.{◌≡◌, ◌≤◌, ◌<◌, ◌+◌, ◌*◌, ◌^◌, IfOk, length, map, slice_get};
ghost use Rattle.std.specs.List.{list_any};
ghost use Rattle.std.specs.String.{string_bytes};
ghost use Rattle.run_chart.specs.Columns as layout;
ghost use Rattle.run_chart.specs.Sheets.{chart_flight_shape, chart_host_shape, chart_row_shape, chart_sheet_shape};
ghost use Rattle.run_chart.specs.Sheets.{chart_told_shape};
ghost use Rattle.std.specs.Prelude.{option_map};

use crate::sheet::{ChartEvent, ChartFlight, ChartHost, ChartRow, ChartSheet, ChartTold};
use crate::texts::{letters_in, small};
use drawing_text::small_width;
use js_base::{HostId, OutOfMemory};
use std::alloc::Global;

/// Where the head of a host stands, where its lifeline is, how wide the head is, and whether the host is wide.
#[derive(Clone, Copy)]
pub struct ChartStand {
    pub left: u32,
    pub middle: u32,
    pub width: u16,
    pub wide: bool,
}

/// A column: where the head of a host stands, and how far it is to the next wide lifeline on each side.
#[derive(Clone, Copy)]
pub struct ChartColumn {
    pub left: u32,
    pub middle: u32,
    pub width: u16,
    pub wide: bool,
    /// The way to the left.
    pub before: u32,
    /// The way to the right.
    pub behind: u32,
}

/// Whether a host does something in an event.
fn acts_in(number: usize, event: ChartEvent) -> bool
    ensures { result ≡ layout.acts_in number event }
{
    match event {
        ChartEvent::Turn(host) => host.0 as usize == number,
        ChartEvent::Take(from, to, _, _) => from.0 as usize == number || to.0 as usize == number,
        ChartEvent::Act(from, to) => from.0 as usize == number || to.0 as usize == number,
    }
}

/// Whether a host is told something.
fn is_told(number: usize, told: &Option<ChartTold>) -> bool
    ensures { result ≡ layout.is_told number (option_map chart_told_shape told.now) }
{
    match told {
        Some(told) => told.to.0 as usize == number,
        None => false,
    }
}

/// Whether a host takes part in an event.
fn is_in_row(number: usize, row: &ChartRow) -> bool
    ensures { result ≡ layout.is_in_row number (chart_row_shape row.now) }
{
    acts_in(number, row.event) || is_told(number, &row.told)
}

/// Whether a host takes part in some event.
fn is_in_rows(number: usize, rows: &[ChartRow]) -> bool
    ensures { result ≡ list_any (layout.is_in_row number) (map chart_row_shape rows.now) }
{
    for row in rows {
        if is_in_row(number, row) {
            return true;
        }
    }
    false
}

/// Whether a host takes part in a message in flight.
fn is_in_flight(number: usize, flight: &ChartFlight) -> bool
    ensures { result ≡ layout.is_in_flight number (chart_flight_shape flight.now) }
{
    flight.from.0 as usize == number || flight.to.0 as usize == number
}

/// Whether a host takes part in some message in flight.
fn is_in_flights(number: usize, flights: &[ChartFlight]) -> bool
    ensures { result ≡ list_any (layout.is_in_flight number) (map chart_flight_shape flights.now) }
{
    for flight in flights {
        if is_in_flight(number, flight) {
            return true;
        }
    }
    false
}

/// Whether a host is wide: it misbehaves, has a field, or takes part in an event or in a message in flight.
fn is_wide(sheet: &ChartSheet, number: usize, host: &ChartHost) -> bool
    ensures { result ≡ layout.is_wide (chart_sheet_shape sheet.now) number (chart_host_shape host.now) }
{
    host.misbehaves
        || !host.fields.is_empty()
        || is_in_rows(number, &sheet.rows)
        || is_in_flights(number, &sheet.flights)
}

/// How wide a head is, which has a label where it is wide.
fn head_width(alloc: Global, label: &str, wide: bool) -> Result<u16, OutOfMemory>
    ensures value { IfOk result (λ width. width ≡ layout.head_width label.now wide) }
    ensures within { IfOk result (λ width. width ≤ 400) }
{
    if !wide {
        return Ok(52);
    }
    let letters = letters_in(alloc, label)?.min(46);
    Ok((16 + small_width(letters as u64) as u16).max(204))
}

/// Where the head of a host stands.
fn stand_of(alloc: Global, left: u32, label: &str, wide: bool) -> Result<ChartStand, OutOfMemory>
    requires { left ≤ 1_000_000 }
    ensures value { IfOk result (λ stand. stand ≡ layout.stand_of left label.now wide) }
    ensures within { IfOk result (λ stand. stand.width ≤ 400) }
{
    let width = head_width(alloc, label, wide)?;
    Ok(ChartStand {
        left,
        middle: left + (width / 2) as u32,
        width,
        wide,
    })
}

/// Where the heads of these hosts stand, the first of them here.
fn stands_of(
    alloc: Global,
    sheet: &ChartSheet,
    from: u32,
    hosts: &[ChartHost],
) -> Result<Vec<ChartStand>, OutOfMemory>
    requires { from ≤ 1_000 }
    ensures { IfOk result (λ found. found.items
        ≡ layout.stands_from (chart_sheet_shape sheet.now) 0 from (map chart_host_shape hosts.now)) }
{
    if hosts.len() > 256 {
        return Err(OutOfMemory);
    }
    let mut found = Vec::new(alloc);
    let mut left = from;
    for (number, host) in hosts.iter().enumerate() {
        let wide = is_wide(sheet, number, host);
        let stand = stand_of(alloc, left, host.label.as_str(), wide)?;
        found.push(stand)?;
        left += stand.width as u32 + 32;
    }
    Ok(found)
}

/// What is 32 behind the last of these, and in any case not before this.
fn end_of(least: u64, stands: &[ChartStand]) -> u64
    requires { least < 2 ^ 34 }
    ensures value { result ≡ layout.end_of least stands.now }
    ensures within { result < 2 ^ 34 }
{
    let mut end = least;
    for stand in stands {
        end = stand.left as u64 + stand.width as u64 + 32;
    }
    end
}

/// The greatest number of a line.
fn greatest_line(rows: &[ChartRow]) -> u32
    ensures { result ≡ layout.greatest_line 0 (map chart_row_shape rows.now) }
{
    let mut most = 0;
    for row in rows {
        most = most.max(row.line);
    }
    most
}

/// How many digits the number of the last line has, three at least.
fn digits_of(alloc: Global, rows: &[ChartRow]) -> Result<u32, OutOfMemory>
    ensures value { IfOk result (λ digits. digits ≡ layout.digits_of (map chart_row_shape rows.now)) }
    ensures within { IfOk result (λ digits. digits ≤ 20) }
{
    let most = greatest_line(rows);
    let digits = format!(in alloc; "{most}")?;
    Ok((digits.as_str().len().min(20) as u32).max(3))
}

/// Where the numbers of lines end.
pub fn lines_of(alloc: Global, sheet: &ChartSheet) -> Result<u32, OutOfMemory>
    ensures value { IfOk result (λ lines. lines ≡ layout.lines_of (chart_sheet_shape sheet.now)) }
    ensures within { IfOk result (λ lines. lines ≤ 160) }
{
    let digits = digits_of(alloc, &sheet.rows)?;
    Ok(20 + 7 * digits)
}

/// How far it is from one place to another.
fn gap(x: u32, other: u32) -> u32
    ensures { result ≡ layout.gap x other }
{
    if x < other { other - x } else { x - other }
}

/// The way from here to the last wide lifeline of those to the left.
fn way_before(x: u32, stands: &[ChartStand]) -> u32
    ensures { result ≡ layout.way_before x 200 stands.now }
{
    let mut way = 200;
    for stand in stands {
        if stand.wide {
            way = gap(x, stand.middle);
        }
    }
    way
}

/// The way from here to the first wide lifeline of those to the right.
fn way_behind(x: u32, stands: &[ChartStand]) -> u32
    ensures { result ≡ layout.way_behind x stands.now }
{
    for stand in stands {
        if stand.wide {
            return gap(x, stand.middle);
        }
    }
    200
}

/// The column of a number, with the ways to the next lifelines.
fn column_of(all: &[ChartStand], number: usize, stand: &ChartStand) -> ChartColumn
    requires { number < length all.now }
    ensures { result ≡ layout.column_of all.now number stand.now }
{
    ChartColumn {
        left: stand.left,
        middle: stand.middle,
        width: stand.width,
        wide: stand.wide,
        before: way_before(stand.middle, &all[..number]),
        behind: way_behind(stand.middle, &all[number + 1..]),
    }
}

/// The columns of these.
fn columns_from(alloc: Global, all: &[ChartStand]) -> Result<Vec<ChartColumn>, OutOfMemory>
    ensures { IfOk result (λ found. found.items ≡ layout.columns_from all.now 0 all.now) }
{
    let mut found = Vec::new(alloc);
    for (number, stand) in all.iter().enumerate() {
        found.push(column_of(all, number, stand))?;
    }
    Ok(found)
}

/// The number of the last wide host, and 0 where none is.
fn last_wide(stands: &[ChartStand]) -> usize
    ensures { result ≡ layout.last_wide 0 0 stands.now }
{
    let mut last = 0;
    for (number, stand) in stands.iter().enumerate() {
        if stand.wide {
            last = number;
        }
    }
    last
}

/// Whether an event is a turn of a host.
fn is_turn_of(number: usize, event: ChartEvent) -> bool
    ensures { result ≡ layout.is_turn_of number event }
{
    match event {
        ChartEvent::Turn(host) => host.0 as usize == number,
        ChartEvent::Take(_, _, _, _) => false,
        ChartEvent::Act(_, _) => false,
    }
}

/// The most letters of the instructions that a host ran, each of which has 28 at most.
fn longest_turn(alloc: Global, number: usize, rows: &[ChartRow]) -> Result<usize, OutOfMemory>
    ensures value { IfOk result (λ most. most ≡ layout.longest_turn number 0 (map chart_row_shape rows.now)) }
    ensures within { IfOk result (λ most. most ≤ 28) }
{
    let mut most = 0;
    for row in rows {
        if is_turn_of(number, row.event) {
            most = letters_in(alloc, row.text.as_str())?.min(28).max(most);
        }
    }
    Ok(most)
}

/// Where the lifeline of the host of a number is.
fn middle_at(stands: &[ChartStand], number: usize) -> u32
    ensures { result ≡ layout.middle_at stands.now number }
{
    match stands.get(number) {
        Some(stand) => stand.middle,
        None => 0,
    }
}

/// Where the notes begin.
fn notes_from(
    alloc: Global,
    sheet: &ChartSheet,
    lines: u32,
    stands: &[ChartStand],
) -> Result<u64, OutOfMemory>
    requires { lines ≡ layout.lines_of (chart_sheet_shape sheet.now) }
    ensures { IfOk result (λ notes. notes
        ≡ layout.notes_from (chart_sheet_shape sheet.now) (layout.last_wide 0 0 stands.now) stands.now) }
{
    let last = last_wide(stands);
    let longest = longest_turn(alloc, last, &sheet.rows)?;
    let end = end_of(lines as u64 + 14, stands);
    let behind = middle_at(stands, last) as u64 + 38 + small_width(longest as u64);
    Ok((end + 26).max(behind))
}

/// The columns, where the numbers of lines end, and where the notes begin.
#[derive(Drop)]
pub struct ChartColumns {
    pub columns: Vec<ChartColumn>,
    pub lines: u32,
    pub notes: u32,
}

/// Where all columns are.
pub fn columns_of(alloc: Global, sheet: &ChartSheet) -> Result<ChartColumns, OutOfMemory>
    ensures columns { IfOk result (λ found. found.columns.items ≡ layout.columns_of (chart_sheet_shape sheet.now)) }
    ensures lines { IfOk result (λ found. found.lines ≡ layout.lines_of (chart_sheet_shape sheet.now)) }
    ensures notes { IfOk result (λ found. found.notes ≡ layout.notes_of (chart_sheet_shape sheet.now)) }
{
    let lines = lines_of(alloc, sheet)?;
    let stands = stands_of(alloc, sheet, lines + 14, &sheet.hosts)?;
    let notes = small(notes_from(alloc, sheet, lines, stands.as_slice())?)?;
    let columns = columns_from(alloc, stands.as_slice())?;
    Ok(ChartColumns {
        columns,
        lines,
        notes,
    })
}

/// No column.
const NO_COLUMN: ChartColumn = ChartColumn {
    left: 0,
    middle: 0,
    width: 0,
    wide: false,
    before: 0,
    behind: 0,
};

/// The column of the host of a number.
pub fn column_at(columns: &[ChartColumn], number: usize) -> ChartColumn
    ensures { result ≡ layout.column_at columns.now number }
{
    columns.get(number).copied().unwrap_or(NO_COLUMN)
}

/// The way to the next lifeline on a side.
pub fn way_from(column: &ChartColumn, right: bool) -> u32
    ensures { result ≡ layout.way_from column.now right }
{
    if right { column.behind } else { column.before }
}

/// The name of a host.
pub fn name_of(sheet: &ChartSheet, host: HostId) -> &str
    ensures { result.now ≡ layout.name_of (chart_sheet_shape sheet.now) host }
{
    match sheet.hosts.get(host.0 as usize) {
        Some(host) => host.name.as_str(),
        None => "",
    }
}
