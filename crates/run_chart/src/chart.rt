//! The whole chart.

ghost use Rattle.std.specs.Prelude.{◌≡◌, ◌≤◌, ◌<◌, ◌^◌, ◌+◌, ◌++◌, IfOk, OnOk, length, map, slice_get, true};
ghost use Rattle.std.specs.String.{string_bytes};
ghost use Rattle.run_chart.specs.Chart as chart;
ghost use Rattle.run_chart.specs.Columns.{notes_of};
ghost use Rattle.run_chart.specs.Grids.{grid_shape};
ghost use Rattle.run_chart.specs.Sheets.{chart_host_shape, chart_sheet_shape};

use crate::bars::push_all_bars;
use crate::columns::{column_at, columns_of};
use crate::events::{ChartGrid, longest_note, push_rows};
use crate::foot::{push_flights, push_foot};
use crate::heads::{push_heads, push_lives};
use crate::legend::{ChartSign, legend_lines, legend_of, push_legend};
use crate::rows::{ChartPlace, places_of};
use crate::sheet::{ChartHost, ChartSheet};
use crate::style::CHART_STYLE;
use crate::texts::{push_whole, small};
use drawing_text::small_width;
use js_base::{HostId, OutOfMemory};
use std::alloc::Global;
use std::fmt::Write;

/// How wide and high the chart is, where the heads begin, what is behind the rows, and where bars end and the foot
/// begins.
#[derive(Clone, Copy)]
pub struct ChartFrame {
    pub width: u32,
    pub top: u32,
    pub past: u32,
    pub end: u32,
    pub foot: u32,
    pub height: u32,
}

/// Adds the chart of a run: an SVG text that shows what each host does in each event, from top to bottom, and which
/// messages go between them.
///
/// # Errors
/// Memory ran out, or the chart has more than 256 hosts, or is wider or higher than some four thousand million pixels.
/// A front of the chart may have been added.
pub fn push_chart(alloc: Global, text: &mut String, sheet: &ChartSheet) -> Result<(), OutOfMemory>
    ensures { OnOk result (string_bytes text.new
        ≡ string_bytes text.old ++ chart.chart_text (chart_sheet_shape sheet.now)) }
{
    let columns = columns_of(alloc, sheet)?;
    let signs = legend_of(alloc, sheet)?;
    let width = width_of(alloc, sheet, columns.notes)?;
    let top = top_of(width, signs.len());
    let places = places_of(alloc, top + 70, &sheet.rows)?;
    let frame = frame_on(sheet, width, top, places.past)?;
    let grid = ChartGrid {
        columns: columns.columns.as_slice(),
        places: places.places.as_slice(),
        lines: columns.lines,
        notes: columns.notes,
    };
    push_on(alloc, text, sheet, &grid, &frame, signs.as_slice())?;
    Ok(())
}

/// How wide the chart is, where the notes begin here.
fn width_of(alloc: Global, sheet: &ChartSheet, notes: u32) -> Result<u32, OutOfMemory>
    requires { notes ≡ notes_of (chart_sheet_shape sheet.now) }
    ensures { IfOk result (λ width. width ≡ chart.width_of (chart_sheet_shape sheet.now)) }
{
    let longest = longest_note(alloc, &sheet.rows)?;
    small(chart_width(notes, longest))
}

/// How wide the chart is, with notes of so many letters.
fn chart_width(notes: u32, longest: usize) -> u64
    ensures { result ≡ chart.chart_width notes longest }
{
    let letters = longest.min(54) as u64;
    (notes as u64 + small_width(letters) + 20).max(480)
}

/// Where the heads begin, below the legend.
fn top_of(width: u32, signs: usize) -> u32
    requires { signs ≤ 12 }
    ensures value { result ≡ chart.top_of width signs }
    ensures within { result ≤ 312 }
{
    72 + 20 * legend_lines(width, signs)
}

/// The most fields of a host, one at least.
fn most_fields(hosts: &[ChartHost]) -> usize
    ensures { result ≡ chart.most_fields 1 (map chart_host_shape hosts.now) }
{
    let mut most = 1;
    for host in hosts {
        most = most.max(host.fields.len());
    }
    most
}

/// Where all things are below each other, where this is behind the rows.
fn frame_on(sheet: &ChartSheet, width: u32, top: u32, past: u32) -> Result<ChartFrame, OutOfMemory>
    requires { top ≤ 312 }
    ensures value { IfOk result (λ frame. frame ≡ chart.frame_from width top past (length sheet.now.flights.items)
        (chart.most_fields 1 (map chart_host_shape sheet.now.hosts.items))) }
    ensures top { IfOk result (λ frame. frame.top ≤ 312) }
    ensures few { IfOk result (λ frame. length sheet.now.flights.items < 2 ^ 32) }
{
    let flights = small(sheet.flights.len() as u64)?;
    let most = small(most_fields(&sheet.hosts) as u64)?;
    frame_from(width, top, past, flights, most)
}

/// Where all things are below each other, with so many messages in flight, and so many fields at most.
fn frame_from(
    width: u32,
    top: u32,
    past: u32,
    flights: u32,
    most: u32,
) -> Result<ChartFrame, OutOfMemory>
    requires { top ≤ 312 }
    ensures value { IfOk result (λ frame. frame ≡ chart.frame_from width top past flights most) }
    ensures top { IfOk result (λ frame. frame.top ≤ 312) }
{
    let behind = past as u64 + 22 * flights as u64;
    Ok(ChartFrame {
        width,
        top,
        past,
        end: small(behind + 6)?,
        foot: small(behind + 22)?,
        height: small(behind + 48 + 36 * most as u64)?,
    })
}

/// Adds the chart, where all things are so.
fn push_on(
    alloc: Global,
    text: &mut String,
    sheet: &ChartSheet,
    grid: &ChartGrid<'_>,
    frame: &ChartFrame,
    signs: &[ChartSign],
) -> Result<(), OutOfMemory>
    requires few { length signs.now ≤ 12 }
    requires top { frame.now.top ≤ 312 }
    requires flights { length sheet.now.flights.items < 2 ^ 32 }
    ensures { OnOk result (string_bytes text.new ≡ string_bytes text.old
        ++ chart.chart_on (chart_sheet_shape sheet.now) (grid_shape grid.now) frame.now signs.now) }
{
    push_front(alloc, text, sheet, frame, signs)?;
    push_behind(alloc, text, sheet, grid, frame)?;
    push_rows(alloc, text, sheet, grid, &sheet.rows)?;
    push_foot_part(alloc, text, sheet, grid, frame)?;
    Ok(())
}

/// Adds what is above the heads.
fn push_front(
    alloc: Global,
    text: &mut String,
    sheet: &ChartSheet,
    frame: &ChartFrame,
    signs: &[ChartSign],
) -> Result<(), OutOfMemory>
    requires { length signs.now ≤ 12 }
    ensures { OnOk result (string_bytes text.new ≡ string_bytes text.old
        ++ chart.front_text (chart_sheet_shape sheet.now) frame.now signs.now) }
{
    push_first(text, frame.width, frame.height)?;
    push_style(text)?;
    push_ground(text, frame.width, frame.height)?;
    push_head_line(alloc, text, sheet)?;
    push_legend(text, frame.width, signs)?;
    Ok(())
}

/// Adds the first line.
fn push_first(text: &mut String, width: u32, height: u32) -> Result<(), OutOfMemory>
    ensures { OnOk result (string_bytes text.new ≡ string_bytes text.old ++ chart.first_text width height) }
{
    writeln!(
        text,
        "<svg xmlns='http://www.w3.org/2000/svg' width='{width}' height='{height}' viewBox='0 0 {width} {height}'>"
    )
    .map_err(|_| OutOfMemory)?;
    Ok(())
}

/// Adds the title, and the colours and strokes.
fn push_style(text: &mut String) -> Result<(), OutOfMemory>
    ensures { OnOk result (string_bytes text.new ≡ string_bytes text.old ++ chart.style_text) }
{
    text.push_str("<title>A run of the hosts</title>\n")?;
    text.push_str(CHART_STYLE)?;
    Ok(())
}

/// Adds the ground.
fn push_ground(text: &mut String, width: u32, height: u32) -> Result<(), OutOfMemory>
    ensures { OnOk result (string_bytes text.new ≡ string_bytes text.old ++ chart.ground_text width height) }
{
    writeln!(
        text,
        "<rect class='ground' width='{width}' height='{height}'/>"
    )
    .map_err(|_| OutOfMemory)?;
    Ok(())
}

/// Adds the title, who misbehaves, and how many events there are.
fn push_head_line(alloc: Global, text: &mut String, sheet: &ChartSheet) -> Result<(), OutOfMemory>
    ensures { OnOk result (string_bytes text.new ≡ string_bytes text.old
        ++ chart.head_line (chart_sheet_shape sheet.now)) }
{
    push_told_title(text)?;
    push_names(alloc, text, &sheet.hosts)?;
    text.push_str(verb_text(how_many(&sheet.hosts)))?;
    push_events(text, sheet.rows.len(), sheet.halted)?;
    Ok(())
}

/// Adds the title.
fn push_told_title(text: &mut String) -> Result<(), OutOfMemory>
    ensures { OnOk result (string_bytes text.new ≡ string_bytes text.old ++ chart.told_title) }
{
    text.push_str(
        "<text class='t p' x='20' y='28'>A run of the hosts</text><text class='d p' x='20' y='46'>",
    )?;
    Ok(())
}

/// What is before the name of a host that misbehaves.
fn comma_text(first: bool) -> &'static str
    ensures { result.now ≡ chart.comma_text first }
{
    if first { "" } else { ", " }
}

/// Adds the names of the hosts that misbehave.
fn push_names(alloc: Global, text: &mut String, hosts: &[ChartHost]) -> Result<(), OutOfMemory>
    ensures { OnOk result (string_bytes text.new ≡ string_bytes text.old
        ++ chart.names_text true (map chart_host_shape hosts.now)) }
{
    let mut first = true;
    for host in hosts {
        if host.misbehaves {
            push_name(alloc, text, first, host.name.as_str())?;
            first = false;
        }
    }
    Ok(())
}

/// Adds the name of a host that misbehaves.
fn push_name(alloc: Global, text: &mut String, first: bool, name: &str) -> Result<(), OutOfMemory>
    ensures { OnOk result (string_bytes text.new ≡ string_bytes text.old ++ chart.name_text first name.now) }
{
    text.push_str(comma_text(first))?;
    push_whole(alloc, text, name)?;
    Ok(())
}

/// How many hosts misbehave.
fn how_many(hosts: &[ChartHost]) -> usize
    ensures { result ≡ chart.how_many 0 (map chart_host_shape hosts.now) }
{
    let mut found = 0;
    for host in hosts {
        if host.misbehaves {
            found += 1;
        }
    }
    found
}

/// What so many hosts do.
fn verb_text(hosts: usize) -> &'static str
    ensures { result.now ≡ chart.verb_text hosts }
{
    if hosts == 0 {
        ""
    } else if hosts == 1 {
        " misbehaves; "
    } else {
        " misbehave; "
    }
}

/// Whether the program has halted.
fn halted_text(halted: bool) -> &'static str
    ensures { result.now ≡ chart.halted_text halted }
{
    if halted {
        " events, the program has halted</text>\n"
    } else {
        " events, the program has not halted</text>\n"
    }
}

/// Adds how many events there are, and whether the program has halted.
fn push_events(text: &mut String, events: usize, halted: bool) -> Result<(), OutOfMemory>
    ensures { OnOk result (string_bytes text.new ≡ string_bytes text.old ++ chart.events_text events halted) }
{
    let behind = halted_text(halted);
    write!(text, "{events}{behind}").map_err(|_| OutOfMemory)?;
    Ok(())
}

/// Adds what passes behind the rows: lifelines, rules and bars, and the entry with which the root begins.
fn push_behind(
    alloc: Global,
    text: &mut String,
    sheet: &ChartSheet,
    grid: &ChartGrid<'_>,
    frame: &ChartFrame,
) -> Result<(), OutOfMemory>
    requires { frame.now.top ≤ 312 }
    ensures { OnOk result (string_bytes text.new ≡ string_bytes text.old
        ++ chart.behind_text (chart_sheet_shape sheet.now) (grid_shape grid.now) frame.now) }
{
    push_lives(text, frame.top + 44, frame.foot, grid.columns, &sheet.hosts)?;
    push_rules(text, frame.width.saturating_sub(20), grid.places)?;
    push_all_bars(
        alloc,
        text,
        frame.top + 52,
        frame.end,
        grid.columns,
        grid.places,
        &sheet.rows,
        &sheet.hosts,
    )?;
    push_start(text, sheet, grid, frame.top + 62)?;
    Ok(())
}

/// Adds a rule.
fn push_rule(text: &mut String, y: u32, right: u32) -> Result<(), OutOfMemory>
    ensures { OnOk result (string_bytes text.new ≡ string_bytes text.old ++ chart.rule_text y right) }
{
    writeln!(text, "<path class='rule' d='M20 {y}H{right}'/>").map_err(|_| OutOfMemory)?;
    Ok(())
}

/// Adds a rule behind a row that is a fifth one.
fn push_rule_where(text: &mut String, fifth: bool, y: u32, right: u32) -> Result<(), OutOfMemory>
    ensures { OnOk result (string_bytes text.new ≡ string_bytes text.old ++ chart.rule_where fifth y right) }
{
    if fifth {
        push_rule(text, y, right)?;
    }
    Ok(())
}

/// Adds a rule behind each fifth row.
fn push_rules(text: &mut String, right: u32, places: &[ChartPlace]) -> Result<(), OutOfMemory>
    ensures { OnOk result (string_bytes text.new ≡ string_bytes text.old ++ chart.rules_text right 0 places.now) }
{
    for (number, place) in places.iter().enumerate() {
        push_rule_where(text, number % 5 == 4, place.end, right)?;
    }
    Ok(())
}

/// Whether a host misbehaves.
fn misbehaves_at(hosts: &[ChartHost], host: HostId) -> bool
    ensures { result ≡ chart.misbehaves_there (slice_get (map chart_host_shape hosts.now) host.0) }
{
    match hosts.get(host.0 as usize) {
        Some(found) => found.misbehaves,
        None => false,
    }
}

/// Adds the entry with which the root begins.
fn push_start(
    text: &mut String,
    sheet: &ChartSheet,
    grid: &ChartGrid<'_>,
    y: u32,
) -> Result<(), OutOfMemory>
    ensures { OnOk result (string_bytes text.new ≡ string_bytes text.old
        ++ chart.start_text (chart_sheet_shape sheet.now) (grid_shape grid.now) y) }
{
    let misbehaves = misbehaves_at(&sheet.hosts, sheet.root);
    let x = column_at(grid.columns, sheet.root.0 as usize).middle;
    push_entry_where(text, misbehaves, x, y)
}

/// Adds the first entry, unless the host misbehaves.
fn push_entry_where(text: &mut String, misbehaves: bool, x: u32, y: u32) -> Result<(), OutOfMemory>
    ensures { OnOk result (string_bytes text.new ≡ string_bytes text.old ++ chart.entry_where misbehaves x y) }
{
    if !misbehaves {
        push_entry(text, x.saturating_sub(24), y)?;
    }
    Ok(())
}

/// Adds the first entry.
fn push_entry(text: &mut String, x: u32, y: u32) -> Result<(), OutOfMemory>
    ensures { OnOk result (string_bytes text.new ≡ string_bytes text.old ++ chart.entry_text x y) }
{
    writeln!(
        text,
        "<text class='s push' x='{x}' y='{y}' text-anchor='end'>+e0</text>"
    )
    .map_err(|_| OutOfMemory)?;
    Ok(())
}

/// Adds the messages in flight, the heads and the fields.
fn push_foot_part(
    alloc: Global,
    text: &mut String,
    sheet: &ChartSheet,
    grid: &ChartGrid<'_>,
    frame: &ChartFrame,
) -> Result<(), OutOfMemory>
    requires { length sheet.now.flights.items < 2 ^ 32 }
    ensures { OnOk result (string_bytes text.new ≡ string_bytes text.old
        ++ chart.foot_part (chart_sheet_shape sheet.now) (grid_shape grid.now) frame.now) }
{
    push_flights(
        alloc,
        text,
        sheet,
        grid,
        frame.past as u64 + 20,
        &sheet.flights,
    )?;
    push_heads(alloc, text, frame.top, grid.columns, &sheet.hosts)?;
    push_foot(alloc, text, frame.foot, grid.columns, &sheet.hosts)?;
    text.push_str("</svg>\n")?;
    Ok(())
}
