//! The whole picture.

ghost use Rattle.std.specs.Prelude.{◌≡◌, ◌≤◌, ◌<◌, ◌^◌, ◌+◌, ◌++◌, IfOk, OnOk, length};
ghost use Rattle.std.specs.String.{string_bytes};
ghost use Rattle.plan_picture.specs.Legend.{legend_of};
ghost use Rattle.plan_picture.specs.Picture as picture;
ghost use Rattle.plan_picture.specs.Rows.{rows_of};
ghost use Rattle.plan_picture.specs.Sheets.{sheet_shape};

use crate::boxes::{push_boxes, push_heads};
use crate::columns::widths_of;
use crate::legend::{Sign, legend_lines, legend_of, push_legend};
use crate::lines::{lines_of, row_numbers};
use crate::loops::{loops_of, margin, push_bands, push_brackets};
use crate::paths::{Grid, push_ways};
use crate::rows::{Row, number_of, rows_of, spans_of};
use crate::sheet::PictureSheet;
use drawing_text::STYLE;
use js_base::limits::HOSTS;
use js_base::{HostId, OutOfMemory};
use plan_layout::{Columns, columns_of, places_of};
use std::alloc::Global;
use std::fmt::Write;

/// Adds the picture of a plan: an SVG text that shows which host has which part of the program, and how control and
/// values go.
///
/// # Errors
/// Memory ran out. A front of the picture may have been added.
pub fn push_plan(
    alloc: Global,
    text: &mut String,
    sheet: &PictureSheet<'_>,
) -> Result<(), OutOfMemory>
    ensures { OnOk result (string_bytes text.new
        ≡ string_bytes text.old ++ picture.plan_text (sheet_shape sheet.now)) }
{
    let rows = rows_of(alloc, sheet)?;
    let signs = legend_of(alloc, sheet)?;
    let numbers = row_numbers(alloc, sheet, rows.as_slice())?;
    let lines = lines_of(alloc, sheet, &numbers)?;
    let widths = widths_of(alloc, sheet, rows.as_slice())?;
    let columns = columns_of(alloc, margin(sheet.texts), widths, lines.as_slice())?;
    let width = width_of(&columns);
    let top = top_of(width, signs.len());
    let _few = number_of(rows.len())?;
    let spans = spans_of(alloc, rows.as_slice())?;
    let places = places_of(alloc, top, spans.as_slice())?;
    let grid = Grid {
        numbers,
        columns,
        places,
    };
    push_picture(alloc, text, sheet, &grid, rows.as_slice(), signs.as_slice())?;
    Ok(())
}

/// How wide the picture is.
fn width_of(columns: &Columns) -> u64
    ensures value { result ≡ picture.width_of columns.now }
{
    (columns.right() + 20).max(480)
}

/// Where the heads of the hosts begin, below the legend.
fn top_of(width: u64, signs: usize) -> u64
    requires { signs ≤ 10 }
    ensures value { result ≡ picture.top_of width signs }
    ensures within { result ≤ 272 }
{
    72 + 20 * legend_lines(width, signs)
}

/// Adds the picture of these rows, with these signs in its legend.
fn push_picture(
    alloc: Global,
    text: &mut String,
    sheet: &PictureSheet<'_>,
    grid: &Grid,
    rows: &[Row],
    signs: &[Sign],
) -> Result<(), OutOfMemory>
    requires few { length signs.now ≤ 10 }
    requires rows { rows.now ≡ rows_of (sheet_shape sheet.now) }
    ensures { OnOk result (string_bytes text.new ≡ string_bytes text.old
        ++ picture.picture_on (sheet_shape sheet.now) grid.now signs.now) }
{
    let width = width_of(&grid.columns);
    let top = top_of(width, signs.len());
    push_parts(alloc, text, sheet, grid, rows, signs, width, top)?;
    Ok(())
}

/// Adds the parts of the picture, which is so wide, and in which the heads of the hosts begin here.
fn push_parts(
    alloc: Global,
    text: &mut String,
    sheet: &PictureSheet<'_>,
    grid: &Grid,
    rows: &[Row],
    signs: &[Sign],
    width: u64,
    top: u64,
) -> Result<(), OutOfMemory>
    requires few { length signs.now ≤ 10 }
    requires rows { rows.now ≡ rows_of (sheet_shape sheet.now) }
    ensures { OnOk result (string_bytes text.new ≡ string_bytes text.old
        ++ picture.parts_text (sheet_shape sheet.now) grid.now signs.now width top) }
{
    let past = grid.places.past();
    let count = sheet.code.hosts().len();
    push_front(text, sheet.cost, width, past + 14, signs)?;
    push_lanes(text, &grid.columns, top, past + 4, count)?;
    push_middle(alloc, text, sheet, grid, rows)?;
    push_all_boxes(alloc, text, sheet, grid, rows)?;
    Ok(())
}

/// Adds the lines before the lanes.
fn push_front(
    text: &mut String,
    cost: u64,
    width: u64,
    height: u64,
    signs: &[Sign],
) -> Result<(), OutOfMemory>
    requires few { length signs.now ≤ 10 }
    ensures { OnOk result (string_bytes text.new ≡ string_bytes text.old
        ++ picture.front_text cost width height signs.now) }
{
    push_first(text, width, height)?;
    push_style(text)?;
    push_ground(text, width, height)?;
    push_cost(text, cost)?;
    push_legend(text, width, signs)?;
    Ok(())
}

/// Adds the first line.
fn push_first(text: &mut String, width: u64, height: u64) -> Result<(), OutOfMemory>
    ensures { OnOk result (string_bytes text.new ≡ string_bytes text.old ++ picture.first_text width height) }
{
    writeln!(
        text,
        "<svg xmlns='http://www.w3.org/2000/svg' width='{width}' height='{height}' viewBox='0 0 {width} {height}'>"
    )
    .map_err(|_| OutOfMemory)?;
    Ok(())
}

/// Adds the title, and the colours and strokes.
fn push_style(text: &mut String) -> Result<(), OutOfMemory>
    ensures { OnOk result (string_bytes text.new ≡ string_bytes text.old ++ picture.style_text) }
{
    text.push_str("<title>Where the parts of a program stand</title>\n")?;
    text.push_str(STYLE)?;
    Ok(())
}

/// Adds the ground.
fn push_ground(text: &mut String, width: u64, height: u64) -> Result<(), OutOfMemory>
    ensures { OnOk result (string_bytes text.new ≡ string_bytes text.old ++ picture.ground_text width height) }
{
    writeln!(
        text,
        "<rect class='ground' width='{width}' height='{height}'/>"
    )
    .map_err(|_| OutOfMemory)?;
    Ok(())
}

/// Adds what the plan costs.
fn push_cost(text: &mut String, cost: u64) -> Result<(), OutOfMemory>
    ensures { OnOk result (string_bytes text.new ≡ string_bytes text.old ++ picture.cost_text cost) }
{
    text.push_str("<text class='t p' x='20' y='28'>Where the parts stand</text>")?;
    push_cost_of(text, cost)?;
    Ok(())
}

/// Adds what the messages of the plan cost.
fn push_cost_of(text: &mut String, cost: u64) -> Result<(), OutOfMemory>
    ensures { OnOk result (string_bytes text.new ≡ string_bytes text.old ++ picture.messages_text cost) }
{
    writeln!(
        text,
        "<text class='d p' x='20' y='46'>the messages of this plan cost {cost}</text>"
    )
    .map_err(|_| OutOfMemory)?;
    Ok(())
}

/// Adds the bands behind the boxes of so many hosts.
fn push_lanes(
    text: &mut String,
    columns: &Columns,
    top: u64,
    bottom: u64,
    count: usize,
) -> Result<(), OutOfMemory>
    requires { count ≤ HOSTS }
    ensures { OnOk result (string_bytes text.new ≡ string_bytes text.old
        ++ picture.lanes_text columns.now top bottom count) }
{
    for number in 0..count {
        let host = HostId(number as u8);
        push_lane(text, columns.left(host), columns.width(host), top, bottom)?;
    }
    Ok(())
}

/// Adds the band behind the boxes of a host.
fn push_lane(
    text: &mut String,
    x: u64,
    width: u16,
    top: u64,
    bottom: u64,
) -> Result<(), OutOfMemory>
    ensures { OnOk result (string_bytes text.new ≡ string_bytes text.old
        ++ picture.lane_text x width top bottom) }
{
    let height = bottom.saturating_sub(top);
    writeln!(
        text,
        "<rect class='lane' x='{x}' y='{top}' width='{width}' height='{height}'/>"
    )
    .map_err(|_| OutOfMemory)?;
    Ok(())
}

/// Adds the bands and brackets of loops, and the ways.
fn push_middle(
    alloc: Global,
    text: &mut String,
    sheet: &PictureSheet<'_>,
    grid: &Grid,
    rows: &[Row],
) -> Result<(), OutOfMemory>
    requires { rows.now ≡ rows_of (sheet_shape sheet.now) }
    ensures { OnOk result (string_bytes text.new ≡ string_bytes text.old
        ++ picture.middle_text (sheet_shape sheet.now) grid.now) }
{
    let loops = loops_of(alloc, sheet, rows)?;
    push_bands(text, &grid.places, grid.columns.right(), loops.as_slice())?;
    push_brackets(text, &grid.places, loops.as_slice())?;
    push_ways(text, sheet, grid, &sheet.ways.ways)?;
    Ok(())
}

/// Adds the boxes.
fn push_all_boxes(
    alloc: Global,
    text: &mut String,
    sheet: &PictureSheet<'_>,
    grid: &Grid,
    rows: &[Row],
) -> Result<(), OutOfMemory>
    requires { rows.now ≡ rows_of (sheet_shape sheet.now) }
    ensures { OnOk result (string_bytes text.new ≡ string_bytes text.old
        ++ picture.boxes_of (sheet_shape sheet.now) grid.now) }
{
    push_heads(alloc, text, sheet, grid, rows)?;
    push_boxes(alloc, text, sheet, grid, rows)?;
    text.push_str("</svg>\n")?;
    Ok(())
}
