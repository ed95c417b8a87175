//! Bands and brackets of loops.

ghost use Rattle.std.specs.Prelude.{◌≡◌, ◌≤◌, ◌<◌, ◌^◌, ◌+◌, ◌++◌, IfOk, OnOk, Some, map, slice_get};
ghost use Rattle.std.specs.String.{string_bytes};
ghost use Rattle.plan_picture.specs.Loops as looping;
ghost use Rattle.plan_picture.specs.Rows.{height_of};
ghost use Rattle.plan_picture.specs.Sheets.{sheet_shape};
ghost use Rattle.statement_texts.specs.Texts.{statement_text_shape};

use crate::legend::{push_bracket, push_bracket_tip};
use crate::rows::{Row, Standing, height_of};
use crate::sheet::PictureSheet;
use js_base::{OutOfMemory, StmtId};
use plan_layout::Places;
use statement_texts::StatementText;
use std::alloc::Global;
use std::fmt::Write;

/// The last row of a loop: its number, and how high it is.
#[derive(Clone, Copy)]
pub struct Ending {
    pub number: usize,
    pub height: u16,
}

/// A loop to draw: its statement, in how many loops it is, its row and its last row.
#[derive(Clone, Copy)]
pub struct Loop {
    pub statement: StmtId,
    pub depth: u16,
    pub row: usize,
    pub ending: Ending,
}

/// In how many loops a loop is, of which 63 are told apart.
fn depth_of(text: &StatementText) -> u16
    ensures value { result ≡ looping.depth_of (statement_text_shape text.now) }
    ensures within { result ≤ 63 }
{
    text.loops.min(63) as u16
}

/// How many loops are in each other.
fn deepest(texts: &[StatementText]) -> u16
    ensures value { result ≡ looping.deepest 0 (map statement_text_shape texts.now) }
    ensures within { result ≤ 64 }
{
    let mut most = 0;
    for text in texts {
        if text.begins_loop {
            most = most.max(depth_of(text) + 1);
        }
    }
    most
}

/// What is left free to the left for the brackets of loops.
pub fn margin(texts: &[StatementText]) -> u64
    ensures value { result ≡ looping.margin_of (looping.deepest 0 (map statement_text_shape texts.now)) }
    ensures within { result ≤ 2000 }
{
    match deepest(texts) {
        0 => 20,
        deep => 28 + 18 * deep as u64,
    }
}

/// Whether a row is behind a loop that is in so many blocks.
fn is_behind(blocks: usize, row: &Row) -> bool
    ensures { result ≡ looping.is_behind blocks row.now.standing row.now.blocks }
{
    match row.standing {
        Standing::OfField(_) => true,
        Standing::OfStatement(_) => row.blocks <= blocks,
        Standing::OfRelay(_) => false,
    }
}

/// Whether a row that is not behind a loop that begins at this statement is in it.
fn is_inside(first: u32, row: &Row) -> bool
    ensures { result ≡ looping.is_inside first row.now.standing }
{
    match row.standing {
        Standing::OfField(_) => false,
        Standing::OfStatement(_) => true,
        Standing::OfRelay(relay) => first <= relay.pushed_by.0,
    }
}

/// The last row of a loop that is in so many blocks and begins at this statement, in the row before these.
fn last_in(blocks: usize, first: u32, number: usize, rows: &[Row]) -> Ending
    requires { number < 2 ^ 62 }
    ensures { result ≡ looping.last_in blocks first (record { number = number; height = 34 }) (number + 1) rows.now }
{
    let mut last = Ending { number, height: 34 };
    for (place, row) in rows.iter().enumerate() {
        if is_behind(blocks, row) {
            return last;
        }
        if is_inside(first, row) {
            last = Ending {
                number: number + 1 + place,
                height: height_of(row.standing),
            };
        }
    }
    last
}

/// Adds the loop that begins in a row of this number, where one does, before these rows.
fn push_loop(
    found: &mut Vec<Loop>,
    sheet: &PictureSheet<'_>,
    number: usize,
    row: &Row,
    rows: &[Row],
) -> Result<(), OutOfMemory>
    requires { number < 2 ^ 62 }
    ensures { OnOk result (found.new.items ≡ found.old.items
        ++ looping.loop_of (sheet_shape sheet.now) number row.now.standing row.now.blocks rows.now) }
{
    let Standing::OfStatement(statement) = row.standing else {
        return Ok(());
    };
    push_loop_at(found, sheet, statement, row.blocks, number, rows)
}

/// Adds the loop that begins at a statement, where one does.
fn push_loop_at(
    found: &mut Vec<Loop>,
    sheet: &PictureSheet<'_>,
    statement: StmtId,
    blocks: usize,
    number: usize,
    rows: &[Row],
) -> Result<(), OutOfMemory>
    requires { number < 2 ^ 62 }
    ensures { OnOk result (found.new.items ≡ found.old.items
        ++ looping.loop_of_text statement blocks number
        (slice_get (sheet_shape sheet.now).texts statement.0) rows.now) }
{
    match sheet.texts.get(statement.0 as usize) {
        Some(text) => push_if_loop(found, text, statement, blocks, number, rows),
        None => Ok(()),
    }
}

/// Adds the loop that begins at a statement of this text, if it does.
fn push_if_loop(
    found: &mut Vec<Loop>,
    text: &StatementText,
    statement: StmtId,
    blocks: usize,
    number: usize,
    rows: &[Row],
) -> Result<(), OutOfMemory>
    requires { number < 2 ^ 62 }
    ensures { OnOk result (found.new.items ≡ found.old.items
        ++ looping.loop_of_text statement blocks number (Some (statement_text_shape text.now)) rows.now) }
{
    if text.begins_loop {
        found.push(Loop {
            statement,
            depth: depth_of(text),
            row: number,
            ending: last_in(blocks, statement.0, number, rows),
        })?;
    }
    Ok(())
}

/// The loops that begin in these rows, of which the first has the number 1.
pub fn loops_of(
    alloc: Global,
    sheet: &PictureSheet<'_>,
    rows: &[Row],
) -> Result<Vec<Loop>, OutOfMemory>
    ensures { IfOk result (λ found. found.items
        ≡ looping.loops_of (sheet_shape sheet.now) 1 rows.now) }
{
    let mut found = Vec::new(alloc);
    for (place, row) in rows.iter().enumerate() {
        push_loop(&mut found, sheet, place + 1, row, &rows[place + 1..])?;
    }
    Ok(found)
}

/// Adds the bands of loops, which reach to the right end.
pub fn push_bands(
    text: &mut String,
    places: &Places,
    right: u64,
    loops: &[Loop],
) -> Result<(), OutOfMemory>
    ensures { OnOk result (string_bytes text.new ≡ string_bytes text.old
        ++ looping.bands_text places.now right loops.now) }
{
    for one in loops {
        push_band(text, places, right, one)?;
    }
    Ok(())
}

/// Adds the band of a loop, which reaches to the right end.
fn push_band(text: &mut String, places: &Places, right: u64, one: &Loop) -> Result<(), OutOfMemory>
    ensures { OnOk result (string_bytes text.new ≡ string_bytes text.old
        ++ looping.loop_band places.now right one.now) }
{
    let top = places.start(one.row);
    let bottom = places.start(one.ending.number) + one.ending.height as u64;
    push_band_at(text, 20 + 18 * one.depth as u64, right, top, bottom)
}

/// Adds a band from here to there, with four pixels more above and below.
fn push_band_at(
    text: &mut String,
    x: u64,
    right: u64,
    top: u64,
    bottom: u64,
) -> Result<(), OutOfMemory>
    requires { bottom < 2 ^ 53 }
    ensures { OnOk result (string_bytes text.new ≡ string_bytes text.old
        ++ looping.band_text x right top bottom) }
{
    let y = top.saturating_sub(4);
    let width = right.saturating_sub(x);
    let height = (bottom + 4).saturating_sub(y);
    writeln!(
        text,
        "<rect class='band' x='{x}' y='{y}' width='{width}' height='{height}'/>"
    )
    .map_err(|_| OutOfMemory)?;
    Ok(())
}

/// Adds the brackets of loops.
pub fn push_brackets(text: &mut String, places: &Places, loops: &[Loop]) -> Result<(), OutOfMemory>
    ensures { OnOk result (string_bytes text.new ≡ string_bytes text.old
        ++ looping.brackets_text places.now loops.now) }
{
    for one in loops {
        push_loop_bracket(text, places, one)?;
    }
    Ok(())
}

/// Adds the bracket of a loop.
fn push_loop_bracket(text: &mut String, places: &Places, one: &Loop) -> Result<(), OutOfMemory>
    ensures { OnOk result (string_bytes text.new ≡ string_bytes text.old
        ++ looping.loop_bracket places.now one.now) }
{
    let top = places.start(one.row);
    let middle = places.start(one.ending.number) + one.ending.height as u64 / 2;
    let x = 24 + 18 * one.depth as u64;
    push_loop_text(text, one.statement, one.depth, x, top, middle)
}

/// Adds the bracket of a loop at these places.
fn push_loop_text(
    text: &mut String,
    statement: StmtId,
    depth: u16,
    x: u64,
    top: u64,
    middle: u64,
) -> Result<(), OutOfMemory>
    requires x { x < 2 ^ 32 }
    requires top { top < 2 ^ 53 }
    ensures { OnOk result (string_bytes text.new ≡ string_bytes text.old
        ++ looping.loop_text statement.0 depth x top middle) }
{
    push_loop_title(text, statement)?;
    push_bracket(text, x + 12, middle, x + 4, top + 17, x + 8)?;
    push_bracket_tip(text, x + 15, top + 17)?;
    push_factor(text, x, top + 9, depth)?;
    Ok(())
}

/// Adds what the bracket of a loop stands for.
fn push_loop_title(text: &mut String, statement: StmtId) -> Result<(), OutOfMemory>
    ensures { OnOk result (string_bytes text.new ≡ string_bytes text.old ++ looping.loop_title statement.0) }
{
    let number = statement.0;
    write!(
        text,
        "<g class='loop'><title>statement {number}: a loop</title>"
    )
    .map_err(|_| OutOfMemory)?;
    Ok(())
}

/// Adds how many times a loop counts what is in it.
fn push_factor(text: &mut String, x: u64, y: u64, depth: u16) -> Result<(), OutOfMemory>
    ensures { OnOk result (string_bytes text.new ≡ string_bytes text.old ++ looping.factor_text x y depth) }
{
    let factor = factor_of(depth);
    writeln!(text, "<text class='s' x='{x}' y='{y}'>x{factor}</text></g>").map_err(
        |_| OutOfMemory,
    )?;
    Ok(())
}

/// How many times a loop counts what is in it.
fn factor_of(depth: u16) -> u64
    ensures { result ≡ looping.factor_of depth }
{
    match depth {
        0 => 8,
        1 => 64,
        2 => 512,
        3 => 4_096,
        4 => 32_768,
        _ => 262_144,
    }
}
