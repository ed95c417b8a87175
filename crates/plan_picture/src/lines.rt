//! Ways of control and values, as lines from row to row.

ghost use Rattle.std.specs.Prelude.{◌≡◌, ◌≤◌, ◌<◌, ◌^◌, IfOk, OnOk, length, map, replicate, slice_index, slice_set};
ghost use Rattle.plan_picture.specs.Lines as lines;
ghost use Rattle.plan_picture.specs.Lines.{row_numbers};
ghost use Rattle.plan_picture.specs.Rows.{rows_of};
ghost use Rattle.plan_picture.specs.Sheets.{sheet_shape};

use crate::rows::{Row, Standing, number_of};
use crate::sheet::PictureSheet;
use js_base::OutOfMemory;
use plan_layout::{Hub, Line};
use plan_ways::{Way, WayEnd, WayKind};
use std::alloc::Global;
use std::marker::Model;

/// The rows of the fields, of the statements and of the relays, by their numbers.
#[derive(Drop)]
pub struct RowNumbers {
    fields: Vec<u32>,
    statements: Vec<u32>,
    relays: Vec<u32>,
}

impl Model for RowNumbers {
    ghost use Rattle.plan_picture.specs.Lines.{RowNumbers as NumbersShape};

    ghost Value = { NumbersShape };

    ghost view = { λ n. record {
      fields = n.fields.items;
      statements = n.statements.items;
      relays = n.relays.items;
    } };
}

/// The rows of all fields, statements and relays.
pub fn row_numbers(
    alloc: Global,
    sheet: &PictureSheet<'_>,
    rows: &[Row],
) -> Result<RowNumbers, OutOfMemory>
    requires { rows.now ≡ rows_of (sheet_shape sheet.now) }
    ensures { IfOk result (λ numbers. numbers ≡ row_numbers (sheet_shape sheet.now)) }
{
    let mut numbers = RowNumbers {
        fields: zeros(alloc, sheet.code.fields().len())?,
        statements: zeros(alloc, sheet.texts.len())?,
        relays: zeros(alloc, sheet.code.entries().len())?,
    };
    for (place, row) in rows.iter().enumerate() {
        let number = number_of(place.saturating_add(1))?;
        note(&mut numbers, number, &row.standing);
    }
    Ok(numbers)
}

/// So many zeros.
fn zeros(alloc: Global, count: usize) -> Result<Vec<u32>, OutOfMemory>
    ensures { IfOk result (λ found. found.items ≡ replicate count 0) }
{
    let mut found = Vec::new(alloc);
    for _number in 0..count {
        found.push(0)?;
    }
    Ok(found)
}

/// Notes the number of a row.
fn note(numbers: &mut RowNumbers, row: u32, standing: &Standing)
    ensures { numbers.new ≡ lines.noted numbers.old row standing.now }
{
    match standing {
        Standing::OfField(field) => {
            set(&mut numbers.fields, field.0, row);
        }
        Standing::OfStatement(statement) => {
            set(&mut numbers.statements, statement.0, row);
        }
        Standing::OfRelay(relay) => {
            set(&mut numbers.relays, relay.entry.0, row);
        }
    }
}

/// Sets a number, where there is one.
fn set(numbers: &mut [u32], place: u32, number: u32)
    ensures { numbers.new ≡ slice_set numbers.old place number }
{
    let place = place as usize;
    if place < numbers.len() {
        numbers[place] = number;
    }
}

/// The row of an end.
fn row_of(numbers: &RowNumbers, end: WayEnd) -> u32
    ensures { result ≡ lines.row_of numbers.now end }
{
    match end {
        WayEnd::Host(_) => 0,
        WayEnd::Field(field) => number_at(&numbers.fields, field.0),
        WayEnd::Statement(statement) => number_at(&numbers.statements, statement.0),
        WayEnd::Relay(entry) => number_at(&numbers.relays, entry.0),
    }
}

/// The number at a place, and 0 where there is none.
fn number_at(numbers: &[u32], place: u32) -> u32
    ensures { result ≡ slice_index numbers.now place }
{
    match numbers.get(place as usize) {
        Some(number) => *number,
        None => 0,
    }
}

/// Whether an end is a relay.
fn is_relay(end: WayEnd) -> bool
    ensures { result ≡ lines.is_relay end }
{
    match end {
        WayEnd::Host(_) => false,
        WayEnd::Field(_) => false,
        WayEnd::Statement(_) => false,
        WayEnd::Relay(_) => true,
    }
}

/// How far below the top of a row a way leaves it.
fn leaves(kind: WayKind, relay: bool) -> u16
    ensures { result ≡ lines.leaves kind relay }
{
    match kind {
        WayKind::Get => 14,
        WayKind::Set => 19,
        WayKind::Forward => if relay { 17 } else { 23 },
        WayKind::Back => if relay { 17 } else { 26 },
        WayKind::Go => if relay { 14 } else { 29 },
        WayKind::Sync => if relay { 20 } else { 32 },
    }
}

/// How far below the top of a row a way enters it.
fn enters(kind: WayKind, relay: bool) -> u16
    ensures { result ≡ lines.enters kind relay }
{
    match kind {
        WayKind::Get => if relay { 8 } else { 21 },
        WayKind::Set => if relay { 8 } else { 26 },
        WayKind::Forward => if relay { 8 } else { 17 },
        WayKind::Back => if relay { 8 } else { 13 },
        WayKind::Go => if relay { 8 } else { 9 },
        WayKind::Sync => 4,
    }
}

/// The number of a kind.
pub fn number_of_kind(kind: WayKind) -> u8
    ensures { result ≡ lines.number_of_kind kind }
{
    match kind {
        WayKind::Get => 0,
        WayKind::Set => 1,
        WayKind::Forward => 2,
        WayKind::Sync => 3,
        WayKind::Go => 4,
        WayKind::Back => 5,
    }
}

/// Whether ways of a kind run together from where they begin, and not to where they end.
pub fn parts(kind: WayKind) -> bool
    ensures { result ≡ lines.parts kind }
{
    match kind {
        WayKind::Get => true,
        WayKind::Set => false,
        WayKind::Forward => false,
        WayKind::Sync => false,
        WayKind::Go => false,
        WayKind::Back => true,
    }
}

/// A way as a line.
pub fn line_of(numbers: &RowNumbers, way: &Way) -> Line
    ensures { result ≡ lines.line_of numbers.now way.now }
{
    let begin = row_of(numbers, way.begin);
    let end = row_of(numbers, way.end);
    Line {
        from: way.from,
        begin,
        leaves: leaves(way.kind, is_relay(way.begin)),
        to: way.to,
        end,
        enters: enters(way.kind, is_relay(way.end)),
        hub: Hub {
            row: if parts(way.kind) { begin } else { end },
            kind: number_of_kind(way.kind),
        },
    }
}

/// All ways as lines.
pub fn lines_of(
    alloc: Global,
    sheet: &PictureSheet<'_>,
    numbers: &RowNumbers,
) -> Result<Vec<Line>, OutOfMemory>
    ensures { IfOk result (λ found. found.items
        ≡ map (lines.line_of numbers.now) sheet.now.ways.now.ways.items) }
{
    let mut found = Vec::new(alloc);
    for way in &sheet.ways.ways {
        found.push(line_of(numbers, way))?;
    }
    Ok(found)
}
