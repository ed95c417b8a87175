//! What stands in which row.

ghost use Rattle.std.specs.Prelude.{◌≡◌, ◌≤◌, ◌<◌, ◌++◌, IfOk, OnOk, length, map, replicate, [], ◌∷◌};
ghost use Rattle.plan_picture.specs.Behind.{all_behind, relays_at, with_relay};
ghost use Rattle.plan_picture.specs.Rows as placed;
ghost use Rattle.plan_picture.specs.Sheets.{sheet_shape};
ghost use Rattle.plan_picture.specs.Texts.{line_room};
ghost use Rattle.statement_texts.specs.Texts.{statement_text_shape};

use crate::sheet::PictureSheet;
use crate::texts::{
    field_label, field_letters, indent, line_room, small_need, statement_letters, wide_need,
};
use drawing_text::Span;
use js_base::{FieldId, HostId, OutOfMemory, StmtId};
use plan_ways::Relay;
use statement_texts::StatementText;
use std::alloc::Global;
use std::marker::Model;

/// What stands in a row.
#[derive(Clone, Copy)]
pub enum Standing {
    OfField(FieldId),
    OfStatement(StmtId),
    OfRelay(Relay),
}

/// A row: what stands in it, in the column of which host, how much more is free before it than behind each row, how
/// wide its box has to be, and in how many blocks its statement is.
#[derive(Clone, Copy)]
pub struct Row {
    pub standing: Standing,
    pub host: HostId,
    pub before: u16,
    pub width: u16,
    pub blocks: usize,
}

/// The relays behind a statement.
#[derive(Drop)]
struct Behind {
    relays: Vec<Relay>,
}

impl Model for Behind {
    ghost use Rattle.std.specs.Prelude.{List};
    ghost use Rattle.plan_ways.specs.declared.relays.Relay.{Relay};

    ghost Value = { List Relay };

    ghost view = { λ b. b.relays.items };
}

/// All rows behind that of the heads.
pub fn rows_of(alloc: Global, sheet: &PictureSheet<'_>) -> Result<Vec<Row>, OutOfMemory>
    ensures { IfOk result (λ found. found.items ≡ placed.rows_of (sheet_shape sheet.now)) }
{
    let mut found = Vec::new(alloc);
    push_field_rows(alloc, &mut found, sheet)?;
    push_statement_rows(alloc, &mut found, sheet)?;
    Ok(found)
}

/// A number as those of fields and statements are.
pub fn number_of(number: usize) -> Result<u32, OutOfMemory>
    ensures { IfOk result (λ same. same ≡ number) }
{
    u32::try_from(number).ok().ok_or(OutOfMemory)
}

/// How high the row is of what stands in it.
pub fn height_of(standing: Standing) -> u16
    ensures { result ≡ placed.height_of standing }
{
    match standing {
        Standing::OfField(_) => 40,
        Standing::OfStatement(_) => 34,
        Standing::OfRelay(_) => 22,
    }
}

/// The heights of these rows, and of that of the heads before them, with what is free between them.
pub fn spans_of(alloc: Global, rows: &[Row]) -> Result<Vec<Span>, OutOfMemory>
    ensures { IfOk result (λ spans. spans.items ≡ placed.spans_of rows.now) }
{
    let mut spans = Vec::new(alloc);
    spans.push(Span {
        before: 0,
        length: 44,
        after: 12,
    })?;
    for row in rows {
        spans.push(Span {
            before: row.before,
            length: height_of(row.standing),
            after: 8,
        })?;
    }
    Ok(spans)
}

/// Adds the rows of the fields.
fn push_field_rows(
    alloc: Global,
    rows: &mut Vec<Row>,
    sheet: &PictureSheet<'_>,
) -> Result<(), OutOfMemory>
    ensures { OnOk result (rows.new.items
        ≡ rows.old.items ++ placed.field_rows (sheet_shape sheet.now) 0 sheet.now.code.now.fields) }
{
    for (number, _field) in sheet.code.fields().iter().enumerate() {
        let field = FieldId(number_of(number)?);
        rows.push(field_row(alloc, sheet, field)?)?;
    }
    Ok(())
}

/// The row of a field.
fn field_row(alloc: Global, sheet: &PictureSheet<'_>, field: FieldId) -> Result<Row, OutOfMemory>
    ensures { IfOk result (λ row. row ≡ placed.field_row (sheet_shape sheet.now) field.0) }
{
    let name = field_letters(alloc, sheet, field)?;
    let label = field_label(alloc, sheet, field)?;
    Ok(Row {
        standing: Standing::OfField(field),
        host: sheet.plan.host_of_field(field),
        before: 0,
        width: wide_need(name.len()).max(small_need(label.len())),
        blocks: 0,
    })
}

/// Adds the rows of the statements and of the relays behind them.
fn push_statement_rows(
    alloc: Global,
    rows: &mut Vec<Row>,
    sheet: &PictureSheet<'_>,
) -> Result<(), OutOfMemory>
    ensures { OnOk result (rows.new.items
        ≡ rows.old.items ++ placed.statement_rows (sheet_shape sheet.now) 0 (sheet_shape sheet.now).texts) }
{
    let relays = relays_behind(alloc, sheet)?;
    let room = line_room(alloc, sheet.lines)?;
    for (number, text) in sheet.texts.iter().enumerate() {
        let id = StmtId(number_of(number)?);
        rows.push(statement_row(alloc, sheet, id, room, text)?)?;
        push_relays(rows, relays_at(&relays, number))?;
    }
    Ok(())
}

/// The row of a statement, where so much is left free for the numbers of lines.
fn statement_row(
    alloc: Global,
    sheet: &PictureSheet<'_>,
    id: StmtId,
    room: u16,
    text: &StatementText,
) -> Result<Row, OutOfMemory>
    requires room { room ≡ line_room sheet.now.lines.now }
    requires small { room ≤ 200 }
    ensures { IfOk result (λ row. row
        ≡ placed.statement_row (sheet_shape sheet.now) id.0 (statement_text_shape text.now)) }
{
    let short = statement_letters(alloc, text)?;
    Ok(Row {
        standing: Standing::OfStatement(id),
        host: sheet.plan.host_of(id),
        before: if text.blocks == 0 { 10 } else { 0 },
        width: room + indent(text) + wide_need(short.len()),
        blocks: text.blocks,
    })
}

/// Adds the rows of relays.
fn push_relays(rows: &mut Vec<Row>, relays: &[Relay]) -> Result<(), OutOfMemory>
    ensures { OnOk result (rows.new.items ≡ rows.old.items ++ map placed.relay_row relays.now) }
{
    for relay in relays {
        rows.push(Row {
            standing: Standing::OfRelay(*relay),
            host: relay.host,
            before: 0,
            width: 0,
            blocks: 0,
        })?;
    }
    Ok(())
}

/// The relays behind the statement of a number.
fn relays_at(relays: &[Behind], number: usize) -> &[Relay]
    ensures { result.now ≡ relays_at relays.entry.now number }
{
    match relays.get(number) {
        Some(behind) => &behind.relays,
        None => &[],
    }
}

/// The relays behind each statement.
fn relays_behind(alloc: Global, sheet: &PictureSheet<'_>) -> Result<Vec<Behind>, OutOfMemory>
    ensures { IfOk result (λ found. found.items
        ≡ all_behind (length sheet.now.texts.now) sheet.now.ways.now.relays.items) }
{
    let mut found = none_behind(alloc, sheet.texts.len())?;
    for relay in &sheet.ways.relays {
        add_relay(&mut found, relay)?;
    }
    Ok(found)
}

/// Nothing behind each of so many statements.
fn none_behind(alloc: Global, count: usize) -> Result<Vec<Behind>, OutOfMemory>
    ensures { IfOk result (λ found. found.items ≡ replicate count []) }
{
    let mut found = Vec::new(alloc);
    for _number in 0..count {
        found.push(Behind {
            relays: Vec::new(alloc),
        })?;
    }
    Ok(found)
}

/// Adds a relay to those behind its statement.
fn add_relay(found: &mut Vec<Behind>, relay: &Relay) -> Result<(), OutOfMemory>
    ensures { OnOk result (found.new.items ≡ with_relay found.old.items relay.now) }
{
    let number = relay.behind;
    if number < found.len() {
        push_relay(&mut found[number], relay)?;
    }
    Ok(())
}

/// Adds a relay.
fn push_relay(behind: &mut Behind, relay: &Relay) -> Result<(), OutOfMemory>
    ensures { OnOk result (behind.new ≡ behind.old ++ relay.now ∷ []) }
{
    behind.relays.push(*relay)?;
    Ok(())
}
