//! The texts in boxes, and how wide they are.

ghost use Rattle.std.specs.Prelude.{◌≡◌, ◌≤◌, ◌<◌, ◌++◌, IfOk, OnOk, codes, length, option_copied, slice_get, map};
ghost use Rattle.std.specs.Str.{chars, encode_utf8_all};
ghost use Rattle.std.specs.String.{string_bytes};
ghost use Rattle.drawing_text.specs.Letters.{escaped};
ghost use Rattle.host_code.specs.Code.{CodeShape};
ghost use Rattle.plan_picture.specs.Sheets.{sheet_shape};
ghost use Rattle.plan_picture.specs.Texts as texts;
ghost use Rattle.statement_texts.specs.Texts.{statement_text_shape};

use crate::sheet::PictureSheet;
use drawing_text::{cut, letters, push_escaped, small_room, small_width, wide_room, wide_width};
use host_code::CodeField;
use js_base::{FieldId, HostId, OutOfMemory};
use label_lattice::{Label, label_text};
use statement_texts::{StatementText, short_text};
use std::alloc::Global;

/// The most letters of a text that make a column wider.
const MOST: usize = 46;

/// How wide a box has to be for so many letters of 12 pixels.
pub fn wide_need(letters: usize) -> u16
    ensures value { result ≡ texts.wide_need letters }
    ensures within { result ≤ 350 }
{
    16 + wide_width(letters.min(MOST) as u64) as u16
}

/// How wide a box has to be for so many letters of 10.5 pixels.
pub fn small_need(letters: usize) -> u16
    ensures value { result ≡ texts.small_need letters }
    ensures within { result ≤ 350 }
{
    16 + small_width(letters.min(MOST) as u64) as u16
}

/// How many letters of 12 pixels have room in a box of a width, two at least.
pub fn wide_letters(width: u16) -> usize
    ensures value { result ≡ texts.wide_letters width }
    ensures least { 2 ≤ result }
{
    (wide_room(width.saturating_sub(16) as u64) as usize).max(2)
}

/// How many letters of 10.5 pixels have room in a box of a width, two at least.
pub fn small_letters(width: u16) -> usize
    ensures value { result ≡ texts.small_letters width }
    ensures least { 2 ≤ result }
{
    (small_room(width.saturating_sub(16) as u64) as usize).max(2)
}

/// The name of a host, as letters.
pub fn host_letters(
    alloc: Global,
    sheet: &PictureSheet<'_>,
    host: HostId,
) -> Result<Vec<char>, OutOfMemory>
    ensures { IfOk result (λ found. found.items ≡ texts.host_letters (sheet_shape sheet.now) host) }
{
    match sheet.code.host(host) {
        Some(row) => letters(alloc, row.name()),
        None => Ok(Vec::new(alloc)),
    }
}

/// The label of a host as it is printed.
pub fn host_label(
    alloc: Global,
    sheet: &PictureSheet<'_>,
    host: HostId,
) -> Result<Vec<char>, OutOfMemory>
    ensures { IfOk result (λ found. found.items ≡ texts.host_label (sheet_shape sheet.now) host) }
{
    match sheet.code.host(host) {
        Some(row) => label_letters(alloc, sheet, row.label()),
        None => Ok(Vec::new(alloc)),
    }
}

/// A label as it is printed.
fn label_letters(
    alloc: Global,
    sheet: &PictureSheet<'_>,
    label: &Label,
) -> Result<Vec<char>, OutOfMemory>
    ensures { IfOk result (λ found. found.items ≡ texts.label_letters (sheet_shape sheet.now) label.now) }
{
    let text = label_text(alloc, label, sheet.principals)?;
    letters(alloc, text.as_str())
}

/// The label of a field as it is printed.
pub fn field_label(
    alloc: Global,
    sheet: &PictureSheet<'_>,
    field: FieldId,
) -> Result<Vec<char>, OutOfMemory>
    ensures { IfOk result (λ found. found.items ≡ texts.field_label (sheet_shape sheet.now) field) }
{
    let Some(row) = sheet.code.field(field) else {
        return Ok(Vec::new(alloc));
    };
    match sheet.code.label(row.label()) {
        Some(label) => label_letters(alloc, sheet, label),
        None => Ok(Vec::new(alloc)),
    }
}

/// A field as it is declared: `NAME`, `NAME[SIZE]`, or `NAME = FIRST` where it does not start with 0.
pub fn field_letters(
    alloc: Global,
    sheet: &PictureSheet<'_>,
    field: FieldId,
) -> Result<Vec<char>, OutOfMemory>
    ensures { IfOk result (λ found. found.items ≡ texts.field_letters (sheet_shape sheet.now) field) }
{
    match sheet.code.field(field) {
        Some(row) => {
            let text = declared(alloc, row)?;
            letters(alloc, text.as_str())
        }
        None => Ok(Vec::new(alloc)),
    }
}

/// The text of a field.
fn declared(alloc: Global, field: &CodeField) -> Result<String, OutOfMemory>
    ensures { IfOk result (λ text. string_bytes text ≡ texts.declared field.now) }
{
    let name = field.name();
    if field.is_array() {
        let size = field.size();
        return Ok(format!(in alloc; "{name}[{size}]")?);
    }
    let first = field.first();
    if first == 0 {
        Ok(String::from_str(alloc, name)?)
    } else {
        Ok(format!(in alloc; "{name} = {first}")?)
    }
}

/// A statement in short.
pub fn statement_letters(alloc: Global, statement: &StatementText) -> Result<Vec<char>, OutOfMemory>
    ensures { IfOk result (λ found. found.items
        ≡ texts.statement_letters (statement_text_shape statement.now)) }
{
    let whole = letters(alloc, statement.text.as_str())?;
    short_text(alloc, whole.as_slice(), statement.otherwise)
}

/// How far to the right of its line a statement stands: 14 for each block in it that it is in beyond the body of its
/// method, up to eight.
pub fn indent(statement: &StatementText) -> u16
    ensures value { result ≡ texts.indent (statement_text_shape statement.now) }
    ensures within { result ≤ 112 }
{
    14 * statement.blocks.saturating_sub(1).min(8) as u16
}

/// How much is left free for the numbers of lines.
pub fn line_room(alloc: Global, lines: &[u32]) -> Result<u16, OutOfMemory>
    ensures value { IfOk result (λ room. room ≡ texts.line_room lines.now) }
    ensures within { IfOk result (λ room. room ≤ 200) }
{
    let mut most = 0;
    for line in lines {
        most = most.max(*line);
    }
    let digits = format!(in alloc; "{most}")?;
    Ok(8 + 7 * digits.as_str().len().min(20) as u16)
}

/// Adds a text, of which so many letters have room.
pub fn push_cut(
    alloc: Global,
    text: &mut String,
    letters: &[char],
    room: usize,
) -> Result<(), OutOfMemory>
    requires { 2 ≤ room }
    ensures { OnOk result (string_bytes text.new
        ≡ string_bytes text.old ++ texts.cut_text letters.now room) }
{
    let kept = cut(alloc, letters, room)?;
    push_escaped(text, kept.as_slice())
}
