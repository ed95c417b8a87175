//! What the strokes and marks of a picture stand for.

ghost use Rattle.std.specs.Prelude.{◌≡◌, ◌≤◌, ◌<◌, ◌^◌, ◌++◌, IfOk, OnOk, length, map};
ghost use Rattle.std.specs.List.{list_any};
ghost use Rattle.std.specs.String.{string_bytes};
ghost use Rattle.plan_picture.specs.Legend as legend;
ghost use Rattle.plan_picture.specs.Sheets.{sheet_shape};
ghost use Rattle.statement_texts.specs.Texts.{statement_text_shape};

use crate::lines::number_of_kind;
use crate::sheet::PictureSheet;
use js_base::OutOfMemory;
use plan_ways::{Way, WayKind};
use statement_texts::StatementText;
use std::alloc::Global;
use std::fmt::Write;

/// What the legend may have.
#[derive(Clone, Copy)]
pub enum Sign {
    /// The stroke of ways of a kind.
    OfWay(WayKind),
    /// The dot on a way with which variables ride.
    Rider,
    /// The bracket of a loop.
    Loop,
    /// The mark of a statement that releases.
    Release,
    /// The box of a relay.
    Passing,
}

/// All that the legend may have, in its order.
const SIGNS: [Sign; 10] = [
    Sign::OfWay(WayKind::Go),
    Sign::OfWay(WayKind::Back),
    Sign::OfWay(WayKind::Get),
    Sign::OfWay(WayKind::Set),
    Sign::OfWay(WayKind::Forward),
    Sign::OfWay(WayKind::Sync),
    Sign::Rider,
    Sign::Loop,
    Sign::Release,
    Sign::Passing,
];

/// What the legend has: what occurs in the picture.
pub fn legend_of(alloc: Global, sheet: &PictureSheet<'_>) -> Result<Vec<Sign>, OutOfMemory>
    ensures found { IfOk result (λ found. found.items ≡ legend.legend_of (sheet_shape sheet.now)) }
    ensures few { IfOk result (λ found. length found.items ≤ 10) }
{
    let mut found = Vec::new(alloc);
    for sign in SIGNS.as_slice() {
        if occurs(sheet, *sign) {
            found.push(*sign)?;
        }
    }
    Ok(found)
}

/// Whether a sign occurs in the picture.
fn occurs(sheet: &PictureSheet<'_>, sign: Sign) -> bool
    ensures { result ≡ legend.occurs (sheet_shape sheet.now) sign }
{
    match sign {
        Sign::OfWay(kind) => some_of(&sheet.ways.ways, kind),
        Sign::Rider => some_rider(&sheet.ways.ways),
        Sign::Loop => some_loop(sheet.texts),
        Sign::Release => some_release(sheet.released),
        Sign::Passing => !sheet.ways.relays.is_empty(),
    }
}

/// Whether some way is of a kind.
fn some_of(ways: &[Way], kind: WayKind) -> bool
    ensures { result ≡ list_any (legend.is_of kind) ways.now }
{
    for way in ways {
        if number_of_kind(way.kind) == number_of_kind(kind) {
            return true;
        }
    }
    false
}

/// Whether variables ride with some way.
fn some_rider(ways: &[Way]) -> bool
    ensures { result ≡ list_any legend.has_riders ways.now }
{
    for way in ways {
        if way.rides {
            return true;
        }
    }
    false
}

/// Whether some statement begins a loop.
fn some_loop(texts: &[StatementText]) -> bool
    ensures { result ≡ list_any legend.is_loop (map statement_text_shape texts.now) }
{
    for text in texts {
        if text.begins_loop {
            return true;
        }
    }
    false
}

/// Whether some statement releases a value.
fn some_release(released: &[bool]) -> bool
    ensures { result ≡ list_any legend.is_true released.now }
{
    for release in released {
        if *release {
            return true;
        }
    }
    false
}

/// How many cells of the legend have room beside each other in a picture of a width.
fn cells(width: u64) -> u64
    ensures value { result ≡ legend.cells width }
    ensures least { 1 ≤ result }
{
    (width.saturating_sub(40) / 370).max(1)
}

/// How many lines the legend has of so many signs.
pub fn legend_lines(width: u64, signs: usize) -> u64
    requires { signs ≤ 10 }
    ensures value { result ≡ legend.legend_lines width signs }
    ensures within { result ≤ 10 }
{
    let cells = cells(width);
    (signs as u64 + (cells - 1)) / cells
}

/// Adds the legend.
pub fn push_legend(text: &mut String, width: u64, signs: &[Sign]) -> Result<(), OutOfMemory>
    requires { length signs.now ≤ 10 }
    ensures { OnOk result (string_bytes text.new ≡ string_bytes text.old ++ legend.cells_text width 0 signs.now) }
{
    for (number, sign) in signs.iter().enumerate() {
        push_numbered(text, width, number, *sign)?;
    }
    Ok(())
}

/// Adds the cell of a number.
fn push_numbered(
    text: &mut String,
    width: u64,
    number: usize,
    sign: Sign,
) -> Result<(), OutOfMemory>
    requires { number < 10 }
    ensures { OnOk result (string_bytes text.new ≡ string_bytes text.old ++ legend.numbered_cell width number sign) }
{
    let cells = cells(width);
    let place = number as u64;
    let beside = place % cells;
    let below = place / cells;
    push_cell(text, sign, 20 + 370 * beside, 66 + 20 * below)
}

/// Adds a sign with what it stands for.
fn push_cell(text: &mut String, sign: Sign, x: u64, y: u64) -> Result<(), OutOfMemory>
    requires x { x < 2 ^ 32 }
    requires y { y < 2 ^ 32 }
    ensures { OnOk result (string_bytes text.new ≡ string_bytes text.old ++ legend.cell_text sign x y) }
{
    push_class(text, class_of(sign))?;
    push_sample(text, sign, x, y)?;
    push_meaning(text, x + 44, y + 4, meaning_of(sign))?;
    Ok(())
}

/// Adds the begin of a sign of a class.
pub fn push_class(text: &mut String, class: &str) -> Result<(), OutOfMemory>
    ensures { OnOk result (string_bytes text.new ≡ string_bytes text.old ++ legend.class_text class.now) }
{
    write!(text, "<g class='{class}'>").map_err(|_| OutOfMemory)?;
    Ok(())
}

/// Adds what a sign stands for.
fn push_meaning(text: &mut String, x: u64, y: u64, meaning: &str) -> Result<(), OutOfMemory>
    ensures { OnOk result (string_bytes text.new ≡ string_bytes text.old ++ legend.meaning_text x y meaning.now) }
{
    writeln!(
        text,
        "</g><text class='d p' x='{x}' y='{y}'>{meaning}</text>"
    )
    .map_err(|_| OutOfMemory)?;
    Ok(())
}

/// Adds a sign as it occurs.
fn push_sample(text: &mut String, sign: Sign, x: u64, y: u64) -> Result<(), OutOfMemory>
    requires x { x < 2 ^ 32 }
    requires y { y < 2 ^ 32 }
    ensures { OnOk result (string_bytes text.new ≡ string_bytes text.old ++ legend.sample_of sign x y) }
{
    match sign {
        Sign::OfWay(_) => push_stroke_sample(text, x, y),
        Sign::Rider => push_rider_sample(text, x, y),
        Sign::Loop => push_loop_sample(text, x, y),
        Sign::Release => push_release_sample(text, x, y),
        Sign::Passing => push_passing_sample(text, x, y),
    }
}

/// Adds a stroke with its tip.
fn push_stroke_sample(text: &mut String, x: u64, y: u64) -> Result<(), OutOfMemory>
    requires { x < 2 ^ 32 }
    ensures { OnOk result (string_bytes text.new ≡ string_bytes text.old ++ legend.stroke_sample x y) }
{
    let (end, tip) = (x + 26, x + 34);
    write!(
        text,
        "<path d='M{x} {y}H{end}'/><path class='tip' d='M{tip} {y}l-8-4v8z'/>"
    )
    .map_err(|_| OutOfMemory)?;
    Ok(())
}

/// Adds a dot.
fn push_rider_sample(text: &mut String, x: u64, y: u64) -> Result<(), OutOfMemory>
    requires { x < 2 ^ 32 }
    ensures { OnOk result (string_bytes text.new ≡ string_bytes text.old ++ legend.rider_sample x y) }
{
    let middle = x + 17;
    write!(text, "<circle class='ride' cx='{middle}' cy='{y}' r='4'/>").map_err(|_| OutOfMemory)?;
    Ok(())
}

/// Adds a bracket.
fn push_loop_sample(text: &mut String, x: u64, y: u64) -> Result<(), OutOfMemory>
    requires x { x < 2 ^ 32 }
    requires y { y < 2 ^ 32 }
    ensures { OnOk result (string_bytes text.new ≡ string_bytes text.old ++ legend.loop_sample x y) }
{
    push_bracket(text, x + 20, y + 5, x + 8, y.saturating_sub(5), x + 20)?;
    push_bracket_tip(text, x + 26, y.saturating_sub(5))?;
    Ok(())
}

/// Adds the stroke of a bracket, from a point to the left, up, and to the right.
pub fn push_bracket(
    text: &mut String,
    right: u64,
    low: u64,
    left: u64,
    high: u64,
    end: u64,
) -> Result<(), OutOfMemory>
    ensures { OnOk result (string_bytes text.new ≡ string_bytes text.old
        ++ legend.bracket_text right low left high end) }
{
    write!(text, "<path d='M{right} {low}H{left}V{high}H{end}'/>").map_err(|_| OutOfMemory)?;
    Ok(())
}

/// Adds the tip of a bracket.
pub fn push_bracket_tip(text: &mut String, x: u64, y: u64) -> Result<(), OutOfMemory>
    ensures { OnOk result (string_bytes text.new ≡ string_bytes text.old ++ legend.bracket_tip x y) }
{
    write!(text, "<path class='tip' d='M{x} {y}l-7-3.5v7z'/>").map_err(|_| OutOfMemory)?;
    Ok(())
}

/// Adds the mark of a release.
fn push_release_sample(text: &mut String, x: u64, y: u64) -> Result<(), OutOfMemory>
    requires { x < 2 ^ 32 }
    ensures { OnOk result (string_bytes text.new ≡ string_bytes text.old ++ legend.release_sample x y) }
{
    let (left, top) = (x + 14, y.saturating_sub(7));
    write!(
        text,
        "<rect class='mark' x='{left}' y='{top}' width='5' height='14'/>"
    )
    .map_err(|_| OutOfMemory)?;
    Ok(())
}

/// Adds the box of a relay.
fn push_passing_sample(text: &mut String, x: u64, y: u64) -> Result<(), OutOfMemory>
    ensures { OnOk result (string_bytes text.new ≡ string_bytes text.old ++ legend.passing_sample x y) }
{
    let top = y.saturating_sub(6);
    write!(
        text,
        "<rect x='{x}' y='{top}' width='32' height='12' rx='6'/>"
    )
    .map_err(|_| OutOfMemory)?;
    Ok(())
}

/// The class of ways of a kind.
pub fn class_of_kind(kind: WayKind) -> &'static str
    ensures { result.now ≡ legend.class_of_kind kind }
{
    match kind {
        WayKind::Get => "get",
        WayKind::Set => "set",
        WayKind::Forward => "forward",
        WayKind::Sync => "sync",
        WayKind::Go => "go",
        WayKind::Back => "back",
    }
}

/// The class of a sign.
fn class_of(sign: Sign) -> &'static str
    ensures { result.now ≡ legend.class_of sign }
{
    match sign {
        Sign::OfWay(kind) => class_of_kind(kind),
        Sign::Rider => "rider",
        Sign::Loop => "loop",
        Sign::Release => "rel",
        Sign::Passing => "relay",
    }
}

/// What ways of a kind stand for.
fn meaning_of_kind(kind: WayKind) -> &'static str
    ensures { result.now ≡ legend.meaning_of_kind kind }
{
    match kind {
        WayKind::Get => "a field is asked for, and its value comes",
        WayKind::Set => "a field is set",
        WayKind::Forward => "a variable is sent",
        WayKind::Sync => "an entry is pushed on another host",
        WayKind::Go => "control goes on at another host, or calls",
        WayKind::Back => "control comes back, by a token that works once",
    }
}

/// What a sign stands for.
fn meaning_of(sign: Sign) -> &'static str
    ensures { result.now ≡ legend.meaning_of sign }
{
    match sign {
        Sign::OfWay(kind) => meaning_of_kind(kind),
        Sign::Rider => "a variable rides along",
        Sign::Loop => "a loop: what is in it counts eight times",
        Sign::Release => "releases a secret (declassify)",
        Sign::Passing => "hands on, or ends: control only passes",
    }
}
