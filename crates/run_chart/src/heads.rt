//! The heads of the columns, and the lifelines below them.

ghost use Rattle.std.specs.Prelude.{◌≡◌, ◌++◌, OnOk, map, true};
ghost use Rattle.std.specs.String.{string_bytes};
ghost use Rattle.run_chart.specs.Heads as shown;
ghost use Rattle.run_chart.specs.Sheets.{chart_host_shape};

use crate::columns::{ChartColumn, column_at};
use crate::sheet::ChartHost;
use crate::texts::{push_cut, push_whole};
use drawing_text::{small_room, wide_room};
use js_base::OutOfMemory;
use std::alloc::Global;
use std::fmt::Write;

/// The class of a head.
fn class_of_head(misbehaves: bool) -> &'static str
    ensures { result.now ≡ shown.class_of_head misbehaves }
{
    if misbehaves { "host bad" } else { "host" }
}

/// Adds the begin of a head.
fn push_head_open(
    text: &mut String,
    class: &str,
    x: u32,
    y: u32,
    width: u16,
) -> Result<(), OutOfMemory>
    ensures { OnOk result (string_bytes text.new ≡ string_bytes text.old
        ++ shown.head_open class.now x y width) }
{
    write!(
        text,
        "<svg class='{class}' x='{x}' y='{y}' width='{width}' height='44'><title>host "
    )
    .map_err(|_| OutOfMemory)?;
    Ok(())
}

/// Adds the name and the label of a host.
fn push_head_title(
    alloc: Global,
    text: &mut String,
    name: &str,
    label: &str,
) -> Result<(), OutOfMemory>
    ensures { OnOk result (string_bytes text.new ≡ string_bytes text.old
        ++ shown.head_title name.now label.now) }
{
    push_whole(alloc, text, name)?;
    text.push_str(" ")?;
    push_whole(alloc, text, label)?;
    Ok(())
}

/// Adds the edge of a head.
fn push_head_frame(text: &mut String, width: u16) -> Result<(), OutOfMemory>
    ensures { OnOk result (string_bytes text.new ≡ string_bytes text.old ++ shown.head_frame width) }
{
    let inner = width.saturating_sub(1);
    write!(
        text,
        "</title><rect x='.5' y='.5' width='{inner}' height='43' rx='4'/>"
    )
    .map_err(|_| OutOfMemory)?;
    Ok(())
}

/// How many letters of a name have room.
fn name_room(misbehaves: bool, width: u16) -> usize
    ensures { result ≡ shown.name_room misbehaves width }
{
    let room = wide_room(width.saturating_sub(16) as u64) as usize;
    if misbehaves {
        room.saturating_sub(12)
    } else {
        room
    }
}

/// Adds a name.
fn push_name(alloc: Global, text: &mut String, name: &str, room: usize) -> Result<(), OutOfMemory>
    ensures { OnOk result (string_bytes text.new ≡ string_bytes text.old ++ shown.name_text name.now room) }
{
    text.push_str("<text class='b' x='8' y='18'>")?;
    push_cut(alloc, text, name, room)?;
    text.push_str("</text>")?;
    Ok(())
}

/// Adds that a host misbehaves.
fn push_misbehaves(text: &mut String, width: u16) -> Result<(), OutOfMemory>
    ensures { OnOk result (string_bytes text.new ≡ string_bytes text.old ++ shown.misbehaves_text true width) }
{
    let right = width.saturating_sub(8);
    write!(
        text,
        "<text class='s p' x='{right}' y='18' text-anchor='end'>misbehaves</text>"
    )
    .map_err(|_| OutOfMemory)?;
    Ok(())
}

/// Adds whether a host misbehaves.
fn push_misbehaves_where(text: &mut String, misbehaves: bool, width: u16) -> Result<(), OutOfMemory>
    ensures { OnOk result (string_bytes text.new ≡ string_bytes text.old
        ++ shown.misbehaves_text misbehaves width) }
{
    if misbehaves {
        push_misbehaves(text, width)?;
    }
    Ok(())
}

/// Adds a label.
fn push_head_label(
    alloc: Global,
    text: &mut String,
    label: &str,
    width: u16,
) -> Result<(), OutOfMemory>
    ensures { OnOk result (string_bytes text.new ≡ string_bytes text.old
        ++ shown.label_where true label.now width) }
{
    let room = small_room(width.saturating_sub(16) as u64) as usize;
    text.push_str("<text class='s d' x='8' y='35'>")?;
    push_cut(alloc, text, label, room)?;
    text.push_str("</text>")?;
    Ok(())
}

/// Adds the label of a wide head.
fn push_label_where(
    alloc: Global,
    text: &mut String,
    wide: bool,
    label: &str,
    width: u16,
) -> Result<(), OutOfMemory>
    ensures { OnOk result (string_bytes text.new ≡ string_bytes text.old
        ++ shown.label_where wide label.now width) }
{
    if wide {
        push_head_label(alloc, text, label, width)?;
    }
    Ok(())
}

/// Adds what is in a head.
fn push_head_inside(
    alloc: Global,
    text: &mut String,
    column: &ChartColumn,
    host: &ChartHost,
) -> Result<(), OutOfMemory>
    ensures { OnOk result (string_bytes text.new ≡ string_bytes text.old
        ++ shown.head_inside column.now (chart_host_shape host.now)) }
{
    let room = name_room(host.misbehaves, column.width);
    push_name(alloc, text, host.name.as_str(), room)?;
    push_misbehaves_where(text, host.misbehaves, column.width)?;
    push_label_where(alloc, text, column.wide, host.label.as_str(), column.width)?;
    text.push_str("</svg>\n")?;
    Ok(())
}

/// Adds the head of a host.
fn push_head(
    alloc: Global,
    text: &mut String,
    y: u32,
    column: &ChartColumn,
    host: &ChartHost,
) -> Result<(), OutOfMemory>
    ensures { OnOk result (string_bytes text.new ≡ string_bytes text.old
        ++ shown.head_text y column.now (chart_host_shape host.now)) }
{
    push_head_open(
        text,
        class_of_head(host.misbehaves),
        column.left,
        y,
        column.width,
    )?;
    push_head_title(alloc, text, host.name.as_str(), host.label.as_str())?;
    push_head_frame(text, column.width)?;
    push_head_inside(alloc, text, column, host)?;
    Ok(())
}

/// Adds the heads of these hosts.
pub fn push_heads(
    alloc: Global,
    text: &mut String,
    y: u32,
    columns: &[ChartColumn],
    hosts: &[ChartHost],
) -> Result<(), OutOfMemory>
    ensures { OnOk result (string_bytes text.new ≡ string_bytes text.old
        ++ shown.heads_text y columns.now 0 (map chart_host_shape hosts.now)) }
{
    for (number, host) in hosts.iter().enumerate() {
        let column = column_at(columns, number);
        push_head(alloc, text, y, &column, host)?;
    }
    Ok(())
}

/// The class of a lifeline.
fn class_of_life(misbehaves: bool) -> &'static str
    ensures { result.now ≡ shown.class_of_life misbehaves }
{
    if misbehaves { "life bad" } else { "life" }
}

/// Adds a lifeline.
fn push_life(text: &mut String, class: &str, x: u32, from: u32, to: u32) -> Result<(), OutOfMemory>
    ensures { OnOk result (string_bytes text.new ≡ string_bytes text.old
        ++ shown.life_text class.now x from to) }
{
    writeln!(text, "<path class='{class}' d='M{x} {from}V{to}'/>").map_err(|_| OutOfMemory)?;
    Ok(())
}

/// Adds the lifeline of a host with a wide column.
fn push_life_of(
    text: &mut String,
    from: u32,
    to: u32,
    column: &ChartColumn,
    misbehaves: bool,
) -> Result<(), OutOfMemory>
    ensures { OnOk result (string_bytes text.new ≡ string_bytes text.old
        ++ shown.life_of from to column.now misbehaves) }
{
    if column.wide {
        push_life(text, class_of_life(misbehaves), column.middle, from, to)?;
    }
    Ok(())
}

/// Adds the lifelines of these hosts.
pub fn push_lives(
    text: &mut String,
    from: u32,
    to: u32,
    columns: &[ChartColumn],
    hosts: &[ChartHost],
) -> Result<(), OutOfMemory>
    ensures { OnOk result (string_bytes text.new ≡ string_bytes text.old
        ++ shown.lives_text from to columns.now 0 (map chart_host_shape hosts.now)) }
{
    for (number, host) in hosts.iter().enumerate() {
        let column = column_at(columns, number);
        push_life_of(text, from, to, &column, host.misbehaves)?;
    }
    Ok(())
}
