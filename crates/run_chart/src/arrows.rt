//! Arrows: where they go, and their texts.

ghost use Rattle.std.specs.Prelude.{◌≡◌, ◌≤◌, ◌<◌, ◌+◌, ◌^◌, ◌++◌, OnOk, []};
ghost use Rattle.std.specs.String.{string_bytes};
ghost use Rattle.run_chart.specs.Arrows as drawn;

use crate::columns::{ChartColumn, column_at, way_from};
use crate::rows::{ChartPlace, place_at};
use crate::sheet::{Start, Stroke};
use crate::texts::{push_cut, push_whole, room_of};
use js_base::{HostId, OutOfMemory};
use std::alloc::Global;
use std::fmt::Write;

/// Where an arrow goes: from a dot beside a lifeline to the side, down to its line, and along this to its end.
#[derive(Clone, Copy)]
pub struct ChartArrow {
    pub right: bool,
    /// Whether it has a tip.
    pub tipped: bool,
    pub dot: u64,
    pub begin: u64,
    pub at: u64,
    pub line: u64,
    pub end: u64,
    pub tip: u64,
    /// Where its text stands.
    pub beside: u64,
    pub above: u64,
    /// How many letters of its text have room.
    pub room: usize,
}

/// So far from here to the right, or to the left.
pub fn ahead(right: bool, x: u64, by: u64) -> u64
    requires x { x < 2 ^ 40 }
    requires by { by < 2 ^ 40 }
    ensures value { result ≡ drawn.ahead right x by }
    ensures within { result ≤ x + by }
{
    if right { x + by } else { x.saturating_sub(by) }
}

/// Whether a host stands to the right of another.
pub fn is_right(from: HostId, to: HostId) -> bool
    ensures { result ≡ drawn.is_right from to }
{
    from.0 < to.0
}

/// An arrow from a lifeline at `x`, where it begins, so far beside it down to a line, and to an end.
fn arrow_of(
    right: bool,
    tipped: bool,
    x: u32,
    begin: u32,
    lane: u16,
    line: u64,
    end: u64,
    room: usize,
) -> ChartArrow
    requires { end < 2 ^ 40 }
    ensures value { result ≡ drawn.arrow_of right tipped x begin lane line end room }
    ensures end { result.end ≡ end }
    ensures line { result.line ≡ line }
{
    ChartArrow {
        right,
        tipped,
        dot: ahead(right, x as u64, 3),
        begin: begin as u64,
        at: ahead(right, x as u64, lane as u64),
        line,
        end,
        tip: ahead(right, end, 6),
        beside: ahead(right, x as u64, lane as u64 + 8),
        above: line.saturating_sub(4),
        room,
    }
}

/// How far beside the lifeline a message goes down.
fn lane_of(start: Start) -> u16
    ensures { result ≡ drawn.lane_of start }
{
    10 + 4 * start.lane.min(2) as u16
}

/// How far before the lifeline a message ends.
fn end_before(ignored: bool) -> u64
    ensures value { result ≡ drawn.end_before ignored }
    ensures within { result ≤ 27 }
{
    if ignored { 27 } else { 11 }
}

/// How much of the way to the next lifeline has no text.
fn way_less(ignored: bool) -> u32
    ensures { result ≡ drawn.way_less ignored }
{
    if ignored { 54 } else { 36 }
}

/// The arrow of a message that is taken on a line.
pub fn take_arrow(
    columns: &[ChartColumn],
    places: &[ChartPlace],
    from: HostId,
    to: HostId,
    start: Start,
    ignored: bool,
    line: u32,
) -> ChartArrow
    ensures { result ≡ drawn.take_arrow columns.now places.now from to start ignored line }
{
    let sender = column_at(columns, from.0 as usize);
    let taker = column_at(columns, to.0 as usize);
    let begin = place_at(places, start.row as usize).begin;
    take_between(
        is_right(from, to),
        ignored,
        &sender,
        &taker,
        begin,
        lane_of(start),
        line,
    )
}

/// The arrow of a message that is taken, between two columns.
fn take_between(
    right: bool,
    ignored: bool,
    sender: &ChartColumn,
    taker: &ChartColumn,
    begin: u32,
    lane: u16,
    line: u32,
) -> ChartArrow
    ensures { result ≡ drawn.take_between right ignored sender.now taker.now begin lane line }
{
    let end = ahead(!right, taker.middle as u64, end_before(ignored));
    let room = room_of(way_from(sender, right), way_less(ignored));
    arrow_of(
        right,
        !ignored,
        sender.middle,
        begin,
        lane,
        line as u64,
        end,
        room,
    )
}

/// The arrow of an act of a misbehaving host.
pub fn act_arrow(
    columns: &[ChartColumn],
    from: HostId,
    to: HostId,
    ignored: bool,
    line: u32,
) -> ChartArrow
    ensures { result ≡ drawn.act_arrow columns.now from to ignored line }
{
    let sender = column_at(columns, from.0 as usize);
    let taker = column_at(columns, to.0 as usize);
    act_between(is_right(from, to), ignored, &sender, &taker, line)
}

/// The arrow of an act, between two columns.
fn act_between(
    right: bool,
    ignored: bool,
    sender: &ChartColumn,
    taker: &ChartColumn,
    line: u32,
) -> ChartArrow
    ensures { result ≡ drawn.act_between right ignored sender.now taker.now line }
{
    let end = ahead(!right, taker.middle as u64, end_before(ignored));
    let room = room_of(way_from(sender, right), way_less(ignored));
    arrow_of(
        right,
        !ignored,
        sender.middle,
        line,
        4,
        line as u64,
        end,
        room,
    )
}

/// The arrow of what a misbehaving host is sent.
pub fn told_arrow(
    columns: &[ChartColumn],
    from: HostId,
    to: HostId,
    place: &ChartPlace,
) -> ChartArrow
    ensures { result ≡ drawn.told_arrow columns.now from to place.now }
{
    let sender = column_at(columns, from.0 as usize);
    let taker = column_at(columns, to.0 as usize);
    told_between(
        is_right(from, to),
        &sender,
        &taker,
        place.begin,
        place.line as u64 + 24,
    )
}

/// The arrow of what a misbehaving host is sent, between two columns.
fn told_between(
    right: bool,
    sender: &ChartColumn,
    taker: &ChartColumn,
    begin: u32,
    line: u64,
) -> ChartArrow
    ensures { result ≡ drawn.told_between right sender.now taker.now begin line }
{
    let end = ahead(!right, taker.middle as u64, 15);
    let room = room_of(way_from(sender, right), 36);
    arrow_of(right, true, sender.middle, begin, 10, line, end, room)
}

/// The arrow of a message in flight.
pub fn flight_arrow(
    columns: &[ChartColumn],
    places: &[ChartPlace],
    from: HostId,
    to: HostId,
    start: Start,
    line: u64,
) -> ChartArrow
    ensures value { result ≡ drawn.flight_arrow columns.now places.now from to start line }
    ensures end { result.end < 2 ^ 40 }
    ensures line { result.line ≡ line }
{
    let sender = column_at(columns, from.0 as usize);
    let begin = place_at(places, start.row as usize).begin;
    flight_between(is_right(from, to), &sender, begin, lane_of(start), line)
}

/// The arrow of a message in flight, from a column.
fn flight_between(right: bool, sender: &ChartColumn, begin: u32, lane: u16, line: u64) -> ChartArrow
    ensures value { result ≡ drawn.flight_between right sender.now begin lane line }
    ensures end { result.end < 2 ^ 40 }
    ensures line { result.line ≡ line }
{
    let way = way_from(sender, right);
    let end = ahead(right, sender.middle as u64, way.saturating_sub(34) as u64);
    let room = room_of(way, 52);
    arrow_of(right, false, sender.middle, begin, lane, line, end, room)
}

/// The class of a stroke.
pub fn class_of_stroke(stroke: Stroke) -> &'static str
    ensures { result.now ≡ drawn.class_of_stroke stroke }
{
    match stroke {
        Stroke::Go => "go",
        Stroke::Back => "back",
        Stroke::Get => "get",
        Stroke::Set => "set",
        Stroke::Forward => "forward",
        Stroke::Sync => "sync",
        Stroke::Ack => "ack",
    }
}

/// Adds the begin of what is drawn in a class.
pub fn push_class(text: &mut String, class: &str) -> Result<(), OutOfMemory>
    ensures { OnOk result (string_bytes text.new ≡ string_bytes text.old ++ drawn.class_text class.now) }
{
    write!(text, "<g class='{class}'>").map_err(|_| OutOfMemory)?;
    Ok(())
}

/// Adds from whom to whom a message goes, and which one it is.
fn push_between(
    alloc: Global,
    text: &mut String,
    from: &str,
    to: &str,
    message: &str,
) -> Result<(), OutOfMemory>
    ensures { OnOk result (string_bytes text.new ≡ string_bytes text.old
        ++ drawn.between_text from.now to.now message.now) }
{
    push_whole(alloc, text, from)?;
    text.push_str(" to ")?;
    push_whole(alloc, text, to)?;
    text.push_str(": ")?;
    push_whole(alloc, text, message)?;
    Ok(())
}

/// Adds what is shown beside the pointer.
fn push_title(
    alloc: Global,
    text: &mut String,
    before: &str,
    from: &str,
    to: &str,
    message: &str,
) -> Result<(), OutOfMemory>
    ensures { OnOk result (string_bytes text.new ≡ string_bytes text.old
        ++ drawn.arrow_title before.now from.now to.now message.now) }
{
    text.push_str("<title>")?;
    text.push_str(before)?;
    push_between(alloc, text, from, to, message)?;
    text.push_str("</title>")?;
    Ok(())
}

/// Adds the dot with which an arrow begins.
fn push_dot(text: &mut String, arrow: &ChartArrow) -> Result<(), OutOfMemory>
    ensures { OnOk result (string_bytes text.new ≡ string_bytes text.old ++ drawn.dot_text arrow.now) }
{
    let (x, y) = (arrow.dot, arrow.begin);
    write!(text, "<circle class='dot' cx='{x}' cy='{y}' r='2.5'/>").map_err(|_| OutOfMemory)?;
    Ok(())
}

/// Adds the stroke of an arrow that goes down.
fn push_bend(text: &mut String, arrow: &ChartArrow) -> Result<(), OutOfMemory>
    ensures { OnOk result (string_bytes text.new ≡ string_bytes text.old ++ drawn.bend_text arrow.now) }
{
    let (x, y, at) = (arrow.dot, arrow.begin, arrow.at);
    let (line, end) = (arrow.line, arrow.end);
    write!(text, "<path d='M{x} {y}H{at}V{line}H{end}'/>").map_err(|_| OutOfMemory)?;
    Ok(())
}

/// Adds the stroke of an arrow that goes straight.
fn push_straight(text: &mut String, x: u32, line: u64, end: u64) -> Result<(), OutOfMemory>
    ensures { OnOk result (string_bytes text.new ≡ string_bytes text.old ++ drawn.straight_text x line end) }
{
    write!(text, "<path d='M{x} {line}H{end}'/>").map_err(|_| OutOfMemory)?;
    Ok(())
}

/// Eight pixels back from a tip that points to the right, or to the left.
fn eight(right: bool) -> &'static str
    ensures { result.now ≡ drawn.eight right }
{
    if right { "-8" } else { "8" }
}

/// Adds a tip.
fn push_tip(text: &mut String, right: bool, x: u64, y: u64) -> Result<(), OutOfMemory>
    ensures { OnOk result (string_bytes text.new ≡ string_bytes text.old ++ drawn.tip_text right x y) }
{
    let back = eight(right);
    write!(text, "<path class='tip' d='M{x} {y}l{back}-3.5v7z'/>").map_err(|_| OutOfMemory)?;
    Ok(())
}

/// Adds the tip of an arrow that has one.
fn push_tip_where(
    text: &mut String,
    tipped: bool,
    right: bool,
    x: u64,
    y: u64,
) -> Result<(), OutOfMemory>
    ensures { OnOk result (string_bytes text.new ≡ string_bytes text.old ++ drawn.tip_where tipped right x y) }
{
    if tipped {
        push_tip(text, right, x, y)?;
    }
    Ok(())
}

/// Where a text ends that stands on the left of a lifeline.
fn side_text(right: bool) -> &'static str
    ensures { result.now ≡ drawn.side_text right }
{
    if right { "" } else { " text-anchor='end'" }
}

/// Adds the begin of a text of a class.
pub fn push_label_open(
    text: &mut String,
    class: &str,
    x: u64,
    y: u64,
    right: bool,
) -> Result<(), OutOfMemory>
    ensures { OnOk result (string_bytes text.new ≡ string_bytes text.old
        ++ drawn.label_open class.now x y right) }
{
    let side = side_text(right);
    write!(text, "<text class='{class}' x='{x}' y='{y}'{side}>").map_err(|_| OutOfMemory)?;
    Ok(())
}

/// Adds a text of a class, of which so many letters have room.
pub fn push_label(
    alloc: Global,
    text: &mut String,
    class: &str,
    x: u64,
    y: u64,
    right: bool,
    what: &str,
    room: usize,
) -> Result<(), OutOfMemory>
    ensures { OnOk result (string_bytes text.new ≡ string_bytes text.old
        ++ drawn.label_text class.now x y right what.now room) }
{
    push_label_open(text, class, x, y, right)?;
    push_cut(alloc, text, what, room)?;
    text.push_str("</text>")?;
    Ok(())
}

/// Adds the message of an arrow.
fn push_message(
    alloc: Global,
    text: &mut String,
    class: &str,
    message: &str,
    arrow: &ChartArrow,
) -> Result<(), OutOfMemory>
    ensures { OnOk result (string_bytes text.new ≡ string_bytes text.old
        ++ drawn.message_text class.now message.now arrow.now) }
{
    push_label(
        alloc,
        text,
        class,
        arrow.beside,
        arrow.above,
        arrow.right,
        message,
        arrow.room,
    )
}

/// Adds the dot, the stroke and the tip of an arrow that goes down.
fn push_bent(text: &mut String, arrow: &ChartArrow) -> Result<(), OutOfMemory>
    ensures { OnOk result (string_bytes text.new ≡ string_bytes text.old ++ drawn.bent_text arrow.now) }
{
    push_dot(text, arrow)?;
    push_bend(text, arrow)?;
    push_tip_where(text, arrow.tipped, arrow.right, arrow.tip, arrow.line)?;
    Ok(())
}

/// Adds an arrow of a class, from one host to another.
pub fn push_arrow(
    alloc: Global,
    text: &mut String,
    class: &str,
    before: &str,
    from: &str,
    to: &str,
    message: &str,
    arrow: &ChartArrow,
) -> Result<(), OutOfMemory>
    ensures { OnOk result (string_bytes text.new ≡ string_bytes text.old
        ++ drawn.arrow_text class.now before.now from.now to.now message.now arrow.now) }
{
    push_class(text, class)?;
    push_title(alloc, text, before, from, to, message)?;
    push_bent(text, arrow)?;
    push_message(alloc, text, "s m", message, arrow)?;
    text.push_str("</g>")?;
    Ok(())
}

/// Adds an act of a misbehaving host, from a lifeline at `x`.
pub fn push_act(
    alloc: Global,
    text: &mut String,
    x: u32,
    from: &str,
    to: &str,
    message: &str,
    arrow: &ChartArrow,
) -> Result<(), OutOfMemory>
    ensures { OnOk result (string_bytes text.new ≡ string_bytes text.old
        ++ drawn.act_text x from.now to.now message.now arrow.now) }
{
    push_class(text, "act")?;
    push_title(alloc, text, "", from, to, message)?;
    push_straight(text, x, arrow.line, arrow.end)?;
    push_tip_where(text, arrow.tipped, arrow.right, arrow.tip, arrow.line)?;
    push_message(alloc, text, "s", message, arrow)?;
    text.push_str("</g>")?;
    Ok(())
}
