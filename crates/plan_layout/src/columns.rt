//! Columns, with the strips between them.

ghost use Rattle.std.specs.Prelude.{◌≡◌, ◌<◌, ◌≤◌, ◌^◌, IfOk, length, map};
ghost use Rattle.plan_layout.specs.Columns as columns;
ghost use Rattle.plan_layout.specs.Strips.{strip_shape};

use crate::lines::{Line, lane_of};
use crate::places::{Places, places_of};
use crate::strips::{Strip, strips_of, track_of, width_of};
use drawing_text::Span;
use js_base::limits::HOSTS;
use js_base::{HostId, OutOfMemory};
use std::alloc::Global;
use std::marker::Model;

/// Where the columns begin, how wide they are, and what goes between them.
#[derive(Drop)]
pub struct Columns {
    places: Places,
    widths: Vec<u16>,
    strips: Vec<Strip>,
}

impl Model for Columns {
    ghost use Rattle.std.specs.Prelude.{map};
    ghost use Rattle.plan_layout.specs.Columns.{ColumnsShape};
    ghost use Rattle.plan_layout.specs.Strips.{strip_shape};

    ghost Value = { ColumnsShape };

    ghost view = { λ c. record {
      places = c.places;
      widths = c.widths.items;
      strips = map strip_shape c.strips.items;
    } };
}

impl Columns {
    ghost use Rattle.std.specs.Prelude.{◌≡◌, ◌<◌, ◌^◌};
    ghost use Rattle.plan_layout.specs.Columns as columns;

    /// Where a column begins.
    pub fn left(&self, column: HostId) -> u64
        ensures value { result ≡ columns.left_of self.now column }
        ensures within { result < 2 ^ 52 }
    {
        self.places.start(column.0 as usize)
    }

    /// How wide a column is.
    pub fn width(&self, column: HostId) -> u16
        ensures { result ≡ columns.width_of self.now column }
    {
        match self.widths.get(column.0 as usize) {
            Some(width) => *width,
            None => 0,
        }
    }

    /// What is behind the last strip.
    pub fn right(&self) -> u64
        ensures value { result ≡ self.now.places.past }
        ensures within { result < 2 ^ 52 }
    {
        self.places.past()
    }

    /// The track of a line, of which there are twelve.
    pub(crate) fn track(&self, line: &Line) -> u64
        ensures value { result ≡ columns.track_of self.now line.now }
        ensures within { result < 12 }
    {
        let lane = lane_of(line);
        match self.strips.get(lane.strip as usize) {
            Some(strip) => track_of(strip, lane.rightward, line.hub) as u64 % 12,
            None => 0,
        }
    }
}

/// Columns of these widths, with room for these lines. The first strip begins here.
pub fn columns_of(
    alloc: Global,
    from: u64,
    widths: Vec<u16>,
    lines: &[Line],
) -> Result<Columns, OutOfMemory>
    requires from { from < 2 ^ 32 }
    requires few { length widths.items ≤ HOSTS }
    ensures { IfOk result (λ found. found ≡ columns.columns_of from widths.items lines.now) }
{
    let count = widths.len();
    prove!(count <= HOSTS);
    let strips = strips_of(alloc, lines, count as u16 + 1)?;
    let spans = spans_of(alloc, &widths, &strips)?;
    let places = places_of(alloc, from, spans.as_slice())?;
    Ok(Columns {
        places,
        widths,
        strips,
    })
}

/// The columns with the strips before them, and behind the last one.
fn spans_of(alloc: Global, widths: &[u16], strips: &[Strip]) -> Result<Vec<Span>, OutOfMemory>
    ensures spans { IfOk result (λ spans. spans.items
        ≡ columns.spans_from (map strip_shape strips.now) (length widths.now) 0 widths.now) }
    ensures few { IfOk result (λ spans. length spans.items ≡ length widths.now) }
{
    let mut spans = Vec::new(alloc);
    let count = widths.len();
    for (number, width) in widths.iter().enumerate() {
        let after = if number + 1 == count {
            width_at(strips, count, true)
        } else {
            0
        };
        spans.push(Span {
            before: width_at(strips, number, number == 0),
            length: *width,
            after,
        })?;
    }
    Ok(spans)
}

/// How wide the strip of a number is.
fn width_at(strips: &[Strip], number: usize, outer: bool) -> u16
    ensures { result ≡ columns.width_at (map strip_shape strips.now) number outer }
{
    match strips.get(number) {
        Some(strip) => width_of(strip, outer),
        None => 0,
    }
}
