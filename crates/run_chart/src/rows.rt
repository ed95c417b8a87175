//! Where the rows are.

ghost use Rattle.std.specs.Prelude.{◌≡◌, ◌≤◌, ◌<◌, ◌+◌, IfOk, map, option_map};
ghost use Rattle.run_chart.specs.Rows as placed;
ghost use Rattle.run_chart.specs.Sheets.{chart_row_shape, chart_told_shape};

use crate::sheet::{ChartEvent, ChartRow, ChartTold};
use js_base::{HostId, OutOfMemory};
use std::alloc::Global;

/// Where a row begins, the line of its event, where what is sent in it begins, and where it ends.
#[derive(Clone, Copy)]
pub struct ChartPlace {
    pub start: u32,
    pub line: u32,
    pub begin: u32,
    pub end: u32,
}

/// The host whose event it is.
pub fn own_host(event: ChartEvent) -> HostId
    ensures { result ≡ placed.own_host event }
{
    match event {
        ChartEvent::Turn(host) => host,
        ChartEvent::Take(_, to, _, _) => to,
        ChartEvent::Act(_, to) => to,
    }
}

/// How high an event is.
fn event_height(event: ChartEvent) -> u32
    ensures value { result ≡ placed.event_height event }
    ensures within { result ≤ 24 }
{
    match event {
        ChartEvent::Turn(_) => 20,
        ChartEvent::Take(_, _, _, _) => 24,
        ChartEvent::Act(_, _) => 24,
    }
}

/// How high the line is of what a misbehaving host is sent.
fn told_height(told: &Option<ChartTold>) -> u32
    ensures value { result ≡ placed.told_height (option_map chart_told_shape told.now) }
    ensures within { result ≤ 24 }
{
    match told {
        Some(_) => 24,
        None => 0,
    }
}

/// How far below its begin a row has the line of its event.
fn line_in(event: ChartEvent) -> u32
    ensures value { result ≡ placed.line_in event }
    ensures within { result ≤ 16 }
{
    match event {
        ChartEvent::Turn(_) => 12,
        ChartEvent::Take(_, _, _, _) => 16,
        ChartEvent::Act(_, _) => 16,
    }
}

/// How far below its begin a row has the begin of what is sent in it.
fn begin_in(event: ChartEvent) -> u32
    ensures value { result ≡ placed.begin_in event }
    ensures within { result ≤ 21 }
{
    match event {
        ChartEvent::Turn(_) => 12,
        ChartEvent::Take(_, _, _, _) => 21,
        ChartEvent::Act(_, _) => 21,
    }
}

/// Where a row is that begins here.
fn place_of(start: u32, row: &ChartRow) -> ChartPlace
    requires { start ≤ 4_294_000_000 }
    ensures value { result ≡ placed.place_of start (chart_row_shape row.now) }
    ensures within { result.end ≤ start + 48 }
{
    let height = event_height(row.event) + told_height(&row.told);
    ChartPlace {
        start,
        line: start + line_in(row.event),
        begin: start + begin_in(row.event),
        end: start + height,
    }
}

/// Where all rows are, and what is behind the last one.
#[derive(Drop)]
pub struct ChartPlaces {
    pub places: Vec<ChartPlace>,
    pub past: u32,
}

/// Where these rows are, of which the first begins here.
///
/// # Errors
/// Memory ran out, or the rows have more than some four thousand million pixels.
pub fn places_of(alloc: Global, from: u32, rows: &[ChartRow]) -> Result<ChartPlaces, OutOfMemory>
    ensures places { IfOk result (λ found. found.places.items
        ≡ placed.places_from from (map chart_row_shape rows.now)) }
    ensures past { IfOk result (λ found. found.past ≡ placed.past_of from (map chart_row_shape rows.now)) }
{
    let mut places = Vec::new(alloc);
    let mut past = from;
    for row in rows {
        if past > 4_294_000_000 {
            return Err(OutOfMemory);
        }
        let place = place_of(past, row);
        places.push(place)?;
        past = place.end;
    }
    Ok(ChartPlaces { places, past })
}

/// No place.
const NO_PLACE: ChartPlace = ChartPlace {
    start: 0,
    line: 0,
    begin: 0,
    end: 0,
};

/// The place of the row of a number.
pub fn place_at(places: &[ChartPlace], number: usize) -> ChartPlace
    ensures { result ≡ placed.place_at places.now number }
{
    places.get(number).copied().unwrap_or(NO_PLACE)
}
