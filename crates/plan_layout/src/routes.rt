//! The way of a line.

ghost use Rattle.std.specs.Prelude.{◌≡◌, ◌<◌, ◌^◌};
ghost use Rattle.plan_layout.specs.Routes as routes;
ghost use Rattle.plan_layout.specs.Routes.{IsSmall};

use crate::columns::Columns;
use crate::lines::Line;
use crate::places::Places;

/// The way of a line: from a point to the right or to the left, up or down, and to the right or to the left to a point.
#[derive(Clone, Copy)]
pub struct Route {
    pub from_x: u64,
    pub from_y: u64,
    /// Where it goes up or down.
    pub at_x: u64,
    pub to_y: u64,
    pub to_x: u64,
    /// Whether it begins to the right.
    pub begins_right: bool,
    pub down: bool,
    /// Whether it ends to the right.
    pub ends_right: bool,
}

/// The way of a line among these columns and rows.
pub fn route_of(columns: &Columns, rows: &Places, line: &Line) -> Route
    ensures value { result ≡ routes.route_of columns.now rows.now line.now }
    ensures small { IsSmall result }
{
    let from_y = rows.start(line.begin as usize) + line.leaves as u64;
    let to_y = rows.start(line.end as usize) + line.enters as u64;
    Route {
        from_x: begins_at(columns, line),
        from_y,
        at_x: goes_at(columns, line),
        to_y,
        to_x: ends_at(columns, line),
        begins_right: line.from.0 <= line.to.0,
        down: from_y < to_y,
        ends_right: line.from.0 < line.to.0,
    }
}

/// The edge at which a line begins.
fn begins_at(columns: &Columns, line: &Line) -> u64
    ensures value { result ≡ routes.begins_at columns.now line.now }
    ensures within { result < 2 ^ 53 }
{
    if line.from.0 <= line.to.0 {
        columns.left(line.from) + columns.width(line.from) as u64
    } else {
        columns.left(line.from)
    }
}

/// Where a line goes up or down.
fn goes_at(columns: &Columns, line: &Line) -> u64
    ensures value { result ≡ routes.goes_at columns.now line.now }
    ensures within { result < 2 ^ 53 }
{
    let aside = 14 + 9 * columns.track(line);
    if line.from.0 < line.to.0 {
        columns.left(line.to).saturating_sub(aside)
    } else {
        columns.left(line.to) + columns.width(line.to) as u64 + aside
    }
}

/// The edge at which a line ends.
fn ends_at(columns: &Columns, line: &Line) -> u64
    ensures value { result ≡ routes.ends_at columns.now line.now }
    ensures within { result < 2 ^ 53 }
{
    if line.from.0 < line.to.0 {
        columns.left(line.to)
    } else {
        columns.left(line.to) + columns.width(line.to) as u64
    }
}
