//! The strokes of ways.

ghost use Rattle.std.specs.Prelude.{◌≡◌, ◌<◌, ◌^◌, ◌++◌, OnOk, length};
ghost use Rattle.std.specs.String.{string_bytes};
ghost use Rattle.plan_layout.specs.Routes.{IsSmall};
ghost use Rattle.plan_picture.specs.Paths as paths;
ghost use Rattle.jif_tree.specs.Trees.{program_tree};
ghost use Rattle.plan_picture.specs.Sheets.{sheet_shape};
ghost use Rattle.plan_ways.specs.Tips.{tip_text};

use crate::legend::{class_of_kind, push_class};
use crate::lines::{RowNumbers, line_of, parts};
use crate::sheet::PictureSheet;
use js_base::OutOfMemory;
use plan_layout::{Columns, Places, Route, route_of};
use plan_ways::{Way, push_tip};
use std::fmt::Write;
use std::marker::Model;

/// Where all things are: how rows are numbered, and where columns and rows begin.
#[derive(Drop)]
pub struct Grid {
    pub numbers: RowNumbers,
    pub columns: Columns,
    pub places: Places,
}

impl Model for Grid {
    ghost use Rattle.plan_picture.specs.Paths.{Grid as GridShape};

    ghost Value = { GridShape };

    ghost view = { λ g. record { numbers = g.numbers; columns = g.columns; places = g.places } };
}

/// Adds these ways.
pub fn push_ways(
    text: &mut String,
    sheet: &PictureSheet<'_>,
    grid: &Grid,
    ways: &[Way],
) -> Result<(), OutOfMemory>
    ensures { OnOk result (string_bytes text.new ≡ string_bytes text.old
        ++ paths.ways_text (sheet_shape sheet.now) grid.now ways.now) }
{
    for way in ways {
        let route = route_on(grid, way);
        push_way(text, sheet, way, &route)?;
    }
    Ok(())
}

/// How a way goes.
fn route_on(grid: &Grid, way: &Way) -> Route
    ensures value { result ≡ paths.route_on grid.now way.now }
    ensures small { IsSmall result }
{
    route_of(&grid.columns, &grid.places, &line_of(&grid.numbers, way))
}

/// Adds a way that goes so.
fn push_way(
    text: &mut String,
    sheet: &PictureSheet<'_>,
    way: &Way,
    route: &Route,
) -> Result<(), OutOfMemory>
    requires { IsSmall route.now }
    ensures { OnOk result (string_bytes text.new ≡ string_bytes text.old
        ++ paths.way_text (sheet_shape sheet.now) way.now route.now) }
{
    push_class(text, class_of_kind(way.kind))?;
    push_title(text, sheet, way)?;
    push_stroke(text, parts(way.kind), route)?;
    push_rider(text, way.rides, route)?;
    push_end(text, route)?;
    Ok(())
}

/// Adds what a way stands for.
fn push_title(text: &mut String, sheet: &PictureSheet<'_>, way: &Way) -> Result<(), OutOfMemory>
    ensures { OnOk result (string_bytes text.new ≡ string_bytes text.old
        ++ paths.title_text (tip_text sheet.now.code.now (program_tree sheet.now.program.now) way.now)) }
{
    text.push_str("<title>")?;
    push_tip(text, sheet.code, sheet.program, way)?;
    text.push_str("</title>")?;
    Ok(())
}

/// Adds the stroke of a way, from where ways part or back from its tip.
fn push_stroke(text: &mut String, parting: bool, route: &Route) -> Result<(), OutOfMemory>
    requires { IsSmall route.now }
    ensures { OnOk result (string_bytes text.new ≡ string_bytes text.old
        ++ paths.path_text (paths.stroke_of parting route.now)) }
{
    let stroke = stroke_of(parting, route);
    push_path(text, &stroke)
}

/// The stroke of a way, from where ways part or back from its tip.
fn stroke_of(parting: bool, route: &Route) -> Route
    requires { IsSmall route.now }
    ensures value { result ≡ paths.stroke_of parting route.now }
    ensures at { result.at_x < 2 ^ 54 }
    ensures to { result.to_y < 2 ^ 54 }
{
    let tip = tip_x(route);
    if parting {
        return Route {
            to_x: tip,
            ..*route
        };
    }
    Route {
        from_x: tip,
        from_y: route.to_y,
        at_x: route.at_x,
        to_y: route.from_y,
        to_x: route.from_x,
        begins_right: !route.ends_right,
        down: !route.down,
        ends_right: !route.begins_right,
    }
}

/// Where the tip of a way begins.
fn tip_x(route: &Route) -> u64
    requires { IsSmall route.now }
    ensures { result ≡ paths.tip_x route.now }
{
    if route.ends_right {
        route.to_x.saturating_sub(7)
    } else {
        route.to_x + 7
    }
}

/// Adds a stroke.
fn push_path(text: &mut String, stroke: &Route) -> Result<(), OutOfMemory>
    requires at { stroke.now.at_x < 2 ^ 54 }
    requires to { stroke.now.to_y < 2 ^ 54 }
    ensures { OnOk result (string_bytes text.new ≡ string_bytes text.old ++ paths.path_text stroke.now) }
{
    text.push_str("<path d='")?;
    push_first(text, stroke)?;
    push_turn(text, stroke)?;
    push_last(text, stroke)?;
    text.push_str("'/>")?;
    Ok(())
}

/// Adds the way along a row.
fn push_first(text: &mut String, stroke: &Route) -> Result<(), OutOfMemory>
    requires { stroke.now.at_x < 2 ^ 54 }
    ensures { OnOk result (string_bytes text.new ≡ string_bytes text.old ++ paths.first_text stroke.now) }
{
    let (x, y) = (stroke.from_x, stroke.from_y);
    let corner = before(stroke.begins_right, stroke.at_x);
    write!(text, "M{x} {y}H{corner}").map_err(|_| OutOfMemory)?;
    Ok(())
}

/// Adds the way up or down.
fn push_turn(text: &mut String, stroke: &Route) -> Result<(), OutOfMemory>
    requires { stroke.now.to_y < 2 ^ 54 }
    ensures { OnOk result (string_bytes text.new ≡ string_bytes text.old ++ paths.turn_text stroke.now) }
{
    let (aside, along) = (four(stroke.begins_right), four(stroke.down));
    let corner = before(stroke.down, stroke.to_y);
    write!(text, "q{aside} 0 {aside} {along}V{corner}").map_err(|_| OutOfMemory)?;
    Ok(())
}

/// Adds the way to the end.
fn push_last(text: &mut String, stroke: &Route) -> Result<(), OutOfMemory>
    ensures { OnOk result (string_bytes text.new ≡ string_bytes text.old ++ paths.last_text stroke.now) }
{
    let (along, aside) = (four(stroke.down), four(stroke.ends_right));
    let end = stroke.to_x;
    write!(text, "q0 {along} {aside} {along}H{end}").map_err(|_| OutOfMemory)?;
    Ok(())
}

/// Four pixels on, or back.
fn four(onward: bool) -> &'static str
    ensures { result.now ≡ paths.four onward }
{
    if onward { "4" } else { "-4" }
}

/// Where a corner begins.
fn before(onward: bool, place: u64) -> u64
    requires { place < 2 ^ 54 }
    ensures { result ≡ paths.before onward place }
{
    if onward {
        place.saturating_sub(4)
    } else {
        place + 4
    }
}

/// Adds a dot where variables ride along.
fn push_rider(text: &mut String, riding: bool, route: &Route) -> Result<(), OutOfMemory>
    requires { IsSmall route.now }
    ensures { OnOk result (string_bytes text.new ≡ string_bytes text.old ++ paths.rider_text riding route.now) }
{
    if riding {
        push_dot(text, route.at_x, (route.from_y + route.to_y) / 2)?;
    }
    Ok(())
}

/// Adds a dot.
fn push_dot(text: &mut String, x: u64, y: u64) -> Result<(), OutOfMemory>
    ensures { OnOk result (string_bytes text.new ≡ string_bytes text.old ++ paths.dot_text x y) }
{
    write!(text, "<circle class='ride' cx='{x}' cy='{y}' r='4'/>").map_err(|_| OutOfMemory)?;
    Ok(())
}

/// Adds the tip of a way.
fn push_end(text: &mut String, route: &Route) -> Result<(), OutOfMemory>
    ensures { OnOk result (string_bytes text.new ≡ string_bytes text.old ++ paths.end_text route.now) }
{
    let (x, y) = (route.to_x, route.to_y);
    let back = eight(route.ends_right);
    writeln!(text, "<path class='tip' d='M{x} {y}l{back}-3.5v7z'/></g>").map_err(|_| OutOfMemory)?;
    Ok(())
}

/// Eight pixels back from a tip that points to the right, or to the left.
fn eight(right: bool) -> &'static str
    ensures { result.now ≡ paths.eight right }
{
    if right { "-8" } else { "8" }
}
