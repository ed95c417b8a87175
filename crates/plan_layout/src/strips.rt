//! The lines between two columns.

ghost use Rattle.std.specs.Prelude.{◌≡◌, ◌<◌, ◌≤◌, IfOk, length, map};
ghost use Rattle.plan_layout.specs.Strips as strips;
ghost use Rattle.plan_layout.specs.Strips.{strip_shape};

use crate::lines::{Hub, Lane, Line, is_in};
use indexmap::IndexSet;
use js_base::OutOfMemory;
use std::alloc::Global;

/// The hubs of the lines between two columns: of those to the column on the right, and of those to the one on the left.
#[derive(Drop)]
pub struct Strip {
    pub rightward: IndexSet<Hub>,
    pub leftward: IndexSet<Hub>,
}

/// The strips of these lines, of which there are so many.
pub fn strips_of(alloc: Global, lines: &[Line], count: u16) -> Result<Vec<Strip>, OutOfMemory>
    ensures { IfOk result (λ found. map strip_shape found.items ≡ strips.strips_of lines.now count) }
{
    let mut found = Vec::new(alloc);
    for number in 0..count {
        found.push(strip_of(alloc, lines, number)?)?;
    }
    Ok(found)
}

/// The strip of a number.
fn strip_of(alloc: Global, lines: &[Line], number: u16) -> Result<Strip, OutOfMemory>
    ensures { IfOk result (λ strip. strip_shape strip ≡ strips.strip_of lines.now number) }
{
    let rightward = Lane {
        strip: number,
        rightward: true,
    };
    let leftward = Lane {
        strip: number,
        rightward: false,
    };
    Ok(Strip {
        rightward: hubs_of(alloc, lines, rightward)?,
        leftward: hubs_of(alloc, lines, leftward)?,
    })
}

/// The hubs of the lines in a lane, in the order of their first lines.
fn hubs_of(alloc: Global, lines: &[Line], lane: Lane) -> Result<IndexSet<Hub>, OutOfMemory>
    ensures { IfOk result (λ hubs. hubs.keys ≡ strips.hubs_of lane lines.now) }
{
    let mut hubs = IndexSet::new(alloc);
    for line in lines {
        if is_in(lane, line) {
            hubs.insert_full(line.hub)?;
        }
    }
    Ok(hubs)
}

/// How wide a strip is, in pixels. An outer one is there only where lines go in it.
pub fn width_of(strip: &Strip, outer: bool) -> u16
    ensures { result ≡ strips.width_of (strip_shape strip.now) outer }
{
    let tracks = strip.rightward.len().min(12) as u16 + strip.leftward.len().min(12) as u16;
    if outer {
        if tracks == 0 { 0 } else { 20 + 9 * tracks }
    } else {
        (20 + 9 * tracks).max(28)
    }
}

/// The track of a hub in a lane of this strip: how many hubs have their first line before its own.
pub fn track_of(strip: &Strip, rightward: bool, hub: Hub) -> usize
    ensures { result ≡ strips.track_in (strips.lane_hubs (strip_shape strip.now) rightward) hub }
{
    if rightward {
        place_in(&strip.rightward, hub)
    } else {
        place_in(&strip.leftward, hub)
    }
}

/// The place of a hub among hubs, and behind them where it is not there.
fn place_in(hubs: &IndexSet<Hub>, hub: Hub) -> usize
    ensures { result ≡ strips.track_in hubs.now.keys hub }
{
    match hubs.get_index_of(&hub) {
        Some(place) => place,
        None => hubs.len(),
    }
}
