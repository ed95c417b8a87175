//! Lines from one row to another.

ghost use Rattle.std.specs.Prelude.{◌≡◌};
ghost use Rattle.plan_layout.specs.Lines as lines;

use js_base::HostId;

/// What lines have in common that run together: a row, and the number of a kind.
#[derive(Clone, Copy, PartialEq, Eq, Hash)]
pub struct Hub {
    pub row: u32,
    pub kind: u8,
}

/// A line from a row of one column to a row of another, or of the same.
#[derive(Clone, Copy)]
pub struct Line {
    pub from: HostId,
    /// The row that it begins in.
    pub begin: u32,
    /// How far below the top of that row it leaves, in pixels.
    pub leaves: u16,
    pub to: HostId,
    /// The row that it ends in.
    pub end: u32,
    /// How far below the top of that row it enters, in pixels.
    pub enters: u16,
    pub hub: Hub,
}

/// Where a line goes up or down: in a strip, which has the number of the column to its right, on the way to that column
/// or to the one to its left.
#[derive(Clone, Copy)]
pub struct Lane {
    pub strip: u16,
    pub rightward: bool,
}

/// The lane of a line: beside the column that it leads to, on the side that it comes from. Where that is the same
/// column, it is to its right.
pub fn lane_of(line: &Line) -> Lane
    ensures { result ≡ lines.lane_of line.now }
{
    if line.from.0 < line.to.0 {
        Lane {
            strip: line.to.0 as u16,
            rightward: true,
        }
    } else {
        Lane {
            strip: line.to.0 as u16 + 1,
            rightward: false,
        }
    }
}

/// Whether a line goes in this lane.
pub fn is_in(lane: Lane, line: &Line) -> bool
    ensures { result ≡ lines.is_in lane line.now }
{
    let own = lane_of(line);
    own.strip == lane.strip && own.rightward == lane.rightward
}
