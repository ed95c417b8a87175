//! The variables of frames: cells in the order of sites, then of counts, then of variables, found by halving.

ghost use Rattle.std.specs.Prelude.{◌≡◌, ◌<◌, ◌≤◌, ◌+◌, ◌-◌, ◌||◌, ◌∷◌, insert, length, take};
ghost use Rattle.std.specs.Vec.{vec_len, vec_capacity};
ghost use Rattle.js_base.specs.declared.ids.FrameId.{FrameId};
ghost use Rattle.js_base.specs.declared.ids.VarId.{VarId};
ghost use Rattle.host_stores.specs.Stores.{value_in, with_variable, is_same_variable, is_set};
ghost use Rattle.host_stores.specs.Order.{variable_order, AreInOrder, IsPlaceOf};

use js_base::{FrameId, VarId};
use std::cmp::Ordering;

/// The value of a variable of a frame.
#[derive(Clone, Copy, Debug, PartialEq, Eq)]
pub struct VarCell {
    pub frame: FrameId,
    pub var: VarId,
    pub value: i64,
}

/// The value of a variable of a frame, 0 where none was set.
pub fn value_in(cells: &[VarCell], frame: FrameId, var: VarId) -> i64
    requires { AreInOrder cells.now }
    ensures { result ≡ value_in cells.now frame var }
{
    match place_in(cells, frame, var) {
        Ok(place) => cells[place].value,
        Err(_) => 0,
    }
}

/// Sets a variable of a frame. There has to be room for one more cell.
pub fn set_in(cells: &mut Vec<VarCell>, frame: FrameId, var: VarId, value: i64)
    requires order { AreInOrder cells.old.items }
    requires room { vec_len cells.old < vec_capacity cells.old }
    ensures variables { (other : FrameId) (another : VarId) →
        value_in cells.new.items other another
        ≡ with_variable (value_in cells.old.items) frame var value other another }
    ensures set { (other : FrameId) (another : VarId) → is_set cells.new.items other another
        ≡ (is_same_variable frame var other another || is_set cells.old.items other another) }
    ensures order { AreInOrder cells.new.items }
    ensures room { vec_capacity cells.old - vec_len cells.old ≤ vec_capacity cells.new - vec_len cells.new + 1 }
{
    match place_in(cells, frame, var) {
        Ok(place) => cells[place] = VarCell { frame, var, value },
        Err(place) => insert_at(cells, place, VarCell { frame, var, value }),
    }
}

/// Puts a cell at a place, and those from there on one place further. There has to be room for it.
fn insert_at(cells: &mut Vec<VarCell>, place: usize, cell: VarCell)
    requires within { place ≤ vec_len cells.old }
    requires room { vec_len cells.old < vec_capacity cells.old }
    ensures items { cells.new.items ≡ insert cells.old.items place cell }
    ensures room { vec_capacity cells.old - vec_len cells.old ≤ vec_capacity cells.new - vec_len cells.new + 1 }
{
    let pushed = cells.push(cell);
    prove!(pushed.is_ok());
    put_first(&mut cells[place..], cell);
}

/// Puts a cell in front, and the others one place further, where the last one goes.
fn put_first(cells: &mut [VarCell], cell: VarCell)
    requires { 0 < length cells.old }
    ensures { cells.new ≡ cell ∷ take (length cells.old - 1) cells.old }
{
    let last = cells.len() - 1;
    // Cells are plain, so they move in one piece. `insert` of a vector would move them one by one.
    cells.copy_within(0..last, 1);
    cells[0] = cell;
}

/// The place of the cell of a variable, or else the place where it belongs.
fn place_in(cells: &[VarCell], frame: FrameId, var: VarId) -> Result<usize, usize>
    requires { AreInOrder cells.now }
    ensures { IsPlaceOf cells.now frame var result }
{
    cells.binary_search_by(|cell| variable_order(cell.frame, cell.var, frame, var))
}

/// The order of two variables of two frames.
fn variable_order(frame: FrameId, var: VarId, other: FrameId, another: VarId) -> Ordering
    ensures { result ≡ variable_order frame var other another }
{
    let sites = frame.site.0.cmp(&other.site.0);
    if sites.is_ne() {
        return sites;
    }
    let counts = frame.count.cmp(&other.count);
    if counts.is_ne() {
        return counts;
    }
    var.0.cmp(&another.0)
}
