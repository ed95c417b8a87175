//! The variables of one call.

ghost use Rattle.std.specs.Prelude.{◌≡◌, ◌<◌, IfSome, OnOk, length};
ghost use Rattle.js_base.specs.declared.ids.VarId.{VarId};
ghost use Rattle.source_run.specs.Cells.{value_in, place_in, with_cell};

use js_base::{OutOfMemory, VarId};

/// The value of a variable.
#[derive(Clone, Copy)]
pub struct Cell {
    pub var: VarId,
    pub value: i64,
}

/// The value of a variable, 0 where it has no cell.
pub fn value_in(cells: &[Cell], var: VarId) -> i64
    ensures { result ≡ value_in cells.now var.0 }
{
    for cell in cells {
        if cell.var.0 == var.0 {
            return cell.value;
        }
    }
    0
}

/// Sets a variable.
pub fn set_in(cells: &mut Vec<Cell>, var: VarId, value: i64) -> Result<(), OutOfMemory>
    ensures { OnOk result (cells.new.items ≡ with_cell cells.old.items var value) }
{
    match place_in(cells, var) {
        Some(place) => cells[place] = Cell { var, value },
        None => cells.push(Cell { var, value })?,
    }
    Ok(())
}

/// The place of the first cell of a variable.
fn place_in(cells: &[Cell], var: VarId) -> Option<usize>
    ensures place { result ≡ place_in cells.now var.0 }
    ensures within { IfSome result (λ place. place < length cells.now) }
{
    for (place, cell) in cells.iter().enumerate() {
        if cell.var.0 == var.0 {
            return Some(place);
        }
    }
    None
}
