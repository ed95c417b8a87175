//! Where statements stand in their blocks.

ghost use Rattle.std.specs.Prelude.{◌≡◌, ◌<◌, ◌≤◌, ◌↔◌, IsTrue, length};
ghost use Rattle.msg_cost.specs.Walks.{number_at, IsAscending, IsPlaceFrom, IsAround};

use jif_tree::Stmt;
use js_base::StmtId;

/// Where a statement may stand in a block.
#[derive(Clone, Copy)]
pub struct Around {
    /// It is not among the first statements, so many.
    pub before: usize,
    /// It is not among the statements from this place on.
    pub behind: usize,
}

/// Whether the numbers of the statements of a block ascend.
pub fn is_ascending(block: &[Stmt]) -> bool
    ensures { IsTrue result ↔ IsAscending block.now }
{
    for place in 1..block.len() {
        if block[place].id.0 <= block[place - 1].id.0 {
            return false;
        }
    }
    true
}

/// Where a statement may stand in a block: anywhere, where its numbers don't ascend.
pub fn places_around(block: &[Stmt], ascending: bool, statement: StmtId) -> Around
    requires { IsTrue ascending ↔ IsAscending block.now }
    ensures { IsAround statement block.now result }
{
    if !ascending {
        return Around {
            before: 0,
            behind: block.len(),
        };
    }
    let place = place_from(block, statement.0);
    if stands_at(block, place, statement) {
        return Around {
            before: place,
            behind: place + 1,
        };
    }
    Around {
        before: place,
        behind: place,
    }
}

/// Whether the statement stands at a place of a block.
fn stands_at(block: &[Stmt], place: usize, statement: StmtId) -> bool
    ensures { IsTrue result ↔ ((place < length block.now) × (number_at block.now place ≡ statement.0)) }
{
    if place < block.len() {
        block[place].id.0 == statement.0
    } else {
        false
    }
}

/// The first place of a block whose statement has this number or a higher one, one behind the block where none has.
fn place_from(block: &[Stmt], number: u32) -> usize
    requires { IsAscending block.now }
    ensures { IsPlaceFrom block.now number result }
{
    let mut low = 0;
    let mut high = block.len();
    while low < high {
        let middle = low + (high - low) / 2;
        if block[middle].id.0 < number {
            low = middle + 1;
        } else {
            high = middle;
        }
    }
    low
}
