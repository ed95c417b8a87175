//! Who has to trust the hosts of what is ahead in a block.

ghost use Rattle.std.specs.Prelude.{◌≡◌, ◌≤◌, ◌<◌, List, ◌∷◌, IfOk, length, drop, map, slice_index, option_copied};
ghost use Rattle.js_base.specs.declared.ids.StmtId.{StmtId};
ghost use Rattle.need_labels.specs.Plan.{statement_host};
ghost use Rattle.msg_cost.specs.Views.{ids_of};
ghost use Rattle.split_rules.specs.Walk.{need_of, under_token};
ghost use Rattle.control_split.specs.Ahead.{ahead_of, IsAhead, AreAhead, begins_on};
ghost use Rattle.control_split.specs.Views.{planned_in};

use crate::walk::Split;
use jif_tree::Stmt;
use js_base::{HostId, OutOfMemory};
use msg_cost::Spot;

/// What the statements from a place of a block on need of their hosts: words of those who have to trust them.
#[derive(Clone, Copy)]
pub struct Ahead {
    /// All statements of the block from the place on.
    pub all: u64,
    /// Those in a row on the host of the first.
    pub row: u64,
    /// Those behind that row.
    pub behind: u64,
}

/// Whether statements begin on this host.
fn begin_on(split: &Split<'_>, host: HostId, statements: &[Stmt]) -> bool
    ensures { result ≡ begins_on (planned_in split.now) host (ids_of statements.now) }
{
    match statements.first() {
        Some(first) => split.plan.host_of(first.id).0 == host.0,
        None => false,
    }
}

/// What is ahead from a statement on, where so much is ahead from those behind it on.
fn ahead_from(split: &Split<'_>, statement: &Stmt, others: &[Stmt], behind: Ahead) -> Ahead
    requires { behind ≡ ahead_of (planned_in split.now) (ids_of others.now) }
    ensures { result ≡ ahead_of (planned_in split.now) (statement.now.id ∷ ids_of others.now) }
{
    let need = split.need_of(statement.id);
    if begin_on(split, split.plan.host_of(statement.id), others) {
        Ahead {
            all: need | behind.all,
            row: need | behind.row,
            behind: behind.behind,
        }
    } else {
        Ahead {
            all: need | behind.all,
            row: need,
            behind: behind.all,
        }
    }
}

/// What is ahead from each place of a block on, and behind its last statement.
///
/// # Errors
/// Memory ran out.
pub fn block_needs(split: &Split<'_>, block: &[Stmt]) -> Result<Vec<Ahead>, OutOfMemory>
    ensures { IfOk result (λ needs. AreAhead (planned_in split.now) (ids_of block.now) needs.items) }
{
    let none = Ahead {
        all: 0,
        row: 0,
        behind: 0,
    };
    let mut needs = vec![in split.alloc; none; block.len() + 1]?;
    let mut next = block.len();
    while next > 0 {
        let place = next - 1;
        let behind = needs[next];
        needs[place] = ahead_from(split, &block[place], &block[next..], behind);
        next = place;
    }
    Ok(needs)
}

/// What is ahead from a statement of a block on, which is at this place.
pub fn ahead_at(split: &Split<'_>, block: &[Stmt], needs: &[Ahead], place: usize) -> Ahead
    requires within { place < length block.now }
    requires needs { AreAhead (planned_in split.now) (ids_of block.now) needs.now }
    ensures { (statement : StmtId) (others : List StmtId) → ids_of (drop place block.now) ≡ statement ∷ others →
        IsAhead (planned_in split.now) (statement_host split.now.plan.now statement) (statement ∷ others) result }
{
    needs[place]
}

/// What is left to need behind a statement of a block, under the token of its spot.
pub fn left_behind(
    split: &Split<'_>,
    spot: Spot,
    block: &[Stmt],
    needs: &[Ahead],
    place: usize,
) -> u64
    requires within { place < length block.now }
    requires needs { AreAhead (planned_in split.now) (ids_of block.now) needs.now }
    ensures { (statement : StmtId) (others : List StmtId) → ids_of (drop place block.now) ≡ statement ∷ others →
        result ≡ need_of (planned_in split.now) (under_token (planned_in split.now) spot others) }
{
    under_token(split, spot, &block[place + 1..], needs[place + 1])
}

/// What those statements behind one need that run under the token of its spot.
fn under_token(split: &Split<'_>, spot: Spot, others: &[Stmt], ahead: Ahead) -> u64
    requires { ahead ≡ ahead_of (planned_in split.now) (ids_of others.now) }
    ensures { result ≡ need_of (planned_in split.now) (under_token (planned_in split.now) spot (ids_of others.now)) }
{
    if spot.back.is_none() {
        ahead.all
    } else if begin_on(split, spot.host, others) {
        ahead.row
    } else {
        0
    }
}
