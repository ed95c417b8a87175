//! What statements and blocks cost.

ghost use Rattle.std.specs.Prelude.{◌≡◌, ◌++◌, [], ◌∷◌};
ghost use Rattle.jif_tree.specs.Trees.{done, block_tree, tree_before};
ghost use Rattle.msg_cost.specs.Cost.{cost_of};
ghost use Rattle.msg_cost.specs.Kept.{IsCostKept};
ghost use Rattle.msg_cost.specs.Moves.{on, block_end};
ghost use Rattle.msg_cost.specs.Terms.{message, block_terms, own_terms};
ghost use Rattle.msg_cost.specs.Views.{seated_shape, capped};

use crate::calls::call_cost;
use crate::kept::Kept;
use crate::messages::{leave, message, move_on};
use crate::seated::Seated;
use crate::spot::{Spot, straight_to};
use crate::tokens::{block_end, next_spot};
use crate::trust::Trust;
use crate::values::{expr_cost, field_cost, given};
use crate::walk::gives;
use crate::weight::inside;
use jif_tree::{Stmt, StmtKind, tree_laws};
use js_base::limits::HOSTS;
use js_base::{HostId, VarId};

/// The cost of the statements of a block that begins on this host.
#[cycle(blocks)]
pub fn block_cost(
    planned: &Seated<'_>,
    kept: &Kept<'_>,
    weight: u64,
    home: HostId,
    block: &[Stmt],
) -> u64
    requires { IsCostKept (seated_shape planned.now) kept.now }
    ensures { result ≡ capped (cost_of planned.now.hosts.now
        (block_terms (seated_shape planned.now) weight (on home) (block_tree block.now))) }
{
    let mut total: u64 = 0;
    let mut spot = Spot::on(home);
    let mut left: Option<VarId> = None;
    let mut trust = Trust::Noted([0; HOSTS]);
    for (place, statement) in block.iter().enumerate() {
        let next = next_spot(planned, spot, block, place, &mut trust);
        let carried = straight_to(spot, next);
        total = total
            .saturating_add(given(planned, kept, weight, spot.host, left, carried))
            .saturating_add(move_on(planned.hosts, weight, spot, next))
            .saturating_add(statement_cost(planned, kept, weight, statement));
        left = gives(statement);
        spot = next;
    }
    total
        .saturating_add(given(planned, kept, weight, spot.host, left, None))
        .saturating_add(leave(planned.hosts, weight, spot))
}

/// The cost of a nested block, behind which this host gets the token back.
#[cycle(blocks)]
fn nested_cost(
    planned: &Seated<'_>,
    kept: &Kept<'_>,
    weight: u64,
    host: HostId,
    block: &[Stmt],
) -> u64
    requires { IsCostKept (seated_shape planned.now) kept.now }
    ensures { result ≡ capped (cost_of planned.now.hosts.now
        (block_terms (seated_shape planned.now) weight (on host) (block_tree block.now)
        ++ message weight (block_end (seated_shape planned.now) host (block_tree block.now)) host ∷ [])) }
{
    let end = block_end(planned, host, block);
    let back = message(planned.hosts, weight, end, host);
    block_cost(planned, kept, weight, host, block).saturating_add(back)
}

/// The cost of a statement on its host, where the token is there already, but for what it gives. That is counted at the
/// next statement, since it depends on the spot of that one.
#[cycle(blocks)]
fn statement_cost(planned: &Seated<'_>, kept: &Kept<'_>, weight: u64, statement: &Stmt) -> u64
    requires { IsCostKept (seated_shape planned.now) kept.now }
    ensures { result ≡ capped (cost_of planned.now.hosts.now
        (own_terms (seated_shape planned.now) weight (tree_before statement.now done))) }
{
    tree_laws();
    let host = planned.host_of(statement.id);
    match &statement.kind {
        StmtKind::Let { value, .. } => expr_cost(planned, weight, host, value),
        StmtKind::SetField { field, value } => {
            let read = expr_cost(planned, weight, host, value);
            read.saturating_add(field_cost(planned, weight, host, *field))
        }
        StmtKind::SetElement {
            field,
            index,
            value,
        } => expr_cost(planned, weight, host, index)
            .saturating_add(expr_cost(planned, weight, host, value))
            .saturating_add(field_cost(planned, weight, host, *field)),
        StmtKind::If { guard, yes, no } => expr_cost(planned, weight, host, guard)
            .saturating_add(nested_cost(planned, kept, weight, host, yes))
            .saturating_add(nested_cost(planned, kept, weight, host, no)),
        StmtKind::While { guard, body } => {
            let deeper = inside(weight);
            let read = expr_cost(planned, deeper, host, guard);
            read.saturating_add(nested_cost(planned, kept, deeper, host, body))
        }
        StmtKind::Call {
            method,
            args,
            into,
            ..
        } => call_cost(planned, kept, weight, host, *method, args, *into),
        StmtKind::Return { value } => expr_cost(planned, weight, host, value),
    }
}
