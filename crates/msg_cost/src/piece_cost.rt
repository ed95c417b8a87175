//! What pieces cost that are no walks.

ghost use Rattle.std.specs.Prelude.{◌≡◌, [], ◌∷◌, ◌++◌, if◌then◌else◌};
ghost use Rattle.jif_tree.specs.LabelRules.{method_at};
ghost use Rattle.jif_tree.specs.Trees.{program_tree};
ghost use Rattle.msg_cost.specs.Cost.{cost_of};
ghost use Rattle.msg_cost.specs.Kept.{AreRecent};
ghost use Rattle.msg_cost.specs.Moves.{called_home, called_end};
ghost use Rattle.msg_cost.specs.Pieces.{giving, piece_cost, other_cost};
ghost use Rattle.msg_cost.specs.PieceViews.{givens_of, piece_shape};
ghost use Rattle.msg_cost.specs.Tables.{AreBodies, KnowsBlock, HasTable};
ghost use Rattle.msg_cost.specs.Terms.{message, exchange};
ghost use Rattle.msg_cost.specs.Views.{seated_shape, capped};

use crate::carried::{carried_at, is_touched};
use crate::ends::listed_end;
use crate::kept::RecentReaders;
use crate::messages::{exchange, message};
use crate::piece::Piece;
use crate::seated::Seated;
use crate::tokens::called_home;
use crate::values::{field_cost, forwards, recent_readers};
use crate::walk::Walk;
use js_base::limits::HOSTS;
use js_base::{HostId, MethodId, StmtId, VarId};

/// What a piece costs that is no walk, and nothing for a walk.
pub fn other_cost(
    planned: &Seated<'_>,
    bodies: &[[u16; HOSTS]],
    moved: Option<StmtId>,
    recent: &mut RecentReaders,
    piece: &Piece<'_>,
) -> u64
    requires recent { AreRecent (seated_shape planned.now) moved recent.old }
    requires bodies { AreBodies planned.now.needs.now planned.now.hosts.now
        planned.now.program.now.methods.items bodies.now }
    requires knows { HasTable planned.now.needs.now planned.now.hosts.now piece.now }
    ensures cost { result ≡ capped (other_cost (seated_shape planned.now) moved (piece_shape piece.now)) }
    ensures recent { AreRecent (seated_shape planned.now) moved recent.new }
{
    match piece {
        Piece::Access {
            weight,
            statement,
            field,
        } => field_cost(planned, *weight, planned.host_of(*statement), *field),
        Piece::Giving {
            walk,
            place,
            statement,
            variable,
        } => giving_cost(planned, moved, recent, walk, *place, *statement, *variable),
        Piece::Passing {
            weight,
            statement,
            method,
            variable,
        } => {
            let host = planned.host_of(*statement);
            let home = called_home(planned, *method);
            let readers = recent_readers(planned, moved, recent, *variable);
            forwards(planned, readers.reading, *weight, host, Some(home))
        }
        Piece::Calling {
            weight,
            statement,
            method,
            kept,
        } => {
            let end = listed_end(planned, bodies, *method);
            let host = planned.host_of(*statement);
            calling_cost(planned, *weight, host, *method, end, *kept)
        }
        Piece::Walk(_) => 0,
        Piece::Ending { method } => {
            let end = listed_end(planned, bodies, *method);
            message(planned.hosts, 1, end, called_home(planned, *method))
        }
    }
}

/// What it costs that a statement gives a variable a value, where the moved statement touches that.
fn giving_cost(
    planned: &Seated<'_>,
    moved: Option<StmtId>,
    recent: &mut RecentReaders,
    walk: &Walk<'_>,
    place: usize,
    statement: StmtId,
    variable: VarId,
) -> u64
    requires recent { AreRecent (seated_shape planned.now) moved recent.old }
    requires knows { KnowsBlock planned.now.needs.now planned.now.hosts.now walk.now }
    ensures cost { result ≡ capped (piece_cost (seated_shape planned.now) moved
        (giving walk.now.weight statement variable walk.now.home (givens_of walk.now.block.now) place)) }
    ensures recent { AreRecent (seated_shape planned.now) moved recent.new }
{
    let readers = recent_readers(planned, moved, recent, variable);
    if !is_touched(moved, statement, readers.moved) {
        return 0;
    }
    let host = planned.host_of(statement);
    let carried = carried_at(planned, walk, place);
    forwards(planned, readers.reading, walk.weight, host, carried)
}

/// What it costs to call a method, which ends on this host, and to come back.
fn calling_cost(
    planned: &Seated<'_>,
    weight: u64,
    host: HostId,
    method: MethodId,
    end: HostId,
    kept: bool,
) -> u64
    requires { end ≡ called_end (seated_shape planned.now) (method_at (program_tree planned.now.program.now) method) }
    ensures { let called = method_at (program_tree planned.now.program.now) method in
        let shape = seated_shape planned.now in
        result ≡ capped (cost_of planned.now.hosts.now
        ((message weight host (called_home shape called) ∷ message weight (called_end shape called) host ∷ [])
        ++ (if kept then exchange weight (called_end shape called) host ∷ [] else []))) }
{
    let there = message(planned.hosts, weight, host, called_home(planned, method));
    let both = there.saturating_add(message(planned.hosts, weight, end, host));
    if kept {
        both.saturating_add(exchange(planned.hosts, weight, end, host))
    } else {
        both
    }
}
