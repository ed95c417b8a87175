//! What the move of a statement changes of what a walk costs.
//!
//! Both walks, before the move and behind it, are gone over in step. They begin at the last spot up to the statement
//! that is known from the table of the block, and end where they stand at the same spot behind it, since from there on
//! they cost the same. In a stretch of statements on hosts that are not trusted for all that is left of the block, no
//! spot is known, and so it is gone over from its beginning. A host that is handed the token instead of another one
//! changes who gives it back in such a stretch, up to the next host that is handed it.

ghost use Rattle.std.specs.Prelude.{◌≡◌, ◌≢◌, ◌+◌, ◌-◌, ◌^◌, ◌<◌, ◌≤◌, ◌↔◌, min, List, ◌∷◌, [], Some, None};
ghost use Rattle.std.specs.Prelude.{IsTrue, drop, length};
ghost use Rattle.js_base.specs.declared.ids.StmtId.{StmtId};
ghost use Rattle.need_labels.specs.Plan.{statement_host};
ghost use Rattle.msg_cost.specs.Cost.{cost_of};
ghost use Rattle.msg_cost.specs.Moves.{on, next_spot, straight_to, end_host};
ghost use Rattle.msg_cost.specs.Pieces.{untouched, gives_behind, piece_cost, walk_terms};
ghost use Rattle.msg_cost.specs.PieceViews.{given_of, givens_of, walk_shape};
ghost use Rattle.msg_cost.specs.Tables.{KnowsBlock};
ghost use Rattle.msg_cost.specs.Terms.{message, given_terms};
ghost use Rattle.msg_cost.specs.Views.{seated_shape, ids_of, capped};
ghost use Rattle.msg_cost.specs.Walks.{under, SameHosts, IsMoved, IsChange};

use crate::around::places_around;
use crate::carried::touches;
use crate::kept::NOTHING;
use crate::messages::{leave, message, move_on};
use crate::seated::Seated;
use crate::settled::{Start, last_start, walk_end};
use crate::spot::{Spot, straight_to};
use crate::tokens::next_spot;
use crate::trust::Trust;
use crate::values::given;
use crate::walk::{Walk, gives};
use jif_tree::Stmt;
use js_base::{HostId, StmtId, VarId};
use need_labels::Needs;

/// What something costs before a move and behind it, but for what it costs both times.
#[derive(Clone, Copy)]
pub struct Change {
    pub before: u64,
    pub after: u64,
}

/// Nothing changes.
pub const NO_CHANGE: Change = Change {
    before: 0,
    after: 0,
};

/// Two changes in one.
pub fn plus(first: Change, second: Change) -> Change
    ensures { result ≡ record {
      before = min (first.before + second.before) (2 ^ 64 - 1);
      after = min (first.after + second.after) (2 ^ 64 - 1);
    } }
{
    Change {
        before: first.before.saturating_add(second.before),
        after: first.after.saturating_add(second.after),
    }
}

/// A host that gives a variable a value, and the one to which that rides.
#[derive(Clone, Copy)]
struct Ride {
    from: HostId,
    to: Option<HostId>,
}

/// What a walk costs before and behind the move of a statement, but for what it costs both times.
pub fn walk_change(
    before: &Seated<'_>,
    after: &Seated<'_>,
    statement: StmtId,
    walk: &Walk<'_>,
) -> Change
    requires moved { IsMoved statement (seated_shape before.now) (seated_shape after.now) }
    requires knows { KnowsBlock before.now.needs.now before.now.hosts.now walk.now }
    ensures { IsChange (piece_cost (seated_shape before.now) (Some statement) (walk_shape walk.now))
        (piece_cost (seated_shape after.now) (Some statement) (walk_shape walk.now)) result }
{
    let moves = moves_change(before, after, statement, walk);
    if !walk.nested {
        return moves;
    }
    let back = Change {
        before: way_back(before, walk),
        after: way_back(after, walk),
    };
    plus(moves, back)
}

/// What the way back behind a nested block costs.
fn way_back(planned: &Seated<'_>, walk: &Walk<'_>) -> u64
    requires { KnowsBlock planned.now.needs.now planned.now.hosts.now walk.now }
    ensures { let shape = seated_shape planned.now in
        let home = statement_host shape.plan walk.now.home in
        result ≡ capped (cost_of planned.now.hosts.now
        (message walk.now.weight (end_host shape (on home) (ids_of walk.now.block.now)) home ∷ [])) }
{
    let home = planned.host_of(walk.home);
    let end = walk_end(planned, home, walk.block, &walk.table);
    message(planned.hosts, walk.weight, end, home)
}

/// The same of the moves over the statements of its block.
fn moves_change(
    before: &Seated<'_>,
    after: &Seated<'_>,
    statement: StmtId,
    walk: &Walk<'_>,
) -> Change
    requires moved { IsMoved statement (seated_shape before.now) (seated_shape after.now) }
    requires knows { KnowsBlock before.now.needs.now before.now.hosts.now walk.now }
    ensures { let first = seated_shape before.now in
        let second = seated_shape after.now in
        IsChange (cost_of before.now.hosts.now
        (walk_terms first (Some statement) walk.now.weight (on (statement_host first.plan walk.now.home)) None
        (givens_of walk.now.block.now)))
        (cost_of before.now.hosts.now
        (walk_terms second (Some statement) walk.now.weight (on (statement_host second.plan walk.now.home)) None
        (givens_of walk.now.block.now)))
        result }
{
    let places = places_around(walk.block, walk.ascending, statement);
    let most = same_to(walk, places.before, statement);
    let home = before.host_of(walk.home);
    let start = last_start(before, home, walk.block, &walk.table, most);
    let spot = spot_after(after, walk, start);
    stretch_change(before, after, statement, walk, start, spot, places.behind)
}

/// The variable to which a statement gives a value that the move of another one does not touch.
fn untouched(needs: &Needs, moved: StmtId, statement: &Stmt) -> Option<VarId>
    ensures { result ≡ untouched needs.now (Some moved) (given_of statement.now) }
{
    match gives(statement) {
        Some(x) => {
            if touches(needs, Some(moved), statement.id, x) {
                None
            } else {
                Some(x)
            }
        }
        None => None,
    }
}

/// The same of the statement before a place of a block, if there is one.
fn gives_behind(needs: &Needs, moved: StmtId, block: &[Stmt], place: usize) -> Option<VarId>
    requires { place ≤ length block.now }
    ensures { result ≡ gives_behind needs.now (Some moved) None (givens_of block.now) place }
{
    if place == 0 {
        return None;
    }
    untouched(needs, moved, &block[place - 1])
}

/// How many of the first statements of a block stand on the same hosts before and behind the move of a statement, where
/// it is not among these first ones: none where the block begins on the host of the statement itself.
fn same_to(walk: &Walk<'_>, before: usize, statement: StmtId) -> usize
    ensures within { result ≤ before }
    ensures home { 0 < result → walk.now.home.0 ≢ statement.0 }
{
    if walk.home.0 == statement.0 {
        0
    } else {
        before
    }
}

/// The spot behind the move at which the walk stands that is at this start before it.
fn spot_after(after: &Seated<'_>, walk: &Walk<'_>, start: Start) -> Spot
    ensures first { start.place ≡ 0 → result ≡ on (statement_host (seated_shape after.now).plan walk.now.home) }
    ensures later { start.place ≢ 0 → result ≡ start.spot }
{
    if start.place == 0 {
        Spot::on(after.host_of(walk.home))
    } else {
        start.spot
    }
}

/// The same of the walk from a place on, where it stands at one spot before the move and perhaps at another one behind
/// it, and what the statement before gives is still to be counted. From some place on the statements stand on the same
/// hosts.
fn stretch_change(
    before: &Seated<'_>,
    after: &Seated<'_>,
    statement: StmtId,
    walk: &Walk<'_>,
    start: Start,
    spot: Spot,
    same_from: usize,
) -> Change
    requires moved { IsMoved statement (seated_shape before.now) (seated_shape after.now) }
    requires knows { KnowsBlock before.now.needs.now before.now.hosts.now walk.now }
    requires within { start.place ≤ length walk.now.block.now }
    requires rest { SameHosts (seated_shape before.now) (seated_shape after.now).plan
        (ids_of (drop same_from walk.now.block.now)) }
    ensures { let gives = gives_behind before.now.needs.now (Some statement) None (givens_of walk.now.block.now)
        start.place in
        IsChange (cost_of before.now.hosts.now (walk_terms (seated_shape before.now) (Some statement)
        walk.now.weight start.spot gives (givens_of (drop start.place walk.now.block.now))))
        (cost_of before.now.hosts.now (walk_terms (seated_shape after.now) (Some statement)
        walk.now.weight spot gives (givens_of (drop start.place walk.now.block.now)))) result }
{
    let mut total = NO_CHANGE;
    let mut first = start.spot;
    let mut second = spot;
    for place in start.place..walk.block.len() {
        if place >= same_from && is_same_spot(first, second) {
            return total;
        }
        let next = next_at(before, walk, place, first);
        let then = next_at(after, walk, place, second);
        let one = ride_between(first, next);
        let other = ride_between(second, then);
        let gave = given_change(before, after, statement, walk, place, one, other);
        let moved = Change {
            before: move_on(before.hosts, walk.weight, first, next),
            after: move_on(after.hosts, walk.weight, second, then),
        };
        total = plus(plus(total, gave), moved);
        first = next;
        second = then;
    }
    let one = no_ride(first);
    let other = no_ride(second);
    let gave = given_change(before, after, statement, walk, walk.block.len(), one, other);
    let last = Change {
        before: leave(before.hosts, walk.weight, first),
        after: leave(after.hosts, walk.weight, second),
    };
    plus(plus(total, gave), last)
}

/// What a host gives at a spot before the next rides to where the token goes straight.
fn ride_between(spot: Spot, next: Spot) -> Ride
    ensures { result ≡ record { from = spot.host; to = straight_to spot next } }
{
    Ride {
        from: spot.host,
        to: straight_to(spot, next),
    }
}

/// What a host gives at the last spot of a walk does not ride.
fn no_ride(spot: Spot) -> Ride
    ensures { result ≡ record { from = spot.host; to = None } }
{
    Ride {
        from: spot.host,
        to: None,
    }
}

/// What it costs that the statement before a place gives a variable a value, before and behind the move of a statement
/// that does not touch that, by the hosts that give it and those to which it rides. Where these are the same, so are
/// the costs, and nothing is looked up.
fn given_change(
    before: &Seated<'_>,
    after: &Seated<'_>,
    statement: StmtId,
    walk: &Walk<'_>,
    place: usize,
    first: Ride,
    second: Ride,
) -> Change
    requires moved { IsMoved statement (seated_shape before.now) (seated_shape after.now) }
    requires within { place ≤ length walk.now.block.now }
    ensures { let gives = gives_behind before.now.needs.now (Some statement) None (givens_of walk.now.block.now)
        place in
        IsChange (cost_of before.now.hosts.now
        (given_terms (seated_shape before.now) walk.now.weight first.from gives first.to))
        (cost_of before.now.hosts.now
        (given_terms (seated_shape after.now) walk.now.weight second.from gives second.to)) result }
{
    if is_same_ride(first, second) {
        return NO_CHANGE;
    }
    let gives = gives_behind(before.needs, statement, walk.block, place);
    let weight = walk.weight;
    Change {
        before: given(before, &NOTHING, weight, first.from, gives, first.to),
        after: given(after, &NOTHING, weight, second.from, gives, second.to),
    }
}

/// Whether two spots are the same.
fn is_same_spot(first: Spot, second: Spot) -> bool
    ensures { IsTrue result ↔ (first ≡ second) }
{
    first.host.0 == second.host.0 && is_same_host(first.back, second.back)
}

/// Whether two rides are the same.
fn is_same_ride(first: Ride, second: Ride) -> bool
    ensures { IsTrue result ↔ (first ≡ second) }
{
    first.from.0 == second.from.0 && is_same_host(first.to, second.to)
}

/// Whether two hosts are the same, or there is none both times.
fn is_same_host(first: Option<HostId>, second: Option<HostId>) -> bool
    ensures { IsTrue result ↔ (first ≡ second) }
{
    match (first, second) {
        (Some(one), Some(other)) => one.0 == other.0,
        (None, None) => true,
        _ => false,
    }
}

/// Where the statement at a place of the block of a walk runs.
fn next_at(planned: &Seated<'_>, walk: &Walk<'_>, place: usize, spot: Spot) -> Spot
    requires within { place < length walk.now.block.now }
    requires knows { KnowsBlock planned.now.needs.now planned.now.hosts.now walk.now }
    ensures { (statement : StmtId) (others : List StmtId) →
        ids_of (drop place walk.now.block.now) ≡ statement ∷ others →
        result ≡ next_spot (seated_shape planned.now) spot statement others }
{
    let mut trust = Trust::Table(&walk.table);
    next_spot(planned, spot, walk.block, place, &mut trust)
}
