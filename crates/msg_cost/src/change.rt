//! What a move adds to the cost, by the pieces that it touches.

ghost use Rattle.std.specs.Prelude.{◌≡◌, ◌<◌, ◌≤◌, ◌^◌, ◌+◌, Option, Some, length};
ghost use Rattle.js_base.specs.declared.ids.StmtId.{StmtId};
ghost use Rattle.jif_tree.specs.Trees.{program_tree};
ghost use Rattle.jif_tree.specs.Limits.{IsWithinLimits};
ghost use Rattle.js_base.specs.declared.limits.TheConstants.{METHODS};
ghost use Rattle.need_labels.specs.Labelled.{labelled_of};
ghost use Rattle.msg_cost.specs.Cost.{plan_cost};
ghost use Rattle.msg_cost.specs.Pieces.{pieces_cost, others_cost, walk_cost, walks_cost, program_pieces};
ghost use Rattle.msg_cost.specs.PieceViews.{piece_shape, all_pieces};
ghost use Rattle.msg_cost.specs.Rows.{IsIndex};
ghost use Rattle.msg_cost.specs.Steps.{moved};
ghost use Rattle.msg_cost.specs.Tables.{HasTable, HaveTables, RowsHaveTables, AreBodies};
ghost use Rattle.msg_cost.specs.Touched.{row_others, touched_others, touched_cost};
ghost use Rattle.msg_cost.specs.Views.{seated_shape, capped};
ghost use Rattle.msg_cost.specs.Walks.{IsMoved, IsChange};

use crate::index::Index;
use crate::kept::{RECENT_VARIABLES, RecentReaders};
use crate::piece::Piece;
use crate::piece_cost::other_cost;
use crate::program_cost::program_cost;
use crate::seated::Seated;
use crate::step::Step;
use crate::walk_change::{Change, NO_CHANGE, plus, walk_change};
use host_decl::Hosts;
use jif_tree::Checked;
use js_base::StmtId;
use js_base::limits::HOSTS;
use need_labels::{Needs, Plan};

/// What those pieces cost under a plan that a move of a part would touch, but for walks: the reads and writes and the
/// definitions of a statement, the definitions of what it reads, the calls of its method where it is one of the
/// statements of the body itself, and the arguments of these where it is the head. It is the same for all moves of that
/// part, so whoever tries many hosts for one part counts it once. Behind a move that is made, it is what `cost_after`
/// counted for that move.
pub fn cost_before(
    checked: &Checked,
    needs: &Needs,
    hosts: &Hosts,
    index: &Index<'_>,
    plan: &Plan,
    step: Step,
) -> u64
    requires within { IsWithinLimits (program_tree checked.now.program) }
    requires index { IsIndex checked.now.program needs.now hosts.now index.now }
    ensures cost { result ≡ touched_cost (labelled_of checked.now) needs.now hosts.now index.now step plan.now }
    ensures small { result < 2 ^ 62 }
{
    let _sound = hosts.hosts();
    let planned = Seated {
        program: &checked.program,
        needs,
        hosts,
        plan,
        step: None,
    };
    others_touched(&planned, index, step)
}

/// What the same pieces cost behind the move.
pub fn cost_after(
    checked: &Checked,
    needs: &Needs,
    hosts: &Hosts,
    index: &Index<'_>,
    plan: &Plan,
    step: Step,
) -> u64
    requires within { IsWithinLimits (program_tree checked.now.program) }
    requires index { IsIndex checked.now.program needs.now hosts.now index.now }
    ensures cost { result
        ≡ touched_cost (labelled_of checked.now) needs.now hosts.now index.now step (moved plan.now step) }
    ensures small { result < 2 ^ 62 }
{
    let _sound = hosts.hosts();
    let planned = Seated {
        program: &checked.program,
        needs,
        hosts,
        plan,
        step: Some(step),
    };
    others_touched(&planned, index, step)
}

/// What the walks cost that a move of a part touches, over the block of a statement and over the blocks inside it,
/// before the move and behind it, but for what they cost both times. With the costs of the other pieces, the cost of
/// the plan changes as these do.
pub fn walks_change(
    checked: &Checked,
    needs: &Needs,
    hosts: &Hosts,
    index: &Index<'_>,
    plan: &Plan,
    step: Step,
) -> Change
    requires within { IsWithinLimits (program_tree checked.now.program) }
    requires index { IsIndex checked.now.program needs.now hosts.now index.now }
    ensures change { plan_cost (labelled_of checked.now) needs.now hosts.now (moved plan.now step)
        + (touched_cost (labelled_of checked.now) needs.now hosts.now index.now step plan.now + result.before)
        ≡ plan_cost (labelled_of checked.now) needs.now hosts.now plan.now
        + (touched_cost (labelled_of checked.now) needs.now hosts.now index.now step (moved plan.now step)
        + result.after) }
    ensures small { (result.before < 2 ^ 62) × (result.after < 2 ^ 62) }
{
    let _sound = hosts.hosts();
    let before = Seated {
        program: &checked.program,
        needs,
        hosts,
        plan,
        step: None,
    };
    let after = Seated {
        step: Some(step),
        ..before
    };
    match step {
        Step::Field(_, _) => NO_CHANGE,
        Step::Statement(statement, _) => match index.statements.get(statement.0 as usize) {
            Some(row) => row_change(&before, &after, statement, row),
            None => NO_CHANGE,
        },
    }
}

/// What the pieces cost, but for walks, that depend on the part of a step, and all pieces where the index has no row
/// for it.
fn others_touched(planned: &Seated<'_>, index: &Index<'_>, step: Step) -> u64
    requires methods { length (program_tree planned.now.program.now).methods ≤ METHODS }
    requires index { IsIndex planned.now.program.now planned.now.needs.now planned.now.hosts.now index.now }
    ensures { result ≡ capped (touched_others (seated_shape planned.now) index.now step) }
{
    match step {
        Step::Field(field, _) => { part_cost(planned, &index.bodies, &index.fields, None, field.0) }
        Step::Statement(statement, _) => {
            let moved = Some(statement);
            part_cost(
                planned,
                &index.bodies,
                &index.statements,
                moved,
                statement.0,
            )
        }
    }
}

/// The same by the number of the part.
fn part_cost(
    planned: &Seated<'_>,
    bodies: &[[u16; HOSTS]],
    rows: &[Vec<Piece<'_>>],
    moved: Option<StmtId>,
    number: u32,
) -> u64
    requires methods { length (program_tree planned.now.program.now).methods ≤ METHODS }
    requires bodies { AreBodies planned.now.needs.now planned.now.hosts.now
        planned.now.program.now.methods.items bodies.now }
    requires know { RowsHaveTables planned.now.needs.now planned.now.hosts.now rows.now }
    ensures { result ≡ capped (row_others (seated_shape planned.now) moved rows.now number) }
{
    match rows.get(number as usize) {
        Some(row) => row_cost(planned, bodies, moved, row),
        None => all_cost(planned),
    }
}

/// What all pieces cost.
fn all_cost(planned: &Seated<'_>) -> u64
    requires { length (program_tree planned.now.program.now).methods ≤ METHODS }
    ensures { (moved : Option StmtId) → result ≡ capped (pieces_cost (seated_shape planned.now) moved
        (program_pieces (program_tree planned.now.program.now))) }
{
    program_cost(planned)
}

/// What these pieces cost, but for walks.
fn row_cost(
    planned: &Seated<'_>,
    bodies: &[[u16; HOSTS]],
    moved: Option<StmtId>,
    row: &[Piece<'_>],
) -> u64
    requires bodies { AreBodies planned.now.needs.now planned.now.hosts.now
        planned.now.program.now.methods.items bodies.now }
    requires know { HaveTables planned.now.needs.now planned.now.hosts.now row.now }
    ensures { result ≡ capped (others_cost (seated_shape planned.now) moved (all_pieces row.now)) }
{
    let mut total: u64 = 0;
    let mut recent: RecentReaders = [None; RECENT_VARIABLES];
    for piece in row {
        total = total.saturating_add(other_cost(planned, bodies, moved, &mut recent, piece));
    }
    total
}

/// What the walks among these pieces cost before and behind the move of a statement, but for what they cost both times.
fn row_change(
    before: &Seated<'_>,
    after: &Seated<'_>,
    statement: StmtId,
    row: &[Piece<'_>],
) -> Change
    requires moved { IsMoved statement (seated_shape before.now) (seated_shape after.now) }
    requires know { HaveTables before.now.needs.now before.now.hosts.now row.now }
    ensures { IsChange (walks_cost (seated_shape before.now) (Some statement) (all_pieces row.now))
        (walks_cost (seated_shape after.now) (Some statement) (all_pieces row.now)) result }
{
    let mut total = NO_CHANGE;
    for piece in row {
        total = plus(total, piece_change(before, after, statement, piece));
    }
    total
}

/// The same of one piece, of which nothing changes where it is no walk.
#[tactic(auto, using(crate::proofs::WalkChanges::nothing_changed))]
fn piece_change(
    before: &Seated<'_>,
    after: &Seated<'_>,
    statement: StmtId,
    piece: &Piece<'_>,
) -> Change
    requires moved { IsMoved statement (seated_shape before.now) (seated_shape after.now) }
    requires knows { HasTable before.now.needs.now before.now.hosts.now piece.now }
    ensures { IsChange (walk_cost (seated_shape before.now) (Some statement) (piece_shape piece.now))
        (walk_cost (seated_shape after.now) (Some statement) (piece_shape piece.now)) result }
{
    match piece {
        Piece::Access { .. } => NO_CHANGE,
        Piece::Giving { .. } => NO_CHANGE,
        Piece::Passing { .. } => NO_CHANGE,
        Piece::Calling { .. } => NO_CHANGE,
        Piece::Walk(walk) => walk_change(before, after, statement, walk),
        Piece::Ending { .. } => NO_CHANGE,
    }
}
