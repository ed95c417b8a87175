//! The statements of blocks.

ghost use Rattle.std.specs.Prelude.{◌≡◌, ◌+◌, ◌≤◌, ◌∷◌, [], ◌++◌, List, None, OnOk, drop, length};
ghost use Rattle.js_base.specs.declared.ids.StmtId.{StmtId};
ghost use Rattle.host_code.specs.declared.code_expr.TheConstants.{MOST_NODES};
ghost use Rattle.host_code.specs.declared.instruction.Op.TheVariants as op;
ghost use Rattle.jif_tree.specs.Trees.{done, set_local, set_field, set_element, branch, loop, expr_tree, block_tree};
ghost use Rattle.jif_tree.specs.Trees.{tree_before};
ghost use Rattle.jif_tree.specs.Sizes.{expr_nodes};
ghost use Rattle.msg_cost.specs.Kept.{AreTrustedTo};
ghost use Rattle.msg_cost.specs.Moves.{next_spot, straight_to, carried_to};
ghost use Rattle.msg_cost.specs.Views.{shape_of, ids_of};
ghost use Rattle.split_rules.specs.Walk.{lane_on, need_of, block_emissions};
ghost use Rattle.control_split.specs.Own.{own_emissions};
ghost use Rattle.control_split.specs.Trace.{traced};
ghost use Rattle.control_split.specs.Views.{walked_of, planned_in, around_of, IsSizedExpr, IsSizedBlock};
ghost use Rattle.control_split.specs.Places.{around_at, heading_at};

use crate::calls::{CallSite, call, give_back};
use crate::expressions::{add_reads, first_element, value};
use crate::labels::guarded;
use crate::moves::{end, move_on};
use crate::needs::{ahead_at, block_needs, left_behind};
use crate::riders::rides_behind;
use crate::trace::{Place, Trace};
use crate::values::send;
use crate::walk::{Around, Lane, Walk};
use host_code::Op;
use jif_tree::{Expr, Stmt, StmtKind, tree_laws};
use js_base::limits::HOSTS;
use js_base::{EntryId, FieldId, HostId, OutOfMemory, VarId};
use msg_cost::{Planned, Spot, next_spot, straight_to};
use split_rules::code_expr;

/// The statements of a block that begins on this host.
///
/// # Errors
/// Memory ran out.
#[cycle(blocks)]
pub fn block(
    walk: &Walk<'_>,
    trace: &mut Trace,
    around: &Around<'_>,
    home: HostId,
    block: &[Stmt],
) -> Result<(), OutOfMemory>
    requires { IsSizedBlock (block_tree block.now) }
    ensures { OnOk result (trace.new ≡ traced trace.old (block_emissions (walked_of walk.now) (around_of around.now)
        trace.old.counts (lane_on home) (block_tree block.now))) }
{
    let planned = walk.split.planned();
    let needs = block_needs(&walk.split, block)?;
    let mut lane = Lane {
        spot: Spot::on(home),
        return_entry: 0,
        riding: None,
    };
    let mut noted = [0; HOSTS];
    let mut next = spot_at(&planned, lane.spot, block, 0, &mut noted);
    for (place, one) in block.iter().enumerate() {
        let ahead = ahead_at(&walk.split, block, &needs, place);
        lane = move_on(walk.split.alloc, trace, around, lane, next, ahead)?;
        let behind = spot_at(&planned, next, block, place + 1, &mut noted);
        let carried = straight_to(next, behind);
        let left = left_behind(&walk.split, next, block, &needs, place);
        statement(walk, trace, around, next.host, one, left, carried)?;
        lane.riding = rides_behind(&walk.split, next, one, carried);
        next = behind;
    }
    end(trace, around, lane)
}

/// Where the statement at a place of a block runs, behind one that runs at a spot. Where there is none the spot stays.
fn spot_at(
    planned: &Planned<'_>,
    spot: Spot,
    block: &[Stmt],
    place: usize,
    noted: &mut [usize; HOSTS],
) -> Spot
    requires within { place ≤ length block.now }
    requires noted { AreTrustedTo (shape_of planned.now) block.now place noted.old }
    ensures next { (statement : StmtId) (others : List StmtId) →
        ids_of (drop place block.now) ≡ statement ∷ others →
        result ≡ next_spot (shape_of planned.now) spot statement others }
    ensures carried { straight_to spot result
        ≡ carried_to (shape_of planned.now) spot (drop place (ids_of block.now)) }
    ensures noted { AreTrustedTo (shape_of planned.now) block.now (place + 1) noted.new }
{
    if place < block.len() {
        next_spot(planned, spot, block, place, noted)
    } else {
        spot
    }
}

/// A statement on its host, where the token is there already. What is left under the token needs so much, and what the
/// statement gives is carried to a host or to none.
#[cycle(blocks)]
fn statement(
    walk: &Walk<'_>,
    trace: &mut Trace,
    around: &Around<'_>,
    host: HostId,
    statement: &Stmt,
    left: u64,
    carried: Option<HostId>,
) -> Result<(), OutOfMemory>
    requires { IsSizedBlock (tree_before statement.now done) }
    ensures { (others : List StmtId) → left ≡ need_of (planned_in walk.now.split) others →
        OnOk result (trace.new ≡ traced trace.old (own_emissions (walked_of walk.now) (around_of around.now)
        trace.old.counts host others carried (tree_before statement.now done))) }
{
    tree_laws();
    let place = Place {
        host,
        label: around.pc,
        statement: statement.id,
    };
    let with_left = walk.split.need_of(statement.id) | left;
    match &statement.kind {
        StmtKind::Let { var, value } => set_local(walk, trace, &place, *var, value, carried),
        StmtKind::SetField { field, value } => set_field(walk, trace, &place, *field, value),
        StmtKind::SetElement {
            field,
            index,
            value,
        } => set_element(walk, trace, &place, *field, index, value),
        StmtKind::If { guard, yes, no } => branch(walk, trace, &place, guard, yes, no, left),
        StmtKind::While { guard, body } => repeat(walk, trace, &place, guard, body, with_left),
        StmtKind::Call {
            site,
            method,
            args,
            into,
        } => {
            let what = CallSite {
                site: *site,
                method: *method,
                args,
                into: *into,
            };
            call(walk, trace, &place, &what, with_left, carried)
        }
        StmtKind::Return { value } => give_back(walk, trace, &place, value),
    }
}

/// A local becomes a value, which is sent to those who read it, but for the one to which it is carried.
fn set_local(
    walk: &Walk<'_>,
    trace: &mut Trace,
    place: &Place<'_>,
    x: VarId,
    expr: &Expr,
    carried: Option<HostId>,
) -> Result<(), OutOfMemory>
    requires { IsSizedExpr (expr_tree expr.now) }
    ensures { OnOk result (trace.new ≡ traced trace.old (own_emissions (walked_of walk.now) (around_at place.now)
        trace.old.counts place.now.host [] carried (set_local (heading_at place.now) x (expr_tree expr.now) done))) }
{
    let nodes = value(walk.split.alloc, trace, place, expr)?;
    trace.instruction(place, Op::Let(x, nodes))?;
    send(&walk.split, trace, place, x, carried)
}

/// A plain field becomes a value.
fn set_field(
    walk: &Walk<'_>,
    trace: &mut Trace,
    place: &Place<'_>,
    field: FieldId,
    expr: &Expr,
) -> Result<(), OutOfMemory>
    requires { IsSizedExpr (expr_tree expr.now) }
    ensures { OnOk result (trace.new ≡ traced trace.old (own_emissions (walked_of walk.now) (around_at place.now)
        trace.old.counts place.now.host [] None (set_field (heading_at place.now) field (expr_tree expr.now) done))) }
{
    let nodes = value(walk.split.alloc, trace, place, expr)?;
    let index = first_element(walk.split.alloc)?;
    trace.instruction(place, Op::Put(field, index, nodes))
}

/// An element of an array becomes a value.
fn set_element(
    walk: &Walk<'_>,
    trace: &mut Trace,
    place: &Place<'_>,
    field: FieldId,
    index: &Expr,
    expr: &Expr,
) -> Result<(), OutOfMemory>
    requires { expr_nodes (expr_tree index.now) + expr_nodes (expr_tree expr.now) ≤ MOST_NODES }
    ensures { OnOk result (trace.new ≡ traced trace.old (own_emissions (walked_of walk.now) (around_at place.now)
        trace.old.counts place.now.host [] None
        (set_element (heading_at place.now) field (expr_tree index.now) (expr_tree expr.now) done))) }
{
    let alloc = walk.split.alloc;
    let middle = add_reads(alloc, trace, place, 0, index)?;
    let _next = add_reads(alloc, trace, place, middle, expr)?;
    let at = code_expr(alloc, 0, index)?;
    let nodes = code_expr(alloc, middle, expr)?;
    trace.instruction(place, Op::Put(field, at, nodes))
}

/// A branch. The entry behind it stands where both blocks give the token back, and needs so much.
#[cycle(blocks)]
fn branch(
    walk: &Walk<'_>,
    trace: &mut Trace,
    place: &Place<'_>,
    guard: &Expr,
    yes: &[Stmt],
    no: &[Stmt],
    left: u64,
) -> Result<(), OutOfMemory>
    requires guard { IsSizedExpr (expr_tree guard.now) }
    requires yes { IsSizedBlock (block_tree yes.now) }
    requires no { IsSizedBlock (block_tree no.now) }
    ensures { (others : List StmtId) → left ≡ need_of (planned_in walk.now.split) others →
        OnOk result (trace.new ≡ traced trace.old (own_emissions (walked_of walk.now) (around_at place.now)
        trace.old.counts place.now.host others None
        (branch (heading_at place.now) (expr_tree guard.now) (block_tree yes.now) (block_tree no.now) done))) }
{
    let pc = guarded(walk, place.label, guard);
    let inside = Around {
        owner: place.statement,
        pc: &pc,
    };
    let join = trace.entries();
    trace.entry(place.host, &pc, left)?;
    trace.instruction(place, Op::Push(EntryId(join)))?;
    let nodes = value(walk.split.alloc, trace, place, guard)?;
    let number = trace.branches();
    trace.instruction(place, Op::Branch(nodes, number))?;
    block(walk, trace, &inside, place.host, yes)?;
    trace.lands(place.host, number)?;
    block(walk, trace, &inside, place.host, no)?;
    trace.stands(place.host, join)?;
    Ok(())
}

/// A loop. Its entry stands at its guard, and needs so much.
#[cycle(blocks)]
fn repeat(
    walk: &Walk<'_>,
    trace: &mut Trace,
    place: &Place<'_>,
    guard: &Expr,
    body: &[Stmt],
    need: u64,
) -> Result<(), OutOfMemory>
    requires guard { IsSizedExpr (expr_tree guard.now) }
    requires body { IsSizedBlock (block_tree body.now) }
    ensures { (others : List StmtId) → need ≡ need_of (planned_in walk.now.split) (place.now.statement ∷ others) →
        OnOk result (trace.new ≡ traced trace.old (own_emissions (walked_of walk.now) (around_at place.now)
        trace.old.counts place.now.host others None
        (loop (heading_at place.now) (expr_tree guard.now) (block_tree body.now) done))) }
{
    let pc = guarded(walk, place.label, guard);
    let inside = Around {
        owner: place.statement,
        pc: &pc,
    };
    let here = inside.place_on(place.host);
    let head = trace.entries();
    trace.entry(place.host, &pc, need)?;
    trace.stands(place.host, head)?;
    let nodes = value(walk.split.alloc, trace, &here, guard)?;
    let number = trace.branches();
    trace.instruction(&here, Op::Branch(nodes, number))?;
    trace.instruction(&here, Op::Push(EntryId(head)))?;
    block(walk, trace, &inside, place.host, body)?;
    trace.lands(place.host, number)?;
    Ok(())
}
