//! What rides with a thread that is handed over.

ghost use Rattle.std.specs.Prelude.{◌≡◌, ◌∷◌, [], List, map, IfOk, if◌then◌else◌};
ghost use Rattle.js_base.specs.declared.ids.StmtId.{StmtId};
ghost use Rattle.js_base.specs.declared.ids.VarId.{VarId};
ghost use Rattle.jif_tree.specs.Trees.{expr_tree};
ghost use Rattle.msg_cost.specs.declared.spot.Spot.{Spot};
ghost use Rattle.msg_cost.specs.Moves.{carried_to};
ghost use Rattle.msg_cost.specs.PieceViews.{gives};
ghost use Rattle.msg_cost.specs.Terms.{reads_on};
ghost use Rattle.split_rules.specs.Walk.{riders_to, rides_behind, riding_params, go_with, call_with};
ghost use Rattle.control_split.specs.Views.{planned_in, riding_of, riders_of};

use crate::walk::Split;
use host_code::{MOST_RIDERS, Op, RiderVars};
use jif_tree::{Expr, Stmt, StmtKind};
use js_base::{EntryId, HostId, OutOfMemory, VarId};
use msg_cost::Spot;
use std::alloc::Global;

/// Whether a statement on this host reads the variable.
fn reads_on(split: &Split<'_>, x: VarId, host: HostId) -> bool
    ensures { result ≡ reads_on (planned_in split.now) x host.0 }
{
    let readers = split.needs.readers(x);
    readers
        .iter()
        .any(|reader| split.plan.host_of(*reader).0 == host.0)
}

/// Whether the value of a variable rides from a host to the one to which it is carried, which reads the variable.
fn rides_to(split: &Split<'_>, host: HostId, x: VarId, carried: Option<HostId>) -> bool
    ensures { (if result then x ∷ [] else []) ≡ riders_to (planned_in split.now) host x carried }
{
    match carried {
        Some(to) => to.0 != host.0 && reads_on(split, x, to),
        None => false,
    }
}

/// The variable whose value rides behind a statement that runs at a spot, where what the statement gives is carried to
/// a host or to none.
pub fn rides_behind(
    split: &Split<'_>,
    spot: Spot,
    statement: &Stmt,
    carried: Option<HostId>,
) -> Option<VarId>
    ensures { (others : List StmtId) → carried ≡ carried_to (planned_in split.now) spot others →
        riding_of result ≡ rides_behind (planned_in split.now) spot (gives statement.now.kind) others }
{
    let given = match &statement.kind {
        StmtKind::Let { var, .. } => *var,
        StmtKind::Call { into: Some(x), .. } => *x,
        _ => return None,
    };
    if rides_to(split, spot.host, given, carried) {
        Some(given)
    } else {
        None
    }
}

/// The parameters of a call that ride to the home of the method, in their order.
///
/// # Errors
/// Memory ran out.
pub fn riding_params(
    split: &Split<'_>,
    host: HostId,
    home: HostId,
    params: &[VarId],
    args: &[Expr],
) -> Result<Vec<VarId>, OutOfMemory>
    ensures { IfOk result (λ riders. riders.items
        ≡ riding_params (planned_in split.now) host home params.now (map expr_tree args.now)) }
{
    let count = params.len().min(args.len());
    let mut riders = Vec::new(split.alloc);
    for place in 0..count {
        let param = params[place];
        if rides_to(split, host, param, Some(home)) {
            riders.push(param)?;
        }
    }
    Ok(riders)
}

/// A variable that rides, where one does, as an instruction has it.
///
/// # Errors
/// Memory ran out.
pub fn one_rider(alloc: Global, riding: Option<VarId>) -> Result<Option<RiderVars>, OutOfMemory>
    ensures { IfOk result (λ riders. riders_of riders ≡ riding_of riding) }
{
    match riding {
        Some(x) => {
            let mut vars = Vec::new(alloc);
            vars.push(x)?;
            Ok(Some(RiderVars::new(vars)))
        }
        None => Ok(None),
    }
}

/// Variables that ride, where some do, as an instruction has them.
///
/// # Errors
/// They are more than may ride, which the parameters of a method are not.
pub fn some_riders(vars: Vec<VarId>) -> Result<Option<RiderVars>, OutOfMemory>
    ensures { IfOk result (λ riders. riders_of riders ≡ vars.items) }
{
    if vars.len() > MOST_RIDERS {
        return Err(OutOfMemory);
    }
    if vars.is_empty() {
        Ok(None)
    } else {
        Ok(Some(RiderVars::new(vars)))
    }
}

/// The thread is handed over to an entry on another host, with what rides.
pub fn go_with(riders: Option<RiderVars>, entry: EntryId, host: HostId) -> Op
    ensures { result ≡ go_with (riders_of riders) entry host }
{
    match riders {
        Some(vars) => {
            prove!(!vars.vars().is_empty());
            Op::GoWith(entry, host, vars)
        }
        None => Op::Go(entry, host),
    }
}

/// The same to the entry of a method, in its new frame.
pub fn call_with(riders: Option<RiderVars>, entry: EntryId, host: HostId) -> Op
    ensures { result ≡ call_with (riders_of riders) entry host }
{
    match riders {
        Some(vars) => {
            prove!(!vars.vars().is_empty());
            Op::CallWith(entry, host, vars)
        }
        None => Op::Call(entry, host),
    }
}
