//! Calls, and what methods give back.

ghost use Rattle.std.specs.Prelude.{◌≡◌, ◌∷◌, [], ◌++◌, List, All, Some, map, suc, IfOk, OnOk};
ghost use Rattle.js_base.specs.declared.ids.StmtId.{StmtId};
ghost use Rattle.host_code.specs.declared.code_expr.Node.TheVariants as node;
ghost use Rattle.host_code.specs.declared.instruction.Op.TheVariants as op;
ghost use Rattle.jif_tree.specs.Trees.{expr_tree};
ghost use Rattle.split_rules.specs.Expressions.{nodes_of, released_by};
ghost use Rattle.split_rules.specs.Walk.{entry_id, expr_emissions, argument_emissions, pass_emissions};
ghost use Rattle.split_rules.specs.Walk.{kept_emissions, call_emissions, result_emissions, need_of, releasing};
ghost use Rattle.control_split.specs.Trace.{traced};
ghost use Rattle.control_split.specs.Views.{walked_of, planned_in, IsSizedExpr};

use crate::expressions::value;
use crate::riders::{call_with, riding_params, some_riders};
use crate::trace::{Place, Trace};
use crate::values::{pass, send};
use crate::walk::Walk;
use host_code::{CodeExpr, Node, Op};
use jif_tree::{Expr, params_of, result_of};
use js_base::{EntryId, HostId, MethodId, OutOfMemory, SiteId, VarId};
use msg_cost::called_home;
use std::alloc::Global;

/// What a call says.
#[derive(Clone, Copy)]
pub struct CallSite<'a> {
    pub site: SiteId,
    pub method: MethodId,
    pub args: &'a [Expr],
    pub into: Option<VarId>,
}

/// An argument, and then its parameter for those who read it, but for the home of the method, to which it rides.
fn argument(
    walk: &Walk<'_>,
    trace: &mut Trace,
    place: &Place<'_>,
    home: HostId,
    param: VarId,
    argument: &Expr,
) -> Result<(), OutOfMemory>
    requires { IsSizedExpr (expr_tree argument.now) }
    ensures { OnOk result (trace.new ≡ traced trace.old
        (expr_emissions place.now.host place.now.label.now place.now.statement 0 (expr_tree argument.now)
        ++ releasing place.now.host place.now.label.now place.now.statement
        (op.Arg param (nodes_of 0 (expr_tree argument.now))) (released_by 0 (expr_tree argument.now))
        ∷ pass_emissions (planned_in walk.now.split) place.now.host place.now.label.now place.now.statement param
        (Some home))) }
{
    let given = value(walk.split.alloc, trace, place, argument)?;
    trace.instruction(place, Op::Arg(param, given))?;
    pass(&walk.split, trace, place, param, Some(home))
}

/// Each argument, with its parameter.
fn arguments(
    walk: &Walk<'_>,
    trace: &mut Trace,
    place: &Place<'_>,
    home: HostId,
    params: &[VarId],
    args: &[Expr],
) -> Result<(), OutOfMemory>
    requires { All (λ arg. IsSizedExpr (expr_tree arg)) args.now }
    ensures { OnOk result (trace.new ≡ traced trace.old (argument_emissions (walked_of walk.now) place.now.host home
        place.now.label.now place.now.statement params.now (map expr_tree args.now))) }
{
    let mut left = params;
    for arg in args {
        if let [param, more @ ..] = left {
            argument(walk, trace, place, home, *param, arg)?;
            left = more;
        }
    }
    Ok(())
}

/// A variable, as an expression.
fn variable(alloc: Global, x: VarId) -> Result<CodeExpr, OutOfMemory>
    ensures { IfOk result (λ nodes. nodes ≡ node.Var x ∷ []) }
{
    let mut nodes = Vec::new(alloc);
    nodes.push(Node::Var(x))?;
    Ok(CodeExpr::new(nodes))
}

/// A result that is kept.
fn keep(
    walk: &Walk<'_>,
    trace: &mut Trace,
    place: &Place<'_>,
    given: Option<VarId>,
    into: Option<VarId>,
    carried: Option<HostId>,
) -> Result<(), OutOfMemory>
    ensures { OnOk result (trace.new ≡ traced trace.old
        (kept_emissions (walked_of walk.now) place.now.host place.now.label.now place.now.statement given into
        carried)) }
{
    if let (Some(given), Some(into)) = (given, into) {
        trace.instruction(place, Op::Let(into, variable(walk.split.alloc, given)?))?;
        send(&walk.split, trace, place, into, carried)?;
    }
    Ok(())
}

/// The entry of a method.
///
/// # Errors
/// There are more methods than numbers.
pub fn entry_of(method: MethodId) -> Result<EntryId, OutOfMemory>
    ensures { IfOk result (λ there. there ≡ entry_id (suc method.0)) }
{
    match method.0.checked_add(1) {
        Some(number) => Ok(EntryId(number)),
        None => Err(OutOfMemory),
    }
}

/// A call, which needs so much with all that is left under its token. The entry behind it is named before its frame is
/// made. The result that is kept is carried to a host or to none.
///
/// # Errors
/// Memory ran out.
pub fn call(
    walk: &Walk<'_>,
    trace: &mut Trace,
    place: &Place<'_>,
    what: &CallSite<'_>,
    need: u64,
    carried: Option<HostId>,
) -> Result<(), OutOfMemory>
    requires { All (λ arg. IsSizedExpr (expr_tree arg)) what.now.args.now }
    ensures { (left : List StmtId) → need ≡ need_of (planned_in walk.now.split) (place.now.statement ∷ left) →
        OnOk result (trace.new ≡ traced trace.old
        (call_emissions (walked_of walk.now) trace.old.counts place.now.host place.now.label.now place.now.statement
        what.now.site what.now.method (map expr_tree what.now.args.now) what.now.into carried left)) }
{
    let program = &walk.split.checked.program;
    let params = params_of(program, what.method);
    let home = called_home(&walk.split.planned(), what.method);
    let riders = some_riders(riding_params(&walk.split, place.host, home, params, what.args)?)?;
    let behind = trace.entries();
    trace.entry(place.host, place.label, need)?;
    trace.instruction(place, Op::Frame(what.site))?;
    arguments(walk, trace, place, home, params, what.args)?;
    trace.instruction(place, Op::Push(EntryId(behind)))?;
    let method = entry_of(what.method)?;
    trace.instruction(place, call_with(riders, method, home))?;
    trace.stands(place.host, behind)?;
    let result = result_of(program, what.method);
    keep(walk, trace, place, result, what.into, carried)
}

/// What a method gives back.
///
/// # Errors
/// Memory ran out.
pub fn give_back(
    walk: &Walk<'_>,
    trace: &mut Trace,
    place: &Place<'_>,
    given: &Expr,
) -> Result<(), OutOfMemory>
    requires { IsSizedExpr (expr_tree given.now) }
    ensures { OnOk result (trace.new ≡ traced trace.old
        (expr_emissions place.now.host place.now.label.now place.now.statement 0 (expr_tree given.now)
        ++ result_emissions (walked_of walk.now) place.now.host place.now.label.now place.now.statement
        (expr_tree given.now))) }
{
    let nodes = value(walk.split.alloc, trace, place, given)?;
    if let Some(kept) = walk.method.result {
        trace.instruction(place, Op::Ret(kept, nodes))?;
    }
    Ok(())
}
