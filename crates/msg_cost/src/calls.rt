//! What calls cost.

ghost use Rattle.std.specs.Prelude.{◌≡◌, map};
ghost use Rattle.jif_tree.specs.Trees.{expr_tree, program_tree};
ghost use Rattle.jif_tree.specs.LabelRules.{method_at};
ghost use Rattle.msg_cost.specs.Cost.{cost_of};
ghost use Rattle.msg_cost.specs.Kept.{IsCostKept};
ghost use Rattle.msg_cost.specs.Terms.{argument_terms, result_terms, call_terms};
ghost use Rattle.msg_cost.specs.Views.{seated_shape, capped};

use crate::ends::called_end;
use crate::kept::Kept;
use crate::messages::{exchange, message};
use crate::seated::Seated;
use crate::tokens::called_home;
use crate::values::{expr_cost, forwards, kept_reading};
use jif_tree::{Expr, params_of};
use js_base::{HostId, MethodId, VarId};

/// The cost of the arguments of a call, each with the parameter that gets it, whose values ride to the home of the
/// method.
fn argument_cost(
    planned: &Seated<'_>,
    kept: &Kept<'_>,
    weight: u64,
    host: HostId,
    home: HostId,
    params: &[VarId],
    args: &[Expr],
) -> u64
    requires { IsCostKept (seated_shape planned.now) kept.now }
    ensures { result ≡ capped (cost_of planned.now.hosts.now
        (argument_terms (seated_shape planned.now) weight host home params.now (map expr_tree args.now))) }
{
    let mut total: u64 = 0;
    let mut left = params;
    for arg in args {
        total = total.saturating_add(expr_cost(planned, weight, host, arg));
        if let [param, more @ ..] = left {
            let reading = kept_reading(planned, kept, *param);
            let sent = forwards(planned, reading, weight, host, Some(home));
            total = total.saturating_add(sent);
            left = more;
        }
    }
    total
}

/// The cost of a result that is kept, from the host on which the method ended.
fn result_cost(
    planned: &Seated<'_>,
    weight: u64,
    host: HostId,
    end: HostId,
    into: Option<VarId>,
) -> u64
    ensures { result ≡ capped (cost_of planned.now.hosts.now (result_terms weight host end into)) }
{
    match into {
        Some(_) => exchange(planned.hosts, weight, end, host),
        None => 0,
    }
}

/// The cost of a call, without what the variable costs that keeps its result.
pub fn call_cost(
    planned: &Seated<'_>,
    kept: &Kept<'_>,
    weight: u64,
    host: HostId,
    method: MethodId,
    args: &[Expr],
    into: Option<VarId>,
) -> u64
    requires { IsCostKept (seated_shape planned.now) kept.now }
    ensures { result ≡ capped (cost_of planned.now.hosts.now (call_terms (seated_shape planned.now) weight host
        (method_at (program_tree planned.now.program.now) method) (map expr_tree args.now) into)) }
{
    let home = called_home(planned, method);
    let end = called_end(planned, kept.ends, method);
    let given = argument_cost(
        planned,
        kept,
        weight,
        host,
        home,
        params_of(planned.program, method),
        args,
    );
    given
        .saturating_add(message(planned.hosts, weight, host, home))
        .saturating_add(message(planned.hosts, weight, end, host))
        .saturating_add(result_cost(planned, weight, host, end, into))
}
