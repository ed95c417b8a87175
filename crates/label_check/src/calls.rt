//! Calls of methods.

ghost use Rattle.std.specs.Prelude.{◌≡◌, ◌++◌, map, OnOk, IfOk, IfErr};
ghost use Rattle.std.specs.List.{flat_map};
ghost use Rattle.principals.specs.ActsFor.{Declared, AreDeclared};
ghost use Rattle.jif_tree.specs.Trees.{expr_tree};
ghost use Rattle.jif_tree.specs.LabelRules.{expr_constraints, expr_label, call_constraints, result_flows};
ghost use Rattle.jif_tree.specs.LabelRules.{method_at};
ghost use Rattle.label_check.specs.Parts.{asked, AreMet, RefusesFor, flows_to_params};
ghost use Rattle.label_check.specs.Places.{setting_at};

use crate::CheckError;
use crate::constraints::{ask_begin, ask_flow};
use crate::expressions::expr_label;
use crate::place::Place;
use crate::variables::variable_label;
use jif_tree::{Expr, begin_label, params_of, result_of};
use js_base::{MethodId, StmtId, VarId};
use label_lattice::Label;
use std::alloc::Global;

/// The labels of the arguments of a call, which are checked.
fn argument_labels(
    alloc: Global,
    place: &Place<'_>,
    statement: StmtId,
    pc: &Label,
    labels: &[Option<Label>],
    args: &[Expr],
) -> Result<Vec<Label>, CheckError>
    requires { AreDeclared place.now.principals.now place.now.method.now.authority.items }
    ensures labels { IfOk result (λ found. found.items
        ≡ map (expr_label (setting_at place.now) pc.now labels.now) (map expr_tree args.now)) }
    ensures ok { OnOk result (AreMet place.now.principals.now
        (asked statement (flat_map (expr_constraints (setting_at place.now) pc.now labels.now)
        (map expr_tree args.now)))) }
    ensures err { IfErr result (RefusesFor place.now.principals.now
        (asked statement (flat_map (expr_constraints (setting_at place.now) pc.now labels.now)
        (map expr_tree args.now)))) }
{
    let mut found = Vec::new(alloc);
    for arg in args {
        found.push(expr_label(place, statement, pc, labels, arg)?)?;
    }
    Ok(found)
}

/// Values of these labels flow to the parameters.
fn argument_flows(
    statement: StmtId,
    pc: &Label,
    labels: &[Option<Label>],
    from: &[Label],
    params: &[VarId],
) -> Result<(), CheckError>
    ensures ok { OnOk result ((principals : Declared) →
        AreMet principals (asked statement (flows_to_params pc.now labels.now from.now params.now))) }
    ensures err { IfErr result (λ why. (principals : Declared) →
        RefusesFor principals (asked statement (flows_to_params pc.now labels.now from.now params.now)) why) }
{
    let mut left = params;
    let mut given = from;
    'flowing: while let [param, more @ ..] = left {
        let [label, others @ ..] = given else {
            return Ok(());
        };
        ask_flow(statement, pc, label, &variable_label(labels, *param))?;
        left = more;
        given = others;
    }
    Ok(())
}

/// The result of a method flows to the variable that keeps it.
fn result_flow(
    statement: StmtId,
    pc: &Label,
    labels: &[Option<Label>],
    returned: Option<VarId>,
    into: Option<VarId>,
) -> Result<(), CheckError>
    ensures ok { OnOk result ((principals : Declared) →
        AreMet principals (asked statement (result_flows pc.now labels.now returned into))) }
    ensures err { IfErr result (λ why. (principals : Declared) →
        RefusesFor principals (asked statement (result_flows pc.now labels.now returned into)) why) }
{
    match (returned, into) {
        (Some(returned), Some(into)) => ask_flow(
            statement,
            pc,
            &variable_label(labels, returned),
            &variable_label(labels, into),
        ),
        _ => Ok(()),
    }
}

/// Checks a call: its arguments, then the begin label of the method, then the flows of the arguments and of the result.
pub fn check_call(
    alloc: Global,
    place: &Place<'_>,
    statement: StmtId,
    pc: &Label,
    labels: &[Option<Label>],
    method: MethodId,
    args: &[Expr],
    into: Option<VarId>,
) -> Result<(), CheckError>
    requires { AreDeclared place.now.principals.now place.now.method.now.authority.items }
    ensures ok { OnOk result (
        let setting = setting_at place.now in
        let trees = map expr_tree args.now in
        AreMet place.now.principals.now
        (asked statement (flat_map (expr_constraints setting pc.now labels.now) trees
        ++ call_constraints setting pc.now labels.now (method_at setting.program method) trees into))) }
    ensures err { IfErr result (
        let setting = setting_at place.now in
        let trees = map expr_tree args.now in
        RefusesFor place.now.principals.now
        (asked statement (flat_map (expr_constraints setting pc.now labels.now) trees
        ++ call_constraints setting pc.now labels.now (method_at setting.program method) trees into))) }
{
    let from = argument_labels(alloc, place, statement, pc, labels, args)?;
    ask_begin(statement, pc, &begin_label(place.program, method))?;
    argument_flows(
        statement,
        pc,
        labels,
        &from,
        params_of(place.program, method),
    )?;
    result_flow(
        statement,
        pc,
        labels,
        result_of(place.program, method),
        into,
    )
}
