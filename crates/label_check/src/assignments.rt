//! Assignments and returns.

ghost use Rattle.std.specs.Prelude.{◌≡◌, ◌++◌, [], ◌∷◌, OnOk, IfErr};
ghost use Rattle.principals.specs.ActsFor.{Declared, AreDeclared};
ghost use Rattle.jif_tree.specs.Trees.{expr_tree, program_tree};
ghost use Rattle.jif_tree.specs.LabelRules.{expr_constraints, expr_label, flow_of, variable_label, field_label};
ghost use Rattle.jif_tree.specs.LabelRules.{labels_after_assignment, return_flows};
ghost use Rattle.label_lattice.specs.Lattice.{join_of};
ghost use Rattle.label_check.specs.Parts.{asked, AreMet, RefusesFor};
ghost use Rattle.label_check.specs.Places.{setting_at};

use crate::CheckError;
use crate::constraints::ask_flow;
use crate::expressions::expr_label;
use crate::place::Place;
use crate::variables::{assign_label, variable_label};
use jif_tree::{Expr, field_label};
use js_base::{FieldId, StmtId, VarId};
use label_lattice::Label;

/// Checks an assignment to a variable, which takes the label of the value where it has none yet.
pub fn assign_variable(
    place: &Place<'_>,
    statement: StmtId,
    pc: &Label,
    labels: &mut Vec<Option<Label>>,
    var: VarId,
    value: &Expr,
) -> Result<(), CheckError>
    requires { AreDeclared place.now.principals.now place.now.method.now.authority.items }
    ensures labels { OnOk result (
        let from = expr_label (setting_at place.now) pc.now labels.old.items (expr_tree value.now) in
        labels.new.items ≡ labels_after_assignment labels.old.items var (join_of from pc.now)) }
    ensures ok { OnOk result (
        let from = expr_label (setting_at place.now) pc.now labels.old.items (expr_tree value.now) in
        let after = labels_after_assignment labels.old.items var (join_of from pc.now) in
        AreMet place.now.principals.now
        (asked statement (expr_constraints (setting_at place.now) pc.now labels.old.items (expr_tree value.now)
        ++ flow_of pc.now from (variable_label after var) ∷ []))) }
    ensures err { IfErr result (
        let from = expr_label (setting_at place.now) pc.now labels.old.items (expr_tree value.now) in
        let after = labels_after_assignment labels.old.items var (join_of from pc.now) in
        RefusesFor place.now.principals.now
        (asked statement (expr_constraints (setting_at place.now) pc.now labels.old.items (expr_tree value.now)
        ++ flow_of pc.now from (variable_label after var) ∷ []))) }
{
    let from = expr_label(place, statement, pc, labels, value)?;
    assign_label(labels, var, from.join(*pc));
    ask_flow(statement, pc, &from, &variable_label(labels, var))
}

/// Checks an assignment to a plain field.
pub fn assign_field(
    place: &Place<'_>,
    statement: StmtId,
    pc: &Label,
    labels: &[Option<Label>],
    field: FieldId,
    value: &Expr,
) -> Result<(), CheckError>
    requires { AreDeclared place.now.principals.now place.now.method.now.authority.items }
    ensures ok { OnOk result (AreMet place.now.principals.now
        (asked statement (expr_constraints (setting_at place.now) pc.now labels.now (expr_tree value.now)
        ++ flow_of pc.now (expr_label (setting_at place.now) pc.now labels.now (expr_tree value.now))
        (field_label (program_tree place.now.program.now) field) ∷ []))) }
    ensures err { IfErr result (RefusesFor place.now.principals.now
        (asked statement (expr_constraints (setting_at place.now) pc.now labels.now (expr_tree value.now)
        ++ flow_of pc.now (expr_label (setting_at place.now) pc.now labels.now (expr_tree value.now))
        (field_label (program_tree place.now.program.now) field) ∷ []))) }
{
    let from = expr_label(place, statement, pc, labels, value)?;
    ask_flow(statement, pc, &from, &field_label(place.program, field))
}

/// Checks an assignment to an element of an array. The place in the array tells of the index.
pub fn assign_element(
    place: &Place<'_>,
    statement: StmtId,
    pc: &Label,
    labels: &[Option<Label>],
    field: FieldId,
    index: &Expr,
    value: &Expr,
) -> Result<(), CheckError>
    requires { AreDeclared place.now.principals.now place.now.method.now.authority.items }
    ensures ok { OnOk result (
        let setting = setting_at place.now in
        AreMet place.now.principals.now
        (asked statement (expr_constraints setting pc.now labels.now (expr_tree index.now)
        ++ expr_constraints setting pc.now labels.now (expr_tree value.now)
        ++ flow_of pc.now (join_of (expr_label setting pc.now labels.now (expr_tree index.now))
        (expr_label setting pc.now labels.now (expr_tree value.now)))
        (field_label (program_tree place.now.program.now) field) ∷ []))) }
    ensures err { IfErr result (
        let setting = setting_at place.now in
        RefusesFor place.now.principals.now
        (asked statement (expr_constraints setting pc.now labels.now (expr_tree index.now)
        ++ expr_constraints setting pc.now labels.now (expr_tree value.now)
        ++ flow_of pc.now (join_of (expr_label setting pc.now labels.now (expr_tree index.now))
        (expr_label setting pc.now labels.now (expr_tree value.now)))
        (field_label (program_tree place.now.program.now) field) ∷ []))) }
{
    let at = expr_label(place, statement, pc, labels, index)?;
    let from = expr_label(place, statement, pc, labels, value)?;
    ask_flow(
        statement,
        pc,
        &at.join(from),
        &field_label(place.program, field),
    )
}

/// Checks what a method gives back.
pub fn give_back(
    place: &Place<'_>,
    statement: StmtId,
    pc: &Label,
    labels: &[Option<Label>],
    value: &Expr,
) -> Result<(), CheckError>
    requires { AreDeclared place.now.principals.now place.now.method.now.authority.items }
    ensures ok { OnOk result (
        let setting = setting_at place.now in
        AreMet place.now.principals.now
        (asked statement (expr_constraints setting pc.now labels.now (expr_tree value.now)
        ++ return_flows pc.now labels.now setting.result
        (expr_label setting pc.now labels.now (expr_tree value.now))))) }
    ensures err { IfErr result (
        let setting = setting_at place.now in
        RefusesFor place.now.principals.now
        (asked statement (expr_constraints setting pc.now labels.now (expr_tree value.now)
        ++ return_flows pc.now labels.now setting.result
        (expr_label setting pc.now labels.now (expr_tree value.now))))) }
{
    let from = expr_label(place, statement, pc, labels, value)?;
    return_flow(statement, pc, labels, place.method.result, &from)
}

/// What a method gives back flows to its result.
fn return_flow(
    statement: StmtId,
    pc: &Label,
    labels: &[Option<Label>],
    result_var: Option<VarId>,
    from: &Label,
) -> Result<(), CheckError>
    ensures ok { OnOk result ((principals : Declared) →
        AreMet principals (asked statement (return_flows pc.now labels.now result_var from.now))) }
    ensures err { IfErr result (λ why. (principals : Declared) →
        RefusesFor principals (asked statement (return_flows pc.now labels.now result_var from.now)) why) }
{
    match result_var {
        None => Ok(()),
        Some(var) => ask_flow(statement, pc, from, &variable_label(labels, var)),
    }
}
