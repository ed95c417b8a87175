//! The guards of branches and loops.

ghost use Rattle.std.specs.Prelude.{◌≡◌, ◌++◌, [], ◌∷◌, OnOk, IfOk, IfErr};
ghost use Rattle.principals.specs.ActsFor.{AreDeclared};
ghost use Rattle.jif_tree.specs.Trees.{expr_tree};
ghost use Rattle.jif_tree.specs.LabelRules.{expr_constraints, guarded};
ghost use Rattle.label_check.specs.Parts.{asked, AreMet, RefusesFor};
ghost use Rattle.label_check.specs.Places.{setting_at};

use crate::CheckError;
use crate::expressions::expr_label;
use crate::place::Place;
use jif_tree::Expr;
use js_base::StmtId;
use label_lattice::Label;

/// Checks the guard of a branch, and adds the program label of the branch. Answers the program label inside.
pub fn enter_branch(
    place: &Place<'_>,
    statement: StmtId,
    pc: &Label,
    labels: &[Option<Label>],
    guard: &Expr,
    pcs: &mut Vec<Label>,
) -> Result<Label, CheckError>
    requires { AreDeclared place.now.principals.now place.now.method.now.authority.items }
    ensures pcs { OnOk result (pcs.new.items ≡ pcs.old.items ++ pc.now ∷ []) }
    ensures label { IfOk result (λ label.
        label ≡ guarded (setting_at place.now) pc.now labels.now (expr_tree guard.now)) }
    ensures ok { OnOk result (AreMet place.now.principals.now
        (asked statement (expr_constraints (setting_at place.now) pc.now labels.now (expr_tree guard.now)))) }
    ensures err { IfErr result (RefusesFor place.now.principals.now
        (asked statement (expr_constraints (setting_at place.now) pc.now labels.now (expr_tree guard.now)))) }
{
    let from = expr_label(place, statement, pc, labels, guard)?;
    pcs.push(*pc)?;
    Ok(pc.join(from))
}

/// Checks the guard of a loop, under the program label of the loop and under that inside, which is also that of the
/// guard. Adds and answers it.
pub fn enter_loop(
    place: &Place<'_>,
    statement: StmtId,
    pc: &Label,
    labels: &[Option<Label>],
    guard: &Expr,
    pcs: &mut Vec<Label>,
) -> Result<Label, CheckError>
    requires { AreDeclared place.now.principals.now place.now.method.now.authority.items }
    ensures pcs { OnOk result (
        let inside = guarded (setting_at place.now) pc.now labels.now (expr_tree guard.now) in
        pcs.new.items ≡ pcs.old.items ++ inside ∷ []) }
    ensures label { IfOk result (λ label.
        label ≡ guarded (setting_at place.now) pc.now labels.now (expr_tree guard.now)) }
    ensures ok { OnOk result (
        let setting = setting_at place.now in
        let tree = expr_tree guard.now in
        AreMet place.now.principals.now
        (asked statement (expr_constraints setting pc.now labels.now tree
        ++ expr_constraints setting (guarded setting pc.now labels.now tree) labels.now tree))) }
    ensures err { IfErr result (
        let setting = setting_at place.now in
        let tree = expr_tree guard.now in
        RefusesFor place.now.principals.now
        (asked statement (expr_constraints setting pc.now labels.now tree
        ++ expr_constraints setting (guarded setting pc.now labels.now tree) labels.now tree))) }
{
    let from = expr_label(place, statement, pc, labels, guard)?;
    let inside = pc.join(from);
    expr_label(place, statement, &inside, labels, guard)?;
    pcs.push(inside)?;
    Ok(inside)
}
