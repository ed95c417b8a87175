//! What is asked of labels, one test for each kind of constraint.

ghost use Rattle.std.specs.Prelude.{OnOk, IfErr, [], ◌∷◌};
ghost use Rattle.principals.specs.ActsFor.{Declared, AreDeclared};
ghost use Rattle.jif_tree.specs.LabelRules.{flow_of, may_begin, may_release, trusted, may_endorse};
ghost use Rattle.label_check.specs.Parts.{asked, AreMet, RefusesFor};

use crate::CheckError;
use crate::permissions::{is_trusted, may_endorse, may_release};
use js_base::{PrincipalId, StmtId};
use label_lattice::Label;
use principals::Principals;

/// A value of the label `from`, joined with the program label, flows to a place of the label `to`.
pub fn ask_flow(statement: StmtId, pc: &Label, from: &Label, to: &Label) -> Result<(), CheckError>
    ensures ok { OnOk result ((principals : Declared) →
        AreMet principals (asked statement (flow_of pc.now from.now to.now ∷ []))) }
    ensures err { IfErr result (λ why. (principals : Declared) →
        RefusesFor principals (asked statement (flow_of pc.now from.now to.now ∷ [])) why) }
{
    let joined = from.join(*pc);
    if joined.conf_flows(to) && joined.integ_flows(to) {
        Ok(())
    } else {
        Err(CheckError::BadFlow(statement, joined, *to))
    }
}

/// A method that begins under a label is called under this program label.
pub fn ask_begin(statement: StmtId, pc: &Label, begin: &Label) -> Result<(), CheckError>
    ensures ok { OnOk result ((principals : Declared) →
        AreMet principals (asked statement (may_begin pc.now begin.now ∷ []))) }
    ensures err { IfErr result (λ why. (principals : Declared) →
        RefusesFor principals (asked statement (may_begin pc.now begin.now ∷ [])) why) }
{
    if pc.conf_flows(begin) && pc.integ_flows(begin) {
        Ok(())
    } else {
        Err(CheckError::BadBegin(statement, *pc, *begin))
    }
}

/// These release a value of the label `from` as one of the label `to`, under this program label.
pub fn ask_release(
    principals: &Principals,
    authority: &[PrincipalId],
    statement: StmtId,
    pc: &Label,
    from: &Label,
    to: &Label,
) -> Result<(), CheckError>
    requires { AreDeclared principals.now authority.now }
    ensures ok { OnOk result (AreMet principals.now
        (asked statement (may_release authority.now from.now to.now ∷ trusted authority.now pc.now ∷ []))) }
    ensures err { IfErr result (RefusesFor principals.now
        (asked statement (may_release authority.now from.now to.now ∷ trusted authority.now pc.now ∷ []))) }
{
    if !may_release(principals, authority, from, to) {
        return Err(CheckError::NoAuthority(statement));
    }
    if !is_trusted(principals, authority, pc) {
        return Err(CheckError::WeakProgramLabel(statement));
    }
    Ok(())
}

/// These endorse a value of the label `from` as one of the label `to`.
pub fn ask_endorse(
    principals: &Principals,
    authority: &[PrincipalId],
    statement: StmtId,
    from: &Label,
    to: &Label,
) -> Result<(), CheckError>
    requires { AreDeclared principals.now authority.now }
    ensures ok { OnOk result (AreMet principals.now
        (asked statement (may_endorse authority.now from.now to.now ∷ []))) }
    ensures err { IfErr result (RefusesFor principals.now
        (asked statement (may_endorse authority.now from.now to.now ∷ []))) }
{
    if may_endorse(principals, authority, from, to) {
        Ok(())
    } else {
        Err(CheckError::NoAuthority(statement))
    }
}
