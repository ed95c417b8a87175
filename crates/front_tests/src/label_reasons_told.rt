//! Why labels are refused, as values.
//!
//! What is told was worked out by hand from the rules: the statement, and each reason as an owner and a reader, or a
//! principal, its source and what it came through.

use crate::placed_programs::{hosts_of, resolved};
use js_base::limits::VARIABLES;
use js_base::{FieldId, StmtId, VarId};
use label_reasons::{Cause, Reason, Refusal, Source, Trait, Via, Wanted, label_refusal};
use std::alloc::Global;
use std::process::Abort;
use std::test::Fail;

/// Alice and Bob, and two whom each of them trusts.
const FOUR: &str = "principals = [\"Alice\", \"Bob\", \"Vault\", \"Purse\"]\n\
    [[host]]\nname = \"A\"\nlabel = \"{}\"\n";

/// Two secrets meet, and nobody releases the answer.
const UNRELEASED: &str =
    "int{Alice:; ?: Alice, Vault} reserve; int{Bob:; ?: Bob, Purse} offer; int{?: Alice, Bob} deal;\n\
    void main{?: Alice, Bob}() where authority(Alice, Bob) {\n\
    int r = endorse(reserve, {?: Alice, Bob});\n\
    int o = endorse(offer, {?: Alice, Bob});\n\
    deal = o >= r; }";

/// A guard tells a secret.
const GUARDED: &str = "int{Alice:} a; int{} q; void main{}() { if (a) { q = 1; } }";

/// Nothing is refused.
const ACCEPTED: &str = "int{Alice:} a; void main{}() { if (a) { int x = 1; } }";

/// A reason: a pair, the field that is its source, and what it came through.
fn pair(owner: u8, reader: u8, field: u32, via: Via) -> Reason {
    Reason {
        held: Trait::Keeps(owner, reader),
        cause: Cause {
            source: Source::OfField(FieldId(field)),
            via,
        },
    }
}

/// Why the labels of a text are refused, among four principals.
fn refusal_of(rt: &impl Abort, alloc: Global, text: &str) -> Result<Option<Refusal>, Fail> {
    let hosts = hosts_of(alloc, FOUR)?;
    let program = resolved(alloc, text, hosts.principals())?;
    assert!(rt; program.vars.len() <= VARIABLES);
    Ok(label_refusal(alloc, &program, hosts.principals())?)
}

#[test]
fn a_refused_statement_has_its_reasons(rt: HostRuntime) -> Result<(), Fail> {
    let alloc = rt.alloc();
    let told = refusal_of(&rt, alloc, UNRELEASED)?.expect(&rt, "refused");
    assert!(rt; told.statement == StmtId(3));
    assert!(rt; told.wanted == Wanted::KeptInField(FieldId(2)));
    let by_r = Via::ByLocal(VarId(0), StmtId(1));
    let by_o = Via::ByLocal(VarId(1), StmtId(2));
    let wanted = [
        pair(0, 1, 0, by_r),
        pair(0, 2, 0, by_r),
        pair(0, 3, 0, by_r),
        pair(1, 0, 1, by_o),
        pair(1, 2, 1, by_o),
        pair(1, 3, 1, by_o),
    ];
    assert!(rt; told.reasons.as_slice() == wanted.as_slice());
    Ok(())
}

#[test]
fn a_guard_is_what_it_came_through(rt: HostRuntime) -> Result<(), Fail> {
    let alloc = rt.alloc();
    let told = refusal_of(&rt, alloc, GUARDED)?.expect(&rt, "refused");
    assert!(rt; told.statement == StmtId(2));
    assert!(rt; told.wanted == Wanted::KeptInField(FieldId(1)));
    let by_guard = Via::ByGuard(StmtId(1));
    let wanted = [
        pair(0, 1, 0, by_guard),
        pair(0, 2, 0, by_guard),
        pair(0, 3, 0, by_guard),
    ];
    assert!(rt; told.reasons.as_slice() == wanted.as_slice());
    Ok(())
}

#[test]
fn what_is_accepted_is_not_refused(rt: HostRuntime) -> Result<(), Fail> {
    let alloc = rt.alloc();
    assert!(rt; refusal_of(&rt, alloc, ACCEPTED)?.is_none());
    Ok(())
}
