//! What labels forbid and who trusts them, and the labels that texts are.
//!
//! Labels are written as texts, and told as they are printed, where an owner is a reader of its own policy.

use crate::placed_programs::hosts_of;
use crate::tables::{column, word};
use jif_lex::lex;
use label_lattice::{Label, label_text, read_label};
use principals::Principals;
use std::alloc::Global;
use std::process::Abort;
use std::test::Fail;

/// Alice, Bob and Carol, of whom nobody acts for another.
const APART: &str = "principals = [\"Alice\", \"Bob\", \"Carol\"]\n\
    [[host]]\nname = \"A\"\nlabel = \"{}\"\n";

/// They, where Alice acts for Bob.
const JOINT: &str = "principals = [\"Alice\", \"Bob\", \"Carol\"]\n\
    acts_for = [[\"Alice\", \"Bob\"]]\n\
    [[host]]\nname = \"A\"\nlabel = \"{}\"\n";

/// They, where Alice and Carol act for Bob.
const BOTH: &str = "principals = [\"Alice\", \"Bob\", \"Carol\"]\n\
    acts_for = [[\"Alice\", \"Bob\"], [\"Carol\", \"Bob\"]]\n\
    [[host]]\nname = \"A\"\nlabel = \"{}\"\n";

/// What an operation makes of a label, with another label or with names, where nobody acts for another. A policy has
/// its owner and then its readers. Bob may read by one policy of Alice alone, and Carol by another alone, so that by
/// both neither may.
const LABELS_APART: &str = "\
    read | {} | - | {}\n\
    read | { Alice : } | - | {Alice: Alice}\n\
    read | {Alice: Bob, Carol} | - | {Alice: Alice, Bob, Carol}\n\
    read | {Alice:; Bob: Carol} | - | {Alice: Alice; Bob: Bob, Carol}\n\
    read | {?:} | - | {}\n\
    read | {?: Bob, Carol} | - | {?: Bob, Carol}\n\
    read | {Alice:; ?: Bob} | - | {Alice: Alice; ?: Bob}\n\
    bottom | {} | - | {?: Alice, Bob, Carol}\n\
    policy | {} | Alice | {Alice: Alice}\n\
    policy | {} | Bob | {Bob: Bob}\n\
    policy | {} | Alice Bob | {Alice: Alice, Bob}\n\
    policy | {} | Alice Carol | {Alice: Alice, Carol}\n\
    policy | {} | Alice Bob Carol | {Alice: Alice, Bob, Carol}\n\
    policy | {} | Carol Bob | {Carol: Bob, Carol}\n\
    policy | {Alice:} | Bob Carol | {Alice: Alice; Bob: Bob, Carol}\n\
    policy | {Alice: Bob} | Alice Carol | {Alice: Alice}\n\
    policy | {Carol: Bob} | Alice Carol | {Alice: Alice, Carol; Carol: Bob, Carol}\n\
    join | {Alice: Bob} | {Alice: Carol} | {Alice: Alice}\n\
    trust | {} | Bob Carol | {?: Bob, Carol}\n\
    trust | {Alice:} | Alice | {Alice: Alice; ?: Alice}\n\
    trust | {Alice:} | Bob | {Alice: Alice; ?: Bob}\n\
    trust | {Alice:} | Carol Bob | {Alice: Alice; ?: Bob, Carol}";

/// The same where Alice acts for Bob: her policy forbids on his behalf too, she may read what is his, and she trusts
/// for herself and for him. The join of two labels is trusted by who trusts both, and the meet by who trusts one.
const LABELS_JOINT: &str = "\
    bottom | {} | - | {?: Alice, Bob, Carol}\n\
    policy | {} | Alice | {Alice: Alice; Bob: Alice}\n\
    policy | {} | Bob | {Bob: Alice, Bob}\n\
    policy | {} | Bob Alice | {Bob: Alice, Bob}\n\
    policy | {} | Bob Bob Carol | {Bob: Alice, Bob, Carol}\n\
    policy | {Alice:} | Bob | {Alice: Alice; Bob: Alice}\n\
    trust | {} | Alice | {?: Alice, Bob}\n\
    trust | {} | Carol | {?: Carol}\n\
    trust | {} | Alice Carol | {?: Alice, Bob, Carol}\n\
    trust | {Bob:} | Alice | {Bob: Alice, Bob; ?: Alice, Bob}\n\
    trust | {Bob:} | Bob Alice | {Bob: Alice, Bob; ?: Alice, Bob}\n\
    join | {Bob:; ?: Alice} | {?: Alice, Carol} | {Bob: Alice, Bob; ?: Alice, Bob}\n\
    join | {Bob:; ?: Alice} | {?: Carol} | {Bob: Alice, Bob}\n\
    meet | {Bob:; ?: Alice} | {?: Carol} | {Bob: Alice, Bob; ?: Alice, Bob, Carol}\n\
    meet | {Bob:} | {?: Alice, Carol} | {Bob: Alice, Bob; ?: Alice, Bob, Carol}";

/// To a label of Alice's and Carol's, who both act for Bob, he is forbidden by both, and between them they allow him
/// nobody.
const LABELS_BOTH: &str = "policy | {Alice:} | Carol | {Alice: Alice; Bob: ; Carol: Carol}";

/// Whether the confidentiality of a label may flow to that of another, and whether its integrity may, where nobody acts
/// for another.
const FLOWS_APART: &str = "\
    {Alice: Bob} | {Alice:} | true true\n\
    {Alice:} | {Alice: Bob} | false true\n\
    {Alice: Bob} | {Alice: Carol} | false true\n\
    {Bob:} | {Alice:} | false true";

/// The same where Alice acts for Bob.
const FLOWS_JOINT: &str = "\
    {Bob:} | {Alice:} | true true\n\
    {Alice:} | {Bob:} | false true\n\
    {?: Alice, Carol} | {Bob:; ?: Alice} | true true\n\
    {Bob:; ?: Alice} | {Bob:} | true true\n\
    {Bob:} | {Bob:; ?: Alice} | true false";

/// Texts that are no labels. The first is empty.
const NO_LABELS: &str = "\n\
    {\n\
    }\n\
    Alice:\n\
    {Alice}\n\
    {:}\n\
    {;}\n\
    {Alice:;}\n\
    {;Alice:}\n\
    {Alice:,}\n\
    {Alice: Bob,}\n\
    {Alice: Bob Carol}\n\
    {Alice: Bob; Carol}\n\
    {Dave:}\n\
    {Alice: Dave}\n\
    {?: Dave}\n\
    {?}\n\
    {?: Bob; Alice:}\n\
    {?:; ?:}\n\
    {Alice: 1}\n\
    {int:}\n\
    {}{}\n\
    {{}}";

/// The label of a text.
fn label_of(alloc: Global, text: &str, principals: &Principals) -> Result<Option<Label>, Fail> {
    let tokens = lex(alloc, text.as_bytes())?;
    Ok(read_label(alloc, &tokens, principals)?)
}

/// The label of a text that is one.
fn sure_label(alloc: Global, text: &str, principals: &Principals) -> Result<Label, Fail> {
    match label_of(alloc, text, principals)? {
        Some(label) => Ok(label),
        None => Err(Fail::new("no label")),
    }
}

/// The label with a policy of the first name for the second and the third, which may be missing.
fn with_policy(label: Label, names: &str, principals: &Principals) -> Option<Label> {
    let owner = principals.find(word(names, 0))?;
    let Some(first) = principals.find(word(names, 1)) else {
        return Some(label.with_policy(principals, owner, &[]));
    };
    match principals.find(word(names, 2)) {
        Some(second) => Some(label.with_policy(principals, owner, &[first, second])),
        None => Some(label.with_policy(principals, owner, &[first])),
    }
}

/// The label where the first name trusts it too, and the second, which may be missing.
fn with_trust(label: Label, names: &str, principals: &Principals) -> Option<Label> {
    let first = principals.find(word(names, 0))?;
    match principals.find(word(names, 1)) {
        Some(second) => Some(label.with_trust(principals, &[first, second])),
        None => Some(label.with_trust(principals, &[first])),
    }
}

/// What an operation makes of a label and of what stands beside it.
fn made(
    alloc: Global,
    operation: &str,
    label: Label,
    other: &str,
    principals: &Principals,
) -> Result<Option<Label>, Fail> {
    match operation {
        "read" => Ok(Some(label)),
        "bottom" => Ok(Some(Label::bottom(principals))),
        "policy" => Ok(with_policy(label, other, principals)),
        "trust" => Ok(with_trust(label, other, principals)),
        "join" => Ok(Some(label.join(sure_label(alloc, other, principals)?))),
        "meet" => Ok(Some(label.meet_integrity(sure_label(alloc, other, principals)?))),
        _ => Ok(None),
    }
}

/// Each row makes its label, which is printed as its text, and is read from it again.
fn assert_labels(rt: &impl Abort, alloc: Global, hosts: &str, table: &str) -> Result<(), Fail> {
    let hosts = hosts_of(alloc, hosts)?;
    let principals = hosts.principals();
    for row in table.lines() {
        let label = sure_label(alloc, column(row, 1), principals)?;
        let made = made(alloc, column(row, 0), label, column(row, 2), principals)?;
        assert_printed(rt, alloc, made, column(row, 3), principals)?;
    }
    Ok(())
}

/// The label is there, is printed as the text, and is read from it again.
fn assert_printed(
    rt: &impl Abort,
    alloc: Global,
    made: Option<Label>,
    text: &str,
    principals: &Principals,
) -> Result<(), Fail> {
    let printed = match &made {
        Some(label) => label_text(alloc, label, principals)?,
        None => String::new(alloc),
    };
    assert_eq!(rt; printed.as_str(), text);
    assert_eq!(rt; label_of(alloc, text, principals)?, made);
    Ok(())
}

/// Each label may flow to the other as its row says.
fn assert_flows(rt: &impl Abort, alloc: Global, hosts: &str, table: &str) -> Result<(), Fail> {
    let hosts = hosts_of(alloc, hosts)?;
    for row in table.lines() {
        let from = sure_label(alloc, column(row, 0), hosts.principals())?;
        let to = sure_label(alloc, column(row, 1), hosts.principals())?;
        let told = from.conf_flows(&to);
        let trusted = from.integ_flows(&to);
        let found = format!(in alloc; "{told} {trusted}")?;
        assert_eq!(rt; found.as_str(), column(row, 2), "at {row}");
    }
    Ok(())
}

#[test]
fn makes_and_prints_labels(rt: HostRuntime) -> Result<(), Fail> {
    let alloc = rt.alloc();
    assert_labels(&rt, alloc, APART, LABELS_APART)?;
    assert_labels(&rt, alloc, JOINT, LABELS_JOINT)?;
    assert_labels(&rt, alloc, BOTH, LABELS_BOTH)
}

#[test]
fn knows_what_may_flow(rt: HostRuntime) -> Result<(), Fail> {
    let alloc = rt.alloc();
    assert_flows(&rt, alloc, APART, FLOWS_APART)?;
    assert_flows(&rt, alloc, JOINT, FLOWS_JOINT)
}

#[test]
fn refuses_what_is_not_a_label(rt: HostRuntime) -> Result<(), Fail> {
    let alloc = rt.alloc();
    let hosts = hosts_of(alloc, APART)?;
    for text in NO_LABELS.lines() {
        assert_eq!(rt;
            label_of(alloc, text, hosts.principals())?,
            None,
            "in {text}"
        );
    }
    Ok(())
}
