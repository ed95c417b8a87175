//! What programs need of their hosts. What is expected was worked out by hand.
//!
//! Beside each program stands its needs: what each statement tells, the bits of those who have to trust its host, what
//! the reads of each field tell, and the statements that read each variable.

use crate::placed_programs::{OWN_HOSTS, checked, hosts_of};
use js_base::VarId;
use label_lattice::{Label, label_text};
use need_labels::{Needs, needs_of};
use principals::Principals;
use std::alloc::Global;
use std::process::Abort;
use std::test::Fail;

/// A host that Alice trusts and that sees nothing of hers, and Alice's own, which she does not trust.
const COUNTING_HOSTS: &str = "principals = [\"Alice\"]\n\
    [[host]]\nname = \"T\"\nlabel = \"{?: Alice}\"\n\
    [[host]]\nname = \"A\"\nlabel = \"{Alice:}\"\n";

/// Adds up the numbers of a counter that Alice has to trust, in a sum that only she may see.
const SUMMING: &str = "int{?: Alice} n;\n\
    int{Alice:} s;\n\
    void main{?: Alice}() {\n\
    while (n < 4) {\n\
    s = s + n;\n\
    n = n + 1;\n\
    }\n\
    }\n";

const SUMMING_NEEDS: &str = "\
    used: {?: Alice} {?: Alice} {Alice: Alice} {?: Alice}\n\
    need: [1, 1, 0, 1]\n\
    loc: {?: Alice} {?: Alice}\n\
    readers:\n";

/// A host that Alice trusts, and Bob's own.
const TRUSTED_AND_BOBS: &str = "principals = [\"Alice\", \"Bob\"]\n\
    [[host]]\nname = \"T\"\nlabel = \"{?: Alice}\"\n\
    [[host]]\nname = \"B\"\nlabel = \"{Bob:}\"\n";

/// A method is given a number that Alice trusts, and adds it to a field that only Bob may see.
const GIVING_A_NUMBER: &str = "int{Bob:} b;\n\
    void add{}(int{?: Alice} n) {\n\
    b = b + n;\n\
    }\n\
    void main{?: Alice}() {\n\
    add(7);\n\
    }\n";

/// The one variable is n, which statement 1 reads.
const GIVING_NEEDS: &str = "\
    used: {} {Bob: Bob} {?: Alice} {}\n\
    need: [0, 0, 1, 1]\n\
    loc: {}\n\
    readers: [StmtId(1)]\n";

/// Both principals, each with a trusted host of their own, one that sees the secrets of both and that Alice trusts, and
/// one that sees them and that nobody trusts.
const TRANSFER_HOSTS: &str = "principals = [\"Alice\", \"Bob\"]\n\
    [[host]]\nname = \"A\"\nlabel = \"{Alice:; ?: Alice}\"\n\
    [[host]]\nname = \"B\"\nlabel = \"{Bob:; ?: Bob}\"\n\
    [[host]]\nname = \"T\"\nlabel = \"{Alice:; Bob:; ?: Alice}\"\n\
    [[host]]\nname = \"S\"\nlabel = \"{Alice:; Bob:}\"\n";

/// Bob picks one of Alice's two numbers and learns it alone, and Alice does not learn which.
const TRANSFER: &str = "int{Alice:; ?: Alice} m1 = 11;\n\
    int{Alice:; ?: Alice} m2 = 22;\n\
    int{?: Alice} used;\n\
    int{Bob:} pick = 1;\n\
    int{Bob:} got;\n\
    void main{?: Alice}() where authority(Alice) {\n\
    int t1 = m1;\n\
    int t2 = m2;\n\
    int c = endorse(pick, {?: Alice});\n\
    if (used == 0) {\n\
    used = 1;\n\
    if (c == 1) { got = declassify(t1, {Bob:}); }\n\
    else { got = declassify(t2, {Bob:}); }\n\
    }\n\
    }\n";

/// The parts of what is released or endorsed count with their own labels. What nobody reads tells nothing.
const TRANSFER_NEEDS: &str = "\
    used: {?: Alice} {Alice: Alice; ?: Alice} {Alice: Alice; ?: Alice} {Bob: Bob} {?: Alice} {?: Alice} \
    {Bob: Bob; ?: Alice} {Alice: Alice; Bob: Bob; ?: Alice} {Alice: Alice; Bob: Bob; ?: Alice}\n\
    need: [1, 1, 1, 1, 1, 1, 1, 1, 1]\n\
    loc: {?: Alice} {?: Alice} {?: Alice} {?: Alice} {?: Alice, Bob}\n\
    readers: [StmtId(7)] [StmtId(8)] [StmtId(6)]\n";

/// A read of an array tells its host the index, and what is written tells it nothing. A statement is a reader once.
const READING_AN_ARRAY: &str = "int{Alice:} i; int{Alice:} t[3]; int{Alice:} w[3]; \
    void main{}() { int x = t[i]; w[x] = x; t[1] = w[1]; }";

const ARRAY_NEEDS: &str = "\
    used: {} {Alice: Alice} {Alice: Alice} {Alice: Alice}\n\
    need: [0, 0, 0, 0]\n\
    loc: {} {Alice: Alice} {}\n\
    readers: [StmtId(2)]\n";

/// A call that keeps a result has its label, and nobody reads the result itself.
const KEEPING_A_RESULT: &str = "int{Alice:; ?: Alice} f{?: Alice}(int{?: Alice} n) { return n; } \
    void main{?: Alice}() { int{Alice:; ?: Alice} x = 0; x = f(1); }";

const RESULT_NEEDS: &str = "\
    used: {?: Alice} {?: Alice} {?: Alice} {?: Alice} {Alice: Alice; ?: Alice}\n\
    need: [1, 1, 1, 1, 1]\n\
    loc:\n\
    readers: [StmtId(1)] [] []\n";

/// A local without a label has that of its value, joined with the program label.
const PLAIN_LOCALS: &str =
    "void m{Alice:}(int{Bob:} x) { int y = x; } void main{}() { int z = 1; }";

const LOCAL_NEEDS: &str = "\
    used: {Alice: Alice} {Alice: Alice; Bob: Bob} {} {}\n\
    need: [0, 0, 0, 0]\n\
    loc:\n\
    readers: [StmtId(1)] [] []\n";

/// The guard of a branch is in the program labels of both blocks, and not behind them.
const BRANCHING: &str = "int{?: Bob} u; int{?: Alice} t; int{Alice:} a; \
    void main{?: Alice}() { if (u) { int x = 1; } else { int y = t; int z = a; } int w = t; }";

const BRANCH_NEEDS: &str = "\
    used: {?: Alice} {} {} {} {Alice: Alice} {?: Alice}\n\
    need: [1, 0, 0, 0, 0, 1]\n\
    loc: {?: Alice} {} {}\n\
    readers: [] [] [] []\n";

/// A line of labels.
fn push_labels(
    text: &mut String,
    alloc: Global,
    principals: &Principals,
    labels: &[Label],
) -> Result<(), Fail> {
    for label in labels {
        text.push_str(" ")?;
        text.push_str(label_text(alloc, label, principals)?.as_str())?;
    }
    Ok(text.push_str("\n")?)
}

/// A line of those who read each variable.
fn push_readers(
    text: &mut String,
    alloc: Global,
    needs: &Needs,
    variables: usize,
) -> Result<(), Fail> {
    for number in 0..variables {
        let readers = needs.readers(VarId(u32::try_from(number)?));
        text.push_str(format!(in alloc; " {readers:?}")?.as_str())?;
    }
    Ok(text.push_str("\n")?)
}

/// The needs in words.
fn needs_text(
    alloc: Global,
    principals: &Principals,
    needs: &Needs,
    variables: usize,
) -> Result<String, Fail> {
    let mut text = String::from_str(alloc, "used:")?;
    push_labels(&mut text, alloc, principals, needs.used())?;
    let bits = needs.need();
    text.push_str(format!(in alloc; "need: {bits:?}\nloc:")?.as_str())?;
    push_labels(&mut text, alloc, principals, needs.loc())?;
    text.push_str("readers:")?;
    push_readers(&mut text, alloc, needs, variables)?;
    Ok(text)
}

/// The program needs this.
fn assert_needs(
    rt: &impl Abort,
    alloc: Global,
    program: &str,
    hosts: &str,
    due: &str,
) -> Result<(), Fail> {
    let hosts = hosts_of(alloc, hosts)?;
    let checked = checked(alloc, program, &hosts)?;
    let needs = needs_of(alloc, &checked, hosts.principals())?;
    let found = needs_text(
        alloc,
        hosts.principals(),
        &needs,
        checked.program.vars.len(),
    )?;
    assert_eq!(rt; found.as_str(), due);
    Ok(())
}

#[test]
fn needs_of_programs(rt: HostRuntime) -> Result<(), Fail> {
    let alloc = rt.alloc();
    assert_needs(&rt, alloc, SUMMING, COUNTING_HOSTS, SUMMING_NEEDS)?;
    assert_needs(&rt, alloc, GIVING_A_NUMBER, TRUSTED_AND_BOBS, GIVING_NEEDS)?;
    assert_needs(&rt, alloc, TRANSFER, TRANSFER_HOSTS, TRANSFER_NEEDS)
}

#[test]
fn needs_of_small_programs(rt: HostRuntime) -> Result<(), Fail> {
    let alloc = rt.alloc();
    assert_needs(&rt, alloc, READING_AN_ARRAY, OWN_HOSTS, ARRAY_NEEDS)?;
    assert_needs(&rt, alloc, KEEPING_A_RESULT, COUNTING_HOSTS, RESULT_NEEDS)?;
    assert_needs(&rt, alloc, PLAIN_LOCALS, OWN_HOSTS, LOCAL_NEEDS)?;
    assert_needs(&rt, alloc, BRANCHING, OWN_HOSTS, BRANCH_NEEDS)
}
