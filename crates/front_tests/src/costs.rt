//! What programs cost under plans that are written out and that no command would choose. What is expected was worked
//! out by hand, and each row says how.
//!
//! A row has a cost, the hosts of the fields, those of the statements, the program, and how the cost comes together.

use crate::placed_programs::{OWN_HOSTS, checked, hosts_of};
use crate::tables::column;
use host_decl::Hosts;
use js_base::{FieldId, HostId, StmtId};
use msg_cost::{Step, cost, delta};
use need_labels::{Plan, needs_of};
use std::alloc::{AllocError, Global};
use std::process::Abort;
use std::test::Fail;

/// Plans where Alice and Bob each have a host.
const OWN_PLANS: &str = "\
    6 | ABBA | AAB | int{Alice:} p; int{Bob:} q; int{} v; int{} w; void main{}() { p = p + v; q = q + w; } \
    | A reads v of B, a question and an answer: 2. A hands the token on to B: 1. B reads w of A: 2. The end of \
    `main` goes from B to A, on which it began: 1.\n\
    4 | ABAA | BAB | int{Alice:} p; int{Bob:} q; int{} v; int{} w; void main{}() { p = p + v; q = q + w; } \
    | `main` begins on B, which hands the token on to A: 1. A hands it on to B: 1. B reads w of A: 2. It ends on B.";

/// Two hosts that anyone may use for what nobody keeps secret. All messages cost 1.
const OPEN_HOSTS: &str = "principals = []\n\
    [[host]]\nname = \"A\"\nlabel = \"{}\"\n\
    [[host]]\nname = \"B\"\nlabel = \"{}\"\n";

/// Plans over the open hosts.
const OPEN_PLANS: &str = "\
    96 | BA | AABA | int{} i; int{} s; void main{}() { while (i < 3) { s = s + i; i = i + 1; } } \
    | All inside the loop counts 8 times, its guard too. A reads i of B for the guard: 2. A hands the token of the \
    body on to B: 1. B reads s of A: 2, and writes it: 2. B hands the token on to A: 1. A reads i of B: 2, and \
    writes it: 2. The body ends on A, which has to have the token. These are 12, and 8 times 12 is 96.\n\
    8 | BAB | AABBA | int{} c; int{} x; int{} y; void main{}() { if (c) { x = 1; } else { y = 1; } x = 2; } \
    | A reads c of B for the guard: 2. The first block goes to B: 1, which writes x on A: 2, and gives the token \
    back to A: 1. The second goes to B and comes back: 2. Behind the branch all stands on A.\n\
    8 | BA | AB | int{} i; int{} t[9]; void main{}() { t[i] = t[t[i]]; } \
    | B reads t of A twice: 4. It writes t of A: 2. The token goes to B and comes back: 2.\n\
    20 | A | BBAAA | int{} r; void more{}() { r = r + 1; } void main{}() { while (r < 2) { more(); } } \
    | The call counts 8 times, since it stands in a loop: to B and back 2, so 16. The body of the method counts \
    once: it reads r of A: 2, and writes it: 2.\n\
    1647760 | B | AAAAAAAAA | int{} i; void main{}() { while (i) { while (i) { while (i) { while (i) { while (i) { \
    while (i) { while (i) { i = 0; } } } } } } } } \
    | The guards read i of B, each inside its loop: twice 8, 64, 512, 4,096, 32,768 and 262,144. Past six loops \
    nothing more is added: twice 262,144 for the seventh guard, and as much for the statement, which writes i on B.";

/// The open hosts, but each message from B to A costs 5.
const SLOW_WAY_BACK: &str = "principals = []\n\
    [[host]]\nname = \"A\"\nlabel = \"{}\"\n\
    [[host]]\nname = \"B\"\nlabel = \"{}\"\n\
    [[link]]\nfrom = \"B\"\nto = \"A\"\ncost = 5\n";

/// Plans where the way back is slow.
const SLOW_PLANS: &str = "\
    18 | ABBA | BAB | int{} p; int{} q; int{} v; int{} w; void main{}() { p = p + v; q = q + w; } \
    | B hands the token on to A: 5. A reads v of B: 1 and 5. A hands it on to B: 1. B reads w of A: 5 and 1.\n\
    36 | A | ABBAAAB | int{} r; int{} twice{}(int{} n) { int m = n + n; return m; } \
    void main{}() { int{} x = 3; x = twice(x); r = x; } \
    | x goes to B, which reads it later: 6. The parameter goes to B, which reads it: 6. The method begins on A, \
    where the call stands, and A hands the token on to B: 1. From its end the token goes to A: 5, and the result: 6. \
    So x has another value. It rides with the token, which A hands on to B: 1. B writes r on A: 6. The end of `main` \
    goes from B to A: 5.\n\
    30 | A | BBBAAAB | int{} r; int{} twice{}(int{} n) { int m = n + n; return m; } \
    void main{}() { int{} x = 3; x = twice(x); r = x; } \
    | x goes to B: 6. The method begins and ends on B, and the parameter rides with the token to it: 1. From its end \
    on all is as before: 23.\n\
    36 | A | BABAAAB | int{} r; int{} twice{}(int{} n) { int m = n + n; return m; } \
    void main{}() { int{} x = 3; x = twice(x); r = x; } \
    | x goes to B: 6. The method begins on B: 1, which hands the token on to A: 5. That is where the parameter is \
    read, and the call stands there too. A hands the token on to B, with which m rides: 1. From its end on all is as \
    before: 23.";

/// A host that Alice trusts, and two of which she trusts the second. Each message from B to A costs 3.
const LENDING_HOSTS: &str = "principals = [\"Alice\"]\n\
    [[host]]\nname = \"A\"\nlabel = \"{?: Alice}\"\n\
    [[host]]\nname = \"B\"\nlabel = \"{}\"\n\
    [[host]]\nname = \"C\"\nlabel = \"{?: Alice}\"\n\
    [[link]]\nfrom = \"B\"\nto = \"A\"\ncost = 3\n";

/// Plans where the token is lent.
const LENDING_PLANS: &str = "\
    5 | BC | ABC | int{} u; int{?: Alice} n; void main{?: Alice}() { u = 1; n = 1; } \
    | B is not trusted with what follows, so it is lent the token. The way over C costs 1 and 1, which is less than \
    3. So A asks C to name itself: 2. A sends the token to B: 1, B gives it to C: 1, and C ends at A: 1.\n\
    9 | BC | AABC | int{} u; int{?: Alice} n; void main{?: Alice}() { int{} x = 2; u = x; n = 1; } \
    | As C takes the token back and not A, x does not ride: it goes to B, 1 and 3. From there on all is as before: 5.\n\
    4 | BA | AABA | int{} u; int{?: Alice} n; void main{?: Alice}() { int{} x = 2; u = x; n = 1; } \
    | A goes on behind B and takes the token back itself. So x rides with the token to B: 1, and B gives it back: 3.";

/// A host that Alice trusts, and two that she does not trust. Each message from B to A costs 9.
const TRUSTED_ALONE: &str = "principals = [\"Alice\"]\n\
    [[host]]\nname = \"A\"\nlabel = \"{?: Alice}\"\n\
    [[host]]\nname = \"B\"\nlabel = \"{}\"\n\
    [[host]]\nname = \"C\"\nlabel = \"{}\"\n\
    [[link]]\nfrom = \"B\"\nto = \"A\"\ncost = 9\n";

/// Plans where it is lent twice.
const LENDING_TWICE: &str = "\
    12 | BCA | ABCA | int{} u; int{} v; int{?: Alice} n; void main{?: Alice}() { u = 1; v = 1; n = 1; } \
    | C is not trusted either with what follows, so A lends the token to both of them in turn. To B and back 1 and \
    9, to C and back 2.\n\
    14 | BCA | ABCA | int{} u; int{} v; int{?: Alice} n; void main{?: Alice}() { int{} x = 1; v = x; n = 1; } \
    | The token goes from B to A before it goes to C. So x does not ride: it goes from B to C, there and back 2. The \
    rest is as before: 12.";

/// Moves over the open hosts. A row has what the move adds, the plan before it as above, the program, and the move.
const MOVES: &str = "\
    2 | A | AA | int{} c; void main{}() { c = 1; } | field 0 B | A then writes c on B: 2.\n\
    -2 | B | AA | int{} c; void main{}() { c = 1; } | field 0 A | A wrote c on B: 2.\n\
    4 | A | AA | int{} c; void main{}() { c = 1; } | statement 1 B | The token goes to B and back: 2. B writes c on \
    A: 2.\n\
    -4 | A | AB | int{} c; void main{}() { c = 1; } | statement 1 A | The same the other way.\n\
    0 | B | AA | int{} c; void main{}() { c = 1; } | statement 1 B | A wrote c on B: 2. Now the token goes to B and \
    back: 2.\n\
    12 | A | BBAAA | int{} r; void more{}() { r = r + 1; } void main{}() { while (r < 2) { more(); } } | field 0 B \
    | The body reads and writes r without a message, which was 4. The guard reads r of B, 8 times: 16.";

/// The hosts of letters, in their order.
fn placed(alloc: Global, letters: &str) -> Result<Vec<HostId>, AllocError> {
    let mut hosts = Vec::new(alloc);
    for letter in letters.bytes() {
        hosts.push(HostId(letter.wrapping_sub(b'A')))?;
    }
    Ok(hosts)
}

/// The move that a text says: a field or a statement by its number, and the letter of its host.
fn step_of(text: &str) -> Result<Step, Fail> {
    let mut words = text.split_ascii_whitespace();
    let kind = words.next().unwrap_or("");
    let number = words.next().unwrap_or("").parse::<u32>()?;
    let host = if words.next() == Some("B") {
        HostId(1)
    } else {
        HostId(0)
    };
    if kind == "field" {
        Ok(Step::Field(FieldId(number), host))
    } else {
        Ok(Step::Statement(StmtId(number), host))
    }
}

/// What the move of a row adds to the cost of its plan.
fn delta_of(alloc: Global, hosts: &Hosts, row: &str) -> Result<i64, Fail> {
    let checked = checked(alloc, column(row, 3), hosts)?;
    let needs = needs_of(alloc, &checked, hosts.principals())?;
    let fields = placed(alloc, column(row, 1))?;
    let plan = Plan::new(fields, placed(alloc, column(row, 2))?);
    Ok(delta(&checked, &needs, hosts, &plan, step_of(column(row, 4))?))
}

/// What the program of a row costs under its plan.
fn cost_of(alloc: Global, hosts: &Hosts, row: &str) -> Result<u64, Fail> {
    let checked = checked(alloc, column(row, 3), hosts)?;
    let needs = needs_of(alloc, &checked, hosts.principals())?;
    let fields = placed(alloc, column(row, 1))?;
    let plan = Plan::new(fields, placed(alloc, column(row, 2))?);
    Ok(cost(&checked, &needs, hosts, &plan))
}

/// Each row has its cost.
fn assert_costs(rt: &impl Abort, alloc: Global, hosts: &str, plans: &str) -> Result<(), Fail> {
    let hosts = hosts_of(alloc, hosts)?;
    for row in plans.lines() {
        let due = column(row, 0).parse::<u64>()?;
        assert_eq!(rt; cost_of(alloc, &hosts, row)?, due, "at {row}");
    }
    Ok(())
}

#[test]
fn plans_have_their_costs(rt: HostRuntime) -> Result<(), Fail> {
    let alloc = rt.alloc();
    assert_costs(&rt, alloc, OWN_HOSTS, OWN_PLANS)?;
    assert_costs(&rt, alloc, OPEN_HOSTS, OPEN_PLANS)?;
    assert_costs(&rt, alloc, SLOW_WAY_BACK, SLOW_PLANS)
}

#[test]
fn lent_tokens_have_their_costs(rt: HostRuntime) -> Result<(), Fail> {
    let alloc = rt.alloc();
    assert_costs(&rt, alloc, LENDING_HOSTS, LENDING_PLANS)?;
    assert_costs(&rt, alloc, TRUSTED_ALONE, LENDING_TWICE)
}

#[test]
fn moves_add_what_they_cost(rt: HostRuntime) -> Result<(), Fail> {
    let alloc = rt.alloc();
    let hosts = hosts_of(alloc, OPEN_HOSTS)?;
    for row in MOVES.lines() {
        let due = column(row, 0).parse::<i64>()?;
        assert_eq!(rt; delta_of(alloc, &hosts, row)?, due, "at {row}");
    }
    Ok(())
}
