//! What else code keeps: the statement and the program label of each instruction, and what each entry asks of a host
//! that enters there. What is lent runs up to the end of its segment, and all else up to the end of the block.

use crate::rows::{cell, same};
use front_end::{as_loaded, code_of, read_places};
use host_code::{Code, Entry, Instr};
use host_decl::Hosts;
use js_base::bits::has_bit;
use js_base::limits::{HOSTS, HOSTS_BYTES, PROGRAM_BYTES};
use js_base::text::owned_text;
use js_base::{HostId, PrincipalId};
use label_lattice::label_text;
use principals::Principals;
use std::alloc::Global;
use std::process::Abort;
use std::test::Fail;

/// A program that is split, its hosts and what its code keeps: a line for each entry, and then one for each instruction
/// of each host.
///
/// A loop and a branch under a secret. The guards read a secret of Alice, under whose label the bodies run. So does the
/// guard of the loop itself, but not that of the branch. Behind the branch nothing is left for which anybody has to
/// trust the host.
const UNDER_A_SECRET: &str = "\
    int{Alice:; ?:Alice} k;\n\
    int{Alice:; Carol:} s;\n\
    void main{?:Alice}() {\n\
    while (k) {\n\
    s = s + 1;\n\
    k = k - 1;\n\
    }\n\
    if (k == 0) { k = 1; }\n\
    }\n | \
    principals = ['Alice', 'Carol']\n\
    [[host]]\nname = 'T'\nlabel = '{Alice:; ?:Alice}'\n\
    [[host]]\nname = 'A'\nlabel = '{Alice:; Carol:}'\n | \
    entry e0 {?: Alice} needs Alice\n\
    entry e1 {?: Alice} needs Alice\n\
    entry e2 {Alice: Alice; ?: Alice} needs Alice\n\
    entry e3 {Alice: Alice; ?: Alice} needs Alice\n\
    entry e4 {Alice: Alice; ?: Alice} needs nobody\n\
    entry e5 {Alice: Alice; ?: Alice} needs nobody\n\
    T 0 statement 1 {Alice: Alice; ?: Alice}\n\
    T 1 statement 1 {Alice: Alice; ?: Alice}\n\
    T 2 statement 1 {Alice: Alice; ?: Alice}\n\
    T 3 statement 1 {Alice: Alice; ?: Alice}\n\
    T 4 statement 1 {Alice: Alice; ?: Alice}\n\
    T 5 statement 3 {Alice: Alice; ?: Alice}\n\
    T 6 statement 3 {Alice: Alice; ?: Alice}\n\
    T 7 statement 1 {Alice: Alice; ?: Alice}\n\
    T 8 statement 4 {?: Alice}\n\
    T 9 statement 4 {?: Alice}\n\
    T 10 statement 4 {?: Alice}\n\
    T 11 statement 5 {Alice: Alice; ?: Alice}\n\
    T 12 statement 4 {Alice: Alice; ?: Alice}\n\
    T 13 statement 4 {Alice: Alice; ?: Alice}\n\
    T 14 statement 0 {?: Alice}\n\
    A 0 statement 2 {Alice: Alice; ?: Alice}\n\
    A 1 statement 2 {Alice: Alice; ?: Alice}\n\
    A 2 statement 1 {Alice: Alice; ?: Alice}\n";

/// A call. T is trusted by Alice, and B sees what is Bob's. The method begins on B, where the parameter rides to. The
/// entry behind the call asks for what the call asks for, which is Alice's trust for the parameter.
const A_CALL: &str = "\
    int{Bob:} b;\n\
    void add{}(int{?:Alice} n) {\n\
    b = b + n;\n\
    }\n\
    void main{?:Alice}() {\n\
    add(7);\n\
    }\n | \
    principals = ['Alice', 'Bob']\n\
    [[host]]\nname = 'T'\nlabel = '{?:Alice}'\n\
    [[host]]\nname = 'B'\nlabel = '{Bob:}'\n | \
    entry e0 {?: Alice} needs Alice\n\
    entry e1 {} needs nobody\n\
    entry e2 {?: Alice} needs Alice\n\
    entry e3 {?: Alice} needs Alice\n\
    T 0 statement 3 {?: Alice}\n\
    T 1 statement 3 {?: Alice}\n\
    T 2 statement 3 {?: Alice}\n\
    T 3 statement 3 {?: Alice}\n\
    T 4 statement 2 {?: Alice}\n\
    B 0 statement 1 {}\n\
    B 1 statement 1 {}\n\
    B 2 statement 0 {}\n";

/// A loop that is lent, on the same hosts. The lent loop has the label of its own guard, and asks for nothing of what T
/// does once it is over. Its last Back is that of the outer body, in which it is lent.
const A_LENT_LOOP: &str = "\
    int{?:Alice} n;\n\
    int{Bob:} b;\n\
    void main{?:Alice}() {\n\
    while (n < 4) {\n\
    while (b < 3) { b = b + 1; }\n\
    n = n + 1;\n\
    }\n\
    }\n | \
    principals = ['Alice', 'Bob']\n\
    [[host]]\nname = 'T'\nlabel = '{?:Alice}'\n\
    [[host]]\nname = 'B'\nlabel = '{Bob:}'\n | \
    entry e0 {?: Alice} needs Alice\n\
    entry e1 {?: Alice} needs Alice\n\
    entry e2 {?: Alice} needs Alice\n\
    entry e3 {?: Alice} needs Alice\n\
    entry e4 {?: Alice} needs nobody\n\
    entry e5 {Bob: Bob} needs nobody\n\
    T 0 statement 1 {?: Alice}\n\
    T 1 statement 1 {?: Alice}\n\
    T 2 statement 1 {?: Alice}\n\
    T 3 statement 1 {?: Alice}\n\
    T 4 statement 1 {?: Alice}\n\
    T 5 statement 4 {?: Alice}\n\
    T 6 statement 4 {?: Alice}\n\
    T 7 statement 1 {?: Alice}\n\
    T 8 statement 0 {?: Alice}\n\
    B 0 statement 2 {Bob: Bob}\n\
    B 1 statement 2 {Bob: Bob}\n\
    B 2 statement 2 {Bob: Bob}\n\
    B 3 statement 3 {Bob: Bob}\n\
    B 4 statement 3 {Bob: Bob}\n\
    B 5 statement 2 {Bob: Bob}\n\
    B 6 statement 1 {?: Alice}\n";

/// A return point on the next host. T is trusted by Alice and Dave, H by nobody and D by Alice. The way from H back to
/// T is long, so D takes the return point, which asks for the trust of D's own statement, and no longer for Dave's,
/// which the head alone asks for.
const ON_THE_NEXT_HOST: &str = "\
    int{Bob:} b;\n\
    int{Carol:; ?:Alice} d;\n\
    void main{?:Alice, Dave}() { b = b + 1; d = d + 1; }\n | \
    principals = ['Alice', 'Bob', 'Carol', 'Dave']\n\
    [[host]]\nname = 'T'\nlabel = '{?:Alice, Dave}'\n\
    [[host]]\nname = 'H'\nlabel = '{Bob:}'\n\
    [[host]]\nname = 'D'\nlabel = '{Carol:; ?:Alice}'\n\
    [[link]]\nfrom = 'H'\nto = 'T'\ncost = 10\n | \
    entry e0 {?: Alice, Dave} needs Alice, Dave\n\
    entry e1 {?: Alice, Dave} needs Alice, Dave\n\
    entry e2 {?: Alice, Dave} needs Alice\n\
    entry e3 {?: Alice, Dave} needs nobody\n\
    T 0 statement 0 {?: Alice, Dave}\n\
    T 1 statement 0 {?: Alice, Dave}\n\
    H 0 statement 1 {?: Alice, Dave}\n\
    H 1 statement 1 {?: Alice, Dave}\n\
    H 2 statement 0 {?: Alice, Dave}\n\
    D 0 statement 2 {?: Alice, Dave}\n\
    D 1 statement 2 {?: Alice, Dave}\n\
    D 2 statement 0 {?: Alice, Dave}\n";

/// The principals of a word.
fn names(alloc: Global, principals: &Principals, word: u64) -> Result<String, Fail> {
    let mut names = Vec::new(alloc);
    for place in 0..principals.count() {
        if has_bit(word, place) {
            names.push(String::from_str(alloc, principals.name(PrincipalId(place)))?)?;
        }
    }
    match names.len() {
        0 => Ok(String::from_str(alloc, "nobody")?),
        _ => Ok(names.join(alloc, ", ")?),
    }
}

/// The label of a code that stands at a place.
fn label_at(
    alloc: Global,
    code: &Code,
    principals: &Principals,
    place: u32,
) -> Result<String, Fail> {
    match code.label(place) {
        Some(label) => Ok(label_text(alloc, label, principals)?),
        None => Err(Fail::from("no label at this place")),
    }
}

/// The line of an entry.
fn entry_line(
    alloc: Global,
    code: &Code,
    principals: &Principals,
    number: usize,
    entry: Entry,
) -> Result<String, Fail> {
    let label = label_at(alloc, code, principals, entry.label)?;
    let needs = names(alloc, principals, entry.need)?;
    Ok(format!(in alloc; "entry e{number} {label} needs {needs}\n")?)
}

/// What stands behind the number of an instruction.
fn instruction_text(
    alloc: Global,
    code: &Code,
    principals: &Principals,
    instruction: &Instr,
) -> Result<String, Fail> {
    let label = label_at(alloc, code, principals, instruction.label)?;
    let statement = instruction.statement.0;
    Ok(format!(in alloc; "statement {statement} {label}\n")?)
}

/// The lines of a host's instructions.
fn part_lines(
    alloc: Global,
    code: &Code,
    principals: &Principals,
    number: u8,
    host: &str,
) -> Result<String, Fail> {
    let mut lines = String::new(alloc);
    for (at, instruction) in code.part(HostId(number)).iter().enumerate() {
        let text = instruction_text(alloc, code, principals, instruction)?;
        let line = format!(in alloc; "{host} {at} {text}")?;
        lines.push_str(line.as_str())?;
    }
    Ok(lines)
}

/// The lines of a code.
fn labelled_lines(alloc: Global, code: &Code, principals: &Principals) -> Result<String, Fail> {
    let mut lines = String::new(alloc);
    for (number, entry) in code.entries().iter().enumerate() {
        let line = entry_line(alloc, code, principals, number, *entry)?;
        lines.push_str(line.as_str())?;
    }
    let hosts = code.hosts();
    prove!(hosts.len() <= HOSTS);
    for (number, host) in hosts.iter().enumerate() {
        let part = part_lines(alloc, code, principals, number as u8, host.name())?;
        lines.push_str(part.as_str())?;
    }
    Ok(lines)
}

/// The code of a program on the hosts of a host file, and these hosts.
fn split(alloc: Global, program: &str, hosts: &str) -> Result<(Code, Hosts), Fail> {
    let program = as_loaded(owned_text(alloc, program)?, PROGRAM_BYTES);
    let hosts = as_loaded(owned_text(alloc, hosts)?, HOSTS_BYTES);
    let Ok(placed) = read_places(alloc, &program, &hosts) else {
        return Err(Fail::from("no program in its places"));
    };
    let code = code_of(alloc, &placed)?;
    Ok((code, placed.into_hosts()))
}

/// What the code of a program keeps is what is due.
fn keeps(rt: &impl Abort, alloc: Global, case: &str) -> Result<(), Fail> {
    let program = cell(case, 0);
    let (code, hosts) = split(alloc, program, cell(case, 1))?;
    let lines = labelled_lines(alloc, &code, hosts.principals())?;
    same(rt, program, lines.as_str(), cell(case, 2));
    Ok(())
}

#[test]
fn code_keeps_labels_and_needs(rt: HostRuntime) -> Result<(), Fail> {
    let alloc = rt.alloc();
    keeps(&rt, alloc, UNDER_A_SECRET)?;
    keeps(&rt, alloc, A_CALL)?;
    keeps(&rt, alloc, A_LENT_LOOP)?;
    keeps(&rt, alloc, ON_THE_NEXT_HOST)
}
