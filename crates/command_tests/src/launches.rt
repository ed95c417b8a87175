//! What is launched for the hosts of a host file, and what is answered by how that ends.

use crate::files::{held_files, sink};
use crate::rows::{cell, listed, same, words};
use child_programs::MemSpawner;
use js_base::{MemFiles, MemSink};
use launch::jifrun;
use std::alloc::{AllocError, Global};
use std::test::Fail;

/// Each row has the call of the spawner that fails, the statuses with which children end, the words, and what the call
/// leaves, with what the spawner was asked to start. Starts come before waits, and both are counted together.
const LAUNCHES: &str = "\
    - | 0 9 | P H S 10 | \
    host A ended 0\nhost B ended 9\nerrors:\nChildEnded\n\
    jifhost --program P --hosts H --host A --start S --turns 10\n\
    jifhost --program P --hosts H --host B --start S --turns 10\n\n\
    1 | 0 9 | P H S 10 | \
    host A ended 0\nhost B not started\nerrors:\nChildFault\n\
    jifhost --program P --hosts H --host A --start S --turns 10\n\
    jifhost --program P --hosts H --host B --start S --turns 10\n\n\
    0 | 9 | P H S 10 | \
    host A not started\nhost B ended 9\nerrors:\nChildFault\n\
    jifhost --program P --hosts H --host A --start S --turns 10\n\
    jifhost --program P --hosts H --host B --start S --turns 10\n\n\
    3 | 0 0 | none H none 1 | \
    host A ended 0\nhost B not waited\nerrors:\nChildFault\n\
    jifhost --program none --hosts H --host A --start none --turns 1\n\
    jifhost --program none --hosts H --host B --start none --turns 1\n\n\
    - | 0 | P H S 1000000000 | \
    host A ended 0\nhost B ended 0\nerrors:\nDone\n\
    jifhost --program P --hosts H --host A --start S --turns 1000000000\n\
    jifhost --program P --hosts H --host B --start S --turns 1000000000\n\n\
    - | -1 0 | P H S 10 | \
    host A ended -1\nhost B ended 0\nerrors:\nChildEnded\n\
    jifhost --program P --hosts H --host A --start S --turns 10\n\
    jifhost --program P --hosts H --host B --start S --turns 10\n\n\
    - |  | P H S | errors:\njifrun: usage: P H START N\nUsage\n\n\
    - |  | P H S 10 10 | errors:\njifrun: usage: P H START N\nUsage\n\n\
    - |  | P H S 0 | errors:\njifrun: usage: P H START N\nUsage\n\n\
    - |  | P H S 1000000001 | errors:\njifrun: usage: P H START N\nUsage\n\n\
    - |  | P Q S 10 | errors:\njifrun: Q: no such file\nInputRefused\n\n\
    - |  | P P S 10 | errors:\njifrun: hosts: not TOML\nInputRefused\n";

/// The statuses that a line has as decimal numbers.
fn statuses(alloc: Global, line: &str) -> Result<Vec<i32>, Fail> {
    let mut list = Vec::new(alloc);
    for word in line.split_whitespace() {
        list.push(word.parse::<i32>()?)?;
    }
    Ok(list)
}

/// A line for each program that was asked for, with its words.
fn asked(alloc: Global, spawner: &MemSpawner) -> Result<String, AllocError> {
    let mut text = String::new(alloc);
    for (program, words) in spawner.asked() {
        text.push_str(program.as_str())?;
        for word in words {
            text.push_str(" ")?;
            text.push_str(word.as_str())?;
        }
        text.push_str("\n")?;
    }
    Ok(text)
}

/// What a call with these words leaves.
fn called(
    alloc: Global,
    line: &str,
    files: &mut MemFiles,
    spawner: &mut MemSpawner,
    out: &mut MemSink,
) -> Result<String, Fail> {
    let mut err = sink(alloc, "-")?;
    let words = words(alloc, line)?;
    let status = jifrun(alloc, words.as_slice(), files, spawner, out, &mut err);
    let asked = asked(alloc, spawner)?;
    let put = str::from_utf8(out.taken())?;
    let told = str::from_utf8(err.taken())?;
    Ok(format!(in alloc; "{put}errors:\n{told}{status:?}\n{asked}")?)
}

/// What the call of a row leaves.
fn left(alloc: Global, row: &str) -> Result<String, Fail> {
    let mut files = held_files(alloc, "P H S", "-")?;
    let mut out = sink(alloc, "-")?;
    let statuses = statuses(alloc, cell(row, 1))?;
    let mut spawner = MemSpawner::new(alloc, statuses, listed(alloc, cell(row, 0))?);
    called(alloc, cell(row, 2), &mut files, &mut spawner, &mut out)
}

#[test]
fn launches_a_node_for_each_host(rt: HostRuntime) -> Result<(), Fail> {
    for row in LAUNCHES.split("\n\n") {
        let left = left(rt.alloc(), row)?;
        let due = cell(row, 3);
        same(&rt, row, left.as_str().trim_end(), due.trim_end());
    }
    Ok(())
}
