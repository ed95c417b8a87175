//! What is answered where a file or a sink fails, and what is saved then.

use crate::call::call_text;
use crate::files::held_files;
use crate::rows::{cell, same};
use std::alloc::{AllocError, Global};
use std::process::Abort;
use std::test::Fail;

/// Each row has the calls of the files, the output and the error output that fail, the files that are held, the words,
/// and what the call leaves.
const FAULTS: &str = "\
    0 | - | - | P H E | replay P H E | \
    errors:\njifsplit: file fault: P\nFileFault\n\n\
    1 | - | - | P H E | replay P H E | \
    errors:\njifsplit: file fault: H\nFileFault\n\n\
    2 | - | - | P H E | replay P H E | \
    errors:\njifsplit: file fault: E\nFileFault\n\n\
    0 | - | - | P | replay P H E | \
    errors:\njifsplit: file fault: P\nFileFault\n\n\
    1 | - | - | H E | replay P H E | \
    errors:\njifsplit: P: no such file\nInputRefused\n\n\
    3 | 1 | 0 | P H E | replay P H E | \
    halted no\nfield a = 0\nfield b = 0\n\
    host A: running 1, waiting 0, stack 1, ignored 0\n\
    host B: running 0, waiting 0, stack 0, ignored 0\n\
    errors:\nDone\n\n\
    - | 0 | - | P H E | replay P H E | \
    errors:\nOutFault\n\n\
    0 | - | 0 | P H E | replay P H E | \
    errors:\nOutFault\n\n\
    0 | 0 | - |  | replay P H E | \
    errors:\njifsplit: P: no such file\nInputRefused\n\n\
    0 | - | 0 |  | replay P H E | \
    errors:\nOutFault";

/// What is answered where code can't be saved, in rows of the same form. What was saved stays where the report can't be
/// put, with so many bytes.
const SAVES: &str = "\
    2 | - | - | P H | split P H S | \
    errors:\njifsplit: file fault: S\nFileFault\n\n\
    2 | - | 0 | P H | split P H S | \
    errors:\nOutFault\n\n\
    - | 0 | - | short H | split short H S | \
    errors:\nOutFault, 1636 bytes\n\n\
    - | 0 | - | handed far | split handed far S | \
    errors:\nOutFault, 3440 bytes";

/// What a call left, with the size of the code where some is saved.
fn with_saved(alloc: Global, left: String, code: Option<&[u8]>) -> Result<String, AllocError> {
    match code {
        Some(code) => format!(in alloc; "{left}, {} bytes", code.len()),
        None => Ok(left),
    }
}

/// What the call of a row leaves.
fn left(alloc: Global, row: &str) -> Result<String, Fail> {
    let mut files = held_files(alloc, cell(row, 3), cell(row, 0))?;
    let left = call_text(alloc, &mut files, cell(row, 4), cell(row, 1), cell(row, 2))?;
    Ok(with_saved(alloc, left, files.held("S"))?)
}

/// Each row of a table holds.
fn all_hold(rt: &impl Abort, alloc: Global, rows: &str) -> Result<(), Fail> {
    for row in rows.split("\n\n") {
        let left = left(alloc, row)?;
        same(rt, row, left.as_str(), cell(row, 5));
    }
    Ok(())
}

#[test]
fn answers_faults_of_the_outside(rt: HostRuntime) -> Result<(), Fail> {
    all_hold(&rt, rt.alloc(), FAULTS)
}

#[test]
fn tells_of_a_save_that_fails(rt: HostRuntime) -> Result<(), Fail> {
    all_hold(&rt, rt.alloc(), SAVES)
}
