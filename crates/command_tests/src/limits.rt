//! Files of the largest size, and of one byte more.

use crate::call::call_text;
use crate::files::hold;
use crate::rows::{cell, number, same};
use js_base::MemFiles;
use std::alloc::Global;
use std::test::Fail;

/// Each row has the number of digits in the middle of the program, that of the letters in the middle of the host file,
/// and what a replay leaves. Around them stand 36 bytes of the program and 51 of the host file.
const SIZES: &str = "\
    1048540 | 65485 | \
    halted no\nfield a = 7\nhost A: running 1, waiting 0, stack 1, ignored 0\n\
    errors:\nDone\n\n\
    1048541 | 65485 | \
    errors:\njifsplit: program: too long\nSourceRefused\n\n\
    1048540 | 65486 | \
    errors:\njifsplit: hosts: too long\nInputRefused";

/// A text with so many copies of a filler in its middle.
fn filled(
    alloc: Global,
    before: &str,
    filler: &str,
    count: &str,
    after: &str,
) -> Result<String, Fail> {
    let mut text = String::from_str(alloc, before)?;
    for _ in 0..number(count)? {
        text.push_str(filler)?;
    }
    text.push_str(after)?;
    Ok(text)
}

/// A program and a host file with so much in their middle, and the events of one turn.
fn long_files(alloc: Global, digits: &str, letters: &str) -> Result<MemFiles, Fail> {
    let field = "int{} a;\nvoid main{}() {\n  a = ";
    let host = "\"]\n[[host]]\nname = \"A\"\nlabel = \"{}\"\n";
    let program = filled(alloc, field, "0", digits, "7;\n}\n")?;
    let hosts = filled(alloc, "principals = [\"", "P", letters, host)?;
    let mut files = Vec::new(alloc);
    hold(alloc, &mut files, "P", program.as_str())?;
    hold(alloc, &mut files, "H", hosts.as_str())?;
    hold(alloc, &mut files, "E", "turn A\n")?;
    Ok(MemFiles::new(files, Vec::new(alloc)))
}

/// What the replay of a row leaves.
fn left(alloc: Global, row: &str) -> Result<String, Fail> {
    let mut files = long_files(alloc, cell(row, 0), cell(row, 1))?;
    call_text(alloc, &mut files, "replay P H E", "-", "-")
}

#[test]
fn takes_files_up_to_their_limits(rt: HostRuntime) -> Result<(), Fail> {
    for row in SIZES.split("\n\n") {
        let left = left(rt.alloc(), row)?;
        same(&rt, row, left.as_str(), cell(row, 2));
    }
    Ok(())
}
