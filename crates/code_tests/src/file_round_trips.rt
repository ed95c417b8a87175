//! Files that are read and written again.

use crate::file_bytes::{code_of, idle_file};
use crate::whole_file::whole_file;
use host_code::Code;
use split_file::write;
use std::alloc::Global;
use std::process::Abort;
use std::test::Fail;

/// No fields and no variables.
const NOTHING_DECLARED: &str = "0 0 0 0 0 0 0 0";

/// The code is written as these bytes.
fn is_written(rt: &impl Abort, alloc: Global, code: &Code, bytes: &[u8]) -> Result<(), Fail> {
    let written = write(alloc, code)?;
    assert_eq!(rt; written.as_slice(), bytes);
    Ok(())
}

#[test]
fn nothing_to_do(rt: HostRuntime) -> Result<(), Fail> {
    let bytes = idle_file(rt.alloc(), NOTHING_DECLARED)?;
    assert_eq!(rt; bytes.len(), 1636);
    let code = code_of(&rt, rt.alloc(), &bytes)?;
    assert_eq!(rt; code.hosts().len(), 2);
    assert_eq!(rt; code.entries().len(), 2);
    is_written(&rt, rt.alloc(), &code, &bytes)
}

#[test]
fn one_of_everything(rt: HostRuntime) -> Result<(), Fail> {
    let bytes = whole_file(rt.alloc())?;
    let code = code_of(&rt, rt.alloc(), &bytes)?;
    is_written(&rt, rt.alloc(), &code, &bytes)
}
