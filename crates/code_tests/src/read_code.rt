//! A code for the tests, as it is read from a file.

use crate::file_bytes::{code_of, idle_file};
use host_code::Code;
use std::alloc::Global;
use std::process::Abort;
use std::test::Fail;

/// The array `s` of A, of three elements that start with 1, the field `n` of A, which starts with 2, and the field `o`
/// of B, which starts with 7. Then the variable `main.v`.
const DECLARED: &str = "0 0 0 3\n\
    0 0 0 1 115 0 0 0 0 0 0 0 3 1 0 0 0 0 0 0 0 1 0\n\
    0 0 0 1 110 0 0 0 0 0 0 0 1 0 0 0 0 0 0 0 0 2 0\n\
    0 0 0 1 111 0 0 0 0 0 0 0 1 0 0 0 0 0 0 0 0 7 1\n\
    0 0 0 1\n\
    0 0 0 6 109 97 105 110 46 118 0 0 0 0";

/// The code: hosts A and B, all labels `{}`, and a `main` that does nothing.
pub fn read_code(rt: &impl Abort, alloc: Global) -> Result<Code, Fail> {
    let bytes = idle_file(alloc, DECLARED)?;
    code_of(rt, alloc, &bytes)
}
