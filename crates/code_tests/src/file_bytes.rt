//! Split files from texts, in which a byte is a decimal number, and `label` stands for the bytes of the label `{}`.

use host_code::{Code, MOST_ITEMS};
use split_file::read;
use std::alloc::{AllocError, Global};
use std::process::Abort;
use std::test::Fail;

/// The bytes of the label `{}`.
const FREE_BYTES: usize = 504;

const TRUST_BYTES: usize = 8;

/// How a file begins: two hosts, `A` and `B`, with their labels.
const BEGINNING: &str = "74 73 70 83 80 76 73 84 0 1 0 0 0 2 0 0 0 1 65 label 0 0 0 1 66 label";

/// One label.
const ONE_LABEL: &str = "0 0 0 1 label";

/// How the file of a `main` that does nothing ends: two entries, no sites, the root host, `main`, and the parts, of
/// which that of A has one instruction.
const NOTHING_TO_DO: &str = "0 0 0 2\n\
    0 0 0 0 0 0 0 0 0 0 0 0 0 0 0 0 0\n\
    0 0 0 0 0 0 0 0 0 0 0 0 0 0 0 0 0\n\
    0 0 0 0\n\
    0 0 0 0 1\n\
    0 0 0 1\n\
    0 0 0 0 0 0 0 0 13\n\
    0 0 0 0";

/// Adds the label `{}`.
fn put_label(out: &mut Vec<u8>) -> Result<(), AllocError> {
    out.resize(out.len() + FREE_BYTES, u8::MAX)?;
    out.resize(out.len() + TRUST_BYTES, 0)
}

/// Adds what the text has.
fn put(out: &mut Vec<u8>, text: &str) -> Result<(), Fail> {
    for word in text.split_whitespace() {
        if word == "label" {
            put_label(out)?;
        } else {
            out.push(word.parse::<u8>()?)?;
        }
    }
    Ok(())
}

/// The file on A and B that goes on so behind the hosts.
pub fn file(alloc: Global, rest: &str) -> Result<Vec<u8>, Fail> {
    let mut out = Vec::new(alloc);
    put(&mut out, BEGINNING)?;
    put(&mut out, rest)?;
    Ok(out)
}

/// The file of a `main` that does nothing, on A and B, with these fields and variables.
pub fn idle_file(alloc: Global, declared: &str) -> Result<Vec<u8>, Fail> {
    let mut out = file(alloc, ONE_LABEL)?;
    put(&mut out, declared)?;
    put(&mut out, NOTHING_TO_DO)?;
    Ok(out)
}

/// The code of a file.
pub fn code_of(rt: &impl Abort, alloc: Global, bytes: &[u8]) -> Result<Code, Fail> {
    assert!(rt; bytes.len() <= MOST_ITEMS);
    Ok(read(alloc, bytes)?)
}
