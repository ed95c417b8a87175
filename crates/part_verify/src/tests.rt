//! Parts of small codes, from the bytes of a split file.

use crate::verify;
use host_code::{Code, MOST_ITEMS};
use js_base::HostId;
use split_file::read;
use std::alloc::{AllocError, Global};
use std::process::Abort;
use std::test::Fail;

/// The bytes of the words of a label for owners but the first, and of the first.
const OTHER_ROWS: usize = 496;

const WORD: usize = 8;

/// How a file begins, in which a byte is a decimal number. The last byte of its version follows.
const BEGINNING: &str = "74 73 70 83 80 76 73 84 0";

/// What follows the version, where `free` stands for the bytes of the label `{}`, and `secret` for those of a label
/// whose first owner allows no reader. There are two hosts with the label `{}`, both labels, a secret field on the
/// second host, the variable `main.v` with the label `{}` and the secret `main.w`, and three entries: two of the first
/// host, of which the second has a need, and one of the other host.
const BEHIND_VERSION: &str = "0 0 0 2 0 0 0 1 65 free 0 0 0 1 66 free\n\
    0 0 0 2 free secret\n\
    0 0 0 1 0 0 0 1 102 0 0 0 1 0 0 0 1 0 0 0 0 0 0 0 0 0 1\n\
    0 0 0 2 0 0 0 6 109 97 105 110 46 118 0 0 0 0 0 0 0 6 109 97 105 110 46 119 0 0 0 1\n\
    0 0 0 3\n\
    0 0 0 0 0 0 0 0 0 0 0 0 0 0 0 0 0\n\
    0 0 0 0 0 0 0 0 0 0 0 0 0 0 0 0";

/// What follows the need of the second entry: the third, which one principal has to trust, no call sites, the root host
/// and `main`.
const BEHIND_NEED: &str = "1 0 0 0 0 0 0 0 0 0 0 0 0 0 0 0 1\n\
    0 0 0 0 0 0 0 0 1";

/// The part of the second host: `back`.
const OTHER_PART: &str = "0 0 0 1 0 0 0 0 0 0 0 0 13";

/// What comes of the part of the first host, the version of the file and the need of the host's second entry, and the
/// part: `ask` and `go`; the same with a need that lacks the principal; `send` and `go`; a branch to `go` over `back`;
/// `send` and, secretly, `go`; that with a need that lacks the principal; the secret field set; the secret variable
/// sent; and `go` with `main.v`, and with the secret variable.
const ROWS: &str = "\
    Ok(()) | 1 1 | 0 0 0 2 0 0 0 0 0 0 0 0 9 0 0 0 2 1 0 0 0 0 0 0 0 0 10 0 0 0 2 1\n\
    Err(WeakEntry(EntryId(1), 0)) | 1 0 | 0 0 0 2 0 0 0 0 0 0 0 0 9 0 0 0 2 1 0 0 0 0 0 0 0 0 10 0 0 0 2 1\n\
    Err(WeakEntry(EntryId(1), 1)) | 1 0 | 0 0 0 2 0 0 0 0 0 0 0 0 4 0 0 0 0 1 0 0 0 0 0 0 0 0 10 0 0 0 2 1\n\
    Err(WeakEntry(EntryId(1), 2)) | 1 0 | 0 0 0 3 0 0 0 0 0 0 0 0 14 0 0 0 1 1 0 0 0 0 0 0 0 0 0 0 0 2 \
        0 0 0 0 0 0 0 0 13 0 0 0 0 0 0 0 0 10 0 0 0 2 1\n\
    Err(Reveals(1)) | 1 1 | 0 0 0 2 0 0 0 0 0 0 0 0 4 0 0 0 0 1 0 0 0 1 0 0 0 0 10 0 0 0 2 1\n\
    Err(WeakEntry(EntryId(1), 1)) | 1 0 | 0 0 0 2 0 0 0 0 0 0 0 0 4 0 0 0 0 1 0 0 0 1 0 0 0 0 10 0 0 0 2 1\n\
    Err(Reveals(0)) | 1 1 | 0 0 0 2 0 0 0 0 0 0 0 0 3 0 0 0 0 0 0 0 1 1 0 0 0 0 0 0 0 0 0 0 0 1 1 0 0 0 0 0 0 0 0 \
        0 0 0 0 0 0 0 0 13\n\
    Err(Reveals(0)) | 1 1 | 0 0 0 2 0 0 0 0 0 0 0 0 4 0 0 0 1 1 0 0 0 0 0 0 0 0 10 0 0 0 2 1\n\
    Ok(()) | 2 1 | 0 0 0 1 0 0 0 0 0 0 0 0 15 0 0 0 2 1 0 0 0 1 0 0 0 0\n\
    Err(Reveals(0)) | 2 1 | 0 0 0 1 0 0 0 0 0 0 0 0 15 0 0 0 2 1 0 0 0 1 0 0 0 1";

/// Adds a label whose first owner allows what the byte has.
fn put_label(out: &mut Vec<u8>, first: u8) -> Result<(), AllocError> {
    out.resize(out.len() + WORD, first)?;
    out.resize(out.len() + OTHER_ROWS, u8::MAX)?;
    out.resize(out.len() + WORD, 0)
}

/// Adds what the text has.
fn put(out: &mut Vec<u8>, text: &str) -> Result<(), Fail> {
    for word in text.split_whitespace() {
        if word == "free" {
            put_label(out, u8::MAX)?;
        } else if word == "secret" {
            put_label(out, 0)?;
        } else {
            out.push(word.parse::<u8>()?)?;
        }
    }
    Ok(())
}

/// The code with a part of the first host. The numbers are the version and the need of the host's second entry.
fn code_with(rt: &impl Abort, alloc: Global, numbers: &str, part: &str) -> Result<Code, Fail> {
    let (version, need) = numbers.split_once(" ").unwrap_or(("", ""));
    let mut out = Vec::new(alloc);
    put(&mut out, BEGINNING)?;
    put(&mut out, version)?;
    put(&mut out, BEHIND_VERSION)?;
    put(&mut out, need)?;
    put(&mut out, BEHIND_NEED)?;
    put(&mut out, part)?;
    put(&mut out, OTHER_PART)?;
    assert!(rt; out.len() <= MOST_ITEMS);
    Ok(read(alloc, &out)?)
}

/// This comes of the part of the first host.
fn comes_to(rt: &impl Abort, alloc: Global, code: &Code, wanted: &str) -> Result<(), Fail> {
    assert!(rt; !code.hosts().is_empty());
    let outcome = verify(alloc, code, HostId(0));
    let found = format!(in alloc; "{outcome:?}")?;
    assert_eq!(rt; found.as_str(), wanted);
    Ok(())
}

#[test]
fn parts(rt: HostRuntime) -> Result<(), Fail> {
    for row in ROWS.lines() {
        let (wanted, rest) = row.split_once(" | ").unwrap_or(("", ""));
        let (numbers, part) = rest.split_once(" | ").unwrap_or(("", ""));
        let code = code_with(&rt, rt.alloc(), numbers, part)?;
        comes_to(&rt, rt.alloc(), &code, wanted)?;
    }
    Ok(())
}
