//! The reader of tables. A table is one text with a row for each line or block of lines, and not an array of values,
//! since the prover lays out each value of an array anew in every function that names it.

use std::alloc::{AllocError, Global};
use std::process::Abort;
use std::test::Fail;

/// The cell of a row at this place, from 0 on, or nothing where the row is shorter.
pub fn cell(row: &str, place: usize) -> &str {
    for (at, cell) in row.split(" | ").enumerate() {
        if at == place {
            return cell;
        }
    }
    ""
}

/// What stands behind the first such mark, up to the next end.
pub fn marked<'a>(table: &'a str, mark: &str, end: &str) -> Result<&'a str, Fail> {
    match table.split_once(mark) {
        Some((_, rest)) => Ok(before(rest, end)),
        None => Err(Fail::from("no such mark")),
    }
}

/// What stands before the first such end.
fn before<'a>(text: &'a str, end: &str) -> &'a str {
    let (front, _) = text.split_once(end).unwrap_or((text, ""));
    front
}

/// What stands behind the last end of a line.
pub fn last_line(text: &str) -> &str {
    let (_, line) = text.rsplit_once("\n").unwrap_or(("", text));
    line
}

/// The words of a line.
pub fn words(alloc: Global, line: &str) -> Result<Vec<String>, AllocError> {
    let mut list = Vec::new(alloc);
    for word in line.split_whitespace() {
        list.push(String::from_str(alloc, word)?)?;
    }
    Ok(list)
}

/// The number that a word is.
pub fn number(word: &str) -> Result<u64, Fail> {
    Ok(word.parse::<u64>()?)
}

/// The bytes that a line has as decimal numbers.
pub fn bytes(alloc: Global, line: &str) -> Result<Vec<u8>, Fail> {
    let mut list = Vec::new(alloc);
    for word in line.split_whitespace() {
        list.push(word.parse::<u8>()?)?;
    }
    Ok(list)
}

/// The number of the call that is to fail, as a list, or no number where a `-` stands for it.
pub fn listed(alloc: Global, call: &str) -> Result<Vec<u64>, Fail> {
    let mut calls = Vec::new(alloc);
    if call != "-" {
        calls.push(number(call)?)?;
    }
    Ok(calls)
}

/// What a row left is what is due.
pub fn same(rt: &impl Abort, row: &str, left: &str, due: &str) {
    assert!(rt; left == due, "at {row}: {left}");
}
