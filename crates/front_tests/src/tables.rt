//! Tables that are texts: a row in each line, and bars between its columns.
//!
//! An array in a constant is laid out anew in the proof of each function that names it, row by row, which takes long. A
//! text is one value, however many rows it has. So what is found is told as a text too, and compared with a column.

use std::alloc::{AllocError, Global};
use std::fmt;

/// The part of this number, from 0, between the separators of a text, and nothing where there are fewer.
fn part<'a>(text: &'a str, separator: &'static str, number: usize) -> &'a str {
    text.split(separator).nth(number).unwrap_or("")
}

/// The column of this number, from 0, of a row, and nothing where it has fewer.
pub fn column(row: &str, number: usize) -> &str {
    part(row, " | ", number)
}

/// The word of this number, from 0, and nothing where there are fewer.
pub fn word(words: &str, number: usize) -> &str {
    part(words, " ", number)
}

/// What something was refused for, and `-` where it was not refused.
pub fn told<E: fmt::Debug + Drop>(alloc: Global, refusal: Option<E>) -> Result<String, AllocError> {
    match refusal {
        Some(error) => format!(in alloc; "{error:?}"),
        None => String::from_str(alloc, "-"),
    }
}
