//! Tables of tests as texts, with a row on each line and bars between its columns. A constant is laid out anew in each
//! function that names it, a list item by item, but a text at once.

use std::alloc::Global;
use std::test::Fail;

/// The three columns of a row. Those that are left out are empty.
pub fn columns(row: &str) -> (&str, &str, &str) {
    let (first, rest) = row.split_once(" | ").unwrap_or((row, ""));
    let (second, third) = rest.split_once(" | ").unwrap_or((rest, ""));
    (first, second, third)
}

/// The bytes that stand in a text as decimal numbers.
pub fn bytes(alloc: Global, numbers: &str) -> Result<Vec<u8>, Fail> {
    let mut out = Vec::new(alloc);
    for number in numbers.split_whitespace() {
        out.push(number.parse::<u8>()?)?;
    }
    Ok(out)
}

/// Puts a byte at a place.
pub fn put(bytes: &mut [u8], place: usize, byte: u8) -> Result<(), Fail> {
    match bytes.get_mut(place) {
        Some(there) => *there = byte,
        None => return Err(Fail::from("no such place")),
    }
    Ok(())
}
