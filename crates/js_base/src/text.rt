//! Owned copies of texts, and the lines of a text.

ghost use Rattle.std.specs.Prelude.{◌≡◌, ◌==◌, ◌≤◌, length, map, IfOk, string_bytes};
ghost use Rattle.std.specs.List.{position_or_len};

use crate::OutOfMemory;
use std::alloc::Global;

/// The byte that ends a line.
pub const LINE_FEED: u8 = b'\n';

/// An owned copy of a text.
pub fn owned_text(alloc: Global, text: &str) -> Result<String, OutOfMemory>
    ensures { IfOk result (λ copy. string_bytes copy ≡ text.now) }
{
    Ok(String::from_str(alloc, text)?)
}

/// Owned copies of texts.
pub fn owned_texts(alloc: Global, texts: &[String]) -> Result<Vec<String>, OutOfMemory>
    ensures { IfOk result (λ copies. map string_bytes copies.items ≡ map string_bytes texts.now) }
{
    let mut copies = Vec::new(alloc);
    for text in texts {
        copies.push(owned_text(alloc, text.as_str())?)?;
    }
    Ok(copies)
}

/// How many bytes there are before the first line feed.
pub fn line_len(bytes: &[u8]) -> usize
    ensures len { result ≡ position_or_len (λ byte. byte == LINE_FEED) bytes.now }
    ensures within { result ≤ length bytes.now }
{
    bytes.iter().take_while(|byte| **byte != LINE_FEED).count()
}
