//! A place in a text, as compilers tell it.

ghost use Rattle.std.specs.Prelude.{◌≡◌, ◌++◌, ◌∷◌, [], ◌≤◌, ℕ, IfOk, List, OnOk, drop, length};
ghost use Rattle.std.specs.List.{flat_map};
ghost use Rattle.std.specs.String.{string_bytes};
ghost use Rattle.js_base.specs.declared.limits.TheConstants.{PROGRAM_BYTES};
ghost use Rattle.text_places.specs.Excerpts.{below_byte, caret_text, excerpt, front_from, head_text, is_return};
ghost use Rattle.text_places.specs.Excerpts.{line_at, line_before, shown, shown_byte, without_return};

use crate::places::Place;
use js_base::OutOfMemory;
use js_base::text::{LINE_FEED, line_len};
use std::alloc::Global;
use std::fmt::Write;

/// The most bytes of a line that is shown.
pub const EXCERPT_BYTES: usize = 200;

/// Adds `FILE:LINE:COLUMN: MESSAGE` and a line feed, of the byte at a place of a text.
pub fn push_head(
    out: &mut String,
    file: &str,
    text: &[u8],
    at: usize,
    message: &str,
) -> Result<(), OutOfMemory>
    requires within { at ≤ length text.now }
    requires short { length text.now ≤ PROGRAM_BYTES }
    ensures { OnOk result (string_bytes out.new
        ≡ string_bytes out.old ++ head_text file.now text.now at message.now) }
{
    let place = Place::first().moved(text, at);
    let (line, column) = (place.line, place.column);
    writeln!(out, "{file}:{line}:{column}: {message}").map_err(|_| OutOfMemory)
}

/// Adds the line of a place of a text, and a line with a caret below the place. Nothing is added where the line has
/// more than 200 bytes.
pub fn push_excerpt(
    alloc: Global,
    out: &mut String,
    text: &[u8],
    at: usize,
) -> Result<(), OutOfMemory>
    requires within { at ≤ length text.now }
    ensures { OnOk result (string_bytes out.new ≡ string_bytes out.old ++ excerpt text.now at) }
{
    let front = line_front(alloc, &text[..at])?;
    let line = line_with(alloc, &front, &text[at..])?;
    if line.len() > EXCERPT_BYTES {
        return Ok(());
    }
    let (above, below) = (shown(alloc, &line)?, caret(alloc, &front)?);
    writeln!(out, "{above}\n{below}").map_err(|_| OutOfMemory)
}

/// What stands behind the last line feed.
fn line_front(alloc: Global, front: &[u8]) -> Result<Vec<u8>, OutOfMemory>
    ensures { IfOk result (λ line. line.items ≡ front_from [] front.now) }
{
    let mut line = Vec::new(alloc);
    for byte in front {
        if *byte == LINE_FEED {
            line.clear();
        } else {
            line.push(*byte)?;
        }
    }
    Ok(line)
}

/// The line that begins so, and ends in what is left of a text, without a carriage return at its end.
fn line_with(alloc: Global, front: &[u8], rest: &[u8]) -> Result<Vec<u8>, OutOfMemory>
    ensures { (text : List ℕ) (at : ℕ) → front.now ≡ line_before text at → rest.now ≡ drop at text →
        IfOk result (λ line. line.items ≡ line_at text at) }
{
    let mut line = Vec::new(alloc);
    line.extend_from_slice(front)?;
    line.extend_from_slice(&rest[..line_len(rest)])?;
    drop_return(&mut line);
    Ok(line)
}

/// Takes a carriage return away that ends a line.
fn drop_return(line: &mut Vec<u8>)
    ensures { line.new.items ≡ without_return line.old.items }
{
    if is_return(line.last().copied()) {
        line.pop();
    }
}

/// Whether there is a carriage return.
fn is_return(byte: Option<u8>) -> bool
    ensures { result ≡ is_return byte }
{
    match byte {
        Some(byte) => byte == 13,
        None => false,
    }
}

/// What is shown of bytes.
fn shown(alloc: Global, bytes: &[u8]) -> Result<String, OutOfMemory>
    ensures { IfOk result (λ text. string_bytes text ≡ shown bytes.now) }
{
    let mut safe = Vec::new(alloc);
    for byte in bytes {
        safe.push(shown_byte(*byte))?;
    }
    Ok(String::from_utf8_lossy(alloc, &safe)?)
}

/// `?` for a control character but the tab.
fn shown_byte(byte: u8) -> u8
    ensures { result ≡ shown_byte byte }
{
    if (byte < 32 && byte != 9) || byte == 127 {
        b'?'
    } else {
        byte
    }
}

/// The line with the caret, below a line that begins so.
fn caret(alloc: Global, front: &[u8]) -> Result<String, OutOfMemory>
    ensures { IfOk result (λ text. string_bytes text ≡ caret_text front.now) }
{
    let front = shown(alloc, front)?;
    let mut below = below(alloc, front.as_bytes())?;
    below.push_str("^")?;
    Ok(below)
}

/// What stands below bytes before the caret.
fn below(alloc: Global, bytes: &[u8]) -> Result<String, OutOfMemory>
    ensures { IfOk result (λ text. string_bytes text ≡ flat_map below_byte bytes.now) }
{
    let mut below = String::new(alloc);
    for byte in bytes {
        below.push_str(below_byte(*byte))?;
    }
    Ok(below)
}

/// What stands below a byte before the caret.
fn below_byte(byte: u8) -> &'static str
    ensures { result.now ≡ below_byte byte }
{
    if byte == 9 {
        return "\t";
    }
    if byte >= 128 && byte < 192 {
        return "";
    }
    " "
}
