//! What is told of a refusal, and how it is laid out.

ghost use Rattle.std.specs.Prelude.{◌≡◌, ◌++◌, ◌≤◌, IfOk, OnOk, None, [], length};
ghost use Rattle.std.specs.String.{string_bytes};
ghost use Rattle.js_base.specs.declared.limits.TheConstants.{PROGRAM_BYTES};
ghost use Rattle.explain_texts.specs.Told.{front_text, is_line_feed, told_shape, told_text, within, without_end};

use js_base::OutOfMemory;
use js_base::text::LINE_FEED;
use std::alloc::Global;
use std::fmt::Write;
use text_places::{push_excerpt, push_head};

/// What is told of a refusal.
#[derive(Drop)]
pub struct Told {
    /// The place of a byte of the text, from 0.
    pub at: Option<usize>,
    pub message: String,
    /// Lines that stand behind the message, each ended by a line feed.
    pub lines: String,
}

/// What is told, with a message that is copied.
pub fn message_told(
    alloc: Global,
    at: Option<usize>,
    message: &str,
    lines: &str,
) -> Result<Told, OutOfMemory>
    ensures { IfOk result (λ told. told_shape told ≡ record { at = at; message = message.now; lines = lines.now }) }
{
    let message = String::from_str(alloc, message)?;
    let lines = String::from_str(alloc, lines)?;
    Ok(Told { at, message, lines })
}

/// The whole of what is told of a file of this name with this text. No line feed ends the last line.
pub fn told_text(alloc: Global, file: &str, text: &[u8], told: &Told) -> Result<String, OutOfMemory>
    requires { length text.now ≤ PROGRAM_BYTES }
    ensures { IfOk result (λ whole. string_bytes whole ≡ told_text file.now text.now (told_shape told.now)) }
{
    let mut whole = front_text(alloc, file, text, told.at, told.message.as_str())?;
    whole.push_str(told.lines.as_str())?;
    Ok(without_end(whole))
}

/// The message, with its place where it has one.
fn front_text(
    alloc: Global,
    file: &str,
    text: &[u8],
    at: Option<usize>,
    message: &str,
) -> Result<String, OutOfMemory>
    requires { length text.now ≤ PROGRAM_BYTES }
    ensures { IfOk result (λ front. string_bytes front ≡ front_text file.now text.now at message.now) }
{
    let mut front = String::new(alloc);
    match at {
        Some(at) => {
            let at = within(text, at);
            push_head(&mut front, file, text, at, message)?;
            push_excerpt(alloc, &mut front, text, at)?;
        }
        None => push_placeless(&mut front, file, message)?,
    }
    Ok(front)
}

/// Adds a message that has no place.
fn push_placeless(out: &mut String, file: &str, message: &str) -> Result<(), OutOfMemory>
    ensures { OnOk result (string_bytes out.new
        ≡ string_bytes out.old ++ front_text file.now [] None message.now) }
{
    writeln!(out, "{file}: {message}").map_err(|_| OutOfMemory)
}

/// The place, or the end of the text where that comes first.
pub fn within(text: &[u8], at: usize) -> usize
    ensures place { result ≡ within text.now at }
    ensures within { result ≤ length text.now }
{
    if text.len() < at { text.len() } else { at }
}

/// A text without the line feed that ends it.
fn without_end(text: String) -> String
    ensures { string_bytes result ≡ without_end (string_bytes text) }
{
    let mut text = text;
    if is_line_feed(text.as_bytes().last().copied()) {
        text.pop();
    }
    text
}

/// Whether there is a line feed.
fn is_line_feed(byte: Option<u8>) -> bool
    ensures { result ≡ is_line_feed byte }
{
    match byte {
        Some(byte) => byte == LINE_FEED,
        None => false,
    }
}
