//! The lines of a journal that say something. They are those of scripts, and a journal may be longer than a script.

ghost use Rattle.std.specs.Prelude.{◌≡◌, ◌<◌, ◌≤◌, ◌+◌, [], ◌∷◌, length, IfSome, IfNone};
ghost use Rattle.std.specs.Str.Lines.{lines, strip_carriage_return};
ghost use Rattle.event_text.specs.Lines.{words, is_skipped, line_of, said_from};

use event_text::{Line, Lines, first_word};
use js_base::text::line_len;

/// The bytes of the longest journal that is read.
pub const JOURNAL_BYTES: usize = 67_108_864;

/// The next line that is not skipped, and what follows it.
pub fn next_line<'a>(from: Lines<'a>) -> Option<(Line<'a>, Lines<'a>)>
    requires { from.number + length from.bytes.now ≤ JOURNAL_BYTES + 1 }
    ensures none { IfNone result (said_from from.entry.number (lines from.entry.bytes.now) ≡ []) }
    ensures some { IfSome result (λ parts.
        said_from from.entry.number (lines from.entry.bytes.now)
        ≡ line_of parts.0.number parts.0.bytes.now ∷ said_from parts.1.number (lines parts.1.bytes.now)) }
    ensures shorter { IfSome result (λ parts. length parts.1.bytes.now < length from.entry.bytes.now) }
    ensures few { IfSome result (λ parts. parts.1.number + length parts.1.bytes.now ≤ JOURNAL_BYTES + 1) }
{
    let mut left = from;
    while let Some((line, rest)) = first_line(left.bytes) {
        let number = left.number;
        left = Lines {
            bytes: rest,
            number: number + 1,
        };
        if !is_skipped(line) {
            let said = Line {
                bytes: line,
                number,
            };
            return Some((said, left));
        }
    }
    None
}

/// How many lines there are, with those that are skipped.
pub fn line_count(bytes: &[u8]) -> u32
    requires { length bytes.now ≤ JOURNAL_BYTES }
    ensures { result ≡ length (lines bytes.now) }
{
    let mut count = 0;
    let mut left = bytes;
    while let Some((_, rest)) = first_line(left) {
        count += 1;
        left = rest;
    }
    count
}

/// The first line, without what ends it, and what follows it.
fn first_line(bytes: &[u8]) -> Option<(&[u8], &[u8])>
    ensures none { IfNone result (lines bytes.now ≡ []) }
    ensures some { IfSome result (λ parts. lines bytes.now ≡ parts.0.now ∷ lines parts.1.now) }
    ensures shorter { IfSome result (λ parts. length parts.1.now < length bytes.now) }
{
    if bytes.is_empty() {
        return None;
    }
    let end = line_len(bytes);
    if end == bytes.len() {
        return Some((bytes, &[]));
    }
    let line = without_carriage_return(&bytes[..end]);
    Some((line, &bytes[end + 1..]))
}

/// A line without the carriage return at its end.
fn without_carriage_return(line: &[u8]) -> &[u8]
    ensures { result.now ≡ strip_carriage_return line.now }
{
    match line {
        [front @ .., b'\r'] => front,
        _ => line,
    }
}

/// Whether a line is blank or a comment.
fn is_skipped(line: &[u8]) -> bool
    ensures { result ≡ is_skipped (words line.now) }
{
    match first_word(line) {
        Some((word, _)) => word.starts_with(b"//"),
        None => true,
    }
}
