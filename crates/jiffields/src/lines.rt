//! The lines of a journal that count.

ghost use Rattle.std.specs.Prelude.{◌≡◌, ◌≤◌, ℕ, List, IfOk, Some, length, map};
ghost use Rattle.front_end.specs.Loading.{EndsAs, IsLoaded, StopsWith};
ghost use Rattle.record_merge.specs.JournalLines.{said_line};
ghost use Rattle.record_merge.specs.declared.lines.TheConstants.{JOURNAL_BYTES};
ghost use Rattle.jiffields.specs.Lines.{IsAtRefused, LinesRead, first_refused, is_open, open_line};

use event_text::Line;
use front_end::{LineCause, Loaded, Stop, Verdict, stopped};
use host_code::Code;
use js_base::text::LINE_FEED;
use record_merge::{JOURNAL_BYTES, JournalError, line_count, read_lines};
use std::alloc::Global;

/// The lines of a journal of this name that was loaded.
pub fn lines_read<'a>(
    alloc: Global,
    name: &str,
    code: &Code,
    journal: &'a Loaded,
) -> Result<Vec<Line<'a>>, Stop>
    ensures read { (j : List ℕ) → IsLoaded JOURNAL_BYTES j journal.now →
        EndsAs (λ list. map said_line list.items) (LinesRead name.now code.now j) result }
    ensures few { IfOk result (λ list. length list.items ≤ JOURNAL_BYTES) }
{
    let Loaded::Bytes(bytes) = journal else {
        return Err(stopped(Verdict::too_long(alloc, name)));
    };
    if bytes.len() > JOURNAL_BYTES {
        return Err(stopped(Verdict::too_long(alloc, name)));
    }
    lines_of(alloc, name, code, bytes)
}

/// The lines of a journal of this name, which has these bytes.
fn lines_of<'a>(
    alloc: Global,
    name: &str,
    code: &Code,
    bytes: &'a [u8],
) -> Result<Vec<Line<'a>>, Stop>
    requires { length bytes.now ≤ JOURNAL_BYTES }
    ensures read { EndsAs (λ list. map said_line list.items) (LinesRead name.now code.now bytes.now) result }
    ensures few { IfOk result (λ list. length list.items ≤ JOURNAL_BYTES) }
{
    let unended = open_line(bytes);
    match read_lines(alloc, code, bytes) {
        Ok(list) => match unended {
            Some(last) => { Err(stopped(Verdict::at_line(alloc, name, last, LineCause::NotEnded))) }
            None => Ok(list),
        },
        Err(JournalError::BadLine(number)) => Err(bad_line(alloc, name, number, unended)),
        Err(JournalError::TooLong) => Err(stopped(Verdict::too_long(alloc, name))),
        Err(JournalError::OutOfMemory) => Err(Stop::OutOfMemory),
    }
}

/// A line of a journal of this name has no form, and this is the number of the last, where that is not ended.
fn bad_line(alloc: Global, name: &str, number: u32, unended: Option<u32>) -> Stop
    ensures { StopsWith (IsAtRefused name.now (first_refused (Some number) unended)) result }
{
    match unended {
        Some(last) if number >= last => {
            stopped(Verdict::at_line(alloc, name, last, LineCause::NotEnded))
        }
        _ => stopped(Verdict::at_line(alloc, name, number, LineCause::NoForm)),
    }
}

/// The number of the last line, where no line feed ends it.
fn open_line(bytes: &[u8]) -> Option<u32>
    requires { length bytes.now ≤ JOURNAL_BYTES }
    ensures { result ≡ open_line bytes.now }
{
    if is_open(bytes) {
        Some(line_count(bytes))
    } else {
        None
    }
}

/// Whether there is text behind the last line feed.
fn is_open(bytes: &[u8]) -> bool
    ensures { result ≡ is_open bytes.now }
{
    match bytes.last() {
        Some(byte) => *byte != LINE_FEED,
        None => false,
    }
}
