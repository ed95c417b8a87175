//! The lines of journals that are merged.

ghost use Rattle.std.specs.Prelude.{◌≡◌, ◌≤◌, ◌+◌, ◌*◌, ◌++◌, ◌∷◌, [], None, length, map, MatchResult, IfOk, OnOk};
ghost use Rattle.js_base.specs.declared.limits.TheConstants.{HOSTS, SCRIPT_BYTES};
ghost use Rattle.event_text.specs.Lines.{said_lines};
ghost use Rattle.record_merge.specs.JournalLines.{all_of, lines_in, said_line, said_of};
ghost use Rattle.record_merge.specs.Journals.{fault_of, first_bad, first_fault, journal_lines, step_lines};
ghost use Rattle.record_merge.specs.declared.lines.TheConstants.{JOURNAL_BYTES};
ghost use Rattle.record_merge.specs.Reading.{IsUnread, IsNotRead, LinesFail, bytes_of, of_host};

use crate::forms::{has_form, is_aside};
use crate::journal::MergeError;
use crate::lines::next_line;
use event_text::{Line, Lines};
use host_code::Code;
use js_base::limits::SCRIPT_BYTES;
use js_base::{HostId, OutOfMemory};
use std::alloc::Global;

/// Why a journal is not read.
#[derive(Clone, Copy)]
pub enum JournalError {
    OutOfMemory,
    /// It has more bytes than are read.
    TooLong,
    /// Its first line, from 1, that has no form.
    BadLine(u32),
}

impl From<OutOfMemory> for JournalError {
    ghost use Rattle.std.specs.Prelude.{◌≡◌};
    ghost use Rattle.record_merge.specs.declared.reading.JournalError.TheVariants as error;

    ghost from_gives = { λ _ e. e ≡ error.OutOfMemory };

    fn from(_error: OutOfMemory) -> JournalError {
        JournalError::OutOfMemory
    }
}

/// The lines of the journals of all hosts that are merged, in order.
///
/// # Errors
/// `TooLong` or `BadLine` of the first host whose journal is not read.
pub fn read_journals<'a>(
    alloc: Global,
    code: &Code,
    journals: &'a [Vec<u8>],
) -> Result<Vec<Vec<Line<'a>>>, MergeError>
    requires { length journals.now ≤ HOSTS }
    ensures read { MatchResult result
        (λ all. (first_fault code.now 0 (bytes_of journals.now) ≡ None)
        × (said_of all.items ≡ map journal_lines (bytes_of journals.now)))
        (IsUnread code.now (bytes_of journals.now)) }
    ensures few { IfOk result (λ all. lines_in (all_of all.items) ≤ SCRIPT_BYTES * length journals.now) }
{
    let mut all = Vec::new(alloc);
    for (number, journal) in journals.iter().enumerate() {
        match read_journal(alloc, code, journal.as_slice()) {
            Ok(lines) => all.push(lines)?,
            Err(error) => return Err(of_host(error, HostId(number as u8))),
        }
    }
    Ok(all)
}

/// The journal of a host is not read.
fn of_host(error: JournalError, host: HostId) -> MergeError
    ensures { result ≡ of_host error host }
{
    match error {
        JournalError::OutOfMemory => MergeError::OutOfMemory,
        JournalError::TooLong => MergeError::TooLong(host),
        JournalError::BadLine(number) => MergeError::BadLine(host, number),
    }
}

/// The lines of a journal that are merged.
fn read_journal<'a>(
    alloc: Global,
    code: &Code,
    bytes: &'a [u8],
) -> Result<Vec<Line<'a>>, JournalError>
    ensures read { MatchResult result
        (λ list. (fault_of code.now bytes.now ≡ None) × (map said_line list.items ≡ journal_lines bytes.now))
        (IsNotRead code.now bytes.now) }
    ensures few { IfOk result (λ list. length list.items ≤ SCRIPT_BYTES) }
{
    if bytes.len() > SCRIPT_BYTES {
        return Err(JournalError::TooLong);
    }
    read_lines(alloc, code, bytes)
}

/// The lines of a journal of any length that is read, which tell of a step or of what was sent.
///
/// # Errors
/// `BadLine` of the first line that has no form.
pub fn read_lines<'a>(
    alloc: Global,
    code: &Code,
    bytes: &'a [u8],
) -> Result<Vec<Line<'a>>, JournalError>
    requires few { length bytes.now ≤ JOURNAL_BYTES }
    ensures read { MatchResult result
        (λ list. (first_bad code.now (said_lines bytes.now) ≡ None)
        × (map said_line list.items ≡ journal_lines bytes.now))
        (LinesFail code.now (said_lines bytes.now)) }
    ensures few { IfOk result (λ list. length list.items ≤ length bytes.now) }
{
    let mut list = Vec::new(alloc);
    let mut left = Lines { bytes, number: 1 };
    while let Some((line, after)) = next_line(left) {
        if !has_form(code, line.bytes) {
            return Err(JournalError::BadLine(line.number));
        }
        keep_line(&mut list, line)?;
        left = after;
    }
    Ok(list)
}

/// Puts a line behind the others, where it is merged.
fn keep_line<'a>(list: &mut Vec<Line<'a>>, line: Line<'a>) -> Result<(), OutOfMemory>
    ensures kept { OnOk result (map said_line list.new.items
        ≡ map said_line list.old.items ++ step_lines (said_line line.entry ∷ [])) }
    ensures few { OnOk result (length list.new.items ≤ length list.old.items + 1) }
{
    if is_aside(line.bytes) {
        return Ok(());
    }
    Ok(list.push(line)?)
}
