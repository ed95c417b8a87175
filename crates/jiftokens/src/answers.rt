//! The top call, from words and files to a status and what is put out.

ghost use Rattle.std.specs.Prelude.{◌≡◌, ◌≤◌, ◌+◌, ◌⊎◌, length, map, string_bytes, IfOk, IsErrOf};
ghost use Rattle.std.specs.Prelude.{OnOk};
ghost use Rattle.js_base.specs.Counts.{Rose};
ghost use Rattle.js_base.specs.declared.limits.TheConstants.{PROGRAM_BYTES};
ghost use Rattle.js_base.specs.declared.status.Status.{Status};
ghost use Rattle.jiftokens.specs.Answers as answers;
ghost use Rattle.jiftokens.specs.Answers.{Answers, IsDue, IsDueFor, IsDueForFile, IsOutFault, IsPut, IsPutInPart};
ghost use Rattle.jiftokens.specs.Answers.{refused_at};
ghost use Rattle.jiftokens.specs.Shapes.{answer_shape};

use crate::listing::listing;
use jif_lex::{LexError, lex, reading_laws};
use js_base::limits::PROGRAM_BYTES;
use js_base::{Files, LoadError, OutOfMemory, PutError, Sink, Status};
use std::alloc::Global;
use text_places::Place;

/// What is due: a listing on the output, or a refusal with its line on the error output.
#[derive(Drop)]
pub enum Answer {
    Print(String),
    Refuse(Status, String),
}

/// Runs `jiftokens` on the words after its name.
///
/// It answers `Done` where the listing of the program was put on `out`. Any other answer is a refusal or a fault, with
/// a line on `err`:
/// - `Usage`: the words are not one file.
/// - `SourceRefused`: the text has no tokens, for the first byte or number that is none, or is too long.
/// - `InputRefused`: there is no such file.
/// - `FileFault`: it could not be read.
/// - `OutFault`: what was due could not all be put out.
/// - `NoMemory`: memory ran out, with no line.
pub fn jiftokens<F: Files, S: Sink, E: Sink>(
    alloc: Global,
    words: &[String],
    files: &mut F,
    out: &mut S,
    err: &mut E,
) -> Status
    ensures answer { Answers (map string_bytes words.now) (F.held files.old) (F.faults files.old) (F.faults files.new)
        result (S.taken out.old) (S.taken out.new) (E.taken err.old) (E.taken err.new) }
    ensures cause { result ≡ Status.OutFault →
        Rose (S.faults out.old) (S.faults out.new) ⊎ Rose (E.faults err.old) (E.faults err.new) }
    ensures held { F.held files.new ≡ F.held files.old }
    ensures saves { F.saves files.new ≡ F.saves files.old }
    ensures loads { F.loads files.new ≤ F.loads files.old + 1 }
{
    match due_answer(alloc, words, files) {
        Ok(answer) => put(alloc, &answer, out, err),
        Err(OutOfMemory) => Status::NoMemory,
    }
}

/// What is due for the words.
fn due_answer<F: Files>(
    alloc: Global,
    words: &[String],
    files: &mut F,
) -> Result<Answer, OutOfMemory>
    ensures due { IfOk result (λ answer. IsDue (map string_bytes words.now) (F.held files.old) (F.faults files.old)
        (F.faults files.new) (answer_shape answer)) }
    ensures held { F.held files.new ≡ F.held files.old }
    ensures saves { F.saves files.new ≡ F.saves files.old }
    ensures loads { F.loads files.new ≤ F.loads files.old + 1 }
{
    match words {
        [name] => answer_for_file(alloc, name.as_str(), files),
        _ => refusal(alloc, Status::Usage, "usage: P"),
    }
}

/// What is due for a file.
fn answer_for_file<F: Files>(
    alloc: Global,
    name: &str,
    files: &mut F,
) -> Result<Answer, OutOfMemory>
    ensures due { IfOk result (λ answer. IsDueForFile name.now (F.held files.old) (F.faults files.old)
        (F.faults files.new) (answer_shape answer)) }
    ensures held { F.held files.new ≡ F.held files.old }
    ensures saves { F.saves files.new ≡ F.saves files.old }
    ensures loads { F.loads files.new ≤ F.loads files.old + 1 }
{
    match files.load(alloc, name, PROGRAM_BYTES) {
        Ok(text) => answer_for_text(alloc, &text),
        Err(LoadError::TooLong) => too_long(alloc),
        Err(LoadError::Absent) => no_such_file(alloc, name),
        Err(LoadError::Failed) => file_fault(alloc, name),
        Err(LoadError::OutOfMemory) => Err(OutOfMemory),
    }
}

/// What is due for a program.
fn answer_for_text(alloc: Global, text: &[u8]) -> Result<Answer, OutOfMemory>
    ensures { IfOk result (λ answer. IsDueFor text.now (answer_shape answer)) }
{
    reading_laws();
    match lex(alloc, text) {
        Ok(tokens) => Ok(Answer::Print(listing(alloc, text, &tokens)?)),
        Err(LexError::BadByte(at)) => refused_at(alloc, "bad byte", text, at as usize),
        Err(LexError::BadNumber(at)) => refused_at(alloc, "bad number", text, at as usize),
        Err(LexError::TooLong) => too_long(alloc),
        Err(LexError::OutOfMemory) => Err(OutOfMemory),
    }
}

/// A refusal for what stands at a place of a text.
fn refused_at(alloc: Global, what: &str, text: &[u8], at: usize) -> Result<Answer, OutOfMemory>
    requires within { at ≤ length text.now }
    requires short { length text.now ≤ PROGRAM_BYTES }
    ensures { IfOk result (λ answer. answer_shape answer ≡ refused_at what.now text.now at) }
{
    let mut line = format!(in alloc; "{what} at {at}, ")?;
    Place::first().moved(text, at).push(&mut line, text)?;
    refusal(alloc, Status::SourceRefused, line.as_str())
}

/// A refusal of a file that is not there.
fn no_such_file(alloc: Global, name: &str) -> Result<Answer, OutOfMemory>
    ensures { IfOk result (λ answer. answer_shape answer ≡ answers.no_such_file name.now) }
{
    let line = format!(in alloc; "{name}: no such file")?;
    refusal(alloc, Status::InputRefused, line.as_str())
}

/// A refusal of a file that could not be read.
fn file_fault(alloc: Global, name: &str) -> Result<Answer, OutOfMemory>
    ensures { IfOk result (λ answer. answer_shape answer ≡ answers.file_fault name.now) }
{
    let line = format!(in alloc; "file fault: {name}")?;
    refusal(alloc, Status::FileFault, line.as_str())
}

/// A refusal of a text that is too long.
fn too_long(alloc: Global) -> Result<Answer, OutOfMemory>
    ensures { IfOk result (λ answer. answer_shape answer ≡ answers.too_long) }
{
    refusal(alloc, Status::SourceRefused, "too long")
}

/// A refusal whose line says this after the program's name.
fn refusal(alloc: Global, status: Status, what: &str) -> Result<Answer, OutOfMemory>
    ensures { IfOk result (λ answer. answer_shape answer ≡ answers.refuses status (answers.error_line what.now)) }
{
    let line = format!(in alloc; "jiftokens: {what}\n")?;
    Ok(Answer::Refuse(status, line))
}

/// Puts what is due.
fn put<S: Sink, E: Sink>(alloc: Global, answer: &Answer, out: &mut S, err: &mut E) -> Status
    ensures put { IsPut (answer_shape answer.now) result
        (S.taken out.old) (S.taken out.new) (E.taken err.old) (E.taken err.new)
        ⊎ (((result ≡ Status.OutFault) ⊎ (result ≡ Status.NoMemory)) × IsPutInPart (answer_shape answer.now)
        (S.taken out.old) (S.taken out.new) (E.taken err.old) (E.taken err.new)) }
    ensures cause { result ≡ Status.OutFault → Rose (S.faults out.old) (S.faults out.new)
        ⊎ Rose (E.faults err.old) (E.faults err.new) ⊎ IsOutFault (answer_shape answer.now) }
{
    match answer {
        Answer::Print(text) => status_after(out.put(alloc, text.as_bytes()), Status::Done),
        Answer::Refuse(status, line) => status_after(err.put(alloc, line.as_bytes()), *status),
    }
}

/// The status after a put, by how it ended.
fn status_after(put: Result<(), PutError>, status: Status) -> Status
    ensures ok { OnOk put (result ≡ status) }
    ensures failed { IsErrOf put PutError.Failed → result ≡ Status.OutFault }
    ensures memory { IsErrOf put PutError.OutOfMemory → result ≡ Status.NoMemory }
{
    match put {
        Ok(()) => status,
        Err(PutError::Failed) => Status::OutFault,
        Err(PutError::OutOfMemory) => Status::NoMemory,
    }
}
