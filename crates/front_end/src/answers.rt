//! What a program answers and puts out, by what is due.

ghost use Rattle.std.specs.Prelude.{◌≡◌, IfErr, IfOk, IsErrOf, OnOk};
ghost use Rattle.std.specs.String.{string_bytes};
ghost use Rattle.js_base.specs.Sink.{TakesFront};
ghost use Rattle.front_end.specs.Answers.{AnswersVerdict, IsUndue, AnswersRefusal, sink_change};
ghost use Rattle.front_end.specs.Refusals.{error_line, no_memory_line, refusal_shape, refusal_text};
ghost use Rattle.front_end.specs.Verdicts.{verdict_shape};

use crate::refusal::Refusal;
use crate::verdict::Verdict;
use js_base::{OutOfMemory, PutError, Sink, Status};
use std::alloc::{AllocError, Global};

/// Puts out what is due, the line of a refusal on `err` and the text of a report on `out`, and answers with its status.
/// Each line on `err` begins with the program's name. Where memory ran out before, or runs out meanwhile, a line says
/// so where it can; it is given whole, since it can't be made then.
pub fn answer<S: Sink, E: Sink>(
    alloc: Global,
    program: &str,
    no_memory: &str,
    due: Result<Verdict, OutOfMemory>,
    out: &mut S,
    err: &mut E,
) -> Status
    requires { no_memory.now ≡ no_memory_line program.now }
    ensures due { IfOk due (λ verdict. AnswersVerdict program.now (verdict_shape verdict) result
        (sink_change S.Sink out.old out.new) (sink_change E.Sink err.old err.new)) }
    ensures undue { IfErr due (λ _. (result ≡ Status.NoMemory) × IsUndue program.now
        (sink_change S.Sink out.old out.new) (sink_change E.Sink err.old err.new)) }
{
    match due {
        Ok(Verdict::Print { status, text }) => {
            let put = out.put(alloc, text.as_bytes());
            status_after(alloc, put, status, no_memory, err)
        }
        Ok(Verdict::Refuse(refusal)) => refuse(alloc, program, no_memory, &refusal, err),
        Err(OutOfMemory) => out_of_memory(alloc, no_memory, err),
    }
}

/// Puts the line of a refusal on `err`.
fn refuse<E: Sink>(
    alloc: Global,
    program: &str,
    no_memory: &str,
    refusal: &Refusal,
    err: &mut E,
) -> Status
    requires { no_memory.now ≡ no_memory_line program.now }
    ensures { AnswersRefusal program.now (refusal_shape refusal.now) result (sink_change E.Sink err.old err.new) }
{
    match line_of(alloc, program, refusal) {
        Ok(line) => {
            let put = err.put(alloc, line.as_bytes());
            status_after(alloc, put, refusal.status(), no_memory, err)
        }
        Err(AllocError) => out_of_memory(alloc, no_memory, err),
    }
}

/// The line of a refusal.
fn line_of(alloc: Global, program: &str, refusal: &Refusal) -> Result<String, AllocError>
    ensures { IfOk result (λ line.
        string_bytes line ≡ error_line program.now (refusal_text (refusal_shape refusal.now))) }
{
    let text = refusal.text(alloc)?;
    format!(in alloc; "{program}: {text}\n")
}

/// The status after a put, by how it ended.
fn status_after<E: Sink>(
    alloc: Global,
    put: Result<(), PutError>,
    status: Status,
    no_memory: &str,
    err: &mut E,
) -> Status
    ensures ok { OnOk put (result ≡ status) }
    ensures failed { IsErrOf put PutError.Failed → result ≡ Status.OutFault }
    ensures memory { IsErrOf put PutError.OutOfMemory → result ≡ Status.NoMemory }
    ensures line { IsErrOf put PutError.OutOfMemory → TakesFront no_memory.now (E.taken err.old) (E.taken err.new) }
    ensures untouched { (IsErrOf put PutError.OutOfMemory → ⊥) →
        (E.taken err.new ≡ E.taken err.old) × (E.faults err.new ≡ E.faults err.old) }
{
    match put {
        Ok(()) => status,
        Err(PutError::Failed) => Status::OutFault,
        Err(PutError::OutOfMemory) => out_of_memory(alloc, no_memory, err),
    }
}

/// Says that memory ran out, where that can be said.
fn out_of_memory<E: Sink>(alloc: Global, no_memory: &str, err: &mut E) -> Status
    ensures status { result ≡ Status.NoMemory }
    ensures line { TakesFront no_memory.now (E.taken err.old) (E.taken err.new) }
{
    let _ = err.put(alloc, no_memory.as_bytes());
    Status::NoMemory
}
