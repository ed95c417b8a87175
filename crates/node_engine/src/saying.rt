//! What is said of the end of a node.

ghost use Rattle.std.specs.Prelude.{◌≡◌, IfOk, OnErr, OnOk};
ghost use Rattle.std.specs.String.{string_bytes};
ghost use Rattle.js_base.specs.Sink.{Takes, TakesFront};
ghost use Rattle.front_end.specs.Refusals.{refusal_shape};
ghost use Rattle.node_engine.specs.Nodes.{end_shape};
ghost use Rattle.node_engine.specs.Said.{end_text, refusal_line, status_line};

use crate::node_end::NodeEnd;
use front_end::Refusal;
use js_base::{PutError, Sink, Status};
use std::alloc::{AllocError, Global};

/// Says how a node ended: a line with the name of its status, and where its files are refused one that says why, behind
/// the name of the program.
pub fn say_end<E: Sink>(alloc: Global, end: &NodeEnd, err: &mut E) -> Result<(), PutError>
    ensures ok { OnOk result (Takes (end_text (end_shape end.now)) (E.taken err.old) (E.taken err.new)) }
    ensures err { OnErr result (TakesFront (end_text (end_shape end.now)) (E.taken err.old) (E.taken err.new)) }
{
    say_status(alloc, end.status, err)?;
    match &end.refusal {
        Some(refusal) => say_refusal(alloc, refusal, err),
        None => Ok(()),
    }
}

/// The line with the name of a status. It wants no memory of its own.
fn say_status<E: Sink>(alloc: Global, status: Status, err: &mut E) -> Result<(), PutError>
    ensures ok { OnOk result (Takes (status_line status) (E.taken err.old) (E.taken err.new)) }
    ensures err { OnErr result (TakesFront (status_line status) (E.taken err.old) (E.taken err.new)) }
{
    err.put(alloc, status.name().as_bytes())?;
    err.put(alloc, "\n".as_bytes())
}

/// The line of a refusal.
fn say_refusal<E: Sink>(alloc: Global, refusal: &Refusal, err: &mut E) -> Result<(), PutError>
    ensures ok { OnOk result
        (Takes (refusal_line (refusal_shape refusal.now)) (E.taken err.old) (E.taken err.new)) }
    ensures err { OnErr result
        (TakesFront (refusal_line (refusal_shape refusal.now)) (E.taken err.old) (E.taken err.new)) }
{
    let line = line_of(alloc, refusal)?;
    err.put(alloc, line.as_bytes())
}

/// It, as a text.
fn line_of(alloc: Global, refusal: &Refusal) -> Result<String, AllocError>
    ensures { IfOk result (λ line. string_bytes line ≡ refusal_line (refusal_shape refusal.now)) }
{
    let text = refusal.text(alloc)?;
    format!(in alloc; "jifhost: {text}\n")
}
