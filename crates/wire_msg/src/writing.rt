//! Writing a frame.
#![tactic(auto, using(crate::proofs::Appends::appends))]

ghost use Rattle.std.specs.Prelude.{◌≡◌, ◌++◌, IfOk, OnOk, Ok};
ghost use Rattle.wire_msg.specs.Frames.{NamesHosts};
ghost use Rattle.wire_msg.specs.Reading.{reading_of};
ghost use Rattle.wire_msg.specs.Spelling.{kinded_bytes, body_bytes, frame_bytes};

use crate::frame::Frame;
use crate::message_bytes::put_message;
use crate::ranges::frame_law;
use crate::reading::DONE;
use byte_format::{put_byte, put_number};
use js_base::{HostId, OutOfMemory};
use std::alloc::Global;

/// Adds a kind and its fields.
fn put_kinded(out: &mut Vec<u8>, frame: &Frame) -> Result<(), OutOfMemory>
    ensures { OnOk result (out.new.items ≡ out.old.items ++ kinded_bytes frame.now) }
{
    match frame {
        Frame::Message(message) => put_message(out, message),
        Frame::Done => put_byte(out, DONE),
    }
}

/// The body of a frame from this host.
fn body(alloc: Global, from: HostId, frame: &Frame) -> Result<Vec<u8>, OutOfMemory>
    ensures { IfOk result (λ bytes. bytes.items ≡ body_bytes from frame.now) }
{
    let mut out = Vec::new(alloc);
    put_byte(&mut out, from.0)?;
    put_kinded(&mut out, frame)?;
    Ok(out)
}

/// The bytes of a frame from this host. The numbers of the sender and of a token's host have to be below 16.
///
/// # Errors
/// Memory ran out.
#[tactic(auto, using(crate::proofs::Appends::appends), unfolding(crate::specs::Spelling::frame_bytes))]
pub fn write(alloc: Global, from: HostId, frame: &Frame) -> Result<Vec<u8>, OutOfMemory>
    requires { NamesHosts from frame.now }
    ensures spelled { IfOk result (λ bytes. bytes.items ≡ frame_bytes from frame.now) }
    // So it is read again.
    ensures again { IfOk result (λ bytes. reading_of bytes.items ≡ Ok (from, frame.now)) }
{
    frame_law(*frame);
    let body = body(alloc, from, frame)?;
    let mut out = Vec::new(alloc);
    put_number(&mut out, body.len() as u32)?;
    out.extend_from_slice(&body)?;
    Ok(out)
}
