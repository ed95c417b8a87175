//! Readers of operations.
#![tactic(auto, unfolding(byte_format::specs::Reader::sequel, byte_format::specs::Reader::given, byte_format::specs::Reader::refused, crate::specs::Reader::place, byte_format::specs::Reader::require, crate::specs::Reader::in_range, crate::specs::Reading::read_at, crate::specs::Reading::let_at, crate::specs::Reading::put_at, crate::specs::Reading::send_at, crate::specs::Reading::frame_at, crate::specs::Reading::arg_at, crate::specs::Reading::pass_at, crate::specs::Reading::push_at, crate::specs::Reading::ask_at, crate::specs::Reading::go_at, crate::specs::Reading::call_at, crate::specs::Reading::ret_at, crate::specs::Reading::branch_at, crate::specs::Reading::go_with_at, crate::specs::Reading::call_with_at, crate::specs::Reading::operation_of, crate::specs::Reading::operation_at,))]

ghost use Rattle.std.specs.Prelude.{◌≡◌, length};
ghost use Rattle.host_code.specs.CodeParts.{shape_of};
ghost use Rattle.split_file.specs.Reader.{GivesRead};
ghost use Rattle.split_file.specs.Reading.{read_at, let_at, put_at, send_at, frame_at, arg_at, pass_at, push_at};
ghost use Rattle.split_file.specs.Reading.{ask_at, go_at, call_at, ret_at, branch_at, go_with_at, call_with_at};
ghost use Rattle.split_file.specs.Reading.{operation_of, operation_at};

use crate::expressions::expression_of;
use crate::fault::ReadError;
use crate::numbers::{byte_of, index_of, out_of_range};
use crate::operands::{
    entered_of, field_id_of, host_of_entry_of, own_entry_of, own_site_of, riders_of, sent_of,
    some_entry_of, valued_of,
};
use crate::versions::RIDING;
use host_code::{CodeParts, Op};
use js_base::HostId;
use std::alloc::Global;

/// A field that is read, and the element.
fn read_of<'a>(
    alloc: Global,
    code: &CodeParts,
    temporaries: usize,
    bytes: &'a [u8],
) -> Result<(Op, &'a [u8]), ReadError>
    ensures { GivesRead (λ x. (x.0, x.1.now)) result (read_at (shape_of code.now) temporaries bytes.now) }
{
    let (field, rest) = field_id_of(code, bytes)?;
    let (index, rest) = expression_of(alloc, code.vars.len(), temporaries, rest)?;
    Ok((Op::Read(field, index), rest))
}

/// A variable that is set, and the value.
fn let_of<'a>(
    alloc: Global,
    code: &CodeParts,
    temporaries: usize,
    bytes: &'a [u8],
) -> Result<(Op, &'a [u8]), ReadError>
    ensures { GivesRead (λ x. (x.0, x.1.now)) result (let_at (shape_of code.now) temporaries bytes.now) }
{
    let ((to, value), rest) = valued_of(alloc, code, temporaries, bytes)?;
    Ok((Op::Let(to, value), rest))
}

/// A field that is set, the element and the value.
fn put_of<'a>(
    alloc: Global,
    code: &CodeParts,
    temporaries: usize,
    bytes: &'a [u8],
) -> Result<(Op, &'a [u8]), ReadError>
    ensures { GivesRead (λ x. (x.0, x.1.now)) result (put_at (shape_of code.now) temporaries bytes.now) }
{
    let (field, rest) = field_id_of(code, bytes)?;
    let (index, rest) = expression_of(alloc, code.vars.len(), temporaries, rest)?;
    let (value, rest) = expression_of(alloc, code.vars.len(), temporaries, rest)?;
    Ok((Op::Put(field, index, value), rest))
}

/// A variable that is forwarded, and the host.
fn send_of<'a>(code: &CodeParts, me: HostId, bytes: &'a [u8]) -> Result<(Op, &'a [u8]), ReadError>
    ensures { GivesRead (λ x. (x.0, x.1.now)) result (send_at (shape_of code.now) me bytes.now) }
{
    let ((var, to), rest) = sent_of(code, me, bytes)?;
    Ok((Op::Send(var, to), rest))
}

/// The site of a new frame.
fn frame_of<'a>(code: &CodeParts, me: HostId, bytes: &'a [u8]) -> Result<(Op, &'a [u8]), ReadError>
    ensures { GivesRead (λ x. (x.0, x.1.now)) result (frame_at (shape_of code.now) me bytes.now) }
{
    let (site, rest) = own_site_of(code, me, bytes)?;
    Ok((Op::Frame(site), rest))
}

/// A parameter, and its value.
fn arg_of<'a>(
    alloc: Global,
    code: &CodeParts,
    temporaries: usize,
    bytes: &'a [u8],
) -> Result<(Op, &'a [u8]), ReadError>
    ensures { GivesRead (λ x. (x.0, x.1.now)) result (arg_at (shape_of code.now) temporaries bytes.now) }
{
    let ((to, value), rest) = valued_of(alloc, code, temporaries, bytes)?;
    Ok((Op::Arg(to, value), rest))
}

/// A parameter that is forwarded, and the host.
fn pass_of<'a>(code: &CodeParts, me: HostId, bytes: &'a [u8]) -> Result<(Op, &'a [u8]), ReadError>
    ensures { GivesRead (λ x. (x.0, x.1.now)) result (pass_at (shape_of code.now) me bytes.now) }
{
    let ((var, to), rest) = sent_of(code, me, bytes)?;
    Ok((Op::Pass(var, to), rest))
}

/// The entry that is pushed here.
fn push_of<'a>(code: &CodeParts, me: HostId, bytes: &'a [u8]) -> Result<(Op, &'a [u8]), ReadError>
    ensures { GivesRead (λ x. (x.0, x.1.now)) result (push_at (shape_of code.now) me bytes.now) }
{
    let (entry, rest) = own_entry_of(code, me, bytes)?;
    Ok((Op::Push(entry), rest))
}

/// The entry that is to be pushed, and its host.
fn ask_of<'a>(code: &CodeParts, me: HostId, bytes: &'a [u8]) -> Result<(Op, &'a [u8]), ReadError>
    ensures { GivesRead (λ x. (x.0, x.1.now)) result (ask_at (shape_of code.now) me bytes.now) }
{
    let ((entry, on), rest) = entered_of(code, me, bytes)?;
    Ok((Op::Ask(entry, on), rest))
}

/// The entry to go on at, and its host.
fn go_of<'a>(code: &CodeParts, me: HostId, bytes: &'a [u8]) -> Result<(Op, &'a [u8]), ReadError>
    ensures { GivesRead (λ x. (x.0, x.1.now)) result (go_at (shape_of code.now) me bytes.now) }
{
    let ((entry, on), rest) = entered_of(code, me, bytes)?;
    Ok((Op::Go(entry, on), rest))
}

/// The entry that is called, and its host.
fn call_of<'a>(code: &CodeParts, bytes: &'a [u8]) -> Result<(Op, &'a [u8]), ReadError>
    ensures { GivesRead (λ x. (x.0, x.1.now)) result (call_at (shape_of code.now) bytes.now) }
{
    let (entry, rest) = some_entry_of(code, bytes)?;
    let (on, rest) = host_of_entry_of(code, entry, rest)?;
    Ok((Op::Call(entry, on), rest))
}

/// A result, and its value.
fn ret_of<'a>(
    alloc: Global,
    code: &CodeParts,
    temporaries: usize,
    bytes: &'a [u8],
) -> Result<(Op, &'a [u8]), ReadError>
    ensures { GivesRead (λ x. (x.0, x.1.now)) result (ret_at (shape_of code.now) temporaries bytes.now) }
{
    let ((to, value), rest) = valued_of(alloc, code, temporaries, bytes)?;
    Ok((Op::Ret(to, value), rest))
}

/// A guard, and the instruction to go on at, of so many.
fn branch_of<'a>(
    alloc: Global,
    code: &CodeParts,
    temporaries: usize,
    places: usize,
    bytes: &'a [u8],
) -> Result<(Op, &'a [u8]), ReadError>
    ensures { GivesRead (λ x. (x.0, x.1.now)) result (branch_at (shape_of code.now) temporaries places bytes.now) }
{
    let (guard, rest) = expression_of(alloc, code.vars.len(), temporaries, bytes)?;
    let (target, rest) = index_of(places, rest)?;
    Ok((Op::Branch(guard, target), rest))
}

/// The entry to go on at, its host, and the variables whose values ride.
fn go_with_of<'a>(
    alloc: Global,
    code: &CodeParts,
    me: HostId,
    bytes: &'a [u8],
) -> Result<(Op, &'a [u8]), ReadError>
    ensures { GivesRead (λ x. (x.0, x.1.now)) result (go_with_at (shape_of code.now) me bytes.now) }
{
    let ((entry, on), rest) = entered_of(code, me, bytes)?;
    let (riders, rest) = riders_of(alloc, code.vars.len(), rest)?;
    Ok((Op::GoWith(entry, on, riders), rest))
}

/// The entry that is called, its host, and the variables whose values ride.
fn call_with_of<'a>(
    alloc: Global,
    code: &CodeParts,
    me: HostId,
    bytes: &'a [u8],
) -> Result<(Op, &'a [u8]), ReadError>
    ensures { GivesRead (λ x. (x.0, x.1.now)) result (call_with_at (shape_of code.now) me bytes.now) }
{
    let ((entry, on), rest) = entered_of(code, me, bytes)?;
    let (riders, rest) = riders_of(alloc, code.vars.len(), rest)?;
    Ok((Op::CallWith(entry, on, riders), rest))
}

/// What follows the first byte of an operation, which is that of `item`, in a file of this version.
fn operation_tail_of<'a>(
    alloc: Global,
    version: u16,
    code: &CodeParts,
    me: HostId,
    temporaries: usize,
    places: usize,
    byte: u8,
    item: &[u8],
    bytes: &'a [u8],
) -> Result<(Op, &'a [u8]), ReadError>
    ensures { GivesRead (λ x. (x.0, x.1.now)) result
        (operation_of version (shape_of code.now) me temporaries places (length item.now) byte bytes.now) }
{
    match byte {
        1 => read_of(alloc, code, temporaries, bytes),
        2 => let_of(alloc, code, temporaries, bytes),
        3 => put_of(alloc, code, temporaries, bytes),
        4 => send_of(code, me, bytes),
        5 => frame_of(code, me, bytes),
        6 => arg_of(alloc, code, temporaries, bytes),
        7 => pass_of(code, me, bytes),
        8 => push_of(code, me, bytes),
        9 => ask_of(code, me, bytes),
        10 => go_of(code, me, bytes),
        11 => call_of(code, bytes),
        12 => ret_of(alloc, code, temporaries, bytes),
        13 => Ok((Op::Back, bytes)),
        14 => branch_of(alloc, code, temporaries, places, bytes),
        15 if version == RIDING => go_with_of(alloc, code, me, bytes),
        16 if version == RIDING => call_with_of(alloc, code, me, bytes),
        _ => Err(out_of_range(item)),
    }
}

/// An operation of a host that has so many instructions, where a thread has so many temporaries, in a file of this
/// version.
pub fn operation<'a>(
    alloc: Global,
    version: u16,
    code: &CodeParts,
    me: HostId,
    temporaries: usize,
    places: usize,
    bytes: &'a [u8],
) -> Result<(Op, &'a [u8]), ReadError>
    ensures { GivesRead (λ x. (x.0, x.1.now)) result
        (operation_at version (shape_of code.now) me temporaries places bytes.now) }
{
    let (byte, rest) = byte_of(bytes)?;
    operation_tail_of(
        alloc,
        version,
        code,
        me,
        temporaries,
        places,
        byte,
        bytes,
        rest,
    )
}
