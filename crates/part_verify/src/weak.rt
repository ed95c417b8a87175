//! The instructions that an entry leads to, and which of them names more than the entry's need.
//!
//! A walk from each entry for itself would take entries times instructions. So each place of the part has a bound, a
//! word that has all that is named there and behind it, at first all ones. A walk goes on only at a place whose bound
//! is not within its need, and takes a bit of it away at least, so an instruction is visited 64 times at most.

ghost use Rattle.std.specs.Prelude.{◌≡◌, ◌<◌, ◌≤◌, ◌++◌, Bool, IfOk, OnOk, length};
ghost use Rattle.std.specs.Prelude.{slice_index, slice_set};
ghost use Rattle.std.specs.Int.Bits.{bit_and};
ghost use Rattle.js_base.specs.Bits.{BitsWithin};
ghost use Rattle.host_code.specs.declared.code.TheConstants.{MOST_ITEMS};
ghost use Rattle.host_code.specs.Code.{part_of};
ghost use Rattle.part_verify.specs.Paths.{goes_on};
ghost use Rattle.part_verify.specs.Bounds.{IsBounded, Found, lesser};

use crate::names::names_within;
use host_code::{Code, Op};
use js_base::bits::bits_within;
use js_base::{HostId, OutOfMemory};
use std::alloc::Global;

/// The least instruction of host `me` that the place leads to and that names more than the need. `None` where each
/// names only what the need has; then the bounds have what is named at each place and behind it.
pub(crate) fn weak_at(
    alloc: Global,
    code: &Code,
    me: HostId,
    at: u32,
    need: u64,
    bound: &mut Vec<u64>,
) -> Result<Option<u32>, OutOfMemory>
    requires few { length (part_of code.now me) ≤ MOST_ITEMS }
    requires long { length bound.old.items ≡ length (part_of code.now me) }
    requires bounds { IsBounded code.now me bound.old.items }
    ensures found { IfOk result (λ found. Found code.now me at need found bound.new.items) }
    ensures long { IfOk result (λ _. length bound.new.items ≡ length (part_of code.now me)) }
{
    let part = code.part(me);
    let mut work = Vec::new(alloc);
    work.push(at)?;
    let mut least = None;
    while let Some(place) = work.pop() {
        if is_open(bound, place, need) {
            let op = &part[place as usize].op;
            lower(bound, place, need);
            let counts = !names_within(code, need, op);
            least = lesser(least, place, counts);
            push_on(op, place, &mut work)?;
        }
    }
    Ok(least)
}

/// Whether there is an instruction at the place whose bound is not within the need.
fn is_open(bound: &[u64], place: u32, need: u64) -> bool
    ensures open { result ≡ Bool.true → (place < length bound.now) × (¬ BitsWithin (slice_index bound.now place) need) }
    ensures closed { result ≡ Bool.false → BitsWithin (slice_index bound.now place) need }
{
    match bound.get(place as usize) {
        Some(word) => !bits_within(*word, need),
        None => false,
    }
}

/// Takes what the need does not have out of the bound of a place.
fn lower(bound: &mut Vec<u64>, place: u32, need: u64)
    requires { place < length bound.old.items }
    ensures { bound.new.items ≡ slice_set bound.old.items place (bit_and (slice_index bound.old.items place) need) }
{
    let word = bound[place as usize];
    bound[place as usize] = word & need;
}

/// The lesser of a place and one that was found, where the place counts.
fn lesser(least: Option<u32>, place: u32, counts: bool) -> Option<u32>
    ensures { result ≡ lesser least place counts }
{
    match least {
        _ if !counts => least,
        Some(other) if other < place => Some(other),
        _ => Some(place),
    }
}

/// Pushes the places at which an operation goes on.
fn push_on(op: &Op, place: u32, work: &mut Vec<u32>) -> Result<(), OutOfMemory>
    requires { place < MOST_ITEMS }
    ensures { OnOk result (work.new.items ≡ work.old.items ++ goes_on op.now place) }
{
    match op {
        Op::Go(_, _) | Op::Call(_, _) | Op::GoWith(_, _, _) | Op::CallWith(_, _, _) | Op::Back =>
            Ok(()),
        Op::Branch(_, target) => {
            work.push(*target)?;
            Ok(work.push(place + 1)?)
        }
        Op::Read(_, _)
        | Op::Let(_, _)
        | Op::Put(_, _, _)
        | Op::Send(_, _)
        | Op::Frame(_)
        | Op::Arg(_, _)
        | Op::Pass(_, _)
        | Op::Push(_)
        | Op::Ask(_, _)
        | Op::Ret(_, _) => Ok(work.push(place + 1)?),
    }
}
