//! Readers of the instructions of hosts.
#![tactic(auto, unfolding(byte_format::specs::Reader::sequel, byte_format::specs::Reader::given, byte_format::specs::Reader::refused, crate::specs::Reader::place, byte_format::specs::Reader::require, crate::specs::Reader::in_range, byte_format::specs::Reader::items_at, crate::specs::Reading::instruction_at, crate::specs::Reading::part_at,))]

ghost use Rattle.std.specs.Prelude.{◌≡◌, ◌+◌, ◌≤◌, ◌<◌, ◌^◌, ◌||◌, ℕ, List, [], length, suc, nat_lt, if◌then◌else◌};
ghost use Rattle.std.specs.Prelude.{IfOk};
ghost use Rattle.std.specs.Ordering.{nat_cmp};
ghost use Rattle.std.specs.BTreeSet.{contains};
ghost use Rattle.host_code.specs.CodeParts.{shape_of};
ghost use Rattle.host_code.specs.Sound.{is_entrance, temporaries_after};
ghost use Rattle.byte_format.specs.Reader.{items_at};
ghost use Rattle.split_file.specs.Reader.{GivesRead};
ghost use Rattle.split_file.specs.Reading.{is_leaving, instruction_at, next_instruction_at, part_at, next_part_at};

use crate::fault::ReadError;
use crate::numbers::{index_of, out_of_range, u32_of};
use crate::operations::operation;
use host_code::{CodeParts, Entry, Instr, Op, Part};
use js_base::{HostId, OutOfMemory, StmtId};
use std::alloc::Global;
use std::collections::BTreeSet;

/// The places of a host at which its entries stand.
fn entrances_of(alloc: Global, entries: &[Entry], me: HostId) -> Result<BTreeSet<u32>, OutOfMemory>
    ensures { IfOk result (λ entrances. (at : ℕ) →
        contains nat_cmp entrances at ≡ is_entrance entries.now me at) }
{
    let mut entrances = BTreeSet::new(alloc);
    for entry in entries {
        if entry.host.0 == me.0 {
            entrances.insert(entry.at)?;
        }
    }
    Ok(entrances)
}

/// Whether a thread leaves the host behind this operation.
fn is_leaving(op: &Op) -> bool
    ensures { result ≡ is_leaving op.now }
{
    matches!(op, Op::Back | Op::Go(..) | Op::GoWith(..))
}

/// How many temporaries a thread has behind an operation, where it has so many before it, and another thread may start
/// behind it or not.
fn temporaries_behind(op: &Op, temporaries: usize, is_entrance: bool) -> usize
    requires { temporaries + 1 < 2 ^ 64 }
    ensures { result ≡ (if is_entrance then 0 else temporaries_after op.now temporaries) }
{
    if is_entrance {
        return 0;
    }
    match op {
        Op::Read(..) => temporaries + 1,
        Op::Let(..) | Op::Put(..) | Op::Arg(..) | Op::Ret(..) | Op::Branch(..) => 0,
        _ => temporaries,
    }
}

/// The instruction of this number, of a host that has so many, where a thread has so many temporaries.
fn instruction_of<'a>(
    alloc: Global,
    version: u16,
    code: &CodeParts,
    me: HostId,
    places: u32,
    temporaries: usize,
    number: u32,
    bytes: &'a [u8],
) -> Result<(Instr, &'a [u8]), ReadError>
    requires { number < places }
    ensures { GivesRead (λ x. (x.0, x.1.now)) result
        (instruction_at version (shape_of code.now) me places temporaries number bytes.now) }
{
    let (label, rest) = index_of(code.labels.len(), bytes)?;
    let (statement, rest) = u32_of(rest)?;
    let (op, rest) = operation(alloc, version, code, me, temporaries, places as usize, rest)?;
    if number + 1 >= places && !is_leaving(&op) {
        return Err(out_of_range(bytes));
    }
    let instruction = Instr {
        label,
        statement: StmtId(statement),
        op,
    };
    Ok((instruction, rest))
}

/// So many instructions of a host whose entries stand at these places.
fn instructions_of<'a>(
    alloc: Global,
    version: u16,
    code: &CodeParts,
    me: HostId,
    entrances: &BTreeSet<u32>,
    places: u32,
    bytes: &'a [u8],
) -> Result<(Vec<Instr>, &'a [u8]), ReadError>
    requires { (at : ℕ) → contains nat_cmp entrances.now at ≡ is_entrance code.now.entries.items me at }
    ensures { GivesRead (λ x. (x.0.items, x.1.now)) result
        (items_at (next_instruction_at version (shape_of code.now) me places) [] places bytes.now) }
{
    let mut instructions = Vec::new(alloc);
    let mut rest = bytes;
    let mut temporaries = 0;
    for number in 0..places {
        let (instruction, after) = instruction_of(
            alloc,
            version,
            code,
            me,
            places,
            temporaries,
            number,
            rest,
        )?;
        let is_entrance = entrances.contains(&(number + 1));
        temporaries = temporaries_behind(&instruction.op, temporaries, is_entrance);
        instructions.push(instruction)?;
        rest = after;
    }
    Ok((instructions, rest))
}

/// The instructions of a host.
fn part_of<'a>(
    alloc: Global,
    version: u16,
    code: &CodeParts,
    me: HostId,
    bytes: &'a [u8],
) -> Result<(Part, &'a [u8]), ReadError>
    ensures { GivesRead (λ x. (x.0, x.1.now)) result (part_at version (shape_of code.now) me bytes.now) }
{
    let (places, rest) = u32_of(bytes)?;
    let entrances = entrances_of(alloc, &code.entries, me)?;
    let (instructions, rest) = instructions_of(alloc, version, code, me, &entrances, places, rest)?;
    Ok((Part::new(instructions), rest))
}

/// The instructions of each of so many hosts.
pub fn parts_of<'a>(
    alloc: Global,
    version: u16,
    code: &CodeParts,
    count: u8,
    bytes: &'a [u8],
) -> Result<(Vec<Part>, &'a [u8]), ReadError>
    ensures { GivesRead (λ x. (x.0.items, x.1.now)) result
        (items_at (next_part_at version (shape_of code.now)) [] count bytes.now) }
{
    let mut parts = Vec::new(alloc);
    let mut rest = bytes;
    for host in 0..count {
        let (part, after) = part_of(alloc, version, code, HostId(host), rest)?;
        parts.push(part)?;
        rest = after;
    }
    Ok((parts, rest))
}
