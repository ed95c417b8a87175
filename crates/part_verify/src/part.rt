//! The check of a part: first the needs of its entries, then what its instructions show.

ghost use Rattle.std.specs.Prelude.{◌≡◌, ◌≤◌, ◌-◌, ◌^◌, OnOk, IfOk, IfErr, length, replicate};
ghost use Rattle.host_code.specs.declared.code.TheConstants.{MOST_ITEMS};
ghost use Rattle.host_code.specs.Code.{part_of};
ghost use Rattle.host_code.specs.Sound.{IsHost};
ghost use Rattle.part_verify.specs.SoundPart.{IsSoundPart, AreNeedsKept};
ghost use Rattle.part_verify.specs.Refusing.{IsPartRefusedFor};

use crate::errors::VerifyError;
use crate::shows::shows_well;
use crate::weak::weak_at;
use host_code::{Code, Instr};
use js_base::{EntryId, HostId, OutOfMemory};
use std::alloc::Global;

/// Whether the part of host `me` is sound, so that the host may run it, whoever made the code.
pub fn verify(alloc: Global, code: &Code, me: HostId) -> Result<(), VerifyError>
    requires { IsHost code.now me }
    ensures sound { OnOk result (IsSoundPart code.now me) }
    ensures refused { IfErr result (IsPartRefusedFor code.now me) }
{
    let part = part_of(code, me);
    check_needs(alloc, code, me, part.len())?;
    check_shown(code, me, part)
}

/// The instructions of a host, so few that a number of 32 bits counts them.
fn part_of(code: &Code, me: HostId) -> &[Instr]
    requires { IsHost code.now me }
    ensures part { result.now ≡ part_of code.now me }
    ensures few { length (part_of code.now me) ≤ MOST_ITEMS }
{
    let is_there = (me.0 as usize) < code.hosts().len();
    prove!(is_there);
    code.part(me)
}

/// Whether each instruction that an entry of the host leads to names only what the entry's need has. The host has so
/// many instructions.
fn check_needs(alloc: Global, code: &Code, me: HostId, count: usize) -> Result<(), VerifyError>
    requires few { length (part_of code.now me) ≤ MOST_ITEMS }
    requires count { count ≡ length (part_of code.now me) }
    ensures kept { OnOk result (AreNeedsKept code.now me) }
    ensures refused { IfErr result (IsPartRefusedFor code.now me) }
{
    let entries = code.entries();
    let mut bound = all_ones(alloc, count)?;
    for number in 1..entries.len() {
        let entry = entries[number];
        if entry.host.0 == me.0 {
            if let Some(place) = weak_at(alloc, code, me, entry.at, entry.need, &mut bound)? {
                return Err(VerifyError::WeakEntry(EntryId(number as u32), place));
            }
        }
    }
    Ok(())
}

/// So many words with all bits set.
fn all_ones(alloc: Global, count: usize) -> Result<Vec<u64>, OutOfMemory>
    ensures { IfOk result (λ words. words.items ≡ replicate count (2 ^ 64 - 1)) }
{
    Ok(vec![in alloc; u64::MAX; count]?)
}

/// Whether each instruction of the host shows other hosts only what they may see.
fn check_shown(code: &Code, me: HostId, part: &[Instr]) -> Result<(), VerifyError>
    requires part { part.now ≡ part_of code.now me }
    requires few { length (part_of code.now me) ≤ MOST_ITEMS }
    requires kept { AreNeedsKept code.now me }
    ensures sound { OnOk result (IsSoundPart code.now me) }
    ensures refused { IfErr result (IsPartRefusedFor code.now me) }
{
    for place in 0..part.len() {
        let one = &part[place];
        if !shows_well(code, me, one.label, &one.op) {
            return Err(VerifyError::Reveals(place as u32));
        }
    }
    Ok(())
}
