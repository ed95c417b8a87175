//! Readers of what operations name.
#![tactic(auto, unfolding(byte_format::specs::Reader::sequel, byte_format::specs::Reader::given, byte_format::specs::Reader::refused, crate::specs::Reader::place, byte_format::specs::Reader::require, crate::specs::Reader::in_range, crate::specs::Reading::field_id_at, crate::specs::Reading::other_host_at, crate::specs::Reading::own_site_at, crate::specs::Reading::own_entry_at, crate::specs::Reading::some_entry_at, crate::specs::Reading::host_of_entry_at, crate::specs::Reading::other_host_of_entry_at, crate::specs::Reading::valued_at, crate::specs::Reading::sent_at, crate::specs::Reading::entered_at, crate::specs::Reading::riders_at, byte_format::specs::Reader::items_at,))]

ghost use Rattle.std.specs.Prelude.{◌≡◌, ◌==◌, ◌≤◌, ◌&&◌, ℕ, List, [], length, false, nat_le, IfOk};
ghost use Rattle.std.specs.Option.{option_map_or};
ghost use Rattle.std.specs.Int.{w32};
ghost use Rattle.host_code.specs.declared.riders.TheConstants.{MOST_RIDERS};
ghost use Rattle.host_code.specs.Code.{host_of_site};
ghost use Rattle.host_code.specs.CodeParts.{shape_of};
ghost use Rattle.byte_format.specs.Reader.{items_at};
ghost use Rattle.split_file.specs.Reader.{GivesRead, in_range, number_at};
ghost use Rattle.split_file.specs.Reading.{field_id_at, other_host_at, own_site_at, own_entry_at, some_entry_at};
ghost use Rattle.split_file.specs.Reading.{host_of_entry_at, other_host_of_entry_at, valued_at, sent_at, entered_at};
ghost use Rattle.split_file.specs.Reading.{variable_id_at, riders_at};

use crate::expressions::{expression_of, variable_id_of};
use crate::fault::ReadError;
use crate::numbers::{byte_of, index_of, out_of_range, u32_of};
use crate::starts::is_entry_on;
use host_code::{CodeExpr, CodeParts, MOST_RIDERS, RiderVars};
use js_base::{EntryId, FieldId, HostId, SiteId, VarId};
use std::alloc::Global;

/// A field of the code.
pub fn field_id_of<'a>(code: &CodeParts, bytes: &'a [u8]) -> Result<(FieldId, &'a [u8]), ReadError>
    ensures { GivesRead (λ x. (x.0, x.1.now)) result (field_id_at (shape_of code.now) bytes.now) }
{
    let (field, rest) = index_of(code.fields.len(), bytes)?;
    Ok((FieldId(field), rest))
}

/// Another host than this one.
fn other_host_of<'a>(
    code: &CodeParts,
    me: HostId,
    bytes: &'a [u8],
) -> Result<(HostId, &'a [u8]), ReadError>
    ensures { GivesRead (λ x. (x.0, x.1.now)) result (other_host_at (shape_of code.now) me bytes.now) }
{
    let (host, rest) = byte_of(bytes)?;
    if host as usize >= code.hosts.len() || host == me.0 {
        return Err(out_of_range(bytes));
    }
    Ok((HostId(host), rest))
}

/// Whether the site is on this host.
fn is_site_on(sites: &[HostId], site: u32, me: HostId) -> bool
    ensures { result ≡ option_map_or (λ host. host.0 == me.0) (host_of_site sites.now site) false }
{
    if site == 0 {
        return false;
    }
    match sites.get(site as usize - 1) {
        Some(host) => host.0 == me.0,
        None => false,
    }
}

/// A site on this host.
pub fn own_site_of<'a>(
    code: &CodeParts,
    me: HostId,
    bytes: &'a [u8],
) -> Result<(SiteId, &'a [u8]), ReadError>
    ensures { GivesRead (λ x. (x.0, x.1.now)) result (own_site_at (shape_of code.now) me bytes.now) }
{
    let (site, rest) = u32_of(bytes)?;
    if !is_site_on(&code.sites, site, me) {
        return Err(out_of_range(bytes));
    }
    Ok((SiteId(site), rest))
}

/// An entry on this host, but not the one that ends the program.
pub fn own_entry_of<'a>(
    code: &CodeParts,
    me: HostId,
    bytes: &'a [u8],
) -> Result<(EntryId, &'a [u8]), ReadError>
    ensures { GivesRead (λ x. (x.0, x.1.now)) result (own_entry_at (shape_of code.now) me bytes.now) }
{
    let (entry, rest) = u32_of(bytes)?;
    if entry == 0 || !is_entry_on(&code.entries, entry, me.0) {
        return Err(out_of_range(bytes));
    }
    Ok((EntryId(entry), rest))
}

/// An entry, but not the one that ends the program.
pub fn some_entry_of<'a>(
    code: &CodeParts,
    bytes: &'a [u8],
) -> Result<(EntryId, &'a [u8]), ReadError>
    ensures { GivesRead (λ x. (x.0, x.1.now)) result (some_entry_at (shape_of code.now) bytes.now) }
{
    let (entry, rest) = u32_of(bytes)?;
    if entry == 0 || entry as usize >= code.entries.len() {
        return Err(out_of_range(bytes));
    }
    Ok((EntryId(entry), rest))
}

/// The host of an entry.
pub fn host_of_entry_of<'a>(
    code: &CodeParts,
    entry: EntryId,
    bytes: &'a [u8],
) -> Result<(HostId, &'a [u8]), ReadError>
    ensures { GivesRead (λ x. (x.0, x.1.now)) result (host_of_entry_at (shape_of code.now) entry bytes.now) }
{
    let (host, rest) = byte_of(bytes)?;
    if host as usize >= code.hosts.len() || !is_entry_on(&code.entries, entry.0, host) {
        return Err(out_of_range(bytes));
    }
    Ok((HostId(host), rest))
}

/// The host of an entry, which is another than this one.
fn other_host_of_entry_of<'a>(
    code: &CodeParts,
    me: HostId,
    entry: EntryId,
    bytes: &'a [u8],
) -> Result<(HostId, &'a [u8]), ReadError>
    ensures { GivesRead (λ x. (x.0, x.1.now)) result
        (other_host_of_entry_at (shape_of code.now) me entry bytes.now) }
{
    let (host, rest) = byte_of(bytes)?;
    if host as usize >= code.hosts.len()
        || host == me.0
        || !is_entry_on(&code.entries, entry.0, host)
    {
        return Err(out_of_range(bytes));
    }
    Ok((HostId(host), rest))
}

/// A variable and its value.
pub fn valued_of<'a>(
    alloc: Global,
    code: &CodeParts,
    temporaries: usize,
    bytes: &'a [u8],
) -> Result<((VarId, CodeExpr), &'a [u8]), ReadError>
    ensures { GivesRead (λ x. (x.0, x.1.now)) result (valued_at (shape_of code.now) temporaries bytes.now) }
{
    let (var, rest) = variable_id_of(code.vars.len(), bytes)?;
    let (value, rest) = expression_of(alloc, code.vars.len(), temporaries, rest)?;
    Ok(((var, value), rest))
}

/// A variable, and another host than this one.
pub fn sent_of<'a>(
    code: &CodeParts,
    me: HostId,
    bytes: &'a [u8],
) -> Result<((VarId, HostId), &'a [u8]), ReadError>
    ensures { GivesRead (λ x. (x.0, x.1.now)) result (sent_at (shape_of code.now) me bytes.now) }
{
    let (var, rest) = variable_id_of(code.vars.len(), bytes)?;
    let (to, rest) = other_host_of(code, me, rest)?;
    Ok(((var, to), rest))
}

/// An entry on another host than this one.
pub fn entered_of<'a>(
    code: &CodeParts,
    me: HostId,
    bytes: &'a [u8],
) -> Result<((EntryId, HostId), &'a [u8]), ReadError>
    ensures { GivesRead (λ x. (x.0, x.1.now)) result (entered_at (shape_of code.now) me bytes.now) }
{
    let (entry, rest) = some_entry_of(code, bytes)?;
    let (on, rest) = other_host_of_entry_of(code, me, entry, rest)?;
    Ok(((entry, on), rest))
}

/// How many variables ride, 1 to 8.
fn rider_count_of(bytes: &[u8]) -> Result<(u32, &[u8]), ReadError>
    ensures count { GivesRead (λ x. (x.0, x.1.now)) result
        (in_range (λ count. nat_le 1 count && nat_le count MOST_RIDERS) (number_at w32) bytes.now) }
    ensures some { IfOk result (λ x. 1 ≤ x.0) }
    ensures few { IfOk result (λ x. x.0 ≤ MOST_RIDERS) }
{
    let (count, rest) = u32_of(bytes)?;
    if count == 0 || count as usize > MOST_RIDERS {
        return Err(out_of_range(bytes));
    }
    Ok((count, rest))
}

/// So many of so many variables.
fn variable_ids_of(
    alloc: Global,
    vars: usize,
    count: u32,
    bytes: &[u8],
) -> Result<(Vec<VarId>, &[u8]), ReadError>
    ensures variables { GivesRead (λ x. (x.0.items, x.1.now)) result
        (items_at (λ _. variable_id_at vars) [] count bytes.now) }
    ensures count { IfOk result (λ x. length x.0.items ≡ count) }
{
    let mut found = Vec::new(alloc);
    let mut rest = bytes;
    for _ in 0..count {
        let (var, after) = variable_id_of(vars, rest)?;
        found.push(var)?;
        rest = after;
    }
    Ok((found, rest))
}

/// The variables whose values ride, 1 to 8, of so many.
pub fn riders_of(alloc: Global, vars: usize, bytes: &[u8]) -> Result<(RiderVars, &[u8]), ReadError>
    ensures { GivesRead (λ x. (x.0, x.1.now)) result (riders_at vars bytes.now) }
{
    let (count, rest) = rider_count_of(bytes)?;
    let (riders, rest) = variable_ids_of(alloc, vars, count, rest)?;
    Ok((RiderVars::new(riders), rest))
}
