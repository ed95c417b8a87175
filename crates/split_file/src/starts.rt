//! Readers of where threads and calls start.
#![tactic(auto, unfolding(byte_format::specs::Reader::sequel, byte_format::specs::Reader::given, byte_format::specs::Reader::refused, crate::specs::Reader::place, byte_format::specs::Reader::require, crate::specs::Reader::in_range, crate::specs::Reading::entry_row_at, crate::specs::Reading::root_at, crate::specs::Reading::main_at, crate::specs::Reading::starts_at, byte_format::specs::Reader::items_at, byte_format::specs::Reader::list_at,))]

ghost use Rattle.std.specs.Prelude.{◌≡◌, ◌≤◌, ◌<◌, ◌^◌, ◌==◌, ◌||◌, not, length, [], IfOk};
ghost use Rattle.std.specs.Int.{w32};
ghost use Rattle.host_code.specs.declared.code.TheConstants.{MOST_ITEMS};
ghost use Rattle.byte_format.specs.Reader.{items_at};
ghost use Rattle.split_file.specs.Reader.{GivesRead, in_range, list_at, number_at};
ghost use Rattle.split_file.specs.Reading.{host_id_at, is_empty, entry_row_at, is_entry_on, root_at, main_at};
ghost use Rattle.split_file.specs.Reading.{starts_at};
ghost use Rattle.split_file.specs.Shapes.{starts_shape};

use crate::fault::ReadError;
use crate::numbers::{byte_of, index_of, out_of_range, u32_of, u64_of};
use crate::tables::host_id_of;
use host_code::Entry;
use js_base::{EntryId, HostId};
use std::alloc::Global;

/// Where threads and calls start.
#[derive(Drop)]
pub struct Starts {
    pub entries: Vec<Entry>,
    /// How many bytes there are behind the entries.
    pub behind: usize,
    pub sites: Vec<HostId>,
    pub root: HostId,
    pub main: EntryId,
}

/// The place of an entry, which is 0 for the first of all.
#[tactic(auto, unfolding(byte_format::specs::Reader::sequel, byte_format::specs::Reader::given, crate::specs::Reader::place, byte_format::specs::Reader::require, crate::specs::Reader::in_range,))]
fn entry_place_of(is_first: bool, bytes: &[u8]) -> Result<(u32, &[u8]), ReadError>
    ensures { GivesRead (λ x. (x.0, x.1.now)) result
        (in_range (λ at. not is_first || at == 0) (number_at w32) bytes.now) }
{
    let (at, rest) = u32_of(bytes)?;
    if is_first && at != 0 {
        return Err(out_of_range(bytes));
    }
    Ok((at, rest))
}

/// An entry, the first of all or another.
fn entry_row_of(
    hosts: usize,
    labels: usize,
    is_first: bool,
    bytes: &[u8],
) -> Result<(Entry, &[u8]), ReadError>
    ensures { GivesRead (λ x. (x.0, x.1.now)) result (entry_row_at hosts labels is_first bytes.now) }
{
    let (host, rest) = host_id_of(hosts, bytes)?;
    let (at, rest) = entry_place_of(is_first, rest)?;
    let (label, rest) = index_of(labels, rest)?;
    let (need, rest) = u64_of(rest)?;
    let entry = Entry {
        host,
        at,
        label,
        need,
    };
    Ok((entry, rest))
}

/// So many entries.
fn entry_rows_of(
    alloc: Global,
    hosts: usize,
    labels: usize,
    count: u32,
    bytes: &[u8],
) -> Result<(Vec<Entry>, &[u8]), ReadError>
    ensures entries { GivesRead (λ x. (x.0.items, x.1.now)) result
        (items_at (λ before. entry_row_at hosts labels (is_empty before)) [] count bytes.now) }
    ensures count { IfOk result (λ x. length x.0.items ≡ count) }
{
    let mut entries = Vec::new(alloc);
    let mut rest = bytes;
    let mut is_first = true;
    for _ in 0..count {
        let (entry, after) = entry_row_of(hosts, labels, is_first, rest)?;
        entries.push(entry)?;
        rest = after;
        is_first = false;
    }
    Ok((entries, rest))
}

/// The entries.
fn entries_of(
    alloc: Global,
    hosts: usize,
    labels: usize,
    bytes: &[u8],
) -> Result<(Vec<Entry>, &[u8]), ReadError>
    ensures entries { GivesRead (λ x. (x.0.items, x.1.now)) result
        (list_at (λ before. entry_row_at hosts labels (is_empty before)) bytes.now) }
    ensures few { IfOk result (λ x. length x.0.items ≤ MOST_ITEMS) }
{
    let (count, rest) = u32_of(bytes)?;
    entry_rows_of(alloc, hosts, labels, count, rest)
}

/// The hosts of so many sites.
fn site_rows_of(
    alloc: Global,
    hosts: usize,
    count: u32,
    bytes: &[u8],
) -> Result<(Vec<HostId>, &[u8]), ReadError>
    ensures { GivesRead (λ x. (x.0.items, x.1.now)) result (items_at (λ _. host_id_at hosts) [] count bytes.now) }
{
    let mut sites = Vec::new(alloc);
    let mut rest = bytes;
    for _ in 0..count {
        let (site, after) = host_id_of(hosts, rest)?;
        sites.push(site)?;
        rest = after;
    }
    Ok((sites, rest))
}

/// The hosts of the sites.
fn sites_of(alloc: Global, hosts: usize, bytes: &[u8]) -> Result<(Vec<HostId>, &[u8]), ReadError>
    ensures { GivesRead (λ x. (x.0.items, x.1.now)) result (list_at (λ _. host_id_at hosts) bytes.now) }
{
    let (count, rest) = u32_of(bytes)?;
    site_rows_of(alloc, hosts, count, rest)
}

/// Whether there is an entry of this number, and it is on this host.
pub fn is_entry_on(entries: &[Entry], number: u32, host: u8) -> bool
    ensures { result ≡ is_entry_on entries.now number host }
{
    match entries.get(number as usize) {
        Some(entry) => entry.host.0 == host,
        None => false,
    }
}

/// The root host, which has the first entry.
fn root_of<'a>(entries: &[Entry], bytes: &'a [u8]) -> Result<(HostId, &'a [u8]), ReadError>
    ensures { GivesRead (λ x. (x.0, x.1.now)) result (root_at entries.now bytes.now) }
{
    let (root, rest) = byte_of(bytes)?;
    if !is_entry_on(entries, 0, root) {
        return Err(out_of_range(bytes));
    }
    Ok((HostId(root), rest))
}

/// The entry of `main`, which is on the root host.
fn main_of<'a>(
    entries: &[Entry],
    root: HostId,
    bytes: &'a [u8],
) -> Result<(EntryId, &'a [u8]), ReadError>
    ensures { GivesRead (λ x. (x.0, x.1.now)) result (main_at entries.now root bytes.now) }
{
    let (main, rest) = u32_of(bytes)?;
    if !is_entry_on(entries, main, root.0) {
        return Err(out_of_range(bytes));
    }
    Ok((EntryId(main), rest))
}

/// Where threads and calls start.
pub fn starts_of(
    alloc: Global,
    hosts: usize,
    labels: usize,
    bytes: &[u8],
) -> Result<(Starts, &[u8]), ReadError>
    ensures starts { GivesRead (λ x. (starts_shape x.0, x.1.now)) result (starts_at hosts labels bytes.now) }
    ensures few { IfOk result (λ x. length x.0.entries.items ≤ MOST_ITEMS) }
    ensures behind { IfOk result (λ x. x.0.behind < 2 ^ 63) }
{
    let (entries, rest) = entries_of(alloc, hosts, labels, bytes)?;
    let behind = rest.len();
    let (sites, rest) = sites_of(alloc, hosts, rest)?;
    let (root, rest) = root_of(&entries, rest)?;
    let (main, rest) = main_of(&entries, root, rest)?;
    let starts = Starts {
        entries,
        behind,
        sites,
        root,
        main,
    };
    Ok((starts, rest))
}
