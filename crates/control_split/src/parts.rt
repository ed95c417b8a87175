//! Each host's instructions, and the entries with their places, put together from a trace.

ghost use Rattle.std.specs.Prelude.{◌≡◌, ◌≤◌, ◌∷◌, [], ◌++◌, IfOk, OnOk, All, map, length, replicate, take, vec_items};
ghost use Rattle.control_split.specs.Assembly.{first_assembly, list_on, noted, with_item, assembled, noted_place};
ghost use Rattle.control_split.specs.Assembly.{settled_entries, settled_operation, settled_instruction};
ghost use Rattle.control_split.specs.Assembly.{settled_part, settled_parts};

use crate::trace::TraceItem;
use host_code::{Entry, Instr, MOST_ITEMS, Op, Part};
use js_base::{HostId, OutOfMemory};
use std::alloc::Global;
use std::marker::Model;

/// How many numbers a host may have.
pub const HOST_NUMBERS: usize = 256;

/// What has been put together so far: the instructions of each number of a host, the entries, and where these stand and
/// branches lead, as far as it is known.
#[derive(Drop)]
pub struct Assembly {
    lists: Vec<Vec<Instr>>,
    entries: Vec<Entry>,
    standing: Vec<Option<u32>>,
    landing: Vec<Option<u32>>,
}

impl Model for Assembly {
    ghost use Rattle.std.specs.Prelude.{◌≡◌, ◌≤◌, All, map, length, vec_items};
    ghost use Rattle.host_code.specs.declared.code.TheConstants.{MOST_ITEMS};
    ghost use Rattle.control_split.specs.declared.parts.TheConstants.{HOST_NUMBERS};
    ghost use Rattle.control_split.specs.Assembly.{AssemblyShape};

    ghost Value = { AssemblyShape };

    ghost view = { λ a. record {
      lists = map vec_items a.lists.items;
      entries = a.entries.items;
      standing = a.standing.items;
      landing = a.landing.items;
    } };

    ghost invariant = { λ a. (length a.lists.items ≡ HOST_NUMBERS)
        × All (λ list. length list.items ≤ MOST_ITEMS) a.lists.items };
}

/// So many empty lists.
fn empty_lists(alloc: Global, count: usize) -> Result<Vec<Vec<Instr>>, OutOfMemory>
    ensures { IfOk result (λ lists. map vec_items lists.items ≡ replicate count []) }
{
    let mut lists = Vec::new(alloc);
    for _made in 0..count {
        lists.push(Vec::new(alloc))?;
    }
    Ok(lists)
}

/// Notes a place for a number that is there and has none.
fn note(places: &mut Vec<Option<u32>>, number: u32, place: u32)
    ensures { places.new.items ≡ noted places.old.items number place }
{
    if let Some(None) = places.get(number as usize) {
        places[number as usize] = Some(place);
    }
}

/// The place that is noted for a number, the end where there is none.
fn noted_place(places: &[Option<u32>], number: usize, end: u32) -> u32
    ensures { result ≡ noted_place places.now number end }
{
    match places.get(number) {
        Some(Some(place)) => *place,
        _ => end,
    }
}

/// Adds an instruction to the list of its host.
fn push_to(list: &mut Vec<Instr>, instruction: Instr) -> Result<(), OutOfMemory>
    requires { length list.old.items ≤ MOST_ITEMS }
    ensures pushed { OnOk result (list.new.items ≡ list.old.items ++ instruction ∷ []) }
    ensures few { length list.new.items ≤ MOST_ITEMS }
{
    if list.len() >= MOST_ITEMS {
        return Err(OutOfMemory);
    }
    Ok(list.push(instruction)?)
}

impl Assembly {
    /// Nothing yet, for so many entries and branches.
    ///
    /// # Errors
    /// Memory ran out.
    pub fn new(alloc: Global, entries: u32, branches: u32) -> Result<Assembly, OutOfMemory>
        ensures { IfOk result (λ assembly.
            assembly ≡ first_assembly (record { entries = entries; branches = branches })) }
    {
        Ok(Assembly {
            lists: empty_lists(alloc, HOST_NUMBERS)?,
            entries: Vec::new(alloc),
            standing: vec![in alloc; None; entries as usize]?,
            landing: vec![in alloc; None; branches as usize]?,
        })
    }

    /// How many instructions a host has so far.
    fn count_on(&self, host: HostId) -> u32
        ensures { result ≡ length (list_on self.now.lists host) }
    {
        self.lists[host.0 as usize].len() as u32
    }

    /// Adds one more item.
    ///
    /// # Errors
    /// Memory ran out.
    pub fn add(&mut self, one: TraceItem) -> Result<(), OutOfMemory>
        ensures { OnOk result (self.new ≡ with_item self.old one) }
    {
        match one {
            TraceItem::Instruction(host, instruction) => {
                push_to(&mut self.lists[host.0 as usize], instruction)?;
            }
            TraceItem::Entry(host, label, need) => {
                let at = 0;
                self.entries.push(Entry {
                    host,
                    at,
                    label,
                    need,
                })?;
            }
            TraceItem::Stands(host, number) => {
                let place = self.count_on(host);
                note(&mut self.standing, number, place);
            }
            TraceItem::Lands(host, number) => {
                let place = self.count_on(host);
                note(&mut self.landing, number, place);
            }
        }
        Ok(())
    }

    /// The entries with their places.
    ///
    /// # Errors
    /// Memory ran out.
    pub fn settled_entries(&self, alloc: Global) -> Result<Vec<Entry>, OutOfMemory>
        ensures { IfOk result (λ entries. entries.items ≡ settled_entries self.now 0 self.now.entries) }
    {
        let mut entries = Vec::new(alloc);
        for (number, entry) in self.entries.iter().enumerate() {
            let at = noted_place(&self.standing, number, self.count_on(entry.host));
            entries.push(Entry {
                host: entry.host,
                at,
                label: entry.label,
                need: entry.need,
            })?;
        }
        Ok(entries)
    }

    /// The parts of the first hosts, so many of them, whose branches lead where they should.
    ///
    /// # Errors
    /// Memory ran out.
    pub fn into_parts(self, alloc: Global, hosts: usize) -> Result<Vec<Part>, OutOfMemory>
        ensures { IfOk result (λ parts. parts.items ≡ settled_parts self hosts) }
    {
        let Assembly { lists, landing, .. } = self;
        parts_of(alloc, &landing, lists, hosts)
    }
}

/// What an instruction does on a host with so many instructions. A branch leads where it should.
fn settled_operation(landing: &[Option<u32>], end: u32, op: Op) -> Op
    ensures { result ≡ settled_operation landing.now end op }
{
    match op {
        Op::Branch(guard, number) => Op::Branch(guard, noted_place(landing, number as usize, end)),
        other => other,
    }
}

/// An instruction of a host with so many instructions. A branch leads where it should.
fn settled_instruction(landing: &[Option<u32>], end: u32, instruction: Instr) -> Instr
    ensures { result ≡ settled_instruction landing.now end instruction }
{
    let Instr {
        label,
        statement,
        op,
    } = instruction;
    Instr {
        label,
        statement,
        op: settled_operation(landing, end, op),
    }
}

/// The part of a host with these instructions.
fn settled_part(
    alloc: Global,
    landing: &[Option<u32>],
    list: Vec<Instr>,
) -> Result<Part, OutOfMemory>
    requires { length list.items ≤ MOST_ITEMS }
    ensures { IfOk result (λ part. part ≡ settled_part landing.now list.items) }
{
    let end = list.len() as u32;
    let mut settled = Vec::new(alloc);
    for instruction in list {
        settled.push(settled_instruction(landing, end, instruction))?;
    }
    Ok(Part::new(settled))
}

/// The parts of the first lists, so many of them, whose branches lead where they should.
fn parts_of(
    alloc: Global,
    landing: &[Option<u32>],
    lists: Vec<Vec<Instr>>,
    hosts: usize,
) -> Result<Vec<Part>, OutOfMemory>
    requires { All (λ list. length list.items ≤ MOST_ITEMS) lists.items }
    ensures { IfOk result (λ parts. parts.items
        ≡ map (settled_part landing.now) (take hosts (map vec_items lists.items))) }
{
    let mut parts = Vec::new(alloc);
    for list in lists {
        if parts.len() < hosts {
            parts.push(settled_part(alloc, landing, list)?)?;
        }
    }
    Ok(parts)
}

/// What is put together from the items of a trace with so many entries and branches.
///
/// # Errors
/// Memory ran out.
pub fn assembly_of(
    alloc: Global,
    items: Vec<TraceItem>,
    entries: u32,
    branches: u32,
) -> Result<Assembly, OutOfMemory>
    ensures { IfOk result (λ assembly. assembly
        ≡ assembled (first_assembly (record { entries = entries; branches = branches })) items.items) }
{
    let mut assembly = Assembly::new(alloc, entries, branches)?;
    for one in items {
        assembly.add(one)?;
    }
    Ok(assembly)
}
