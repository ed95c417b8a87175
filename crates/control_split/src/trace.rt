//! What the walk of a program has given so far.

ghost use Rattle.std.specs.Prelude.{◌≡◌, ◌+◌, ◌≤◌, [], ◌∷◌, IfOk, OnOk, OnErr, length};
ghost use Rattle.host_code.specs.declared.code.TheConstants.{MOST_ITEMS};
ghost use Rattle.split_rules.specs.Emissions.{entry, stands, lands};
ghost use Rattle.split_rules.specs.SplitCode.{with_labels, label_place};
ghost use Rattle.split_rules.specs.Walk.{emitted};
ghost use Rattle.control_split.specs.Trace.{first_trace, traced, with_item, is_at, IsNamedLast};

use host_code::{Instr, MOST_ITEMS, Op};
use indexmap::IndexSet;
use js_base::{HostId, OutOfMemory, StmtId};
use label_lattice::Label;
use std::alloc::Global;
use std::marker::Model;

/// What the walk gives.
#[derive(Drop)]
pub enum TraceItem {
    /// An instruction of a host. A branch has its number as its target.
    Instruction(HostId, Instr),
    /// An entry on a host: the place of its label, and a word of those who have to trust whoever enters.
    Entry(HostId, u32, u64),
    /// The entry of this number stands at the next instruction of the host.
    Stands(HostId, u32),
    /// The branch of this number leads to the next instruction of the host.
    Lands(HostId, u32),
}

/// For which statement a host gets an instruction, and under which program label.
#[derive(Clone, Copy)]
pub struct Place<'a> {
    pub host: HostId,
    pub label: &'a Label,
    pub statement: StmtId,
}

/// What the walk has given, in its order, with the labels that it names by their places.
#[derive(Drop)]
pub struct Trace {
    labels: IndexSet<Label>,
    items: Vec<TraceItem>,
    entries: u32,
    branches: u32,
    /// The place of the label that was named last. The next one is mostly the same.
    last: u32,
}

impl Model for Trace {
    ghost use Rattle.std.specs.Prelude.{◌≤◌, length};
    ghost use Rattle.host_code.specs.declared.code.TheConstants.{MOST_ITEMS};
    ghost use Rattle.control_split.specs.Trace.{TraceShape, IsNamedLast};

    ghost Value = { TraceShape };

    ghost view = { λ t. record {
      labels = t.labels.keys;
      items = t.items.items;
      counts = record { entries = t.entries; branches = t.branches };
    } };

    ghost invariant = { λ t. IsNamedLast t.labels.keys t.last × (length t.labels.keys ≤ MOST_ITEMS)
        × (length t.items.items ≤ MOST_ITEMS) };
}

/// Whether a label is at this place among labels.
fn is_at(labels: &[Label], place: usize, label: &Label) -> bool
    ensures { result ≡ is_at labels.now place label.now }
{
    if place >= labels.len() {
        return false;
    }
    *label == labels[place]
}

/// The place of a label, which is among the labels from now on.
fn place_in(labels: &mut IndexSet<Label>, label: &Label) -> Result<u32, OutOfMemory>
    requires { length labels.old.keys ≤ MOST_ITEMS }
    ensures labels { OnOk result (labels.new.keys ≡ with_labels labels.old.keys (label.now ∷ [])) }
    ensures place { IfOk result (λ place. place ≡ label_place 0 label.now labels.new.keys) }
    ensures last { IfOk result (λ place. IsNamedLast labels.new.keys place) }
    ensures few { length labels.new.keys ≤ MOST_ITEMS }
    ensures kept { OnErr result (labels.new.keys ≡ labels.old.keys) }
{
    if labels.len() >= MOST_ITEMS && !labels.contains(label) {
        return Err(OutOfMemory);
    }
    let (place, _) = labels.insert_full(*label)?;
    Ok(place as u32)
}

/// The number behind a number.
fn next(number: u32) -> Result<u32, OutOfMemory>
    ensures { IfOk result (λ next. next ≡ number + 1) }
{
    number.checked_add(1).ok_or(OutOfMemory)
}

impl Trace {
    /// Nothing yet.
    pub fn new(alloc: Global) -> Trace
        ensures { result ≡ first_trace }
    {
        Trace {
            labels: IndexSet::new(alloc),
            items: Vec::new(alloc),
            entries: 0,
            branches: 0,
            last: 0,
        }
    }

    /// How many entries there are so far.
    pub fn entries(&self) -> u32
        ensures { result ≡ self.now.counts.entries }
    {
        self.entries
    }

    /// How many branches there are so far.
    pub fn branches(&self) -> u32
        ensures { result ≡ self.now.counts.branches }
    {
        self.branches
    }

    /// The place of a label, which is among the labels from now on.
    ///
    /// # Errors
    /// Memory ran out.
    pub fn label_place(&mut self, label: &Label) -> Result<u32, OutOfMemory>
        ensures trace { OnOk result (self.new ≡ record self.old {
          labels = with_labels self.old.labels (label.now ∷ []);
        }) }
        ensures place { IfOk result (λ place. place ≡ label_place 0 label.now self.new.labels) }
    {
        if !is_at(self.labels.as_slice(), self.last as usize, label) {
            self.last = place_in(&mut self.labels, label)?;
        }
        Ok(self.last)
    }

    /// Adds an item.
    fn push(&mut self, item: TraceItem) -> Result<(), OutOfMemory>
        ensures { OnOk result (self.new ≡ with_item self.old item) }
    {
        if self.items.len() >= MOST_ITEMS {
            return Err(OutOfMemory);
        }
        Ok(self.items.push(item)?)
    }

    /// Gives a host an instruction.
    ///
    /// # Errors
    /// Memory ran out.
    pub fn instruction(&mut self, place: &Place<'_>, op: Op) -> Result<(), OutOfMemory>
        ensures { OnOk result (self.new ≡ traced self.old
            (emitted place.now.host place.now.label.now place.now.statement op ∷ [])) }
    {
        let label = self.label_place(place.label)?;
        if let Op::Branch(_, _) = &op {
            self.branches = next(self.branches)?;
        }
        let instruction = Instr {
            label,
            statement: place.statement,
            op,
        };
        self.push(TraceItem::Instruction(place.host, instruction))
    }

    /// Names an entry. It has the number of those before it.
    ///
    /// # Errors
    /// Memory ran out.
    pub fn entry(&mut self, host: HostId, label: &Label, need: u64) -> Result<(), OutOfMemory>
        ensures { OnOk result (self.new ≡ traced self.old
            (entry (record { host = host; label = label.now; need = need }) ∷ [])) }
    {
        let place = self.label_place(label)?;
        self.entries = next(self.entries)?;
        self.push(TraceItem::Entry(host, place, need))
    }

    /// The entry of this number stands at the next instruction of the host.
    ///
    /// # Errors
    /// Memory ran out.
    pub fn stands(&mut self, host: HostId, number: u32) -> Result<(), OutOfMemory>
        ensures { OnOk result (self.new ≡ traced self.old (stands host number ∷ [])) }
    {
        self.push(TraceItem::Stands(host, number))
    }

    /// The branch of this number leads to the next instruction of the host.
    ///
    /// # Errors
    /// Memory ran out.
    pub fn lands(&mut self, host: HostId, number: u32) -> Result<(), OutOfMemory>
        ensures { OnOk result (self.new ≡ traced self.old (lands host number ∷ [])) }
    {
        self.push(TraceItem::Lands(host, number))
    }

    /// The labels in the order of their places.
    ///
    /// # Errors
    /// Memory ran out.
    pub fn labels(&self, alloc: Global) -> Result<Vec<Label>, OutOfMemory>
        ensures { IfOk result (λ labels. labels.items ≡ self.now.labels) }
    {
        Ok(Vec::from_slice(alloc, self.labels.as_slice())?)
    }

    /// All that was given.
    pub fn into_items(self) -> Vec<TraceItem>
        ensures { result.items ≡ self.items }
    {
        self.items
    }
}
