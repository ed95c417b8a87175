//! A journal in memory that fails at listed calls.

ghost use Rattle.std.specs.Prelude.{◌≡◌, ◌≤◌, ◌⊎◌, [], Some, IfErr, OnOk, OnErr, IsErrOf, map, string_bytes};
ghost use Rattle.js_base.specs.Counts.{Rose};
ghost use Rattle.js_base.specs.Sink.{Takes, TakesFront};
ghost use Rattle.js_base.specs.MemSink.{IsListed, after_call, after_fault, with_bytes};
ghost use Rattle.node_links.specs.Journals.{JournalIsNamed, after_name};

use crate::journal::Journal;
use js_base::{MemSink, PutError, Sink};
use std::alloc::{AllocError, Global};
use std::marker::Model;

/// A journal in memory, which tells its name too, and fails at the calls that were listed.
#[derive(Drop)]
pub struct MemJournal {
    sink: MemSink,
    named: Vec<String>,
}

impl Model for MemJournal {
    ghost use Rattle.std.specs.Prelude.{map, string_bytes};
    ghost use Rattle.node_links.specs.Journals.{JournalInMemory};

    ghost Value = { JournalInMemory };

    ghost view = { λ j. record { sink = j.sink; named = map string_bytes j.named.items } };
}

impl MemJournal {
    /// Has taken nothing, and no name. The calls of `put` are numbered from 0, and those whose number is in `failing`
    /// fail.
    pub fn new(alloc: Global, failing: Vec<u64>) -> Self
        ensures { result ≡ record {
          sink = record { taken = []; failing = failing.items; calls = 0; faults = 0 };
          named = [];
        } }
    {
        MemJournal {
            sink: MemSink::new(alloc, failing),
            named: Vec::new(alloc),
        }
    }

    /// All that was taken.
    pub fn taken(&self) -> &[u8]
        ensures { result.now ≡ self.now.sink.taken }
    {
        self.sink.taken()
    }

    /// The names of the hosts whose journal it was said to be.
    pub fn named(&self) -> &[String]
        ensures { map string_bytes result.now ≡ self.now.named }
    {
        self.named.as_slice()
    }

    /// Keeps a name, or nothing where memory is out.
    fn keep(&mut self, alloc: Global, name: &str) -> Result<(), AllocError>
        ensures ok { OnOk result (self.new ≡ after_name name.now self.old) }
        ensures err { OnErr result (self.new ≡ self.old) }
    {
        let name = String::from_str(alloc, name)?;
        Ok(self.named.push(name)?)
    }
}

impl Sink for MemJournal {
    ghost faults = { λ j. j.sink.faults };

    ghost taken = { λ j. Some j.sink.taken };

    fn put(&mut self, alloc: Global, bytes: &[u8]) -> Result<(), PutError>
        ensures ok { OnOk result (Takes bytes.now (Some self.old.sink.taken) (Some self.new.sink.taken)) }
        ensures err { OnErr result (TakesFront bytes.now (Some self.old.sink.taken) (Some self.new.sink.taken)) }
        ensures faults { self.old.sink.faults ≤ self.new.sink.faults }
        ensures no_fault { IsErrOf result PutError.Failed ⊎ (self.new.sink.faults ≡ self.old.sink.faults) }
        ensures cause { IsErrOf result PutError.Failed → Rose self.old.sink.faults self.new.sink.faults }

        // It fails at the listed calls and at no other.
        ensures listed { IsErrOf result PutError.Failed → IsListed self.old.sink }
        ensures unlisted { OnOk result (¬ IsListed self.old.sink) }

        ensures after { OnOk result (self.new.sink ≡ with_bytes bytes.now (after_call self.old.sink)) }
        ensures after_fault { IsErrOf result PutError.Failed →
            self.new.sink ≡ after_fault (after_call self.old.sink) }
        ensures no_memory { IsErrOf result PutError.OutOfMemory → self.new.sink ≡ after_call self.old.sink }
        ensures named { self.new.named ≡ self.old.named }
    {
        self.sink.put(alloc, bytes)
    }
}

impl Journal for MemJournal {
    ghost named = { λ j. Some j.named };

    /// In memory the call is not numbered among those that may fail: it wants memory, and else it answers `Ok`.
    fn begin(&mut self, alloc: Global, name: &str) -> Result<(), PutError>
        ensures ok { OnOk result (JournalIsNamed name.now (Some self.old.named) (Some self.new.named)) }
        ensures err { OnErr result ((Some self.new.named ≡ Some self.old.named)
            ⊎ JournalIsNamed name.now (Some self.old.named) (Some self.new.named)) }
        ensures taken { Some self.new.sink.taken ≡ Some self.old.sink.taken }
        ensures faults { self.old.sink.faults ≤ self.new.sink.faults }
        ensures no_fault { IsErrOf result PutError.Failed ⊎ (self.new.sink.faults ≡ self.old.sink.faults) }
        ensures cause { IsErrOf result PutError.Failed → Rose self.old.sink.faults self.new.sink.faults }
        ensures after { OnOk result (self.new ≡ after_name name.now self.old) }
        ensures same { OnErr result (self.new ≡ self.old) }
        ensures calm { IfErr result (λ error. error ≡ PutError.OutOfMemory) }
    {
        Ok(self.keep(alloc, name)?)
    }
}
