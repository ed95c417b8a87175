//! A sink in memory that fails at listed calls.

ghost use Rattle.std.specs.Prelude.{◌≡◌, ◌≤◌, ◌⊎◌, ◌↔◌, [], Some, IsTrue, OnOk, OnErr, IsErrOf};
ghost use Rattle.js_base.specs.Counts.{Rose};
ghost use Rattle.js_base.specs.Sink.{Takes, TakesFront};
ghost use Rattle.js_base.specs.MemSink.{IsListed, after_call, after_fault, with_bytes};

use crate::listed::is_listed;
use crate::sink::{PutError, Sink};
use std::alloc::{AllocError, Global};
use std::marker::Model;

/// A sink in memory, which fails at the calls that were listed.
#[derive(Drop)]
pub struct MemSink {
    taken: Vec<u8>,
    failing: Vec<u64>,
    calls: u64,
    faults: u64,
}

impl Model for MemSink {
    ghost use Rattle.js_base.specs.MemSink.{SinkInMemory};

    ghost Value = { SinkInMemory };

    ghost view = { λ s. record {
      taken = s.taken.items;
      failing = s.failing.items;
      calls = s.calls;
      faults = s.faults;
    } };
}

impl MemSink {
    /// Has taken nothing. The calls of `put` are numbered from 0, and those whose number is in `failing` fail.
    pub fn new(alloc: Global, failing: Vec<u64>) -> Self
        ensures { result ≡ record { taken = []; failing = failing.items; calls = 0; faults = 0 } }
    {
        MemSink {
            taken: Vec::new(alloc),
            failing,
            calls: 0,
            faults: 0,
        }
    }

    /// All that was taken.
    pub fn taken(&self) -> &[u8]
        ensures { result.now ≡ self.now.taken }
    {
        self.taken.as_slice()
    }

    /// Counts a call, and says whether it is listed.
    fn start(&mut self) -> bool
        ensures listed { IsTrue result ↔ IsListed self.old }
        ensures after { self.new ≡ after_call self.old }
    {
        let listed = is_listed(&self.failing, self.calls);
        self.calls = self.calls.saturating_add(1);
        listed
    }

    /// Appends the bytes, or nothing where memory is out.
    fn append(&mut self, bytes: &[u8]) -> Result<(), AllocError>
        ensures ok { OnOk result (self.new ≡ with_bytes bytes.now self.old) }
        ensures err { OnErr result (self.new ≡ self.old) }
    {
        self.taken.extend_from_slice(bytes)
    }

    /// Counts a fault.
    fn fail(&mut self)
        ensures after { self.new ≡ after_fault self.old }
        ensures faults { self.old.faults ≤ self.new.faults }
        ensures cause { Rose self.old.faults self.new.faults }
    {
        self.faults = self.faults.saturating_add(1);
    }
}

impl Sink for MemSink {
    ghost faults = { λ s. s.faults };

    ghost taken = { λ s. Some s.taken };

    fn put(&mut self, _alloc: Global, bytes: &[u8]) -> Result<(), PutError>
        ensures ok { OnOk result (Takes bytes.now (Some self.old.taken) (Some self.new.taken)) }
        ensures err { OnErr result (TakesFront bytes.now (Some self.old.taken) (Some self.new.taken)) }
        ensures faults { self.old.faults ≤ self.new.faults }
        ensures no_fault { IsErrOf result PutError.Failed ⊎ (self.new.faults ≡ self.old.faults) }
        ensures cause { IsErrOf result PutError.Failed → Rose self.old.faults self.new.faults }

        // It fails at the listed calls and at no other.
        ensures listed { IsErrOf result PutError.Failed → IsListed self.old }
        ensures unlisted { OnOk result (¬ IsListed self.old) }

        ensures after { OnOk result (self.new ≡ with_bytes bytes.now (after_call self.old)) }
        ensures after_fault { IsErrOf result PutError.Failed → self.new ≡ after_fault (after_call self.old) }
        ensures no_memory { IsErrOf result PutError.OutOfMemory → self.new ≡ after_call self.old }
    {
        if self.start() {
            self.fail();
            return Err(PutError::Failed);
        }
        self.append(bytes)?;
        Ok(())
    }
}
