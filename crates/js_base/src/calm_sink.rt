//! A sink in memory that never fails.

ghost use Rattle.std.specs.Prelude.{◌≡◌, ◌++◌, [], Some, OnOk, OnErr, IsOkUnless};
ghost use Rattle.js_base.specs.Sink.{Takes, TakesFront};

use crate::sink::{PutError, Sink};
use std::alloc::Global;
use std::marker::Model;

/// A sink in memory that never fails.
#[derive(Drop)]
pub struct CalmSink {
    taken: Vec<u8>,
}

impl Model for CalmSink {
    ghost use Rattle.std.specs.Prelude.{ℕ, List};

    ghost Value = { List ℕ };

    ghost view = { λ s. s.taken.items };
}

impl CalmSink {
    /// Has taken nothing.
    pub fn new(alloc: Global) -> Self
        ensures { result ≡ [] }
    {
        CalmSink {
            taken: Vec::new(alloc),
        }
    }
}

impl Sink for CalmSink {
    ghost faults = { λ _. 0 };

    ghost taken = { λ s. Some s };

    fn put(&mut self, _alloc: Global, bytes: &[u8]) -> Result<(), PutError>
        ensures ok { OnOk result (Takes bytes.now (Some self.old) (Some self.new)) }
        ensures err { OnErr result (TakesFront bytes.now (Some self.old) (Some self.new)) }

        // It never fails.
        ensures calm { IsOkUnless result PutError.OutOfMemory }
        ensures after { OnOk result (self.new ≡ self.old ++ bytes.now) }
        ensures no_memory { OnErr result (self.new ≡ self.old) }
    {
        self.taken.extend_from_slice(bytes)?;
        Ok(())
    }
}
