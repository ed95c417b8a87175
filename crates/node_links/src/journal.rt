//! The journal of a node, as a trait.

ghost use Rattle.std.specs.Prelude.{◌≡◌, ◌≤◌, ◌⊎◌, ℕ, List, Option, IsErrOf, OnErr, OnOk, Some, None, Ok};
ghost use Rattle.js_base.specs.Counts.{Rose};
ghost use Rattle.node_links.specs.Journals.{JournalIsNamed};

use js_base::{MemSink, PutError, Sink};
use std::alloc::Global;

/// Where a node notes what it does, line by line.
pub trait Journal: Sink {
    /// The names of the hosts whose journal it was said to be, in order, where the journal tells.
    ghost named: { Self → Option (List (List ℕ)) };

    /// Says the name of the host whose journal it is. It is called once, before the first put, and puts nothing. After
    /// an error the name was taken or it was not.
    fn begin(&mut self, alloc: Global, name: &str) -> Result<(), PutError>
        ensures ok { OnOk result (JournalIsNamed name.now (named self.old) (named self.new)) }
        ensures err { OnErr result ((named self.new ≡ named self.old)
            ⊎ JournalIsNamed name.now (named self.old) (named self.new)) }
        ensures taken { Self.taken self.new ≡ Self.taken self.old }
        ensures faults { Self.faults self.old ≤ Self.faults self.new }
        ensures no_fault { IsErrOf result PutError.Failed ⊎ (Self.faults self.new ≡ Self.faults self.old) }
        ensures cause { IsErrOf result PutError.Failed → Rose (Self.faults self.old) (Self.faults self.new) };
}

/// A sink in memory has no place for a name, so it takes none and tells of none. A `MemJournal` tells.
impl Journal for MemSink {
    ghost named = { λ _. None };

    /// In memory there is nothing to begin, and the call is not numbered among those that may fail.
    fn begin(&mut self, _alloc: Global, _name: &str) -> Result<(), PutError>
        ensures ok { OnOk result (JournalIsNamed _name.now None None) }
        ensures err { let none : Option (List (List ℕ)) = None in
            OnErr result ((none ≡ none) ⊎ JournalIsNamed _name.now none none) }
        ensures taken { Some self.new.taken ≡ Some self.old.taken }
        ensures faults { self.old.faults ≤ self.new.faults }
        ensures no_fault { IsErrOf result PutError.Failed ⊎ (self.new.faults ≡ self.old.faults) }
        ensures cause { IsErrOf result PutError.Failed → Rose self.old.faults self.new.faults }
        ensures same { self.new ≡ self.old }
        ensures calm { result ≡ Ok tt }
    {
        Ok(())
    }
}
