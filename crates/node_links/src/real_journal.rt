//! Journals of the system.

ghost use Rattle.std.specs.Prelude.{◌≡◌, ◌≤◌, ◌⊎◌, None};
ghost use Rattle.js_base.specs.Counts.{Rose};

use crate::journal::Journal;
use js_base::{PutError, Sink};
use std::alloc::Global;
use std::io::{self, ErrorKind, Write};
use std::marker::Model;
use std::{fs, rt};

/// A journal in a file with the host's name and `.journal` behind it. It tells nothing of what was taken.
#[derive(Drop)]
pub struct RealJournal<R: rt::Files> {
    runtime: R,
    file: Option<R::File>,
    faults: u64,
}

impl<R: rt::Files> Model for RealJournal<R> {
    ghost use Rattle.std.specs.Prelude.{ℕ};

    // the faults so far
    ghost Value = { ℕ };

    ghost view = { λ j. j.faults };
}

impl<R: rt::Files + AllocGlobal + Drop> RealJournal<R> {
    /// A journal that has not begun.
    pub fn new(runtime: R) -> Self
        ensures { result ≡ 0 }
    {
        RealJournal {
            runtime,
            file: None,
            faults: 0,
        }
    }

    /// Makes the file of a host's journal anew.
    fn make(&mut self, alloc: Global, name: &str) -> io::Result<()>
        ensures { self.new ≡ self.old }
    {
        let path = format!(in alloc; "{name}.journal")?;
        self.file = Some(fs::create(&self.runtime, &path)?);
        Ok(())
    }

    /// Writes all the bytes. A journal that has not begun takes none.
    fn write(&mut self, bytes: &[u8]) -> io::Result<()>
        ensures { self.new ≡ self.old }
    {
        match &mut self.file {
            Some(file) => file.write_all(bytes),
            None => Err(io::Error::from(ErrorKind::NotConnected)),
        }
    }

    /// What is answered after an error of the system. It is a fault where it is not want of memory.
    fn failed(&mut self, error: &io::Error) -> PutError
        ensures faults { self.old ≤ self.new }
        ensures no_fault { (result ≡ PutError.Failed) ⊎ (self.new ≡ self.old) }
        ensures cause { result ≡ PutError.Failed → Rose self.old self.new }
    {
        if error.kind() == ErrorKind::OutOfMemory {
            return PutError::OutOfMemory;
        }
        self.faults = self.faults.saturating_add(1);
        PutError::Failed
    }
}

impl<R: rt::Files + AllocGlobal + Drop> Sink for RealJournal<R> {
    ghost faults = { λ faults. faults };

    ghost taken = { λ _. None };

    fn put(&mut self, _alloc: Global, bytes: &[u8]) -> Result<(), PutError> {
        match self.write(bytes) {
            Ok(()) => Ok(()),
            Err(error) => Err(self.failed(&error)),
        }
    }
}

impl<R: rt::Files + AllocGlobal + Drop> Journal for RealJournal<R> {
    ghost named = { λ _. None };

    fn begin(&mut self, alloc: Global, name: &str) -> Result<(), PutError> {
        match self.make(alloc, name) {
            Ok(()) => Ok(()),
            Err(error) => Err(self.failed(&error)),
        }
    }
}
