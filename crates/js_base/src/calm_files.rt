//! Files in memory that never fail.

ghost use Rattle.std.specs.Prelude.{◌≡◌, ◌≤◌, [], Some, IfOk, OnOk, MatchResult, OnErr, IsErrOf};
ghost use Rattle.std.specs.Prelude.{IsOkUnless};
ghost use Rattle.std.specs.Prelude.{vec_len};
ghost use Rattle.js_base.specs.Files.{LoadFails, ChangesOnly};
ghost use Rattle.js_base.specs.MemFiles.{named_bytes};
ghost use Rattle.js_base.specs.CalmFiles.{held_always, after_load, after_save};

use crate::files::{Files, LoadError, SaveError};
use crate::named_files::{NamedFile, bytes_or_none, replace};
use std::alloc::Global;
use std::marker::Model;

/// Files in memory that never fail. Every name is held, with no bytes where none were given.
#[derive(Drop)]
pub struct CalmFiles {
    files: Vec<NamedFile>,
    loads: u64,
    saves: u64,
}

impl Model for CalmFiles {
    ghost use Rattle.js_base.specs.MemFiles.{named_bytes};
    ghost use Rattle.js_base.specs.CalmFiles.{FilesOfAllNames};

    ghost Value = { FilesOfAllNames };

    ghost view = { λ f. record {
      files = named_bytes f.files.items;
      loads = f.loads;
      saves = f.saves;
    } };
}

impl CalmFiles {
    /// Holds the files. Of a name that is given twice the first bytes count.
    pub fn new(files: Vec<(String, Vec<u8>)>) -> Self
        ensures { result ≡ record { files = named_bytes files.items; loads = 0; saves = 0 } }
    {
        CalmFiles {
            files,
            loads: 0,
            saves: 0,
        }
    }
}

impl Files for CalmFiles {
    ghost faults = { λ _. 0 };

    ghost loads = { λ f. f.loads };

    ghost saves = { λ f. f.saves };

    ghost failed = { λ _. [] };

    ghost held = { λ f. Some (held_always f.files) };

    fn load(&mut self, alloc: Global, name: &str, most: usize) -> Result<Vec<u8>, LoadError>
        ensures within { IfOk result (λ bytes. vec_len bytes ≤ most) }
        ensures gives { MatchResult result
            (λ bytes. held_always self.old.files name.now ≡ Some bytes.items)
            (LoadFails (held_always self.old.files name.now) most) }

        // It never fails, and every name is held.
        ensures calm { ¬ IsErrOf result LoadError.Failed }
        ensures never_absent { ¬ IsErrOf result LoadError.Absent }
        ensures after { self.new ≡ after_load self.old }
    {
        self.loads = self.loads.saturating_add(1);
        let bytes = bytes_or_none(&self.files, name);
        if bytes.len() > most {
            return Err(LoadError::TooLong);
        }
        Ok(Vec::from_slice(alloc, bytes)?)
    }

    fn save(&mut self, alloc: Global, name: &str, bytes: &[u8]) -> Result<(), SaveError>
        ensures saved { OnOk result (held_always self.new.files name.now ≡ Some bytes.now) }
        ensures others { ChangesOnly name.now (Some (held_always self.old.files)) (Some (held_always self.new.files)) }

        // It never fails.
        ensures calm { IsOkUnless result SaveError.OutOfMemory }
        ensures after { OnOk result (self.new ≡ record (after_save self.old) { files = self.new.files }) }
        ensures no_memory { OnErr result (self.new ≡ after_save self.old) }
    {
        self.saves = self.saves.saturating_add(1);
        replace(alloc, &mut self.files, name, bytes)?;
        Ok(())
    }
}
