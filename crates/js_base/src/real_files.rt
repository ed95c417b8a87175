//! The files of the system.
//!
//! `no such file` is for a missing file alone. The real files say that nothing is held under a name only where the
//! system answers that the file was not found. That is also so where a folder on the way is missing. A folder in place
//! of a file, or a file in place of a folder, is a file fault. A missing file is no fault and is not counted as one.

ghost use Rattle.std.specs.Prelude.{◌≡◌, ◌≤◌, [], None, OnOk, OnErr, string_bytes};
ghost use Rattle.js_base.specs.Counts.{Rose};

use crate::files::{Files, LoadError, SaveError};
use std::alloc::{AllocError, Global};
use std::io::{ErrorKind, Read};
use std::marker::Model;
use std::{fs, io, rt};

/// The files of the system. It tells nothing of what they hold.
#[derive(Drop)]
pub struct RealFiles<R> {
    runtime: R,
    faults: u64,
    loads: u64,
    saves: u64,
    failed: String,
}

impl<R> Model for RealFiles<R> {
    ghost use Rattle.std.specs.Prelude.{string_bytes};
    ghost use Rattle.js_base.specs.RealFiles.{FileCounts};

    ghost Value = { FileCounts };

    ghost view = { λ f. record {
      faults = f.faults;
      loads = f.loads;
      saves = f.saves;
      failed = string_bytes f.failed;
    } };
}

impl<R: rt::Files + AllocGlobal + Drop> RealFiles<R> {
    ghost use Rattle.js_base.specs.RealFiles.{after_fault};

    /// The files that the runtime reaches.
    pub fn new(runtime: R) -> Self
        ensures { result ≡ record { faults = 0; loads = 0; saves = 0; failed = [] } }
    {
        let failed = String::new(runtime.alloc());
        RealFiles {
            runtime,
            faults: 0,
            loads: 0,
            saves: 0,
            failed,
        }
    }

    /// Counts a fault at the name, which is copied before anything changes.
    fn fail(&mut self, alloc: Global, name: &str) -> Result<(), AllocError>
        ensures ok { OnOk result (self.new ≡ after_fault name.now self.old) }
        ensures err { OnErr result (self.new ≡ self.old) }
        ensures faults { self.old.faults ≤ self.new.faults }
        ensures cause { OnOk result (Rose self.old.faults self.new.faults) }
    {
        let failed = String::from_str(alloc, name)?;
        self.failed = failed;
        self.faults = self.faults.saturating_add(1);
        Ok(())
    }
}

impl<R: rt::Files + AllocGlobal + Drop> Files for RealFiles<R> {
    ghost faults = { λ f. f.faults };

    ghost loads = { λ f. f.loads };

    ghost saves = { λ f. f.saves };

    ghost failed = { λ f. f.failed };

    ghost held = { λ _. None };

    fn load(&mut self, alloc: Global, name: &str, most: usize) -> Result<Vec<u8>, LoadError> {
        self.loads = self.loads.saturating_add(1);
        match read_past(&self.runtime, alloc, name, most) {
            Ok(bytes) if bytes.len() <= most => Ok(bytes),
            Ok(_) => Err(LoadError::TooLong),
            Err(error) => match error.kind() {
                ErrorKind::NotFound => Err(LoadError::Absent),
                ErrorKind::OutOfMemory => Err(LoadError::OutOfMemory),
                _ => {
                    self.fail(alloc, name)?;
                    Err(LoadError::Failed)
                }
            },
        }
    }

    fn save(&mut self, alloc: Global, name: &str, bytes: &[u8]) -> Result<(), SaveError> {
        self.saves = self.saves.saturating_add(1);
        match fs::write(&self.runtime, name, bytes) {
            Ok(()) => Ok(()),
            Err(error) if error.kind() == ErrorKind::OutOfMemory => Err(SaveError::OutOfMemory),
            Err(_) => {
                self.fail(alloc, name)?;
                Err(SaveError::Failed)
            }
        }
    }
}

/// The first bytes of a file, at most one more than `most`, so that no endless file is read whole.
fn read_past<R: rt::Files>(
    runtime: &R,
    alloc: Global,
    name: &str,
    most: usize,
) -> io::Result<Vec<u8>> {
    let limit = (most as u64).saturating_add(1);
    let mut bytes = Vec::new(alloc);
    fs::open(runtime, name)?
        .take(limit)
        .read_to_end(&mut bytes)?;
    Ok(bytes)
}
