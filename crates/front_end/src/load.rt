//! The loads of the files of a command.

ghost use Rattle.std.specs.Prelude.{◌≡◌, ◌≤◌, ◌+◌, length, map, IfOk, IfErr, OnOk, MatchResult};
ghost use Rattle.std.specs.List.{AllZip};
ghost use Rattle.std.specs.String.{string_bytes};
ghost use Rattle.js_base.specs.Counts.{counted};
ghost use Rattle.js_base.specs.declared.limits.TheConstants.{HOSTS_BYTES, PROGRAM_BYTES, SCRIPT_BYTES};
ghost use Rattle.front_end.specs.Loading.{Gives, IsLoaded, IsStopOf, LoadStops, StopCounts, StopsWith, StopsLoading};
ghost use Rattle.front_end.specs.Loads.{AreKept, counted_by, files_change};

use crate::stop::{Stop, stopped};
use crate::verdict::Verdict;
use js_base::limits::{HOSTS_BYTES, PROGRAM_BYTES, SCRIPT_BYTES};
use js_base::{Files, LoadError};
use std::alloc::Global;

/// A file to load, and how many bytes of it are read at most.
#[derive(Clone, Copy)]
pub struct Asked<'a> {
    pub name: &'a str,
    pub most: usize,
}

/// The file of a program.
pub fn program_file(name: &str) -> Asked<'_>
    ensures name { result.name.now ≡ name.now }
    ensures most { result.most ≡ PROGRAM_BYTES }
{
    Asked {
        name,
        most: PROGRAM_BYTES,
    }
}

/// A host file.
pub fn host_file(name: &str) -> Asked<'_>
    ensures name { result.name.now ≡ name.now }
    ensures most { result.most ≡ HOSTS_BYTES }
{
    Asked {
        name,
        most: HOSTS_BYTES,
    }
}

/// A file of starting values or of events.
pub fn script_file(name: &str) -> Asked<'_>
    ensures name { result.name.now ≡ name.now }
    ensures most { result.most ≡ SCRIPT_BYTES }
{
    Asked {
        name,
        most: SCRIPT_BYTES,
    }
}

/// What was loaded of a file.
#[derive(Drop)]
pub enum Loaded {
    Bytes(Vec<u8>),
    /// It holds more bytes than are read.
    TooLong,
}

/// Why a file was not loaded.
#[derive(Clone, Copy)]
pub enum LoadStop {
    OutOfMemory,
    /// Nothing is held under its name.
    Absent,
    /// The files failed.
    Failed,
}

/// Loads files in order, up to the first that is absent or fails.
pub fn load_all<F: Files>(
    alloc: Global,
    files: &mut F,
    asked: &[Asked<'_>],
) -> Result<Vec<Loaded>, Stop>
    ensures loaded { IfOk result (λ loaded.
        AllZip (λ one given. Gives (F.held files.old) one.name.now one.most given) asked.now loaded.items) }
    ensures stopped { IfErr result (StopsWith (StopsLoading (map (λ one. one.name.now) asked.now)
        (files_change F.Files files.old files.new))) }
    ensures loads { OnOk result (F.loads files.new ≡ counted_by (length asked.now) (F.loads files.old)) }
    ensures faults { OnOk result (F.faults files.new ≡ F.faults files.old) }
    ensures few { F.loads files.new ≤ F.loads files.old + length asked.now }
    ensures kept { AreKept (files_change F.Files files.old files.new) }
{
    let mut all = Vec::new(alloc);
    for one in asked {
        match load(alloc, files, one.name, one.most) {
            Ok(loaded) => all.push(loaded)?,
            Err(stop) => return Err(due_at_stop(alloc, one.name, stop)),
        }
    }
    Ok(all)
}

/// The bytes of a file, where they are no more than so many.
fn load<F: Files>(alloc: Global, files: &mut F, name: &str, most: usize) -> Result<Loaded, LoadStop>
    ensures loaded { MatchResult result
        (Gives (F.held files.old) name.now most)
        (LoadStops (F.held files.old) name.now) }
    ensures held { F.held files.new ≡ F.held files.old }
    ensures loads { F.loads files.new ≡ counted (F.loads files.old) }
    ensures saves { F.saves files.new ≡ F.saves files.old }
    ensures faults { MatchResult result
        (λ loaded. F.faults files.new ≡ F.faults files.old)
        (StopCounts name.now (F.faults files.old) (F.faults files.new) (F.failed files.new)) }
{
    match files.load(alloc, name, most) {
        Ok(bytes) => Ok(Loaded::Bytes(bytes)),
        Err(LoadError::TooLong) => Ok(Loaded::TooLong),
        Err(LoadError::Absent) => Err(LoadStop::Absent),
        Err(LoadError::Failed) => Err(LoadStop::Failed),
        Err(LoadError::OutOfMemory) => Err(LoadStop::OutOfMemory),
    }
}

/// What is loaded of a file that holds this text, where no more than so many bytes are read.
pub fn as_loaded(text: String, most: usize) -> Loaded
    ensures { IsLoaded most (string_bytes text) result }
{
    if text.len() <= most {
        Loaded::Bytes(text.into_bytes())
    } else {
        Loaded::TooLong
    }
}

/// What is due where a file was not loaded.
fn due_at_stop(alloc: Global, name: &str, stop: LoadStop) -> Stop
    ensures { StopsWith (IsStopOf stop name.now) result }
{
    match stop {
        LoadStop::OutOfMemory => Stop::OutOfMemory,
        LoadStop::Absent => stopped(Verdict::no_such_file(alloc, name)),
        LoadStop::Failed => stopped(Verdict::file_fault(alloc, name)),
    }
}
