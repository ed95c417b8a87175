//! What is due for an accepted program in its places, and for journals of its hosts.

ghost use Rattle.std.specs.Prelude.{◌≡◌, ◌≢◌, ℕ, List, IfOk, length, map, string_bytes};
ghost use Rattle.std.specs.List.{AllZip};
ghost use Rattle.js_base.specs.declared.limits.TheConstants.{SCRIPT_BYTES};
ghost use Rattle.front_end.specs.Loading.{EndsIn, IsLoaded};
ghost use Rattle.front_end.specs.PlacedShapes.{placed_shape};
ghost use Rattle.front_end.specs.Verdicts.{verdict_shape};
ghost use Rattle.jifmerge.specs.Merged.{DueForPlaced, DueForValues, StandsForJournal, name_of, refusal_for};

use crate::printing::merged_script;
use event_text::{BadMessage, Event};
use front_end::{
    LineCause, Loaded, PlacedSource, Stop, Verdict, code_of, starting_values, stopped,
};
use jif_tree::Store;
use js_base::limits::SCRIPT_BYTES;
use js_base::{HostId, OutOfMemory, Status};
use record_merge::{MergeError, merge};
use std::alloc::Global;

/// What is due for a file of starting values of this name and for journals of these names, one for each host.
pub fn verdict_for_placed(
    alloc: Global,
    name: &str,
    names: &[String],
    placed: &PlacedSource,
    start: &Loaded,
    journals: &[Loaded],
) -> Result<Verdict, Stop>
    requires names { length names.now ≡ length journals.now }
    requires count { length journals.now ≡ length (placed_shape placed.now).source.file.hosts }
    ensures { (s : List ℕ) (js : List (List ℕ)) → IsLoaded SCRIPT_BYTES s start.now →
        AllZip (IsLoaded SCRIPT_BYTES) js journals.now →
        EndsIn (DueForPlaced name.now (map string_bytes names.now) s js (placed_shape placed.now)) result }
{
    let source = &placed.source;
    let store = starting_values(alloc, name, start, &source.checked.program.fields)?;
    verdict_for_values(alloc, names, placed, &store, journals)
}

/// What is due for these starting values and journals.
fn verdict_for_values(
    alloc: Global,
    names: &[String],
    placed: &PlacedSource,
    start: &Store,
    journals: &[Loaded],
) -> Result<Verdict, Stop>
    requires names { length names.now ≡ length journals.now }
    requires count { length journals.now ≡ length (placed_shape placed.now).source.file.hosts }
    ensures { (js : List (List ℕ)) → AllZip (IsLoaded SCRIPT_BYTES) js journals.now →
        EndsIn (DueForValues (map string_bytes names.now) js (placed_shape placed.now) start.now) result }
{
    let _no_event: Option<Event> = None;
    let _no_message: Option<BadMessage> = None;
    let code = code_of(alloc, placed)?;
    let bytes = bytes_of_all(alloc, journals)?;
    match merge(alloc, &code, placed.hosts(), start, &bytes) {
        Ok(events) => {
            let text = merged_script(alloc, &code, start, &events)?;
            let status = Status::Done;
            Ok(Verdict::Print { status, text })
        }
        Err(why) => Err(stopped(refused(alloc, names, why))),
    }
}

/// Why the journals of these names are not merged.
fn refused(alloc: Global, names: &[String], why: MergeError) -> Result<Verdict, OutOfMemory>
    ensures refused { IfOk result (λ verdict.
        verdict_shape verdict ≡ refusal_for (map string_bytes names.now) why) }
    ensures not_memory { IfOk result (λ _. why ≢ MergeError.OutOfMemory) }
{
    match why {
        MergeError::OutOfMemory => Err(OutOfMemory),
        MergeError::TooLong(host) => Verdict::too_long(alloc, name_of(names, host)),
        MergeError::BadLine(host, line) => {
            Verdict::at_line(alloc, name_of(names, host), line, LineCause::NoForm)
        }
        MergeError::NoMatch(host, line) => {
            Verdict::at_line(alloc, name_of(names, host), line, LineCause::NoMatch)
        }
    }
}

/// The name of the journal of a host.
fn name_of(names: &[String], host: HostId) -> &str
    ensures { result.now ≡ name_of (map string_bytes names.now) host }
{
    match names.get(host.0 as usize) {
        Some(name) => name.as_str(),
        None => "",
    }
}

/// The bytes of journals.
fn bytes_of_all(alloc: Global, journals: &[Loaded]) -> Result<Vec<Vec<u8>>, OutOfMemory>
    ensures { IfOk result (λ all. AllZip (λ one bytes. StandsForJournal one bytes.items) journals.now all.items) }
{
    let mut all = Vec::new(alloc);
    for journal in journals {
        all.push(bytes_of(alloc, journal)?)?;
    }
    Ok(all)
}

/// The bytes of a journal, and for one that has more than are read so many others that they are too many too.
fn bytes_of(alloc: Global, journal: &Loaded) -> Result<Vec<u8>, OutOfMemory>
    ensures { IfOk result (λ bytes. StandsForJournal journal.now bytes.items) }
{
    match journal {
        Loaded::Bytes(bytes) => Ok(Vec::from_slice(alloc, bytes)?),
        Loaded::TooLong => Ok(vec![in alloc; 0; SCRIPT_BYTES + 1]?),
    }
}
