//! Journals of all hosts, merged.

ghost use Rattle.std.specs.Prelude.{◌≡◌, ◌≤◌, ◌<◌, length, slice_index, IfOk, IfErr, IfNone, IfSome, Some, replicate};
ghost use Rattle.js_base.specs.declared.ids.HostId.{HostId};
ghost use Rattle.js_base.specs.declared.limits.TheConstants.{HOSTS};
ghost use Rattle.host_core.specs.declared.host.TheConstants.{MOST_CALLS};
ghost use Rattle.net_world.specs.World.{AreHostsOf, world_at_start};
ghost use Rattle.record_merge.specs.JournalLines.{IsNotMerged, all_of, lines_in, number_at};
ghost use Rattle.record_merge.specs.Meeting.{MeetsJournals, IsFirstLeft, journal_at};
ghost use Rattle.record_merge.specs.Merging.{IsMerged, IsMergeRefusedFor};
ghost use Rattle.record_merge.specs.Reading.{bytes_of};

use crate::journal::MergeError;
use crate::laws::{merge_laws, single_laws};
use crate::merging::walk;
use crate::reading::read_journals;
use event_text::{BadMessage, Event, Line};
use host_code::Code;
use host_decl::Hosts;
use jif_tree::Store;
use js_base::limits::HOSTS;
use js_base::{HostId, OutOfMemory};
use net_world::World;
use std::alloc::Global;

/// The list of events that meets the journals of all hosts, of which there is one for each host, in order. No host
/// misbehaves.
///
/// # Errors
/// `TooLong` where the first journal that is not read has more than 16,777,216 bytes, `BadLine` where a line of it has
/// no form, with its number; then `NoMatch` where no list meets the journals, with the first host whose journal is left
/// before its end, and the number of the line at which it is left: no list comes further.
pub fn merge(
    alloc: Global,
    code: &Code,
    hosts: &Hosts,
    start: &Store,
    journals: &[Vec<u8>],
) -> Result<Vec<Event>, MergeError>
    requires hosts { AreHostsOf code.now hosts.now.hosts }
    requires count { length journals.now ≡ length code.now.hosts }
    ensures merged { IfOk result (λ events. IsMerged code.now (world_at_start code.now hosts.now.hosts 0 start.now)
        (bytes_of journals.now) events.items) }
    ensures refused { IfErr result (IsMergeRefusedFor code.now (world_at_start code.now hosts.now.hosts 0 start.now)
        (bytes_of journals.now)) }
{
    let few = code.hosts().len() <= HOSTS;
    prove!(few);
    let lines = read_journals(alloc, code, journals)?;
    merge_lines(alloc, code, hosts, start, &lines)
}

/// The list of events that meets journals by their lines that are merged.
///
/// # Errors
/// `NoMatch` where there is none, with the first host whose journal is left before its end, and the number of the line
/// at which it is left: no list comes further.
fn merge_lines(
    alloc: Global,
    code: &Code,
    hosts: &Hosts,
    start: &Store,
    journals: &[Vec<Line<'_>>],
) -> Result<Vec<Event>, MergeError>
    requires hosts { AreHostsOf code.now hosts.now.hosts }
    requires count { length journals.now ≡ length code.now.hosts }
    requires few { lines_in (all_of journals.now) < MOST_CALLS }
    ensures meets { IfOk result (λ events. MeetsJournals code.now (world_at_start code.now hosts.now.hosts 0 start.now)
        (all_of journals.now) events.items) }
    ensures refused { IfErr result (IsNotMerged code.now
        (world_at_start code.now hosts.now.hosts 0 start.now) journals.now) }
{
    single_laws();
    merge_laws();
    let _no_message: Option<BadMessage> = None;
    let few = code.hosts().len() <= HOSTS;
    prove!(few);
    let mut world = World::start(alloc, code, hosts, 0, start)?;
    let mut places = no_places(alloc, journals.len())?;
    let events = walk(alloc, code, &mut world, journals, &mut places)?;
    match first_left(journals, &places) {
        Some((host, number)) => Err(MergeError::NoMatch(host, number)),
        None => Ok(events),
    }
}

/// The first host whose journal is left before its end, and the number of the line at which it is left.
fn first_left(journals: &[Vec<Line<'_>>], places: &[usize]) -> Option<(HostId, u32)>
    requires few { length journals.now ≤ HOSTS }
    requires count { length places.now ≡ length journals.now }
    ensures none { IfNone result ((host : HostId) →
        length (journal_at (all_of journals.now) host) ≤ slice_index places.now host.0) }
    ensures some { IfSome result (λ left. IsFirstLeft (all_of journals.now) places.now left.0) }
    ensures number { IfSome result (λ left.
        number_at journals.now left.0 (slice_index places.now left.0.0) ≡ Some left.1) }
{
    for (number, journal) in journals.iter().enumerate() {
        let place = places[number];
        if place < journal.len() {
            return Some((HostId(number as u8), journal[place].number));
        }
    }
    None
}

/// Places of which each is 0.
fn no_places(alloc: Global, count: usize) -> Result<Vec<usize>, OutOfMemory>
    ensures { IfOk result (λ places. places.items ≡ replicate count 0) }
{
    Ok(vec![in alloc; 0; count]?)
}
