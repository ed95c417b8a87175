//! How far beside a lifeline an arrow goes down.

ghost use Rattle.std.specs.Prelude.{◌≡◌, ◌≤◌, ◌<◌, ◌+◌, ◌-◌, ◌^◌, All, IfOk, length, min, slice_index};
ghost use Rattle.run_sheet.specs.SendLanes.{counts_behind, counts_left, counts_with, lane_in};
ghost use Rattle.run_sheet.specs.SendLanes.{one_more_flying, send_lanes, sent_start};

use crate::events::host_moved;
use js_base::limits::HOSTS;
use js_base::{HostId, OutOfMemory};
use run_chart::Start;
use run_rows::{Row, What};
use std::alloc::Global;

/// The lane of what is sent in each event.
pub fn lanes_of(alloc: Global, rows: &[Row]) -> Result<Vec<u8>, OutOfMemory>
    ensures { IfOk result (λ lanes. lanes.items ≡ send_lanes rows.now) }
{
    let _few = rows.len();
    let mut counts = [0; HOSTS];
    let mut lanes = Vec::new(alloc);
    for row in rows {
        let lane = follow(&mut counts, row);
        lanes.push(lane)?;
    }
    Ok(lanes)
}

/// The lane of what is sent in an event. The counts follow.
fn follow(counts: &mut [u64], row: &Row) -> u8
    requires { All (λ count. count + 1 < 2 ^ 64) counts.old }
    ensures lane { result ≡ lane_in counts.old row.now }
    ensures counts { counts.new ≡ counts_behind counts.old row.now }
{
    let host = host_moved(&row.what);
    leave(counts, &row.what);
    let lane = lane_of(counts, host);
    post(counts, host, row.posts);
    lane
}

/// What is taken is no longer in flight.
fn leave(counts: &mut [u64], what: &What)
    ensures { counts.new ≡ counts_left counts.old what.now }
{
    if let What::Take(from, _, _) = what {
        let place = from.0 as usize;
        if place < counts.len() {
            counts[place] = counts[place].saturating_sub(1);
        }
    }
}

/// A host sent a message that is in flight now, if it sent one.
fn post(counts: &mut [u64], host: HostId, posts: Option<HostId>)
    requires { All (λ count. count + 1 < 2 ^ 64) counts.old }
    ensures { counts.new ≡ counts_with counts.old host posts }
{
    if let Some(_) = posts {
        one_more(counts, host);
    }
}

/// One more message of a host is in flight.
fn one_more(counts: &mut [u64], host: HostId)
    requires { All (λ count. count + 1 < 2 ^ 64) counts.old }
    ensures { counts.new ≡ one_more_flying counts.old host }
{
    let place = host.0 as usize;
    if place < counts.len() {
        counts[place] += 1;
    }
}

/// The lane of what a host sends.
fn lane_of(counts: &[u64], host: HostId) -> u8
    ensures { result ≡ min (slice_index counts.now host.0) 2 }
{
    match counts.get(host.0 as usize) {
        Some(count) => (*count).min(2) as u8,
        None => 0,
    }
}

/// Where the arrow of a message begins that was sent in the event of a number.
pub fn sent_start(lanes: &[u8], sent_by: Option<u64>) -> Start
    ensures { result ≡ sent_start lanes.now sent_by }
{
    let Some(row) = sent_by else {
        return Start { row: 0, lane: 0 };
    };
    let lane = lanes.get(row as usize).copied().unwrap_or(0);
    Start { row, lane }
}
