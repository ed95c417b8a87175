//! What is followed of each host from row to row.

ghost use Rattle.std.specs.Prelude.{◌≡◌, IfOk, OnOk, reverse};
ghost use Rattle.run_rows.specs.Stacks.{first_stack};
ghost use Rattle.run_sheet.specs.ChartRows.{first_tracks, stepped_in, track_behind, track_shape, track_shapes};
ghost use Rattle.run_sheet.specs.ChartRows.{no_track};

use crate::stacks::follow;
use crate::statements::{statement_behind, statement_stepped};
use host_code::Code;
use js_base::limits::HOSTS;
use js_base::{EntryId, HostId, OutOfMemory, StmtId};
use run_rows::{Row, What};
use std::alloc::Global;

/// The entry that ends the program, which is on the root host's stack before the first event.
const HALT: EntryId = EntryId(0);

/// What is followed of a host.
#[derive(Drop)]
pub struct HostTrack {
    /// The entries on its control stack, of which the last is the top.
    pub stack: Vec<EntryId>,
    /// The statement of which it made the last step.
    pub stepped: Option<StmtId>,
}

/// What is known of each host before the first event.
pub fn first_tracks(alloc: Global, code: &Code) -> Result<Vec<HostTrack>, OutOfMemory>
    ensures { IfOk result (λ tracks. track_shapes tracks.items ≡ first_tracks code.now) }
{
    let count = code.hosts().len();
    prove!(count <= HOSTS);
    let mut tracks = Vec::new(alloc);
    for number in 0..count {
        let stack = first_stack(alloc, code, HostId(number as u8))?;
        tracks.push(HostTrack {
            stack,
            stepped: None,
        })?;
    }
    Ok(tracks)
}

/// The control stack of a host before the first event.
fn first_stack(alloc: Global, code: &Code, host: HostId) -> Result<Vec<EntryId>, OutOfMemory>
    ensures { IfOk result (λ stack. reverse stack.items ≡ first_stack code.now host) }
{
    let mut stack = Vec::new(alloc);
    if host.0 == code.root().0 {
        stack.push(HALT)?;
    }
    Ok(stack)
}

/// What is followed of a host that is none of the code's.
pub fn no_track(alloc: Global) -> HostTrack
    ensures { track_shape result ≡ no_track }
{
    HostTrack {
        stack: Vec::new(alloc),
        stepped: None,
    }
}

/// The statement of which an event was a step.
pub fn stepped_in(code: &Code, what: &What) -> Option<StmtId>
    ensures { result ≡ stepped_in code.now what.now }
{
    match what {
        What::Turn(host, at) => statement_stepped(code.instruction(*host, *at)),
        What::Take(_, _, _) => None,
        What::Act(_, _, _) => None,
    }
}

/// Follows an event of the host.
pub fn go_on(code: &Code, track: &mut HostTrack, row: &Row) -> Result<(), OutOfMemory>
    ensures { OnOk result (track_shape track.new ≡ track_behind code.now (track_shape track.old) row.now) }
{
    follow(&mut track.stack, row.change)?;
    track.stepped = statement_behind(track.stepped, stepped_in(code, &row.what));
    Ok(())
}
