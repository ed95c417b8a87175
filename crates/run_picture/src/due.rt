//! What is due for the picture of a run: from files to a chart, or to a refusal.

ghost use Rattle.std.specs.Prelude.{◌≡◌, ℕ, List, All, [], string_bytes};
ghost use Rattle.js_base.specs.declared.ids.HostId.{HostId};
ghost use Rattle.js_base.specs.declared.limits.TheConstants.{HOSTS_BYTES, PROGRAM_BYTES, SCRIPT_BYTES};
ghost use Rattle.event_text.specs.OwnTokens.{IsOwnEvent};
ghost use Rattle.front_end.specs.Loading.{EndsAs, EndsIn, IsLoaded};
ghost use Rattle.front_end.specs.PlacedCode.{code_of};
ghost use Rattle.front_end.specs.PlacedShapes.{placed_shape};
ghost use Rattle.net_world.specs.Fits.{HasOwnToken, WorldFits, world_of};
ghost use Rattle.net_world.specs.Steps.{HaveMade};
ghost use Rattle.run_rows.specs.Stacks.{HaveFirstStacks};
ghost use Rattle.run_picture.specs.RunDue.{DueForChart, DueForChartOfEvents, EventsDrawn};

use crate::drawing::run_text;
use event_text::{Event, Script};
use front_end::{Loaded, PlacedSource, Stop, Verdict, code_of, read_places};
use host_code::Code;
use js_base::Status;
use net_world::World;
use run_rows::{row_laws, rows_of};
use run_sheet::running_of;
use script_stages::{events_refused, first_world, read_script};
use std::alloc::Global;

/// What is due for a program, a host file and a script of this name that were loaded: the chart of the events of the
/// script, or why one of the files is refused.
///
/// # Errors
/// `Due` where one of them is refused, and else want of memory.
pub fn run_due(
    alloc: Global,
    name: &str,
    program: &Loaded,
    hosts: &Loaded,
    events: &Loaded,
) -> Result<Verdict, Stop>
    ensures { (p h e : List ℕ) → IsLoaded PROGRAM_BYTES p program.now → IsLoaded HOSTS_BYTES h hosts.now →
        IsLoaded SCRIPT_BYTES e events.now → EndsIn (DueForChart name.now p h e) result }
{
    let placed = read_places(alloc, program, hosts)?;
    let code = code_of(alloc, &placed)?;
    let said = read_script(alloc, name, &code, events)?;
    verdict_for_said(alloc, &placed, &code, name, &said)
}

/// What is due for a script of a file of this name that was read.
fn verdict_for_said(
    alloc: Global,
    placed: &PlacedSource,
    code: &Code,
    name: &str,
    said: &Script,
) -> Result<Verdict, Stop>
    requires code { code.now ≡ code_of (placed_shape placed.now) }
    requires own { All (λ one. IsOwnEvent code.now.hosts said.now.bad one.1) said.now.events }
    ensures { EndsIn (DueForChartOfEvents name.now (placed_shape placed.now) said.now) result }
{
    row_laws();
    let first = first_world(alloc, placed, code, said)?;
    let text = events_drawn(alloc, name, placed, code, first, said.events())?;
    Ok(Verdict::Print {
        status: Status::Done,
        text,
    })
}

/// The chart of the events of a script of this name, from a world that has just started.
///
/// # Errors
/// `Due` where an event is refused.
fn events_drawn(
    alloc: Global,
    name: &str,
    placed: &PlacedSource,
    code: &Code,
    first: World,
    events: &[(u32, Event)],
) -> Result<String, Stop>
    requires code { code.now ≡ code_of (placed_shape placed.now) }
    requires fits { WorldFits code.now first }
    requires fresh { HaveMade 0 first.hosts }
    requires own { All (λ one. HasOwnToken (world_of first) one.1) events.now }
    requires stacks { HaveFirstStacks code.now (world_of first) }
    requires nothing { (from to : HostId) → (world_of first).flying from to ≡ [] }
    ensures { EndsAs string_bytes (EventsDrawn name.now (placed_shape placed.now) (world_of first) events.now) result }
{
    let mut world = first;
    let running = running_of(alloc, code, &world)?;
    match rows_of(alloc, code, &mut world, events) {
        Ok(run) => Ok(run_text(alloc, placed, code, &world, &run, running.as_slice())?),
        Err(error) => Err(events_refused(alloc, name, error)),
    }
}
