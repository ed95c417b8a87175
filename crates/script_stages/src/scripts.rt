//! What a script says, the world that it begins with, and the world that its events leave.

ghost use Rattle.std.specs.Prelude.{◌≡◌, ℕ, List, All, IfOk};
ghost use Rattle.js_base.specs.declared.limits.TheConstants.{SCRIPT_BYTES};
ghost use Rattle.event_text.specs.OwnTokens.{IsOwnEvent};
ghost use Rattle.net_world.specs.Fits.{WorldFits, HasOwnToken, world_of};
ghost use Rattle.net_world.specs.Steps.{HaveMade};
ghost use Rattle.event_text.specs.declared.event.Event.{Event};
ghost use Rattle.host_code.specs.Code.{CodeShape};
ghost use Rattle.net_world.specs.World.{WorldShape};
ghost use Rattle.front_end.specs.Loading.{EndsAs, IsLoaded, StopsWith};
ghost use Rattle.front_end.specs.PlacedCode.{code_of};
ghost use Rattle.front_end.specs.PlacedShapes.{placed_shape};
ghost use Rattle.script_stages.specs.FirstWorld.{first_world};
ghost use Rattle.net_world.specs.Replay.{IsReplayError};
ghost use Rattle.script_stages.specs.Scripts.{AreRefused, EventsHappen, ScriptRead};

use event_text::{Event, EventsError, Script, read_events};
use front_end::{LineCause, Loaded, PlacedSource, Stop, Verdict, stopped};
use host_code::Code;
use js_base::OutOfMemory;
use net_world::laws::fits_laws;
use net_world::{ReplayError, World, replay};
use std::alloc::Global;

/// What a script of this name says of the hosts and fields of a code.
///
/// # Errors
/// `Due` where the script is too long or a line of it has no form.
pub fn read_script(alloc: Global, name: &str, code: &Code, script: &Loaded) -> Result<Script, Stop>
    ensures read { (e : List ℕ) → IsLoaded SCRIPT_BYTES e script.now →
        EndsAs (λ said. said) (ScriptRead name.now e code.now) result }
    ensures own { IfOk result (λ said. All (λ one. IsOwnEvent code.now.hosts said.bad one.1) said.events) }
{
    let Loaded::Bytes(bytes) = script else {
        return Err(stopped(Verdict::too_long(alloc, name)));
    };
    match read_events(alloc, code, bytes) {
        Ok(said) => Ok(said),
        Err(EventsError::BadLine(line)) => {
            Err(stopped(Verdict::at_line(alloc, name, line, LineCause::NoForm)))
        },
        Err(EventsError::TooLong) => Err(stopped(Verdict::too_long(alloc, name))),
        Err(EventsError::OutOfMemory) => Err(Stop::OutOfMemory),
    }
}

/// The world before the first event of a script, of a program in its places and its code.
pub fn first_world(
    alloc: Global,
    placed: &PlacedSource,
    code: &Code,
    said: &Script,
) -> Result<World, OutOfMemory>
    requires code { code.now ≡ code_of (placed_shape placed.now) }
    requires own { All (λ one. IsOwnEvent code.now.hosts said.now.bad one.1) said.now.events }
    ensures first { IfOk result (λ world.
        world_of world ≡ first_world (placed_shape placed.now) said.now.bad said.now.start) }
    ensures fits { IfOk result (WorldFits code.now) }
    ensures fresh { IfOk result (λ world. HaveMade 0 world.hosts) }
    ensures own { IfOk result (λ world. All (λ one. HasOwnToken (world_of world) one.1) said.now.events) }
{
    fits_laws();
    let bad = said.bad();
    let store = said.start();
    World::start(alloc, code, placed.hosts(), bad, store)
}

/// The world that the events of a script of this name leave, from a world that has just started.
///
/// # Errors
/// `Due` where an event is refused.
pub fn events_happen(
    alloc: Global,
    name: &str,
    code: &Code,
    from: World,
    events: &[(u32, Event)],
) -> Result<World, Stop>
    requires fits { WorldFits code.now from }
    requires fresh { HaveMade 0 from.hosts }
    requires own { All (λ one. HasOwnToken (world_of from) one.1) events.now }
    ensures happen { EndsAs world_of (EventsHappen name.now code.now (world_of from) events.now) result }
    ensures fits { IfOk result (WorldFits code.now) }
{
    let mut world = from;
    match replay(code, &mut world, events) {
        Ok(()) => Ok(world),
        Err(error) => Err(events_refused(alloc, name, error)),
    }
}

/// What is due where the events of a script of this name did not all happen.
pub fn events_refused(alloc: Global, name: &str, error: ReplayError) -> Stop
    ensures { (code : CodeShape) (world : WorldShape) (said : List (ℕ × Event)) →
        IsReplayError code world said error → StopsWith (AreRefused name.now code world said) result }
{
    match error {
        ReplayError::NotThere(line) => {
            stopped(Verdict::at_line(alloc, name, line, LineCause::NotThere))
        }
        ReplayError::HostBusy(line) => {
            stopped(Verdict::at_line(alloc, name, line, LineCause::HostBusy))
        }
        ReplayError::NotBad(line) => {
            stopped(Verdict::at_line(alloc, name, line, LineCause::NotMisbehaving))
        }
        ReplayError::NoSuchToken(line, number, count) => {
            let why = LineCause::NoSuchToken { number, count };
            stopped(Verdict::at_line(alloc, name, line, why))
        }
        ReplayError::OutOfMemory => Stop::OutOfMemory,
    }
}
