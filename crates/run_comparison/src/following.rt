//! Runs that are followed to be compared.

ghost use Rattle.std.specs.Prelude.{◌≡◌, ◌∷◌, ◌++◌, [], if◌then◌else◌, map, All, IfErr, IfOk, List, OnOk, ℤ};
ghost use Rattle.net_world.specs.Fits.{WorldFits, HasOwnToken, world_of};
ghost use Rattle.net_world.specs.Steps.{HaveMade};
ghost use Rattle.net_world.specs.Released.{AreReleased, Releases};
ghost use Rattle.net_world.specs.World.{WorldShape};
ghost use Rattle.run_comparison.specs.Followed.{IsFollowed, EventsFollowed};
ghost use Rattle.run_comparison.specs.FollowedRuns.{IsEventAdded, first_late, run_of, run_with};
ghost use Rattle.front_end.specs.Loading.{EndsAs};
ghost use Rattle.net_world.specs.Replay.{IsReplayError, events_in};

use event_text::Event;
use front_end::Stop;
use host_code::Code;
use js_base::OutOfMemory;
use net_world::laws::fits_laws;
use net_world::{ReplayError, World, refused};
use script_stages::events_refused;
use split_rules::ReleaseTable;
use std::alloc::Global;

/// What is kept of the events of a run: those that misbehaving hosts may see, with their lines, and the line of the
/// first of these at whose moment the world was not quiet.
#[derive(Drop)]
pub struct Seen<'a> {
    pub events: Vec<&'a (u32, Event)>,
    pub late: Option<u32>,
}

/// A run of a script: what is kept of its events, the values that they released, and the world that they left.
#[derive(Drop)]
pub struct Followed<'a> {
    pub seen: Seen<'a>,
    pub released: Vec<i64>,
    pub world: World,
}

/// Makes the events of a script of this name happen in a world that has just started, and keeps what is to be compared.
/// The table is that of the code.
///
/// # Errors
/// `Due` where an event is refused.
pub fn follow<'a>(
    alloc: Global,
    name: &str,
    code: &Code,
    table: &ReleaseTable,
    from: World,
    events: &'a [(u32, Event)],
) -> Result<Followed<'a>, Stop>
    requires fits { WorldFits code.now from }
    requires fresh { HaveMade 0 from.hosts }
    requires own { All (λ one. HasOwnToken (world_of from) one.1) events.now }
    ensures follow { EndsAs run_of (EventsFollowed name.now code.now table.now (world_of from) events.now) result }
{
    let mut world = from;
    let mut released = Vec::new(alloc);
    match seen_events(alloc, code, table, &mut world, &mut released, events) {
        Ok(seen) => Ok(Followed {
            seen,
            released,
            world,
        }),
        Err(error) => Err(events_refused(alloc, name, error)),
    }
}

impl<'a> Seen<'a> {
    /// Keeps an event with its line, where misbehaving hosts may see it.
    fn keep(
        &mut self,
        code: &Code,
        world: &World,
        said: &'a (u32, Event),
    ) -> Result<(), OutOfMemory>
        requires { WorldFits code.now world.now }
        ensures { OnOk result ((last : WorldShape) → IsEventAdded code.now (world_of world.now) said.now
            (run_with self.old last) (run_with self.new last)) }
    {
        if world.secret(code, &said.1) {
            return Ok(());
        }
        let quiet = world.quiet(code);
        self.push(quiet, said)
    }

    /// Keeps an event with its line, which may be late.
    fn push(&mut self, quiet: bool, said: &'a (u32, Event)) -> Result<(), OutOfMemory>
        ensures events { OnOk result (map (λ one. one.now) self.new.events.items
            ≡ map (λ one. one.now) self.old.events.items ++ said.now ∷ []) }
        ensures late { OnOk result (self.new.late
            ≡ (if quiet then self.old.late else first_late self.old.late said.now.0)) }
    {
        self.events.push(said)?;
        if !quiet {
            self.late = Some(self.late.unwrap_or(said.0));
        }
        Ok(())
    }
}

/// Adds the values that an event would release in a world.
fn add_released(
    alloc: Global,
    code: &Code,
    table: &ReleaseTable,
    world: &World,
    event: &Event,
    released: &mut Vec<i64>,
) -> Result<(), OutOfMemory>
    requires { WorldFits code.now world.now }
    ensures { OnOk result ((own : List ℤ) × Releases code.now table.now (world_of world.now) event.now own
        × (released.new.items ≡ released.old.items ++ own)) }
{
    let own = world.releases(alloc, code, table, event)?;
    released.extend_from_slice(&own)?;
    Ok(())
}

/// Makes events happen, each of which stands on a line, up to the first that is refused. The list takes what each of
/// them releases.
fn seen_events<'a>(
    alloc: Global,
    code: &Code,
    table: &ReleaseTable,
    world: &mut World,
    released: &mut Vec<i64>,
    events: &'a [(u32, Event)],
) -> Result<Seen<'a>, ReplayError>
    requires fits { WorldFits code.now world.old }
    requires fresh { HaveMade 0 world.old.hosts }
    requires own { All (λ one. HasOwnToken (world_of world.old) one.1) events.now }
    requires none { released.old.items ≡ [] }
    ensures followed { IfOk result (λ seen.
        IsFollowed code.now (world_of world.old) events.now (run_with seen (world_of world.new))) }
    ensures released { OnOk result
        (AreReleased code.now table.now (world_of world.old) (events_in events.now) released.new.items) }
    ensures refused { IfErr result (IsReplayError code.now (world_of world.old) events.now) }
    ensures fits { WorldFits code.now world.new }
{
    fits_laws();
    let mut seen = Seen {
        events: Vec::new(alloc),
        late: None,
    };
    for said in events {
        seen.keep(code, world, said)?;
        let (line, event) = said;
        add_released(alloc, code, table, world, event, released)?;
        if let Err(error) = world.apply(code, event) {
            return Err(refused(*line, event, error));
        }
    }
    Ok(seen)
}
