//! Worlds in which nobody chooses.

ghost use Rattle.std.specs.Prelude.{◌≡◌, ◌≤◌, IfOk};
ghost use Rattle.net_world.specs.Fits.{WorldFits, world_of};
ghost use Rattle.net_world.specs.Steps.{HaveMade};
ghost use Rattle.net_world.specs.World.{AllObey};
ghost use Rattle.front_end.specs.declared.step_counts.TheConstants.{STEPS};
ghost use Rattle.split_cli.specs.Driven.{HasDriven, LeavesWith};

use front_end::STEPS;
use host_code::Code;
use js_base::{OutOfMemory, Status};
use net_world::World;
use net_world::laws::step_laws;

/// How a drive ended.
#[derive(Clone, Copy)]
pub struct Driven {
    /// How many events were made.
    pub made: u64,
    /// `Done` where nothing happens any more, otherwise `Spent`.
    pub status: Status,
}

/// Makes the event that comes next happen, again and again, until nothing happens any more or so many events were made.
pub fn drive(code: &Code, world: &mut World, most: u64) -> Result<Driven, OutOfMemory>
    requires most { most ≤ STEPS }
    requires fits { WorldFits code.now world.old }
    requires obey { AllObey (world_of world.old) }
    requires fresh { HaveMade 0 world.old.hosts }
    ensures driven { IfOk result (HasDriven code.now (world_of world.old) most (world_of world.new)) }
    ensures fits { WorldFits code.now world.new }
{
    step_laws();
    for made in 0..most {
        let Some(event) = world.next_event() else {
            let status = Status::Done;
            return Ok(Driven { made, status });
        };
        match world.apply(code, &event) {
            Ok(()) => {}
            Err(error) => return Err(error.only_memory()),
        }
    }
    let status = end_status(world);
    Ok(Driven { made: most, status })
}

/// The status of a drive that left this world.
fn end_status(world: &World) -> Status
    ensures { LeavesWith (world_of world.now) result }
{
    match world.next_event() {
        Some(_) => Status::Spent,
        None => Status::Done,
    }
}
