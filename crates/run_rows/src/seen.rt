//! What a world shows before an event and after it.

ghost use Rattle.std.specs.Prelude.{◌≡◌, ◌↔◌, IsTrue, IfSome, IfNone, Some, length};
ghost use Rattle.net_world.specs.Fits.{WorldFits, world_of};
ghost use Rattle.net_world.specs.World.{state_at, refusal_of, not_there, mover};
ghost use Rattle.run_rows.specs.Rows.{IsWhat, IsSeenBefore, place_in, seen_in};

use crate::row::What;
use event_text::Event;
use host_code::Code;
use js_base::HostId;
use net_world::World;

/// What is seen of one host.
#[derive(Clone, Copy)]
pub struct Seen {
    /// How many requests and tokens it has ignored.
    pub ignored: u64,
    /// How many entries are on its control stack.
    pub depth: u64,
    /// Whether a thread runs.
    pub runs: bool,
    /// Whether a thread waits.
    pub waits: bool,
}

/// What is seen before an event.
#[derive(Clone, Copy)]
pub struct Before {
    pub what: What,
    /// Of the event's host.
    pub host: Seen,
    /// How many messages misbehaving hosts were sent.
    pub sent: u64,
    /// Whether the program has halted.
    pub halted: bool,
}

/// What is seen before an event of a world, none where there is no such event.
pub fn before_of(world: &World, event: &Event) -> Option<Before>
    ensures before { IfSome result (IsSeenBefore world.now.root (world_of world.now) event.now) }
    ensures none { IfNone result (refusal_of (world_of world.now) event.now ≡ Some not_there) }
{
    let what = what_of(world, event)?;
    Some(Before {
        what,
        host: seen_of(world, mover(event)),
        sent: world.sent().len() as u64,
        halted: world.halted(),
    })
}

/// What an event is, none where there is no such event.
fn what_of(world: &World, event: &Event) -> Option<What>
    ensures what { IfSome result (IsWhat (world_of world.now) event.now) }
    ensures none { IfNone result (refusal_of (world_of world.now) event.now ≡ Some not_there) }
{
    match event {
        Event::Turn(host) => {
            let at = place_of(world, *host)?;
            Some(What::Turn(*host, at))
        }
        Event::Take(from, to, place) => match world.flying(*from, *to).get(*place as usize) {
            Some(message) => Some(What::Take(*from, *to, *message)),
            None => None,
        },
        Event::Act(from, to, made) => Some(What::Act(*from, *to, *made)),
    }
}

/// The place of the next instruction of a host, none where no thread runs there.
fn place_of(world: &World, host: HostId) -> Option<u32>
    ensures { result ≡ place_in (state_at (world_of world.now) host) }
{
    match world.host(host) {
        Some(there) => there.place(),
        None => None,
    }
}

/// What is seen of a host.
pub fn seen_of(world: &World, host: HostId) -> Seen
    ensures { result ≡ seen_in (state_at (world_of world.now) host) }
{
    match world.host(host) {
        Some(there) => Seen {
            ignored: there.ignored(),
            depth: there.depth(),
            runs: !there.rest(),
            waits: there.waiting() > 0,
        },
        None => Seen {
            ignored: 0,
            depth: 0,
            runs: false,
            waits: false,
        },
    }
}

/// The host whose step an event is.
pub fn mover(event: &Event) -> HostId
    ensures { result ≡ mover event.now }
{
    match event {
        Event::Take(_, to, _) => *to,
        Event::Turn(host) => *host,
        Event::Act(_, to, _) => *to,
    }
}
