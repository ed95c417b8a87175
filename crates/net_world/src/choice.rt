//! The event that comes next where nobody chooses.

ghost use Rattle.std.specs.Prelude.{◌<◌, ◌↔◌, IsTrue, IsSome, IsSomeAnd, MatchOption};
ghost use Rattle.js_base.specs.declared.ids.HostId.{HostId};
ghost use Rattle.net_world.specs.Choice.{IsNextEvent, IsFirstRunning, NoneRuns, IsFirstFlying, IsFirstFrom};
ghost use Rattle.net_world.specs.Choice.{NothingFlies, NothingFliesFrom};
ghost use Rattle.net_world.specs.Fits.{world_of};

use crate::world::World;
use event_text::Event;
use host_core::Host;
use js_base::HostId;

impl World {
    /// The event that comes next where nobody chooses: a turn of the first host that runs a thread. Where none runs it
    /// is a take of the oldest message of the first pair of hosts that has one, by the sender and then by the target,
    /// and where nothing is in flight either there is none.
    pub fn next_event(&self) -> Option<Event>
        ensures { IsNextEvent (world_of self.now) result }
    {
        if let Some(host) = self.first_running() {
            return Some(Event::Turn(host));
        }
        match self.first_flying() {
            Some((from, to)) => Some(Event::Take(from, to, 0)),
            None => None,
        }
    }

    /// The first host that runs a thread.
    #[tactic(auto, using(crate::proofs::Choosing::running))]
    fn first_running(&self) -> Option<HostId>
        ensures { MatchOption result (NoneRuns (world_of self.now)) (IsFirstRunning (world_of self.now)) }
    {
        for (number, host) in self.hosts.iter().enumerate() {
            if runs(host) {
                return Some(HostId(number as u8));
            }
        }
        None
    }

    /// The first pair of hosts with a message in flight.
    #[tactic(auto, using(crate::proofs::Choosing::pairs))]
    fn first_flying(&self) -> Option<(HostId, HostId)>
        ensures { MatchOption result (NothingFlies (world_of self.now))
            (λ pair. IsFirstFlying (world_of self.now) pair.0 pair.1) }
    {
        for from in 0..self.hosts.len() as u8 {
            if let Some(to) = self.first_from(HostId(from)) {
                return Some((HostId(from), to));
            }
        }
        None
    }

    /// The first host to which a message of a host is in flight.
    #[tactic(auto, using(crate::proofs::Choosing::targets))]
    fn first_from(&self, from: HostId) -> Option<HostId>
        ensures { MatchOption result (NothingFliesFrom (world_of self.now) from)
            (IsFirstFrom (world_of self.now) from) }
    {
        for to in 0..self.hosts.len() as u8 {
            if !self.flying(from, HostId(to)).is_empty() {
                return Some(HostId(to));
            }
        }
        None
    }
}

/// Whether a host runs a thread.
fn runs(host: &Option<Host>) -> bool
    ensures { IsTrue result ↔ IsSomeAnd host.now (λ there. IsSome there.running) }
{
    match host {
        Some(there) => !there.rest(),
        None => false,
    }
}
