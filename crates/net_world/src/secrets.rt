//! What no misbehaving host may see of a world.

ghost use Rattle.std.specs.Prelude.{◌<◌, ◌↔◌, IfSome, IsTrue, length, slice_get};
ghost use Rattle.js_base.specs.declared.ids.HostId.{HostId};
ghost use Rattle.net_world.specs.World.{state_at};
ghost use Rattle.net_world.specs.Fits.{WorldFits, world_of};
ghost use Rattle.net_world.specs.Secret.{IsSecret, IsQuiet, IsReadable, FlyOpenly, RunsOpenly, AllRunOpenly};

use crate::moves::label_of;
use crate::world::World;
use event_text::Event;
use host_code::Code;
use js_base::HostId;

impl World {
    /// Whether no misbehaving host may see an event: a turn by the label of its instruction, and a take by the label of
    /// its message. An act may always be seen, and an event that is not there is no secret.
    #[tactic(auto, using(crate::proofs::Seeing::seen))]
    pub fn secret(&self, code: &Code, event: &Event) -> bool
        requires fits { WorldFits code.now self.now }
        ensures exact { IsTrue result ↔ IsSecret code.now (world_of self.now) event.now }
    {
        match *event {
            Event::Take(from, to, place) => !self.shows(code, from, to, place),
            Event::Turn(host) => !self.runs_openly(code, host),
            Event::Act(_, _, _) => false,
        }
    }

    /// Whether misbehaving hosts may see all that is in flight and each instruction that comes next.
    #[tactic(auto, using(crate::proofs::Seeing::quiet))]
    pub fn quiet(&self, code: &Code) -> bool
        requires fits { WorldFits code.now self.now }
        ensures exact { IsTrue result ↔ IsQuiet code.now (world_of self.now) }
    {
        self.run_openly(code) && self.fly_openly(code)
    }

    /// Whether each instruction that a host would run at its turn may be seen.
    #[tactic(auto, using(crate::proofs::Seeing::runs))]
    fn run_openly(&self, code: &Code) -> bool
        requires fits { WorldFits code.now self.now }
        ensures { IsTrue result ↔ AllRunOpenly code.now (world_of self.now) }
    {
        for host in 0..self.hosts.len() as u8 {
            if !self.runs_openly(code, HostId(host)) {
                return false;
            }
        }
        true
    }

    /// Whether the instruction that a host would run at its turn may be seen.
    fn runs_openly(&self, code: &Code, host: HostId) -> bool
        requires fits { WorldFits code.now self.now }
        ensures { IsTrue result ↔ IfSome (state_at (world_of self.now) host) (RunsOpenly code.now (world_of self.now)) }
    {
        match self.host(host) {
            Some(there) => match label_of(there, code, host) {
                Some(label) => self.readable(code, label),
                None => true,
            },
            None => true,
        }
    }

    /// Whether all that is in flight may be seen.
    #[tactic(auto, using(crate::proofs::Seeing::flights_seen_from))]
    fn fly_openly(&self, code: &Code) -> bool
        requires fits { WorldFits code.now self.now }
        ensures { IsTrue result ↔ ((from to : HostId) → FlyOpenly code.now (world_of self.now) from to) }
    {
        for from in 0..self.hosts.len() as u8 {
            if !self.fly_openly_from(code, HostId(from)) {
                return false;
            }
        }
        true
    }

    /// Whether all that is in flight from a host may be seen.
    #[tactic(auto, using(crate::proofs::Seeing::flights_seen_to))]
    fn fly_openly_from(&self, code: &Code, from: HostId) -> bool
        requires fits { WorldFits code.now self.now }
        requires from { from.0 < length self.now.hosts }
        ensures { IsTrue result ↔ ((to : HostId) → FlyOpenly code.now (world_of self.now) from to) }
    {
        for to in 0..self.hosts.len() as u8 {
            if !self.fly_openly_to(code, from, HostId(to)) {
                return false;
            }
        }
        true
    }

    /// Whether all that is in flight from a host to a host may be seen.
    fn fly_openly_to(&self, code: &Code, from: HostId, to: HostId) -> bool
        requires fits { WorldFits code.now self.now }
        requires from { from.0 < length self.now.hosts }
        requires to { to.0 < length self.now.hosts }
        ensures { IsTrue result ↔ FlyOpenly code.now (world_of self.now) from to }
    {
        self.few_hosts();
        !self.flying.hides(from, to)
    }

    /// Whether a message in flight may be seen, where there is one at a place.
    fn shows(&self, code: &Code, from: HostId, to: HostId, place: u64) -> bool
        requires fits { WorldFits code.now self.now }
        ensures { IsTrue result ↔ IfSome (slice_get ((world_of self.now).flying from to) place)
            (λ flight. IsReadable code.now (world_of self.now) flight.label) }
    {
        match self.flight(from, to, place) {
            Some((_, label)) => self.readable(code, label),
            None => true,
        }
    }

    /// Whether the label at a place among the code's labels is one that some misbehaving host may see.
    pub fn readable(&self, code: &Code, label: u32) -> bool
        requires fits { WorldFits code.now self.now }
        ensures { IsTrue result ↔ IsReadable code.now (world_of self.now) label }
    {
        self.flying.may_be_seen(label)
    }
}
