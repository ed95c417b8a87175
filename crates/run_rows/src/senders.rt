//! The events that sent what is in flight.

ghost use Rattle.std.specs.Prelude.{◌≡◌, ◌<◌, ◌∷◌, ◌++◌, [], IfOk, OnOk, MatchOption, Some, remove};
ghost use Rattle.js_base.specs.declared.ids.HostId.{HostId};
ghost use Rattle.net_world.specs.Fits.{world_of};
ghost use Rattle.net_world.specs.Flying.{pair_place};
ghost use Rattle.run_rows.specs.Senders.{IsLonger, no_senders, sender_of, senders_at, senders_left, senders_with};

use event_text::Event;
use js_base::limits::HOSTS;
use js_base::{HostId, OutOfMemory};
use net_world::World;
use std::alloc::Global;
use std::marker::Model;

/// The ordered pairs of so many hosts as there may be.
const PAIRS: usize = HOSTS * HOSTS;

/// For each ordered pair of hosts the numbers of the events that sent what is in flight, the oldest first.
#[derive(Drop)]
pub struct Senders {
    numbers: Vec<Vec<u64>>,
}

impl Model for Senders {
    ghost use Rattle.std.specs.Prelude.{List, ℕ, map};

    ghost Value = { List (List ℕ) };

    ghost view = { λ s. map (λ numbers. numbers.items) s.numbers.items };
}

impl Senders {
    /// Nothing is in flight.
    pub fn new(alloc: Global) -> Result<Senders, OutOfMemory>
        ensures { IfOk result (λ senders. senders ≡ no_senders) }
    {
        let mut numbers = Vec::new(alloc);
        for made in 0..PAIRS {
            prove!(made < PAIRS);
            numbers.push(Vec::new(alloc))?;
        }
        Ok(Senders { numbers })
    }

    /// The numbers, from 0, of the events that sent what is in flight from a host to a host, the oldest first.
    pub fn flying(&self, from: HostId, to: HostId) -> &[u64]
        ensures { result.now ≡ senders_at self.now from to }
    {
        match self.numbers.get(place_of(from, to)) {
            Some(numbers) => numbers,
            None => &[],
        }
    }

    /// The number of the event that sent what is taken in an event.
    pub fn sender_of(&self, event: &Event) -> Option<u64>
        ensures { result ≡ sender_of self.now event.now }
    {
        match event {
            Event::Take(from, to, place) => self.flying(*from, *to).get(*place as usize).copied(),
            _ => None,
        }
    }

    /// What is taken in an event is no longer in flight.
    pub fn leave(&mut self, event: &Event)
        ensures { self.new ≡ senders_left self.old event.now }
    {
        if let Event::Take(from, to, place) = event {
            let pair = place_of(*from, *to);
            if pair < self.numbers.len() {
                take_out(&mut self.numbers[pair], *place as usize);
            }
        }
    }

    /// The event of this number sent a message that is in flight.
    pub fn post(&mut self, from: HostId, to: HostId, number: u64) -> Result<(), OutOfMemory>
        ensures { OnOk result (self.new ≡ senders_with self.old from (Some to) number) }
    {
        let pair = place_of(from, to);
        if pair < self.numbers.len() {
            add(&mut self.numbers[pair], number)?;
        }
        Ok(())
    }

    /// The host to which more is in flight from this one than has a number.
    pub fn unnumbered(&self, world: &World, from: HostId) -> Option<HostId>
        ensures { MatchOption result
            ((to : HostId) → to.0 < HOSTS → ¬ IsLonger self.now (world_of world.now) from to)
            (λ to. (to.0 < HOSTS) × IsLonger self.now (world_of world.now) from to) }
    {
        for to in 0..HOSTS as u8 {
            let to = HostId(to);
            if self.flying(from, to).len() < world.flying(from, to).len() {
                return Some(to);
            }
        }
        None
    }
}

fn place_of(from: HostId, to: HostId) -> usize
    ensures { result ≡ pair_place from to }
{
    HOSTS * from.0 as usize + to.0 as usize
}

/// Takes a number out, where there is one.
fn take_out(numbers: &mut Vec<u64>, place: usize)
    ensures { numbers.new.items ≡ remove numbers.old.items place }
{
    if place < numbers.len() {
        numbers.remove(place);
    }
}

/// Adds a number.
fn add(numbers: &mut Vec<u64>, number: u64) -> Result<(), OutOfMemory>
    ensures { OnOk result (numbers.new.items ≡ numbers.old.items ++ number ∷ []) }
{
    numbers.push(number)?;
    Ok(())
}
