//! What is in flight between the hosts.

ghost use Rattle.std.specs.Prelude.{◌≡◌, ◌+◌, ◌-◌, ◌<◌, ◌≤◌, ℕ, [], ◌∷◌, ◌++◌};
ghost use Rattle.std.specs.Prelude.{length, map, remove, slice_get};
ghost use Rattle.std.specs.Prelude.{slice_set, replicate, IfOk, OnOk, MatchOption, None, Some, IsTrue, ◌↔◌};
ghost use Rattle.js_base.specs.declared.ids.HostId.{HostId};
ghost use Rattle.net_world.specs.Flying.{Flight, Queue, QueueHasRoom, HasRoom, pair_place, flights_of, flights_at};
ghost use Rattle.net_world.specs.Flying.{IsQueueCounted, may_be_seen, one_if_hidden, hidden_in};

use host_code::Message;
use js_base::limits::HOSTS;
use js_base::{HostId, OutOfMemory};
use std::alloc::Global;
use std::marker::Model;

/// The ordered pairs of so many hosts as there may be.
const PAIRS: usize = HOSTS * HOSTS;

/// Messages in flight from one host to another, the oldest first, and beside each the place of its label.
#[derive(Drop)]
struct Queue {
    messages: Vec<Message>,
    labels: Vec<u32>,
    /// How many of them carry a label that no misbehaving host may see.
    hidden: u64,
}

impl Model for Queue {
    ghost use Rattle.std.specs.Prelude.{◌≡◌, ◌-◌, length};
    ghost use Rattle.std.specs.Vec.{vec_len, vec_capacity};
    ghost use Rattle.net_world.specs.Flying.{Queue, flights_with};

    ghost Value = { Queue };

    ghost view = { λ q. record {
      flights = flights_with q.messages.items q.labels.items;
      hidden = q.hidden;
      message_room = vec_capacity q.messages - vec_len q.messages;
      label_room = vec_capacity q.labels - vec_len q.labels;
    } };

    ghost invariant = { λ q. length q.messages.items ≡ length q.labels.items };
}

impl Queue {
    fn new(alloc: Global) -> Queue
        ensures flights { result.flights ≡ [] }
        ensures hidden { result.hidden ≡ 0 }
    {
        Queue {
            messages: Vec::new(alloc),
            labels: Vec::new(alloc),
            hidden: 0,
        }
    }

    #[tactic(auto, using(crate::proofs::Flights::flights))]
    fn messages(&self) -> &[Message]
        ensures { result.now ≡ map (λ flight. flight.message) self.now.flights }
    {
        &self.messages
    }

    /// The message at a place with its label.
    #[tactic(auto, using(crate::proofs::Flights::flights))]
    fn flight(&self, place: usize) -> Option<(&Message, u32)>
        ensures { MatchOption result (slice_get self.now.flights place ≡ None)
            (λ found. slice_get self.now.flights place
            ≡ Some (record { message = found.0.now; label = found.1 })) }
    {
        match (
            message_at(&self.messages, place),
            label_at(&self.labels, place),
        ) {
            (Some(message), Some(label)) => Some((message, label)),
            _ => None,
        }
    }

    /// Whether it has a message that may not be seen.
    fn hides(&self) -> bool
        ensures { IsTrue result ↔ (0 < self.now.hidden) }
    {
        self.hidden > 0
    }

    /// Makes room for one more message, and changes nothing else, also after an error.
    fn reserve(&mut self) -> Result<(), OutOfMemory>
        ensures room { OnOk result (QueueHasRoom self.new) }
        ensures same { self.new.flights ≡ self.old.flights }
        ensures hidden { self.new.hidden ≡ self.old.hidden }
        ensures messages { self.old.message_room ≤ self.new.message_room }
        ensures labels { self.old.label_room ≤ self.new.label_room }
    {
        self.messages.reserve(1)?;
        self.labels.reserve(1)?;
        Ok(())
    }

    /// Adds a message, for which there is room.
    #[tactic(auto, using(crate::proofs::Flights::flights))]
    fn push(&mut self, message: &Message, label: u32, readable: &[bool])
        requires room { QueueHasRoom self.old }
        requires counted { IsQueueCounted readable.now self.old }
        ensures flights { self.new.flights
            ≡ self.old.flights ++ record { message = message.now; label = label } ∷ [] }
        ensures counted { IsQueueCounted readable.now self.new }
    {
        let pushed = self.messages.push(*message);
        prove!(pushed.is_ok());
        let labelled = self.labels.push(label);
        prove!(labelled.is_ok());
        self.hidden += one_if_hidden(readable, label);
    }

    /// Takes a message out.
    #[tactic(auto, using(crate::proofs::Flights::flights))]
    fn remove(&mut self, place: usize, readable: &[bool])
        requires there { place < length self.old.flights }
        requires counted { IsQueueCounted readable.now self.old }
        ensures flights { self.new.flights ≡ remove self.old.flights place }
        ensures room { QueueHasRoom self.new }
        ensures counted { IsQueueCounted readable.now self.new }
    {
        self.messages.remove(place);
        let label = self.labels.remove(place);
        self.hidden -= one_if_hidden(readable, label);
    }
}

fn message_at(messages: &[Message], place: usize) -> Option<&Message>
    ensures { MatchOption result (slice_get messages.now place ≡ None)
        (λ message. slice_get messages.now place ≡ Some message.now) }
{
    messages.get(place)
}

fn label_at(labels: &[u32], place: usize) -> Option<u32>
    ensures { result ≡ slice_get labels.now place }
{
    labels.get(place).copied()
}

/// Whether the label at a place may be seen.
fn may_be_seen(readable: &[bool], label: u32) -> bool
    ensures { result ≡ may_be_seen readable.now label }
{
    readable.get(label as usize).copied().unwrap_or(false)
}

/// What a message with the label at a place adds to the count of those that may not be seen.
fn one_if_hidden(readable: &[bool], label: u32) -> u64
    ensures one { result ≡ one_if_hidden readable.now label }
    ensures few { result ≤ 1 }
{
    if may_be_seen(readable, label) { 0 } else { 1 }
}

/// A queue for each ordered pair of hosts.
#[derive(Drop)]
pub struct Flying {
    queues: Vec<Queue>,
    /// For each label of the code whether a misbehaving host may see it.
    readable: Vec<bool>,
}

impl Model for Flying {
    ghost use Rattle.net_world.specs.declared.flying.TheConstants.{PAIRS};
    ghost use Rattle.std.specs.Prelude.{◌≡◌, All, length};
    ghost use Rattle.net_world.specs.Flying.{QueuesShape, IsQueueCounted};

    ghost Value = { QueuesShape };

    ghost view = { λ f. record { queues = f.queues.items; readable = f.readable.items } };

    ghost invariant = { λ f.
        (length f.queues.items ≡ PAIRS) × All (IsQueueCounted f.readable.items) f.queues.items };
}

fn place_of(from: HostId, to: HostId) -> usize
    requires from { from.0 < HOSTS }
    requires to { to.0 < HOSTS }
    ensures place { result ≡ pair_place from to }
    ensures within { result < PAIRS }
{
    HOSTS * from.0 as usize + to.0 as usize
}

impl Flying {
    /// Nothing is in flight. The list tells for each label of the code whether a misbehaving host may see it.
    pub fn new(alloc: Global, readable: Vec<bool>) -> Result<Flying, OutOfMemory>
        ensures flights { IfOk result (λ flying. flights_of flying.queues ≡ replicate PAIRS []) }
        ensures readable { IfOk result (λ flying. flying.readable ≡ readable.items) }
    {
        let mut queues = Vec::new(alloc);
        for made in 0..PAIRS {
            prove!(made < PAIRS);
            if queues.push(Queue::new(alloc)).is_err() {
                return Err(OutOfMemory);
            }
        }
        Ok(Flying { queues, readable })
    }

    /// The messages in flight from a host to a host, the oldest first.
    #[tactic(auto, using(crate::proofs::Queues::flights_at_queue))]
    pub fn messages(&self, from: HostId, to: HostId) -> &[Message]
        requires from { from.0 < HOSTS }
        requires to { to.0 < HOSTS }
        ensures messages { result.now
            ≡ map (λ flight. flight.message) (flights_at (flights_of self.now.queues) (pair_place from to)) }
        ensures count { length self.now.queues ≡ PAIRS }
    {
        let place = place_of(from, to);
        self.queues[place].messages()
    }

    /// The message in flight from a host to a host at a place, from the oldest, with its label.
    #[tactic(auto, using(crate::proofs::Queues::flights_at_queue))]
    pub fn flight(&self, from: HostId, to: HostId, place: usize) -> Option<(&Message, u32)>
        requires from { from.0 < HOSTS }
        requires to { to.0 < HOSTS }
        ensures flight { MatchOption result
            (slice_get (flights_at (flights_of self.now.queues) (pair_place from to)) place ≡ None)
            (λ found. slice_get (flights_at (flights_of self.now.queues) (pair_place from to)) place
            ≡ Some (record { message = found.0.now; label = found.1 })) }
    {
        let pair = place_of(from, to);
        self.queues[pair].flight(place)
    }

    /// Whether the label at a place may be seen.
    pub fn may_be_seen(&self, label: u32) -> bool
        ensures { result ≡ may_be_seen self.now.readable label }
    {
        may_be_seen(&self.readable, label)
    }

    /// Whether the label of a message in flight from a host to a host may not be seen.
    pub fn hides(&self, from: HostId, to: HostId) -> bool
        requires from { from.0 < HOSTS }
        requires to { to.0 < HOSTS }
        ensures { IsTrue result ↔ (0 < hidden_in self.now.readable
            (flights_at (flights_of self.now.queues) (pair_place from to))) }
    {
        let place = place_of(from, to);
        self.queues[place].hides()
    }

    /// Makes room for one more message from a host to a host, and changes nothing else, also after an error.
    #[tactic(auto, using(crate::proofs::Queues::reserving))]
    pub fn reserve(&mut self, from: HostId, to: HostId) -> Result<(), OutOfMemory>
        requires from { from.0 < HOSTS }
        requires to { to.0 < HOSTS }
        ensures room { OnOk result (HasRoom self.new.queues (pair_place from to)) }
        ensures flights { flights_of self.new.queues ≡ flights_of self.old.queues }
        ensures readable { self.new.readable ≡ self.old.readable }
        ensures others { (place : ℕ) → HasRoom self.old.queues place → HasRoom self.new.queues place }
    {
        let place = place_of(from, to);
        self.queues[place].reserve()
    }

    /// Makes room for one more message from a host to each of the first so many, and changes nothing else, also after
    /// an error.
    pub fn reserve_from(&mut self, from: HostId, hosts: usize) -> Result<(), OutOfMemory>
        requires from { from.0 < HOSTS }
        requires hosts { hosts ≤ HOSTS }
        ensures room { OnOk result ((to : HostId) → to.0 < hosts → HasRoom self.new.queues (pair_place from to)) }
        ensures flights { flights_of self.new.queues ≡ flights_of self.old.queues }
        ensures readable { self.new.readable ≡ self.old.readable }
    {
        for to in 0..hosts as u8 {
            self.reserve(from, HostId(to))?;
        }
        Ok(())
    }

    /// Adds a message with its label, for which there is room.
    #[tactic(auto, using(crate::proofs::Queues::pushing))]
    pub fn push(&mut self, from: HostId, to: HostId, message: &Message, label: u32)
        requires from { from.0 < HOSTS }
        requires to { to.0 < HOSTS }
        requires room { HasRoom self.old.queues (pair_place from to) }
        ensures flights { flights_of self.new.queues ≡ slice_set (flights_of self.old.queues) (pair_place from to)
            (flights_at (flights_of self.old.queues) (pair_place from to)
            ++ record { message = message.now; label = label } ∷ []) }
        ensures readable { self.new.readable ≡ self.old.readable }
        ensures count { length self.old.queues ≡ PAIRS }
    {
        let place = place_of(from, to);
        self.queues[place].push(message, label, &self.readable);
    }

    /// Takes a message out.
    #[tactic(auto, using(crate::proofs::Queues::removing))]
    pub fn remove(&mut self, from: HostId, to: HostId, at: usize)
        requires from { from.0 < HOSTS }
        requires to { to.0 < HOSTS }
        requires there { at < length (flights_at (flights_of self.old.queues) (pair_place from to)) }
        ensures flights { flights_of self.new.queues ≡ slice_set (flights_of self.old.queues) (pair_place from to)
            (remove (flights_at (flights_of self.old.queues) (pair_place from to)) at) }
        ensures room { (place : ℕ) → HasRoom self.old.queues place → HasRoom self.new.queues place }
        ensures readable { self.new.readable ≡ self.old.readable }
        ensures count { length self.old.queues ≡ PAIRS }
    {
        let place = place_of(from, to);
        self.queues[place].remove(at, &self.readable);
    }
}
