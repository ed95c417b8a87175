//! One unit of a node's work: an instruction where a thread runs, and otherwise a frame that is taken.

ghost use Rattle.std.specs.Prelude.{◌≡◌, ◌∷◌, [], false, List, None, IfOk, OnOk, IfErr, IsSome};
ghost use Rattle.host_code.specs.Sound.{IsHost, IsOther};
ghost use Rattle.host_code.specs.Messages.{MessageFits};
ghost use Rattle.host_core.specs.Fits.{SentFits};
ghost use Rattle.node_seals.specs.Arrivals.{ArrivalFits, Arrives};
ghost use Rattle.node_engine.specs.JournalLines as lines;
ghost use Rattle.node_engine.specs.NodeWorlds.{NodeWorld, NodePart, Line, do_all};
ghost use Rattle.node_seals.specs.Seals.{after_opened, opened_of};
ghost use Rattle.node_engine.specs.Told.{PartsAreDone, DoesUnit, HasSameHost, HasSameInside, IsNodeReady, IsSameNode};
ghost use Rattle.node_engine.specs.Told.{Stops};
ghost use Rattle.node_engine.specs.Told.{StopsUnit, inside, seen};
ghost use Rattle.node_engine.specs.Units.{AreArrivalParts, AreDeliveryParts, opening_parts, posting_parts};
ghost use Rattle.node_engine.specs.Units.{sending_parts};

use crate::journal_lines::{TURN_LINE, done_line, drop_line, send_line, take_line};
use crate::laws::unit_laws;
use crate::node::Node;
use crate::node_error::NodeError;
use host_code::Message;
use host_core::{HostError, Sent, step_laws};
use js_base::limits::HOSTS;
use js_base::{HostId, Sink};
use node_links::Links;
use node_seals::{Arrival, opened_arrival};
use wire_msg::{Frame, wire_laws};

impl<L: Links, R: Sink> Node<'_, '_, L, R> {
    /// One unit. It answers whether the root said that the program is done.
    ///
    /// # Errors
    /// The unit broke at one of its parts.
    pub(crate) fn unit(&mut self) -> Result<bool, NodeError>
        requires { IsNodeReady self.old }
        ensures ok { IfOk result (λ ended.
            DoesUnit ended self.old (seen L.Links R.Sink self.old) (seen L.Links R.Sink self.new)) }
        ensures err { IfErr result (λ error.
            StopsUnit error self.old (seen L.Links R.Sink self.old) (seen L.Links R.Sink self.new)) }
        ensures ready { IsNodeReady self.new }
        ensures same { IsSameNode self.old self.new }
    {
        if self.host.rest() {
            return self.take_unit();
        }
        self.turn_unit()?;
        Ok(false)
    }

    /// An instruction of the running thread.
    fn turn_unit(&mut self) -> Result<(), NodeError>
        requires runs { IsSome self.old.host.now.running }
        requires ready { IsNodeReady self.old }
        ensures ok { OnOk result
            (DoesUnit false self.old (seen L.Links R.Sink self.old) (seen L.Links R.Sink self.new)) }
        ensures err { IfErr result (λ error.
            StopsUnit error self.old (seen L.Links R.Sink self.old) (seen L.Links R.Sink self.new)) }
        ensures ready { IsNodeReady self.new }
        ensures same { IsSameNode self.old self.new }
    {
        step_laws();
        match self.host.turn(self.code) {
            Ok(sent) => self.stepped(TURN_LINE, &sent),
            // It answers `Stopped` only after want of memory, or after 2^62 calls.
            Err(HostError::OutOfMemory | HostError::Stopped) => Err(NodeError::OutOfMemory),
        }
    }

    /// A frame that is taken. It answers whether the root said that the program is done.
    fn take_unit(&mut self) -> Result<bool, NodeError>
        requires rest { self.old.host.now.running ≡ None }
        requires ready { IsNodeReady self.old }
        ensures ok { IfOk result (λ ended.
            DoesUnit ended self.old (seen L.Links R.Sink self.old) (seen L.Links R.Sink self.new)) }
        ensures err { IfErr result (λ error.
            StopsUnit error self.old (seen L.Links R.Sink self.old) (seen L.Links R.Sink self.new)) }
        ensures ready { IsNodeReady self.new }
        ensures same { IsSameNode self.old self.new }
    {
        step_laws();
        unit_laws();
        let arrived = self.taken()?;
        let arrival = self.arrival(&arrived.bytes)?;
        self.handled(&arrival)
    }

    /// What bytes come to that were taken. The opener of their link goes on where they were opened.
    fn arrival(&mut self, bytes: &[u8]) -> Result<Arrival, NodeError>
        ensures arrives { IfOk result (λ arrival.
            Arrives self.old.code.now self.old.me self.old.seals.now bytes.now arrival) }
        ensures fits { IfOk result (λ arrival. ArrivalFits self.old.code.now self.old.me arrival) }
        ensures ok { OnOk result (PartsAreDone (opening_parts (opened_of self.old.seals.now bytes.now))
            (seen L.Links R.Sink self.old) (seen L.Links R.Sink self.new)) }
        ensures opened { OnOk result (self.new.seals.now
            ≡ after_opened (opened_of self.old.seals.now bytes.now) self.old.seals.now) }
        ensures err { IfErr result (λ error. Stops error (opening_parts (opened_of self.old.seals.now bytes.now))
            (seen L.Links R.Sink self.old) (seen L.Links R.Sink self.new)) }
        ensures same { HasSameHost self.old self.new }
    {
        let opened = self.seals.opened(self.alloc, bytes)?;
        Ok(opened_arrival(self.code, self.me, bytes, &opened))
    }

    /// What is done with a frame that was taken. It answers whether the root said that the program is done.
    fn handled(&mut self, arrival: &Arrival) -> Result<bool, NodeError>
        requires rest { self.old.host.now.running ≡ None }
        requires ready { IsNodeReady self.old }
        requires arrival { ArrivalFits self.old.code.now self.old.me arrival.now }
        ensures ok { IfOk result (λ ended. (parts : List NodePart) ×
            AreArrivalParts self.old.code.now self.old.me (inside self.old) arrival.now parts
            × PartsAreDone parts (seen L.Links R.Sink self.old) (seen L.Links R.Sink self.new)
            × ((world : NodeWorld) → world.ended ≡ false → (do_all parts world).ended ≡ ended)) }
        ensures err { IfErr result (λ error. (parts : List NodePart) ×
            AreArrivalParts self.old.code.now self.old.me (inside self.old) arrival.now parts
            × Stops error parts (seen L.Links R.Sink self.old) (seen L.Links R.Sink self.new)) }
        ensures ready { IsNodeReady self.new }
        ensures same { IsSameNode self.old self.new }
    {
        match arrival {
            Arrival::Dropped(why) => {
                self.noted(drop_line(*why))?;
                Ok(false)
            }
            Arrival::Done(from) => {
                self.heard(*from)?;
                Ok(from.0 == self.code.root().0)
            }
            Arrival::Taken(from, message) => {
                self.delivered(*from, message)?;
                Ok(false)
            }
        }
    }

    /// The line of a host that said that it is done.
    fn heard(&mut self, from: HostId) -> Result<(), NodeError>
        ensures ok { OnOk result (PartsAreDone (Line (lines.done_line self.old.code.now from) ∷ [])
            (seen L.Links R.Sink self.old) (seen L.Links R.Sink self.new)) }
        ensures err { IfErr result (λ error. Stops error (Line (lines.done_line self.old.code.now from) ∷ [])
            (seen L.Links R.Sink self.old) (seen L.Links R.Sink self.new)) }
        ensures same { HasSameInside self.old self.new }
    {
        let line = done_line(self.alloc, self.code, from)?;
        self.noted(&line)
    }

    /// A message that the host takes.
    fn delivered(&mut self, from: HostId, message: &Message) -> Result<(), NodeError>
        requires rest { self.old.host.now.running ≡ None }
        requires ready { IsNodeReady self.old }
        requires from { IsOther self.old.code.now self.old.me from }
        requires message { MessageFits self.old.code.now message.now }
        ensures ok { OnOk result ((parts : List NodePart) × AreDeliveryParts self.old.code.now self.old.me
            (inside self.old) from message.now parts
            × PartsAreDone parts (seen L.Links R.Sink self.old) (seen L.Links R.Sink self.new)) }
        ensures err { IfErr result (λ error. (parts : List NodePart) × AreDeliveryParts self.old.code.now self.old.me
            (inside self.old) from message.now parts
            × Stops error parts (seen L.Links R.Sink self.old) (seen L.Links R.Sink self.new)) }
        ensures ready { IsNodeReady self.new }
        ensures same { IsSameNode self.old self.new }
    {
        step_laws();
        let line = take_line(self.alloc, self.code, from, message)?;
        match self.host.deliver(self.code, from, *message) {
            Ok(sent) => self.stepped(&line, &sent),
            // It answers `Stopped` only after want of memory, or after 2^62 calls.
            Err(HostError::OutOfMemory | HostError::Stopped) => Err(NodeError::OutOfMemory),
        }
    }

    /// The parts behind a step: its line, and what it sends.
    fn stepped(&mut self, line: &str, sent: &Sent) -> Result<(), NodeError>
        requires me { IsHost self.old.code.now self.old.me }
        requires sent { SentFits self.old.code.now self.old.me sent.now }
        ensures ok { OnOk result
            (PartsAreDone (Line line.now ∷ sending_parts self.old.code.now self.old.me self.old.seals.now sent.now)
            (seen L.Links R.Sink self.old) (seen L.Links R.Sink self.new)) }
        ensures err { IfErr result (λ error.
            Stops error (Line line.now ∷ sending_parts self.old.code.now self.old.me self.old.seals.now sent.now)
            (seen L.Links R.Sink self.old) (seen L.Links R.Sink self.new)) }
        ensures same { HasSameHost self.old self.new }
    {
        self.noted(line)?;
        match sent {
            Some((to, message)) => self.posted(*to, message),
            None => Ok(()),
        }
    }

    /// A message that is sent, and then noted.
    fn posted(&mut self, to: HostId, message: &Message) -> Result<(), NodeError>
        requires me { IsHost self.old.code.now self.old.me }
        requires message { MessageFits self.old.code.now message.now }
        ensures ok { OnOk result (PartsAreDone
            (posting_parts self.old.code.now self.old.me self.old.seals.now to message.now)
            (seen L.Links R.Sink self.old) (seen L.Links R.Sink self.new)) }
        ensures err { IfErr result (λ error.
            Stops error (posting_parts self.old.code.now self.old.me self.old.seals.now to message.now)
            (seen L.Links R.Sink self.old) (seen L.Links R.Sink self.new)) }
        ensures same { HasSameHost self.old self.new }
    {
        let few = self.code.hosts().len() <= HOSTS;
        prove!(few);
        wire_laws();
        self.sent(to, &Frame::Message(*message))?;
        let line = send_line(self.alloc, self.code, to, message)?;
        self.noted(&line)
    }
}
