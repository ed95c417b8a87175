//! The events that move a world on.

ghost use Rattle.std.specs.Prelude.{◌≡◌, ◌≢◌, ◌+◌, ◌↔◌, ℕ, Some, OnOk, OnErr, IfErr, IsErrOf};
ghost use Rattle.net_world.specs.World.{IsStep, refusal_of, mover, not_bad, not_there, host_busy, no_such_token};
ghost use Rattle.net_world.specs.Fits.{WorldFits, HasOwnToken, world_of};
ghost use Rattle.net_world.specs.Steps.{HaveMade, IsStuck, HasCountedCall, ChangesOnlyHost, HasNoMemory, IsAnswer};

use crate::moves::Move;
use crate::world::{EventError, World};
use event_text::{BadMessage, Event};
use host_code::Code;
use js_base::{HostId, OutOfMemory};

impl World {
    /// Makes an event happen. After an error the world is as before, except that a host whose own step had no memory
    /// answers no more.
    ///
    /// # Errors
    /// For a take `NotThere` where there is no such message, or the host misbehaves; then `HostBusy` where it runs a
    /// thread. For a turn `NotThere` where the host misbehaves, is none of the code's, or runs no thread. For an act
    /// `NotBad` where the sender does not misbehave; then `NotThere` where the target misbehaves or is no host of the
    /// code; then `HostBusy`; then `NoSuchToken` with the count of tokens sent. After these `Stopped` where the host
    /// answers no more.
    #[tactic(auto, using(crate::proofs::Present::made_counted))]
    pub fn apply(&mut self, code: &Code, event: &Event) -> Result<(), EventError>
        requires fits { WorldFits code.now self.old }
        requires own { HasOwnToken (world_of self.old) event.now }
        ensures ok { OnOk result (IsStep code.now (world_of self.old) event.now (world_of self.new)) }
        ensures not_bad { IsErrOf result EventError.NotBad ↔
            (refusal_of (world_of self.old) event.now ≡ Some not_bad) }
        ensures not_there { IsErrOf result EventError.NotThere ↔
            (refusal_of (world_of self.old) event.now ≡ Some not_there) }
        ensures busy { IsErrOf result EventError.HostBusy ↔
            (refusal_of (world_of self.old) event.now ≡ Some host_busy) }
        ensures no_token { (count : ℕ) → IsErrOf result (EventError.NoSuchToken count) ↔
            (refusal_of (world_of self.old) event.now ≡ Some (no_such_token count)) }
        ensures stopped { IsErrOf result EventError.Stopped ↔ IsStuck self.old event.now }
        ensures err { OnErr result (world_of self.new ≡ world_of self.old) }
        // A refused event changes nothing at all.
        ensures kept { IfErr result (λ error. error ≢ EventError.OutOfMemory → self.new ≡ self.old) }
        // Where memory ran out no host has changed, or the event's host had none and answers no more.
        ensures out_of_memory { IsErrOf result EventError.OutOfMemory → HasNoMemory self.old event.now self.new }
        // No host but that of the event changes.
        ensures others { ChangesOnlyHost (mover event.now) self.old.hosts self.new.hosts }
        // An event is one more call of its host, which answers on as before.
        ensures counted { OnOk result (HasCountedCall (mover event.now) self.old.hosts self.new.hosts) }
        // An event is one more step, and stops no host.
        ensures made { OnOk result ((n : ℕ) → HaveMade n self.old.hosts → HaveMade (n + 1) self.new.hosts) }
        ensures fits { WorldFits code.now self.new }
    {
        match event {
            Event::Take(from, to, place) => self.take(code, *from, *to, *place),
            Event::Turn(host) => self.turn(code, *host),
            Event::Act(from, to, made) => self.act(code, *from, *to, made),
        }
    }

    /// A host takes a message in flight.
    fn take(&mut self, code: &Code, from: HostId, to: HostId, place: u64) -> Result<(), EventError>
        requires fits { WorldFits code.now self.old }
        ensures answer { IsAnswer code.now self.old (Event.Take from to place) result self.new }
        ensures counted { OnOk result (HasCountedCall to self.old.hosts self.new.hosts) }
        ensures others { ChangesOnlyHost to self.old.hosts self.new.hosts }
        ensures fits { WorldFits code.now self.new }
    {
        let (found, label) = self.takeable(from, to, place)?;
        let message = *found;
        if self.reserve_to(to, from).is_err() {
            return Err(EventError::OutOfMemory);
        }
        let mut sent = None;
        let Ok(()) = self.move_host(code, to, Move::Take(from, &message), &mut sent) else {
            return Err(EventError::OutOfMemory);
        };
        self.take_out(from, to, place);
        self.post(to, Some(label), &sent);
        Ok(())
    }

    /// A host runs one instruction.
    fn turn(&mut self, code: &Code, host: HostId) -> Result<(), EventError>
        requires fits { WorldFits code.now self.old }
        ensures answer { IsAnswer code.now self.old (Event.Turn host) result self.new }
        ensures counted { OnOk result (HasCountedCall host self.old.hosts self.new.hosts) }
        ensures others { ChangesOnlyHost host self.old.hosts self.new.hosts }
        ensures fits { WorldFits code.now self.new }
    {
        let label = self.runnable(code, host)?;
        if self.reserve_from(host).is_err() {
            return Err(EventError::OutOfMemory);
        }
        let mut sent = None;
        let Ok(()) = self.move_host(code, host, Move::Turn, &mut sent) else {
            return Err(EventError::OutOfMemory);
        };
        self.post(host, label, &sent);
        Ok(())
    }

    /// A misbehaving host sends a host a message, which is taken at once.
    fn act(
        &mut self,
        code: &Code,
        from: HostId,
        to: HostId,
        made: &BadMessage,
    ) -> Result<(), EventError>
        requires fits { WorldFits code.now self.old }
        requires own { HasOwnToken (world_of self.old) (Event.Act from to made.now) }
        ensures answer { IsAnswer code.now self.old (Event.Act from to made.now) result self.new }
        ensures counted { OnOk result (HasCountedCall to self.old.hosts self.new.hosts) }
        ensures others { ChangesOnlyHost to self.old.hosts self.new.hosts }
        ensures fits { WorldFits code.now self.new }
    {
        let message = self.actable(from, to, made)?;
        if self.reserve_told().is_err() {
            return Err(EventError::OutOfMemory);
        }
        let mut sent = None;
        let Ok(()) = self.move_host(code, to, Move::Take(from, &message), &mut sent) else {
            return Err(EventError::OutOfMemory);
        };
        self.tell(to, &sent);
        Ok(())
    }
}
