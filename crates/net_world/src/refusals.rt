//! Why an event is refused.

ghost use Rattle.std.specs.Prelude.{◌≡◌, ◌↔◌, None, Some, OnOk, IfOk, IfErr, IsTrue, IsSomeAnd};
ghost use Rattle.std.specs.Prelude.{slice_get, MatchOption};
ghost use Rattle.host_core.specs.Host.{state_of};
ghost use Rattle.host_core.specs.Turn.{label_of_turn};
ghost use Rattle.net_world.specs.World.{misbehaves};
ghost use Rattle.net_world.specs.Fits.{WorldFits, world_of, host_at};
ghost use Rattle.net_world.specs.Steps.{IsActive, IsTakeable, IsActable, IsEventRefused, IsRunnable, CannotRest};

use crate::moves::label_of;
use crate::readers::is_bad;
use crate::world::{EventError, World};
use event_text::{BadMessage, Event};
use host_code::{Code, Message};
use host_core::Host;
use js_base::HostId;

impl World {
    /// The message in flight at a place with its label, where its host can take it.
    pub(crate) fn takeable(
        &self,
        from: HostId,
        to: HostId,
        place: u64,
    ) -> Result<(&Message, u32), EventError>
        ensures ok { IfOk result (λ found. IsTakeable self.now from to place (found.0.now, found.1)) }
        ensures err { IfErr result (IsEventRefused self.now (Event.Take from to place)) }
    {
        let Some(found) = self.flight(from, to, place) else {
            return Err(EventError::NotThere);
        };
        let host = self.resting(to)?;
        if host.is_stopped() {
            return Err(EventError::Stopped);
        }
        Ok(found)
    }

    /// The label of the instruction that a host runs at its turn, where it can make one.
    pub(crate) fn runnable(&self, code: &Code, host: HostId) -> Result<Option<u32>, EventError>
        requires fits { WorldFits code.now self.now }
        ensures ok { IfOk result (IsRunnable code.now self.now host) }
        ensures err { IfErr result (IsEventRefused self.now (Event.Turn host)) }
    {
        let Some(there) = self.host(host) else {
            return Err(EventError::NotThere);
        };
        if there.rest() {
            return Err(EventError::NotThere);
        }
        if there.is_stopped() {
            return Err(EventError::Stopped);
        }
        Ok(label_of(there, code, host))
    }

    /// The message that a misbehaving host sends, where its target can take it.
    pub(crate) fn actable(
        &self,
        from: HostId,
        to: HostId,
        made: &BadMessage,
    ) -> Result<Message, EventError>
        ensures ok { IfOk result (IsActable self.now from to made.now) }
        ensures err { IfErr result (IsEventRefused self.now (Event.Act from to made.now)) }
    {
        if !self.is_bad(from) {
            return Err(EventError::NotBad);
        }
        let host = self.resting(to)?;
        let Some(message) = self.told.made(made) else {
            return Err(EventError::NoSuchToken(self.told.token_count()));
        };
        if host.is_stopped() {
            return Err(EventError::Stopped);
        }
        Ok(message)
    }

    /// A host that runs no thread.
    fn resting(&self, host: HostId) -> Result<&Host, EventError>
        ensures ok { IfOk result (λ there.
            (host_at self.now host ≡ Some there.now) × (there.now.running ≡ None)) }
        ensures err { IfErr result (CannotRest (host_at self.now host)) }
    {
        let Some(there) = self.host(host) else {
            return Err(EventError::NotThere);
        };
        if !there.rest() {
            return Err(EventError::HostBusy);
        }
        Ok(there)
    }

    /// The message in flight at a place with its label.
    pub(crate) fn flight(&self, from: HostId, to: HostId, place: u64) -> Option<(&Message, u32)>
        ensures { MatchOption result (slice_get ((world_of self.now).flying from to) place ≡ None)
            (λ found. slice_get ((world_of self.now).flying from to) place
            ≡ Some (record { message = found.0.now; label = found.1 })) }
    {
        if self.is_host(from) && self.is_host(to) {
            self.flying.flight(from, to, place as usize)
        } else {
            None
        }
    }

    /// Whether a host of the code misbehaves.
    pub(crate) fn is_bad(&self, host: HostId) -> bool
        ensures { result ≡ misbehaves (world_of self.now) host }
    {
        is_bad(&self.hosts, host)
    }
}
