//! A node at work: units one after the other, to the end of the program or of the turns that were given.

ghost use Rattle.std.specs.Prelude.{◌≡◌, ◌<◌, IfErr, OnOk};
ghost use Rattle.js_base.specs.declared.limits.TheConstants.{HOSTS};
ghost use Rattle.host_code.specs.Sound.{IsHost};
ghost use Rattle.host_core.specs.Fits.{HostFits};
ghost use Rattle.host_core.specs.Host.{state_of};
ghost use Rattle.node_engine.specs.NodeWorlds.{NodeWorld};
ghost use Rattle.node_engine.specs.Serving.{Closes, after_telling, closing_parts, has_ended, telling};
ghost use Rattle.node_engine.specs.Statuses.{IsServed};
ghost use Rattle.node_engine.specs.Told.{PartsAreDone, HasSameHost, IsNodeReady, IsSameNode, Leaves, ServesFrom, Stops};
ghost use Rattle.node_engine.specs.Told.{IsAllTold};
ghost use Rattle.node_engine.specs.Told.{TellsOf, outside, seen};

use crate::laws::unit_laws;
use crate::node::Node;
use crate::node_error::NodeError;
use host_code::Code;
use host_core::Host;
use js_base::limits::HOSTS;
use js_base::{HostId, Sink, Status};
use node_links::Links;
use node_seals::Seals;
use std::alloc::Global;
use wire_msg::Frame;

/// Runs a host's part of a program, by at most so many units: each runs one instruction where a thread runs, and
/// otherwise takes one frame, for which it may wait. Halting is looked at before each of them.
///
/// It answers `Done` where the host is the root's and has halted, once each other host was told so, and where the root
/// told it so; and `Spent` where the units are used up before. `LinkFault`, `OutFault` and `NoMemory` end it at the
/// part of a unit that failed.
pub fn serve<L: Links, R: Sink>(
    alloc: Global,
    host: &mut Host,
    code: &Code,
    me: HostId,
    links: &mut L,
    journal: &mut R,
    seals: &mut Seals,
    units: u64,
) -> Status
    requires fits { HostFits code.now host.old }
    requires me { host.old.me ≡ me }
    // Where links and journal tell what they gave and took, what they, the host and its seals are at the end is what so
    // many units leave, and the part that failed.
    ensures serves { ServesFrom code.now me units result
        (record {
          inside = record { host = state_of host.old; seals = seals.old };
          outside = outside L.Links R.Sink links.old journal.old;
        })
        (record {
          inside = record { host = state_of host.new; seals = seals.new };
          outside = outside L.Links R.Sink links.new journal.new;
        }) }
    // Whether they tell or not, it answers one of these. A fault was counted where it is answered, and no other.
    ensures answers { IsServed result }
    ensures leaves { Leaves result (outside L.Links R.Sink links.old journal.old)
        (outside L.Links R.Sink links.new journal.new) }
    ensures fits { HostFits code.now host.new }
    ensures me { host.new.me ≡ me }
{
    let mut node = Node {
        alloc,
        code,
        me,
        host,
        seals,
        links,
        journal,
    };
    node.serves(units)
}

impl<L: Links, R: Sink> Node<'_, '_, L, R> {
    /// At most so many units.
    fn serves(&mut self, units: u64) -> Status
        requires { IsNodeReady self.old }
        ensures serves { ServesFrom self.old.code.now self.old.me units result (seen L.Links R.Sink self.old)
            (seen L.Links R.Sink self.new) }
        ensures answers { IsServed result }
        ensures leaves { Leaves result (seen L.Links R.Sink self.old).outside
            (seen L.Links R.Sink self.new).outside }
        ensures ready { IsNodeReady self.new }
        ensures same { IsSameNode self.old self.new }
    {
        unit_laws();
        for _ in 0..units {
            if self.has_closed() {
                return self.closed();
            }
            match self.unit() {
                Ok(true) => return Status::Done,
                Ok(false) => {}
                Err(error) => return error.status(),
            }
        }
        if self.has_closed() {
            return self.closed();
        }
        Status::Spent
    }

    /// Whether the node is the root's, and its host has halted.
    fn has_closed(&self) -> bool
        ensures { result ≡ has_ended self.now.code.now self.now.me (state_of self.now.host.now) }
    {
        self.me.0 == self.code.root().0 && self.host.halted()
    }

    /// Each other host is told that the program is done.
    fn closed(&mut self) -> Status
        requires { IsHost self.old.code.now self.old.me }
        ensures closes { (world : NodeWorld) → IsAllTold world (seen L.Links R.Sink self.old) →
            TellsOf (Closes self.old.code.now self.old.me result world) (seen L.Links R.Sink self.new) }
        ensures answers { IsServed result }
        ensures leaves { Leaves result (seen L.Links R.Sink self.old).outside
            (seen L.Links R.Sink self.new).outside }
        ensures same { HasSameHost self.old self.new }
    {
        match self.close() {
            Ok(()) => Status::Done,
            Err(error) => error.status(),
        }
    }

    /// Sends each other host the frame of one that is done.
    fn close(&mut self) -> Result<(), NodeError>
        requires { IsHost self.old.code.now self.old.me }
        ensures ok { OnOk result (PartsAreDone (closing_parts self.old.code.now self.old.me self.old.seals.now)
            (seen L.Links R.Sink self.old) (seen L.Links R.Sink self.new)) }
        ensures err { IfErr result (λ error.
            Stops error (closing_parts self.old.code.now self.old.me self.old.seals.now)
            (seen L.Links R.Sink self.old) (seen L.Links R.Sink self.new)) }
        ensures same { HasSameHost self.old self.new }
    {
        let count = self.code.hosts().len();
        prove!(count <= HOSTS);
        for number in 0..count {
            self.tell(HostId(number as u8))?;
        }
        Ok(())
    }

    /// Sends a host the frame of one that is done, unless it is the node's own.
    fn tell(&mut self, to: HostId) -> Result<(), NodeError>
        requires { self.old.me.0 < HOSTS }
        ensures ok { OnOk result (PartsAreDone (telling self.old.me self.old.seals.now to.0)
            (seen L.Links R.Sink self.old) (seen L.Links R.Sink self.new)) }
        ensures raised { OnOk result (self.new.seals.now
            ≡ after_telling self.old.me self.old.seals.now to.0) }
        ensures err { IfErr result (λ error. Stops error (telling self.old.me self.old.seals.now to.0)
            (seen L.Links R.Sink self.old) (seen L.Links R.Sink self.new)) }
        ensures same { HasSameHost self.old self.new }
    {
        if to.0 == self.me.0 {
            return Ok(());
        }
        self.sent(to, &Frame::Done)
    }
}
