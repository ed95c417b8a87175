//! What becomes of the messages of an event.

ghost use Rattle.std.specs.Prelude.{◌≡◌, ◌<◌, ℕ, length, OnOk, OnErr, IfSome, IsSomeAnd};
ghost use Rattle.std.specs.Prelude.{slice_get, IsSome};
ghost use Rattle.js_base.specs.declared.ids.HostId.{HostId};
ghost use Rattle.host_core.specs.Fits.{SentFits};
ghost use Rattle.net_world.specs.Flying.{HasRoom, pair_place};
ghost use Rattle.net_world.specs.Told.{ToldHasRoom};
ghost use Rattle.net_world.specs.World.{without_flight, after_sending, after_telling, letter_of};
ghost use Rattle.net_world.specs.Fits.{HostsFit, world_of, host_at};
ghost use Rattle.net_world.specs.Steps.{IsMove, IsMovable, MoveFits, HasStepped, HasStopped, HasCountedCall};
ghost use Rattle.net_world.specs.Steps.{ChangesOnlyHost};

use crate::moves::{Move, move_at};
use crate::world::World;
use host_code::Code;
use host_core::Sent;
use js_base::{HostId, OutOfMemory};

impl World {
    /// Makes room for what a host answers another, and changes nothing else, also after an error.
    pub(crate) fn reserve_to(&mut self, from: HostId, to: HostId) -> Result<(), OutOfMemory>
        requires from { from.0 < length self.old.hosts }
        requires to { to.0 < length self.old.hosts }
        ensures room { OnOk result (HasRoom self.new.queues (pair_place from to)) }
        ensures told { OnOk result (ToldHasRoom self.new.told) }
        ensures world { world_of self.new ≡ world_of self.old }
        ensures hosts { self.new.hosts ≡ self.old.hosts }
        ensures root { self.new.root ≡ self.old.root }
        ensures readable { self.new.readable ≡ self.old.readable }
    {
        self.few_hosts();
        self.told.reserve()?;
        self.flying.reserve(from, to)
    }

    /// Makes room for what a misbehaving host is told, and changes nothing else, also after an error.
    pub(crate) fn reserve_told(&mut self) -> Result<(), OutOfMemory>
        ensures told { OnOk result (ToldHasRoom self.new.told) }
        ensures world { world_of self.new ≡ world_of self.old }
        ensures hosts { self.new.hosts ≡ self.old.hosts }
        ensures root { self.new.root ≡ self.old.root }
        ensures readable { self.new.readable ≡ self.old.readable }
    {
        self.told.reserve()
    }

    /// Makes room for what a host may send, and changes nothing else, also after an error.
    pub(crate) fn reserve_from(&mut self, from: HostId) -> Result<(), OutOfMemory>
        requires { from.0 < length self.old.hosts }
        ensures room { OnOk result
            ((to : HostId) → to.0 < length self.old.hosts → HasRoom self.new.queues (pair_place from to)) }
        ensures told { OnOk result (ToldHasRoom self.new.told) }
        ensures world { world_of self.new ≡ world_of self.old }
        ensures hosts { self.new.hosts ≡ self.old.hosts }
        ensures root { self.new.root ≡ self.old.root }
        ensures readable { self.new.readable ≡ self.old.readable }
    {
        // Only a look at a field tells the check what every world keeps, here that its hosts are few.
        let hosts = self.hosts.len();
        self.told.reserve()?;
        self.flying.reserve_from(from, hosts)
    }

    /// A host that can make a move makes it. After want of memory it answers no more.
    pub(crate) fn move_host(
        &mut self,
        code: &Code,
        host: HostId,
        step: Move,
        sent: &mut Sent,
    ) -> Result<(), OutOfMemory>
        requires movable { IsSomeAnd (host_at self.old host) (IsMovable step) }
        requires fits { HostsFit code.now self.old.hosts }
        requires move_fits { MoveFits code.now host step }
        ensures ok { OnOk result (HasStepped (IsMove code.now step.entry) (world_of self.old) host sent.new
            (world_of self.new)) }
        ensures err { OnErr result (world_of self.new ≡ world_of self.old) }
        ensures stopped { OnErr result (HasStopped self.new host) }
        ensures counted { OnOk result (HasCountedCall host self.old.hosts self.new.hosts) }
        ensures others { ChangesOnlyHost host self.old.hosts self.new.hosts }
        ensures fits { HostsFit code.now self.new.hosts }
        ensures sent { OnOk result (SentFits code.now host sent.new) }
        ensures mail { (self.new.queues ≡ self.old.queues) × (self.new.told ≡ self.old.told) }
        ensures root { self.new.root ≡ self.old.root }
        ensures readable { self.new.readable ≡ self.old.readable }
    {
        move_at(&mut self.hosts, code, host, step, sent)
    }

    /// A message in flight is taken out.
    pub(crate) fn take_out(&mut self, from: HostId, to: HostId, place: u64)
        requires from { from.0 < length self.old.hosts }
        requires to { to.0 < length self.old.hosts }
        requires there { IsSome (slice_get ((world_of self.old).flying from to) place) }
        ensures world { world_of self.new ≡ without_flight (world_of self.old) from to place }
        ensures room { (pair : ℕ) → HasRoom self.old.queues pair → HasRoom self.new.queues pair }
        ensures same { (self.new.hosts ≡ self.old.hosts) × (self.new.told ≡ self.old.told)
            × (self.new.root ≡ self.old.root) }
        ensures readable { self.new.readable ≡ self.old.readable }
    {
        self.few_hosts();
        self.flying.remove(from, to, place as usize);
    }

    /// What a host sends is told to a misbehaving host, or is in flight with its label to another. There is room for
    /// it.
    pub(crate) fn post(&mut self, from: HostId, label: Option<u32>, sent: &Sent)
        requires from { from.0 < length self.old.hosts }
        requires room { IfSome sent.now (λ letter.
            (letter.0.0 < length self.old.hosts) × HasRoom self.old.queues (pair_place from letter.0)) }
        requires told { ToldHasRoom self.old.told }
        ensures world { world_of self.new ≡ after_sending (world_of self.old) from (letter_of label sent.now) }
        ensures same { (self.new.hosts ≡ self.old.hosts) × (self.new.root ≡ self.old.root) }
        ensures readable { self.new.readable ≡ self.old.readable }
    {
        self.few_hosts();
        let (Some(label), Some((to, message))) = (label, sent) else {
            return;
        };
        if self.is_bad(*to) {
            self.told.push(from, *to, message);
        } else {
            self.flying.push(from, *to, message, label);
        }
    }

    /// What a host answers is told to a misbehaving host. There is room for it.
    pub(crate) fn tell(&mut self, from: HostId, sent: &Sent)
        requires { ToldHasRoom self.old.told }
        ensures world { world_of self.new ≡ after_telling (world_of self.old) from sent.now }
        ensures same { (self.new.hosts ≡ self.old.hosts) × (self.new.root ≡ self.old.root) }
        ensures readable { self.new.readable ≡ self.old.readable }
    {
        if let Some((to, message)) = sent {
            self.told.push(from, *to, message);
        }
    }
}
