//! All hosts, what is in flight between them, and what misbehaving hosts were sent.

ghost use Rattle.std.specs.Prelude.{◌≡◌, ◌<◌, ◌≤◌, ◌↔◌, ◌+◌, IfOk, IfSome, IsTrue, length};
ghost use Rattle.std.specs.Prelude.{map, option_copied, slice_get};
ghost use Rattle.js_base.specs.declared.ids.HostId.{HostId};
ghost use Rattle.net_world.specs.World.{world_at_start, has_halted, host_before, hosts_before, AreHostsOf};
ghost use Rattle.net_world.specs.Fits.{WorldFits, HostsFit, PresentFits, states_of, world_of, host_at};
ghost use Rattle.net_world.specs.Steps.{HasMade, HaveMade};
ghost use Rattle.std.specs.Option.{option_map};
ghost use Rattle.host_core.specs.Host.{state_of};

use crate::flying::Flying;
use crate::readers::readable_labels;
use crate::told::Told;
use host_code::{Code, Message};
use host_core::Host;
use host_decl::{HostRow, Hosts};
use jif_tree::Store;
use js_base::bits::has_bit;
use js_base::limits::HOSTS;
use js_base::{HostId, OutOfMemory};
use std::alloc::Global;
use std::marker::Model;
use thiserror::Error;

/// Why an event was not applied. The world is as before, except that a host whose own step had no memory is stopped.
#[derive(Clone, Copy, Debug, PartialEq, Eq, Error)]
pub enum EventError {
    #[error("out of memory")]
    OutOfMemory,
    /// There is no such message, no obeying host of the number, or no thread runs for a turn.
    #[error("not there")]
    NotThere,
    /// The host runs a thread, and takes no message meanwhile.
    #[error("host busy")]
    HostBusy,
    /// Misbehaving hosts were sent only so many tokens.
    #[error("no such token, {0} sent")]
    NoSuchToken(u64),
    /// The sender obeys, and sends nothing of its own accord.
    #[error("not misbehaving")]
    NotBad,
    /// The host had no memory for an earlier step, or has made 2^62 calls.
    #[error("stopped")]
    Stopped,
}

impl EventError {
    /// Where all hosts obey, what comes next is never refused, and a host answers far more calls than it is made to
    /// answer. So memory ran out.
    pub fn only_memory(self) -> OutOfMemory
        requires { self ≡ EventError.OutOfMemory }
    {
        match self {
            EventError::OutOfMemory => OutOfMemory,
            _ => unreachable!(),
        }
    }
}

/// All hosts, and what is in flight between them. A misbehaving host has no state: it may send whatever it can make,
/// and what it is sent is kept.
#[derive(Drop)]
pub struct World {
    pub(crate) root: HostId,
    pub(crate) hosts: Vec<Option<Host>>,
    pub(crate) flying: Flying,
    pub(crate) told: Told,
}

impl Model for World {
    ghost use Rattle.std.specs.Prelude.{◌≤◌, length};
    ghost use Rattle.js_base.specs.declared.limits.TheConstants.{HOSTS};
    ghost use Rattle.net_world.specs.Fits.{WorldModel};

    ghost Value = { WorldModel };

    ghost view = { λ w. record {
      root = w.root;
      hosts = w.hosts.items;
      queues = w.flying.queues;
      readable = w.flying.readable;
      told = w.told;
    } };

    ghost invariant = { λ w. length w.hosts.items ≤ HOSTS };
}

impl World {
    /// The world before the first event, of the code's hosts as a host file has them. Host h misbehaves where bit h of
    /// `bad` is set. The fields have the values of the store.
    pub fn start(
        alloc: Global,
        code: &Code,
        hosts: &Hosts,
        bad: u16,
        store: &Store,
    ) -> Result<World, OutOfMemory>
        requires { AreHostsOf code.now hosts.now.hosts }
        ensures start { IfOk result (λ world.
            world_of world ≡ world_at_start code.now hosts.now.hosts bad store.now) }
        ensures fits { IfOk result (WorldFits code.now) }
        ensures fresh { IfOk result (λ world. HaveMade 0 world.hosts) }
    {
        let root = code.root();
        let rows = hosts.hosts();
        let hosts = start_hosts(alloc, code, rows, bad, store)?;
        let readable = readable_labels(alloc, code, &hosts)?;
        let flying = Flying::new(alloc, readable)?;
        let told = Told::new(alloc);
        Ok(World {
            root,
            hosts,
            flying,
            told,
        })
    }

    /// Whether the root host obeys, and took the entry that ends the program off its control stack.
    pub fn halted(&self) -> bool
        ensures { IsTrue result ↔ has_halted self.now.root (world_of self.now) }
    {
        match self.host(self.root) {
            Some(root) => root.halted(),
            None => false,
        }
    }

    /// A host of the code, where it obeys.
    pub fn host(&self, host: HostId) -> Option<&Host>
        ensures { option_copied result ≡ host_at self.now host }
    {
        match self.hosts.get(host.0 as usize) {
            Some(Some(there)) => Some(there),
            _ => None,
        }
    }

    /// What is in flight from a host to a host, the oldest first, and nothing where one of them is none of the code's.
    pub fn flying(&self, from: HostId, to: HostId) -> &[Message]
        ensures { result.now ≡ map (λ flight. flight.message) ((world_of self.now).flying from to) }
    {
        if self.is_host(from) && self.is_host(to) {
            self.flying.messages(from, to)
        } else {
            &[]
        }
    }

    /// What misbehaving hosts were sent: the sender, the host that it was sent to, and the message.
    pub fn sent(&self) -> &[(HostId, HostId, Message)]
        ensures { result.now ≡ (world_of self.now).sent }
    {
        self.told.messages()
    }

    /// A world has few hosts. The call does nothing: only a look at a field tells the check what every world keeps.
    pub(crate) fn few_hosts(&self)
        ensures { length self.now.hosts ≤ HOSTS }
    {
        let _hosts = &self.hosts;
    }

    /// Whether the code has a host of the number.
    pub(crate) fn is_host(&self, host: HostId) -> bool
        ensures host { IsTrue result ↔ (host.0 < length self.now.hosts) }
        ensures few { length self.now.hosts ≤ HOSTS }
    {
        (host.0 as usize) < self.hosts.len()
    }
}

/// The hosts of the rows before the first event, without those that misbehave.
fn start_hosts(
    alloc: Global,
    code: &Code,
    rows: &[HostRow],
    bad: u16,
    store: &Store,
) -> Result<Vec<Option<Host>>, OutOfMemory>
    requires rows { length rows.now ≡ length code.now.hosts }
    ensures states { IfOk result (λ hosts.
        states_of hosts.items ≡ hosts_before code.now store.now bad 0 rows.now) }
    ensures count { IfOk result (λ hosts. length hosts.items ≡ length code.now.hosts) }
    ensures few { length code.now.hosts ≤ HOSTS }
    ensures fits { IfOk result (λ hosts. HostsFit code.now hosts.items) }
    ensures fresh { IfOk result (λ hosts. HaveMade 0 hosts.items) }
{
    let count = code.hosts().len();
    prove!(count <= HOSTS);
    let mut hosts = Vec::new(alloc);
    for (number, row) in rows.iter().enumerate() {
        let host = start_host(alloc, code, HostId(number as u8), row, bad, store)?;
        hosts.push(host)?;
    }
    Ok(hosts)
}

/// A host before the first event, where it obeys.
fn start_host(
    alloc: Global,
    code: &Code,
    me: HostId,
    row: &HostRow,
    bad: u16,
    store: &Store,
) -> Result<Option<Host>, OutOfMemory>
    requires me { me.0 < length code.now.hosts }
    ensures state { IfOk result (λ host.
        option_map state_of host ≡ host_before code.now store.now bad me.0 row.now) }
    ensures fits { IfOk result (λ host. IfSome host (PresentFits code.now me)) }
    ensures fresh { IfOk result (λ host. IfSome host (HasMade 0)) }
{
    let few = code.hosts().len() <= HOSTS;
    prove!(few);
    if has_bit(bad as u64, me.0) {
        return Ok(None);
    }
    let host = Host::start(alloc, code, me, *row.key(), store)?;
    Ok(Some(host))
}
