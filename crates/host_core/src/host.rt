//! A host: what it has, and what one call of it does.

ghost use Rattle.std.specs.Prelude.{◌≡◌, ◌<◌, ◌≤◌, ◌↔◌, OnOk, IsErrOf, IsTrue, is_none, length};
ghost use Rattle.std.specs.Prelude.{◌+◌};
ghost use Rattle.jif_tree.specs.Store.{row_of, element_at};
ghost use Rattle.std.specs.Option.{option_map};
ghost use Rattle.host_core.specs.Host.{value_in_running, state_of, IsStopped, IsReady, Becomes, with_one_ignored};

use crate::thread::{Thread, Waiting};
use capability::KEY_BYTES;
use entry_check::Checks;
use host_code::{Code, CodeExpr, MOST_RIDERS, Message};
use host_stores::Stores;
use ics_stack::IcsStack;
use jif_tree::Store;
use js_base::{FieldId, HostId, OutOfMemory};
use std::alloc::Global;
use std::marker::Model;
use thiserror::Error;

/// What a host sends to whom after a step, if anything.
pub type Sent = Option<(HostId, Message)>;

/// Why a host made no step.
#[derive(Clone, Copy, Debug, PartialEq, Eq, Error)]
pub enum HostError {
    /// The step had no memory. The host is as before, and is stopped.
    #[error("out of memory")]
    OutOfMemory,
    /// An earlier step had no memory, or the host has made 2^62 calls.
    #[error("stopped")]
    Stopped,
}

/// The calls after which a host answers no more, so that no count of its comes to its end.
pub const MOST_CALLS: u64 = 1 << 62;

/// One host: its fields, the variables of frames, its control stack and its threads.
#[derive(Drop)]
pub struct Host {
    pub(crate) alloc: Global,
    pub(crate) me: HostId,
    pub(crate) stores: Stores,
    pub(crate) stack: IcsStack,
    pub(crate) running: Option<Thread>,
    /// In the order in which they asked.
    pub(crate) waiting: Vec<Waiting>,
    /// For each call site, by its number, how many frames were made.
    pub(crate) frames: Vec<u64>,
    /// For each instruction how many requests it made.
    pub(crate) requests: Vec<u64>,
    pub(crate) ignored: u64,
    pub(crate) halted: bool,
    pub(crate) checks: Checks,
    pub(crate) calls: u64,
    pub(crate) stopped: bool,
}

impl Model for Host {
    ghost use Rattle.std.specs.Prelude.{◌≡◌, ◌+◌, ◌-◌, ◌≤◌, All};
    ghost use Rattle.std.specs.Vec.{vec_len, vec_capacity};
    ghost use Rattle.host_core.specs.declared.host.TheConstants.{MOST_CALLS};
    ghost use Rattle.host_core.specs.Host.{HostModel};

    ghost Value = { HostModel };

    ghost view = { λ h. record {
      me = h.me;
      stores = h.stores;
      stack = h.stack;
      running = h.running;
      waiting = h.waiting.items;
      room = vec_capacity h.waiting - vec_len h.waiting;
      frames = h.frames.items;
      requests = h.requests.items;
      ignored = h.ignored;
      halted = h.halted;
      checks = h.checks;
      calls = h.calls;
      stopped = h.stopped;
    } };

    ghost invariant = { λ h.
        (h.stack.host ≡ h.me)
        × All (λ count. count ≤ h.calls) h.frames.items
        × All (λ count. count ≤ h.calls) h.requests.items
        × (h.stack.pushes ≤ h.calls + 1)
        × (h.ignored ≤ h.calls)
        × (h.calls ≤ MOST_CALLS) };
}

impl Host {
    /// Whether no thread runs.
    pub fn rest(&self) -> bool
        ensures { result ≡ is_none self.now.running }
    {
        self.running.is_none()
    }

    /// Whether the entry that ends the program was taken off the control stack.
    pub fn halted(&self) -> bool
        ensures { result ≡ self.now.halted }
    {
        self.halted
    }

    /// How many requests and tokens were ignored.
    pub fn ignored(&self) -> u64
        ensures { result ≡ self.now.ignored }
    {
        self.ignored
    }

    /// How many threads wait for an answer.
    pub fn waiting(&self) -> u64
        ensures { result ≡ length self.now.waiting }
    {
        self.waiting.len() as u64
    }

    /// How many entries are on the control stack.
    pub fn depth(&self) -> u64
        ensures { result ≡ length self.now.stack.entries }
    {
        self.stack.depth()
    }

    /// The element of a field at an index, 0 where the field is on another host or the index is out of range.
    pub fn field(&self, field: FieldId, index: i64) -> i64
        ensures { result ≡ element_at (row_of self.now.stores.rows field.0) index }
    {
        self.stores.field(field, index)
    }

    /// The number of the running thread's next instruction, none where no thread runs.
    pub fn place(&self) -> Option<u32>
        ensures { result ≡ option_map (λ thread. thread.at) self.now.running }
    {
        match &self.running {
            Some(thread) => Some(thread.at()),
            None => None,
        }
    }

    /// The value of an expression in the running thread, 0 where no thread runs.
    pub fn value(&self, value: &CodeExpr) -> i64
        ensures { result ≡ value_in_running (state_of self.now) self.now.running value.now }
    {
        match &self.running {
            Some(thread) => thread.value(&self.stores, value),
            None => 0,
        }
    }

    /// Whether an earlier call of `deliver` or `turn` answered `OutOfMemory`.
    pub fn stopped(&self) -> bool
        ensures { result ≡ self.now.stopped }
    {
        self.stopped
    }

    /// Whether the host answers no more: one of its calls had no memory, or it has made 2^62.
    pub fn is_stopped(&self) -> bool
        ensures { IsTrue result ↔ IsStopped self.now }
    {
        self.stopped || self.calls >= MOST_CALLS
    }

    /// Makes room for one more of each thing, and for as many variables as may ride with a message. Nothing else
    /// changes, also after an error.
    fn reserve(&mut self) -> Result<(), OutOfMemory>
        ensures waiting { OnOk result (0 < self.new.room) }
        ensures variables { OnOk result (MOST_RIDERS ≤ self.new.stores.spare) }
        ensures stack { OnOk result (0 < self.new.stack.room) }
        ensures same { self.new ≡ record self.old {
          room = self.new.room;
          stores = record self.old.stores { spare = self.new.stores.spare };
          stack = record self.old.stack { room = self.new.stack.room };
        } }
    {
        self.waiting.reserve(1)?;
        self.stores.reserve_vars(MOST_RIDERS)?;
        self.stack.reserve()
    }

    /// One more call is counted where the host still answers, and there is room for what it adds.
    pub(crate) fn begin(&mut self) -> Result<(), HostError>
        ensures ready { OnOk result (IsReady self.new) }
        ensures calls { OnOk result (self.new.calls ≡ self.old.calls + 1) }
        ensures running { OnOk result (self.new.stopped ≡ self.old.stopped) }
        ensures stopped { IsErrOf result HostError.Stopped ↔ IsStopped self.old }
        ensures kept { IsErrOf result HostError.Stopped → self.new ≡ self.old }
        ensures out_of_memory { IsErrOf result HostError.OutOfMemory → IsTrue self.new.stopped }
        ensures same { state_of self.new ≡ state_of self.old }
        ensures checks { self.new.checks ≡ self.old.checks }
    {
        if self.is_stopped() {
            return Err(HostError::Stopped);
        }
        if self.reserve().is_err() {
            self.stopped = true;
            return Err(HostError::OutOfMemory);
        }
        self.calls += 1;
        Ok(())
    }

    /// A request or a token is ignored.
    pub(crate) fn ignore(&mut self)
        requires { IsReady self.old }
        ensures { Becomes self.old self.new (with_one_ignored (state_of self.old)) }
    {
        self.ignored += 1;
    }
}
