//! Links in memory that fail at listed calls.

ghost use Rattle.std.specs.Prelude.{◌≡◌, ◌≤◌, ◌⊎◌, ◌↔◌, [], Some, IsTrue, map, Contains, Ok, Err};
ghost use Rattle.std.specs.Prelude.{IfErr, IfOk, OnOk, OnErr, IsErrOf, string_bytes};
ghost use Rattle.js_base.specs.Counts.{Rose};
ghost use Rattle.node_links.specs.Links.{Began, Gave, Took};
ghost use Rattle.node_links.specs.MemLinks.{IsListed, after_begin, after_call, after_fault, after_next, after_send};

use crate::copies::copies;
use crate::links::{Arrived, LinkError, Links};
use js_base::HostId;
use std::alloc::{AllocError, Global};
use std::collections::VecDeque;
use std::marker::Model;

/// Links in memory, which have frames to give and fail at the calls that were listed.
#[derive(Drop)]
pub struct MemLinks {
    begun: Vec<(HostId, Vec<String>)>,
    left: VecDeque<Vec<u8>>,
    sent: Vec<(HostId, Vec<u8>)>,
    failing: Vec<u64>,
    calls: u64,
    faults: u64,
}

impl Model for MemLinks {
    ghost use Rattle.std.specs.Prelude.{map, string_bytes};
    ghost use Rattle.node_links.specs.MemLinks.{LinksInMemory};

    ghost Value = { LinksInMemory };

    ghost view = { λ l. record {
      begun = map (λ one. (one.0, map string_bytes one.1.items)) l.begun.items;
      left = map (λ frame. frame.items) l.left.items;
      sent = map (λ one. (one.0, one.1.items)) l.sent.items;
      failing = l.failing.items;
      calls = l.calls;
      faults = l.faults;
    } };
}

impl MemLinks {
    /// Has these frames to give, has sent none, and did not begin. The calls of `next` and `send` are numbered together
    /// from 0, and those whose number is in `failing` fail, and a `next` where no frame is left.
    pub fn new(alloc: Global, frames: Vec<Vec<u8>>, failing: Vec<u64>) -> Self
        ensures { result ≡ record {
          begun = [];
          left = map (λ frame. frame.items) frames.items;
          sent = [];
          failing = failing.items;
          calls = 0;
          faults = 0;
        } }
    {
        MemLinks {
            begun: Vec::new(alloc),
            left: VecDeque::from_vec(frames),
            sent: Vec::new(alloc),
            failing,
            calls: 0,
            faults: 0,
        }
    }

    /// The hosts as which they began, each with the paths of all hosts.
    pub fn begun(&self) -> &[(HostId, Vec<String>)]
        ensures { map (λ one. (one.0, map string_bytes one.1.items)) result.now ≡ self.now.begun }
    {
        self.begun.as_slice()
    }

    /// The frames that were sent, each with the host that it was sent to.
    pub fn sent(&self) -> &[(HostId, Vec<u8>)]
        ensures { map (λ one. (one.0, one.1.items)) result.now ≡ self.now.sent }
    {
        self.sent.as_slice()
    }

    /// Counts a call, and says whether it is listed.
    fn start(&mut self) -> bool
        ensures listed { IsTrue result ↔ IsListed self.old }
        ensures after { self.new ≡ after_call self.old }
    {
        let listed = is_listed(&self.failing, self.calls);
        self.calls = self.calls.saturating_add(1);
        listed
    }

    /// Counts a fault.
    fn fail(&mut self) -> LinkError
        ensures after { self.new ≡ after_fault self.old }
        ensures faults { self.old.faults ≤ self.new.faults }
        ensures cause { Rose self.old.faults self.new.faults }
        ensures failed { result ≡ LinkError.Failed }
    {
        self.faults = self.faults.saturating_add(1);
        LinkError::Failed
    }

    /// Keeps as which host they begin, or nothing where memory is out.
    fn note(&mut self, alloc: Global, me: HostId, paths: &[String]) -> Result<(), AllocError>
        ensures ok { OnOk result (self.new ≡ after_begin me (map string_bytes paths.now) self.old) }
        ensures err { OnErr result (self.new ≡ self.old) }
    {
        let paths = copies(alloc, paths)?;
        Ok(self.begun.push((me, paths))?)
    }

    /// Keeps a frame that is sent, or nothing where memory is out.
    fn keep(&mut self, alloc: Global, to: HostId, bytes: &[u8]) -> Result<(), AllocError>
        ensures ok { OnOk result (self.new ≡ after_send to bytes.now self.old) }
        ensures err { OnErr result (self.new ≡ self.old) }
    {
        let frame = Vec::from_slice(alloc, bytes)?;
        Ok(self.sent.push((to, frame))?)
    }
}

/// Whether a call's number is among those that are to fail.
fn is_listed(failing: &[u64], call: u64) -> bool
    ensures { IsTrue result ↔ Contains failing.now call }
{
    failing.contains(&call)
}

impl Links for MemLinks {
    ghost faults = { λ l. l.faults };

    ghost begun = { λ l. Some l.begun };

    ghost left = { λ l. Some l.left };

    ghost sent = { λ l. Some l.sent };

    /// In memory the call is not numbered among those that may fail: it wants memory, and else it answers `Ok`.
    fn begin(&mut self, alloc: Global, me: HostId, paths: &[String]) -> Result<(), LinkError>
        ensures ok { OnOk result (Began me (map string_bytes paths.now) (Some self.old.begun) (Some self.new.begun)) }
        ensures err { OnErr result ((Some self.new.begun ≡ Some self.old.begun)
            ⊎ Began me (map string_bytes paths.now) (Some self.old.begun) (Some self.new.begun)) }
        ensures left { Some self.new.left ≡ Some self.old.left }
        ensures sent { Some self.new.sent ≡ Some self.old.sent }
        ensures faults { self.old.faults ≤ self.new.faults }
        ensures no_fault { IsErrOf result LinkError.Failed ⊎ (self.new.faults ≡ self.old.faults) }
        ensures cause { IsErrOf result LinkError.Failed → Rose self.old.faults self.new.faults }
        ensures after { OnOk result (self.new ≡ after_begin me (map string_bytes paths.now) self.old) }
        ensures same { OnErr result (self.new ≡ self.old) }
        ensures calm { IfErr result (λ error. error ≡ LinkError.OutOfMemory) }
    {
        Ok(self.note(alloc, me, paths)?)
    }

    fn next(&mut self, _alloc: Global) -> Result<Arrived, LinkError>
        ensures ok { IfOk result (λ arrived. Gave arrived.bytes.items (Some self.old.left) (Some self.new.left)) }
        ensures err { OnErr result (Some self.new.left ≡ Some self.old.left) }
        ensures begun { Some self.new.begun ≡ Some self.old.begun }
        ensures sent { Some self.new.sent ≡ Some self.old.sent }
        ensures faults { self.old.faults ≤ self.new.faults }
        ensures no_fault { IsErrOf result LinkError.Failed ⊎ (self.new.faults ≡ self.old.faults) }
        ensures cause { IsErrOf result LinkError.Failed → Rose self.old.faults self.new.faults }

        // It fails at the listed calls, and where no frame is left, and at no other.
        ensures listed { OnErr result (IsListed self.old ⊎ (self.old.left ≡ [])) }
        ensures unlisted { OnOk result (¬ IsListed self.old) }
        ensures failed { OnErr result (result ≡ Err LinkError.Failed) }

        ensures after { OnOk result (self.new ≡ after_next (after_call self.old)) }
        ensures after_fault { OnErr result (self.new ≡ after_fault (after_call self.old)) }
    {
        if self.start() {
            return Err(self.fail());
        }
        match self.left.pop_front() {
            Some(bytes) => Ok(Arrived { bytes }),
            None => Err(self.fail()),
        }
    }

    fn send(&mut self, alloc: Global, to: HostId, bytes: &[u8]) -> Result<(), LinkError>
        ensures ok { OnOk result (Took to bytes.now (Some self.old.sent) (Some self.new.sent)) }
        ensures err { OnErr result ((Some self.new.sent ≡ Some self.old.sent)
            ⊎ Took to bytes.now (Some self.old.sent) (Some self.new.sent)) }
        ensures begun { Some self.new.begun ≡ Some self.old.begun }
        ensures left { Some self.new.left ≡ Some self.old.left }
        ensures faults { self.old.faults ≤ self.new.faults }
        ensures no_fault { IsErrOf result LinkError.Failed ⊎ (self.new.faults ≡ self.old.faults) }
        ensures cause { IsErrOf result LinkError.Failed → Rose self.old.faults self.new.faults }

        // It fails at the listed calls and at no other, and sends nothing then.
        ensures listed { IsErrOf result LinkError.Failed → IsListed self.old }
        ensures unlisted { OnOk result (¬ IsListed self.old) }

        ensures after { OnOk result (self.new ≡ after_send to bytes.now (after_call self.old)) }
        ensures after_fault { IsErrOf result LinkError.Failed → self.new ≡ after_fault (after_call self.old) }
        ensures no_memory { IsErrOf result LinkError.OutOfMemory → self.new ≡ after_call self.old }
    {
        if self.start() {
            return Err(self.fail());
        }
        self.keep(alloc, to, bytes)?;
        Ok(())
    }
}
