//! A host before the first event.

ghost use Rattle.std.specs.Prelude.{◌≡◌, ◌≤◌, IfOk, OnOk, OnErr, All, length, false, replicate};
ghost use Rattle.entry_check.specs.Checks.{AreChecksOf};
ghost use Rattle.host_code.specs.Sound.{IsHost};
ghost use Rattle.host_core.specs.Fits.{HostFits};
ghost use Rattle.host_core.specs.Host.{state_of, Becomes};
ghost use Rattle.host_core.specs.Start.{host_at_start, idle_host, root_host, last_token};

use crate::changes::HALT;
use crate::host::Host;
use capability::{Held, KEY_BYTES, TAG_BYTES, Token};
use entry_check::Checks;
use host_code::Code;
use host_stores::Stores;
use ics_stack::IcsStack;
use jif_tree::Store;
use js_base::{FrameId, HostId, OutOfMemory, SiteId};
use std::alloc::Global;

/// The frame of `main`.
const MAIN_FRAME: FrameId = FrameId {
    site: SiteId(0),
    count: 0,
};

impl Host {
    /// Host `me` with its key before the first event. Its fields have the values of the store, and where it is the root
    /// host, its thread stands at `main`.
    pub fn start(
        alloc: Global,
        code: &Code,
        me: HostId,
        key: [u8; KEY_BYTES],
        store: &Store,
    ) -> Result<Host, OutOfMemory>
        requires { IsHost code.now me }
        ensures state { IfOk result (λ host. state_of host ≡ host_at_start code.now store.now key me) }
        ensures new { IfOk result (λ host. (host.me ≡ me) × (host.calls ≡ 0) × (host.stopped ≡ false)) }
        ensures fits { IfOk result (HostFits code.now) }
    {
        let mut host = Host::idle(alloc, code, me, key, store)?;
        if me.0 != code.root().0 {
            return Ok(host);
        }
        host.begin_program(code)?;
        Ok(host)
    }

    /// A host on which nothing was started.
    fn idle(
        alloc: Global,
        code: &Code,
        me: HostId,
        key: [u8; KEY_BYTES],
        store: &Store,
    ) -> Result<Host, OutOfMemory>
        ensures state { IfOk result (λ host. state_of host ≡ idle_host code.now store.now key me) }
        ensures new { IfOk result (λ host. (host.me ≡ me) × (host.calls ≡ 0) × (host.stopped ≡ false)) }
        ensures checks { IfOk result (λ host. AreChecksOf code.now me host.checks) }
        ensures pushes { IfOk result (λ host. host.stack.pushes ≡ 0) }
    {
        let sites = code.sites().len();
        Ok(Host {
            alloc,
            me,
            stores: Stores::new(alloc, code, me, store)?,
            stack: IcsStack::new(alloc, me, key, code.entries().len() as u32)?,
            running: None,
            waiting: Vec::new(alloc),
            frames: zeros(alloc, sites + 1)?,
            requests: zeros(alloc, code.part(me).len())?,
            ignored: 0,
            halted: false,
            checks: Checks::new(alloc, code, me)?,
            calls: 0,
            stopped: false,
        })
    }

    /// The entry that ends the program is pushed, and the thread at `main` starts with its token.
    fn begin_program(&mut self, code: &Code) -> Result<(), OutOfMemory>
        requires pushes { self.old.stack.pushes ≤ self.old.calls }
        requires serials { length self.old.stack.serials ≡ length code.now.entries }
        ensures ok { OnOk result (Becomes self.old self.new (root_host code.now (state_of self.old))) }
        ensures err { OnErr result (Becomes self.old self.new (state_of self.old)) }
    {
        let main = code.main();
        self.stack.reserve()?;
        let token = self.push_entry(HALT, MAIN_FRAME, Held::of(last_token(self.me)));
        self.enter(code, main, MAIN_FRAME, Held::of(token));
        Ok(())
    }
}

/// So many zeros.
fn zeros(alloc: Global, count: usize) -> Result<Vec<u64>, OutOfMemory>
    ensures zeros { IfOk result (λ zeros. zeros.items ≡ replicate count 0) }
    ensures low { IfOk result (λ zeros. All (λ zero. zero ≤ 0) zeros.items) }
{
    Ok(vec![in alloc; 0; count]?)
}

/// The token that is kept with the entry that ends the program, which nobody was given.
fn last_token(root: HostId) -> Token
    ensures { result ≡ last_token root }
{
    Token {
        host: root,
        frame: MAIN_FRAME,
        entry: HALT,
        serial: u64::MAX,
        tag: [0; TAG_BYTES],
    }
}
