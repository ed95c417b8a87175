//! Turns that push entries, hand the thread over, and give its token back.

ghost use Rattle.std.specs.Prelude.{◌≡◌, ◌<◌, ◌+◌, ◌^◌, ◌↔◌, IsTrue, length};
ghost use Rattle.host_code.specs.Code.{variable_at};
ghost use Rattle.host_code.specs.Riders.{AreFew};
ghost use Rattle.host_core.specs.Host.{state_of, IsReady, StepsTo, StepsBy};
ghost use Rattle.host_core.specs.Turn.{after_own_push, after_ask, after_go, after_go_with, after_call, riders_of};
ghost use Rattle.host_core.specs.Turn.{IsReturning, IsGivingBack};
ghost use Rattle.host_core.specs.Turn.{MayReturn};

use crate::host::{Host, Sent};
use crate::subjects::Variable;
use crate::thread::{Awaited, Thread};
use capability::Held;
use host_code::{Code, CodeExpr, Message, RiderVars, Riders};
use js_base::{EntryId, FrameId, HostId, VarId};

impl Host {
    /// An entry is pushed in the thread's frame with its token, and the thread holds the new token.
    pub(crate) fn push(&mut self, mut thread: Thread, entry: EntryId) -> Sent
        requires ready { IsReady self.old }
        requires next { thread.at + 1 < 2 ^ 32 }
        requires entry { entry.0 < length self.old.stack.serials }
        ensures { StepsTo self.old self.new result
            (after_own_push (state_of self.old) thread entry thread.held) }
    {
        if let Some(held) = thread.take_held() {
            let frame = thread.frame();
            let token = self.push_entry(entry, frame, held);
            thread.hold(Held::of(token));
            thread.step();
        }
        self.running = Some(thread);
        None
    }

    /// A host is asked to push an entry in the thread's frame and to keep the thread's token with it.
    pub(crate) fn ask(&mut self, mut thread: Thread, entry: EntryId, on: HostId) -> Sent
        requires ready { IsReady self.old }
        requires next { thread.at + 1 < 2 ^ 32 }
        ensures { StepsTo self.old self.new result
            (after_ask (state_of self.old) thread entry on thread.held) }
    {
        let Some(held) = thread.take_held() else {
            self.running = Some(thread);
            return None;
        };
        let at = thread.at();
        let frame = thread.frame();
        thread.step();
        let request = self.wait(at, thread, Awaited::Token, on);
        Some((
            on,
            Message::Sync {
                request,
                frame,
                entry,
                token: held.spend(),
            },
        ))
    }

    /// The thread ends, and is handed over to a host at an entry and in a frame.
    pub(crate) fn go(
        &mut self,
        mut thread: Thread,
        frame: FrameId,
        entry: EntryId,
        on: HostId,
    ) -> Sent
        ensures { StepsTo self.old self.new result
            (after_go (state_of self.old) thread frame entry on thread.held) }
    {
        let Some(held) = thread.take_held() else {
            self.running = Some(thread);
            return None;
        };
        self.running = None;
        let token = held.spend();
        Some((
            on,
            Message::Rgoto {
                frame,
                entry,
                token,
            },
        ))
    }

    /// The thread ends, and is handed over to a host at an entry and in a frame, with the values of variables of that
    /// frame.
    pub(crate) fn go_with(
        &mut self,
        mut thread: Thread,
        frame: FrameId,
        entry: EntryId,
        on: HostId,
        riders: &RiderVars,
    ) -> Sent
        ensures { StepsTo self.old self.new result
            (after_go_with (state_of self.old) thread frame entry on riders.now thread.held) }
    {
        let Some(held) = thread.take_held() else {
            self.running = Some(thread);
            return None;
        };
        let pairs = self.riders_for(frame, riders.vars());
        self.running = None;
        let token = held.spend();
        Some((
            on,
            Message::RgotoWith {
                frame,
                entry,
                token,
                pairs,
            },
        ))
    }

    /// Some variables with their values in a frame.
    fn riders_for(&self, frame: FrameId, vars: &[VarId]) -> Riders
        requires { AreFew vars.now }
        ensures { result ≡ riders_of (state_of self.now) frame vars.now }
    {
        let [first, others @ ..] = vars else {
            unreachable!();
        };
        let mut riders = Riders::one((*first, self.stores.var(frame, *first)));
        for var in others {
            riders.push((*var, self.stores.var(frame, *var)));
        }
        riders
    }

    /// The thread goes on at an entry in its new frame, on this host or on another.
    pub(crate) fn call(
        &mut self,
        code: &Code,
        mut thread: Thread,
        entry: EntryId,
        on: HostId,
    ) -> Sent
        ensures { StepsTo self.old self.new result
            (after_call code.now (state_of self.old) thread entry on) }
    {
        if on.0 != self.me.0 {
            let frame = thread.new_frame();
            return self.go(thread, frame, entry, on);
        }
        if let Some(there) = code.entry(entry) {
            thread.enter_new_frame(there.at);
        }
        self.running = Some(thread);
        None
    }

    /// The result goes to the host and the frame that the thread's token names, where it may be seen there.
    pub(crate) fn return_value(
        &mut self,
        code: &Code,
        mut thread: Thread,
        var: VarId,
        value: &CodeExpr,
    ) -> Sent
        requires ready { IsReady self.old }
        requires next { thread.at + 1 < 2 ^ 32 }
        ensures { StepsBy self.old self.new result
            (IsReturning code.now (state_of self.old) thread var value.now) }
    {
        let Some(token) = thread.token() else {
            self.running = Some(thread);
            return None;
        };
        let at = thread.at();
        let value = thread.value(&self.stores, value);
        thread.step_cleared();
        if token.host.0 == self.me.0 {
            self.set_variable(token.frame, var, value);
            self.running = Some(thread);
            return None;
        }
        if may_return(code, var, token.host) {
            let variable = Variable {
                frame: token.frame,
                var,
            };
            return self.forward(at, thread, variable, value, token.host);
        }
        self.running = Some(thread);
        None
    }

    /// The thread ends, and gives its token back to the host that the token names.
    pub(crate) fn give_back(&mut self, code: &Code, mut thread: Thread) -> Sent
        requires ready { IsReady self.old }
        ensures { StepsBy self.old self.new result
            (IsGivingBack code.now (state_of self.old) thread) }
    {
        let Some(token) = thread.token() else {
            self.running = Some(thread);
            return None;
        };
        self.running = None;
        if token.host.0 != self.me.0 {
            return Some((token.host, Message::Lgoto { token }));
        }
        self.pop_or_ignore(code, token);
        None
    }
}

/// Whether a result may be forwarded to a host: whether the label of its variable may flow there.
fn may_return(code: &Code, var: VarId, to: HostId) -> bool
    ensures { IsTrue result ↔ MayReturn code.now (variable_at code.now var) to }
{
    let Some(there) = code.var(var) else {
        return false;
    };
    match (code.label(there.label()), code.host(to)) {
        (Some(label), Some(host)) => label.conf_flows(host.label()),
        _ => false,
    }
}
