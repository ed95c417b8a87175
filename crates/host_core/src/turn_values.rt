//! Turns that read and write fields and variables, make frames, and branch.

ghost use Rattle.std.specs.Prelude.{◌<◌, ◌+◌, ◌^◌, IfOk, OnErr, Some};
ghost use Rattle.host_code.specs.Code.{field_at};
ghost use Rattle.host_core.specs.Host.{state_of, IsReady, Becomes, StepsTo, with_running};
ghost use Rattle.host_core.specs.Turn.{after_read, after_put, after_let, after_forward, after_send, after_frame};
ghost use Rattle.host_core.specs.Turn.{after_branch};

use crate::changes::count_one;
use crate::host::{Host, Sent};
use crate::subjects::Variable;
use crate::thread::{Awaited, Thread};
use host_code::{Code, CodeExpr, Message};
use js_base::{FieldId, FrameId, HostId, OutOfMemory, SiteId, VarId};

impl Host {
    /// The thread reads the element of a field of this host, or asks the field's host for it.
    pub(crate) fn read(
        &mut self,
        code: &Code,
        mut thread: Thread,
        field: FieldId,
        index: &CodeExpr,
    ) -> Result<Sent, OutOfMemory>
        requires ready { IsReady self.old }
        requires next { thread.at + 1 < 2 ^ 32 }
        ensures ok { IfOk result (λ sent. StepsTo self.old self.new sent
            (after_read (state_of self.old) thread field index.now (field_at code.now field))) }
        ensures err { OnErr result (Becomes self.old self.new (with_running (state_of self.old) (Some thread))) }
    {
        let Some(there) = code.field(field) else {
            self.running = Some(thread);
            return Ok(None);
        };
        let host = there.host();
        let at = thread.at();
        let index = thread.value(&self.stores, index);
        if host.0 == self.me.0 {
            let value = self.stores.field(field, index);
            if thread.add_temporary(value).is_err() {
                self.running = Some(thread);
                return Err(OutOfMemory);
            }
            thread.step();
            self.running = Some(thread);
            return Ok(None);
        }
        thread.step();
        let request = self.wait(at, thread, Awaited::Value, host);
        Ok(Some((
            host,
            Message::Get {
                request,
                field,
                index,
            },
        )))
    }

    /// The thread sets the element of a field of this host, or asks the field's host to.
    pub(crate) fn put(
        &mut self,
        code: &Code,
        mut thread: Thread,
        field: FieldId,
        index: &CodeExpr,
        value: &CodeExpr,
    ) -> Sent
        requires ready { IsReady self.old }
        requires next { thread.at + 1 < 2 ^ 32 }
        ensures { StepsTo self.old self.new result
            (after_put (state_of self.old) thread field index.now value.now (field_at code.now field)) }
    {
        let Some(there) = code.field(field) else {
            self.running = Some(thread);
            return None;
        };
        let host = there.host();
        let at = thread.at();
        let index = thread.value(&self.stores, index);
        let value = thread.value(&self.stores, value);
        thread.step_cleared();
        if host.0 == self.me.0 {
            self.write_element(field, index, value);
            self.running = Some(thread);
            return None;
        }
        let request = self.wait(at, thread, Awaited::Ack, host);
        Some((
            host,
            Message::Set {
                request,
                field,
                index,
                value,
            },
        ))
    }

    /// A variable of a frame becomes a value.
    // A thread is large, and in a call of its own it would be copied once more.
    #[inline(always)]
    pub(crate) fn assign(
        &mut self,
        mut thread: Thread,
        frame: FrameId,
        var: VarId,
        value: &CodeExpr,
    ) -> Sent
        requires ready { IsReady self.old }
        requires next { thread.at + 1 < 2 ^ 32 }
        ensures { StepsTo self.old self.new result
            (after_let (state_of self.old) thread frame var value.now) }
    {
        let value = thread.value(&self.stores, value);
        thread.step_cleared();
        self.set_variable(frame, var, value);
        self.running = Some(thread);
        None
    }

    /// A variable of a frame is forwarded to a host.
    pub(crate) fn send(
        &mut self,
        mut thread: Thread,
        frame: FrameId,
        var: VarId,
        to: HostId,
    ) -> Sent
        requires ready { IsReady self.old }
        requires next { thread.at + 1 < 2 ^ 32 }
        ensures { StepsTo self.old self.new result
            (after_send (state_of self.old) thread frame var to) }
    {
        let at = thread.at();
        let value = self.stores.var(frame, var);
        thread.step();
        self.forward(at, thread, Variable { frame, var }, value, to)
    }

    /// A value is forwarded to a host for a variable of a frame. The thread waits as it goes on then.
    pub(crate) fn forward(
        &mut self,
        at: u32,
        later: Thread,
        variable: Variable,
        value: i64,
        to: HostId,
    ) -> Sent
        requires ready { IsReady self.old }
        ensures { StepsTo self.old self.new result
            (after_forward (state_of self.old) at later variable.frame variable.var value to) }
    {
        let request = self.wait(at, later, Awaited::Ack, to);
        Some((
            to,
            Message::Forward {
                request,
                frame: variable.frame,
                var: variable.var,
                value,
            },
        ))
    }

    /// A new frame is made for a call at a site.
    pub(crate) fn make_frame(&mut self, mut thread: Thread, site: SiteId) -> Sent
        requires ready { IsReady self.old }
        requires next { thread.at + 1 < 2 ^ 32 }
        ensures { StepsTo self.old self.new result
            (after_frame (state_of self.old) thread site) }
    {
        let place = site.0 as usize;
        let count = self.frames.get(place).copied().unwrap_or(0);
        count_one(&mut self.frames, place);
        thread.step();
        thread.prepare(FrameId { site, count });
        self.running = Some(thread);
        None
    }

    /// The thread goes on at the target where the guard is 0, and otherwise at the next instruction.
    pub(crate) fn branch(&mut self, mut thread: Thread, guard: &CodeExpr, target: u32) -> Sent
        requires { thread.at + 1 < 2 ^ 32 }
        ensures { StepsTo self.old self.new result
            (after_branch (state_of self.old) thread guard.now target) }
    {
        let guard = thread.value(&self.stores, guard);
        thread.step_cleared();
        if guard == 0 {
            thread.go_to(target);
        }
        self.running = Some(thread);
        None
    }
}
