//! The calls that change a host: its start, a message and a turn.

ghost use Rattle.std.specs.Prelude.{◌≡◌, ◌<◌, ◌+◌, ◌^◌, OnOk, OnErr, IfOk, IsSome, None, Some, length};
ghost use Rattle.host_code.specs.Code.{instruction_at};
ghost use Rattle.host_code.specs.Sound.{IsHost, IsOther, IsSoundCode};
ghost use Rattle.entry_check.specs.Checks.{AreChecksOf};
ghost use Rattle.host_core.specs.Calls.{KeepsHost};
ghost use Rattle.host_core.specs.Fits.{HostFits, SentFits, TokensFit};
ghost use Rattle.host_core.specs.Host.{state_of, IsReady, Becomes, StepsBy, with_running};
ghost use Rattle.host_core.specs.Taking.{IsTaking};
ghost use Rattle.host_core.specs.Turn.{IsTurn, IsRunning, IsOperation, PushesWithin};

use crate::host::{Host, HostError, Sent};
use crate::subjects::{Element, Handover, Variable};
use crate::thread::Thread;
use host_code::{Code, Message, Op};
use js_base::limits::HOSTS;
use js_base::{HostId, OutOfMemory};

impl Host {
    /// What the host does with a message from another host, while no thread runs.
    ///
    /// # Errors
    /// `Stopped` exactly where an earlier call had no memory or 2^62 calls were made; nothing changes then. After
    /// `OutOfMemory` the state is as before, and the host is stopped.
    pub fn deliver(
        &mut self,
        code: &Code,
        from: HostId,
        message: Message,
    ) -> Result<Sent, HostError>
        requires rest { self.old.running ≡ None }
        requires fits { HostFits code.now self.old }
        requires from { IsOther code.now self.old.me from }
        requires tokens { TokensFit code.now message }
        ensures ok { IfOk result (λ sent.
            IsTaking code.now (state_of self.old) from message (record { state = state_of self.new; sent = sent })) }
        ensures keeps { KeepsHost code.now self.old self.new result }
        ensures sent { IfOk result (λ sent. SentFits code.now self.old.me sent) }
    {
        let mut sent = None;
        self.deliver_into(code, from, &message, &mut sent)?;
        Ok(sent)
    }

    /// What `deliver` does, with what is sent laid where the caller says. After an error nothing is laid there.
    ///
    /// # Errors
    /// As of `deliver`.
    // A message is large, and each call that hands one on by value copies it.
    pub fn deliver_into(
        &mut self,
        code: &Code,
        from: HostId,
        message: &Message,
        sent: &mut Sent,
    ) -> Result<(), HostError>
        requires rest { self.old.running ≡ None }
        requires fits { HostFits code.now self.old }
        requires from { IsOther code.now self.old.me from }
        requires tokens { TokensFit code.now message.now }
        ensures ok { OnOk result (IsTaking code.now (state_of self.old) from message.now
            (record { state = state_of self.new; sent = sent.new })) }
        ensures keeps { KeepsHost code.now self.old self.new result }
        ensures sent { OnOk result (SentFits code.now self.old.me sent.new) }
        ensures unsent { OnErr result (sent.new ≡ sent.old) }
    {
        code_laws(code);
        self.begin()?;
        match self.take(code, from, message, sent) {
            Ok(()) => Ok(()),
            Err(OutOfMemory) => {
                self.stopped = true;
                Err(HostError::OutOfMemory)
            }
        }
    }

    /// What the host does at a turn of its running thread.
    ///
    /// # Errors
    /// As of `deliver`.
    pub fn turn(&mut self, code: &Code) -> Result<Sent, HostError>
        requires runs { IsSome self.old.running }
        requires fits { HostFits code.now self.old }
        ensures ok { IfOk result (λ sent.
            IsTurn code.now (state_of self.old) (record { state = state_of self.new; sent = sent })) }
        ensures keeps { KeepsHost code.now self.old self.new result }
        ensures sent { IfOk result (λ sent. SentFits code.now self.old.me sent) }
    {
        let mut sent = None;
        self.turn_into(code, &mut sent)?;
        Ok(sent)
    }

    /// What `turn` does, with what is sent laid where the caller says. After an error nothing is laid there.
    ///
    /// # Errors
    /// As of `deliver`.
    pub fn turn_into(&mut self, code: &Code, sent: &mut Sent) -> Result<(), HostError>
        requires runs { IsSome self.old.running }
        requires fits { HostFits code.now self.old }
        ensures ok { OnOk result (IsTurn code.now (state_of self.old)
            (record { state = state_of self.new; sent = sent.new })) }
        ensures keeps { KeepsHost code.now self.old self.new result }
        ensures sent { OnOk result (SentFits code.now self.old.me sent.new) }
        ensures unsent { OnErr result (sent.new ≡ sent.old) }
    {
        code_laws(code);
        self.begin()?;
        let Some(thread) = self.running.take() else {
            *sent = None;
            return Ok(());
        };
        match self.run(code, thread, sent) {
            Ok(()) => Ok(()),
            Err(OutOfMemory) => {
                self.stopped = true;
                Err(HostError::OutOfMemory)
            }
        }
    }

    /// What the host does with a message, once the call was counted and there is room.
    fn take(
        &mut self,
        code: &Code,
        from: HostId,
        message: &Message,
        sent: &mut Sent,
    ) -> Result<(), OutOfMemory>
        requires ready { IsReady self.old }
        requires checks { AreChecksOf code.now self.old.me self.old.checks }
        requires from { from.0 < HOSTS }
        requires serials { length self.old.stack.serials ≡ length code.now.entries }
        ensures ok { OnOk result (StepsBy self.old self.new sent.new
            (IsTaking code.now (state_of self.old) from message.now)) }
        ensures err { OnErr result (Becomes self.old self.new (state_of self.old)) }
        ensures unsent { OnErr result (sent.new ≡ sent.old) }
    {
        *sent = match *message {
            Message::Get {
                request,
                field,
                index,
            } => self.take_get(code, from, request, Element { field, index }),
            Message::Set {
                request,
                field,
                index,
                value,
            } => self.take_set(code, from, request, Element { field, index }, value),
            Message::Forward {
                request,
                frame,
                var,
                value,
            } => self.take_forward(code, from, request, Variable { frame, var }, value),
            Message::Sync {
                request,
                frame,
                entry,
                token,
            } => self.take_sync(code, from, request, Handover::new(frame, entry, token)),
            Message::Rgoto {
                frame,
                entry,
                token,
            } => {
                self.take_rgoto(code, from, Handover::new(frame, entry, token));
                None
            }
            Message::RgotoWith {
                frame,
                entry,
                token,
                ref pairs,
            } => {
                self.take_rgoto_with(code, from, Handover::new(frame, entry, token), pairs);
                None
            }
            Message::Lgoto { token } => {
                self.take_lgoto(code, from, token);
                None
            }
            Message::Value { request, value } => {
                self.take_value(code, from, request, value)?;
                None
            }
            Message::Ack { request } => {
                self.take_ack(code, from, request);
                None
            }
            Message::Token { request, token } => {
                self.take_token(code, from, request, token);
                None
            }
        };
        Ok(())
    }

    /// The thread runs its instruction.
    fn run(&mut self, code: &Code, thread: Thread, sent: &mut Sent) -> Result<(), OutOfMemory>
        requires ready { IsReady self.old }
        requires serials { length self.old.stack.serials ≡ length code.now.entries }
        requires sound { IsSoundCode code.now }
        requires me { IsHost code.now self.old.me }
        ensures ok { OnOk result (StepsBy self.old self.new sent.new
            (IsRunning code.now (state_of self.old) thread (instruction_at code.now self.old.me thread.at))) }
        ensures err { OnErr result (Becomes self.old self.new (with_running (state_of self.old) (Some thread))) }
        ensures unsent { OnErr result (sent.new ≡ sent.old) }
    {
        match code.instruction(self.me, thread.at()) {
            Some(instruction) => self.run_operation(code, thread, &instruction.op, sent),
            None => {
                self.running = Some(thread);
                *sent = None;
                Ok(())
            }
        }
    }

    /// The thread runs an instruction.
    fn run_operation(
        &mut self,
        code: &Code,
        thread: Thread,
        op: &Op,
        sent: &mut Sent,
    ) -> Result<(), OutOfMemory>
        requires ready { IsReady self.old }
        requires next { thread.at + 1 < 2 ^ 32 }
        requires entry { PushesWithin (length self.old.stack.serials) op.now }
        ensures ok { OnOk result (StepsBy self.old self.new sent.new
            (IsOperation code.now (state_of self.old) thread op.now)) }
        ensures err { OnErr result (Becomes self.old self.new (with_running (state_of self.old) (Some thread))) }
        ensures unsent { OnErr result (sent.new ≡ sent.old) }
    {
        let frame = thread.frame();
        let new_frame = thread.new_frame();
        *sent = match op {
            Op::Read(field, index) => self.read(code, thread, *field, index)?,
            Op::Let(var, value) => self.assign(thread, frame, *var, value),
            Op::Put(field, index, value) => self.put(code, thread, *field, index, value),
            Op::Send(var, to) => self.send(thread, frame, *var, *to),
            Op::Frame(site) => self.make_frame(thread, *site),
            Op::Arg(var, value) => self.assign(thread, new_frame, *var, value),
            Op::Pass(var, to) => self.send(thread, new_frame, *var, *to),
            Op::Push(entry) => self.push(thread, *entry),
            Op::Ask(entry, on) => self.ask(thread, *entry, *on),
            Op::Go(entry, on) => self.go(thread, frame, *entry, *on),
            Op::Call(entry, on) => self.call(code, thread, *entry, *on),
            Op::Ret(var, value) => self.return_value(code, thread, *var, value),
            Op::Back => self.give_back(code, thread),
            Op::Branch(guard, target) => self.branch(thread, guard, *target),
            Op::GoWith(entry, on, riders) => self.go_with(thread, frame, *entry, *on, riders),
            Op::CallWith(entry, on, riders) => self.go_with(thread, new_frame, *entry, *on, riders),
        };
        Ok(())
    }
}

/// A code is sound.
pub(crate) fn code_laws(code: &Code)
    ensures { IsSoundCode code.now }
{
    let _hosts = code.hosts();
}
