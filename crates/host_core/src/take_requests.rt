//! Requests that a host takes: each is checked, done and answered.

ghost use Rattle.std.specs.Prelude.{◌≡◌, ◌<◌, ◌↔◌, length, IsTrue, None};
ghost use Rattle.host_code.specs.Riders.{names_of};
ghost use Rattle.entry_check.specs.Checks.{AreChecksOf, MayRide};
ghost use Rattle.host_core.specs.Host.{state_of, IsReady, StepsBy};
ghost use Rattle.host_core.specs.Taking.{IsTaking};

use crate::host::{Host, Sent};
use crate::subjects::{Element, Handover, Variable};
use capability::{Held, Token};
use entry_check::Ask;
use host_code::{Code, Message, Riders};
use js_base::limits::HOSTS;
use js_base::{HostId, RequestId, VarId};

impl Host {
    /// The element of a field is asked for.
    pub(crate) fn take_get(
        &mut self,
        code: &Code,
        from: HostId,
        request: RequestId,
        element: Element,
    ) -> Sent
        requires ready { IsReady self.old }
        requires checks { AreChecksOf code.now self.old.me self.old.checks }
        requires from { from.0 < HOSTS }
        ensures { StepsBy self.old self.new result (IsTaking code.now (state_of self.old) from
            (Message.Get request element.field element.index)) }
    {
        if !self.checks.may(Ask::Get(element.field), from) {
            self.ignore();
            return None;
        }
        let value = self.stores.field(element.field, element.index);
        Some((from, Message::Value { request, value }))
    }

    /// The element of a field is to become a value.
    pub(crate) fn take_set(
        &mut self,
        code: &Code,
        from: HostId,
        request: RequestId,
        element: Element,
        value: i64,
    ) -> Sent
        requires ready { IsReady self.old }
        requires checks { AreChecksOf code.now self.old.me self.old.checks }
        requires from { from.0 < HOSTS }
        ensures { StepsBy self.old self.new result (IsTaking code.now (state_of self.old) from
            (Message.Set request element.field element.index value)) }
    {
        if !self.checks.may(Ask::Set(element.field), from) {
            self.ignore();
            return None;
        }
        self.write_element(element.field, element.index, value);
        Some((from, Message::Ack { request }))
    }

    /// A variable of a frame is to become a value.
    pub(crate) fn take_forward(
        &mut self,
        code: &Code,
        from: HostId,
        request: RequestId,
        variable: Variable,
        value: i64,
    ) -> Sent
        requires ready { IsReady self.old }
        requires checks { AreChecksOf code.now self.old.me self.old.checks }
        requires from { from.0 < HOSTS }
        ensures { StepsBy self.old self.new result (IsTaking code.now (state_of self.old) from
            (Message.Forward request variable.frame variable.var value)) }
    {
        if !self.checks.may(Ask::Forward(variable.var), from) {
            self.ignore();
            return None;
        }
        self.set_variable(variable.frame, variable.var, value);
        Some((from, Message::Ack { request }))
    }

    /// An entry is to be pushed in a frame, and the token kept with it.
    pub(crate) fn take_sync(
        &mut self,
        code: &Code,
        from: HostId,
        request: RequestId,
        handover: Handover,
    ) -> Sent
        requires ready { IsReady self.old }
        requires checks { AreChecksOf code.now self.old.me self.old.checks }
        requires from { from.0 < HOSTS }
        requires serials { length self.old.stack.serials ≡ length code.now.entries }
        ensures { StepsBy self.old self.new result (IsTaking code.now (state_of self.old) from
            (Message.Sync request handover.frame handover.entry handover.token)) }
    {
        if !self.checks.may(Ask::Enter(handover.entry), from) {
            self.ignore();
            return None;
        }
        let token = self.push_entry(handover.entry, handover.frame, Held::of(handover.token));
        Some((from, Message::Token { request, token }))
    }

    /// A thread is to start at an entry in a frame, and holds the token.
    pub(crate) fn take_rgoto(&mut self, code: &Code, from: HostId, handover: Handover)
        requires ready { IsReady self.old }
        requires checks { AreChecksOf code.now self.old.me self.old.checks }
        requires from { from.0 < HOSTS }
        ensures { StepsBy self.old self.new None (IsTaking code.now (state_of self.old) from
            (Message.Rgoto handover.frame handover.entry handover.token)) }
    {
        if self.checks.may(Ask::Enter(handover.entry), from) {
            self.enter(
                code,
                handover.entry,
                handover.frame,
                Held::of(handover.token),
            );
        } else {
            self.ignore();
        }
    }

    /// A thread is to start at an entry and in a frame, some of whose variables become the values that ride. It holds
    /// the token.
    pub(crate) fn take_rgoto_with(
        &mut self,
        code: &Code,
        from: HostId,
        handover: Handover,
        riders: &Riders,
    )
        requires ready { IsReady self.old }
        requires checks { AreChecksOf code.now self.old.me self.old.checks }
        requires from { from.0 < HOSTS }
        ensures { StepsBy self.old self.new None (IsTaking code.now (state_of self.old) from
            (Message.RgotoWith handover.frame handover.entry handover.token riders.now)) }
    {
        let pairs = riders.pairs();
        if self.checks.may(Ask::Enter(handover.entry), from) && self.may_ride(code, from, pairs) {
            self.set_variables(handover.frame, pairs);
            self.enter(
                code,
                handover.entry,
                handover.frame,
                Held::of(handover.token),
            );
        } else {
            self.ignore();
        }
    }

    /// Whether a host may forward each variable that rides.
    fn may_ride(&self, code: &Code, from: HostId, riders: &[(VarId, i64)]) -> bool
        requires checks { AreChecksOf code.now self.now.me self.now.checks }
        requires from { from.0 < HOSTS }
        ensures { IsTrue result ↔ MayRide code.now self.now.me from (names_of riders.now) }
    {
        match riders {
            [] => true,
            [(var, _), others @ ..] => {
                self.checks.may(Ask::Forward(*var), from) && self.may_ride(code, from, others)
            }
        }
    }

    /// The thread of the entry that the token takes off is to start.
    pub(crate) fn take_lgoto(&mut self, code: &Code, from: HostId, token: Token)
        requires ready { IsReady self.old }
        ensures { StepsBy self.old self.new None
            (IsTaking code.now (state_of self.old) from (Message.Lgoto token)) }
    {
        self.pop_or_ignore(code, token);
    }
}
