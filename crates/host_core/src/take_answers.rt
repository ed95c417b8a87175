//! Answers that a host takes: the thread that waits for one runs again.

ghost use Rattle.std.specs.Prelude.{◌≡◌, ◌<◌, IfOk, OnOk, OnErr, IfSome, position, length, remove, slice_get};
ghost use Rattle.std.specs.Prelude.{Some};
ghost use Rattle.std.specs.Option.{option_map};
ghost use Rattle.std.specs.Vec.{vec_len};
ghost use Rattle.host_core.specs.Awaiting.{awaits, awaited_shape};
ghost use Rattle.host_core.specs.Host.{state_of, IsReady, Becomes, StepsBy, with_temporary, with_token};
ghost use Rattle.host_core.specs.Taking.{IsTaking, after_answer};

use crate::host::Host;
use crate::thread::{Awaited, Thread, Waiting};
use capability::{Held, Token};
use host_code::{Code, Message};
use js_base::{HostId, OutOfMemory, RequestId};

impl Host {
    /// The answer to a get.
    pub(crate) fn take_value(
        &mut self,
        code: &Code,
        from: HostId,
        request: RequestId,
        value: i64,
    ) -> Result<(), OutOfMemory>
        requires ready { IsReady self.old }
        ensures ok { OnOk result (StepsBy self.old self.new None
            (IsTaking code.now (state_of self.old) from (Message.Value request value))) }
        ensures err { OnErr result (Becomes self.old self.new (state_of self.old)) }
    {
        let Some(place) = place_of(&self.waiting, Awaited::Value, request, from) else {
            self.ignore();
            return Ok(());
        };
        let thread = take_with_value(&mut self.waiting, place, value)?;
        self.running = Some(thread);
        Ok(())
    }

    /// The answer to a set or a forward.
    pub(crate) fn take_ack(&mut self, code: &Code, from: HostId, request: RequestId)
        requires ready { IsReady self.old }
        ensures { StepsBy self.old self.new None
            (IsTaking code.now (state_of self.old) from (Message.Ack request)) }
    {
        match place_of(&self.waiting, Awaited::Ack, request, from) {
            Some(place) => self.wake(place),
            None => self.ignore(),
        }
    }

    /// The answer to a sync.
    pub(crate) fn take_token(&mut self, code: &Code, from: HostId, request: RequestId, token: Token)
        requires ready { IsReady self.old }
        ensures { StepsBy self.old self.new None
            (IsTaking code.now (state_of self.old) from (Message.Token request token)) }
    {
        match place_of(&self.waiting, Awaited::Token, request, from) {
            Some(place) => self.wake_with_token(place, token),
            None => self.ignore(),
        }
    }

    /// The thread that waits at a place runs again.
    fn wake(&mut self, place: usize)
        requires { place < length self.old.waiting }
        ensures { Becomes self.old self.new (after_answer (state_of self.old) (Some place) (λ thread. thread)) }
    {
        let waiting = self.waiting.remove(place);
        self.running = Some(waiting.into_thread());
    }

    /// The thread that waits at a place runs again, and holds the token.
    fn wake_with_token(&mut self, place: usize, token: Token)
        requires { place < length self.old.waiting }
        ensures { Becomes self.old self.new
            (after_answer (state_of self.old) (Some place) (with_token (Some token))) }
    {
        let waiting = self.waiting.remove(place);
        let mut thread = waiting.into_thread();
        thread.hold(Held::of(token));
        self.running = Some(thread);
    }
}

/// The place of the thread that waits for such an answer to this request from this host.
fn place_of(
    waiting: &[Waiting],
    awaited: Awaited,
    request: RequestId,
    from: HostId,
) -> Option<usize>
    ensures place { result ≡ position (awaits (awaited_shape awaited) request from) waiting.now }
    ensures within { IfSome result (λ place. place < length waiting.now) }
{
    waiting
        .iter()
        .position(|waiting| waiting.awaits(awaited, request, from))
}

/// Takes the thread that waits at a place, which has one more temporary. After an error nothing has changed.
fn take_with_value(
    waiting: &mut Vec<Waiting>,
    place: usize,
    value: i64,
) -> Result<Thread, OutOfMemory>
    requires { place < vec_len waiting.old }
    ensures thread { IfOk result (λ thread.
        option_map (λ waiting. with_temporary value waiting.thread)
        (slice_get waiting.old.items place) ≡ Some thread) }
    ensures rest { OnOk result (waiting.new.items ≡ remove waiting.old.items place) }
    ensures err { OnErr result (waiting.new.items ≡ waiting.old.items) }
{
    let awaiting = &mut waiting[place];
    awaiting.add_temporary(value)?;
    Ok(waiting.remove(place).into_thread())
}
