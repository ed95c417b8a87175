//! The changes of which the rows of the host table are made.

ghost use Rattle.std.specs.Prelude.{◌≡◌, ◌<◌, ◌≤◌, ◌↔◌, ◌+◌, length, Some, IsTrue, All};
ghost use Rattle.std.specs.Prelude.{slice_set, slice_index};
ghost use Rattle.std.specs.Prelude.{if◌then◌else◌};
ghost use Rattle.ics_stack.specs.Stack.{top_token};
ghost use Rattle.host_code.specs.Code.{entry_at};
ghost use Rattle.host_core.specs.Awaiting.{awaited_shape};
ghost use Rattle.host_core.specs.Host.{state_of, IsReady, Becomes, with_row_written, new_token};
ghost use Rattle.host_core.specs.Host.{with_variable_set, with_variables_set};
ghost use Rattle.host_core.specs.Host.{after_push, after_pop, after_popped, after_entering, after_asking, next_request};
ghost use Rattle.host_core.specs.Host.{with_one_ignored};

use crate::host::{Host, MOST_CALLS};
use crate::thread::{Awaited, Thread, Waiting};
use capability::{Held, Token};
use host_code::Code;
use js_base::{EntryId, FieldId, FrameId, HostId, RequestId, VarId};

/// The entry that ends the program.
pub const HALT: EntryId = EntryId(0);

impl Host {
    /// The element of a field becomes a value, where the field is on this host and the index is in range.
    pub(crate) fn write_element(&mut self, field: FieldId, index: i64, value: i64)
        ensures { Becomes self.old self.new (with_row_written (state_of self.old) field index value) }
    {
        self.stores.set_field(field, index, value);
    }

    /// A variable of a frame becomes a value.
    pub(crate) fn set_variable(&mut self, frame: FrameId, var: VarId, value: i64)
        requires { 0 < self.old.stores.spare }
        ensures becomes { Becomes self.old self.new (with_variable_set (state_of self.old) frame var value) }
        ensures spare { self.old.stores.spare ≤ self.new.stores.spare + 1 }
    {
        self.stores.set_var(frame, var, value);
    }

    /// Each variable of a frame becomes the value that rode for it, in order.
    pub(crate) fn set_variables(&mut self, frame: FrameId, riders: &[(VarId, i64)])
        requires { length riders.now ≤ self.old.stores.spare }
        ensures { Becomes self.old self.new (with_variables_set (state_of self.old) frame riders.now) }
    {
        for (var, value) in riders {
            self.set_variable(frame, *var, *value);
        }
    }

    /// An entry is pushed in its frame with the token that its thread will hold. Gives the token that takes it off.
    pub(crate) fn push_entry(&mut self, entry: EntryId, frame: FrameId, held: Held) -> Token
        requires pushes { self.old.stack.pushes ≤ self.old.calls }
        requires room { 0 < self.old.stack.room }
        requires entry { entry.0 < length self.old.stack.serials }
        ensures token { result ≡ new_token (state_of self.old) entry frame }
        ensures becomes { Becomes self.old self.new (after_push (state_of self.old) entry frame held) }
    {
        self.stack.push(entry, frame, held)
    }

    /// A thread starts at an entry in a frame, and holds this token. It is abandoned where the code lacks the entry.
    pub(crate) fn enter(&mut self, code: &Code, entry: EntryId, frame: FrameId, held: Held)
        ensures { Becomes self.old self.new
            (after_entering (state_of self.old) (entry_at code.now entry) frame held) }
    {
        match code.entry(entry) {
            Some(there) => self.running = Some(Thread::new(self.alloc, there.at, frame, held)),
            None => {
                held.abandon();
                self.running = None;
            }
        }
    }

    /// The thread of an entry that was taken off the control stack starts, or the program has ended.
    fn enter_popped(&mut self, code: &Code, entry: EntryId, frame: FrameId, held: Held)
        ensures { Becomes self.old self.new (after_popped code.now (state_of self.old) entry frame held) }
    {
        if entry.0 == HALT.0 {
            held.abandon();
            self.running = None;
            self.halted = true;
        } else {
            self.enter(code, entry, frame, held);
        }
    }

    /// Takes the top entry off for its token, and starts its thread. Tells whether the token was that of the top entry;
    /// where it was not, it is ignored.
    pub(crate) fn pop_or_ignore(&mut self, code: &Code, token: Token) -> bool
        requires { IsReady self.old }
        ensures on_top { IsTrue result ↔ (top_token self.old.stack.entries ≡ Some token) }
        ensures becomes { Becomes self.old self.new
            (if result
            then after_pop code.now (state_of self.old) self.old.stack.entries
            else with_one_ignored (state_of self.old)) }
    {
        match self.stack.take(token) {
            Ok(pending) => {
                let (entry, frame, held) = pending.start();
                self.enter_popped(code, entry, frame, held);
                true
            }
            Err(_) => {
                self.ignored += 1;
                false
            }
        }
    }

    /// A thread waits for the answer to the next request of an instruction, from the host that is asked. Gives the
    /// request.
    // A thread is large, and in a call of its own it would be copied once more.
    #[inline(always)]
    pub(crate) fn wait(
        &mut self,
        at: u32,
        thread: Thread,
        awaited: Awaited,
        asked: HostId,
    ) -> RequestId
        requires { IsReady self.old }
        ensures request { result ≡ next_request (state_of self.old) at }
        ensures becomes { Becomes self.old self.new
            (after_asking (state_of self.old) at thread (awaited_shape awaited) asked) }
    {
        let place = at as usize;
        let count = self.requests.get(place).copied().unwrap_or(0);
        let request = RequestId { at, count };
        let pushed = self
            .waiting
            .push(Waiting::new(thread, awaited, request, asked));
        prove!(pushed.is_ok());
        count_one(&mut self.requests, place);
        self.running = None;
        request
    }
}

/// One more is counted at a place.
pub fn count_one(counts: &mut Vec<u64>, place: usize)
    requires { All (λ count. count < MOST_CALLS) counts.old.items }
    ensures { counts.new.items ≡ slice_set counts.old.items place (slice_index counts.old.items place + 1) }
{
    if let Some(count) = counts.get_mut(place) {
        *count += 1;
    }
}
