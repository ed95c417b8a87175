//! Threads: one that runs, and those that wait for an answer.

ghost use Rattle.std.specs.Prelude.{◌≡◌, ◌<◌, ◌+◌, ◌^◌, [], None, Some, OnOk, OnErr};
ghost use Rattle.host_stores.specs.Stores.{variable_of};
ghost use Rattle.host_core.specs.Host.{after_step, after_clearing, with_temporary, with_token};
ghost use Rattle.host_core.specs.Values.{value_of_nodes};
ghost use Rattle.host_core.specs.Awaiting.{awaits, awaited_shape};

use crate::values::value_of;
use capability::{Held, Token};
use host_code::CodeExpr;
use host_stores::Stores;
use js_base::{FrameId, HostId, OutOfMemory, RequestId};
use std::alloc::Global;
use std::marker::Model;

/// A thread. Its token is spent when it is sent on or left on a control stack; a thread that is dropped abandons it.
pub struct Thread {
    /// The number of the next instruction.
    at: u32,
    frame: FrameId,
    /// The frame that was made last for a call, the thread's own where it made none.
    new_frame: FrameId,
    /// What was read, in the order of reading.
    temporaries: Vec<i64>,
    held: Option<Held>,
}

impl Model for Thread {
    ghost use Rattle.host_code.specs.Thread.{ThreadShape};

    ghost Value = { ThreadShape };

    ghost view = { λ t. record {
      at = t.at;
      frame = t.frame;
      new_frame = t.new_frame;
      temporaries = t.temporaries.items;
      held = t.held;
    } };
}

impl Drop for Thread {
    fn drop(self) {
        let Thread {
            at: _,
            frame: _,
            new_frame: _,
            temporaries: _temporaries,
            held,
        } = self;
        if let Some(held) = held {
            held.abandon();
        }
    }
}

impl Thread {
    /// A thread at a place and in a frame that holds a token.
    pub fn new(alloc: Global, at: u32, frame: FrameId, held: Held) -> Thread
        ensures { result ≡ record {
          at = at;
          frame = frame;
          new_frame = frame;
          temporaries = [];
          held = Some held;
        } }
    {
        Thread {
            at,
            frame,
            new_frame: frame,
            temporaries: Vec::new(alloc),
            held: Some(held),
        }
    }

    /// The number of the next instruction.
    pub fn at(&self) -> u32
        ensures { result ≡ self.now.at }
    {
        self.at
    }

    /// The frame in which the thread runs.
    pub fn frame(&self) -> FrameId
        ensures { result ≡ self.now.frame }
    {
        self.frame
    }

    /// The frame that was made last for a call.
    pub fn new_frame(&self) -> FrameId
        ensures { result ≡ self.now.new_frame }
    {
        self.new_frame
    }

    /// The value of an expression in the thread.
    pub fn value(&self, stores: &Stores, value: &CodeExpr) -> i64
        ensures { result
            ≡ value_of_nodes (variable_of stores.now self.now.frame) self.now.temporaries value.now }
    {
        value_of(value.nodes(), stores, self.frame, &self.temporaries)
    }

    /// The thread goes on at the next instruction.
    pub fn step(&mut self)
        requires { self.old.at + 1 < 2 ^ 32 }
        ensures { self.new ≡ after_step self.old }
    {
        self.at += 1;
    }

    /// The thread goes on at the next instruction, and drops its temporaries.
    pub fn step_cleared(&mut self)
        requires { self.old.at + 1 < 2 ^ 32 }
        ensures { self.new ≡ after_clearing self.old }
    {
        self.at += 1;
        self.temporaries.clear();
    }

    /// The thread goes on at this instruction.
    pub fn go_to(&mut self, at: u32)
        ensures { self.new ≡ record self.old { at = at } }
    {
        self.at = at;
    }

    /// A new frame was made for a call.
    pub fn prepare(&mut self, new_frame: FrameId)
        ensures { self.new ≡ record self.old { new_frame = new_frame } }
    {
        self.new_frame = new_frame;
    }

    /// The thread goes on at this instruction in its new frame.
    pub fn enter_new_frame(&mut self, at: u32)
        ensures { self.new ≡ record self.old { at = at; frame = self.old.new_frame } }
    {
        self.at = at;
        self.frame = self.new_frame;
    }

    /// One more temporary. After an error nothing has changed.
    pub fn add_temporary(&mut self, value: i64) -> Result<(), OutOfMemory>
        ensures ok { OnOk result (self.new ≡ with_temporary value self.old) }
        ensures err { OnErr result (self.new ≡ self.old) }
    {
        self.temporaries.push(value)?;
        Ok(())
    }

    /// Takes the token away that the thread holds.
    pub fn take_held(&mut self) -> Option<Held>
        ensures held { result ≡ self.old.held }
        ensures after { self.new ≡ with_token None self.old }
    {
        self.held.take()
    }

    /// The thread holds this token now, and abandons another one.
    pub fn hold(&mut self, held: Held)
        ensures { self.new ≡ with_token (Some held) self.old }
    {
        if let Some(before) = self.held.replace(held) {
            before.abandon();
        }
    }

    /// The token that the thread holds, which it still holds afterwards.
    pub fn token(&mut self) -> Option<Token>
        ensures token { result ≡ self.old.held }
        ensures same { self.new ≡ self.old }
    {
        match self.held.take() {
            Some(held) => {
                let token = held.spend();
                self.hold(Held::of(token));
                Some(token)
            }
            None => None,
        }
    }
}

/// What a thread waits for.
#[derive(Clone, Copy)]
pub enum Awaited {
    Value,
    Ack,
    Token,
}

/// A thread that waits for an answer to its request from the host that it asked.
#[derive(Drop)]
pub struct Waiting {
    thread: Thread,
    awaited: Awaited,
    request: RequestId,
    asked: HostId,
}

impl Model for Waiting {
    ghost use Rattle.host_code.specs.Thread.{WaitingShape};
    ghost use Rattle.host_core.specs.Awaiting.{awaited_shape};

    ghost Value = { WaitingShape };

    ghost view = { λ w. record {
      thread = w.thread;
      awaited = awaited_shape w.awaited;
      request = w.request;
      asked = w.asked;
    } };
}

impl Waiting {
    /// A thread that waits for such an answer.
    pub fn new(thread: Thread, awaited: Awaited, request: RequestId, asked: HostId) -> Waiting
        ensures { result ≡ record {
          thread = thread;
          awaited = awaited_shape awaited;
          request = request;
          asked = asked;
        } }
    {
        Waiting {
            thread,
            awaited,
            request,
            asked,
        }
    }

    /// Whether the thread waits for such an answer to this request from this host.
    pub fn awaits(&self, awaited: Awaited, request: RequestId, from: HostId) -> bool
        ensures { result ≡ awaits (awaited_shape awaited) request from self.now }
    {
        self.awaited == awaited && self.request == request && self.asked == from
    }

    /// One more temporary of the thread. After an error nothing has changed.
    pub fn add_temporary(&mut self, value: i64) -> Result<(), OutOfMemory>
        ensures ok { OnOk result (self.new
            ≡ record self.old { thread = with_temporary value self.old.thread }) }
        ensures err { OnErr result (self.new ≡ self.old) }
    {
        self.thread.add_temporary(value)
    }

    /// The thread, which waits no longer.
    pub fn into_thread(self) -> Thread
        ensures { result ≡ self.thread }
    {
        self.thread
    }
}
