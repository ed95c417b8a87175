//! The stack of entries with their tokens.

ghost use Rattle.std.specs.Prelude.{◌≡◌, ◌≢◌, ◌+◌, ◌<◌, ◌≤◌, ◌^◌, [], length, replicate};
ghost use Rattle.std.specs.Prelude.{IfOk, IfErr, OnOk, Some};
ghost use Rattle.ics_stack.specs.Stack.{top_token, IsTakenOff, StackFits, LackToken};

use capability::{Held, KEY_BYTES, Pending, Token, tag};
use js_base::{EntryId, FrameId, HostId, OutOfMemory};
use std::alloc::Global;
use std::marker::Model;

/// An entry on a stack.
#[derive(Clone, Copy, Debug, PartialEq, Eq)]
pub struct StackEntry {
    /// The token that takes the entry off.
    pub token: Token,
    /// Where the thread will start, and in which frame.
    pub entry: EntryId,
    pub frame: FrameId,
    /// The token that the thread will hold.
    pub kept: Token,
}

/// A token that is not that of the top entry, and the top entry's token, where there is one.
#[derive(Clone, Copy, Debug, PartialEq, Eq)]
pub struct NotTop {
    pub top: Option<Token>,
}

/// The control stack of a host. It makes a token for each entry that is pushed, and gives the entry up once, for that
/// token, and only while it is on top.
#[derive(Drop)]
pub struct IcsStack {
    host: HostId,
    key: [u8; KEY_BYTES],
    /// The top is the last one.
    entries: Vec<StackEntry>,
    /// For each entry how many times it was pushed.
    serials: Vec<u64>,
    pushes: u64,
}

impl Model for IcsStack {
    ghost use Rattle.std.specs.Prelude.{◌-◌, ◌≤◌, ◌^◌, All, reverse, length};
    ghost use Rattle.std.specs.Vec.{vec_len, vec_capacity};
    ghost use Rattle.ics_stack.specs.Stack.{StackShape, StackFits};

    ghost Value = { StackShape };

    ghost view = { λ s. record {
      host = s.host;
      key = s.key;
      entries = reverse s.entries.items;
      serials = s.serials.items;
      pushes = s.pushes;
      room = vec_capacity s.entries - vec_len s.entries;
    } };

    ghost invariant = { λ s.
        All (λ n. n ≤ s.pushes) s.serials.items
        × StackFits s.host s.serials.items (reverse s.entries.items) };
}

impl IcsStack {
    ghost use Rattle.ics_stack.specs.Stack.{next_token, entries_after_push, serials_after_push};

    /// The empty stack of a host with this key and so many entries.
    pub fn new(
        alloc: Global,
        host: HostId,
        key: [u8; KEY_BYTES],
        entries: u32,
    ) -> Result<IcsStack, OutOfMemory>
        ensures host { IfOk result (λ stack. stack.host ≡ host) }
        ensures key { IfOk result (λ stack. stack.key ≡ key) }
        ensures empty { IfOk result (λ stack. stack.entries ≡ []) }
        ensures serials { IfOk result (λ stack. stack.serials ≡ replicate entries 0) }
        ensures pushes { IfOk result (λ stack. stack.pushes ≡ 0) }
    {
        match vec![in alloc; 0; entries as usize] {
            Ok(serials) => Ok(IcsStack {
                host,
                key,
                entries: Vec::new(alloc),
                serials,
                pushes: 0,
            }),
            Err(_) => Err(OutOfMemory),
        }
    }

    /// Makes room for one push, and changes nothing else, also after an error.
    pub fn reserve(&mut self) -> Result<(), OutOfMemory>
        ensures room { OnOk result (0 < self.new.room) }
        ensures same { self.new ≡ record self.old { room = self.new.room } }
        ensures no_less { self.old.room ≤ self.new.room }
    {
        match self.entries.reserve(1) {
            Ok(()) => Ok(()),
            Err(_) => Err(OutOfMemory),
        }
    }

    /// Pushes an entry in its frame, with the token that is kept for its thread, and gives the token that takes it off.
    /// There has to be room.
    pub fn push(&mut self, entry: EntryId, frame: FrameId, held: Held) -> Token
        requires room { 0 < self.old.room }
        requires entry { entry.0 < length self.old.serials }
        requires pushes { self.old.pushes < 2 ^ 63 }
        ensures token { result ≡ next_token self.old entry frame }
        ensures pushed { self.new.entries ≡ entries_after_push self.old entry frame held }
        ensures serials { self.new.serials ≡ serials_after_push self.old entry }
        ensures pushes { self.new.pushes ≡ self.old.pushes + 1 }
        ensures same { (self.new.host ≡ self.old.host) × (self.new.key ≡ self.old.key) }
        ensures fresh { LackToken self.old.entries result }
    {
        let place = entry.0 as usize;
        let serial = self.serials[place];
        let token = Token {
            host: self.host,
            frame,
            entry,
            serial,
            tag: tag(&self.key, self.host, frame, entry, serial),
        };
        let kept = held.spend();
        let pushed = self.entries.push(StackEntry {
            token,
            entry,
            frame,
            kept,
        });
        prove!(pushed.is_ok());
        self.serials[place] = serial + 1;
        self.pushes += 1;
        token
    }

    /// Takes the top entry off for its token.
    ///
    /// # Errors
    /// `NotTop` exactly where the stack is empty or the top entry's token differs in any part. Nothing changes then.
    pub fn take(&mut self, token: Token) -> Result<Pending, NotTop>
        ensures ok { IfOk result (λ pending. IsTakenOff self.old.entries token pending self.new.entries) }
        ensures not_top { IfErr result
            (λ error. (error.top ≡ top_token self.old.entries) × (error.top ≢ Some token)) }
        ensures err { IfErr result (λ error. self.new ≡ self.old) }
        ensures same { self.new ≡ record self.old { entries = self.new.entries; room = self.new.room } }
        ensures room { self.old.room ≤ self.new.room }
        ensures once { IfOk result (λ pending. LackToken self.new.entries token) }
    {
        let Some(top) = self.entries.last().copied() else {
            return Err(NotTop { top: None });
        };
        if !top.token.is_same(&token) {
            return Err(NotTop {
                top: Some(top.token),
            });
        }
        self.entries.pop();
        Ok(Pending::of(top.entry, top.frame, top.kept))
    }

    /// The token of the top entry.
    pub fn top(&self) -> Option<Token>
        ensures { result ≡ top_token self.now.entries }
    {
        match self.entries.last() {
            Some(top) => Some(top.token),
            None => None,
        }
    }

    /// How many entries there are.
    pub fn depth(&self) -> u64
        ensures depth { result ≡ length self.now.entries }
        // Its entries are its own, and no two of them have the same token.
        ensures own { StackFits self.now.host self.now.serials self.now.entries }
    {
        self.entries.len() as u64
    }
}
