//! A host that is played from its journal, and is told whether an open step passed.

ghost use Rattle.std.specs.Prelude.{◌≡◌, ◌≢◌, ◌↔◌, IsTrue, IsSome, IfOk, OnOk, OnErr, None, false, is_none};
ghost use Rattle.jif_tree.specs.Store.{row_of, element_at};
ghost use Rattle.capability.specs.Tag.{tag_of};
ghost use Rattle.ics_stack.specs.Stack.{top_token};
ghost use Rattle.host_code.specs.Sound.{IsHost, IsOther};
ghost use Rattle.host_core.specs.Calls.{KeepsHost};
ghost use Rattle.host_core.specs.Fits.{HostFits, SentFits, TokensFit};
ghost use Rattle.host_core.specs.Host.{state_of};
ghost use Rattle.host_core.specs.Start.{host_at_start};
ghost use Rattle.host_core.specs.Told.{told_key, with_wrong_tag, with_wrong_tags, StartsThread, IsUnsure, settled};
ghost use Rattle.host_core.specs.Told.{IsOpenTaking, IsOpenTurn, IsToldTaking, IsToldTurn};

use crate::calls::code_laws;
use crate::changes::HALT;
use crate::host::{Host, HostError, Sent};
use capability::{KEY_BYTES, Token, tag};
use host_code::{Code, Message, Op};
use jif_tree::Store;
use js_base::{FieldId, HostId, OutOfMemory};
use std::alloc::Global;
use std::marker::Model;

/// The key of a host that is played.
const TOLD_KEY: [u8; KEY_BYTES] = [0; KEY_BYTES];

/// A host that is played from its journal. It is no `Host`: at an open step it pops its stack without the right token.
/// A token that it takes has a wrong tag, so that only those that it made itself are its top entry's.
#[derive(Drop)]
pub struct ToldHost {
    host: Host,
}

impl Model for ToldHost {
    ghost use Rattle.host_core.specs.Host.{HostModel};

    ghost Value = { HostModel };

    ghost view = { λ t. t.host };
}

impl ToldHost {
    /// The host before the first event, as `Host::start` has it, with a key of zeros.
    pub fn start(
        alloc: Global,
        code: &Code,
        me: HostId,
        store: &Store,
    ) -> Result<ToldHost, OutOfMemory>
        requires { IsHost code.now me }
        ensures state { IfOk result (λ host. state_of host ≡ host_at_start code.now store.now told_key me) }
        ensures new { IfOk result (λ host. (host.me ≡ me) × (host.calls ≡ 0) × (host.stopped ≡ false)) }
        ensures fits { IfOk result (HostFits code.now) }
    {
        let host = Host::start(alloc, code, me, TOLD_KEY, store)?;
        Ok(ToldHost { host })
    }

    /// Whether no thread runs.
    pub fn rest(&self) -> bool
        ensures { result ≡ is_none self.now.running }
    {
        self.host.rest()
    }

    /// The element of a field at an index, 0 where the field is on another host or the index is out of range.
    pub fn field(&self, field: FieldId, index: i64) -> i64
        ensures { result ≡ element_at (row_of self.now.stores.rows field.0) index }
    {
        self.host.field(field, index)
    }

    /// Whether taking the message is an open step: an lgoto whose token has the numbers of the top entry's.
    pub fn is_open_taking(&self, message: &Message) -> bool
        ensures { IsTrue result ↔ IsOpenTaking (state_of self.now) (with_wrong_tags message.now) }
    {
        match with_wrong_tags(message) {
            Message::Lgoto { token } => is_unsure(self.host.stack.top(), token),
            _ => false,
        }
    }

    /// Whether a turn is an open step: the running thread gives back a token that was taken, with the numbers of the
    /// top entry's.
    // The token is looked at by taking it from its thread.
    pub fn is_open_turn(&mut self, code: &Code) -> bool
        ensures open { IsTrue result ↔ IsOpenTurn code.now (state_of self.old) }
        ensures same { self.new ≡ self.old }
    {
        self.host.gives_unsure(code)
    }

    /// Whether the top entry, taken off, starts a thread and does not end the program.
    pub fn pops(&self) -> bool
        ensures { IsTrue result ↔ StartsThread self.now.stack.entries }
    {
        let _own = self.host.stack.depth();
        match self.host.stack.top() {
            Some(top) => top.entry.0 != HALT.0,
            None => false,
        }
    }

    /// What the host does with a message from another host, while no thread runs. Where that is open, `passes` says
    /// whether the token is that of the top entry.
    ///
    /// # Errors
    /// As of `Host::deliver`.
    pub fn take(
        &mut self,
        code: &Code,
        from: HostId,
        message: &Message,
        passes: bool,
        sent: &mut Sent,
    ) -> Result<(), HostError>
        requires rest { self.old.running ≡ None }
        requires fits { HostFits code.now self.old }
        requires from { IsOther code.now self.old.me from }
        requires tokens { TokensFit code.now message.now }
        ensures ok { OnOk result (IsToldTaking code.now (state_of self.old) from (with_wrong_tags message.now) passes
            (record { state = state_of self.new; sent = sent.new })) }
        ensures keeps { KeepsHost code.now self.old self.new result }
        ensures sent { OnOk result (SentFits code.now self.old.me sent.new) }
        ensures unsent { OnErr result (sent.new ≡ sent.old) }
    {
        if self.is_open_taking(message) {
            self.host.settle(code, passes)?;
            *sent = None;
            return Ok(());
        }
        let message = with_wrong_tags(message);
        self.host.deliver_into(code, from, &message, sent)
    }

    /// What the host does at a turn of its running thread. Where that is open, `passes` says whether the thread's token
    /// is that of the top entry.
    ///
    /// # Errors
    /// As of `Host::deliver`.
    pub fn turn(&mut self, code: &Code, passes: bool, sent: &mut Sent) -> Result<(), HostError>
        requires runs { IsSome self.old.running }
        requires fits { HostFits code.now self.old }
        ensures ok { OnOk result (IsToldTurn code.now (state_of self.old) passes
            (record { state = state_of self.new; sent = sent.new })) }
        ensures keeps { KeepsHost code.now self.old self.new result }
        ensures sent { OnOk result (SentFits code.now self.old.me sent.new) }
        ensures unsent { OnErr result (sent.new ≡ sent.old) }
    {
        if self.is_open_turn(code) {
            self.host.settle(code, passes)?;
            *sent = None;
            return Ok(());
        }
        self.host.turn_into(code, sent)
    }
}

impl Host {
    /// Whether the running thread gives back a token that is not that of the top entry, but has its numbers.
    fn gives_unsure(&mut self, code: &Code) -> bool
        ensures open { IsTrue result ↔ IsOpenTurn code.now (state_of self.old) }
        ensures same { self.new ≡ self.old }
    {
        let Some(thread) = &mut self.running else {
            return false;
        };
        match (code.instruction(self.me, thread.at()), thread.token()) {
            (Some(instruction), Some(token)) => {
                is_back(&instruction.op) && is_unsure(self.stack.top(), token)
            }
            _ => false,
        }
    }

    /// The running thread ends, and the top entry is taken off and its thread starts, or one more is ignored.
    fn settle(&mut self, code: &Code, passes: bool) -> Result<(), HostError>
        requires fits { HostFits code.now self.old }
        requires some { IsSome (top_token self.old.stack.entries) }
        ensures state { OnOk result (state_of self.new ≡ settled code.now (state_of self.old) passes) }
        ensures keeps { KeepsHost code.now self.old self.new result }
    {
        code_laws(code);
        self.begin()?;
        self.running = None;
        let Some(top) = self.stack.top() else {
            unreachable!();
        };
        if passes {
            self.pop_or_ignore(code, top);
        } else {
            self.ignore();
        }
        Ok(())
    }
}

/// Whether a token is another one than that of the top entry, but has its numbers.
fn is_unsure(top: Option<Token>, token: Token) -> bool
    ensures { IsTrue result ↔ IsUnsure top token }
{
    match top {
        Some(top) => !token.is_same(&top)
            && top.is_same(&Token {
                tag: top.tag,
                ..token
            }),
        None => false,
    }
}

/// Whether the thread gives its token back.
fn is_back(op: &Op) -> bool
    ensures { IsTrue result ↔ (op.now ≡ Op.Back) }
{
    matches!(op, Op::Back)
}

/// The message with wrong tags.
fn with_wrong_tags(message: &Message) -> Message
    ensures { result ≡ with_wrong_tags message.now }
{
    match *message {
        Message::Sync {
            request,
            frame,
            entry,
            token,
        } => Message::Sync {
            request,
            frame,
            entry,
            token: with_wrong_tag(token),
        },
        Message::Rgoto {
            frame,
            entry,
            token,
        } => Message::Rgoto {
            frame,
            entry,
            token: with_wrong_tag(token),
        },
        Message::RgotoWith {
            frame,
            entry,
            token,
            pairs,
        } => Message::RgotoWith {
            frame,
            entry,
            token: with_wrong_tag(token),
            pairs,
        },
        Message::Lgoto { token } => Message::Lgoto {
            token: with_wrong_tag(token),
        },
        Message::Token { request, token } => Message::Token {
            request,
            token: with_wrong_tag(token),
        },
        other => other,
    }
}

/// The token with a tag that a told host would not make for it.
fn with_wrong_tag(token: Token) -> Token
    ensures token { result ≡ with_wrong_tag token }
    ensures wrong { result.tag ≢ tag_of told_key token.host token.frame token.entry token.serial }
{
    let mut tag = tag(
        &TOLD_KEY,
        token.host,
        token.frame,
        token.entry,
        token.serial,
    );
    tag[0] = if tag[0] == 0 { 1 } else { 0 };
    Token { tag, ..token }
}
