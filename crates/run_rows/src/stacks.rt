//! The control stacks of the hosts, as far as a run shows them.
//!
//! A host tells how many entries are on its stack, and not which. So the entries are kept beside the hosts: what is
//! pushed stands in the event, and what is taken off was on top.

ghost use Rattle.std.specs.Prelude.{◌≡◌, ◌<◌, ◌∷◌, IfOk, OnOk, length, reverse, slice_set};
ghost use Rattle.run_rows.specs.Stacks.{IsStackChange, first_stack, stack_at, op_pushes, message_pushes, made_pushes};
ghost use Rattle.run_rows.specs.Stacks.{pushed_in};
ghost use Rattle.js_base.specs.declared.ids.HostId.{HostId};
ghost use Rattle.run_rows.specs.declared.row.Change.TheVariants as change;

use crate::row::{Change, What};
use event_text::BadMessage;
use host_code::{Code, Message, Op};
use js_base::limits::HOSTS;
use js_base::{EntryId, HostId, OutOfMemory};
use std::alloc::Global;
use std::marker::Model;

/// The entry that ends the program, which is on the root host's stack before the first event.
const HALT: EntryId = EntryId(0);

/// For each host the entries on its control stack.
#[derive(Drop)]
pub struct Stacks {
    /// The top of each is its last one.
    stacks: Vec<Vec<EntryId>>,
}

impl Model for Stacks {
    ghost use Rattle.std.specs.Prelude.{List, map, reverse};
    ghost use Rattle.js_base.specs.declared.ids.EntryId.{EntryId};

    ghost Value = { List (List EntryId) };

    ghost view = { λ s. map (λ stack. reverse stack.items) s.stacks.items };
}

impl Stacks {
    /// The stacks before the first event.
    pub fn new(alloc: Global, code: &Code) -> Result<Stacks, OutOfMemory>
        ensures count { IfOk result (λ stacks. length stacks ≡ length code.now.hosts) }
        ensures first { IfOk result (λ stacks. (host : HostId) → host.0 < length code.now.hosts →
            stack_at stacks host ≡ first_stack code.now host) }
    {
        let count = code.hosts().len();
        prove!(count <= HOSTS);
        let mut stacks = Vec::new(alloc);
        for number in 0..count {
            stacks.push(first_of(alloc, code, HostId(number as u8))?)?;
        }
        Ok(Stacks { stacks })
    }

    /// What an event did to the stack of its host, which pushes this entry if it pushes one. The counts are those of
    /// its entries before and after. The entries follow.
    pub fn follow(
        &mut self,
        host: HostId,
        pushes: Option<EntryId>,
        before: u64,
        after: u64,
    ) -> Result<Change, OutOfMemory>
        ensures change { IfOk result (λ change. host.0 < length self.old →
            IsStackChange pushes before after (stack_at self.old host) (stack_at self.new host) change) }
        ensures others { IfOk result (λ change. host.0 < length self.old →
            self.new ≡ slice_set self.old host.0 (stack_at self.new host)) }
    {
        let place = host.0 as usize;
        if place < self.stacks.len() {
            follow_one(&mut self.stacks[place], pushes, before, after)
        } else {
            Ok(Change::Same)
        }
    }
}

/// The stack of a host before the first event.
fn first_of(alloc: Global, code: &Code, host: HostId) -> Result<Vec<EntryId>, OutOfMemory>
    ensures { IfOk result (λ stack. reverse stack.items ≡ first_stack code.now host) }
{
    let mut stack = Vec::new(alloc);
    if host.0 == code.root().0 {
        stack.push(HALT)?;
    }
    Ok(stack)
}

/// What an event did to one stack.
fn follow_one(
    stack: &mut Vec<EntryId>,
    pushes: Option<EntryId>,
    before: u64,
    after: u64,
) -> Result<Change, OutOfMemory>
    ensures { IfOk result
        (IsStackChange pushes before after (reverse stack.old.items) (reverse stack.new.items)) }
{
    if before < after {
        return match pushes {
            Some(entry) => push_entry(stack, entry),
            None => Ok(Change::Same),
        };
    }
    if after < before {
        return match stack.pop() {
            Some(entry) => Ok(Change::TakenOff(entry)),
            None => Ok(Change::Same),
        };
    }
    Ok(Change::Same)
}

/// Pushes an entry.
fn push_entry(stack: &mut Vec<EntryId>, entry: EntryId) -> Result<Change, OutOfMemory>
    ensures change { IfOk result (λ did. did ≡ change.Pushed entry) }
    ensures stack { OnOk result (reverse stack.new.items ≡ entry ∷ reverse stack.old.items) }
{
    stack.push(entry)?;
    Ok(Change::Pushed(entry))
}

/// The entry that an event pushes, if it pushes one.
pub fn pushed_in(code: &Code, what: &What) -> Option<EntryId>
    ensures { result ≡ pushed_in code.now what.now }
{
    match what {
        What::Turn(host, at) => match code.instruction(*host, *at) {
            Some(instruction) => op_pushes(&instruction.op),
            None => None,
        },
        What::Take(_, _, message) => message_pushes(message),
        What::Act(_, _, made) => made_pushes(made),
    }
}

/// The entry that an instruction pushes on its own host.
fn op_pushes(op: &Op) -> Option<EntryId>
    ensures { result ≡ op_pushes op.now }
{
    match op {
        Op::Push(entry) => Some(*entry),
        _ => None,
    }
}

/// The entry that a message asks to push.
fn message_pushes(message: &Message) -> Option<EntryId>
    ensures { result ≡ message_pushes message.now }
{
    match message {
        Message::Sync { entry, .. } => Some(*entry),
        _ => None,
    }
}

/// The entry that a misbehaving host asks to push.
fn made_pushes(made: &BadMessage) -> Option<EntryId>
    ensures { result ≡ made_pushes made.now }
{
    match made {
        BadMessage::Sync { entry, .. } => Some(*entry),
        _ => None,
    }
}
