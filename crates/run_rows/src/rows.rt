//! The rows of events that happen one after the other.

ghost use Rattle.std.specs.Prelude.{◌≡◌, ◌↔◌, [], All, IfOk, IfErr, IsTrue, Some, None, if◌then◌else◌, length, nat_lt};
ghost use Rattle.net_world.specs.Fits.{WorldFits, ShapeFits, HasOwnToken, world_of};
ghost use Rattle.net_world.specs.Replay.{IsReplayError};
ghost use Rattle.net_world.specs.Steps.{HaveMade};
ghost use Rattle.net_world.specs.World.{WorldShape, IsStep, mover, state_at};
ghost use Rattle.js_base.specs.declared.ids.HostId.{HostId};
ghost use Rattle.run_rows.specs.Senders.{AreBeside, IsPosting, senders_after};
ghost use Rattle.run_rows.specs.Stacks.{AreStacks, HasChanged, HaveFirstStacks, entries_in};
ghost use Rattle.run_rows.specs.Rows.{IsSeenBefore, IsPictured, IsRunRow, IsReason, WhatFits, first_moment};

use crate::asking::asked_in;
use crate::row::{Change, Row, What, keep};
use crate::seen::{Before, before_of, mover, seen_of};
use crate::senders::Senders;
use crate::stacks::{Stacks, pushed_in};
use event_text::Event;
use host_code::Code;
use ignored_reasons::{Why, asked_by, reason_laws, why_ignored};
use js_base::{HostId, OutOfMemory};
use net_world::laws::{fits_laws, step_laws};
use net_world::{ReplayError, World, refused};
use std::alloc::Global;

/// What an event did that is kept of all hosts from event to event.
#[derive(Clone, Copy)]
struct Marks {
    change: Change,
    posts: Option<HostId>,
    sent_by: Option<u64>,
}

/// A run: the row of each event, and the events that sent what is in flight at its end.
#[derive(Drop)]
pub struct Run {
    pub rows: Vec<Row>,
    pub senders: Senders,
}

/// The row of an event that happened, by what was seen before it.
fn row_after(
    code: &Code,
    world: &World,
    line: u32,
    event: &Event,
    before: &Before,
    marks: Marks,
) -> Row
    requires { WorldFits code.now world.now }
    ensures row { (old : WorldShape) → ShapeFits code.now old → IsSeenBefore code.now.root old event.now before.now →
        IsStep code.now old event.now (world_of world.now) →
        HasChanged (entries_in (state_at old (mover event.now)))
        (entries_in (state_at (world_of world.now) (mover event.now))) marks.change →
        IsRunRow code.now old (line, event.now) (world_of world.now) result }
    ensures marks { (result.sent_by ≡ marks.sent_by) × (result.posts ≡ marks.posts) }
{
    reason_laws();
    let host = seen_of(world, mover(event));
    let sent = world.sent().len() as u64;
    Row {
        line,
        what: before.what,
        sent_by: marks.sent_by,
        posts: marks.posts,
        ignored: why_not(code, &before.what, host.ignored == before.host.ignored),
        told: number_told(before.sent, sent),
        change: marks.change,
        halts: is_turn(before.halted, world.halted()),
        runs: host.runs,
        waits: host.waits,
    }
}

/// What an event that happened did to the control stack of its host, by what was seen before it. The stacks follow.
fn change_after(
    code: &Code,
    world: &World,
    event: &Event,
    before: &Before,
    stacks: &mut Stacks,
) -> Result<Change, OutOfMemory>
    ensures { IfOk result (λ change. (old : WorldShape) → ShapeFits code.now old →
        IsSeenBefore code.now.root old event.now before.now → IsStep code.now old event.now (world_of world.now) →
        AreStacks old stacks.old →
        HasChanged (entries_in (state_at old (mover event.now)))
        (entries_in (state_at (world_of world.now) (mover event.now))) change
        × AreStacks (world_of world.now) stacks.new) }
{
    let host = mover(event);
    let depth = seen_of(world, host).depth;
    stacks.follow(
        host,
        pushed_in(code, &before.what),
        before.host.depth,
        depth,
    )
}

/// To whom the host of an event that happened sent a message that is in flight now. The senders follow; the event has
/// this number.
fn posts_after(
    code: &Code,
    world: &World,
    event: &Event,
    number: u64,
    senders: &mut Senders,
) -> Result<Option<HostId>, OutOfMemory>
    ensures { IfOk result (λ posts. (old : WorldShape) → ShapeFits code.now old →
        ShapeFits code.now (world_of world.now) → IsStep code.now old event.now (world_of world.now) →
        AreBeside senders.old old.flying →
        IsPosting old event.now (world_of world.now) posts
        × (senders.new ≡ senders_after senders.old event.now posts number)
        × AreBeside senders.new (world_of world.now).flying) }
{
    let _sound = code.hosts();
    let from = mover(event);
    senders.leave(event);
    let posts = senders.unnumbered(world, from);
    if let Some(to) = posts {
        senders.post(from, to, number)?;
    }
    Ok(posts)
}

/// The number of what was sent where so many things were before, and so many are now.
fn number_told(before: u64, now: u64) -> Option<u64>
    ensures { result ≡ (if nat_lt before now then Some before else None) }
{
    if before < now { Some(before) } else { None }
}

/// Whether what is so now was not so before.
fn is_turn(before: bool, now: bool) -> bool
    ensures { IsTrue result ↔ (IsTrue now × ¬ IsTrue before) }
{
    now && !before
}

/// Why an event was ignored, where it did not pass.
fn why_not(code: &Code, what: &What, passes: bool) -> Option<Why>
    ensures { IsReason code.now what.now passes result }
{
    match what {
        What::Turn(_, _) => if passes { None } else { Some(Why::NotOnTop) },
        What::Take(from, to, message) => why_ignored(code, *to, *from, &asked_by(message), passes),
        What::Act(from, to, made) => why_ignored(code, *to, *from, &asked_in(made), passes),
    }
}

/// Makes events happen, each of which stands on a line, and gives a row for each, up to the first that is
/// refused. The
/// world has just started.
///
/// # Errors
/// As of `replay`.
pub fn rows_of(
    alloc: Global,
    code: &Code,
    world: &mut World,
    events: &[(u32, Event)],
) -> Result<Run, ReplayError>
    requires fits { WorldFits code.now world.old }
    requires fresh { HaveMade 0 world.old.hosts }
    requires own { All (λ one. HasOwnToken (world_of world.old) one.1) events.now }
    requires stacks { HaveFirstStacks code.now (world_of world.old) }
    requires nothing { (from to : HostId) → (world_of world.old).flying from to ≡ [] }
    ensures pictured { IfOk result (λ run.
        IsPictured code.now (first_moment (world_of world.old)) events.now run.rows.items
        (record { world = world_of world.new; senders = run.senders; count = length events.now })) }
    ensures beside { IfOk result (λ run. AreBeside run.senders (world_of world.new).flying) }
    ensures fitting { IfOk result (λ run. All (λ row. WhatFits code.now row.what) run.rows.items) }
    ensures refused { IfErr result (IsReplayError code.now (world_of world.old) events.now) }
    ensures fits { WorldFits code.now world.new }
{
    fits_laws();
    step_laws();
    let mut stacks = Stacks::new(alloc, code)?;
    let mut senders = Senders::new(alloc)?;
    let mut rows = Vec::new(alloc);
    for (line, event) in events {
        let before = before_of(world, event);
        if let Err(error) = world.apply(code, event) {
            return Err(refused(*line, event, error));
        }
        let Some(before) = before else {
            unreachable!();
        };
        let change = change_after(code, world, event, &before, &mut stacks)?;
        let sent_by = senders.sender_of(event);
        let posts = posts_after(code, world, event, rows.len() as u64, &mut senders)?;
        let marks = Marks {
            change,
            posts,
            sent_by,
        };
        let row = row_after(code, world, *line, event, &before, marks);
        keep(&mut rows, row)?;
    }
    Ok(Run { rows, senders })
}
