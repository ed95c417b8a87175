//! Moves that lower the cost of a plan.

ghost use Rattle.std.specs.Prelude.{◌≡◌, ◌↔◌, ◌+◌, ◌^◌, ◌<◌, IfOk, IsTrue, slice_set};
ghost use Rattle.jif_tree.specs.Trees.{program_tree};
ghost use Rattle.jif_tree.specs.Limits.{IsWithinLimits};
ghost use Rattle.msg_cost.specs.Rows.{IsIndex};
ghost use Rattle.msg_cost.specs.Steps.{moved};
ghost use Rattle.placement.specs.Choice.{after_step, after_steps, IsLowered};
ghost use Rattle.placement.specs.Steps.{field_part, statement_part, step_to, steps_of, steps_from, steps_in};
ghost use Rattle.placement.specs.Views.{cost_in, count_in, touched_in, IsCosted, IsCostedAs, IsWeighed};

use crate::costed::{Costed, Counted, Weighed};
use crate::part::Part;
use js_base::bits::has_bit;
use js_base::{FieldId, HostId, OutOfMemory, StmtId};
use msg_cost::{Change, Index, Step, cost_after, cost_before, walks_change};
use need_labels::Plan;
use place_rules::Allowed;
use std::alloc::Global;

/// The plan to which passes of moves come, of which the last makes none.
pub fn lowered(
    alloc: Global,
    counted: Counted<'_>,
    index: &Index<'_>,
    allowed: &Allowed,
    start: Costed,
) -> Result<Plan, OutOfMemory>
    requires within { IsWithinLimits (program_tree counted.checked.now.program) }
    requires index { IsIndex counted.checked.now.program counted.needs.now counted.hosts.now index.now }
    requires costed { IsCosted (cost_in counted) start }
    ensures { IfOk result (IsLowered (cost_in counted.entry) (steps_in (count_in counted.entry) allowed.now)
        start.plan) }
{
    let mut best = start;
    loop {
        let before = best.cost;
        best = pass(alloc, counted, index, allowed, best)?;
        if best.cost == before {
            return Ok(best.plan);
        }
    }
}

/// The plan after a pass over all parts.
fn pass(
    alloc: Global,
    counted: Counted<'_>,
    index: &Index<'_>,
    allowed: &Allowed,
    best: Costed,
) -> Result<Costed, OutOfMemory>
    requires within { IsWithinLimits (program_tree counted.checked.now.program) }
    requires index { IsIndex counted.checked.now.program counted.needs.now counted.hosts.now index.now }
    requires costed { IsCosted (cost_in counted) best }
    ensures { IfOk result (IsCostedAs (cost_in counted.entry)
        (after_steps (cost_in counted.entry) best.plan (steps_in (count_in counted.entry) allowed.now))) }
{
    let moved = pass_over_fields(alloc, counted, index, allowed.fields(), best)?;
    pass_over_statements(alloc, counted, index, allowed.statements(), moved)
}

/// The plan after all moves of fields were tried.
fn pass_over_fields(
    alloc: Global,
    counted: Counted<'_>,
    index: &Index<'_>,
    words: &[u16],
    best: Costed,
) -> Result<Costed, OutOfMemory>
    requires within { IsWithinLimits (program_tree counted.checked.now.program) }
    requires index { IsIndex counted.checked.now.program counted.needs.now counted.hosts.now index.now }
    requires costed { IsCosted (cost_in counted) best }
    ensures { IfOk result (IsCostedAs (cost_in counted.entry)
        (after_steps (cost_in counted.entry) best.plan (steps_from field_part (count_in counted.entry) 0 words.now))) }
{
    let mut best = best;
    for (number, word) in words.iter().enumerate() {
        let field = number_at(number)?;
        best = try_part(
            alloc,
            counted,
            index,
            best,
            Part::Field(FieldId(field)),
            *word,
        )?;
    }
    Ok(best)
}

/// The plan after all moves of statements were tried.
fn pass_over_statements(
    alloc: Global,
    counted: Counted<'_>,
    index: &Index<'_>,
    words: &[u16],
    best: Costed,
) -> Result<Costed, OutOfMemory>
    requires within { IsWithinLimits (program_tree counted.checked.now.program) }
    requires index { IsIndex counted.checked.now.program counted.needs.now counted.hosts.now index.now }
    requires costed { IsCosted (cost_in counted) best }
    ensures { IfOk result (IsCostedAs (cost_in counted.entry)
        (after_steps (cost_in counted.entry) best.plan
        (steps_from statement_part (count_in counted.entry) 0 words.now))) }
{
    let mut best = best;
    for (number, word) in words.iter().enumerate() {
        let statement = number_at(number)?;
        best = try_part(
            alloc,
            counted,
            index,
            best,
            Part::Statement(StmtId(statement)),
            *word,
        )?;
    }
    Ok(best)
}

/// The number of what stands at a place, or that memory ran out where it is too large for a number of a part.
fn number_at(place: usize) -> Result<u32, OutOfMemory>
    ensures { IfOk result (λ number. number ≡ place) }
{
    match u32::try_from(place) {
        Ok(number) => Ok(number),
        Err(_) => Err(OutOfMemory),
    }
}

/// The plan after all moves of a part to hosts of a word were tried.
fn try_part(
    alloc: Global,
    counted: Counted<'_>,
    index: &Index<'_>,
    best: Costed,
    part: Part,
    word: u16,
) -> Result<Costed, OutOfMemory>
    requires within { IsWithinLimits (program_tree counted.checked.now.program) }
    requires index { IsIndex counted.checked.now.program counted.needs.now counted.hosts.now index.now }
    requires costed { IsCosted (cost_in counted) best }
    ensures { IfOk result (IsCostedAs (cost_in counted.entry)
        (after_steps (cost_in counted.entry) best.plan (steps_of part word (count_in counted.entry)))) }
{
    let mut tried = Weighed {
        best,
        touched: None,
    };
    for number in 0..counted.hosts.hosts().len() {
        let host = number as u8;
        if has_bit(u64::from(word), host) {
            tried = try_host(alloc, counted, index, tried, part, HostId(host))?;
        }
    }
    Ok(tried.best)
}

/// The plan after the move of a part to a host was tried. A part that stands on the host already changes nothing, and
/// so nothing is counted for it.
fn try_host(
    alloc: Global,
    counted: Counted<'_>,
    index: &Index<'_>,
    tried: Weighed,
    part: Part,
    host: HostId,
) -> Result<Weighed, OutOfMemory>
    requires within { IsWithinLimits (program_tree counted.checked.now.program) }
    requires index { IsIndex counted.checked.now.program counted.needs.now counted.hosts.now index.now }
    requires costed { IsCosted (cost_in counted) tried.best }
    requires weighed { IsWeighed (touched_in counted index.now part) tried }
    ensures best { IfOk result (λ next. IsCostedAs (cost_in counted.entry)
        (after_step (cost_in counted.entry) tried.best.plan (step_to part host.0)) next.best) }
    ensures weighed { IfOk result (IsWeighed (touched_in counted.entry index.now part)) }
{
    let step = part.step_to(host);
    if stands_there(&tried.best.plan, step) {
        return Ok(tried);
    }
    let before = touched_before(counted, index, &tried, part);
    let after = touched_after(counted, index, &tried.best.plan, part, host);
    let walks = walks_touched(counted, index, &tried.best.plan, part, host);
    if after + walks.after < before + walks.before {
        let plan = moved(alloc, &tried.best.plan, step)?;
        let saved = (before + walks.before) - (after + walks.after);
        let cost = tried.best.cost.saturating_sub(saved);
        Ok(Weighed {
            best: Costed { plan, cost },
            touched: Some(after),
        })
    } else {
        Ok(Weighed {
            best: tried.best,
            touched: Some(before),
        })
    }
}

/// What the pieces cost that moves of a part touch, but for walks, as the plan stands. It is counted once for a plan.
fn touched_before(counted: Counted<'_>, index: &Index<'_>, tried: &Weighed, part: Part) -> u64
    requires within { IsWithinLimits (program_tree counted.checked.now.program) }
    requires index { IsIndex counted.checked.now.program counted.needs.now counted.hosts.now index.now }
    requires weighed { IsWeighed (touched_in counted index.now part) tried.now }
    ensures cost { result ≡ touched_in counted.entry index.now part tried.now.best.plan }
    ensures small { result < 2 ^ 62 }
{
    if let Some(cost) = tried.touched {
        return cost;
    }
    let Counted {
        checked,
        needs,
        hosts,
    } = counted;
    let step = part.step_to(HostId(0));
    cost_before(checked, needs, hosts, index, &tried.best.plan, step)
}

/// What they cost behind a move of the part.
fn touched_after(
    counted: Counted<'_>,
    index: &Index<'_>,
    plan: &Plan,
    part: Part,
    host: HostId,
) -> u64
    requires within { IsWithinLimits (program_tree counted.checked.now.program) }
    requires index { IsIndex counted.checked.now.program counted.needs.now counted.hosts.now index.now }
    ensures cost { result ≡ touched_in counted.entry index.now part (moved plan.now (step_to part host.0)) }
    ensures small { result < 2 ^ 62 }
{
    let Counted {
        checked,
        needs,
        hosts,
    } = counted;
    cost_after(checked, needs, hosts, index, plan, part.step_to(host))
}

/// What the walks cost that a move of the part touches, before it and behind it, but for what they cost both times.
/// With the costs of the other pieces, the cost of the plan changes as these do.
fn walks_touched(
    counted: Counted<'_>,
    index: &Index<'_>,
    plan: &Plan,
    part: Part,
    host: HostId,
) -> Change
    requires within { IsWithinLimits (program_tree counted.checked.now.program) }
    requires index { IsIndex counted.checked.now.program counted.needs.now counted.hosts.now index.now }
    ensures change { cost_in counted.entry (moved plan.now (step_to part host.0))
        + (touched_in counted.entry index.now part plan.now + result.before)
        ≡ cost_in counted.entry plan.now
        + (touched_in counted.entry index.now part (moved plan.now (step_to part host.0)) + result.after) }
    ensures small { (result.before < 2 ^ 62) × (result.after < 2 ^ 62) }
{
    let Counted {
        checked,
        needs,
        hosts,
    } = counted;
    walks_change(checked, needs, hosts, index, plan, part.step_to(host))
}

/// Whether a move leaves the plan as it is: its part stands on the host already, or there is no such part.
fn stands_there(plan: &Plan, step: Step) -> bool
    ensures { IsTrue result ↔ (moved plan.now step ≡ plan.now) }
{
    match step {
        Step::Field(field, host) => is_at(plan.fields(), field.0, host),
        Step::Statement(statement, host) => is_at(plan.statements(), statement.0, host),
    }
}

/// Whether to put a host at a place leaves the hosts as they are: it is there already, or there is no such place.
#[tactic(auto, using(crate::proofs::Stays::set_there))]
fn is_at(hosts: &[HostId], place: u32, host: HostId) -> bool
    ensures { IsTrue result ↔ (slice_set hosts.now place host ≡ hosts.now) }
{
    match hosts.get(place as usize) {
        Some(there) => there.0 == host.0,
        None => true,
    }
}

/// The plan after a move.
fn moved(alloc: Global, plan: &Plan, step: Step) -> Result<Plan, OutOfMemory>
    ensures { IfOk result (λ next. next ≡ moved plan.now step) }
{
    let mut fields = Vec::from_slice(alloc, plan.fields())?;
    let mut statements = Vec::from_slice(alloc, plan.statements())?;
    match step {
        Step::Field(field, host) => put(&mut fields, field.0, host),
        Step::Statement(statement, host) => put(&mut statements, statement.0, host),
    }
    Ok(Plan::new(fields, statements))
}

/// Puts a host at a place, where there is such a place.
fn put(hosts: &mut [HostId], place: u32, host: HostId)
    ensures { hosts.new ≡ slice_set hosts.old place host }
{
    if (place as usize) < hosts.len() {
        hosts[place as usize] = host;
    }
}
