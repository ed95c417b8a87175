//! The report of a world, as a text.

ghost use Rattle.std.specs.Prelude.{◌≡◌, ◌++◌, IfOk, OnOk};
ghost use Rattle.std.specs.String.{string_bytes};
ghost use Rattle.std.specs.Fmt.{decimal};
ghost use Rattle.std.specs.Prelude.{codes};
ghost use Rattle.net_world.specs.Fits.{WorldFits, world_of};
ghost use Rattle.split_cli.specs.Drive.{drive_text, events_line};
ghost use Rattle.split_cli.specs.Making.{made_text};
ghost use Rattle.split_cli.specs.Replay.{replay_text};
ghost use Rattle.front_end.specs.Text.{line_text};
ghost use Rattle.split_cli.specs.WorldReport.{halted_line};

mod fields;
mod flying;
mod hosts;
mod sent;

use fields::{push_fields, push_values};
use flying::push_flying;
use host_code::Code;
use hosts::push_hosts;
use js_base::OutOfMemory;
use net_world::World;
use sent::push_sent;
use std::alloc::Global;
use std::fmt::Write;

/// The report of a drive of so many events that left this world: their number, whether the program has halted, the
/// fields, the hosts, what is in flight, and what misbehaving hosts were sent.
#[tactic(auto, using(crate::proofs::WorldLines::drive_parts))]
pub fn drive_text(
    alloc: Global,
    code: &Code,
    made: u64,
    world: &World,
) -> Result<String, OutOfMemory>
    requires { WorldFits code.now world.now }
    ensures { IfOk result (λ text. string_bytes text ≡ drive_text code.now made (world_of world.now)) }
{
    let mut text = String::new(alloc);
    push_count(&mut text, made)?;
    push_halted(&mut text, code, world)?;
    push_fields(alloc, &mut text, code, world)?;
    push_hosts(&mut text, code, world)?;
    push_flying(alloc, &mut text, code, world)?;
    push_sent(alloc, &mut text, code, world)?;
    Ok(text)
}

/// The report of a replay that left this world: whether the program has halted, the fields, the hosts, what is in
/// flight, and what misbehaving hosts were sent.
#[tactic(auto, using(crate::proofs::WorldLines::replay_parts))]
pub fn replay_text(alloc: Global, code: &Code, world: &World) -> Result<String, OutOfMemory>
    requires { WorldFits code.now world.now }
    ensures { IfOk result (λ text. string_bytes text ≡ replay_text code.now (world_of world.now)) }
{
    let mut text = String::new(alloc);
    push_halted(&mut text, code, world)?;
    push_fields(alloc, &mut text, code, world)?;
    push_hosts(&mut text, code, world)?;
    push_flying(alloc, &mut text, code, world)?;
    push_sent(alloc, &mut text, code, world)?;
    Ok(text)
}

/// The line of a drive of so many events of a program that was made, whose plan has this cost, and the values of the
/// fields that it left.
pub fn made_text(
    alloc: Global,
    statements: u64,
    cost: u64,
    code: &Code,
    made: u64,
    world: &World,
) -> Result<String, OutOfMemory>
    requires { WorldFits code.now world.now }
    ensures { IfOk result (λ text.
        string_bytes text ≡ made_text statements cost code.now made (world_of world.now)) }
{
    let mut text = format!(in alloc; "make {statements}: cost {cost} events {made}")?;
    push_values(alloc, &mut text, code, world)?;
    text.push('\n')?;
    Ok(text)
}

/// Adds the line that says how many events were made.
fn push_count(text: &mut String, made: u64) -> Result<(), OutOfMemory>
    ensures { OnOk result (string_bytes text.new ≡ string_bytes text.old ++ line_text (events_line made)) }
{
    writeln!(text, "events {made}").map_err(|_| OutOfMemory)
}

/// Adds the line that says whether the program has halted.
fn push_halted(text: &mut String, code: &Code, world: &World) -> Result<(), OutOfMemory>
    requires { WorldFits code.now world.now }
    ensures { OnOk result (
        string_bytes text.new ≡ string_bytes text.old ++ line_text (halted_line code.now (world_of world.now))) }
{
    let line = if world.halted() {
        "halted yes\n"
    } else {
        "halted no\n"
    };
    text.push_str(line)?;
    Ok(())
}
