//! The lines of the hosts.

ghost use Rattle.std.specs.Prelude.{◌≡◌, ◌++◌, OnOk, is_some, if◌then◌else◌};
ghost use Rattle.std.specs.String.{string_bytes};
ghost use Rattle.host_code.specs.MessageText.{host_text};
ghost use Rattle.host_core.specs.Host.{state_of};
ghost use Rattle.net_world.specs.Fits.{world_of};
ghost use Rattle.net_world.specs.World.{state_at};
ghost use Rattle.split_cli.specs.WorldReport.{host_line, host_lines, state_line};
ghost use Rattle.front_end.specs.Text.{line_text, lines_text};

use host_code::{Code, host_name};
use host_core::Host;
use js_base::limits::HOSTS;
use js_base::{HostId, OutOfMemory};
use net_world::World;
use std::fmt::Write;

/// Adds the lines of the hosts that obey.
#[tactic(auto, using(crate::proofs::WorldLines::range_more))]
pub fn push_hosts(text: &mut String, code: &Code, world: &World) -> Result<(), OutOfMemory>
    ensures { OnOk result (
        string_bytes text.new ≡ string_bytes text.old
        ++ lines_text (host_lines code.now (world_of world.now))) }
{
    let count = code.hosts().len();
    prove!(count <= HOSTS);
    for number in 0..count {
        push_host(text, code, world, HostId(number as u8))?;
    }
    Ok(())
}

/// Adds the line of a host, where it obeys.
fn push_host(
    text: &mut String,
    code: &Code,
    world: &World,
    number: HostId,
) -> Result<(), OutOfMemory>
    ensures { OnOk result (
        string_bytes text.new ≡ string_bytes text.old
        ++ lines_text (host_line (host_text code.now number) (state_at (world_of world.now) number))) }
{
    match world.host(number) {
        Some(host) => push_state(text, host_name(code, number), host),
        None => Ok(()),
    }
}

/// Adds the line of a host of this name.
fn push_state(text: &mut String, name: &str, host: &Host) -> Result<(), OutOfMemory>
    ensures { OnOk result (
        string_bytes text.new ≡ string_bytes text.old ++ line_text (state_line name.now (state_of host.now))) }
{
    let running = running_threads(host);
    let waiting = host.waiting();
    let depth = host.depth();
    let ignored = host.ignored();
    write!(text, "host {name}: running {running}, waiting {waiting}").map_err(|_| OutOfMemory)?;
    writeln!(text, ", stack {depth}, ignored {ignored}").map_err(|_| OutOfMemory)
}

/// How many threads run on a host.
fn running_threads(host: &Host) -> u8
    ensures { result ≡ (if is_some host.now.running then 1 else 0) }
{
    if host.rest() { 0 } else { 1 }
}
