//! Which labels misbehaving hosts may see.

ghost use Rattle.std.specs.Prelude.{◌≡◌, ◌↔◌, ◌≤◌, ℕ, IfOk, IsTrue, length};
ghost use Rattle.entry_check.specs.Checks.{MaySee, label_at, label_of_host};
ghost use Rattle.net_world.specs.Flying.{may_be_seen};
ghost use Rattle.net_world.specs.World.{lacks};
ghost use Rattle.net_world.specs.Fits.{states_of};
ghost use Rattle.net_world.specs.Secret.{IsReadBy, IsMisbehavingReader};

use host_code::Code;
use host_core::Host;
use js_base::limits::HOSTS;
use js_base::{HostId, OutOfMemory};
use std::alloc::Global;

/// For each label of a code whether a misbehaving host may see it.
pub fn readable_labels(
    alloc: Global,
    code: &Code,
    hosts: &[Option<Host>],
) -> Result<Vec<bool>, OutOfMemory>
    requires { length hosts.now ≤ HOSTS }
    ensures { IfOk result (λ readable. (label : ℕ) →
        (IsTrue (may_be_seen readable.items label) ↔ IsReadBy code.now (states_of hosts.now) label)) }
{
    let mut readable = Vec::new(alloc);
    for label in 0..code.labels().len() {
        readable.push(is_read(code, hosts, label as u32))?;
    }
    Ok(readable)
}

/// Whether a misbehaving host may see the label at a place among the code's labels.
#[tactic(auto, using(crate::proofs::Seeing::reading))]
fn is_read(code: &Code, hosts: &[Option<Host>], label: u32) -> bool
    requires { length hosts.now ≤ HOSTS }
    ensures { IsTrue result ↔ IsReadBy code.now (states_of hosts.now) label }
{
    for host in 0..hosts.len() as u8 {
        if reads(code, hosts, label, HostId(host)) {
            return true;
        }
    }
    false
}

/// Whether a host misbehaves and may see a label.
fn reads(code: &Code, hosts: &[Option<Host>], label: u32, host: HostId) -> bool
    ensures { IsTrue result ↔ IsMisbehavingReader code.now (states_of hosts.now) label host }
{
    is_bad(hosts, host) && may_see(code, label, host)
}

/// Whether a host of the code misbehaves.
pub fn is_bad(hosts: &[Option<Host>], host: HostId) -> bool
    ensures { result ≡ lacks (states_of hosts.now) host }
{
    matches!(hosts.get(host.0 as usize), Some(None))
}

/// Whether a host may see a label.
fn may_see(code: &Code, label: u32, host: HostId) -> bool
    ensures { IsTrue result ↔ MaySee (label_at code.now label) (label_of_host code.now host) }
{
    match (code.label(label), code.host(host)) {
        (Some(label), Some(there)) => label.conf_flows(there.label()),
        _ => false,
    }
}
