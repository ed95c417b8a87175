//! Whether hosts of a host file are those of a code.

ghost use Rattle.std.specs.Prelude.{◌≡◌, ◌↔◌, IsTrue};
ghost use Rattle.net_world.specs.World.{AreHostsOf, named_host};

use host_code::{Code, CodeHost};
use host_decl::{HostRow, Hosts};

/// Whether the hosts of a host file are those of a code, in order and with their names and labels.
#[tactic(auto, using(crate::proofs::Named::named))]
pub fn are_hosts_of(code: &Code, hosts: &Hosts) -> bool
    ensures { IsTrue result ↔ AreHostsOf code.now hosts.now.hosts }
{
    let named = code.hosts();
    let rows = hosts.hosts();
    if named.len() != rows.len() {
        return false;
    }
    for (place, row) in rows.iter().enumerate() {
        if !is_host_of(&named[place], row) {
            return false;
        }
    }
    true
}

/// Whether a host of a code has the name and the label of a row.
fn is_host_of(host: &CodeHost, row: &HostRow) -> bool
    ensures { IsTrue result ↔ (named_host row.now ≡ host.now) }
{
    host.name() == row.name() && host.label() == row.label()
}
