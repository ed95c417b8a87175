//! The principals, hosts and costs that a host file means.

ghost use Rattle.std.specs.Prelude.{◌≡◌, ◌<◌, length, map};
ghost use Rattle.host_decl.specs.Hosts.{AreHosts, cost_at};

use crate::key::KEY_BYTES;
use js_base::HostId;
use label_lattice::Label;
use principals::Principals;
use std::marker::Model;

/// A host of a host file. It is not `Debug`, which would print its key.
#[derive(Drop)]
pub struct HostRow {
    name: String,
    label: Label,
    key: [u8; KEY_BYTES],
    path: String,
}

impl Model for HostRow {
    ghost use Rattle.std.specs.Prelude.{◌≡◌, length};
    ghost use Rattle.std.specs.String.{string_bytes};
    ghost use Rattle.host_decl.specs.Hosts.{HostShape};
    ghost use Rattle.host_decl.specs.declared.key.TheConstants.{KEY_BYTES};

    ghost Value = { HostShape };

    ghost view = { λ h.
        record { name = string_bytes h.name; label = h.label; key = h.key; path = string_bytes h.path } };

    ghost invariant = { λ h. length h.key ≡ KEY_BYTES };
}

impl HostRow {
    ghost use Rattle.std.specs.String.{string_bytes};

    /// A host of these parts.
    pub(crate) fn new(name: String, label: Label, key: [u8; KEY_BYTES], path: String) -> HostRow
        ensures { result ≡ record { name = string_bytes name; label = label; key = key; path = string_bytes path } }
    {
        HostRow {
            name,
            label,
            key,
            path,
        }
    }

    /// Its name, which no other host of the file has.
    pub fn name(&self) -> &str
        ensures { result.now ≡ self.now.name }
    {
        self.name.as_str()
    }

    /// The most that it may see, and who trusts it.
    pub fn label(&self) -> &Label
        ensures { result.now ≡ self.now.label }
    {
        &self.label
    }

    /// The key of its tokens: the one that is written, or the SHA-256 digest of its name.
    pub fn key(&self) -> &[u8; KEY_BYTES]
        ensures { result.now ≡ self.now.key }
    {
        &self.key
    }

    /// The path of its socket: the one that is written, or its name and `.sock`.
    pub fn path(&self) -> &str
        ensures { result.now ≡ self.now.path }
    {
        self.path.as_str()
    }
}

/// The principals, the hosts and the costs of the links of a host file: 1 to 16 hosts, no two of one name.
#[derive(Drop)]
pub struct Hosts {
    principals: Principals,
    hosts: Vec<HostRow>,
    /// A row for each host, with the cost from it to each host.
    costs: Vec<Vec<u32>>,
}

impl Model for Hosts {
    ghost use Rattle.std.specs.Prelude.{map};
    ghost use Rattle.host_decl.specs.Hosts.{HostsShape, AreHosts};

    ghost Value = { HostsShape };

    ghost view = { λ h.
        record { principals = h.principals; hosts = h.hosts.items; costs = map (λ row. row.items) h.costs.items } };

    ghost invariant = { λ h. AreHosts
        (record { principals = h.principals; hosts = h.hosts.items; costs = map (λ row. row.items) h.costs.items }) };
}

impl Hosts {
    /// These principals, hosts and costs.
    pub(crate) fn new(principals: Principals, hosts: Vec<HostRow>, costs: Vec<Vec<u32>>) -> Hosts
        requires { AreHosts
            (record { principals = principals; hosts = hosts.items; costs = map (λ row. row.items) costs.items }) }
        ensures { result ≡
            record { principals = principals; hosts = hosts.items; costs = map (λ row. row.items) costs.items } }
    {
        Hosts {
            principals,
            hosts,
            costs,
        }
    }

    /// The declared principals.
    pub fn principals(&self) -> &Principals
        ensures principals { result.now ≡ self.now.principals }
        ensures sound { AreHosts self.now }
    {
        &self.principals
    }

    /// The hosts in order. The number of a host is its place.
    pub fn hosts(&self) -> &[HostRow]
        ensures hosts { result.now ≡ self.now.hosts }
        ensures sound { AreHosts self.now }
    {
        &self.hosts
    }

    /// The cost of the link from one host to another, 1 to 1,000, and 0 from a host to itself.
    pub fn cost(&self, from: HostId, to: HostId) -> u32
        requires from { from.0 < length self.now.hosts }
        requires to { to.0 < length self.now.hosts }
        ensures cost { result ≡ cost_at self.now.costs from.0 to.0 }
        ensures sound { AreHosts self.now }
    {
        self.costs[from.0 as usize][to.0 as usize]
    }
}
