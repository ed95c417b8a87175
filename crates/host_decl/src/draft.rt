//! What a host file says, as texts and numbers: names are not yet looked up, and labels are not yet read. Nothing here
//! is `Debug`, which would print keys.

ghost use Rattle.std.specs.Prelude.{◌≡◌, length};
ghost use Rattle.host_decl.specs.declared.key.TheConstants.{KEY_BYTES};

use crate::key::KEY_BYTES;
use js_base::named::Named;

/// A host, as a host file writes it.
#[derive(Drop)]
pub struct HostDraft {
    pub name: String,
    /// The text of its label.
    pub label: String,
    /// Its key, or the default one.
    pub key: [u8; KEY_BYTES],
    /// The path of its socket, or the default one.
    pub path: String,
    ghost whole_key: { length key ≡ KEY_BYTES },
}

impl Named for HostDraft {
    ghost use Rattle.std.specs.String.{string_bytes};

    ghost called = { λ host. string_bytes host.name };

    fn name(&self) -> &str {
        self.name.as_str()
    }
}

/// A link, as a host file writes it: the names of its hosts, and any cost.
#[derive(Drop)]
pub struct LinkDraft {
    pub from: String,
    pub to: String,
    pub cost: i64,
}

/// A host file: the names of principals, who of them acts for whom, the hosts and the links.
#[derive(Drop)]
pub struct HostsDraft {
    pub names: Vec<String>,
    pub pairs: Vec<(String, String)>,
    pub hosts: Vec<HostDraft>,
    pub links: Vec<LinkDraft>,
}
