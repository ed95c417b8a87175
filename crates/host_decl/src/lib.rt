//! The host file: which principals there are, which hosts with their labels, keys and paths, and what links cost.
//!
//! The file is TOML. `schema` says which keys it may have, `file_draft` reads what it says as texts and numbers, and
//! `resolve` finds its meaning, with `rows` for the hosts and `links` for the links.
//!
//! **Promises.** A host file has one meaning or one refusal, and one of the two (`host_file_laws`).
//!
//! **Begin** with `specs/Meaning.antt` (what a file says) and `specs/Schema.antt` (its keys); `read_hosts` is the call.
//!
//! **Stays.** The order of hosts in the file: plans, codes and tokens count hosts by it.
//!
//! - `read`: `read_hosts`, from the bytes to the hosts or the refusal
//! - `schema`: which keys a table has and of which form: the first bad key. Public for who tells why a file is refused
//! - `file_draft`, `draft`: what a sound file says, as plain texts and numbers
//! - `resolve`: from these texts to hosts: `rows` has the hosts, `links` the costs, `key` the keys, `label_text` the
//!   labels
//! - `hosts`, `error`: the public types
//! - `laws`: a file has one meaning or one refusal, and has one of the two
#![tactic(auto)]

mod draft;
mod error;
mod file_draft;
mod hosts;
mod key;
mod label_text;
mod laws;
mod links;
mod read;
mod resolve;
mod rows;
mod schema;

pub use error::HostsError;
pub use hosts::{HostRow, Hosts};
pub use key::KEY_BYTES;
pub use laws::host_file_laws;
pub use read::{document, read_hosts};
pub use schema::{Form, TableKind, bad_key_of, form_at, items_at, value_at};
