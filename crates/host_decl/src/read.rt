//! From the bytes of a host file to its hosts, or to why it is refused.

ghost use Rattle.std.specs.Prelude.{◌≤◌, length, MatchResult};
ghost use Rattle.toml.specs.View.{table_view};
ghost use Rattle.host_decl.specs.Reading.{IsDocument, ReadsHosts, RefusesHosts, DocumentFails};

use crate::error::HostsError;
use crate::file_draft::file_draft;
use crate::hosts::Hosts;
use crate::resolve::resolve;
use crate::schema::bad_key;
use js_base::limits::HOSTS_BYTES;
use js_base::text::owned_text;
use std::alloc::Global;
use toml::Table;

/// The principals, hosts and costs that the bytes of a host file say.
///
/// # Errors
/// Each in the order that `HostsError` gives.
pub fn read_hosts(alloc: Global, bytes: &[u8]) -> Result<Hosts, HostsError>
    ensures { MatchResult result (ReadsHosts bytes.now) (RefusesHosts bytes.now) }
{
    if bytes.len() > HOSTS_BYTES {
        return Err(HostsError::TooLong);
    }
    let file = document(alloc, bytes)?;
    if let Some(key) = bad_key(&file) {
        return Err(HostsError::BadKey(owned_text(alloc, key)?));
    }
    let draft = file_draft(alloc, &file)?;
    resolve(alloc, draft)
}

/// The TOML document in the bytes of a host file.
///
/// # Errors
/// `NotToml`, where they are none, or that memory ran out.
pub fn document(alloc: Global, bytes: &[u8]) -> Result<Table, HostsError>
    requires { length bytes.now ≤ HOSTS_BYTES }
    ensures { MatchResult result (λ file. IsDocument bytes.now (table_view file)) (DocumentFails bytes.now) }
{
    match toml::table_from_slice(alloc, bytes) {
        Ok(file) => Ok(file),
        Err(error) if error.is_memory() => Err(HostsError::OutOfMemory),
        Err(_) => Err(HostsError::NotToml),
    }
}
