//! The hosts of a file: their names, and what each says.

ghost use Rattle.std.specs.Prelude.{◌≡◌, ◌≤◌, length, map, MatchResult, IfOk, IfErr, OnOk};
ghost use Rattle.std.specs.List.{AllZip};
ghost use Rattle.std.specs.String.{string_bytes};
ghost use Rattle.host_decl.specs.DraftView.{host_draft};
ghost use Rattle.host_decl.specs.Hosts.{AreHostNames};
ghost use Rattle.host_decl.specs.Meaning.{IsHostOf, HasLabel, NamesFail, LabelsFail};

use crate::draft::HostDraft;
use crate::error::HostsError;
use crate::hosts::HostRow;
use crate::label_text::label_of_text;
use js_base::limits::HOSTS;
use js_base::named::first_repeated;
use js_base::text::owned_text;
use js_base::{HostId, OutOfMemory};
use principals::Principals;
use std::alloc::Global;

/// Refuses a file without hosts, with more than 16, or with two of one name.
pub fn test_names(alloc: Global, hosts: &[HostDraft]) -> Result<(), HostsError>
    ensures ok { OnOk result (AreHostNames (map (λ host. string_bytes host.name) hosts.now)) }
    ensures err { IfErr result (NamesFail (map (λ host. string_bytes host.name) hosts.now)) }
{
    if hosts.is_empty() {
        return Err(HostsError::NoHost);
    }
    if hosts.len() > HOSTS {
        return Err(HostsError::TooManyHosts);
    }
    if let Some(place) = first_repeated(hosts) {
        return Err(HostsError::HostTwice(owned_text(alloc, hosts[place].name.as_str())?));
    }
    Ok(())
}

/// The hosts with their labels.
pub fn rows_of(
    alloc: Global,
    principals: &Principals,
    hosts: Vec<HostDraft>,
) -> Result<Vec<HostRow>, HostsError>
    requires { length hosts.items ≤ HOSTS }
    ensures { MatchResult result
        (λ rows. AllZip (IsHostOf principals.now) (map host_draft hosts.items) rows.items)
        (LabelsFail principals.now (map host_draft hosts.items)) }
{
    let mut rows = Vec::new(alloc);
    for host in hosts {
        let row = match row_of(alloc, principals, host)? {
            Ok(row) => row,
            Err(name) => return Err(HostsError::BadLabel(HostId(rows.len() as u8), name)),
        };
        rows.push(row)?;
    }
    Ok(rows)
}

/// The host with its label, or its name where the text is not a label.
fn row_of(
    alloc: Global,
    principals: &Principals,
    host: HostDraft,
) -> Result<Result<HostRow, String>, OutOfMemory>
    ensures { IfOk result (λ row. MatchResult row
        (IsHostOf principals.now (host_draft host))
        (λ name. (¬ HasLabel principals.now (host_draft host)) × (string_bytes host.name ≡ string_bytes name))) }
{
    let HostDraft {
        name,
        label,
        key,
        path,
    } = host;
    match label_of_text(alloc, label.as_str(), principals)? {
        Some(label) => Ok(Ok(HostRow::new(name, label, key, path))),
        None => Ok(Err(name)),
    }
}
