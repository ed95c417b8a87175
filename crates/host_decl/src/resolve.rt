//! From what a file says to its hosts.

ghost use Rattle.std.specs.Prelude.{All, MatchResult, map};
ghost use Rattle.std.specs.String.{string_bytes};
ghost use Rattle.js_base.specs.Name.{IsName};
ghost use Rattle.principals.specs.Declaring.{AreDeclaredAs, written_pairs};
ghost use Rattle.host_decl.specs.DraftView.{hosts_draft};
ghost use Rattle.host_decl.specs.Meaning.{IsMeaningOf, RefusesFile, PrincipalsFail};

use crate::draft::HostsDraft;
use crate::error::HostsError;
use crate::hosts::Hosts;
use crate::links::{costs_of, first_bad_link};
use crate::rows::{rows_of, test_names};
use principals::{PrincipalError, Principals};
use std::alloc::Global;

/// The hosts that a file means.
pub fn resolve(alloc: Global, draft: HostsDraft) -> Result<Hosts, HostsError>
    requires names { All (λ name. IsName (string_bytes name)) draft.names.items }
    requires hosts { All IsName (map (λ host. string_bytes host.name) draft.hosts.items) }
    ensures { MatchResult result (IsMeaningOf (hosts_draft draft)) (RefusesFile (hosts_draft draft)) }
{
    let HostsDraft {
        names,
        pairs,
        hosts,
        links,
    } = draft;
    let principals = declare(alloc, &names, &pairs)?;
    test_names(alloc, &hosts)?;
    let rows = rows_of(alloc, &principals, hosts)?;
    if let Some(number) = first_bad_link(&rows, &links) {
        return Err(HostsError::BadLink(number));
    }
    let costs = costs_of(alloc, &rows, &links)?;
    Ok(Hosts::new(principals, rows, costs))
}

/// The principals of these names and pairs.
fn declare(
    alloc: Global,
    names: &[String],
    pairs: &[(String, String)],
) -> Result<Principals, HostsError>
    requires { All (λ name. IsName (string_bytes name)) names.now }
    ensures { MatchResult result
        (AreDeclaredAs (map string_bytes names.now) (written_pairs pairs.now))
        (PrincipalsFail (map string_bytes names.now) (written_pairs pairs.now)) }
{
    match Principals::new(alloc, names, pairs) {
        Ok(principals) => Ok(principals),
        Err(PrincipalError::OutOfMemory) => Err(HostsError::OutOfMemory),
        Err(refusal) => Err(HostsError::Principals(refusal)),
    }
}
