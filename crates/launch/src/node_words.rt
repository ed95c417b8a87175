//! The words with which the nodes of hosts are started.

ghost use Rattle.std.specs.Prelude.{◌≡◌, ◌∷◌, ◌++◌, [], IfOk, OnOk, map, string_bytes};
ghost use Rattle.launch.specs.Report.{all_words, node_words, run_words};

use host_decl::{HostRow, Hosts};
use js_base::OutOfMemory;
use js_base::text::owned_text;
use std::alloc::Global;

/// The names of the files of a run, and how many turns each node may make, as they are written.
#[derive(Clone, Copy)]
pub struct Run<'a> {
    pub program: &'a str,
    pub hosts: &'a str,
    pub start: &'a str,
    pub turns: &'a str,
}

/// The words for the node of each host, in order.
pub fn all_words(
    alloc: Global,
    run: &Run<'_>,
    hosts: &Hosts,
) -> Result<Vec<Vec<String>>, OutOfMemory>
    ensures { IfOk result (λ all.
        map (λ one. map string_bytes one.items) all.items ≡ all_words (run_words run.now) hosts.now) }
{
    words_of_hosts(alloc, run, hosts.hosts())
}

/// The words for the nodes of these hosts.
fn words_of_hosts(
    alloc: Global,
    run: &Run<'_>,
    hosts: &[HostRow],
) -> Result<Vec<Vec<String>>, OutOfMemory>
    ensures { IfOk result (λ all. map (λ one. map string_bytes one.items) all.items
        ≡ map (λ host. node_words (run_words run.now) host.name) hosts.now) }
{
    let mut all = Vec::new(alloc);
    for host in hosts {
        all.push(words_of(alloc, run, host.name())?)?;
    }
    Ok(all)
}

/// The words for the node of a host of this name.
fn words_of(alloc: Global, run: &Run<'_>, name: &str) -> Result<Vec<String>, OutOfMemory>
    ensures { IfOk result (λ words. map string_bytes words.items ≡ node_words (run_words run.now) name.now) }
{
    let mut words = Vec::new(alloc);
    push_option(alloc, &mut words, "--program", run.program)?;
    push_option(alloc, &mut words, "--hosts", run.hosts)?;
    push_option(alloc, &mut words, "--host", name)?;
    push_option(alloc, &mut words, "--start", run.start)?;
    push_option(alloc, &mut words, "--turns", run.turns)?;
    Ok(words)
}

/// Adds an option and its value.
fn push_option(
    alloc: Global,
    words: &mut Vec<String>,
    option: &str,
    value: &str,
) -> Result<(), OutOfMemory>
    ensures { OnOk result (map string_bytes words.new.items
        ≡ map string_bytes words.old.items ++ option.now ∷ value.now ∷ []) }
{
    words.push(owned_text(alloc, option)?)?;
    words.push(owned_text(alloc, value)?)?;
    Ok(())
}
