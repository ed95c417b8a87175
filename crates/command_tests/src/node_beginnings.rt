//! As which host a node begins, and to which sockets.

use crate::files::held_files;
use crate::frames::links;
use crate::rows::{cell, same, words};
use node_engine::jifhost;
use node_links::{MemJournal, MemLinks};
use std::alloc::Global;
use std::test::Fail;

/// Each row has the words, and what begins: the links of a host by its number, to the paths of all hosts, and then the
/// journal by its name. Where the words are refused nothing does.
const ROWS: &str = "\
    --program P --hosts H --host A --start S --turns 4 | links 0: A.sock B.sock, journal A\n\
    --program P --hosts H --host B --start S --turns 1 | links 1: A.sock B.sock, journal B\n\
    --program P --hosts H --host C --start S --turns 1 | ";

/// What has begun.
fn begun_text(alloc: Global, links: &MemLinks, journal: &MemJournal) -> Result<String, Fail> {
    let mut begun = Vec::new(alloc);
    for (host, paths) in links.begun() {
        let number = host.0;
        let paths = paths.as_slice().join(alloc, " ")?;
        begun.push(format!(in alloc; "links {number}: {paths}")?)?;
    }
    for name in journal.named() {
        begun.push(format!(in alloc; "journal {name}")?)?;
    }
    Ok(begun.as_slice().join(alloc, ", ")?)
}

/// What has begun of a node that is called with the words of a line.
fn begun_by(alloc: Global, line: &str) -> Result<String, Fail> {
    let mut files = held_files(alloc, "P H S", "-")?;
    let mut links = links(alloc, "ACK", "-")?;
    let mut journal = MemJournal::new(alloc, Vec::new(alloc));
    let words = words(alloc, line)?;
    let _status = jifhost(
        alloc,
        words.as_slice(),
        &mut files,
        &mut links,
        &mut journal,
    );
    begun_text(alloc, &links, &journal)
}

#[test]
fn nodes_begin_as_their_own_host(rt: HostRuntime) -> Result<(), Fail> {
    for row in ROWS.lines() {
        let begun = begun_by(rt.alloc(), cell(row, 0))?;
        same(&rt, row, begun.as_str(), cell(row, 1));
    }
    Ok(())
}
