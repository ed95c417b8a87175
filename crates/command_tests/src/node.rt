//! A call of a node over files, links and a journal in memory, and what it leaves.

use crate::files::sink;
use crate::frames::{links, sent_text};
use crate::rows::words;
use js_base::{MemFiles, MemSink};
use node_engine::jifhost;
use node_links::MemLinks;
use std::alloc::Global;
use std::test::Fail;

/// What a node notes, answers and sends: the lines of its journal, and then its status and its frames.
fn called(
    alloc: Global,
    files: &mut MemFiles,
    line: &str,
    links: &mut MemLinks,
    journal: &mut MemSink,
) -> Result<String, Fail> {
    let words = words(alloc, line)?;
    let status = jifhost(alloc, words.as_slice(), files, links, journal);
    let sent = sent_text(alloc, links)?;
    let noted = str::from_utf8(journal.taken())?;
    Ok(format!(in alloc; "{noted}{status:?}{sent}")?)
}

/// What a node leaves that is called with the words of a line. The frames of these names arrive, and the links and the
/// journal each fail at the call of the given number.
pub fn node_text(
    alloc: Global,
    files: &mut MemFiles,
    line: &str,
    frames: &str,
    links_fail: &str,
    journal_fails: &str,
) -> Result<String, Fail> {
    let mut links = links(alloc, frames, links_fail)?;
    let mut journal = sink(alloc, journal_fails)?;
    called(alloc, files, line, &mut links, &mut journal)
}
