//! Split files that somebody changed: a host of which the part is not sound any more begins no node, and others do.

use crate::call::call_text;
use crate::files::held_files;
use crate::node::node_text;
use crate::rows::{bytes, cell, last_line, number, same};
use js_base::limits::SPLIT_FILE_BYTES;
use js_base::{Files, MemFiles};
use std::alloc::Global;
use std::test::Fail;

/// What a row shows, a program and its hosts, the place of the first byte that is changed in their split file `C` and
/// the bytes that stand there then, the words of a node to which a frame with nothing in it comes, and what it leaves.
///
/// In the code of `handed` the need of the entry e1 begins behind 3,163 bytes and the 26 of e0 and of e1: three labels
/// of 512 bytes stand before it, those of the three hosts, and two fields. In that of `told` the label of the variable
/// begins behind 2,652 bytes, and the label with the number 1 is that of `k`.
const ROWS: &str = "\
    a file as it was saved | handed far | 0 | 74 | \
    --code C --hosts far --host D --start S --turns 1 | bad short\nSpent\n\n\
    e1 asks for more than its need has | handed far | 3189 | 0 0 0 0 0 0 0 0 | \
    --code C --hosts far --host T --start S --turns 1 | InputRefused\n\n\
    another host has no entry with this need | handed far | 3189 | 0 0 0 0 0 0 0 0 | \
    --code C --hosts far --host H --start S --turns 1 | bad short\nSpent\n\n\
    a file as it was saved | told near | 0 | 74 | \
    --code C --hosts near --host B --start S --turns 1 | bad short\nSpent\n\n\
    a secret rides | told near | 2652 | 0 0 0 1 | \
    --code C --hosts near --host T --start S --turns 1 | InputRefused\n\n\
    the host to which it rides shows nothing | told near | 2652 | 0 0 0 1 | \
    --code C --hosts near --host B --start S --turns 1 | bad short\nSpent\n\n\
    the code of a program is not looked at | told near | 2652 | 0 0 0 1 | \
    --program told --hosts near --host B --start S --turns 1 | bad short\nSpent";

/// Puts bytes at a place of the file `C`.
fn change(alloc: Global, files: &mut MemFiles, row: &str) -> Result<(), Fail> {
    let Ok(mut code) = files.load(alloc, "C", SPLIT_FILE_BYTES) else {
        return Err(Fail::from("no code"));
    };
    let place = number(cell(row, 2))? as usize;
    for (at, byte) in bytes(alloc, cell(row, 3))?.iter().enumerate() {
        if let Some(there) = code.get_mut(place.saturating_add(at)) {
            *there = *byte;
        }
    }
    match files.save(alloc, "C", &code) {
        Ok(()) => Ok(()),
        Err(_) => Err(Fail::from("not saved")),
    }
}

/// What the node of a row leaves.
fn left(alloc: Global, row: &str) -> Result<String, Fail> {
    let mut files = held_files(alloc, "handed far told near S", "-")?;
    let words = format!(in alloc; "split {} C", cell(row, 1))?;
    let split = call_text(alloc, &mut files, words.as_str(), "-", "-")?;
    if last_line(split.as_str()) != "Done" {
        return Ok(split);
    }
    change(alloc, &mut files, row)?;
    node_text(alloc, &mut files, cell(row, 4), "NO_BYTES", "-", "-")
}

#[test]
fn hosts_look_at_their_parts(rt: HostRuntime) -> Result<(), Fail> {
    for row in ROWS.split("\n\n") {
        let left = left(rt.alloc(), row)?;
        same(&rt, row, left.as_str(), cell(row, 5));
    }
    Ok(())
}
