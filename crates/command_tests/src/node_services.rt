//! What a node sends and notes while it serves, and how it ends.

use crate::call::call_text;
use crate::files::held_files;
use crate::node::node_text;
use crate::rows::{cell, last_line, same};
use js_base::MemFiles;
use std::alloc::Global;
use std::process::Abort;
use std::test::Fail;

/// The files of all nodes.
const HELD: &str = "P H S K other_keys";

/// The root A, which tells B of its end.
///
/// Each row has what it shows, the words, the frames that arrive, the calls of the links and of the journal that fail,
/// and what the node leaves.
const ROOT_ROWS: &str = "\
    its whole run | \
    --program P --hosts H --host A --start S --turns 4 | ACK | - | - | \
    turn\nturn\nsend B set 1.0 b 0 2\ntake B ack 1.0\nturn\n\
    Done, B SET, B DONE\n\n\
    that another host is done doesn't end it | \
    --program P --hosts H --host A --start S --turns 5 | DONE_OF_B ACK | - | - | \
    turn\nturn\nsend B set 1.0 b 0 2\ndone B\ntake B ack 1.0\nturn\n\
    Done, B SET, B DONE\n\n\
    the first call of the links is the send | \
    --program P --hosts H --host A --start S --turns 4 | ACK | 0 | - | \
    turn\nturn\n\
    LinkFault\n\n\
    the turn is noted before its message is sent | \
    --program P --hosts H --host A --start S --turns 4 | ACK | - | 1 | \
    turn\n\
    OutFault";

/// The host B, which answers A until it hears of the end. Its rows are like the root's.
const OTHER_ROWS: &str = "\
    one request | \
    --program P --hosts H --host B --start S --turns 1 | SET | - | - | \
    take A set 1.0 b 0 2\nsend A ack 1.0\n\
    Spent, A ACK\n\n\
    no frame is left | \
    --program P --hosts H --host B --start S --turns 2 | SET | - | - | \
    take A set 1.0 b 0 2\nsend A ack 1.0\n\
    LinkFault, A ACK\n\n\
    what is no message for it counts as a turn | \
    --program P --hosts H --host B --start S --turns 4 | NO_BYTES ONE_BYTE SET_OF_B SET | - | - | \
    bad short\nbad short\nbad field\ntake A set 1.0 b 0 2\nsend A ack 1.0\n\
    Spent, A ACK\n\n\
    the end of the root | \
    --program P --hosts H --host B --start S --turns 5 | SET DONE | - | - | \
    take A set 1.0 b 0 2\nsend A ack 1.0\ndone A\n\
    Done, A ACK\n\n\
    its own word doesn't end it | \
    --program P --hosts H --host B --start S --turns 1 | DONE_OF_B | - | - | \
    bad field\n\
    Spent";

/// A's run of the code of a split file, as a row like the root's.
const SPLIT_ROW: &str = "\
    the code of a split file | \
    --code C --hosts H --host A --start S --turns 4 | ACK | - | - | \
    turn\nturn\nsend B set 1.0 b 0 2\ntake B ack 1.0\nturn\n\
    Done, B SET, B DONE";

/// A row holds over these files.
fn holds(rt: &impl Abort, alloc: Global, files: &mut MemFiles, row: &str) -> Result<(), Fail> {
    let left = node_text(
        alloc,
        files,
        cell(row, 1),
        cell(row, 2),
        cell(row, 3),
        cell(row, 4),
    )?;
    same(rt, row, left.as_str(), cell(row, 5));
    Ok(())
}

/// Each row of a table holds.
pub fn all_hold(rt: &impl Abort, alloc: Global, rows: &str) -> Result<(), Fail> {
    for row in rows.split("\n\n") {
        holds(rt, alloc, &mut held_files(alloc, HELD, "-")?, row)?;
    }
    Ok(())
}

#[test]
fn the_root_runs_to_its_end(rt: HostRuntime) -> Result<(), Fail> {
    all_hold(&rt, rt.alloc(), ROOT_ROWS)
}

#[test]
fn another_host_serves_the_root(rt: HostRuntime) -> Result<(), Fail> {
    all_hold(&rt, rt.alloc(), OTHER_ROWS)
}

#[test]
fn the_code_of_a_split_file_runs_alike(rt: HostRuntime) -> Result<(), Fail> {
    let alloc = rt.alloc();
    let mut files = held_files(alloc, HELD, "-")?;
    let left = call_text(alloc, &mut files, "split P H C", "-", "-")?;
    same(&rt, "split P H C", last_line(left.as_str()), "Done");
    holds(&rt, alloc, &mut files, SPLIT_ROW)
}
