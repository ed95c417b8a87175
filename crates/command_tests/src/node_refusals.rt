//! Where no node begins, nothing is sent and nothing is noted.

use crate::files::held_files;
use crate::node::node_text;
use crate::rows::{cell, same};
use std::alloc::Global;
use std::test::Fail;

/// The number of the call of the files that fails, the status, and the words. Those of the first rows ask for no node.
/// Others name a file that is absent or refused, or no host.
const REFUSED: &str = "\
    - | Usage | \n\
    - | Usage | --program P --code P --hosts H --host A --start S --turns 4\n\
    - | Usage | --hosts H --host A --start S --turns 4\n\
    - | Usage | --program P --hosts H --host A --start S --turns 0\n\
    - | Usage | --program P --hosts H --host A --start S --turns 01\n\
    - | Usage | --help\n\
    - | Usage | --program P --hosts H --host A --host A --start S --turns 4\n\
    - | InputRefused | --program P --hosts H --host X --start S --turns 4\n\
    - | InputRefused | --program Q --hosts H --host A --start S --turns 4\n\
    - | InputRefused | --program P --hosts Q --host A --start S --turns 4\n\
    - | InputRefused | --program P --hosts H --host A --start bad_start --turns 4\n\
    - | InputRefused | --code bad_code --hosts H --host A --start S --turns 4\n\
    - | SourceRefused | --program bad_program --hosts H --host A --start S --turns 4\n\
    0 | FileFault | --program P --hosts H --host A --start S --turns 4\n\
    1 | FileFault | --program P --hosts H --host A --start S --turns 4\n\
    2 | FileFault | --program P --hosts H --host A --start S --turns 4\n\
    - | Usage | --program P --hosts H --host A --start S --turns 4 --seals K --seals K\n\
    - | InputRefused | --program P --hosts H --host A --start S --turns 4 --seals Q\n\
    - | InputRefused | --program P --hosts H --host A --start S --turns 4 --seals one_key\n\
    - | InputRefused | --program P --hosts H --host A --start S --turns 4 --seals bad_keys\n\
    - | InputRefused | --program P --hosts H --host A --start S --turns 4 --seals S\n\
    3 | FileFault | --program P --hosts H --host A --start S --turns 4 --seals K\n";

/// What the call of a row leaves.
fn left(alloc: Global, row: &str) -> Result<String, Fail> {
    let held = "P H S K one_key bad_keys bad_program bad_start bad_code";
    let mut files = held_files(alloc, held, cell(row, 0))?;
    node_text(alloc, &mut files, cell(row, 2), "ACK", "-", "-")
}

#[test]
fn refused_nodes_leave_nothing(rt: HostRuntime) -> Result<(), Fail> {
    for row in REFUSED.lines() {
        let left = left(rt.alloc(), row)?;
        // No line of the journal stands before the status, and no frame behind it.
        same(&rt, row, left.as_str(), cell(row, 1));
    }
    Ok(())
}
