//! Frames of each kind are read from their bytes, and written as these bytes again.

use crate::frame_samples::FRAMES;
use crate::tables::{bytes, columns};
use std::alloc::Global;
use std::process::Abort;
use std::test::Fail;
use wire_msg::{read, write};

/// The bytes are read as what is said, and what was read is written as the bytes.
fn is_spelled(rt: &impl Abort, alloc: Global, bytes: &[u8], said: &str) -> Result<(), Fail> {
    let (from, frame) = read(bytes)?;
    let found = format!(in alloc; "{from:?} {frame:?}")?;
    assert_eq!(rt; found.as_str(), said);
    let written = write(alloc, from, &frame)?;
    assert_eq!(rt; written.as_slice(), bytes, "{said}");
    Ok(())
}

#[test]
fn each_kind(rt: HostRuntime) -> Result<(), Fail> {
    for row in FRAMES.lines() {
        let (_kind, numbers, said) = columns(row);
        let bytes = bytes(rt.alloc(), numbers)?;
        is_spelled(&rt, rt.alloc(), &bytes, said)?;
    }
    Ok(())
}
