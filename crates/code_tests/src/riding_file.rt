//! A split file of version 2: in its code the values of a variable ride.

use crate::file_bytes::{code_of, file};
use crate::file_outcomes::{changed, have_outcome};
use crate::tables::{columns, put};
use split_file::write;
use std::alloc::Global;
use std::test::Fail;

/// One label, no fields and the variable `main.v`; entries at which A begins twice and B once; no sites, the root host
/// and `main`; and two parts: that of A goes to B with the variable twice, and that of B calls A with it, and ends.
const BEHIND_HOSTS: &str = "\
    0 0 0 1 label\n\
    0 0 0 0\n\
    0 0 0 1\n\
    0 0 0 6 109 97 105 110 46 118 0 0 0 0\n\
    0 0 0 3\n\
    0 0 0 0 0 0 0 0 0 0 0 0 0 0 0 0 0\n\
    0 0 0 0 0 0 0 0 0 0 0 0 0 0 0 0 0\n\
    1 0 0 0 0 0 0 0 0 0 0 0 0 0 0 0 0\n\
    0 0 0 0\n\
    0 0 0 0 1\n\
    0 0 0 1\n\
    0 0 0 0 0 0 0 0 15 0 0 0 2 1 0 0 0 2 0 0 0 0 0 0 0 0\n\
    0 0 0 2\n\
    0 0 0 0 0 0 0 0 16 0 0 0 1 0 0 0 0 1 0 0 0 0\n\
    0 0 0 0 0 0 0 0 13";

/// Changes: the refusal, or `read`; a place and the byte that is put there; and what that changes. The places were
/// worked out by hand.
const CHANGES: &str = "\
    BadField(1662) | 9 1 | version\n\
    BadField(1654) | 1662 16 | op of A\n\
    BadField(1663) | 1666 0 | entry of A\n\
    BadField(1667) | 1666 1 | entry of A\n\
    BadField(1663) | 1666 3 | entry of A\n\
    BadField(1667) | 1667 0 | host of A\n\
    BadField(1668) | 1671 0 | count of A\n\
    BadField(1668) | 1671 9 | count of A\n\
    BadField(1668) | 1668 1 | count of A\n\
    BadField(1680) | 1671 3 | count of A\n\
    BadField(1672) | 1675 1 | first of A\n\
    BadField(1676) | 1679 1 | second of A\n\
    read | 1692 15 | op of B\n\
    BadField(1692) | 1692 17 | op of B\n\
    BadField(1697) | 1697 1 | host of B\n\
    BadField(1698) | 1701 0 | count of B";

/// The file.
fn riding_file(alloc: Global) -> Result<Vec<u8>, Fail> {
    let mut out = file(alloc, BEHIND_HOSTS)?;
    put(&mut out, 9, 2)?;
    Ok(out)
}

#[test]
fn read_and_written(rt: HostRuntime) -> Result<(), Fail> {
    let bytes = riding_file(rt.alloc())?;
    assert_eq!(rt; bytes.len(), 1715);
    let code = code_of(&rt, rt.alloc(), &bytes)?;
    let written = write(rt.alloc(), &code)?;
    assert_eq!(rt; written.as_slice(), bytes.as_slice());
    Ok(())
}

#[test]
fn changed_bytes(rt: HostRuntime) -> Result<(), Fail> {
    for row in CHANGES.lines() {
        let (wanted, changes, _changed) = columns(row);
        let bytes = changed(riding_file(rt.alloc())?, changes)?;
        have_outcome(&rt, rt.alloc(), &bytes, wanted, row)?;
    }
    Ok(())
}
