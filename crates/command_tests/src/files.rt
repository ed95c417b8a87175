//! The files of calls, in memory.

use crate::rows::{listed, marked};
use js_base::{MemFiles, MemSink};
use std::alloc::{AllocError, Global};
use std::test::Fail;

/// Behind each `#` the name of a file, and from the next line on its text. The program `P` has two fields of two
/// owners, each assigned once, and of its hosts `H` there is one for each owner: A's part sets its own field, and asks
/// B to set the other. In `handed` two hosts are handed the right to go on by a third. Of its hosts `far` the first is
/// one that two trust, then comes one of Bob's that is far from it, and one of Carol's that Alice trusts. In `told` a
/// number of Alice's rides to the host of Bob's field, and her secret `k` has no part; of its hosts `near` there is
/// one for each of the two. The events `E` and the starting values `S` are none. `K` has the keys of the links of A
/// and B, and `other_keys` has each in the place of the other.
const TEXTS: &str = "\
    #P\n\
    int{Alice:} a;\nint{Bob:} b;\nvoid main{}() {\n  a = 1;\n  b = 2;\n}\n\
    #H\n\
    principals = ['Alice', 'Bob']\n\
    [[host]]\nname = 'A'\nlabel = '{Alice:}'\n\
    [[host]]\nname = 'B'\nlabel = '{Bob:}'\n\
    #E\n\
    #S\n\
    #short\n\
    void main{}() { }\
    #handed\n\
    int{Bob:} b;\nint{Carol:; ?:Alice} d;\nvoid main{?:Alice, Dave}() {\nb = b + 1;\nd = d + 1;\n}\
    #far\n\
    principals = ['Alice', 'Bob', 'Carol', 'Dave']\n\
    [[host]]\nname = 'T'\nlabel = '{?: Alice, Dave}'\n\
    [[host]]\nname = 'H'\nlabel = '{Bob:}'\n\
    [[host]]\nname = 'D'\nlabel = '{Carol:; ?: Alice}'\n\
    [[link]]\nfrom = 'H'\nto = 'T'\ncost = 10\n\
    #told\n\
    int{Bob:} b;\nint{Alice:; ?:Alice} k;\nvoid main{?:Alice}() {\nint x = 7;\nb = b + x;\n}\
    #near\n\
    principals = ['Alice', 'Bob']\n\
    [[host]]\nname = 'T'\nlabel = '{Alice:; ?: Alice}'\n\
    [[host]]\nname = 'B'\nlabel = '{Bob:}'\n\
    #bad_program\n\
    int{} 9x;\
    #bad_start\n\
    set a 1 2\
    #bad_code\n\
    no code\
    #K\n\
    A B 000102030405060708090a0b0c0d0e0f101112131415161718191a1b1c1d1e1f\n\
    B A 202122232425262728292a2b2c2d2e2f303132333435363738393a3b3c3d3e3f\n\
    #one_key\n\
    A B 000102030405060708090a0b0c0d0e0f101112131415161718191a1b1c1d1e1f\n\
    #other_keys\n\
    A B 202122232425262728292a2b2c2d2e2f303132333435363738393a3b3c3d3e3f\n\
    B A 000102030405060708090a0b0c0d0e0f101112131415161718191a1b1c1d1e1f\n\
    #bad_keys\n\
    A B 000102030405060708090a0b0c0d0e0f101112131415161718191a1b1c1d1e1f\n\
    A B 000102030405060708090A0B0C0D0E0F101112131415161718191A1B1C1D1E1F\n";

/// Adds a file.
pub fn hold(
    alloc: Global,
    files: &mut Vec<(String, Vec<u8>)>,
    name: &str,
    text: &str,
) -> Result<(), AllocError> {
    let bytes = Vec::from_slice(alloc, text.as_bytes())?;
    let name = String::from_str(alloc, name)?;
    Ok(files.push((name, bytes))?)
}

/// The files of these names, which fail at the call of this number.
pub fn held_files(alloc: Global, names: &str, fails: &str) -> Result<MemFiles, Fail> {
    let mut files = Vec::new(alloc);
    for name in names.split_whitespace() {
        let mark = format!(in alloc; "#{name}\n")?;
        hold(alloc, &mut files, name, marked(TEXTS, mark.as_str(), "#")?)?;
    }
    Ok(MemFiles::new(files, listed(alloc, fails)?))
}

/// A sink that fails at the call of this number.
pub fn sink(alloc: Global, fails: &str) -> Result<MemSink, Fail> {
    Ok(MemSink::new(alloc, listed(alloc, fails)?))
}
