//! What a host file says that no command prints, and the longest one.

use crate::tables::told;
use host_decl::{HostRow, KEY_BYTES, read_hosts};
use std::alloc::{AllocError, Global};
use std::test::Fail;

const FILE: &str = "principals = []\n\
    [[host]]\nname = 'A'\nlabel = '{}'\n\
    [[host]]\nname = 'B'\nlabel = '{}'\npath = '/run/b'\n\
    key = '000102030405060708090a0b0c0d0e0f101112131415161718191a1B1C1D1E1F'\n";

/// The path and the key of each host. A's key is SHA-256 of the letter A, as other programs compute it, and B's is the
/// one that the file writes.
const EXPECTED: &str = "\
    A.sock 559aead08264d5795d3909718cdd05abd49572e84fe55590eef31a88a08fdffd\n\
    /run/b 000102030405060708090a0b0c0d0e0f101112131415161718191a1b1c1d1e1f\n";

/// The digits of a key.
fn push_key(text: &mut String, alloc: Global, key: &[u8; KEY_BYTES]) -> Result<(), AllocError> {
    for byte in key {
        text.push_str(format!(in alloc; "{byte:02x}")?.as_str())?;
    }
    Ok(())
}

/// The paths and keys of hosts.
fn paths_and_keys(alloc: Global, hosts: &[HostRow]) -> Result<String, AllocError> {
    let mut text = String::new(alloc);
    for host in hosts {
        text.push_str(host.path())?;
        text.push_str(" ")?;
        push_key(&mut text, alloc, host.key())?;
        text.push_str("\n")?;
    }
    Ok(text)
}

/// Where a host file gives no path and no key, they come from the name.
#[test]
fn keys_and_paths(rt: HostRuntime) -> Result<(), Fail> {
    let hosts = read_hosts(rt.alloc(), FILE.as_bytes())?;
    let found = paths_and_keys(rt.alloc(), hosts.hosts())?;
    assert_eq!(rt; found.as_str(), EXPECTED);
    Ok(())
}

/// That a file is too long comes before that it is no TOML.
#[test]
fn the_longest_file(rt: HostRuntime) -> Result<(), Fail> {
    let alloc = rt.alloc();
    let blank = vec![in alloc; b'\n'; 65_536]?;
    let longest = told(alloc, read_hosts(alloc, &blank).err())?;
    assert_eq!(rt; longest.as_str(), "BadKey(\"principals\")");
    let equal_signs = vec![in alloc; b'='; 65_537]?;
    let longer = told(alloc, read_hosts(alloc, &equal_signs).err())?;
    assert_eq!(rt; longer.as_str(), "TooLong");
    Ok(())
}
