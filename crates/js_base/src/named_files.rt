//! Pairs of a name and bytes, of which the first with a name counts.

ghost use Rattle.std.specs.Prelude.{◌≡◌, ◌≢◌, List, ℕ, Some, OnOk, OnErr, option_copied, unwrap_or, []};
ghost use Rattle.std.specs.Prelude.{position, bytes_eq, string_bytes};
ghost use Rattle.js_base.specs.MemFiles.{named_bytes, held_in};

use std::alloc::{AllocError, Global};

pub(crate) type NamedFile = (String, Vec<u8>);

/// The bytes of the first file with the name.
pub(crate) fn bytes_of<'a>(files: &'a [NamedFile], name: &str) -> Option<&'a [u8]>
    ensures { option_copied result ≡ held_in (named_bytes files.now) name.now }
{
    match place_of(files, name) {
        Some(place) => Some(files[place].1.as_slice()),
        None => None,
    }
}

/// The bytes of the first file with the name, or no bytes.
pub(crate) fn bytes_or_none<'a>(files: &'a [NamedFile], name: &str) -> &'a [u8]
    ensures { result.now ≡ unwrap_or (held_in (named_bytes files.now) name.now) [] }
{
    match bytes_of(files, name) {
        Some(bytes) => bytes,
        None => &[],
    }
}

/// Replaces the bytes of the first file with the name, or adds one.
pub(crate) fn replace(
    alloc: Global,
    files: &mut Vec<NamedFile>,
    name: &str,
    bytes: &[u8],
) -> Result<(), AllocError>
    ensures ok { OnOk result (held_in (named_bytes files.new.items) name.now ≡ Some bytes.now) }
    ensures others { (other : List ℕ) → other ≢ name.now →
        held_in (named_bytes files.new.items) other ≡ held_in (named_bytes files.old.items) other }
    ensures err { OnErr result (files.new.items ≡ files.old.items) }
{
    let copy = Vec::from_slice(alloc, bytes)?;
    match place_of(files, name) {
        Some(place) => files[place].1 = copy,
        None => files.push((String::from_str(alloc, name)?, copy))?,
    }
    Ok(())
}

/// The place of the first file with the name.
fn place_of(files: &[NamedFile], name: &str) -> Option<usize>
    ensures { result ≡ position (λ file. bytes_eq name.now (string_bytes file.0)) files.now }
{
    files.iter().position(|file| name == file.0.as_str())
}
