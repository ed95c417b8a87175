//! Names, as programs, host files and codes have them: an ASCII letter or `_`, then ASCII letters, digits and `_`, and
//! no keyword of the language.

ghost use Rattle.std.specs.Prelude.{◌≡◌, IfOk};
ghost use Rattle.std.specs.List.{list_all, list_any};
ghost use Rattle.std.specs.Str.{bytes_eq};
ghost use Rattle.std.specs.String.{string_bytes};
ghost use Rattle.js_base.specs.Name.{IsName, is_name, starts_name, continues_name, keywords};

use crate::OutOfMemory;
use crate::text::owned_text;
use std::alloc::Global;

/// The byte `_`, which stands in names as a letter does.
pub const UNDERSCORE: u8 = b'_';

/// Whether the byte is an ASCII letter or `_`.
pub fn starts_name(byte: u8) -> bool
    ensures { result ≡ starts_name byte }
{
    byte.is_ascii_alphabetic() || byte == UNDERSCORE
}

/// Whether the byte is an ASCII letter, a digit or `_`.
pub fn continues_name(byte: u8) -> bool
    ensures { result ≡ continues_name byte }
{
    starts_name(byte) || byte.is_ascii_digit()
}

/// Whether each byte may stand in a name after its first.
fn all_continue_name(bytes: &[u8]) -> bool
    ensures { result ≡ list_all continues_name bytes.now }
{
    bytes.iter().all(|byte| continues_name(*byte))
}

/// Whether the bytes are a word that the language has for itself.
fn is_keyword(text: &[u8]) -> bool
    ensures { result ≡ list_any (bytes_eq text.now) keywords }
{
    text == b"int".as_slice()
        || text == b"void".as_slice()
        || text == b"if".as_slice()
        || text == b"else".as_slice()
        || text == b"while".as_slice()
        || text == b"return".as_slice()
        || text == b"where".as_slice()
        || text == b"authority".as_slice()
        || text == b"declassify".as_slice()
        || text == b"endorse".as_slice()
}

/// Whether the bytes are a name.
pub fn is_name(text: &[u8]) -> bool
    ensures { result ≡ is_name text.now }
{
    match text.split_first() {
        None => false,
        Some((first, rest)) => {
            starts_name(*first) && all_continue_name(rest) && !is_keyword(text)
        }
    }
}

/// An owned copy of a name, as a text.
pub fn name_text(alloc: Global, name: &[u8]) -> Result<String, OutOfMemory>
    requires { IsName name.now }
    ensures { IfOk result (λ text. string_bytes text ≡ name.now) }
{
    let text = str::from_utf8(name).unwrap();
    owned_text(alloc, text)
}
