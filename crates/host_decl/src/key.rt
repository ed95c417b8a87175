//! Keys of hosts: read from digits, or made from names.

ghost use Rattle.std.specs.Prelude.{◌≡◌, ◌+◌, ◌*◌, ◌<◌, IsTrue};
ghost use Rattle.std.specs.Char.{is_ascii_hexdigit, digit_value};
ghost use Rattle.sha2.specs.Sha256.{sha256};
ghost use Rattle.host_decl.specs.Schema.{is_key};
ghost use Rattle.host_decl.specs.Draft.{hex_bytes};

use sha2::{Digest, Sha256};

/// The bytes of a key. Two digits write a byte.
pub const KEY_BYTES: usize = 32;

/// The key of a host for which none is written: the digest of its name.
pub fn default_key(name: &str) -> [u8; KEY_BYTES]
    ensures { result ≡ sha256 name.now }
{
    Sha256::digest(name.as_bytes())
}

/// The bytes that the hexadecimal digits of a key write.
pub fn key_of_digits(digits: &[u8]) -> [u8; KEY_BYTES]
    requires { IsTrue (is_key digits.now) }
    ensures { result ≡ hex_bytes digits.now }
{
    let mut key = [0; KEY_BYTES];
    for place in 0..KEY_BYTES {
        key[place] = byte_of(digits[2 * place], digits[2 * place + 1]);
    }
    key
}

/// The byte that two hexadecimal digits write, the high one first.
fn byte_of(high: u8, low: u8) -> u8
    requires high { IsTrue (is_ascii_hexdigit high) }
    requires low { IsTrue (is_ascii_hexdigit low) }
    ensures { result ≡ digit_value high * 16 + digit_value low }
{
    value_of(high) * 16 + value_of(low)
}

/// What a hexadecimal digit stands for.
fn value_of(digit: u8) -> u8
    requires { IsTrue (is_ascii_hexdigit digit) }
    ensures value { result ≡ digit_value digit }
    ensures small { result < 16 }
{
    match digit {
        b'0'..=b'9' => digit - b'0',
        b'A'..=b'Z' => digit - b'A' + 10,
        _ => digit - b'a' + 10,
    }
}
