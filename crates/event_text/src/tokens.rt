//! Tokens as scripts, reports and journals write them.

ghost use Rattle.std.specs.Prelude.{◌≡◌, ◌≤◌, ◌<◌, length, Some};
ghost use Rattle.event_text.specs.Parts.{parts, colon};
ghost use Rattle.event_text.specs.Acts.{among, own_in, token_of, printed_token, read_token};

use crate::event::BadToken;
use crate::numbers::number;
use crate::parts::{cut, entry_of, frame_of, host_named, one_part};
use capability::{TAG_BYTES, Token};
use host_code::CodeHost;
use js_base::HostId;
use js_base::bits::has_bit;
use js_base::limits::HOSTS;

/// How tokens are written.
#[derive(Clone, Copy)]
pub enum Tokens {
    /// As scripts present them: `#N`, or `own:HOST:FRAME:ENTRY:SERIAL` of a misbehaving host. Bit h says that host h
    /// misbehaves.
    Presented(u16),
    /// As reports and journals print them: `HOST:FRAME:ENTRY:SERIAL`, of any host.
    Printed,
}

/// The token that a word writes, where tokens are written so.
pub fn token_read(hosts: &[CodeHost], tokens: Tokens, word: &[u8]) -> Option<BadToken>
    requires { length hosts.now ≤ HOSTS }
    ensures { result ≡ read_token hosts.now tokens word.now }
{
    match tokens {
        Tokens::Presented(bad) => token_of(hosts, bad, word),
        Tokens::Printed => printed_token(hosts, word),
    }
}

/// The token that a script presents by a word.
fn token_of(hosts: &[CodeHost], bad: u16, word: &[u8]) -> Option<BadToken>
    requires { length hosts.now ≤ HOSTS }
    ensures { result ≡ token_of hosts.now bad word.now }
{
    match word {
        [] => None,
        [b'#', digits @ ..] => Some(BadToken::Sent(number(digits)?)),
        _ => own_token(hosts, bad, word),
    }
}

/// The token of a misbehaving host that a word writes.
fn own_token(hosts: &[CodeHost], bad: u16, word: &[u8]) -> Option<BadToken>
    requires { length hosts.now ≤ HOSTS }
    ensures { result ≡ own_in hosts.now bad (parts colon word.now) }
{
    let (mark, rest) = cut(word, b':')?;
    if mark != b"own".as_slice() {
        return None;
    }
    let (host, rest) = cut(rest, b':')?;
    let (frame, rest) = cut(rest, b':')?;
    let (entry, rest) = cut(rest, b':')?;
    let serial = one_part(rest, b':')?;
    let host = among(bad, host_named(hosts, host)?)?;
    let frame = frame_of(frame)?;
    let entry = entry_of(entry)?;
    let serial = number(serial)?;
    Some(BadToken::Own(Token {
        host,
        frame,
        entry,
        serial,
        tag: [0; TAG_BYTES],
    }))
}

/// The host where it misbehaves.
fn among(bad: u16, host: HostId) -> Option<HostId>
    requires { host.0 < HOSTS }
    ensures { result ≡ among bad (Some host) }
{
    if has_bit(bad as u64, host.0) {
        Some(host)
    } else {
        None
    }
}

/// The token that a word prints, with a tag of zeros, since no tag is printed.
fn printed_token(hosts: &[CodeHost], word: &[u8]) -> Option<BadToken>
    requires { length hosts.now ≤ HOSTS }
    ensures { result ≡ printed_token hosts.now word.now }
{
    let (host, rest) = cut(word, b':')?;
    let (frame, rest) = cut(rest, b':')?;
    let (entry, rest) = cut(rest, b':')?;
    let serial = one_part(rest, b':')?;
    let host = host_named(hosts, host)?;
    let frame = frame_of(frame)?;
    let entry = entry_of(entry)?;
    let serial = number(serial)?;
    Some(BadToken::Own(Token {
        host,
        frame,
        entry,
        serial,
        tag: [0; TAG_BYTES],
    }))
}
