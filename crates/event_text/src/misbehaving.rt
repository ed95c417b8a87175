//! The lines that name the hosts that misbehave.

ghost use Rattle.std.specs.Prelude.{◌≡◌, ◌≤◌, ◌<◌, ◌+◌, ◌^◌, length, bit_or, IfSome};
ghost use Rattle.std.specs.Str.Lines.{lines};
ghost use Rattle.event_text.specs.Lines.{words, said_from};
ghost use Rattle.event_text.specs.Misbehaving.{bad_of, bad_in_front, past_bad, with_hosts};

use crate::lines::{Lines, next_line};
use crate::parts::host_named;
use crate::words::{first_word, one_word};
use host_code::CodeHost;
use js_base::HostId;
use js_base::limits::{HOSTS, SCRIPT_BYTES};

/// A word with the bit of each host that the lines name, up to the first line that names none, and what is left from
/// it on.
pub fn take_bad<'a>(hosts: &[CodeHost], from: Lines<'a>) -> (u16, Lines<'a>)
    requires hosts { length hosts.now ≤ HOSTS }
    requires few { from.number + length from.bytes.now ≤ SCRIPT_BYTES + 1 }
    ensures bad { result.0 ≡ with_hosts 0
        (bad_in_front hosts.now (said_from from.entry.number (lines from.entry.bytes.now))) }
    ensures left { said_from result.1.number (lines result.1.bytes.now)
        ≡ past_bad hosts.now (said_from from.entry.number (lines from.entry.bytes.now)) }
    ensures few { result.1.number + length result.1.bytes.now ≤ SCRIPT_BYTES + 1 }
{
    let mut bad = 0;
    let mut left = from;
    while let Some((line, after)) = next_line(left) {
        let Some(host) = bad_of(hosts, line.bytes) else {
            return (bad, left);
        };
        bad = with_host(bad, host);
        left = after;
    }
    (bad, left)
}

/// The host that a line names.
fn bad_of(hosts: &[CodeHost], line: &[u8]) -> Option<HostId>
    requires { length hosts.now ≤ HOSTS }
    ensures host { result ≡ bad_of hosts.now (words line.now) }
    ensures within { IfSome result (λ host. host.0 < HOSTS) }
{
    let (verb, operands) = first_word(line)?;
    if verb != b"bad".as_slice() {
        return None;
    }
    host_named(hosts, one_word(operands)?)
}

/// A word with the bit of a host too.
fn with_host(word: u16, host: HostId) -> u16
    requires { host.0 < HOSTS }
    ensures { result ≡ bit_or word (2 ^ host.0) }
{
    word | (1 << host.0)
}
