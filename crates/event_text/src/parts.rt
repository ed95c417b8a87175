//! The parts of a message as scripts write them.

ghost use Rattle.std.specs.Prelude.{◌≡◌, ◌≤◌, ◌<◌, ◌^◌, ◌==◌, ◌∷◌, [], length, position};
ghost use Rattle.std.specs.Prelude.{Some, None, IfSome, IfNone};
ghost use Rattle.std.specs.List.{position_or_len};
ghost use Rattle.std.specs.Str.{bytes_eq};
ghost use Rattle.host_code.specs.Code.{CodeHostShape, CodeFieldShape, CodeVariableShape};
ghost use Rattle.event_text.specs.Numbers.{number_of};
ghost use Rattle.event_text.specs.Parts.{host_named, field_of, variable_of, narrow, parts, pair_of};
ghost use Rattle.event_text.specs.Parts.{request_of, frame_of, entry_of};
ghost use Rattle.event_text.specs.Words.{one_word};

use crate::numbers::number;
use host_code::{CodeField, CodeHost, CodeVar};
use js_base::limits::HOSTS;
use js_base::{EntryId, FieldId, FrameId, HostId, RequestId, SiteId, VarId};

/// The first host of the name.
pub fn host_named(hosts: &[CodeHost], name: &[u8]) -> Option<HostId>
    requires { length hosts.now ≤ HOSTS }
    ensures host { result ≡ host_named hosts.now name.now }
    ensures within { IfSome result (λ host. host.0 < HOSTS) }
{
    let place = place_of_host(hosts, name)?;
    Some(HostId(place as u8))
}

/// The first place of the name among hosts.
fn place_of_host(hosts: &[CodeHost], name: &[u8]) -> Option<usize>
    ensures place { result ≡ position (λ (host : CodeHostShape). bytes_eq name.now host.name) hosts.now }
    ensures within { IfSome result (λ place. place < length hosts.now) }
{
    hosts.iter().position(|host| name == host.name().as_bytes())
}

/// The first field of the name.
pub fn field_of(fields: &[CodeField], name: &[u8]) -> Option<FieldId>
    requires { length fields.now < 2 ^ 32 }
    ensures { result ≡ field_of fields.now name.now }
{
    let place = place_of_field(fields, name)?;
    Some(FieldId(place as u32))
}

/// The first place of the name among fields.
fn place_of_field(fields: &[CodeField], name: &[u8]) -> Option<usize>
    ensures place { result ≡ position (λ (field : CodeFieldShape). bytes_eq name.now field.name) fields.now }
    ensures within { IfSome result (λ place. place < length fields.now) }
{
    fields
        .iter()
        .position(|field| name == field.name().as_bytes())
}

/// The first variable of the name.
pub fn variable_of(vars: &[CodeVar], name: &[u8]) -> Option<VarId>
    requires { length vars.now < 2 ^ 32 }
    ensures { result ≡ variable_of vars.now name.now }
{
    let place = place_of_variable(vars, name)?;
    Some(VarId(place as u32))
}

/// The first place of the name among variables.
fn place_of_variable(vars: &[CodeVar], name: &[u8]) -> Option<usize>
    ensures place { result
        ≡ position (λ (variable : CodeVariableShape). bytes_eq name.now variable.name) vars.now }
    ensures within { IfSome result (λ place. place < length vars.now) }
{
    vars.iter().position(|var| name == var.name().as_bytes())
}

/// What stands before the first mark in a word, and what behind it.
pub fn cut(word: &[u8], mark: u8) -> Option<(&[u8], &[u8])>
    ensures none { IfNone result (parts mark word.now ≡ word.now ∷ []) }
    ensures some { IfSome result (λ it. parts mark word.now ≡ it.0.now ∷ parts mark it.1.now) }
{
    let end = len_before(word, mark);
    if end == word.len() {
        return None;
    }
    Some((&word[..end], &word[end + 1..]))
}

/// The word, where no mark stands in it.
#[tactic(auto, using(crate::proofs::MarkedParts::no_one))]
pub fn one_part(word: &[u8], mark: u8) -> Option<&[u8]>
    ensures none { IfNone result (one_word (parts mark word.now) ≡ None) }
    ensures some { IfSome result (λ only. one_word (parts mark word.now) ≡ Some only.now) }
{
    match cut(word, mark) {
        Some(_) => None,
        None => Some(word),
    }
}

/// How many bytes stand before the first mark.
fn len_before(word: &[u8], mark: u8) -> usize
    ensures len { result ≡ position_or_len (λ byte. byte == mark) word.now }
    ensures within { result ≤ length word.now }
{
    word.iter().take_while(|byte| **byte != mark).count()
}

/// The number of 32 bits that a word writes.
fn narrow(word: &[u8]) -> Option<u32>
    ensures { result ≡ narrow (number_of word.now) }
{
    u32::try_from(number(word)?).ok()
}

/// The two numbers that a word writes with a point between them.
fn pair_of(word: &[u8]) -> Option<(u32, u64)>
    ensures { result ≡ pair_of word.now }
{
    let (first, rest) = cut(word, b'.')?;
    let second = one_part(rest, b'.')?;
    let first = narrow(first)?;
    let second = number(second)?;
    Some((first, second))
}

/// The request that a word writes.
pub fn request_of(word: &[u8]) -> Option<RequestId>
    ensures { result ≡ request_of word.now }
{
    let (at, count) = pair_of(word)?;
    Some(RequestId { at, count })
}

/// The frame that a word writes.
pub fn frame_of(word: &[u8]) -> Option<FrameId>
    ensures { result ≡ frame_of word.now }
{
    let (site, count) = pair_of(word)?;
    Some(FrameId {
        site: SiteId(site),
        count,
    })
}

/// The entry that a word writes.
pub fn entry_of(word: &[u8]) -> Option<EntryId>
    ensures { result ≡ entry_of word.now }
{
    match word {
        [b'e', digits @ ..] => Some(EntryId(narrow(digits)?)),
        _ => None,
    }
}
