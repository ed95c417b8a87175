//! Files of keys: for each of the other hosts the key of the link to it and that of the link from it.

ghost use Rattle.std.specs.Prelude.{◌≡◌, ◌≤◌, ◌⊎◌, Ok, Err, Some, None, IfErr, IfOk, IsSome, IsNone, length, replicate};
ghost use Rattle.std.specs.Prelude.{IfSome, IfNone, is_some, slice_set};
ghost use Rattle.host_code.specs.Sound.{IsHost};
ghost use Rattle.event_text.specs.Lines.{said_lines, words};
ghost use Rattle.js_base.specs.declared.limits.TheConstants.{HOSTS};
ghost use Rattle.node_seals.specs.Seals.{link_of, links_shape};
ghost use Rattle.node_seals.specs.SealsFile.{behind_lines, first_lacking, key_of, lacks, no_links, seals_of};
ghost use Rattle.node_seals.specs.SealsFile.{with_key, with_line, with_new};

use crate::seals::{SealedLinks, Seals};
use event_text::{Lines, host_named, next_line, three_words};
use hex::FromHex;
use host_code::Code;
use js_base::limits::HOSTS;
use js_base::{HostId, OutOfMemory};
use link_seal::{KEY_BYTES, Opener, Sealer};
use std::alloc::Global;
use thiserror::Error;

/// Bytes of the longest file of keys.
pub const SEALS_BYTES: usize = 65_536;

/// Why a file of keys gives no seals. Of several causes the first of these is told, but for want of memory. None of
/// them tells a key.
#[derive(Clone, Copy, Debug, PartialEq, Eq, Error)]
pub enum SealsError {
    #[error("out of memory")]
    OutOfMemory,
    /// The file has more than `SEALS_BYTES` bytes.
    #[error("too long")]
    TooLong,
    /// The line of this number has no form, or gives the key of a link once more.
    #[error("line {0}: no form")]
    BadLine(u32),
    /// There is no key for the link to this host, or none for that from it.
    #[error("no key for a host")]
    NoKey(HostId),
}

impl From<OutOfMemory> for SealsError {
    ghost use Rattle.std.specs.Prelude.{◌≡◌};
    ghost use Rattle.node_seals.specs.declared.seals_file.SealsError.TheVariants as error;

    ghost from_gives = { λ _ e. e ≡ error.OutOfMemory };

    fn from(_error: OutOfMemory) -> SealsError {
        SealsError::OutOfMemory
    }
}

impl Seals {
    /// The seals that a file gives the node of a host. Its lines are those of scripts: `FROM TO KEY` is the key of the
    /// link from a host to a host, in 64 hexadecimal digits of either case. Exactly one of the hosts is the node's own.
    ///
    /// # Errors
    /// Of several causes the first of these is told:
    ///
    /// 1. `TooLong`: the file has more than 65,536 bytes;
    /// 2. `BadLine`: the first line that has no form, or gives the key of a link for which a line before it gave one;
    /// 3. `NoKey`: the first other host, by number, for which not both keys are there;
    /// 4. `OutOfMemory`.
    pub fn read(alloc: Global, code: &Code, me: HostId, bytes: &[u8]) -> Result<Seals, SealsError>
        requires { IsHost code.now me }
        ensures read { IfOk result (λ seals. seals_of code.now me bytes.now ≡ Ok seals) }
        ensures refused { IfErr result (λ why.
            (why ≡ SealsError.OutOfMemory) ⊎ (seals_of code.now me bytes.now ≡ Err why)) }
    {
        if bytes.len() > SEALS_BYTES {
            return Err(SealsError::TooLong);
        }
        let links = SealedLinks::read(alloc, code, me, bytes)?;
        match links.first_lacking(me, code.hosts().len()) {
            Some(host) => Err(SealsError::NoKey(host)),
            None => Ok(Seals { links: Some(links) }),
        }
    }
}

impl SealedLinks {
    /// The links of all lines.
    fn read(alloc: Global, code: &Code, me: HostId, bytes: &[u8]) -> Result<SealedLinks, SealsError>
        requires { length bytes.now ≤ SEALS_BYTES }
        ensures read { IfOk result (λ links.
            behind_lines code.now me (said_lines bytes.now) (Ok (no_links (length code.now.hosts)))
            ≡ Ok (links_shape links)) }
        ensures refused { IfErr result (λ why. (why ≡ SealsError.OutOfMemory)
            ⊎ (behind_lines code.now me (said_lines bytes.now) (Ok (no_links (length code.now.hosts))) ≡ Err why)) }
    {
        let mut links = SealedLinks::none(alloc, code.hosts().len())?;
        let mut left = Lines { bytes, number: 1 };
        while let Some((line, after)) = next_line(left) {
            if links.take(code, me, line.bytes).is_none() {
                return Err(SealsError::BadLine(line.number));
            }
            left = after;
        }
        Ok(links)
    }

    /// No link to so many hosts and from them.
    fn none(alloc: Global, count: usize) -> Result<SealedLinks, OutOfMemory>
        ensures { IfOk result (λ links. links_shape links ≡ no_links count) }
    {
        let sealers = nothing(alloc, count)?;
        let openers = nothing(alloc, count)?;
        Ok(SealedLinks { sealers, openers })
    }

    /// Takes what a line says. It answers nothing where the line has no form, or says once more what a line before it
    /// says.
    fn take(&mut self, code: &Code, me: HostId, line: &[u8]) -> Option<()>
        ensures took { IsSome result →
            with_line code.now me (words line.now) (links_shape self.old) ≡ Some (links_shape self.new) }
        ensures bad { IsNone result → with_line code.now me (words line.now) (links_shape self.old) ≡ None }
    {
        let few = code.hosts().len() <= HOSTS;
        prove!(few);
        let (from, to, key) = three_words(line)?;
        let from = host_named(code.hosts(), from)?;
        let to = host_named(code.hosts(), to)?;
        let key = key_of(key)?;
        self.put(me, from, to, key)
    }

    /// Takes the key of a link.
    fn put(&mut self, me: HostId, from: HostId, to: HostId, key: [u8; KEY_BYTES]) -> Option<()>
        ensures took { IsSome result →
            with_key me from to key (links_shape self.old) ≡ Some (links_shape self.new) }
        ensures bad { IsNone result → with_key me from to key (links_shape self.old) ≡ None }
    {
        if from.0 == me.0 {
            if to.0 == me.0 {
                return None;
            }
            return put_new(&mut self.sealers, to, Sealer::new(key, from, to));
        }
        if to.0 == me.0 {
            return put_new(&mut self.openers, from, Opener::new(key, from, to));
        }
        None
    }

    /// The first of so many hosts, but for the node's own, to which there is no link, or from which there is none.
    fn first_lacking(&self, me: HostId, count: usize) -> Option<HostId>
        requires { count ≤ HOSTS }
        ensures { result ≡ first_lacking (links_shape self.now) me 0 count }
    {
        for number in 0..count {
            let host = HostId(number as u8);
            if self.lacks(me, host) {
                return Some(host);
            }
        }
        None
    }

    /// Whether there is no link to another host than the node's own, or none from it.
    fn lacks(&self, me: HostId, host: HostId) -> bool
        ensures { result ≡ lacks (links_shape self.now) me host }
    {
        host.0 != me.0 && (!has_link(&self.sealers, host) || !has_link(&self.openers, host))
    }
}

/// The key that a word writes.
fn key_of(word: &[u8]) -> Option<[u8; KEY_BYTES]>
    ensures { result ≡ key_of word.now }
{
    match <[u8; KEY_BYTES] as FromHex>::from_hex(word) {
        Ok(key) => Some(key),
        Err(_) => None,
    }
}

/// So many places with nothing at them.
fn nothing<T: Drop>(alloc: Global, count: usize) -> Result<Vec<Option<T>>, OutOfMemory>
    ensures { IfOk result (λ places. places.items ≡ replicate count None) }
{
    let mut places = Vec::new(alloc);
    for _ in 0..count {
        places.push(None)?;
    }
    Ok(places)
}

/// Puts the link of a host where there is none yet.
fn put_new<T: Drop>(links: &mut Vec<Option<T>>, host: HostId, link: T) -> Option<()>
    ensures took { IsSome result → with_new host link links.old.items ≡ Some links.new.items }
    ensures bad { IsNone result → with_new host link links.old.items ≡ None }
{
    let place = host.0 as usize;
    if place >= links.len() || links[place].is_some() {
        return None;
    }
    links[place] = Some(link);
    Some(())
}

/// Whether there is a link of a host.
fn has_link<T>(links: &[Option<T>], host: HostId) -> bool
    ensures { result ≡ is_some (link_of links.now host) }
{
    match links.get(host.0 as usize) {
        Some(link) => link.is_some(),
        None => false,
    }
}
