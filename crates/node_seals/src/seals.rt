//! The seals of a node: sealers of the links to the other hosts, and openers of the links from them.

ghost use Rattle.std.specs.Prelude.{◌≡◌, ℕ, List, None, Some, IfOk, OnOk, OnErr, option_map};
ghost use Rattle.js_base.specs.declared.ids.HostId.{HostId};
ghost use Rattle.link_seal.specs.Links.{after_one, next_sealed};
ghost use Rattle.node_seals.specs.Seals.{after_opened, after_sealing, link_behind, links_shape, opened_by, opened_of};
ghost use Rattle.node_seals.specs.Seals.{opened_shape};
ghost use Rattle.node_seals.specs.Seals.{string_for, unsealed};

use js_base::{HostId, OutOfMemory};
use link_seal::{OpenError, Opener, Sealer};
use std::alloc::Global;
use std::marker::Model;

/// The seals of a node. They have keys, so they can be neither copied nor printed. The keys stay in memory that is
/// given back.
#[derive(Drop)]
pub struct Seals {
    pub(crate) links: Option<SealedLinks>,
}

impl Model for Seals {
    ghost use Rattle.node_seals.specs.Seals.{SealsShape, links_shape};
    ghost use Rattle.std.specs.Prelude.{option_map};

    ghost Value = { SealsShape };

    ghost view = { λ seals. option_map links_shape seals.links };
}

/// The links of a node, by the number of the other host. There is none at the number of the node's own.
#[derive(Drop)]
pub(crate) struct SealedLinks {
    /// those that lead to the other hosts
    pub(crate) sealers: Vec<Option<Sealer>>,
    /// and those that lead from them
    pub(crate) openers: Vec<Option<Opener>>,
}

/// What bytes come to that arrived.
#[derive(Drop)]
pub enum Opened {
    /// Nothing is sealed, so they are taken as they are.
    AsTheyAre,
    /// They are not the next frame of a link to the node.
    Refused,
    /// They are the next frame of the link from this host, which is the frame.
    Unsealed(HostId, Vec<u8>),
}

impl Seals {
    /// Seals with which nothing is sealed.
    pub fn none() -> Seals
        ensures { result ≡ None }
    {
        Seals { links: None }
    }

    /// What goes out to a host for a frame: the frame itself where nothing is sealed, and otherwise the sealed one. It
    /// is nothing where there is no link to that host.
    ///
    /// # Errors
    /// The seals are then as before. It also answers want of memory where no more frames can be sealed for the link.
    pub fn sealed(
        &mut self,
        alloc: Global,
        to: HostId,
        frame: Vec<u8>,
    ) -> Result<Option<Vec<u8>>, OutOfMemory>
        ensures ok { IfOk result (λ out.
            option_map (λ bytes. bytes.items) out ≡ string_for self.old to frame.items) }
        ensures raised { OnOk result (self.new ≡ after_sealing to self.old) }
        ensures err { OnErr result (self.new ≡ self.old) }
    {
        match &mut self.links {
            None => Ok(Some(frame)),
            Some(links) => links.sealed(alloc, to, &frame),
        }
    }

    /// What bytes come to that arrived.
    ///
    /// # Errors
    /// The seals are then as before. Want of memory comes only where the bytes are to be opened.
    pub fn opened(&mut self, alloc: Global, bytes: &[u8]) -> Result<Opened, OutOfMemory>
        ensures ok { IfOk result (λ opened. opened_shape opened ≡ opened_of self.old bytes.now) }
        ensures raised { OnOk result (self.new ≡ after_opened (opened_of self.old bytes.now) self.old) }
        ensures err { OnErr result (self.new ≡ self.old) }
        ensures memory { OnErr result
            ((from : HostId) × (frame : List ℕ) × (opened_of self.old bytes.now ≡ unsealed from frame)) }
    {
        match &mut self.links {
            None => Ok(Opened::AsTheyAre),
            Some(links) => links.opened(alloc, bytes),
        }
    }
}

impl SealedLinks {
    /// The frame as it is sealed for the link to a host; nothing where there is no link to it.
    fn sealed(
        &mut self,
        alloc: Global,
        to: HostId,
        frame: &[u8],
    ) -> Result<Option<Vec<u8>>, OutOfMemory>
        ensures ok { IfOk result (λ out. option_map (λ bytes. bytes.items) out
            ≡ string_for (Some (links_shape self.old)) to frame.now) }
        ensures raised { OnOk result
            (Some (links_shape self.new) ≡ after_sealing to (Some (links_shape self.old))) }
        ensures err { OnErr result (links_shape self.new ≡ links_shape self.old) }
    {
        let place = to.0 as usize;
        if place >= self.sealers.len() {
            return Ok(None);
        }
        sealed_by(&mut self.sealers[place], alloc, frame)
    }

    /// What bytes come to that arrived.
    fn opened(&mut self, alloc: Global, bytes: &[u8]) -> Result<Opened, OutOfMemory>
        ensures ok { IfOk result (λ opened.
            opened_shape opened ≡ opened_of (Some (links_shape self.old)) bytes.now) }
        ensures raised { OnOk result (Some (links_shape self.new)
            ≡ after_opened (opened_of (Some (links_shape self.old)) bytes.now) (Some (links_shape self.old))) }
        ensures err { OnErr result (links_shape self.new ≡ links_shape self.old) }
        ensures memory { OnErr result ((from : HostId) × (frame : List ℕ)
            × (opened_of (Some (links_shape self.old)) bytes.now ≡ unsealed from frame)) }
    {
        // Behind the four bytes of the length stands the number of the host.
        let [_, _, _, _, number, ..] = bytes else {
            return Ok(Opened::Refused);
        };
        let place = *number as usize;
        if place >= self.openers.len() {
            return Ok(Opened::Refused);
        }
        opened_by(&mut self.openers[place], alloc, HostId(*number), bytes)
    }
}

/// A frame as it is sealed for a link, where there is one.
fn sealed_by(
    link: &mut Option<Sealer>,
    alloc: Global,
    frame: &[u8],
) -> Result<Option<Vec<u8>>, OutOfMemory>
    ensures ok { IfOk result (λ out. option_map (λ bytes. bytes.items) out
        ≡ option_map (λ link. next_sealed link frame.now) link.old) }
    ensures raised { OnOk result (link.new ≡ option_map after_one link.old) }
    ensures err { OnErr result (link.new ≡ link.old) }
{
    let Some(sealer) = link else {
        return Ok(None);
    };
    match sealer.seal(alloc, frame) {
        Ok(bytes) => Ok(Some(bytes)),
        // Frames are short, and so it answers else only that 2^63 of them were sealed.
        Err(_) => Err(OutOfMemory),
    }
}

/// What bytes come to, on the link from a host, where there is one.
fn opened_by(
    link: &mut Option<Opener>,
    alloc: Global,
    from: HostId,
    bytes: &[u8],
) -> Result<Opened, OutOfMemory>
    ensures ok { IfOk result (λ opened. opened_shape opened ≡ opened_by from link.old bytes.now) }
    ensures raised { OnOk result (link.new ≡ link_behind (opened_by from link.old bytes.now) link.old) }
    ensures err { OnErr result (link.new ≡ link.old) }
    ensures memory { OnErr result ((frame : List ℕ) × (opened_by from link.old bytes.now ≡ unsealed from frame)) }
{
    let Some(opener) = link else {
        return Ok(Opened::Refused);
    };
    match opener.open(alloc, bytes) {
        Ok(frame) => Ok(Opened::Unsealed(from, frame)),
        Err(OpenError::OutOfMemory) => Err(OutOfMemory),
        Err(_) => Ok(Opened::Refused),
    }
}
