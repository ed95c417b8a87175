//! Opening the frames of a link.

ghost use Rattle.std.specs.Prelude.{◌≡◌, ◌≢◌, ◌⊎◌, ◌<◌, ◌≤◌, IfOk, IfErr, IsOk, OnOk, OnErr, Ok, Err, length};
ghost use Rattle.link_seal.specs.declared.errors.OpenError.TheVariants as refusal;
ghost use Rattle.link_seal.specs.declared.sizes.TheConstants.{HEAD_BYTES, TAG_BYTES, MOST_FRAMES};
ghost use Rattle.link_seal.specs.Links.{new_link, after_one};
ghost use Rattle.link_seal.specs.Opening.{frame_in, opens};

use crate::comparing::{is_same, is_same_tag};
use crate::errors::OpenError;
use crate::hmac_sha256::hmac;
use crate::reading::parts_of;
use crate::sizes::{HEAD_BYTES, KEY_BYTES, MOST_FRAMES};
use js_base::HostId;
use std::alloc::Global;
use std::marker::Model;

/// Opens the frames that were sealed for one link, in the order in which they were sealed. It has a key, so it can be
/// neither copied nor printed. The key stays in memory that is given back.
#[derive(Drop)]
pub struct Opener {
    key: [u8; KEY_BYTES],
    from: HostId,
    to: HostId,
    pub(crate) next: u64,
}

impl Model for Opener {
    ghost use Rattle.link_seal.specs.Links.{LinkShape};

    ghost Value = { LinkShape };

    ghost view = { λ s. record { key = s.key; from = s.from; to = s.to; next = s.next } };
}

impl Opener {
    /// Of a link that leads from one host to another, and has the key. No frame of it was opened yet.
    pub fn new(key: [u8; KEY_BYTES], from: HostId, to: HostId) -> Opener
        ensures { result ≡ new_link key from to }
    {
        Opener {
            key,
            from,
            to,
            next: 0,
        }
    }

    /// The frame that was sealed, where it is the next one of the link.
    ///
    /// # Errors
    /// The bytes are not the next frame of the link, sealed, or memory ran out. The opener is then as before. Of
    /// several causes the first of these is told, and want of memory only where there is none of them:
    ///
    /// 1. `Short`: there are fewer than four bytes;
    /// 2. `TooLong`: the length is above 4,142;
    /// 3. `Short`: fewer bytes follow than the length says, or it is below 42;
    /// 4. `Trailing`: bytes are left behind the body;
    /// 5. `BadTag`: the tag is not the HMAC of the body before it;
    /// 6. `WrongLink`: the hosts are not those of the link;
    /// 7. `WrongNumber`: the number is not the next one, or the next one is 2^63.
    pub fn open(&mut self, alloc: Global, bytes: &[u8]) -> Result<Vec<u8>, OpenError>
        ensures ok { IfOk result (λ frame. opens self.old bytes.now ≡ Ok frame.items) }
        ensures refused { IfErr result (λ error.
            (error ≡ refusal.OutOfMemory) ⊎ (opens self.old bytes.now ≡ Err error)) }
        ensures memory { IfErr result (λ error. error ≡ refusal.OutOfMemory → IsOk (opens self.old bytes.now)) }
        ensures raised { OnOk result (self.new ≡ after_one self.old) }
        ensures err { OnErr result (self.new ≡ self.old) }
    {
        let frame = self.opened(bytes)?;
        let Ok(frame) = Vec::from_slice(alloc, frame) else {
            return Err(OpenError::OutOfMemory);
        };
        self.next += 1;
        Ok(frame)
    }

    /// The frame that was sealed, in the bytes.
    #[tactic(auto, unfolding(crate::specs::Opening::opens))]
    fn opened<'a>(&self, bytes: &'a [u8]) -> Result<&'a [u8], OpenError>
        ensures ok { IfOk result (λ frame. opens self.now bytes.now ≡ Ok frame.now) }
        ensures number { IfOk result (λ _. self.now.next < MOST_FRAMES) }
        ensures refused { IfErr result (λ error. opens self.now bytes.now ≡ Err error) }
        ensures memory { IfErr result (λ error. error ≢ refusal.OutOfMemory) }
    {
        let ((text, tag), behind) = parts_of(bytes)?;
        if !behind.is_empty() {
            return Err(OpenError::Trailing);
        }
        self.frame_in(text, tag)
    }

    /// The frame in a text, where the tag is that of the text, and the text that of the next frame of the link.
    #[tactic(auto, unfolding(byte_format::specs::Numbers::word_bytes))]
    fn frame_in<'a>(&self, text: &'a [u8], tag: &[u8]) -> Result<&'a [u8], OpenError>
        requires text { HEAD_BYTES ≤ length text.now }
        requires tag { length tag.now ≡ TAG_BYTES }
        ensures ok { IfOk result (λ frame. frame_in self.now text.now tag.now ≡ Ok frame.now) }
        ensures number { IfOk result (λ _. self.now.next < MOST_FRAMES) }
        ensures refused { IfErr result (λ error. frame_in self.now text.now tag.now ≡ Err error) }
        ensures memory { IfErr result (λ error. error ≢ refusal.OutOfMemory) }
    {
        if !is_same_tag(&hmac(&self.key, text), tag) {
            return Err(OpenError::BadTag);
        }
        if !is_same(&text[..2], &[self.from.0, self.to.0]) {
            return Err(OpenError::WrongLink);
        }
        if !is_same(&text[2..HEAD_BYTES], &self.next.to_be_bytes()) || self.next >= MOST_FRAMES {
            return Err(OpenError::WrongNumber(self.next));
        }
        Ok(&text[HEAD_BYTES..])
    }
}
