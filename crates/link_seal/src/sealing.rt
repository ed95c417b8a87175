//! Sealing the frames of a link.

ghost use Rattle.std.specs.Prelude.{◌≡◌, ◌<◌, ◌≤◌, IfOk, IfErr, OnOk, OnErr, length};
ghost use Rattle.link_seal.specs.declared.errors.SealError.TheVariants as refusal;
ghost use Rattle.link_seal.specs.declared.sizes.TheConstants.{MOST_FRAMES, MOST_FRAME_BYTES};
ghost use Rattle.link_seal.specs.Links.{new_link, after_one, text_of, sealed, next_sealed, CanSeal};

use crate::errors::SealError;
use crate::hmac_sha256::hmac;
use crate::sizes::{HEAD_BYTES, KEY_BYTES, MOST_FRAME_BYTES, MOST_FRAMES, TAG_BYTES};
use byte_format::{put_byte, put_number, put_word};
use js_base::{HostId, OutOfMemory};
use std::alloc::Global;
use std::marker::Model;

/// Seals the frames of one link, each under the next number. It has a key, so it can be neither copied nor printed. The
/// key stays in memory that is given back.
#[derive(Drop)]
pub struct Sealer {
    key: [u8; KEY_BYTES],
    from: HostId,
    to: HostId,
    pub(crate) next: u64,
}

impl Model for Sealer {
    ghost use Rattle.link_seal.specs.Links.{LinkShape};

    ghost Value = { LinkShape };

    ghost view = { λ s. record { key = s.key; from = s.from; to = s.to; next = s.next } };
}

impl Sealer {
    /// Of a link that leads from one host to another, and has the key. No frame of it was sealed yet.
    pub fn new(key: [u8; KEY_BYTES], from: HostId, to: HostId) -> Sealer
        ensures { result ≡ new_link key from to }
    {
        Sealer {
            key,
            from,
            to,
            next: 0,
        }
    }

    /// The frame, sealed under the next number of the link.
    ///
    /// # Errors
    /// The sealer is then as before. Of several causes the first of these is told:
    ///
    /// 1. `TooLong`: the frame has more than 4,100 bytes;
    /// 2. `Ended`: 2^63 frames were sealed;
    /// 3. `OutOfMemory`.
    pub fn seal(&mut self, alloc: Global, frame: &[u8]) -> Result<Vec<u8>, SealError>
        ensures ok { IfOk result (λ bytes.
            CanSeal self.old.next frame.now × (bytes.items ≡ next_sealed self.old frame.now)) }
        ensures raised { OnOk result (self.new ≡ after_one self.old) }
        ensures err { OnErr result (self.new ≡ self.old) }
        ensures too_long { IfErr result (λ error. error ≡ refusal.TooLong → MOST_FRAME_BYTES < length frame.now) }
        ensures ended { IfErr result (λ error. error ≡ refusal.Ended →
            (length frame.now ≤ MOST_FRAME_BYTES) × (MOST_FRAMES ≤ self.old.next)) }
        ensures memory { IfErr result (λ error. error ≡ refusal.OutOfMemory → CanSeal self.old.next frame.now) }
    {
        if frame.len() > MOST_FRAME_BYTES {
            return Err(SealError::TooLong);
        }
        if self.next >= MOST_FRAMES {
            return Err(SealError::Ended);
        }
        let sealed = self.sealed(alloc, frame)?;
        self.next += 1;
        Ok(sealed)
    }

    /// The length, the text and the tag of a frame under the next number.
    #[tactic(auto, unfolding(byte_format::specs::Numbers::word_bytes))]
    fn sealed(&self, alloc: Global, frame: &[u8]) -> Result<Vec<u8>, OutOfMemory>
        requires { length frame.now ≤ MOST_FRAME_BYTES }
        ensures { IfOk result (λ bytes. bytes.items ≡ next_sealed self.now frame.now) }
    {
        let text = self.text(alloc, frame)?;
        let mut out = Vec::with_capacity(alloc, 4 + text.len() + TAG_BYTES)?;
        put_number(&mut out, (text.len() + TAG_BYTES) as u32)?;
        out.extend_from_slice(&text)?;
        out.extend_from_slice(&hmac(&self.key, &text))?;
        Ok(out)
    }

    /// What the tag of a frame under the next number speaks for.
    fn text(&self, alloc: Global, frame: &[u8]) -> Result<Vec<u8>, OutOfMemory>
        requires { length frame.now ≤ MOST_FRAME_BYTES }
        ensures { IfOk result (λ text. text.items ≡ text_of self.now.from self.now.to self.now.next frame.now) }
    {
        let mut out = Vec::with_capacity(alloc, HEAD_BYTES + frame.len())?;
        put_byte(&mut out, self.from.0)?;
        put_byte(&mut out, self.to.0)?;
        put_word(&mut out, self.next)?;
        out.extend_from_slice(frame)?;
        Ok(out)
    }
}
