//! An entry that was taken off a control stack.

ghost use Rattle.std.specs.Prelude.{◌≡◌};

use crate::{Held, Token};
use js_base::{EntryId, FrameId};
use std::marker::Model;

/// An entry that was taken off a control stack. It can't be copied, and has to be spent by starting its thread.
pub struct Pending {
    entry: EntryId,
    frame: FrameId,
    kept: Token,
}

impl Model for Pending {
    ghost use Rattle.capability.specs.Pending.{PendingShape};

    ghost Value = { PendingShape };

    ghost view = { λ p. record { entry = p.entry; frame = p.frame; kept = p.kept } };
}

impl Pending {
    /// The entry in its frame, with the token that was kept with it.
    pub fn of(entry: EntryId, frame: FrameId, kept: Token) -> Pending
        ensures { result ≡ record { entry = entry; frame = frame; kept = kept } }
    {
        Pending { entry, frame, kept }
    }

    /// Where the thread starts, in which frame, and the token that it holds.
    pub fn start(self) -> (EntryId, FrameId, Held)
        ensures { result ≡ (self.entry, self.frame, self.kept) }
    {
        let Pending { entry, frame, kept } = self;
        (entry, frame, Held::of(kept))
    }
}
