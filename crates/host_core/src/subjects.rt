//! What a request is about, where that takes more than one number.

ghost use Rattle.std.specs.Prelude.{◌≡◌};

use capability::Token;
use js_base::{EntryId, FieldId, FrameId, VarId};

/// The element of a field at an index.
#[derive(Clone, Copy)]
pub(crate) struct Element {
    pub(crate) field: FieldId,
    pub(crate) index: i64,
}

/// A variable of a frame.
#[derive(Clone, Copy)]
pub(crate) struct Variable {
    pub(crate) frame: FrameId,
    pub(crate) var: VarId,
}

/// An entry in a frame, with the token that its thread is to hold.
#[derive(Clone, Copy)]
pub(crate) struct Handover {
    pub(crate) frame: FrameId,
    pub(crate) entry: EntryId,
    pub(crate) token: Token,
}

impl Handover {
    /// An entry in a frame, with this token.
    #[inline(always)]
    pub(crate) fn new(frame: FrameId, entry: EntryId, token: Token) -> Handover
        ensures { result ≡ record { frame = frame; entry = entry; token = token } }
    {
        Handover {
            frame,
            entry,
            token,
        }
    }
}
