//! Why a host ignores a message.

use js_base::{EntryId, FieldId, VarId};

/// The part of the check of a message that is false.
#[derive(Clone, Copy)]
pub enum Why {
    /// The field is not on this host.
    FieldElsewhere(FieldId),
    /// The sender may not see the field.
    MayNotSee(FieldId),
    /// The sender is not trusted to set the field.
    MayNotSet(FieldId),
    /// The sender is not trusted to set the variable.
    MayNotForward(VarId),
    /// No entry of this number is on this host, or it is the one that ends the program.
    NoEntry(EntryId),
    /// The sender is not trusted to enter.
    MayNotEnter(EntryId),
    /// The sender may not know that the entry is entered.
    MayNotKnow(EntryId),
    /// The token is not that of the top entry.
    NotOnTop,
    /// No thread waits for this answer from the sender.
    NoneWaits,
}
