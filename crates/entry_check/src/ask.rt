//! What is asked of a host.

use js_base::{EntryId, FieldId, VarId};

/// What one host asks of another.
#[derive(Clone, Copy)]
pub enum Ask {
    /// The element of a field.
    Get(FieldId),
    /// That the element of a field becomes a value.
    Set(FieldId),
    /// That a variable of a frame becomes a value.
    Forward(VarId),
    /// That an entry is pushed, or that a thread starts there.
    Enter(EntryId),
}
