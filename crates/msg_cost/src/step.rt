//! Moves of single parts of a program.

use js_base::{FieldId, HostId, StmtId};

/// A move of one field or one statement to a host.
#[derive(Clone, Copy)]
pub enum Step {
    /// The field goes to the host.
    Field(FieldId, HostId),
    /// The statement goes to the host, and with a method's head its home.
    Statement(StmtId, HostId),
}
