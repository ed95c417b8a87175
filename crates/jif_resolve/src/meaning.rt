//! What names stand for.

use js_base::{FieldId, MethodId, VarId};

/// What a name stands for.
#[derive(Clone, Copy)]
pub enum Meaning {
    /// A parameter or a local.
    Variable(VarId),
    /// A plain field.
    Plain(FieldId),
    /// An array.
    Array(FieldId),
    /// A method, with the number of its parameters and whether it has a result.
    Method(MethodId, u32, bool),
}
