//! The pieces of a program's cost.

use crate::walk::Walk;
use js_base::{FieldId, MethodId, StmtId, VarId};

/// A piece of what a program costs, which depends on the hosts of few parts. A piece inside a loop weighs more.
#[derive(Clone, Copy)]
pub enum Piece<'a> {
    /// A statement reads or writes a field.
    Access {
        weight: u64,
        statement: StmtId,
        field: FieldId,
    },
    /// A statement gives a variable a value, at a place of the block of a walk.
    Giving {
        walk: Walk<'a>,
        place: usize,
        statement: StmtId,
        variable: VarId,
    },
    /// A call of a method gives a parameter a value.
    Passing {
        weight: u64,
        statement: StmtId,
        method: MethodId,
        variable: VarId,
    },
    /// A statement calls a method, and may keep its result.
    Calling {
        weight: u64,
        statement: StmtId,
        method: MethodId,
        kept: bool,
    },
    /// The token goes over the statements of a block.
    Walk(Walk<'a>),
    /// The method at which the program began is done.
    Ending {
        method: MethodId,
    },
}
