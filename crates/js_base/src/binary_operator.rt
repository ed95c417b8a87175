//! The binary operators of programs.

/// A binary operator, from the loosest to the tightest.
#[derive(Clone, Copy)]
pub enum BinOp {
    Or,
    And,
    Equal,
    NotEqual,
    Less,
    LessEqual,
    Greater,
    GreaterEqual,
    Add,
    Subtract,
    Multiply,
    Divide,
    Remainder,
}
