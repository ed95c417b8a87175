//! What a program may have too many of.

/// What is counted, and has a limit.
#[derive(Clone, Copy, Debug, PartialEq, Eq)]
pub enum What {
    Fields,
    Methods,
    Parameters,
    /// Parameters and locals of a method.
    Locals,
    Statements,
    /// Nodes of all expressions of a statement.
    Nodes,
    /// Elements of an array, and of all fields and arrays together.
    Elements,
}
