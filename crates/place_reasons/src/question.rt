//! What is asked of each statement.

use js_base::FieldId;

/// What a pair is looked for in.
#[derive(Clone, Copy, PartialEq, Eq)]
pub enum Question {
    /// The program label.
    OfRun,
    /// The first expression that has it.
    OfUse,
    /// The first index by which the array is read.
    OfIndex(FieldId),
}
