//! Places in a text, and how tools show them: a line and a column, the line itself with a caret below, and tokens as
//! the language spells them.
//!
//! Start at `specs/Excerpts.antt`. What is shown of a line is safe for a terminal: no control character but the tab,
//! and characters alone.
#![tactic(auto)]

mod excerpts;
mod laws;
mod places;
mod spelling;

pub use excerpts::{EXCERPT_BYTES, push_excerpt, push_head};
pub use laws::excerpt_examples;
pub use places::Place;
pub use spelling::push_kind;
