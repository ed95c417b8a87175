//! The statements of a program that release something: those of which an expression of their own holds a `declassify`.
//!
//! **Promises.** Whether an expression or a statement releases a value, and of each statement by its number whether it
//! does. Those that are marked are just those of which the numbers are told (`release_laws`).
//!
//! **Begin** with `specs/Releases.antt` and `specs/Marks.antt`.
//!
//! **Stays.** `endorse` releases nothing: only what a `declassify` gives may be seen by more.
//!
//! - `expressions`: whether an expression, or a statement itself, releases a value
//! - `marks`: all statements by number
//! - `laws`: marks and numbers tell the same, and small cases
#![tactic(auto)]

mod expressions;
mod laws;
mod marks;

pub use expressions::{releases, releases_itself};
pub use laws::{release_examples, release_laws};
pub use marks::released_statements;
