//! The words of `jifsplit`: which command they ask for.
//!
//! Start at `specs/Commands.antt`: a command is a value, and each has words of its own, so what words ask for is said
//! without reading them.
//!
//! **Promises.** Words ask for one command or for none.
//!
//! **Begin** with `specs/Asked.antt`.
//!
//! **Stays.** The forms of the words, which the usage line lists.
//!
//! - `words`: the command that the words say
#![tactic(auto)]

mod words;

pub use words::{Command, MADE_STATEMENTS, command_of};
