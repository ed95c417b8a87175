//! The integrity control stack of a host: who may start which thread there, and in which order.
//!
//! **Promises.** An entry is taken off for its own token alone, from the top, and once.
//!
//! **Begin** with `specs/Stack.antt`; `push` and `take` are the calls.
//!
//! **Stays.** Serial numbers count the pushes of one entry and never come again.
//!
//! - `stack`: entries with their tokens: reserve, push, take
#![tactic(auto)]

mod stack;

pub use stack::{IcsStack, NotTop, StackEntry};
