//! Tokens, each of which lets a thread start once, and the values that stand for the right to use one.
//!
//! **Promises.** A token has the tag of its fields under a key; the right to use one is a value that is spent once,
//! which the compiler sees to.
//!
//! **Begin** with `specs/Tag.antt`.
//!
//! **Stays.** `Held` and `Pending` can neither be copied nor dropped: the folder `refused` has programs that try. The
//! bytes of a tag are in docs/FORMATS.md.
//!
//! - `token`, `tags`: tokens and their tags
//! - `held`, `pending`: the token of a running thread, and an entry that was taken off a stack; both must be spent
#![tactic(auto)]

mod held;
mod pending;
mod tags;
mod token;

pub use held::Held;
pub use pending::Pending;
pub use tags::{KEY_BYTES, TAG_BYTES, tag};
pub use token::Token;
