//! Why a host ignores a message: the first part of the check that is false, for whoever shows a run.
//!
//! **Promises.** The reason is that of the first part of the check that is false of the host's state, the sender and
//! the message, and there is none exactly where the check passes.
//!
//! **Begin** with `specs/Reasons.antt`; `asked_by` and `why_ignored` are the calls.
//!
//! **Stays.** A message is not checked twice: what the state of the host decides is told by whether the message passed.
//!
//! - `why`, `asked`: the reasons, and what a message asks
//! - `parts`: whether a part that the code decides holds
//! - `reasons`: the first part that is false
//! - `laws`: what a reason says of the check, and small cases
#![tactic(auto)]

mod asked;
mod laws;
mod parts;
mod reasons;
mod why;

pub use asked::{Asked, asked_by};
pub use laws::{reason_examples, reason_laws};
pub use reasons::why_ignored;
pub use why::Why;
