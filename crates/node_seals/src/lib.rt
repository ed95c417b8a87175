//! What arrives at a node, and the seals of its links: which bytes are the next frame of a link, and what a frame comes
//! to.
//!
//! Start at `specs/Arrivals.antt` for what is dropped and why, and at `specs/SealsFile.antt` for the file of keys.
//!
//! **Promises.** Which bytes are the next frame of a link, and what a frame comes to: a message, a note that somebody
//! is done, or a reason why it is dropped.
//!
//! **Begin** with `specs/Arrivals.antt`.
//!
//! **Stays.** What is dropped has one reason, in the order of docs/FORMATS.md.
//!
//! - `seals`, `seals_file`: the seals of a node: sealers and openers by the number of the other host; and the file of
//!   their keys
//! - `arrivals`: what the bytes of a frame come to, sealed or not
#![tactic(auto)]

mod arrivals;
mod seals;
mod seals_file;

pub use arrivals::{Arrival, DropReason, opened_arrival};
pub use seals::{Opened, Seals};
pub use seals_file::{SEALS_BYTES, SealsError};
