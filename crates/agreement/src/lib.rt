//! What two worlds have in common of which misbehaving hosts may see the same: definitions and their laws.
//!
//! **Promises.** Two runs of which the same is seen and released tell misbehaving hosts the same, as far as both go
//! (`run_laws`).
//!
//! **Begin** with `specs/Views.antt` (what may be seen of a world) and `specs/Leads.antt` (what goes on unseen).
//!
//! **Stays.** What is owed is read where an excursion begins, so that no unseen event can change it.
//!
//! Definitions and laws alone. `specs/Views` says what may be seen of a world, and what comes into the open in the end,
//! `specs/Leads` what goes on unseen: one thread that runs or waits, or one message that hands control over, with a
//! chain of hidden entries. What is owed is read at the first of these, so an event under a hidden entry can't change
//! it. `specs/Changes` says which parts of a host stay where they may be seen. `specs/Turns` says what is seen after a
//! turn that may be seen, as a relation of views, over what the turn carries of values, `specs/Handing` after one that
//! hands control over, and `specs/Asking` after one that asks another host. `specs/Taken` says what is seen of a
//! message that a host takes, also where a misbehaving host made it. An event that may be seen is told of one world
//! too, so only what it carries, and runs, are told of two.
#![tactic(auto)]

mod laws;
mod seen_runs;
mod seen_takes;

pub use laws::{coming_laws, hidden_laws, seen_laws, value_laws, view_laws, worked_laws};
pub use seen_runs::{release_examples, run_laws};
pub use seen_takes::{taken_examples, taken_laws};
