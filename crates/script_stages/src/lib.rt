//! The stages of a command that makes a script happen: it is read, the hosts of a program begin, and events happen.
//!
//! Start at `specs/Scripts.antt`: each stage has one outcome, a value or what is due in its place.
//!
//! **Promises.** A script is read, its hosts begin, and its events happen: two stages, each of which ends in one way.
//!
//! **Begin** with `specs/Scripts.antt`.
//!
//! **Stays.** The order of its refusals, which `replay` and `compare` share.
//!
//! - `scripts`: what a script says, the world that it begins with, and the world that its events leave: two stages
#![tactic(auto)]

mod scripts;

pub use scripts::{events_happen, events_refused, first_world, read_script};
