//! The code of a program that is split by a plan.
//!
//! **Promises.** `emit` makes exactly the code of `split_rules`, or memory ran out.
//!
//! **Begin** with the contract of `emit`, then `specs/Trace.antt`.
//!
//! **Stays.** The trace only grows, and each function of the walk promises how it goes on.
//!
//! `emit` makes the code of a program in its places.
//!
//! - `emitting`: the public call
//! - `walk`, `methods`, `blocks`, `calls`, `moves`, `values`, `expressions`, `labels`: the walk over the program, in
//!   the order of the text
//! - `needs`: what is ahead of each statement of a block, found once for a block
//! - `riders`: what rides when a thread is handed over
//! - `trace`: what the walk has given so far, with labels by their places
//! - `parts`, `tables`: the instructions and entries with their places, put together from the trace, and the tables of
//!   the code
#![tactic(auto)]

mod blocks;
mod calls;
mod emitting;
mod expressions;
mod labels;
mod methods;
mod moves;
mod needs;
mod parts;
mod riders;
mod tables;
mod trace;
mod values;
mod walk;

pub use emitting::emit;
