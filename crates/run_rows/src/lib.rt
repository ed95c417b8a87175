//! The record of each event of a run, for whoever draws or lists what happened.
//!
//! **Promises.** Events that happen one after the other have a row each, in order, with its line. A row tells what the
//! event was, why it was ignored (`ignored_reasons`), and what it sent to a misbehaving host.
//!
//! **Begin** with `specs/Rows.antt` (`IsRow`, `IsPictured`); `rows_of` is the call.
//!
//! **Stays.** No copy of a world is made: a row is told from what is seen before its event and after it.
//!
//! - `row`: a row, and what its event was
//! - `seen`: what a world shows of an event's host before the event and after it
//! - `asking`: what a misbehaving host asks, whatever token it presents
//! - `stacks`: the control stacks, as far as a run shows them
//! - `senders`: the events that sent what is in flight
//! - `rows`: the rows of events
//! - `laws`: what rows say of a run
#![tactic(auto)]

mod asking;
mod laws;
mod row;
mod rows;
mod seen;
mod senders;
mod stacks;

pub use laws::row_laws;
pub use row::{Change, Row, What};
pub use rows::{Run, rows_of};
pub use senders::Senders;
