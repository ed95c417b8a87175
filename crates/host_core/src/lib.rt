//! One host: its state, and what it does with a message and at a turn, by the host table.
//!
//! **Promises.** What a host does with a message and at a turn is what the host table says, whatever arrives; what is
//! refused changes nothing but a count.
//!
//! **Begin** with `specs/Taking.antt` and `specs/Turn.antt`: the host table, a row for each message and each
//! instruction. `deliver` and `turn` are the calls.
//!
//! **Stays.** Room is asked for before anything changes, so that want of memory leaves a host as it was or stopped.
//!
//! - `host`: the public type, and what every step keeps
//! - `calls`, `starts`: the start, a message and a turn, and which row of the table each is
//! - `take_requests`, `take_answers`: the rows of the ten messages
//! - `turn_values`, `turn_transfers`: the rows of the 16 instructions
//! - `told`: a host that is played from its journal, and is told whether a token was the right one
//! - `changes`, `thread`, `values`: the changes of which rows are made, a thread with its token, the value of an
//!   expression
//! - `subjects`: what a request is about
#![tactic(auto)]

mod calls;
mod changes;
mod host;
mod laws;
mod starts;
mod subjects;
mod take_answers;
mod take_requests;
mod thread;
mod told;
mod turn_transfers;
mod turn_values;
mod values;

pub use host::{Host, HostError, Sent};
pub use laws::step_laws;
pub use told::ToldHost;
