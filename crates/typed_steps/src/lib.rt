//! What the hosts of a split program make of its plain run, seen from one host: what an instruction does to what is
//! still to be done, what a turn and a take make, and what all hosts have of a configuration: definitions and their
//! laws.
//!
//! **Promises.** What a turn and a take make of the plain run at their host, for each instruction and each message
//! (`turn_laws`, `take_laws`).
//!
//! **Begin** with `specs/Views.antt`, then `specs/Turns.antt` and `specs/Takes.antt`.
//!
//! **Stays.** It speaks of one host, so that `simulation` and `integrity` share it.
//!
//! Definitions and laws alone. `specs/Values` says what an expression may give where some of what it reads may be
//! affected, `specs/Readers` who reads what, and `specs/Views` which programs are split and what is seen of a world:
//! the chain of entries that are still to be taken off, the calls, and what is still to be sent. `Chains`, `Threads`
//! and `Variables` say what is due behind a chain, what is still to be done and where the thread stands that does it,
//! and what all hosts have of a configuration. `Requests` says what messages bring about and what rides with a thread
//! that is handed over, `Weights` how many events may still come, and `Turns` and `Takes` what a turn and a take make
//! at their host.
#![tactic(auto)]

mod laws;

pub use laws::{riding_examples, take_laws, turn_laws};
