//! What misbehaving hosts may see of a world of hosts that run a split program: definitions and their laws.
//!
//! **Promises.** What misbehaving hosts may see of a world, and that none is told what it may not see (`point_laws`).
//!
//! **Begin** with `specs/Eyes.antt` and `specs/Points.antt`.
//!
//! **Stays.** One proof alone looks at the bits of a label; all others use three facts of that test.
//!
//! Laws alone. `specs/Eyes` has the labels that misbehaving hosts may see, as a test of which the proofs know three
//! facts, and no proof but one looks at a bit of a label. `specs/Points` says what holds of tokens, threads, stacks and
//! messages in flight, so that no misbehaving host is told what it may not see.
#![tactic(auto)]

mod laws;

pub use laws::{eye_laws, place_laws, point_laws};
