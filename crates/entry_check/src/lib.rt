//! The checks that a host makes on what others ask of it.
//!
//! **Promises.** The checks of a host as words of bits say what the definitions of them say over the code
//! (`check_laws`).
//!
//! **Begin** with `specs/Checks.antt`: who may ask a host for what.
//!
//! **Stays.** No check looks at what runs: what is asked and by whom decides alone.
//!
//! - `rule`, `checks`: whether a host may ask, by the code; the same as words of bits
#![tactic(auto)]

mod ask;
mod checks;
mod laws;
mod rule;

pub use ask::Ask;
pub use checks::Checks;
pub use laws::check_laws;
