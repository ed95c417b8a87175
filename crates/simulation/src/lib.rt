//! That hosts which run the code of a split program follow the plain run of that program: definitions and their laws.
//!
//! **Promises.** Hosts that all obey follow the plain run, ignore no message, and come to its end in so many events
//! (`obeying_laws`, `ending_laws`).
//!
//! **Begin** with `specs/Obeying.antt` and `specs/Driven.antt`.
//!
//! **Stays.** It rests on the typed code of `split_rules` and on `typed_steps`, and on no emitter.
//!
//! It has definitions and laws alone. The calls in `laws` do nothing. `specs/Obeying` says what hosts that all obey
//! promise together, `specs/Programs` what is asked of parameters, `specs/Driven` how a world goes on in which nobody
//! chooses, and `specs/Ending` how soon that ends.
#![tactic(auto)]

mod laws;

pub use laws::{ending_laws, obeying_laws};
