//! On which hosts the fields and the statements of a program stand.
//!
//! **Promises.** The plan is one that no single move of a part makes cheaper, found from the plans of one host each
//! (`placement_laws`), and each part of it stands where it may.
//!
//! **Begin** with `specs/Placing.antt`; `place` is the call.
//!
//! **Stays.** The order in which moves are tried: which plan comes of a program depends on it.
//!
//! `place`: the starting plans, one by one, the cheapest of them, and passes of moves that lower its cost.
//! `specs/Steps` lists the moves of a pass, and `Choice` the plans that they come to.
#![tactic(auto)]

mod cheapest_start;
mod costed;
mod laws;
mod lowering;
mod part;
mod placing;
mod starting_plan;

pub use laws::placement_laws;
pub use placing::place;
