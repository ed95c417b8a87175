//! What may be seen at each place of a split program: definitions and their laws.
//!
//! **Promises.** Under which label each instruction of split code runs, what may be seen there, and that each value
//! flows to where it is kept (`shade_laws`, `flow_laws`).
//!
//! **Begin** with `specs/Shades.antt` and `specs/ShadedCode.antt`.
//!
//! **Stays.** The table is read off the walk of `split_rules`, and the code is not looked at.
//!
//! Laws alone: what may be seen at each place of split code, for what two runs may tell hosts that misbehave.
#![tactic(auto)]

mod laws;

pub use laws::{flow_laws, shade_laws, walk_laws, worked_laws};
