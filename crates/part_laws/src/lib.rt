//! That each host of a split program runs a sound part: a law. The call does nothing.
//!
//! **Promises.** Each part of the code of an accepted program is sound, so no host refuses what `split` made
//! (`part_laws`).
//!
//! **Begin** with the clause in `laws`, over `specs/SoundPart.antt` of `part_verify`.
//!
//! **Stays.** It needs the program and its plan, at which `part_verify` never looks.
#![tactic(auto)]

mod laws;

pub use laws::part_laws;
