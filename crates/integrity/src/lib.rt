//! What holds of hosts that run the code of a split program, though some of them misbehave: definitions and their laws.
//!
//! **Promises.** Whatever misbehaving hosts send, the fields that they may not affect follow one altered run
//! (`integrity_laws`).
//!
//! **Begin** with `specs/Exposed.antt` (what they may affect) and `specs/Altering.antt` (what is promised).
//!
//! **Stays.** One half of the headline rests on its clauses, which `split_cli` cites.
//!
//! It has definitions and laws alone. `specs/Exposed` says which hosts misbehave, what they may affect and what they
//! leave as it was, `specs/Outside` when all that goes on could be their doing, and `specs/Altering` what hosts promise
//! together though some misbehave. `specs/Holding` has the chain of entries and the holder of its token, and that all
//! but these is outside; `specs/Standing` ties them to a configuration of an altered run, by the records of
//! `typed_steps`; `specs/Loose` does so where a misbehaving host was handed the token of the first entry.
#![tactic(auto)]

mod laws;

pub use laws::{
    chain_examples, chain_laws, integrity_examples, integrity_laws, loose_laws, outside_laws,
    root_laws, standing_laws,
};
