//! The programs that are made for a number of statements, and their host file: which texts they are, and what holds of
//! them. They are accepted, and run to their end in so many steps.
//!
//! **Promises.** Each program that `make` makes is read, accepted and placed, and runs so many steps.
//!
//! **Begin** with `specs/Made.antt`.
//!
//! **Stays.** The texts stand in `specs/MadePrograms.antt`, and `split_cli` writes them.
//!
//! It has definitions and laws alone. `MadePrograms` says which texts are made, and `Made` what becomes of them.
//! Everything goes over the list of the numbers of the statements, so each stage is one induction on that list.
#![tactic(auto)]

mod laws;

pub use laws::made_laws;
