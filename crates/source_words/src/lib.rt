//! What a program's tree lacks where its text lacks a word: definitions and their laws.
//!
//! **Promises.** A program whose text lacks the word `declassify`, or `endorse`, has none in its tree (`word_laws`).
//!
//! **Begin** with `specs/Words.antt`.
//!
//! **Stays.** It goes from tokens to the tree, and knows no run.
//!
//! It has a definition (`Words`) and laws alone. `LackingDrafts` goes from tokens over phrases to the draft,
//! `LackingTrees` from the draft to the program, for either word and for whatever its absence gives of an expression,
//! and `LackingPrograms` puts both together.
#![tactic(auto)]

mod laws;

pub use laws::word_laws;
