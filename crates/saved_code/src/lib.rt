//! What the file of a split program is read as: definitions and their laws.
//!
//! **Promises.** The file that `split` saves is read again as the code of that program (`saved_laws`).
//!
//! **Begin** with the clauses in `laws`.
//!
//! **Stays.** It speaks of what is due, so any saver of that text is meant.
#![tactic(auto)]

mod laws;

pub use laws::saved_laws;
