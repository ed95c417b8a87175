//! What a node has of the outside beside its files: links to the other nodes, and a journal, as traits, in memory and
//! over the system.
//!
//! **Promises.** Links and journals in memory tell what was sent, noted and refused; every call that fails counts a
//! fault.
//!
//! **Begin** with `specs/Links.antt` and `specs/Journals.antt`.
//!
//! **Stays.** The adapters `unix_links` and `real_journal` are the few lines that are trusted (docs/ASSUMPTIONS.md).
#![tactic(auto)]

mod copies;
mod journal;
mod links;
mod mem_journal;
mod mem_links;
mod real_journal;
mod unix_links;

pub use journal::Journal;
pub use links::{Arrived, LinkError, Links};
pub use mem_journal::MemJournal;
pub use mem_links::MemLinks;
pub use real_journal::RealJournal;
pub use unix_links::UnixLinks;
