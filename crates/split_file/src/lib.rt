//! Split files, which hold the code of all hosts as bytes: one spelling for each code.
//!
//! `write` gives the spelling of a code, and `read` the code that some bytes spell. What is no spelling is refused at
//! its first fault.
//!
//! **Promises.** What is written of a code is read as this code, and other bytes are refused for their first fault,
//! with its place (`split_file_laws`).
//!
//! **Begin** with `specs/Spelling.antt` (the bytes) and `specs/File.antt` (the code of a file); `write` and `read` are
//! the calls.
//!
//! **Stays.** The bytes: parties hand such files to each other (docs/FORMATS.md).
//!
//! `write` puts each part behind the others. `read` has one small function for each reader of `specs/Reading`: what
//! stands at the front of a slice, and the rest. A fault carries how many bytes there are from its place on, and only
//! the last step makes a place of it. `split` writes such files, and `jifhost` reads them.
//!
//! - `versions`: the version of a file, by whether values ride with some instruction
#![tactic(auto)]

mod appending;
mod error;
mod expressions;
mod fault;
mod instructions;
mod laws;
mod names;
mod numbers;
mod operands;
mod operation_bytes;
mod operations;
mod reading;
mod starts;
mod tables;
mod versions;
mod writing;

pub use error::SplitError;
pub use laws::split_file_laws;
pub use reading::read;
pub use writing::write;
