//! What is told of the parts of a program that some hosts may not hold.
//!
//! **Promises.** Each line is that of a definition: one for each part and each host that may not hold it, with the
//! reason of `place_reasons`. The parts of a program are its fields, heads and statements by their numbers, and a word
//! means some of them.
//!
//! **Begin** with `specs/Parts.antt` and `specs/Lines.antt`.
//!
//! **Stays.** The line of a statement is that of the tree where it is numbered, and that of its first token elsewhere.
//! Both are the same in a program that was read, as `resolved_laws` says.
//!
//! - `part`: the parts of a program
//! - `meant_parts`: the parts that a word means, and the part that no host may hold
//! - `why`: why a host may not hold a part
//! - `lines`: the lines
//! - `laws`: that the parts have the reasons of the program by their numbers, which lines stand, and worked lines
#![tactic(auto)]

mod laws;
mod lines;
mod meant_parts;
mod part;
mod why;

pub use laws::{line_examples, line_laws, part_laws};
pub use lines::{Holding, HostTold, push_lines, told_hosts};
pub use meant_parts::{meant, unheld_parts};
pub use part::{Part, parts_of};
