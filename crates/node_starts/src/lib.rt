//! What a node begins with: the code of all hosts, which comes from a program or from a split file, the host file, and
//! starting values; which host it is; and whether that host may run its part of a split file.
//!
//! Start at `specs/NodeSources.antt`: each stage has one outcome, a value or the refusal that is due.
//!
//! - `source_word`: the file that a node's code comes from
//! - `node_source`, `node_start`: what a node begins with, from a program or from a split file, and which host it is
//! - `node_part`: whether the host may run its part of a split file
#![tactic(auto)]

mod node_part;
mod node_source;
mod node_start;
mod source_word;

pub use node_part::part_checked;
pub use node_source::{NodeSource, code_source, program_source};
pub use node_start::{NodeStart, copies, of_host};
pub use source_word::{SourceWord, source_file};
