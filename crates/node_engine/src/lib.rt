//! A node: one host of a program with its links, its seals and its journal.
//!
//! **Promises.** A node serves by the rules to an end, notes what it does, and swallows no fault; from words and files
//! to its last line.
//!
//! **Begin** with `src/top.rt`, then `specs/Serving.antt` and `specs/Units.antt`: the parts of a node's work.
//!
//! **Stays.** A line of the journal stands before what its step sends goes out.
//!
//! What is inside of a node is its host and its seals (`Inside`), and the rest is outside. A part is a value, and a
//! unit is a list of parts which the world determines. Seals that seal nothing make no part, so a node without keys has
//! the parts that it would have if there were no seals. So an error is told by the part that it broke, and the loop
//! keeps that what completes the rest completes the whole (`proofs/Served`). What links and journal tell is one record
//! (`Outside`); what a function does between two moments is a relation of two of them (`Does`, `Stops`), so that
//! functions in a row compose by a lemma each (`proofs/Breaking`).
//!
//! - `top`, `node_end`: the top calls, from words and files to the end
//! - `options`: the command line, by `clap`
//! - `node_files`: the files of a node, and what they give: a node that is ready to run, with its seals
//! - `start_laws`: laws of what a node begins with
//! - `seals_laws`: laws of what is sent and taken under seals
//! - `running`: how links and journal begin, and the node then serves
//! - `node`, `node_error`: a node at work, with what it is lent, and why its work breaks off
//! - `serving`: units one after the other, halting, and the closing frames
//! - `units`: one unit: an instruction, or a frame that is taken
//! - `outside`: the calls of links and journal, each one part of a unit
//! - `journal_lines`: the lines of a journal
//! - `laws`: laws of units
//! - `saying`: what is said of the end
#![tactic(auto)]

mod journal_lines;
mod laws;
mod node;
mod node_end;
mod node_error;
mod node_files;
mod options;
mod outside;
mod running;
mod saying;
mod seals_laws;
mod serving;
mod start_laws;
mod top;
mod units;

pub use laws::unit_laws;
pub use node_end::NodeEnd;
pub use node_error::NodeError;
pub use options::{OptionError, Options, option_laws, read_options};
pub use saying::say_end;
pub use seals_laws::sealing_laws;
pub use serving::serve;
pub use start_laws::node_laws;
pub use top::{jifhost, run_jifhost};
