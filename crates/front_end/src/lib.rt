//! What commands begin with: from files to an accepted program in its places and its code, and what refuses it.
//!
//! **Promises.** For a program and a host file one thing comes, the accepted program in its places or one refusal with
//! its status (`source_laws`), and what is due is put out as it is, or a front of it (`answer`).
//!
//! **Begin** with `specs/Stages.antt` and `specs/Sources.antt`; `specs/Refusals.antt` has each refusal with its words.
//!
//! **Stays.** The words of refusals, which docs/FORMATS.md lists and `examples/error_lines` compares.
//!
//! `placed` gives a program that can be split, so its code can be made.
//!
//! - `load`: the files of a command, in order
//! - `stop`: why a command goes no further
//! - `sources`: what all commands begin with: from a program and a host file to the accepted program and its hosts,
//!   stage by stage
//! - `placed`: the same, in the places of its plan
//! - `placed_code`: the code of a program in its places
//! - `starting`: the starting values that a file gives
//! - `statements`: the line of each statement
//! - `step_counts`: the number of steps, events or turns that a word asks for
//! - `refusal`, `refusal_texts`: why words or files are refused: the cause with its place, its status, and all words of
//!   refusals
//! - `verdict`: what is due: a refusal, or a report with its status
//! - `answers`: what is due is put out: a refusal on the error output behind the program's name, a report on the
//!   output, and what is said where memory runs out
//! - `laws`: that one thing comes of a program and a host file, and that some thing does
#![tactic(auto)]

mod answers;
mod laws;
mod load;
mod placed;
mod placed_code;
mod refusal;
mod refusal_texts;
mod sources;
mod starting;
mod statements;
mod step_counts;
mod stop;
mod verdict;

pub use answers::answer;
pub use laws::source_laws;
pub use load::{Asked, Loaded, as_loaded, host_file, load_all, program_file, script_file};
pub use placed::{PlacedSource, on_hosts, read_places};
pub use placed_code::{code_of, releases_of};
pub use refusal::{LineCause, Refusal};
pub use refusal_texts::why_no_hosts;
pub use sources::{
    Source, accepted, drafted, hosts_read, labelled, lexed, parsed, read_sources, resolved,
};
pub use starting::starting_values;
pub use statements::statement_lines;
pub use step_counts::{STEPS, step_count};
pub use stop::{Stop, stopped};
pub use verdict::Verdict;
