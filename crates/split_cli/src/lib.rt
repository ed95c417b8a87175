//! The program `jifsplit`, from words and files to what it puts out.
//!
//! **Promises.** The headline, both halves, and what each command of `jifsplit` answers: clauses of the top call.
//!
//! **Begin** with `src/top.rt`, then `specs/Headline.antt` and `specs/Due.antt`.
//!
//! **Stays.** The clauses of `jifsplit`: they are widened and never weakened.
//!
//! A command goes through `split_words`, then `load` and `sources` of `front_end`, and its own module of `commands`,
//! and all but `run` also through `placed`. `run` and `drive` read their third file in `starting`, `replay` and
//! `compare` read scripts by `script_stages`. `make` goes the way of `drive` with texts of its own, which `as_loaded`
//! hands on as if they were loaded. `split`, `replay`, `compare`, `drive` and `make` emit the code of the program in
//! its places (`placed_code`), and all of these but `split` start a world on it. A new command is a variant of
//! `Command` and `CommandShape`, a case of `DueForBytes`, and a module there.
//!
//! - `place_lines`: the lines that say which hosts may hold what, and where the plan puts it
//! - `code_lines`: the lines of a code: its entries, and the instructions of each host
//! - `commands`: `check`, `split`, `run`, `replay`, `drive` and `compare`, each from its files to what is due, and
//!   `make`, which has none. `split` saves before anything is put out
//! - `making`: the program and the host file that `make` makes
//! - `driving`: a world in which the event that comes next happens, again and again
//! - `world_report`, `row_line`: the text of a world. `fields`, `hosts` and `flying` have its lines, `row_line` that of
//!   a field, which `run` prints too
//! - `top`: the public call: finds the command, and has its verdict put out
#![tactic(auto)]

mod code_lines;
mod commands;
mod driving;
mod laws;
mod making;
mod place_lines;
mod row_line;
mod top;
mod world_report;

pub use laws::{due_laws, headline_laws, text_laws};
pub use top::jifsplit;
