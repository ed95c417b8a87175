//! The journal of one host, played: what the fields of the host are behind it.
//!
//! **Promises.** The host that is played from a journal has the fields of each host that has it, and there is one; and
//! a line at which the player stops is the first up to which no host has these lines.
//!
//! **Begin** with `specs/Playing.antt`; `play` is the call.
//!
//! **Stays.** A line is compared with how its message is printed, so nothing is taken for a step by how it is read
//! alone.
//!
//! `play` goes over the lines once. At each it makes the step of the line, and compares the next line with what was
//! sent. A `ToldHost` is told whether an open step passes: where the next line is that of a turn, or where there is
//! none. A line of a take is read, and then compared with how its message is printed, so what is played needs no law on
//! how lines are read. Only that a host takes nothing by a line which is refused needs one: `proofs/Untaken` has it
//! from the proofs of `journal_laws`. `proofs/Played` has the lines that were played so far, and how the last step was
//! chosen: where it was open, by the line that comes next. That tells of a refused line that no host goes on by it.
//!
//! - `letters`: the message of a line
//! - `player`: one line, and all of them
#![tactic(auto)]

mod letters;
mod player;

pub use player::{PlayError, play};
