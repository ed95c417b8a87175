//! Two runs compared: what is kept of a run whose events happen, and what two runs have in common, as far as
//! misbehaving hosts may see them.
//!
//! Start at `specs/Compare.antt`: what is due for two scripts is a chain of premises, and then one line by the messages
//! that misbehaving hosts were sent.
//!
//! **Promises.** What is kept of a run, and what two runs have in common as far as misbehaving hosts may see them.
//!
//! **Begin** with `specs/Compare.antt` and `specs/Followed.antt`; `compared` is the call.
//!
//! **Stays.** Which runs may be compared: the second half of the headline speaks of exactly these.
//!
//! They stand apart from the commands so that a change of words, of a stage or of a comparison does not cost the proof
//! of all commands.
//!
//! - `following`: a run of which is kept what misbehaving hosts may see
//! - `comparing`: what two such runs have in common
//! - `message_parts`: whether messages and events are the same, part by part
//! - `release_lines`: the values that two runs released, as lines
//! - `releasing`: the statements that release something
#![tactic(auto)]

mod comparing;
mod following;
mod message_parts;
mod release_lines;
mod releasing;

pub use comparing::{compared, is_prompt, same_events, same_misbehave, same_starts, unlike_field};
pub use following::{Followed, Seen, follow};
