//! The journals of all hosts, of which none misbehaves, merged into the one list of events that they tell.
//!
//! **Promises.** Journals of all hosts are met by the one list of events that is answered, or by none that comes
//! further than where they are left (`merge_laws`).
//!
//! **Begin** with `specs/Merging.antt` and `specs/Meeting.antt`; `merge` is the call.
//!
//! **Stays.** Which lines a journal may have (`specs/Journals.antt`): nodes write them.
//!
//! `merge` takes the bytes of journals. It goes over each once, for lines without form, and keeps those that tell of a
//! turn, a take or a send. In each world at most one event is possible, so it makes the event that comes next as long
//! as the journal of its host has its line, and searches nothing. The lines of steps and their words are those of
//! `event_text` (`specs/JournalText`), by which nodes note them. `specs/Journals` says which lines a journal may have,
//! `specs/Merging` what is answered, `specs/Notes` what events add to journals, `specs/Meeting` which lists of events
//! meet journals, whole or up to places, and why there is none, and `specs/Single` the worlds in which at most one
//! thing goes on. `specs/NextLines` says how the line of an event is found in the worlds before it and after it, and
//! `specs/JournalLines` how far the program has come.
//!
//! - `journal`: why journals are not merged
//! - `forms`, `reading`: the lines that a journal may have, and those that are merged
//! - `step_lines`: whether a line is that of a step or of a message that was sent
//! - `merging`: the event that comes next where its line does, what is met behind it, and all of these
//! - `one_list`: the whole, and the first journal that is left
//! - `laws`: what holds of the definitions alone
#![tactic(auto)]

mod forms;
mod journal;
mod laws;
mod lines;
mod merging;
mod one_list;
mod reading;
mod step_lines;

pub use journal::MergeError;
pub use laws::{merge_laws, single_laws};
pub use lines::{JOURNAL_BYTES, line_count};
pub use one_list::merge;
pub use reading::{JournalError, read_lines};
pub use step_lines::{is_send_line, is_take_line, is_turn_line};
