//! Events of a run, and the scripts that say them.
//!
//! **Promises.** Scripts, files of starting values and the lines of journals are read as they are written
//! (`script_laws`, `journal_laws`).
//!
//! **Begin** with `specs/Script.antt` and `specs/Events.antt`; `read_events` is the call.
//!
//! **Stays.** The words of lines: users' scripts and journals hold them (docs/FORMATS.md).
//!
//! - `event`: events, and the messages that a misbehaving host may make
//! - `lines`, `words`, `numbers`: the lines that are not skipped, their words, and numbers
//! - `settings`: the lines that set starting values, over any fields with names and sizes
//! - `parts`, `acts`, `tokens`: the words of a message, and the messages and tokens that they say, as scripts present
//!   them and as they are printed
//! - `journal_texts`: the lines that tell what a host did, and a law that their words are those by which they are known
//!   again
//! - `misbehaving`: the lines that name misbehaving hosts
//! - `event_lines`, `script`, `start`: the lines of events, the whole script, and files of starting values
//! - `event_texts`: how events are printed
#![tactic(auto)]

mod acts;
mod event;
mod event_lines;
mod event_texts;
mod journal_texts;
mod laws;
mod lines;
mod misbehaving;
mod numbers;
mod parts;
mod script;
mod settings;
mod start;
mod tokens;
mod words;

pub use acts::{printed_message, says_message};
pub use event::{BadMessage, BadToken, Event};
pub use event_texts::{bad_message_text, event_line};
pub use journal_texts::{TURN_TEXT, done_text, journal_laws, send_text, take_text};
pub use laws::script_laws;
pub use lines::{Line, Lines, next_line};
pub use parts::host_named;
pub use script::{EventsError, Script, read_events};
pub use settings::{ScriptField, setting_line};
pub use start::{read_start, read_values};
pub use words::{first_word, one_word, three_words};
