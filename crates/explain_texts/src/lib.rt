//! What is told of a refused program: where it stands in the text, why it is refused, and what to try.
//!
//! **Promises.** Each text is exactly that of a definition, over tokens, drafts, trees and reasons.
//!
//! **Begin** with `specs/Told.antt` (how what is told is laid out), `specs/Heads.antt` (texts, grammar, names) and
//! `specs/Labels.antt` (labels).
//!
//! **Stays.** The words of docs/FORMATS.md. That a part of the tree is written where the draft has the part of the same
//! number is a law of `resolved_laws`.
//!
//! - `told`: what is told as a value (a place, a message, lines), and how it is laid out
//! - `token_texts`: how tokens are spelled, and where they stand
//! - `heads`: a refused text, tokens that are no program, and names
//! - `remedies`: what to try, by the tokens around a refused one
//! - `written`: where the parts of a draft are written, as numbers of tokens
//! - `sheet`, `names`: what names the parts of a program, and their lines
//! - `causes`, `asked`, `reason_lines`: the lines of reasons: one for each owner and cause, and one for each principal
//! - `labels`: a refused statement: its place, what may not be, the lines, and what to try
//! - `unheld`: a part that no host may hold
//! - `laws`: worked texts
#![tactic(auto)]

mod asked;
mod causes;
mod heads;
mod labels;
mod laws;
mod names;
mod reason_lines;
mod remedies;
mod sheet;
mod token_texts;
mod told;
mod unheld;
mod written;

pub use asked::param_text;
pub use causes::{cause_text, on_line, source_text};
pub use heads::{lexed_told, parsed_told, resolved_told};
pub use labels::labels_told;
pub use laws::{head_examples, line_examples, remedy_examples};
pub use names::{
    field_name, kind_of_field, method_around, method_name, principal_name, variable_words,
};
pub use reason_lines::reader_name;
pub use sheet::{Sheet, part_line};
pub use told::{Told, message_told, told_text};
pub use unheld::{field_told, statement_told};
pub use written::{Places, draft_places};
