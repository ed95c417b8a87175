//! The texts of a program's statements, as whoever draws or lists statements shows them.
//!
//! **Promises.** The text of a statement is its line of the printed program (`jif_parse`), in the order of the numbers
//! of statements, and the first one behind an `else` is told. For a program with names these are the texts of its
//! statements by the tree, one for each, with the blocks and loops around it (`text_laws`).
//!
//! **Begin** with `specs/Texts.antt` and `specs/Short.antt`; `specs/Statements.antt` has the texts by the tree.
//!
//! **Stays.** The texts are cut from what `program_text` prints, so they are what is read back.
//!
//! - `texts`: the lines of the printed program that are statements
//! - `short`: a text without the labels of what it declares
//! - `laws`: that texts are those of the tree, and small cases
#![tactic(auto)]

mod laws;
mod short;
mod texts;

pub use laws::{text_examples, text_laws};
pub use short::short_text;
pub use texts::{StatementText, texts_of};
