//! The parser: the draft that tokens are, or what they are refused for.
//!
//! **Promises.** `parse` gives the draft of exactly the programs of `jif_grammar`, and otherwise its refusal; what
//! `program_text` prints is read back as the same program (`program_text_laws`).
//!
//! **Begin** with the contract of `parse`, then `specs/Reading.antt`, which says what each reader promises.
//!
//! **Stays.** Each reader takes a cursor and the number of constructs that are open around it: no recursion without
//! that number.
//!
//! `specs/Reading` says what a reader promises, `specs/Phrases` and the files beside it which phrase it read. Each
//! reader takes a cursor and the number of constructs that are open around it.
//!
//! `specs/PrintedNames`, `PrintedExprs` and `PrintedProgram` say how a program is printed. Expressions are printed as
//! phrases of the grammar, statements from the tree, with a number above those of the variables so far, which tells
//! where a local is declared. The proofs go from the tree to phrases (`PrintedPhrases`), whose tokens with blanks are
//! the text (`PrintedPieces`, `PrintedKinds`, `PrintedApart`, `PrintedSpelled`), whose draft stands for the same names
//! (`PrintedBackExprs` to `PrintedBackProgram`), and whose tokens stay within the limits (`PrintedTallies` to
//! `PrintedLimits`).
//!
//! - `parser`: `parse`, the public call
//! - `items`, `fields`, `methods`: a program, its fields and its methods
//! - `statements`, `assignments`: blocks and the statements that have some; all other statements
//! - `expressions`, `operands`: expressions by one loop over operators, arguments; what operators join
//! - `operators`, `starts`, `endings`: the table of operators, what operands begin with, what ends an expression
//! - `labels`, `names`: labels and lists of names; owned copies of names
//! - `cursor`, `words`, `lines`: where the parser stands, and single tokens
//! - `counts`: what has begun, against its limits
//! - `printed`: `program_text`, the text of a program, and its fields. `methods`, `statements` and `exprs` have the
//!   rest, `names` and `operators` what is written there. `laws` says that the text reads back
#![tactic(auto)]

mod assignments;
mod counts;
mod cursor;
mod endings;
mod expressions;
mod fields;
mod items;
mod labels;
mod laws;
mod lines;
mod methods;
mod names;
mod operands;
mod operators;
mod parse_error;
mod parser;
mod printed;
mod starts;
mod statements;
mod words;

pub use laws::{named_laws, number_laws};
pub use parse_error::ParseError;
pub use parser::parse;
pub use printed::{program_text, program_text_laws};
