//! The tokens of a program's text.
//!
//! **Promises.** A text has one list of tokens or one first fault (`lex_laws`, `reading_laws`), and tokens that are
//! written apart are read as they were (`spelled_laws`).
//!
//! **Begin** with `specs/Tokens.antt`, a text cut into pieces; `lex` is the call.
//!
//! **Stays.** Places are bytes from 0 and numbers of tokens from 0: refusals, `jiftokens` and the grammar count so.
//!
//! - `token`, `name`: tokens, and the names in them
//! - `lexer`: `lex`, the one loop over the text
//! - `skipped`: blanks and comments
//! - `lexemes`: what a text begins with: `words`, `numbers` and `symbols` have one kind each
//! - `laws`: a text has one reading, and its tokens are few and small; a text put together from spellings has these
//!   tokens
#![tactic(auto)]

mod laws;
mod lexemes;
mod lexer;
mod name;
mod numbers;
mod skipped;
mod symbols;
mod token;
mod words;

pub use laws::{lex_laws, reading_laws, spelled_laws, token_laws};
pub use lexer::{LexError, lex};
pub use name::Name;
pub use token::{Symbol, Token, TokenKind, Word};
