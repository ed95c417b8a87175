//! What the formats of bytes share: how numbers are spelled and written, and how items are read from the front of
//! bytes. Each format reads with faults of its own, so of reading there are definitions and their laws alone.
//!
//! **Promises.** Numbers are written and read with the highest byte first, and what was read from the front determines
//! the bytes.
//!
//! **Begin** with `specs/Reader.antt`: readers in a row.
//!
//! **Stays.** It knows no format and no fault of one.
#![tactic(auto)]

mod appending;

pub use appending::{put_byte, put_integer, put_number, put_word};
