//! What any drawing is made of: texts that are cut and escaped, how wide they are, things in a row, and one style.
//!
//! **Promises.** An escaped text has no mark of SVG but the names of the escaped characters, and reads back
//! (`drawing_laws`). A text is cut to its room, and one that is not cut is no wider than the pixels that the room was
//! made for. Things in a row stand in their order, with what lies between them.
//!
//! **Begin** with `specs/Letters.antt` and `specs/Spans.antt`.
//!
//! **Stays.** Cut first, and then escape: so no name of a character is cut in two.
//!
//! - `texts`: texts as characters, cut and escaped
//! - `widths`: how wide so many letters are, and how many have room
//! - `spans`: where things in a row begin
//! - `style`: the colours and strokes of all drawings
//! - `laws`: what holds of all of these
#![tactic(auto)]

mod laws;
mod spans;
mod style;
mod texts;
mod widths;

pub use laws::drawing_laws;
pub use spans::{Span, Starts, starts_of};
pub use style::STYLE;
pub use texts::{cut, letters, push_escaped};
pub use widths::{small_room, small_width, wide_room, wide_width};
