//! What the chart of a run is drawn by: from the rows of a run and the world at its end to texts and numbers.
//!
//! **Promises.** The sheet is the one that is defined (`sheet_of`): a row for each event, with its text, its statement
//! and its reason; what is in flight; and each field with its value and who may affect it. What that says of the run is
//! told by `sheet_laws`.
//!
//! **Begin** with `specs/Charts.antt`; `specs/ChartRows.antt` and `specs/FieldMarks.antt` say what stands in a row and
//! at a field.
//!
//! **Stays.** No copy of a world or of a stack is made for a row. A field is kept exactly where the hosts that
//! misbehave may not affect it by the definition of which the laws of a run speak.
//!
//! - `source`: what a sheet is made of
//! - `strokes`, `reasons`: what messages are drawn with, and why they are ignored
//! - `events`: what a row's event was, in words
//! - `lanes`: how far beside a lifeline an arrow goes down
//! - `statements`, `stacks`: the notes of a row
//! - `tracks`, `rows`: what is followed of each host from row to row, and the rows
//! - `fields`, `columns`: the fields, and the hosts with them
//! - `flights`: what is in flight at the end
//! - `sheet`: the whole
//! - `laws`: what holds of it
#![tactic(auto)]

mod columns;
mod events;
mod fields;
mod flights;
mod lanes;
mod laws;
mod reasons;
mod rows;
mod sheet;
mod source;
mod stacks;
mod statements;
mod strokes;
mod tracks;

pub use laws::{sheet_examples, sheet_laws};
pub use sheet::{running_of, sheet_of};
pub use source::RunSource;
