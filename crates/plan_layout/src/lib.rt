//! Where the parts of a plan are drawn: columns with strips between them, rows, and lines that cross no box.
//!
//! **Promises.** Columns stand apart, and between two of them is room for all lines that go there (`layout_laws`). A
//! line goes along the row that it begins in, and up or down between two columns, so it meets no box but those at its
//! ends. Lines that run together have one track, and others are apart.
//!
//! **Begin** with `specs/Columns.antt` and `specs/Routes.antt`.
//!
//! **Stays.** Each row has one box, but for the first, which has the heads of all columns and in which no line begins:
//! that is why no search for a way is needed.
//!
//! - `lines`: what leads from one row to another, and the lane that it takes
//! - `strips`: the lines between two columns, by what they have in common
//! - `places`: where columns and rows begin
//! - `columns`: columns with the strips between them
//! - `routes`: the way of a line, as numbers
//! - `laws`: what holds of all of these
#![tactic(auto)]

mod columns;
mod laws;
mod lines;
mod places;
mod routes;
mod strips;

pub use columns::{Columns, columns_of};
pub use laws::layout_laws;
pub use lines::{Hub, Lane, Line};
pub use places::{Places, places_of};
pub use routes::{Route, route_of};
