//! The picture of a plan, as an SVG text: which host has which part of a program, and how control and values go.
//!
//! **Promises.** The picture is the text that is defined (`push_plan`). Each field, statement and relay has one box, in
//! a row of its own and in the column of its host, no box meets another, and no way crosses a box but those at its ends
//! (`plan_laws`). The legend has what is drawn and nothing else.
//!
//! **Begin** with `specs/Picture.antt`; `specs/Rows.antt` and `specs/Lines.antt` say what stands where.
//!
//! **Stays.** A text is cut to its room before it is escaped. All lengths are whole pixels, but for the edges of boxes.
//!
//! - `sheet`: what a picture is drawn by
//! - `texts`: the texts in boxes, and how wide they are
//! - `rows`: what stands in which row
//! - `columns`: how wide the columns are
//! - `lines`: ways as lines from row to row
//! - `legend`: what the strokes stand for
//! - `loops`: bands and brackets of loops
//! - `paths`: the strokes of ways
//! - `boxes`: the boxes of hosts, fields, statements and relays
//! - `picture`: the whole
//! - `laws`: what holds of it
#![tactic(auto)]

mod boxes;
mod columns;
mod laws;
mod legend;
mod lines;
mod loops;
mod paths;
mod picture;
mod rows;
mod sheet;
mod texts;

pub use laws::plan_laws;
pub use picture::push_plan;
pub use sheet::PictureSheet;
