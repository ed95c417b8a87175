//! The chart of a run, as an SVG text: which host does what in which event, which messages go between the hosts, and
//! what becomes of their control stacks, threads and fields.
//!
//! **Promises.** The chart is the text that is defined (`push_chart`). Each event has a row, in order, no row and no
//! column meets another, the bar of a host says over each height whether a thread of it runs or waits, and a cross, a
//! tip, a check and a sign of the legend stand exactly where they are to (`chart_laws`).
//!
//! **Begin** with `specs/Chart.antt`; `specs/Rows.antt` and `specs/Columns.antt` say what stands where.
//!
//! **Stays.** All texts of the sheet are cut before they are escaped. All lengths are whole pixels below 2^32, but for
//! the edges of boxes. Each row is drawn by tables of columns and rows, so the time goes with the number of rows.
//!
//! - `sheet`: what a chart is drawn by
//! - `style`: the colours and strokes
//! - `texts`: texts, and how many letters have room
//! - `columns`: where the columns of hosts are, and how far the lifelines are apart
//! - `rows`: where the rows of events are
//! - `arrows`: where messages go, and their texts
//! - `events`: what stands in a row
//! - `bars`: what threads do, on the lifelines
//! - `heads`: the heads of hosts and the lifelines
//! - `foot`: messages in flight at the end, and the fields
//! - `legend`: what the strokes and marks stand for
//! - `chart`: the whole
//! - `laws`: what holds of it
#![tactic(auto)]

mod arrows;
mod bars;
mod chart;
mod columns;
mod events;
mod foot;
mod heads;
mod laws;
mod legend;
mod rows;
mod sheet;
mod style;
mod texts;

pub use chart::push_chart;
pub use laws::chart_laws;
pub use sheet::{
    ChartEvent, ChartField, ChartFlight, ChartHost, ChartNote, ChartRow, ChartSheet, ChartTold,
    Mark, Start, Stroke,
};

#[cfg(test)]
mod tests;
