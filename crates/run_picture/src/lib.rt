//! The picture of a run: from the files of a program, its hosts and a script to the chart of its events, or to a
//! refusal.
//!
//! **Promises.** For three files one verdict is due, and it is put: the chart of the run that the script says, or what
//! `replay` refuses. Where some host misbehaves, a field is marked as kept exactly where the headline of `jifsplit
//! replay` speaks of it: its own host does not misbehave, and by the labels of the program no host that does may affect
//! it. Where none misbehaves the headline speaks of all fields, and none is marked.
//!
//! **Begin** with `specs/RunDue.antt`; `run_due` is the call. `run_sheet` says what stands in a chart, and `run_chart`
//! how it looks.
//!
//! **Stays.** It refuses what `replay` refuses, in the same words. No copy of a world is made.
//!
//! - `due`: what is due for three files that were loaded
//! - `drawing`: the text of a chart, from the rows of a run
//! - `laws`: one thing is due, and some thing is; what is drawn happened; and which fields are kept
#![tactic(auto)]

mod drawing;
mod due;
mod laws;

pub use due::run_due;
pub use laws::run_picture_laws;
