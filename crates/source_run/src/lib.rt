//! Runs programs plainly, with no hosts: one statement a step, on one store.
//!
//! **Promises.** `run` makes exactly so many steps of the plain run as it says, and ends as that does.
//!
//! **Begin** with the contract of `run`, over `specs/SourceRun.antt` of `jif_tree`; `specs/Machine.antt` has a step of
//! the machine.
//!
//! **Stays.** What a step is: reports and the bound of a drive count them.
//!
//! `run` steps a machine (`machine`) whose tasks are cursors into the tree (`tasks`), so no statement is copied. A call
//! has a frame of its own variables and of results that it was left (`frames`, `windows`, `cells`), which is given back
//! when nothing of the call is pending. `specs/Machine` says what a step of the machine does, and `proofs/Agreement`
//! how it agrees with a configuration of the plain run. `laws` has facts about plain runs alone.
#![tactic(auto)]

mod calls;
mod cells;
mod frames;
mod laws;
mod machine;
mod plain;
mod tasks;
mod values;
mod windows;

pub use laws::{behind_laws, change_laws, origin_laws, run_laws};
pub use plain::{RunEnd, run};
