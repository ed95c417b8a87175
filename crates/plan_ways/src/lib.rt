//! What the picture of a plan has between its boxes: arrows, called ways, and the places at which control only passes.
//!
//! **Promises.** A way for each message that the code of a plan asks for, from where a value or control stands to where
//! it goes, and a relay for each entry at which a way begins or ends and that has no statement of its own.
//!
//! **Begin** with `specs/Stands.antt` (where control stands, and whose token is held), and go on with `specs/Ways.antt`
//! and `specs/Relays.antt`.
//!
//! **Stays.** Ways come in the order of hosts and instructions, since tracks are given out in this order. Each pass
//! goes once over the code, with tables by number, and the entries are gone over once for each host.
//!
//! - `ends`: kinds and ends of ways
//! - `tables`: tables by number
//! - `lasts`: the last statement inside each statement
//! - `stands`: where control stands at each place of the code
//! - `levels`: whose token is held there, and which entries stand behind the calls of a method
//! - `readers`: which statement of a host reads a variable first
//! - `asking`: the ways of an instruction
//! - `relays`: the entries at which control only passes
//! - `ways`: the whole
//! - `tips`: what a way stands for, in words
//! - `laws`: what holds of all ways
#![tactic(auto)]

mod asking;
mod ends;
mod lasts;
mod laws;
mod levels;
mod readers;
mod relays;
mod stands;
mod tables;
mod tips;
mod ways;

pub use ends::{Way, WayEnd, WayKind, WayText};
pub use laws::way_laws;
pub use relays::{Relay, RelayRole};
pub use tips::push_tip;
pub use ways::{PlanWays, ways_of};
