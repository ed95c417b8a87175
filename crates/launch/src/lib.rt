//! Launches the nodes of all hosts of a host file on this machine, and waits for them.
//!
//! **Promises.** Each node of a host file is started that can be, in order, waited for, and its end told.
//!
//! **Begin** with `specs/Launching.antt`; `launch` and `jifrun` are the calls.
//!
//! **Stays.** All starts come before all waits, and nothing is allocated in between.
//!
//! Each call of `spawn` and of `wait` is a step between two states of the spawner (`SpawnerState`), and what many of
//! them leave is one record that grows by one (`one_started` and `one_ended` in `proofs/Starting`).
//!
//! - `launching`: `launch`: all starts, and then all waits. The lists of answers and ends get their room first, so that
//!   nothing is allocated between the first start and the last wait but by the spawner
//! - `child_end`: how a child ended
//! - `node_words`: the words for the node of each host
//! - `report`: the lines that say how nodes ended, and the status of the run
//! - `due`: what is due for the words: the host file, the launch, and the report
//! - `top`: `jifrun`, the public call: puts out what is due
#![tactic(auto)]

mod child_end;
mod due;
mod launching;
mod node_words;
mod report;
mod top;

pub use child_end::ChildEnd;
pub use launching::launch;
pub use top::jifrun;
