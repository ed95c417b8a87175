//! What the statements of a program need of the hosts that run them, what its reads tell, and who reads its variables;
//! and plans, which give each field and statement a host.
//!
//! **Promises.** Of each statement: what it tells its host, who has to back that host, what its reads tell, and which
//! variables it reads (`need_laws`).
//!
//! **Begin** with `specs/Needs.antt`; `needs_of` is the call.
//!
//! **Stays.** The four columns are read off one list of statements, so a statement that tells or needs more says so
//! there alone.
//!
//! - `needs`, `plan`: the public types. `specs/Needs` goes over the statements of the tree and says of each what it
//!   tells, who has to back it, what its reads tell and which variables it reads. All four columns of the needs are
//!   read off that list
#![tactic(auto)]

mod backing;
mod expressions;
mod finding;
mod laws;
mod needs;
mod place;
mod plan;
mod reads;
mod statements;
mod uses;
mod variables;

pub use finding::needs_of;
pub use laws::{need_examples, need_laws};
pub use needs::Needs;
pub use plan::Plan;
pub use variables::label_of;
