//! What every crate stands on: ids, limits, exit codes, names and texts, and the outside world as traits.
//!
//! **Promises.** Numbers and names are read as they are written, words of bits are sets, and an object in memory tells
//! what it holds and fails exactly at the calls that were listed. Each call that fails counts a fault, and no other
//! does.
//!
//! **Begin** with `specs/Files.antt` and `specs/Sink.antt`, what loads, saves and puts mean, and with `limits`, which
//! has all limits.
//!
//! **Stays.** The exit codes of `status` and the limits stand in docs/FORMATS.md, and scripts rely on them. A change
//! here proves every crate anew.
//!
//! `proofs/Decisions` has facts that can be decided, by what they are made of. `principals`, `label_lattice` and
//! `entry_check` have a file of the same name for theirs. By these it is proved that something is due at each stage.
//!
//! - `bits`: words of 64 bits, as sets of small numbers
//! - `names`: which bytes are a name, and which begin one
//! - `named`: items that have names: the first of a name, the first whose name repeats an earlier one
//! - `text`, `digits`: owned copies of texts, lines, numbers in decimal digits
//! - `ids`: the numbers of principals, hosts, fields, statements, entries, requests and frames
//! - `limits`: all limits in one place. The parser keeps programs within them, and the other readers their files
//! - `status`: how a run ends, and its exit code
//! - `out_of_memory`: the error of what fails only where memory runs out
//! - `files`, `sink`: the two traits. A ghost member says what is held or was taken, or that the object does not tell
//! - `mem_files`, `mem_sink`, `listed`: objects in memory that fail at the calls that were listed
//! - `calm_files`, `calm_sink`: objects in memory that never fail
//! - `named_files`: the pairs of a name and bytes in which both kinds of files are kept
//! - `real_files`, `real_sink`: the adapters for the system
//! - `binary_operator`: the binary operators
#![tactic(auto)]

mod binary_operator;
pub mod bits;
mod calm_files;
mod calm_sink;
pub mod digits;
mod files;
mod ids;
pub mod limits;
mod listed;
mod mem_files;
mod mem_sink;
pub mod named;
mod named_files;
pub mod names;
mod out_of_memory;
mod real_files;
mod real_sink;
mod sink;
mod status;
pub mod text;

pub use binary_operator::BinOp;
pub use calm_files::CalmFiles;
pub use calm_sink::CalmSink;
pub use files::{Files, LoadError, SaveError};
pub use ids::{
    EntryId, FieldId, FrameId, HostId, MethodId, PrincipalId, RequestId, SiteId, StmtId, VarId,
};
pub use mem_files::MemFiles;
pub use mem_sink::MemSink;
pub use out_of_memory::OutOfMemory;
pub use real_files::RealFiles;
pub use real_sink::RealSink;
pub use sink::{PutError, Sink};
pub use status::Status;
