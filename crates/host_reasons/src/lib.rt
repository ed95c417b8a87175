//! Why a host file is refused, told with the place: which table and which key, which label, where a reader of TOML
//! stopped.
//!
//! **Promises.** What `hosts_told` tells is what `specs/HostsTold.antt` says of the bytes and the refusal
//! (`host_told_laws`: one thing is told, and some thing is), and a file has one first bad key, which is the one that
//! its refusal names (`host_reason_laws`). Of a text that is no TOML the place is that of the reader of TOML, of which
//! no more is promised than that it lies in the text.
//!
//! **Begin** with `specs/BadKeys.antt`, then `specs/HostsTold.antt`.
//!
//! **Stays.** What is refused is read once more, so that an accepted file pays nothing.
//!
//! - `bad_key`: the first bad key of a file: its table, and in which way it is bad
//! - `labels`: the text of a host's label
//! - `told`: what is told of a refusal, and what to try
//! - `laws`: one bad key, which is that of the refusal; worked messages
#![tactic(auto)]

mod bad_key;
mod labels;
mod laws;
mod told;

pub use bad_key::{BadKey, KeyFault, first_bad_key};
pub use laws::{host_reason_examples, host_reason_laws, host_told_laws};
pub use told::hosts_told;
