//! Principals, and who acts for whom.
//!
//! **Promises.** Who acts for whom is the smallest relation that holds the declared pairs, each for itself, and goes
//! along chains (`acts_for_laws`); names and pairs are declared in one way or refused for one cause
//! (`principals_laws`).
//!
//! **Begin** with `specs/ActsFor.antt`.
//!
//! **Stays.** The order of the declared principals: labels count their owners and readers by it, and so do split files.
//!
//! - `principals`: the public type: names, declared pairs, and who acts for whom
//! - `laws`: acts-for is the smallest such relation; names and pairs are declared in one way at most
//! - `declaring`: which names and pairs can be declared
//! - `closure`: the rows of bits that keep the answer to "acts for"
#![tactic(auto)]

mod closure;
mod declaring;
mod laws;
mod principals;

pub use laws::{acts_for_laws, principals_laws};
pub use principals::{PrincipalError, Principals};
