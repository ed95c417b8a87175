//! Which hosts may hold the fields and the statements of a program.
//!
//! **Promises.** A host is in the word of a field or a statement exactly where it may hold that, and a program is
//! refused for the first part that no host may hold.
//!
//! **Begin** with `specs/PlaceRules.antt` (`MayHoldField`, `MayHoldStatement`); `allowed_on` is the call.
//!
//! **Stays.** Of these tests all laws of who may see and affect what are made.
//!
//! `allowed_on`: a word of hosts for each field and each statement.
#![tactic(auto)]

mod allowed;
mod holders;
mod laws;
mod place_error;
mod rules;

pub use allowed::Allowed;
pub use laws::place_rule_laws;
pub use place_error::PlaceError;
pub use rules::allowed_on;
