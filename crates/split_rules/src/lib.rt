//! How a program is split into the code of its hosts: definitions and their laws, and which values that code releases.
//!
//! **Promises.** Which code a program in its places is split into, and what holds of every such code: it is sound, asks
//! for what is granted alone, hands trust on to who has it, and keeps pace with the program.
//!
//! **Begin** with `specs/Walk.antt` (the walk over the program) and `specs/SplitCode.antt` (the code that is read off
//! it); then `specs/Typing.antt`.
//!
//! **Stays.** The walk goes by the spots of `msg_cost`, so that a plan costs what its code sends.
//!
//! It has definitions and laws, whose calls in `laws` do nothing, and `releases_in`, which tells from a checked program
//! and its code which operands of `declassify` each instruction evaluates.
//!
//! The instructions that evaluate expressions of a statement stand in a row on its host, in the order in which the
//! expressions are evaluated. So the pass of `releases_in` keeps the rows of one statement that are left (`rows_for`):
//! the first instruction that evaluates finds all of them, and each takes one. It looks neither at parameters nor at
//! temporaries. A statement is found by its number, among all statements in the order of the text (`statements_in`).
#![tactic(auto)]

mod expressions;
mod laws;
mod operands;
mod releases;
mod statements;

pub use expressions::{code_expr, reads_in};
pub use laws::{
    asking_laws, opening_examples, opening_laws, pace_laws, split_laws, trust_laws,
    typing_examples, typing_laws, worked_laws,
};
pub use releases::{ReleaseTable, releases_in};
