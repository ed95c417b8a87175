//! The label check: whether a program keeps what its labels say.
//!
//! **Promises.** A program is accepted exactly where each statement keeps the rules, and is otherwise refused for the
//! first that does not (`failure_laws`).
//!
//! **Begin** with `specs/Checking.antt`; the rules themselves are `LabelRules` of `jif_tree`. `check` is the call.
//!
//! **Stays.** What a program that was accepted is known by (`label_rule_laws`), on which all laws of labels above rest.
//!
//! It goes once over the program, with the labels of variables so far and the program labels of statements so far. The
//! rules themselves are definitions of `jif_tree` (`LabelRules`): a list of what each statement asks for, of which
//! acceptance and the first failure are read off.
//!
//! - `checker`: `check`, the public call, and the methods of a program
//! - `statements`: blocks, and which statement is which
//! - `assignments`, `guards`, `calls`: what each kind of statement asks for
//! - `expressions`: the label of an expression, with what its parts ask for
//! - `constraints`, `permissions`: one constraint with its refusal; what the principals of an authority may do
//! - `variables`, `place`: the labels of variables and fields; what all statements of a method have in common
//! - `laws`: one failure comes first; program labels and labels of expressions stand above their parts
#![tactic(auto)]

mod assignments;
mod calls;
mod check_error;
mod checker;
mod constraints;
mod expressions;
mod guards;
mod laws;
mod permissions;
mod place;
mod statements;
mod variables;

pub use check_error::CheckError;
pub use checker::check;
pub use laws::{failure_laws, label_rule_laws, rule_examples};
