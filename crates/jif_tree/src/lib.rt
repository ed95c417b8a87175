//! Programs as trees, drafts of them, the values of operators, and what a plain run of a program does to its fields.
//!
//! **Promises.** It says what programs are and what they mean: the plain run that everything above is measured against,
//! the rules of labels, and what misbehaving hosts may make of a run.
//!
//! **Begin** with `specs/SourceRun.antt` (the plain run), `specs/LabelRules.antt` (the labels) and `specs/Altered.antt`
//! (the altered run).
//!
//! **Stays.** A rule here is a rule of the language: docs/LANGUAGE.md says the same in words.
//!
//! - `program`, `draft`: programs whose names are resolved, and programs as they are written
//! - `store`, `operators`: the elements of fields, and the values of operators
//! - `labels`, `methods`: what a program has under a number: labels of fields and methods, parameters and results
//! - `laws`: trees of nested blocks, and altered runs
#![tactic(auto)]

mod draft;
mod labels;
mod laws;
mod methods;
mod operators;
mod program;
mod store;

pub use draft::{
    Draft, ExprDraft, FieldDraft, LabelDraft, MethodDraft, NameDraft, ParamDraft, PolicyDraft,
    StmtDraft, StmtKindDraft,
};
pub use labels::{begin_label, crossed, field_label};
pub use laws::{altered_examples, altered_laws, tree_laws};
pub use methods::{params_of, result_of};
pub use operators::{binary_value, inverted, negated};
pub use program::{Checked, Expr, Field, Method, Program, Stmt, StmtKind, Var};
pub use store::{Row, Store};
