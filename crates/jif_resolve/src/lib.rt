//! The names of a program: what each stands for, and what is refused.
//!
//! **Promises.** The names of a draft stand for one program or are refused for the first of its faults (`resolve_laws`,
//! `verdict_laws`), and a program that comes of a draft is numbered, named and labelled as the crates above need it
//! (`program_laws`).
//!
//! **Begin** with `specs/Faults.antt` (what is refused) and `specs/Resolved.antt` (what comes of the rest); `resolve`
//! is the call.
//!
//! **Stays.** The order of faults, by kind and then by place, which users see.
//!
//! Over the mirrors `DraftShape` and `ProgramTree`. Whatever is asked at a place of a draft is asked of what stands
//! before it: which names are taken, which locals are known, and how far it is counted. These come from counting
//! functions on blocks, and no state is handed through. In the code that finds the first fault each function takes the
//! first fault so far, and answers the first of it and of those of its part. What stands before a place is there a
//! `Scope`, which is handed through the statements and whose view is that place.
//!
//! In `src`, `draft_faults` finds the first fault of a draft, and its `main`. It goes through methods
//! (`method_faults`), statements (`statement_faults`) and expressions (`expression_faults`) to labels (`labels`) and
//! used names (`uses`), with the names of the whole program (`globals`) and those of a method (`scope`). `program_of`
//! makes the program of a draft without faults, with the same names. It goes through variables (`variables`), fields
//! (`fields`) and methods (`method_of`) to blocks (`block_of`), statements without blocks (`plain_statements`) and
//! expressions (`expr_of`), and to labels (`label_of`) and names of principals (`names`). `resolver` has the public
//! call, `resolve`, which does the one or the other.
#![tactic(auto)]

mod block_of;
mod context;
mod draft_faults;
mod expr_of;
mod expression_faults;
mod fault;
mod fields;
mod globals;
mod label_of;
mod labels;
mod laws;
mod meaning;
mod method_faults;
mod method_of;
mod names;
mod plain_statements;
mod program_of;
mod resolve_error;
mod resolver;
mod scope;
mod statement_faults;
mod uses;
mod variables;

pub use fault::{Fault, FaultKind};
pub use globals::Globals;
pub use laws::{
    first_laws, labelling_laws, limit_laws, program_laws, resolve_laws, result_laws, verdict_laws,
    worked_laws,
};
pub use meaning::Meaning;
pub use resolve_error::ResolveError;
pub use resolver::resolve;
