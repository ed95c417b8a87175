//! What is held against labels, and what brings it into them: why labels are refused. Definitions and their laws.
//!
//! **Promises.** A reason that is told of a refused statement holds, and what fails has one (`reason_laws`,
//! `refusal_laws`).
//!
//! **Begin** with `specs/Traits.antt` and `specs/Causes.antt`; `label_refusal` is the call.
//!
//! **Stays.** The causes follow `LabelRules` of `jif_tree` row by row: a rule that changes there changes here.
//!
//! It is for whoever says why labels are refused. A trait is what is held against a label: an
//! owner keeps it from a reader, or a principal does not trust it. A join has a trait exactly where a part has it, so
//! one walk over the parts of a label finds a cause for either kind.
//!
//! - `reason`: traits, causes and reasons as values, and what a statement wants
//! - `traits`, `listed_traits`: all that may be held, and what is listed where a constraint fails
//! - `values`: the labels of expressions, and what brings one trait into them
//! - `search`, `search_place`: the search along a block for what is refused first, and for what brings one trait into
//!   the label that is asked about; `specs/Search` says what it finds
//! - `refusal`: `label_refusal`: the search along the methods, once for the refused statement and once more for each
//!   trait that is listed of it
//! - `laws`: the laws
#![tactic(auto)]

mod demand;
mod laws;
mod listed_traits;
mod reason;
mod refusal;
mod search;
mod search_place;
mod traits;
mod values;

pub use demand::Demand;
pub use laws::{
    cause_examples, cause_laws, listing_laws, reason_examples, reason_laws, refusal_laws,
    trait_laws,
};
pub use listed_traits::{acts_for, listed};
pub use reason::{Cause, Reason, Source, Trait, Via, Wanted};
pub use refusal::{Refusal, declared, label_refusal};
pub use search_place::{Known, Place, Stand};
pub use traits::{all_distrusts, all_pairs};
pub use values::{assign, cause_where, expr_cause, expr_label, or_else, through};
