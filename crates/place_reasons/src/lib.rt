//! Why a host may not hold a field or a statement of a program. Definitions and their laws.
//!
//! **Promises.** What `field_reason`, `head_reason` and `statement_reason` answer is the reason of the definition: the
//! first row that holds, by its first pair or principal. A host for which there is one may not hold the part, and one
//! for which there is none may (`place_laws`). What each row claims is so by itself, whom it names is declared, and the
//! source of a cause that it tells has the pair (`refuted_laws`). Over a whole program the parts without a reason are
//! just those that the host may hold (`program_place_laws`).
//!
//! **Begin** with `specs/Reasons.antt`; `specs/Refuted.antt` says what rows claim, and `specs/ProgramReasons.antt` has
//! the reasons of all parts of a program.
//!
//! Rows are decided by the labels that were checked; only then is looked for what brings the pair in, by one walk over
//! the program for each question and pair that is asked about first (`KeptAnswers`).
//!
//! **Stays.** The rows follow the tests of `place_rules` and the needs of `need_labels`: a test that changes there
//! changes here.
#![tactic(auto)]

mod answers;
mod backed;
mod fields;
mod kept;
mod laws;
mod pairs;
mod question;
mod reason;
mod site;
mod statements;
mod told;
mod uses;
mod walk;

pub use fields::{field_reason, fields_told};
pub use kept::KeptAnswers;
pub use laws::{place_examples, place_laws, program_place_laws, refuted_laws};
pub use reason::{Needed, PlaceReason};
pub use site::{Search, labels_of};
pub use statements::{head_reason, statement_reason};
pub use told::Told;
