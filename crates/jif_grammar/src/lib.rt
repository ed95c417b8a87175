//! The grammar of programs: which tokens are a program, and at which token others are refused.
//!
//! **Promises.** Which tokens are a program, and for which token others are refused: one meaning or one refusal
//! (`grammar_laws`, `refusal_laws`), found in one walk (`verdict_laws`).
//!
//! **Begin** with `specs/Phrases.antt` and `specs/Spelling.antt`: the grammar by its spelling.
//!
//! **Stays.** The place of a refusal is the first token with which no program goes on; users see its number.
//!
//! It has definitions and laws alone. The calls in `laws` do nothing.
#![tactic(auto)]

mod laws;
mod what;

pub use laws::{due_laws, grammar_laws, refusal_laws, verdict_laws, width_laws};
pub use what::What;
