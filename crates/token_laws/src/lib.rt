//! What holds of tokens, requests and numbers in every world of hosts, some of which may misbehave: definitions and
//! their laws.
//!
//! **Promises.** In every world, whoever misbehaves, a token that misbehaving hosts were not sent is held once, a
//! request has one answer, and numbers never come again (`holder_laws`, `request_laws`, `number_laws`).
//!
//! **Begin** with `specs/Holders.antt`, and `specs/Reached.antt` for the worlds that it speaks of.
//!
//! **Stays.** It knows no program: it holds of any sound code.
#![tactic(auto)]

mod laws;

pub use laws::{holder_laws, number_laws, reached_laws, request_laws, token_examples};
