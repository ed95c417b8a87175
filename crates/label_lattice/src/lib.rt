//! Labels, which say who may read a value and who trusts it.
//!
//! **Promises.** Labels flow, join and meet as sets of forbidden pairs and of trusting principals do (`label_laws`), a
//! label is read from tokens in one way (`read_label`), and its text reads back (`text_laws`).
//!
//! **Begin** with `specs/Label.antt` (`Forbids`, `Trusts`): these two alone read the bits.
//!
//! **Stays.** The words of a label, since split files hold them: 63 for the owners and one for who trusts.
//!
//! - `label`: the public type, with all that takes no memory
//! - `policy`: what a policy forbids and who trusts, as words of bits
//! - `tokens`: `read_label`. `pieces` cuts lists of tokens, `names` looks names up
//! - `printed`: `label_text`, the text of a label
//! - `laws`: the laws of labels and of their texts
#![tactic(auto)]

mod label;
mod laws;
mod policy;
mod printed;
mod tokens;

pub use label::{Label, READERS};
pub use laws::{label_laws, text_laws, written_laws};
pub use printed::label_text;
pub use tokens::read_label;
