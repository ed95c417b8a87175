//! Laws of programs whose names were resolved, by the draft of which they are the program.
//!
//! **Promises.** All labels in such a program are labels over the declared principals, as the laws of reasons ask
//! (`labels_over`). Its fields, methods and statements are those of the draft in the same order, and each
//! statement has the line of the token at which the draft has it (`fields`, `methods`). So what is told of a part by
//! its number stands where the part is written.
//!
//! **Begin** with `specs/Written.antt`.
//!
//! - `laws`: the laws
#![tactic(auto)]

mod laws;

pub use laws::resolved_program_laws;
