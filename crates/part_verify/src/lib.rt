//! Whether a host may run its own part of a split file, whoever made the file.
//!
//! A part is sound where each thread that starts at an entry names only what the need of that entry has, and where no
//! instruction shows another host what that host may not see. So a host that looks at its part itself trusts none of
//! those who split the program.
//!
//! **Promises.** A part that `verify` accepts is sound, one that it refuses is not, and a thread of a host with a sound
//! part names nothing beyond the need of the entry at which it started (`verify_laws`, `thread_laws`).
//!
//! **Begin** with `specs/SoundPart.antt`.
//!
//! **Stays.** It looks at the code alone, and trusts nobody's plan.
//!
//! A host looks at its own part of split code, with no look at the program or the plan.
//!
//! A walk for each entry would take entries times instructions. So each place has a word that has all that is named
//! there and behind it, at first all ones. A walk goes on where that word is not within its need, and takes at least
//! one bit away, so it is no longer than 64 visits of each instruction, over all entries together. The proof speaks of
//! single steps from place to place, and of no paths: what is named at a place is within its word, and the words of the
//! next places are within it (`IsBounded`). Only its end goes along a path, once. A call on the own host goes on at an
//! entry that the first one does not lead to. So a thread need not stand under the entry of its mark, but under some
//! entry whose need is within that entry's (`IsCovered`), and the call itself names the next such entry. Where
//! operations get a new case, `goes_on`, `NamesWithin` and `ShowsWell` have no clause for the others, so the check
//! stops at each of them.
//!
//! - `part`: the check: first the needs of the entries, one after the other, then what the instructions show
//! - `weak`: the walk from one entry, with a bound for each place
//! - `names`, `shows`: the two tests of an operation
//! - `errors`: why a part was refused
//! - `laws`, `threads`: laws of what a part is refused for, and of the threads of a host with a sound part
#![tactic(auto)]

mod errors;
mod laws;
mod names;
mod part;
mod shows;
mod threads;
mod weak;

pub use errors::VerifyError;
pub use laws::verify_laws;
pub use part::verify;
pub use threads::thread_laws;

#[cfg(test)]
mod tests;
