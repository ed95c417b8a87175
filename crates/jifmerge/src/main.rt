//! Merges the journals of all hosts of a program that computes over the secrets of several parties into one script,
//! which says what happened.
//!
//! **Promises.** One script is due for journals, or one refusal, and that script is read again and replayed
//! (`merged_laws`).
//!
//! **Begin** with `specs/Due.antt` and `specs/Merged.antt`.
//!
//! **Stays.** It saves nothing, and loads no more files than there are words.
//!
//! It stands on `front_end` and `record_merge`, and not on `split_cli`. Its laws stand on `saved_code` too, for the
//! code of a program that is accepted, and on `jif_parse`, for the places of names: without a fault names at different
//! places are different (`AcceptedNames`). The number of journals is refused behind the host file and before the names
//! of the program, so the stages of `front_end` are called one by one; that they have one outcome follows from that of
//! a whole program (`as_placed` in `proofs/OneVerdict`).
//!
//! - `due`: what is due for the words: the files, the count of journals, and the program, whose parts come before and
//!   behind that count
//! - `merged`: what is due for starting values and journals
//! - `printing`: the script: settings, and then events
//! - `top`: the public call: puts out what is due
//! - `laws`: one thing is due, and a script that is due is read again
#![tactic(auto)]

mod due;
mod laws;
mod merged;
mod printing;
mod top;

use crate::top::jifmerge;
use command_words::words;
use js_base::{RealFiles, RealSink, Status};
use std::io;
use std::process::ExitCode;

fn main(rt: HostRuntime) -> ExitCode {
    let Ok(words) = words(&rt) else {
        return ExitCode::from(Status::NoMemory.code());
    };
    let mut files = RealFiles::new(&rt);
    let mut out = RealSink::new(io::writer(&rt));
    let mut err = RealSink::new(rt.stderr());
    let status = jifmerge(rt.alloc(), &words, &mut files, &mut out, &mut err);
    ExitCode::from(status.code())
}
