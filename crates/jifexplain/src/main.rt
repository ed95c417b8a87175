//! Tells why a program is refused that computes over the secrets of several parties: the place in the text, the
//! reasons, and what to try; and why hosts may not hold parts of it.
//!
//! **Promises.** Where `jifsplit check` refuses a program or a host file, what explains that refusal is put. Where it
//! accepts them, there is a line for each part and each host that may not hold it. For all words something is due, and
//! one thing, with the status of `check` (`explanation_laws`). What each line says is so, and a line is told wherever
//! one is due (`line_laws`).
//!
//! **Begin** with `src/top.rt`, then `specs/Due.antt`.
//!
//! **Stays.** What is refused, and what is asked about places, is read once more. So nothing has to be kept for what
//! does not ask. A stage that is read once more may stop too, as far as the definition says (`DueThen`), so that no
//! function has to show that it does not.
//!
//! - `shown`: what `explain_texts` tells of a refused program, as what is due; why a host file is refused
//! - `places`: what is told of the places of an accepted program, of all its parts or of those that a word means
//! - `explained`: what explains a refusal
//! - `due`: what is due for two words, or three
//! - `laws`: a refusal has one explanation, with the status of `check`, and for all words something is due
//! - `line_laws`: what lines say is so, and each line that is due is told
//! - `top`: the public call: puts out what is due
#![tactic(auto)]

mod due;
mod explained;
mod laws;
mod line_laws;
mod places;
mod shown;
mod top;

use crate::top::jifexplain;
use command_words::words;
use js_base::{RealFiles, RealSink, Status};
use std::io;
use std::process::ExitCode;

fn main(rt: HostRuntime) -> ExitCode {
    let Ok(words) = words(&rt) else {
        return ExitCode::from(Status::NoMemory.code());
    };
    let mut files = RealFiles::new(&rt);
    let mut out = RealSink::new(io::writer(&rt));
    let mut err = RealSink::new(rt.stderr());
    let status = jifexplain(rt.alloc(), &words, &mut files, &mut out, &mut err);
    ExitCode::from(status.code())
}
