//! Prints the fields of a host after its journal: what a party sees of its own host when a run is over.
//!
//! **Promises.** The fields are those of every run of the host that has this journal, and there is one; or a line is
//! named up to which no run has it (`field_report_laws`).
//!
//! **Begin** with `src/top.rt`, then `specs/Due.antt` and `specs/Runs.antt`.
//!
//! **Stays.** It needs no key and no other journal, and saves nothing.
//!
//! - `words`: the words, and the files that they name
//! - `names`: whether a line tells which field and which variable is meant
//! - `lines`: the lines of the journal, or the first that is refused
//! - `fields`: the lines of the fields on a host
//! - `due`: what is due, from words and files on
//! - `top`: the public call: puts out what is due
//! - `laws`: one thing is due, and what the fields are
#![tactic(auto)]

mod due;
mod fields;
mod laws;
mod lines;
mod names;
mod top;
mod words;

use crate::top::jiffields;
use js_base::{RealFiles, RealSink, Status};
use std::io;
use std::process::ExitCode;

fn main(rt: HostRuntime) -> ExitCode {
    let Ok(words) = command_words::words(&rt) else {
        return ExitCode::from(Status::NoMemory.code());
    };
    let mut files = RealFiles::new(&rt);
    let mut out = RealSink::new(io::writer(&rt));
    let mut err = RealSink::new(rt.stderr());
    let status = jiffields(rt.alloc(), &words, &mut files, &mut out, &mut err);
    ExitCode::from(status.code())
}
