//! Prints the tokens of a program with their numbers, lines and columns, so that a refusal which names a token can be
//! found in the text.
//!
//! **Promises.** Each token of a program is listed with its number, line and column.
//!
//! **Begin** with `specs/Listing.antt`.
//!
//! **Stays.** The numbers are those of refusals.
#![tactic(auto)]

mod answers;
mod listing;

use answers::jiftokens;
use command_words::words;
use js_base::{RealFiles, RealSink, Status};
use std::io;
use std::process::ExitCode;

fn main(rt: HostRuntime) -> ExitCode {
    let Ok(words) = words(&rt) else {
        return ExitCode::from(Status::NoMemory.code());
    };
    let mut files = RealFiles::new(&rt);
    let mut out = RealSink::new(io::writer(&rt));
    let mut err = RealSink::new(rt.stderr());
    let status = jiftokens(rt.alloc(), &words, &mut files, &mut out, &mut err);
    ExitCode::from(status.code())
}
