//! Replays what the hosts of a program do that computes over the secrets of several parties.
//!
//! **Promises.** Nothing by itself. `main` makes the real files and outputs, hands them to `split_cli`, and gives its
//! status back.
//!
//! **Begin** with `main`; all that is promised stands in `split_cli`.
//!
//! **Stays.** Nothing is decided here.
#![tactic(auto)]

use command_words::words;
use js_base::{RealFiles, RealSink, Status};
use split_cli::jifsplit;
use std::io;
use std::process::ExitCode;

fn main(rt: HostRuntime) -> ExitCode {
    let Ok(words) = words(&rt) else {
        return ExitCode::from(Status::NoMemory.code());
    };
    let mut files = RealFiles::new(&rt);
    let mut out = RealSink::new(io::writer(&rt));
    let mut err = RealSink::new(rt.stderr());
    let status = jifsplit(rt.alloc(), &words, &mut files, &mut out, &mut err);
    ExitCode::from(status.code())
}
