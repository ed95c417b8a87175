//! Runs the part of one host of a program that computes over the secrets of several parties, over Unix sockets.
//!
//! **Promises.** Nothing by itself. `main` makes the real links, journal and files, hands them to `node_engine`, and
//! gives its status back.
//!
//! **Begin** with `main`; all that is promised stands in `node_engine`.
//!
//! **Stays.** Nothing is decided here.
#![tactic(auto)]

use command_words::words;
use js_base::{RealFiles, RealSink, Status};
use node_engine::{NodeEnd, run_jifhost, say_end};
use node_links::{RealJournal, UnixLinks};
use std::process::ExitCode;

fn main(rt: HostRuntime) -> ExitCode {
    let end = match words(&rt) {
        Ok(words) => {
            let mut files = RealFiles::new(&rt);
            let mut links = UnixLinks::new(&rt);
            let mut journal = RealJournal::new(&rt);
            run_jifhost(rt.alloc(), &words, &mut files, &mut links, &mut journal)
        }
        Err(_) => NodeEnd {
            status: Status::NoMemory,
            refusal: None,
        },
    };
    let mut err = RealSink::new(rt.stderr());
    // The status is the answer, whether it can be said or not.
    let _said = say_end(rt.alloc(), &end, &mut err);
    ExitCode::from(end.status.code())
}
