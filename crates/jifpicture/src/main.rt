//! Draws where the parts of a program stand that computes over the secrets of several parties, and how control and
//! values go between its hosts, by its plan or in a run.
//!
//! **Promises.** The picture of the plan that `check` finds: a box for each host, field and statement, where the plan
//! has it, an arrow for each message that an instruction asks for, and a mark at each statement that releases
//! something. With a script it puts the chart of the run that the script says, as `run_picture` promises it.
//!
//! **Begin** with `specs/Due.antt` and `specs/Picture.antt`; `plan_picture` says how the picture looks, and `run_chart`
//! how the chart does.
//!
//! **Stays.** It refuses what `check` refuses, or with a script what `replay` refuses, in the same words.
//!
//! It does not stand on `split_cli`, so that its proof need not wait for that one. What is due is put out by
//! `answers` of `front_end`, as that of `jifsplit` is.
//!
//! - `picture`: what the picture is drawn by, and its text
//! - `due`: what is due for two words or three: the files, as `check` and `replay` read them, and the picture or the
//!   chart
//! - `top`: the public call: puts out what is due
//! - `laws`: what stands in the picture of a program; one thing is due, and some thing is
#![tactic(auto)]

mod due;
mod laws;
mod picture;
mod top;

use crate::top::jifpicture;
use command_words::words;
use js_base::{RealFiles, RealSink, Status};
use std::io;
use std::process::ExitCode;

fn main(rt: HostRuntime) -> ExitCode {
    let Ok(words) = words(&rt) else {
        return ExitCode::from(Status::NoMemory.code());
    };
    let mut files = RealFiles::new(&rt);
    let mut out = RealSink::new(io::writer(&rt));
    let mut err = RealSink::new(rt.stderr());
    let status = jifpicture(rt.alloc(), &words, &mut files, &mut out, &mut err);
    ExitCode::from(status.code())
}
