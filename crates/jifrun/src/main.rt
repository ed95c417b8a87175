//! Launches the nodes of all hosts of a program that computes over the secrets of several parties, on this machine.
//!
//! **Promises.** Nothing by itself. `main` makes the real files and the spawner of the system, hands them to `launch`,
//! and gives its status back.
//!
//! **Begin** with `main`; all that is promised stands in `launch`.
//!
//! **Stays.** Nothing is decided here.
#![tactic(auto)]

use child_programs::{RealSpawner, Stand};
use command_words::words;
use js_base::{RealFiles, RealSink, Status};
use launch::jifrun;
use std::alloc::AllocError;
use std::process::ExitCode;
use std::{env, io, rt};

/// The program of a node, which stands beside this one.
const NODE: &str = "jifhost";

fn main(rt: HostRuntime) -> ExitCode {
    let Ok(words) = words(&rt) else {
        return ExitCode::from(Status::NoMemory.code());
    };
    let Ok(stand) = node_beside(&rt) else {
        return ExitCode::from(Status::NoMemory.code());
    };
    let mut files = RealFiles::new(&rt);
    let mut spawner = RealSpawner::new(&rt, stand);
    let mut out = RealSink::new(io::writer(&rt));
    let mut err = RealSink::new(rt.stderr());
    let status = jifrun(
        rt.alloc(),
        &words,
        &mut files,
        &mut spawner,
        &mut out,
        &mut err,
    );
    ExitCode::from(status.code())
}

/// What is started for a node: the file in the folder of this program, or where the system does not say which that is,
/// the program of that name.
fn node_beside<R: rt::Files + AllocGlobal>(runtime: &R) -> Result<Stand, AllocError> {
    let alloc = runtime.alloc();
    let file = match env::current_exe(runtime) {
        Ok(own) => own.with_file_name(alloc, NODE)?.into_string(),
        Err(_) => String::from_str(alloc, NODE)?,
    };
    Ok(Stand {
        name: String::from_str(alloc, NODE)?,
        file,
        first: Vec::new(alloc),
    })
}
