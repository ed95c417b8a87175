//! The words of a command line.
//!
//! **Promises.** Nothing by a clause. It gives the words of a command line as texts, none where one is no text.
//!
//! **Begin** with `words`, the only call.
//!
//! **Stays.** It has no contract that a word could break: what the system hands over is taken as it is.
#![tactic(auto)]

use js_base::OutOfMemory;
use std::rt::Env;
use std::{env, io};

/// The words after the program's name. A command line that is not a text asks for nothing, like an empty one.
///
/// # Errors
/// Memory ran out.
pub fn words(rt: &(impl Env + AllocGlobal)) -> Result<Vec<String>, OutOfMemory> {
    match all_words(rt) {
        Ok(words) => Ok(words),
        Err(error) if error.kind() == io::ErrorKind::OutOfMemory => Err(OutOfMemory),
        Err(_) => Ok(Vec::new(rt.alloc())),
    }
}

/// The words after the program's name. A word that is not a text is an error.
fn all_words(rt: &(impl Env + AllocGlobal)) -> io::Result<Vec<String>> {
    let mut words = Vec::new(rt.alloc());
    for word in env::args(rt)?.skip(1) {
        words.push(word)?;
    }
    Ok(words)
}
