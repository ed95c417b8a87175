//! A call of `jifsplit` over files and sinks in memory, and what it leaves.

use crate::files::sink;
use crate::rows::words;
use js_base::{MemFiles, MemSink};
use split_cli::jifsplit;
use std::alloc::Global;
use std::test::Fail;

/// What a call puts and answers: its output, a line that ends it, its error output, and its status.
fn called(
    alloc: Global,
    files: &mut MemFiles,
    line: &str,
    out: &mut MemSink,
    err: &mut MemSink,
) -> Result<String, Fail> {
    let words = words(alloc, line)?;
    let status = jifsplit(alloc, words.as_slice(), files, out, err);
    let put = str::from_utf8(out.taken())?;
    let told = str::from_utf8(err.taken())?;
    Ok(format!(in alloc; "{put}errors:\n{told}{status:?}")?)
}

/// What a call leaves with the words of a line, where the output and the error output each fail at the call of the
/// given number.
pub fn call_text(
    alloc: Global,
    files: &mut MemFiles,
    line: &str,
    out_fails: &str,
    err_fails: &str,
) -> Result<String, Fail> {
    let mut out = sink(alloc, out_fails)?;
    let mut err = sink(alloc, err_fails)?;
    called(alloc, files, line, &mut out, &mut err)
}
