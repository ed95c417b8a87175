//! What is printed of how nodes ended, and the status of the run.

ghost use Rattle.std.specs.Prelude.{◌≡◌, ◌++◌, IfOk, OnOk, length, map, string_bytes};
ghost use Rattle.std.specs.List.{list_any};
ghost use Rattle.launch.specs.Report as reports;
ghost use Rattle.launch.specs.Report.{end_line, end_text, ended_otherwise, has_failed, wants_memory};

use crate::child_end::ChildEnd;
use host_decl::HostRow;
use js_base::{OutOfMemory, Status};
use std::alloc::Global;
use std::fmt::Write;

/// A line for each host that says how its node ended.
pub fn report_text(
    alloc: Global,
    hosts: &[HostRow],
    ends: &[ChildEnd],
) -> Result<String, OutOfMemory>
    requires { length hosts.now ≡ length ends.now }
    ensures { IfOk result (λ text.
        string_bytes text ≡ reports.report (map (λ host. host.name) hosts.now) ends.now) }
{
    let mut text = String::new(alloc);
    for place in 0..hosts.len() {
        push_line(&mut text, hosts[place].name(), ends[place])?;
    }
    Ok(text)
}

/// Adds the line of a host.
fn push_line(text: &mut String, name: &str, end: ChildEnd) -> Result<(), OutOfMemory>
    ensures { OnOk result (string_bytes text.new ≡ string_bytes text.old ++ end_line name.now end) }
{
    text.push_str("host ")?;
    text.push_str(name)?;
    text.push_str(" ")?;
    push_end(text, end)?;
    text.push_str("\n")?;
    Ok(())
}

/// Adds how a node ended.
fn push_end(text: &mut String, end: ChildEnd) -> Result<(), OutOfMemory>
    ensures { OnOk result (string_bytes text.new ≡ string_bytes text.old ++ end_text end) }
{
    match end {
        ChildEnd::Ended(status) => write!(text, "ended {status}").map_err(|_| OutOfMemory)?,
        ChildEnd::NotStarted => text.push_str("not started")?,
        ChildEnd::NotWaited => text.push_str("not waited")?,
        ChildEnd::NoMemory => text.push_str("no memory")?,
    }
    Ok(())
}

/// The status of a run whose nodes ended so, where its report is put.
pub fn status_of(ends: &[ChildEnd]) -> Status
    ensures { result ≡ reports.status_of_ends ends.now }
{
    if some_wants_memory(ends) {
        Status::NoMemory
    } else if some_failed(ends) {
        Status::ChildFault
    } else if some_ended_otherwise(ends) {
        Status::ChildEnded
    } else {
        Status::Done
    }
}

/// Whether memory ran out at some child.
fn some_wants_memory(ends: &[ChildEnd]) -> bool
    ensures { result ≡ list_any wants_memory ends.now }
{
    ends.iter().any(|end| wants_memory(*end))
}

/// Whether some child was not started or not waited for.
fn some_failed(ends: &[ChildEnd]) -> bool
    ensures { result ≡ list_any has_failed ends.now }
{
    ends.iter().any(|end| has_failed(*end))
}

/// Whether some child ended otherwise than with 0.
fn some_ended_otherwise(ends: &[ChildEnd]) -> bool
    ensures { result ≡ list_any ended_otherwise ends.now }
{
    ends.iter().any(|end| ended_otherwise(*end))
}

fn wants_memory(end: ChildEnd) -> bool
    ensures { result ≡ wants_memory end }
{
    matches!(end, ChildEnd::NoMemory)
}

fn has_failed(end: ChildEnd) -> bool
    ensures { result ≡ has_failed end }
{
    matches!(end, ChildEnd::NotStarted | ChildEnd::NotWaited)
}

fn ended_otherwise(end: ChildEnd) -> bool
    ensures { result ≡ ended_otherwise end }
{
    match end {
        ChildEnd::Ended(status) => status != 0,
        ChildEnd::NotStarted | ChildEnd::NotWaited | ChildEnd::NoMemory => false,
    }
}
