//! What was pushed on a control stack or taken off it, with the stack.

ghost use Rattle.std.specs.Prelude.{◌≡◌, ◌++◌, ◌∷◌, [], IfOk, OnOk, reverse, string_bytes, take};
ghost use Rattle.std.specs.Option.{option_map};
ghost use Rattle.run_chart.specs.Sheets.{chart_note_shape};
ghost use Rattle.run_sheet.specs.StackNotes.{dots_for, entries_listed, stack_behind, stack_listed, stack_note};
ghost use Rattle.run_sheet.specs.StackNotes.{stack_tip};

use host_code::{Code, host_name};
use js_base::{EntryId, HostId, OutOfMemory};
use run_chart::ChartNote;
use run_rows::Change;
use std::alloc::Global;
use std::fmt::Write;

/// How many entries of a stack are shown at most.
const MOST_SHOWN: usize = 16;

/// A stack, whose top is its last entry, after a change.
pub fn follow(stack: &mut Vec<EntryId>, change: Change) -> Result<(), OutOfMemory>
    ensures { OnOk result (reverse stack.new.items ≡ stack_behind change (reverse stack.old.items)) }
{
    match change {
        Change::Same => {}
        Change::Pushed(entry) => stack.push(entry)?,
        Change::TakenOff(_) => {
            stack.pop();
        }
    }
    Ok(())
}

/// What was pushed or taken off, where a host's stack is this after the change.
pub fn stack_note(
    alloc: Global,
    code: &Code,
    host: HostId,
    stack: &[EntryId],
    change: Change,
) -> Result<Option<ChartNote>, OutOfMemory>
    ensures { IfOk result (λ note. option_map chart_note_shape note
        ≡ stack_note code.now host (reverse stack.now) change) }
{
    match change {
        Change::Same => Ok(None),
        Change::Pushed(entry) => {
            let text = format!(in alloc; "+e{}", entry.0)?;
            let tip = stack_tip(alloc, code, host, stack)?;
            Ok(Some(ChartNote { text, tip }))
        }
        Change::TakenOff(entry) => {
            let text = format!(in alloc; "-e{}", entry.0)?;
            let tip = stack_tip(alloc, code, host, stack)?;
            Ok(Some(ChartNote { text, tip }))
        }
    }
}

/// The stack of a host.
fn stack_tip(
    alloc: Global,
    code: &Code,
    host: HostId,
    stack: &[EntryId],
) -> Result<String, OutOfMemory>
    ensures { IfOk result (λ tip. string_bytes tip ≡ stack_tip code.now host (reverse stack.now)) }
{
    let name = host_name(code, host);
    let mut tip = format!(in alloc; "control stack of {name}:")?;
    push_stack(&mut tip, stack)?;
    Ok(tip)
}

/// Adds the top entries of a stack.
fn push_stack(text: &mut String, stack: &[EntryId]) -> Result<(), OutOfMemory>
    ensures { OnOk result (string_bytes text.new ≡ string_bytes text.old ++ stack_listed (reverse stack.now)) }
{
    if stack.is_empty() {
        text.push_str(" empty")?;
        return Ok(());
    }
    push_entries(text, stack, MOST_SHOWN)?;
    push_dots(text, stack.len())?;
    Ok(())
}

/// Adds dots where there are more entries than are shown.
fn push_dots(text: &mut String, count: usize) -> Result<(), OutOfMemory>
    ensures { OnOk result (string_bytes text.new ≡ string_bytes text.old ++ dots_for count) }
{
    if MOST_SHOWN < count {
        text.push_str(" ..")?;
    }
    Ok(())
}

/// Adds so many entries of a stack at most, from the top on.
fn push_entries(text: &mut String, stack: &[EntryId], most: usize) -> Result<(), OutOfMemory>
    ensures { OnOk result (string_bytes text.new
        ≡ string_bytes text.old ++ entries_listed (take most (reverse stack.now))) }
{
    if most == 0 {
        return Ok(());
    }
    match stack {
        [] => Ok(()),
        [below @ .., top] => {
            push_entry(text, *top)?;
            push_entries(text, below, most - 1)
        }
    }
}

/// Adds an entry.
fn push_entry(text: &mut String, entry: EntryId) -> Result<(), OutOfMemory>
    ensures { OnOk result (string_bytes text.new ≡ string_bytes text.old ++ entries_listed (entry ∷ [])) }
{
    write!(text, " e{}", entry.0).map_err(|_| OutOfMemory)?;
    Ok(())
}
