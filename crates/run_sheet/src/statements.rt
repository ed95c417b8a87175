//! The note of a turn: the statement whose instruction ran.

ghost use Rattle.std.specs.Prelude.{◌≡◌, ◌++◌, ◌∷◌, [], IfOk, OnOk, map, option_copied, string_bytes};
ghost use Rattle.std.specs.Option.{option_map};
ghost use Rattle.std.specs.Str.{encode_utf8_all};
ghost use Rattle.run_chart.specs.Sheets.{chart_note_shape};
ghost use Rattle.run_sheet.specs.StatementNotes.{is_step_of_statement, is_that_statement, note_of_statement};
ghost use Rattle.run_sheet.specs.StatementNotes.{short_note, statement_behind, statement_stepped, turn_note};
ghost use Rattle.run_sheet.specs.StatementNotes.{whole_note};
ghost use Rattle.statement_texts.specs.Texts.{statement_text_shape};

use drawing_text::letters;
use host_code::{Instr, Op};
use js_base::{OutOfMemory, StmtId};
use run_chart::ChartNote;
use statement_texts::{StatementText, short_text};
use std::alloc::Global;

/// The statement of which an instruction is a step.
pub fn statement_stepped(instruction: Option<&Instr>) -> Option<StmtId>
    ensures { result ≡ statement_stepped (option_copied instruction.entry) }
{
    let instruction = instruction?;
    if is_step(&instruction.op) {
        Some(instruction.statement)
    } else {
        None
    }
}

/// Whether an instruction computes, sends a value or calls.
fn is_step(op: &Op) -> bool
    ensures { result ≡ is_step_of_statement op.now }
{
    match op {
        Op::Push(_) | Op::Ask(_, _) | Op::Go(_, _) | Op::GoWith(_, _, _) | Op::Back => false,
        _ => true,
    }
}

/// The note of a turn that is a step of a statement, behind a step of another on its host.
pub fn turn_note(
    alloc: Global,
    texts: &[StatementText],
    lines: &[u32],
    before: Option<StmtId>,
    now: Option<StmtId>,
) -> Result<Option<ChartNote>, OutOfMemory>
    ensures { IfOk result (λ note. option_map chart_note_shape note
        ≡ turn_note (map statement_text_shape texts.now) lines.now before now) }
{
    match now {
        Some(statement) => {
            if is_that(before, statement) {
                Ok(None)
            } else {
                note_of(alloc, texts, lines, statement)
            }
        }
        None => Ok(None),
    }
}

/// Whether this is the statement.
fn is_that(before: Option<StmtId>, statement: StmtId) -> bool
    ensures { result ≡ is_that_statement before statement }
{
    match before {
        Some(before) => before.0 == statement.0,
        None => false,
    }
}

/// The note of a statement.
fn note_of(
    alloc: Global,
    texts: &[StatementText],
    lines: &[u32],
    statement: StmtId,
) -> Result<Option<ChartNote>, OutOfMemory>
    ensures { IfOk result (λ note. option_map chart_note_shape note
        ≡ note_of_statement (map statement_text_shape texts.now) lines.now statement) }
{
    let place = statement.0 as usize;
    let line = lines.get(place).copied().unwrap_or(0);
    match texts.get(place) {
        Some(text) => {
            let short = short_note(alloc, line, text)?;
            let tip = whole_note(alloc, statement, line, text)?;
            Ok(Some(ChartNote { text: short, tip }))
        }
        None => Ok(None),
    }
}

/// A statement in short, with its line.
fn short_note(alloc: Global, line: u32, text: &StatementText) -> Result<String, OutOfMemory>
    ensures { IfOk result (λ note. string_bytes note ≡ short_note line (statement_text_shape text.now)) }
{
    let whole = letters(alloc, text.text.as_str())?;
    let kept = short_text(alloc, whole.as_slice(), false)?;
    let mut note = format!(in alloc; "{line}: ")?;
    push_letters(&mut note, kept.as_slice())?;
    Ok(note)
}

/// A whole statement, with its number and its line.
fn whole_note(
    alloc: Global,
    statement: StmtId,
    line: u32,
    text: &StatementText,
) -> Result<String, OutOfMemory>
    ensures { IfOk result (λ tip.
        string_bytes tip ≡ whole_note statement.0 line (statement_text_shape text.now)) }
{
    let said = text.text.as_str();
    Ok(format!(in alloc; "statement {} line {line}: {said}", statement.0)?)
}

/// Adds characters.
fn push_letters(text: &mut String, letters: &[char]) -> Result<(), OutOfMemory>
    ensures { OnOk result (string_bytes text.new ≡ string_bytes text.old ++ encode_utf8_all letters.now) }
{
    for letter in letters {
        push_letter(text, *letter)?;
    }
    Ok(())
}

/// Adds a character.
fn push_letter(text: &mut String, letter: char) -> Result<(), OutOfMemory>
    ensures { OnOk result (string_bytes text.new ≡ string_bytes text.old ++ encode_utf8_all (letter ∷ [])) }
{
    text.push(letter)?;
    Ok(())
}

/// The statement of which a host made the last step.
pub fn statement_behind(before: Option<StmtId>, now: Option<StmtId>) -> Option<StmtId>
    ensures { result ≡ statement_behind before now }
{
    match now {
        Some(statement) => Some(statement),
        None => before,
    }
}
