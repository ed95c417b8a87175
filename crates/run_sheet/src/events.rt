//! What a row's event was, in words.

ghost use Rattle.std.specs.Prelude.{◌≡◌, All, IfOk, option_copied, string_bytes};
ghost use Rattle.std.specs.Option.{option_map};
ghost use Rattle.host_code.specs.Messages.{MessageFits};
ghost use Rattle.run_chart.specs.Sheets.{chart_told_shape};
ghost use Rattle.run_rows.specs.Rows.{WhatFits};
ghost use Rattle.run_sheet.specs.RunEvents.{event_words, host_asking, host_moved, ignored_words, instruction_words};
ghost use Rattle.run_sheet.specs.RunEvents.{told_by, told_letter};

use crate::reasons::reason_text;
use crate::strokes::message_stroke;
use event_text::bad_message_text;
use host_code::{Code, Instr, Message, instruction_text, message_text};
use ignored_reasons::Why;
use js_base::{HostId, OutOfMemory};
use run_chart::ChartTold;
use run_rows::What;
use std::alloc::Global;

/// The host whose step an event was.
pub fn host_moved(what: &What) -> HostId
    ensures { result ≡ host_moved what.now }
{
    match what {
        What::Turn(host, _) => *host,
        What::Take(_, to, _) => *to,
        What::Act(_, to, _) => *to,
    }
}

/// The host that asked for it.
fn host_asking(what: &What) -> HostId
    ensures { result ≡ host_asking what.now }
{
    match what {
        What::Turn(host, _) => *host,
        What::Take(from, _, _) => *from,
        What::Act(from, _, _) => *from,
    }
}

/// The instruction that ran, the message that was taken, or what the misbehaving host sent.
pub fn event_text(alloc: Global, code: &Code, what: &What) -> Result<String, OutOfMemory>
    requires { WhatFits code.now what.now }
    ensures { IfOk result (λ text. string_bytes text ≡ event_words code.now what.now) }
{
    match what {
        What::Turn(host, at) => turn_text(alloc, code, code.instruction(*host, *at)),
        What::Take(_, _, message) => message_text(alloc, code, message),
        What::Act(_, _, made) => bad_message_text(alloc, code, made),
    }
}

/// The instruction that ran.
fn turn_text(alloc: Global, code: &Code, instruction: Option<&Instr>) -> Result<String, OutOfMemory>
    ensures { IfOk result (λ text.
        string_bytes text ≡ instruction_words code.now (option_copied instruction.entry)) }
{
    match instruction {
        Some(instruction) => instruction_text(alloc, code, &instruction.op),
        None => Ok(String::new(alloc)),
    }
}

/// Why an event was ignored.
pub fn ignored_text(
    alloc: Global,
    code: &Code,
    what: &What,
    ignored: Option<Why>,
) -> Result<Option<String>, OutOfMemory>
    ensures { IfOk result (λ text.
        option_map string_bytes text ≡ ignored_words code.now what.now ignored) }
{
    match ignored {
        Some(why) => Ok(Some(reason_text(alloc, code, host_asking(what), why)?)),
        None => Ok(None),
    }
}

/// What a misbehaving host was sent in an event, by its number among all of these.
pub fn told_text(
    alloc: Global,
    code: &Code,
    sent: &[(HostId, HostId, Message)],
    told: Option<u64>,
) -> Result<Option<ChartTold>, OutOfMemory>
    requires { All (λ letter. MessageFits code.now letter.2) sent.now }
    ensures { IfOk result (λ found. option_map chart_told_shape found ≡ told_by code.now sent.now told) }
{
    let Some(number) = told else {
        return Ok(None);
    };
    match sent.get(number as usize) {
        Some(letter) => Ok(Some(told_letter(alloc, code, number, letter)?)),
        None => Ok(None),
    }
}

/// What a misbehaving host was sent.
fn told_letter(
    alloc: Global,
    code: &Code,
    number: u64,
    letter: &(HostId, HostId, Message),
) -> Result<ChartTold, OutOfMemory>
    requires { MessageFits code.now letter.now.2 }
    ensures { IfOk result (λ found. chart_told_shape found ≡ told_letter code.now number letter.now) }
{
    let text = message_text(alloc, code, &letter.2)?;
    Ok(ChartTold {
        number,
        to: letter.1,
        stroke: message_stroke(&letter.2),
        text,
    })
}
