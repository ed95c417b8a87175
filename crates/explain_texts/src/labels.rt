//! What is told of a program whose labels are refused.

ghost use Rattle.std.specs.Prelude.{◌≡◌, [], IfOk};
ghost use Rattle.std.specs.List.{list_any};
ghost use Rattle.std.specs.String.{string_bytes};
ghost use Rattle.explain_texts.specs.Labels as labels;
ghost use Rattle.explain_texts.specs.ReasonLines.{asked_shape};
ghost use Rattle.explain_texts.specs.Sheets.{sheet_shape};
ghost use Rattle.explain_texts.specs.Told.{told_shape};

use crate::asked::{Asked, Asking, asked_of};
use crate::names::method_name;
use crate::reason_lines::reason_lines;
use crate::sheet::{Sheet, token_number};
use crate::token_texts::token_place;
use crate::told::{Told, message_told};
use js_base::OutOfMemory;
use label_reasons::{Reason, Refusal, Trait, Wanted};
use std::alloc::{AllocError, Global};

/// What is told of a refused statement.
pub fn labels_told(alloc: Global, sheet: &Sheet<'_>, refusal: &Refusal) -> Result<Told, OutOfMemory>
    ensures { IfOk result (λ told. told_shape told ≡ labels.labels_told (sheet_shape sheet.now)
        refusal.now.statement refusal.now.wanted refusal.now.reasons.items) }
{
    let (statement, wanted) = (refusal.statement, refusal.wanted);
    let asked = asked_of(alloc, sheet, statement, wanted)?;
    let message = refused_text(alloc, sheet, asked.target.as_str(), wanted)?;
    let lines = lines_below(alloc, sheet, &asked, &refusal.reasons)?;
    let token = token_number(&sheet.places.statements, statement.0);
    let at = token_place(sheet.tokens, token);
    message_told(alloc, at, message.as_str(), lines.as_str())
}

/// The lines behind the head: the reasons, and what to try.
fn lines_below(
    alloc: Global,
    sheet: &Sheet<'_>,
    asked: &Asked,
    reasons: &[Reason],
) -> Result<String, OutOfMemory>
    ensures { IfOk result (λ text. string_bytes text
        ≡ labels.lines_below (sheet_shape sheet.now) (asked_shape asked.now) reasons.now) }
{
    let mut lines = reason_lines(alloc, sheet, asked, reasons)?;
    let pairs = has_pair(reasons);
    let remedy = remedy_text(alloc, asked.asking, asked.target.as_str(), pairs)?;
    lines.push_str(remedy.as_str())?;
    Ok(lines)
}

/// What is wanted and may not be.
fn refused_text(
    alloc: Global,
    sheet: &Sheet<'_>,
    target: &str,
    wanted: Wanted,
) -> Result<String, AllocError>
    ensures { IfOk result (λ text.
        string_bytes text ≡ labels.refused_text (sheet_shape sheet.now) target.now wanted) }
{
    match wanted {
        Wanted::KeptInField(_) => format!(in alloc; "this value may not be kept in {target}"),
        Wanted::KeptInElement(_) => {
            format!(in alloc; "this value, with its index, may not be kept in {target}")
        }
        Wanted::KeptInLocal(_) => format!(in alloc; "this value may not be kept in {target}"),
        Wanted::Given(place, _, _) => {
            let number = place as u128 + 1;
            format!(in alloc; "argument {number} may not be given to {target}")
        }
        Wanted::ResultKept(method, _) => {
            let name = method_name(sheet.program, method);
            format!(in alloc; "the result of {name} may not be kept in {target}")
        }
        Wanted::GivenBack(_) => format!(in alloc; "this value may not be {target}"),
        Wanted::Begun(_) => format!(in alloc; "{target} may not be called here"),
        Wanted::Released => String::from_str(alloc, "this value may not be released here"),
        Wanted::ReleaseTrusted => String::from_str(alloc, "no value may be released here"),
        Wanted::Endorsed => String::from_str(alloc, "this value may not be endorsed here"),
    }
}

/// Whether some pair is a reason.
fn has_pair(reasons: &[Reason]) -> bool
    ensures { result ≡ list_any (λ reason. labels.is_pair reason.held) reasons.now }
{
    reasons.iter().any(|reason| is_pair(reason.held))
}

/// Whether it is a pair of an owner and a reader.
fn is_pair(held: Trait) -> bool
    ensures { result ≡ labels.is_pair held }
{
    match held {
        Trait::Keeps(_, _) => true,
        Trait::Distrusts(_) => false,
    }
}

/// What to try: a line, or nothing.
fn remedy_text(
    alloc: Global,
    asking: Asking,
    target: &str,
    pairs: bool,
) -> Result<String, AllocError>
    ensures { IfOk result (λ text. string_bytes text ≡ labels.remedy_text asking target.now pairs) }
{
    match asking {
        Asking::Flowing => String::from_str(alloc, flow_remedy(pairs)),
        Asking::Beginning => {
            format!(in alloc;
                "try: call it before anything depends on the secret, or give {target} a begin label that keeps as much\n"
            )
        }
        Asking::Releasing => String::from_str(
            alloc,
            "try: name them behind 'where authority', if they agree\n",
        ),
        Asking::Trusting => String::from_str(
            alloc,
            "try: have the begin label, and the guards around it, trusted by those whose authority is used\n",
        ),
        Asking::Endorsing => String::from_str(
            alloc,
            "try: name them behind 'where authority', if they agree\n",
        ),
    }
}

/// What to try where a value may not flow, for the sake of pairs or not.
fn flow_remedy(pairs: bool) -> &'static str
    ensures { result.now ≡ labels.remedy_text Asking.Flowing [] pairs }
{
    if pairs {
        "try: keep it where its label may flow, or release what may be known\n"
    } else {
        ""
    }
}
