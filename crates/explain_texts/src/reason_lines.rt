//! The lines that say why labels are refused.

ghost use Rattle.std.specs.Prelude.{◌≡◌, ◌<◌, IfOk, Some, codes, length, map};
ghost use Rattle.std.specs.List.{filter, join_by, list_any};
ghost use Rattle.std.specs.String.{string_bytes};
ghost use Rattle.explain_texts.specs.ReasonLines as lines;
ghost use Rattle.explain_texts.specs.ReasonLines.{asked_shape};
ghost use Rattle.explain_texts.specs.Sheets.{sheet_shape};

use crate::asked::{Asked, Asking};
use crate::causes::cause_text;
use crate::names::principal_name;
use crate::sheet::Sheet;
use js_base::OutOfMemory;
use js_base::text::owned_text;
use label_reasons::{Cause, Reason, Source, Trait, Via};
use principals::Principals;
use std::alloc::{AllocError, Global};

/// A line for each owner and each cause, which names all its readers, and one for each principal.
pub fn reason_lines(
    alloc: Global,
    sheet: &Sheet<'_>,
    asked: &Asked,
    reasons: &[Reason],
) -> Result<String, OutOfMemory>
    ensures { IfOk result (λ text. string_bytes text
        ≡ lines.reason_lines (sheet_shape sheet.now) (asked_shape asked.now) reasons.now) }
{
    let mut text = String::new(alloc);
    for place in 0..reasons.len() {
        let line = line_at(alloc, sheet, asked, reasons, place)?;
        text.push_str(line.as_str())?;
    }
    Ok(text)
}

/// The line of the reason at a place, empty where another has it.
fn line_at(
    alloc: Global,
    sheet: &Sheet<'_>,
    asked: &Asked,
    reasons: &[Reason],
    place: usize,
) -> Result<String, OutOfMemory>
    ensures { IfOk result (λ text. string_bytes text
        ≡ lines.line_at (sheet_shape sheet.now) (asked_shape asked.now) reasons.now place) }
{
    match reasons.get(place).copied() {
        Some(reason) => line_of(alloc, sheet, asked, reasons, place, reason),
        None => Ok(String::new(alloc)),
    }
}

/// The line of a reason that stands at this place, empty where one before it names its reader.
fn line_of(
    alloc: Global,
    sheet: &Sheet<'_>,
    asked: &Asked,
    reasons: &[Reason],
    place: usize,
    reason: Reason,
) -> Result<String, OutOfMemory>
    requires { place < length reasons.now }
    ensures { IfOk result (λ text. string_bytes text
        ≡ lines.line_of (sheet_shape sheet.now) (asked_shape asked.now) reasons.now place (Some reason)) }
{
    if is_named(&reasons[..place], reason.held, reason.cause) {
        return Ok(String::new(alloc));
    }
    reason_line(alloc, sheet, asked, reasons, reason.held, reason.cause)
}

/// Whether one of these names the reader of this already.
fn is_named(before: &[Reason], held: Trait, cause: Cause) -> bool
    ensures { result ≡ lines.is_named before.now held cause }
{
    match held {
        Trait::Keeps(owner, _) => some_shares(before, owner, cause),
        Trait::Distrusts(_) => false,
    }
}

/// Whether one of these stands in the line of this owner and this cause.
fn some_shares(before: &[Reason], owner: u8, cause: Cause) -> bool
    ensures { result ≡ list_any (lines.shares_line owner cause) before.now }
{
    before
        .iter()
        .any(|reason| shares_line(owner, cause, reason))
}

/// The line of a reason, of all these.
fn reason_line(
    alloc: Global,
    sheet: &Sheet<'_>,
    asked: &Asked,
    reasons: &[Reason],
    held: Trait,
    cause: Cause,
) -> Result<String, OutOfMemory>
    ensures { IfOk result (λ text. string_bytes text
        ≡ lines.reason_line (sheet_shape sheet.now) (asked_shape asked.now) reasons.now held cause) }
{
    let why = cause_text(alloc, sheet, cause)?;
    match held {
        Trait::Keeps(owner, _) => {
            let readers = readers_text(alloc, sheet.principals, owner, cause, reasons)?;
            let name = principal_name(sheet.principals, owner);
            pair_line(alloc, asked, name, readers.as_str(), why.as_str())
        }
        Trait::Distrusts(principal) => {
            let name = principal_name(sheet.principals, principal);
            principal_line(alloc, asked, name, why.as_str())
        }
    }
}

/// The line of an owner.
fn pair_line(
    alloc: Global,
    asked: &Asked,
    owner: &str,
    readers: &str,
    cause: &str,
) -> Result<String, OutOfMemory>
    ensures { IfOk result (λ text. string_bytes text
        ≡ lines.pair_line (asked_shape asked.now) owner.now readers.now cause.now) }
{
    let verb = pair_verb(asked.asking);
    let rest = pair_rest(
        alloc,
        asked.asking,
        asked.target.as_str(),
        asked.method.as_str(),
    )?;
    Ok(format!(in alloc; "{owner}{verb}{readers}{rest}{cause}\n")?)
}

/// What stands behind the owner.
fn pair_verb(asking: Asking) -> &'static str
    ensures { result.now ≡ lines.pair_verb asking }
{
    match asking {
        Asking::Flowing => " keeps it from ",
        Asking::Beginning => " keeps from ",
        Asking::Releasing => " keeps it from ",
        Asking::Trusting => " keeps it from ",
        Asking::Endorsing => " keeps it from ",
    }
}

/// What stands behind the readers.
fn pair_rest(
    alloc: Global,
    asking: Asking,
    target: &str,
    method: &str,
) -> Result<String, AllocError>
    ensures { IfOk result (λ text. string_bytes text ≡ lines.pair_rest asking target.now method.now) }
{
    match asking {
        Asking::Flowing => format!(in alloc; ", and the label of {target} does not: "),
        Asking::Beginning => {
            format!(in alloc; " that it is called, and the begin label of {target} does not: ")
        }
        Asking::Releasing => format!(in alloc; ", and no authority of {method} may release that: "),
        Asking::Trusting => String::from_str(alloc, ": "),
        Asking::Endorsing => String::from_str(alloc, ": "),
    }
}

/// The line of a principal.
fn principal_line(
    alloc: Global,
    asked: &Asked,
    name: &str,
    cause: &str,
) -> Result<String, OutOfMemory>
    ensures { IfOk result (λ text. string_bytes text
        ≡ lines.principal_line (asked_shape asked.now) name.now cause.now) }
{
    let (target, method) = (asked.target.as_str(), asked.method.as_str());
    let rest = principal_rest(alloc, asked.asking, name, target, method)?;
    Ok(format!(in alloc; "{name}{rest}{cause}\n")?)
}

/// What stands behind the principal.
fn principal_rest(
    alloc: Global,
    asking: Asking,
    name: &str,
    target: &str,
    method: &str,
) -> Result<String, AllocError>
    ensures { IfOk result (λ text.
        string_bytes text ≡ lines.principal_rest asking name.now target.now method.now) }
{
    match asking {
        Asking::Flowing => format!(in alloc; " trusts {target}, and not what it is given: "),
        Asking::Beginning => {
            format!(in alloc; " trusts how {target} begins, and not what leads here: ")
        }
        Asking::Releasing => String::from_str(alloc, ": "),
        Asking::Trusting => {
            format!(in alloc;
                " does not trust what leads here, and has to, since the authority of {name} is used: "
            )
        }
        Asking::Endorsing => {
            format!(in alloc;
                " does not trust it yet, and no authority of {method} may say so for {name}: "
            )
        }
    }
}

/// The readers of this owner and this cause.
fn readers_text(
    alloc: Global,
    principals: &Principals,
    owner: u8,
    cause: Cause,
    reasons: &[Reason],
) -> Result<String, OutOfMemory>
    ensures { IfOk result (λ text.
        string_bytes text ≡ lines.readers_text principals.now owner cause reasons.now) }
{
    let names = reader_names(alloc, principals, owner, cause, reasons)?;
    joined(alloc, &names)
}

/// Names, with a word between them.
fn joined(alloc: Global, names: &[String]) -> Result<String, OutOfMemory>
    ensures { IfOk result (λ text.
        string_bytes text ≡ join_by (λ text. text) (codes " and ") (map string_bytes names.now)) }
{
    Ok(names.join(alloc, " and ")?)
}

/// Their names.
fn reader_names(
    alloc: Global,
    principals: &Principals,
    owner: u8,
    cause: Cause,
    reasons: &[Reason],
) -> Result<Vec<String>, OutOfMemory>
    ensures { IfOk result (λ names. map string_bytes names.items
        ≡ map (λ reason. lines.reader_name principals.now reason.held)
        (filter (lines.shares_line owner cause) reasons.now)) }
{
    let mut names = Vec::new(alloc);
    for reason in reasons {
        if shares_line(owner, cause, reason) {
            names.push(owned_text(alloc, reader_name(principals, reason.held))?)?;
        }
    }
    Ok(names)
}

/// The name of a reader.
pub fn reader_name(principals: &Principals, held: Trait) -> &str
    ensures { result.now ≡ lines.reader_name principals.now held }
{
    match held {
        Trait::Keeps(_, reader) => principal_name(principals, reader),
        Trait::Distrusts(principal) => principal_name(principals, principal),
    }
}

/// Whether a reason stands in the line of this owner and this cause.
fn shares_line(owner: u8, cause: Cause, reason: &Reason) -> bool
    ensures { result ≡ lines.shares_line owner cause reason.now }
{
    is_owned(owner, reason.held) && is_same_cause(cause, reason.cause)
}

/// Whether it is a pair of this owner.
fn is_owned(owner: u8, held: Trait) -> bool
    ensures { result ≡ lines.is_owned owner held }
{
    match held {
        Trait::Keeps(other, _) => other == owner,
        Trait::Distrusts(_) => false,
    }
}

/// Whether they are the same.
fn is_same_cause(one: Cause, other: Cause) -> bool
    ensures { result ≡ lines.is_same_cause one other }
{
    is_same_source(one.source, other.source) && is_same_via(one.via, other.via)
}

/// Whether they are the same.
fn is_same_source(one: Source, other: Source) -> bool
    ensures { result ≡ lines.is_same_source one other }
{
    source_kind(one) == source_kind(other) && source_number(one) == source_number(other)
}

/// Whether they are the same.
fn is_same_via(one: Via, other: Via) -> bool
    ensures { result ≡ lines.is_same_via one other }
{
    via_kind(one) == via_kind(other)
        && via_variable(one) == via_variable(other)
        && via_statement(one) == via_statement(other)
}

/// Which kind of part it is.
fn source_kind(source: Source) -> u8
    ensures { result ≡ lines.source_kind source }
{
    match source {
        Source::OfField(_) => 0,
        Source::OfVariable(_) => 1,
        Source::OfBegin(_) => 2,
        Source::Written(_) => 3,
    }
}

/// Which of its kind it is.
fn source_number(source: Source) -> u32
    ensures { result ≡ lines.source_number source }
{
    match source {
        Source::OfField(field) => field.0,
        Source::OfVariable(x) => x.0,
        Source::OfBegin(method) => method.0,
        Source::Written(statement) => statement.0,
    }
}

/// Which kind of part it came through.
fn via_kind(via: Via) -> u8
    ensures { result ≡ lines.via_kind via }
{
    match via {
        Via::Itself => 0,
        Via::ByLocal(_, _) => 1,
        Via::ByGuard(_) => 2,
    }
}

/// The local that it came through.
fn via_variable(via: Via) -> u32
    ensures { result ≡ lines.via_variable via }
{
    match via {
        Via::Itself => 0,
        Via::ByLocal(x, _) => x.0,
        Via::ByGuard(_) => 0,
    }
}

/// The statement that it came through.
fn via_statement(via: Via) -> u32
    ensures { result ≡ lines.via_statement via }
{
    match via {
        Via::Itself => 0,
        Via::ByLocal(_, statement) => statement.0,
        Via::ByGuard(statement) => statement.0,
    }
}
