//! Why a host may not hold a part.

ghost use Rattle.std.specs.Prelude.{◌≡◌, IfOk};
ghost use Rattle.std.specs.String.{string_bytes};
ghost use Rattle.explain_texts.specs.Sheets.{sheet_shape};
ghost use Rattle.place_texts.specs.Why as why;

use explain_texts::{
    Sheet, cause_text, field_name, method_around, method_name, on_line, param_text, part_line,
    principal_name, reader_name, source_text, variable_words,
};
use js_base::{MethodId, OutOfMemory, PrincipalId, StmtId};
use label_reasons::{Cause, Source, Trait};
use place_reasons::{Needed, PlaceReason};
use principals::Principals;
use std::alloc::Global;

/// The name of an owner.
fn owner_name(principals: &Principals, pair: Trait) -> &str
    ensures { result.now ≡ why.owner_name principals.now pair }
{
    match pair {
        Trait::Keeps(owner, _) => principal_name(principals, owner),
        Trait::Distrusts(principal) => principal_name(principals, principal),
    }
}

/// Behind a reason, what brings the pair in.
fn cause_tail(alloc: Global, sheet: &Sheet<'_>, cause: Option<Cause>) -> Result<String, OutOfMemory>
    ensures { IfOk result (λ text. string_bytes text ≡ why.cause_tail (sheet_shape sheet.now) cause) }
{
    match cause {
        Some(cause) => {
            let words = cause_text(alloc, sheet, cause)?;
            Ok(format!(in alloc; ": {words}")?)
        }
        None => Ok(String::new(alloc)),
    }
}

/// The owner keeps what is told from the reader, and the label of the host does not.
fn pair_text(
    alloc: Global,
    sheet: &Sheet<'_>,
    host: &str,
    pair: Trait,
    verb: &str,
    what: &str,
    tail: &str,
) -> Result<String, OutOfMemory>
    ensures { IfOk result (λ text. string_bytes text
        ≡ why.pair_text (sheet_shape sheet.now) host.now pair verb.now what.now tail.now) }
{
    let owner = owner_name(sheet.principals, pair);
    let reader = reader_name(sheet.principals, pair);
    Ok(format!(in alloc; "{owner}{verb}{reader}{what}, and the label of {host} does not{tail}")?)
}

/// It keeps the part itself.
fn itself_text(
    alloc: Global,
    sheet: &Sheet<'_>,
    host: &str,
    pair: Trait,
) -> Result<String, OutOfMemory>
    ensures { IfOk result (λ text. string_bytes text ≡ why.itself_text (sheet_shape sheet.now) host.now pair) }
{
    pair_text(alloc, sheet, host, pair, " keeps it from ", "", "")
}

/// It keeps what these words tell.
fn told_text(
    alloc: Global,
    sheet: &Sheet<'_>,
    host: &str,
    pair: Trait,
    what: &str,
    tail: &str,
) -> Result<String, OutOfMemory>
    ensures { IfOk result (λ text. string_bytes text
        ≡ why.told_text (sheet_shape sheet.now) host.now pair what.now tail.now) }
{
    pair_text(alloc, sheet, host, pair, " keeps from ", what, tail)
}

/// The line of a statement.
fn statement_line(sheet: &Sheet<'_>, here: StmtId) -> u32
    ensures { result ≡ why.statement_line (sheet_shape sheet.now) here }
{
    part_line(sheet, &sheet.places.statements, here.0)
}

/// What is told by a read of a field: that the statement reads it.
fn read_words(alloc: Global, sheet: &Sheet<'_>, here: StmtId) -> Result<String, OutOfMemory>
    ensures { IfOk result (λ text. string_bytes text ≡ why.read_words (sheet_shape sheet.now) here) }
{
    let line = statement_line(sheet, here);
    Ok(format!(in alloc; " that line {line} reads it")?)
}

/// What is told by a read of an array: which element.
fn index_words(alloc: Global, sheet: &Sheet<'_>, here: StmtId) -> Result<String, OutOfMemory>
    ensures { IfOk result (λ text. string_bytes text ≡ why.index_words (sheet_shape sheet.now) here) }
{
    let line = statement_line(sheet, here);
    Ok(format!(in alloc; " which element line {line} reads")?)
}

/// That a method begins.
fn begins_words(alloc: Global, method: &str) -> Result<String, OutOfMemory>
    ensures { IfOk result (λ text. string_bytes text ≡ why.begins_words method.now) }
{
    Ok(format!(in alloc; " that {method} begins")?)
}

/// What a method gives back.
fn gives_words(alloc: Global, method: &str) -> Result<String, OutOfMemory>
    ensures { IfOk result (λ text. string_bytes text ≡ why.gives_words method.now) }
{
    Ok(format!(in alloc; " what {method} gives back")?)
}

/// Behind a reason, the begin label that has the pair.
fn begin_tail(alloc: Global, sheet: &Sheet<'_>, method: MethodId) -> Result<String, OutOfMemory>
    ensures { IfOk result (λ text. string_bytes text ≡ why.begin_tail (sheet_shape sheet.now) method) }
{
    let words = source_text(alloc, sheet, Source::OfBegin(method))?;
    Ok(format!(in alloc; ": {words}")?)
}

/// Behind a reason, the label of a result that has the pair.
fn result_tail(alloc: Global, sheet: &Sheet<'_>, method: MethodId) -> Result<String, OutOfMemory>
    ensures { IfOk result (λ text. string_bytes text ≡ why.result_tail (sheet_shape sheet.now) method) }
{
    let name = method_name(sheet.program, method);
    let words = format!(in alloc; "the result of {name}")?;
    let line = part_line(sheet, &sheet.places.methods, method.0);
    let place = on_line(alloc, words.as_str(), line)?;
    Ok(format!(in alloc; ": {place}")?)
}

/// The statement that is asked about, or one that stands in it.
fn it_words(
    alloc: Global,
    sheet: &Sheet<'_>,
    own: StmtId,
    here: StmtId,
) -> Result<String, OutOfMemory>
    ensures { IfOk result (λ text. string_bytes text ≡ why.it_words (sheet_shape sheet.now) own here) }
{
    if own.0 == here.0 {
        return Ok(String::from_str(alloc, "it")?);
    }
    let line = statement_line(sheet, here);
    Ok(format!(in alloc; "line {line} in it")?)
}

/// What a statement does with what is named so.
fn which_text(alloc: Global, what: &str, it: &str, does: &str) -> Result<String, OutOfMemory>
    ensures { IfOk result (λ text. string_bytes text ≡ why.which_text what.now it.now does.now) }
{
    Ok(format!(in alloc; "{what}, which {it}{does}")?)
}

/// For what the host is to be trusted, where the statement at hand is `it`.
fn needed_text(
    alloc: Global,
    sheet: &Sheet<'_>,
    it: &str,
    here: StmtId,
    what: Needed,
) -> Result<String, OutOfMemory>
    ensures { IfOk result (λ text.
        string_bytes text ≡ why.needed_text (sheet_shape sheet.now) it.now here what) }
{
    let program = sheet.program;
    match what {
        Needed::Variable(x) => {
            let words = variable_words(alloc, program, "", x)?;
            which_text(alloc, words.as_str(), it, " sets")
        }
        Needed::Field(field) => which_text(alloc, field_name(program, field), it, " sets"),
        Needed::Begin(method) => {
            let name = method_name(program, method);
            let words = format!(in alloc; "how {name} begins")?;
            which_text(alloc, words.as_str(), it, " calls")
        }
        Needed::Parameter(x, method) => {
            let words = param_text(alloc, sheet, x, method)?;
            which_text(alloc, words.as_str(), it, " sets")
        }
        Needed::Result(x) => {
            let words = variable_words(alloc, program, "", x)?;
            which_text(alloc, words.as_str(), it, " gives")
        }
        Needed::Head => {
            let name = method_around(program, here);
            Ok(format!(in alloc; "how {name} begins")?)
        }
    }
}

/// The principal trusts it, and not the host.
fn trust_text(
    alloc: Global,
    sheet: &Sheet<'_>,
    host: &str,
    principal: u8,
    what: &str,
) -> Result<String, OutOfMemory>
    ensures { IfOk result (λ text. string_bytes text
        ≡ why.trust_text (sheet_shape sheet.now) host.now principal what.now) }
{
    let name = principal_name(sheet.principals, principal);
    Ok(format!(in alloc; "{name} trusts {what}, and does not trust {host}")?)
}

/// The member's authority is used, which is that of the principal too.
fn release_text(
    alloc: Global,
    sheet: &Sheet<'_>,
    host: &str,
    it: &str,
    member: PrincipalId,
    principal: u8,
) -> Result<String, OutOfMemory>
    ensures { IfOk result (λ text. string_bytes text
        ≡ why.release_text (sheet_shape sheet.now) host.now it.now member.0 principal) }
{
    let by = principal_name(sheet.principals, member.0);
    let name = principal_name(sheet.principals, principal);
    Ok(format!(in alloc;
        "{it} releases a value by the authority of {by}, and {name} does not trust {host}"
    )?)
}

/// Why a host of this name may not hold a part of this number.
pub fn why_text(
    alloc: Global,
    sheet: &Sheet<'_>,
    host: &str,
    own: StmtId,
    reason: PlaceReason,
) -> Result<String, OutOfMemory>
    ensures { IfOk result (λ text. string_bytes text ≡ why.why_text (sheet_shape sheet.now) host.now own reason) }
{
    match reason {
        PlaceReason::Own(pair) => itself_text(alloc, sheet, host, pair),
        PlaceReason::Read(pair, here, cause) => {
            let what = read_words(alloc, sheet, here)?;
            let tail = cause_tail(alloc, sheet, cause)?;
            told_text(alloc, sheet, host, pair, what.as_str(), tail.as_str())
        }
        PlaceReason::Index(pair, here, cause) => {
            let what = index_words(alloc, sheet, here)?;
            let tail = cause_tail(alloc, sheet, cause)?;
            told_text(alloc, sheet, host, pair, what.as_str(), tail.as_str())
        }
        PlaceReason::Untrusted(principal) => trust_text(alloc, sheet, host, principal, "it"),
        PlaceReason::Begins(pair) => {
            let what = begins_words(alloc, method_around(sheet.program, own))?;
            told_text(alloc, sheet, host, pair, what.as_str(), "")
        }
        PlaceReason::Runs(pair, cause) => {
            let tail = cause_tail(alloc, sheet, cause)?;
            told_text(alloc, sheet, host, pair, " that it runs", tail.as_str())
        }
        PlaceReason::Uses(pair, cause) => {
            let tail = cause_tail(alloc, sheet, cause)?;
            told_text(
                alloc,
                sheet,
                host,
                pair,
                " a value that it uses",
                tail.as_str(),
            )
        }
        PlaceReason::CallBegins(pair, method) => {
            let what = begins_words(alloc, method_name(sheet.program, method))?;
            let tail = begin_tail(alloc, sheet, method)?;
            told_text(alloc, sheet, host, pair, what.as_str(), tail.as_str())
        }
        PlaceReason::CallGives(pair, method) => {
            let what = gives_words(alloc, method_name(sheet.program, method))?;
            let tail = result_tail(alloc, sheet, method)?;
            told_text(alloc, sheet, host, pair, what.as_str(), tail.as_str())
        }
        PlaceReason::Needs(principal, what, here) => {
            let it = it_words(alloc, sheet, own, here)?;
            let needed = needed_text(alloc, sheet, it.as_str(), here, what)?;
            trust_text(alloc, sheet, host, principal, needed.as_str())
        }
        PlaceReason::Releases(member, principal, here) => {
            let it = it_words(alloc, sheet, own, here)?;
            release_text(alloc, sheet, host, it.as_str(), member, principal)
        }
    }
}
