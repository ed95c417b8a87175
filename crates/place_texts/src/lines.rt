//! The lines that say which hosts may not hold parts of a program.

ghost use Rattle.std.specs.Prelude.{◌≡◌, ◌++◌, ◌<◌, ◌^◌, ◌∷◌, [], IfOk, OnOk, length, map, take};
ghost use Rattle.std.specs.List.{flat_map};
ghost use Rattle.std.specs.String.{string_bytes};
ghost use Rattle.explain_texts.specs.Sheets.{sheet_shape};
ghost use Rattle.jif_tree.specs.Trees.{program_tree};
ghost use Rattle.need_labels.specs.Labelled.{labelled_of};
ghost use Rattle.place_reasons.specs.Kept.{AreAnswers};
ghost use Rattle.place_reasons.specs.Search.{AreTold, IsSearch};
ghost use Rattle.place_texts.specs.Holding.{AreToldHosts, ArePartsOf, IsHolding, IsProgramPart, sheet_of};
ghost use Rattle.place_texts.specs.Lines as lines;
ghost use Rattle.place_texts.specs.Parts.{part_shape, reason_of};

use crate::part::{Part, line_of, number_of};
use crate::why::why_text;
use explain_texts::{Places, Sheet, field_name, kind_of_field, on_line};
use host_decl::{HostRow, Hosts};
use jif_lex::Token;
use jif_tree::Checked;
use js_base::{OutOfMemory, StmtId};
use label_lattice::Label;
use place_reasons::{
    KeptAnswers, PlaceReason, Search, Told, field_reason, fields_told, head_reason,
    statement_reason,
};
use std::alloc::Global;
use std::fmt::Write;

/// What the reads of a program tell one host of each field.
#[derive(Drop)]
pub struct HostTold {
    pub fields: Vec<Option<Told>>,
}

/// A checked program with its tokens and its hosts, about whose parts is asked.
#[derive(Clone, Copy)]
pub struct Holding<'a> {
    pub tokens: &'a [Token],
    /// Where the parts are written.
    pub places: &'a Places,
    pub hosts: &'a Hosts,
    pub checked: &'a Checked,
    /// The label of each variable.
    pub labels: &'a [Option<Label>],
    /// For each host, what the reads of the program tell it.
    pub told: &'a [HostTold],
}

/// What names the parts of the program.
fn sheet_of<'a>(holding: &Holding<'a>) -> Sheet<'a>
    ensures { sheet_shape result ≡ sheet_of holding.now }
{
    Sheet {
        tokens: holding.tokens,
        places: holding.places,
        principals: holding.hosts.principals(),
        program: &holding.checked.program,
    }
}

/// What is searched for reasons.
fn search_of<'a>(holding: &Holding<'a>) -> Search<'a>
    requires { IsHolding holding.now }
    ensures principals { result.principals.now ≡ holding.now.hosts.now.principals }
    ensures checked { result.checked.now ≡ holding.now.checked.now }
    ensures search { IsSearch result }
{
    Search {
        principals: holding.hosts.principals(),
        checked: holding.checked,
        labels: holding.labels,
    }
}

/// For each host, what the reads of a program tell it.
///
/// # Errors
/// That memory ran out.
pub fn told_hosts<'a>(
    alloc: Global,
    search: &Search<'a>,
    hosts: &'a [HostRow],
) -> Result<Vec<HostTold>, OutOfMemory>
    requires { IsSearch search.now }
    ensures { IfOk result (λ told. AreToldHosts search.now.principals.now (labelled_of search.now.checked.now)
        hosts.now told.items) }
{
    let mut told = Vec::new(alloc);
    for host in hosts {
        let fields = fields_told(alloc, search, host.label())?;
        told.push(HostTold { fields })?;
    }
    Ok(told)
}

/// Why a host of this label may not hold a part.
fn reason_of<'a>(
    alloc: Global,
    search: &Search<'a>,
    host: &'a Label,
    told: &[Option<Told>],
    part: &Part<'a>,
    answers: &mut KeptAnswers,
) -> Result<Option<PlaceReason>, OutOfMemory>
    requires search { IsSearch search.now }
    requires told { AreTold search.now.principals.now (labelled_of search.now.checked.now) host.now told.now }
    requires part { IsProgramPart search.now.principals.now (program_tree search.now.checked.now.program)
        (part_shape part.now) }
    requires kept { AreAnswers search.now.principals.now (program_tree search.now.checked.now.program)
        answers.old.kept.items }
    ensures reason { IfOk result (λ reason. reason ≡ reason_of search.now.principals.now
        (labelled_of search.now.checked.now) host.now (part_shape part.now)) }
    ensures kept { OnOk result (AreAnswers search.now.principals.now (program_tree search.now.checked.now.program)
        answers.new.kept.items) }
{
    match *part {
        Part::Field(field) => field_reason(alloc, search, host, told, field, answers),
        Part::Head(method) => head_reason(alloc, search.principals, host, method),
        Part::Statement(method, statement) => {
            statement_reason(alloc, search, host, method, statement, answers)
        }
    }
}

/// A statement by its number and its line.
fn statement_words(alloc: Global, number: u32, line: u32) -> Result<String, OutOfMemory>
    ensures { IfOk result (λ words. string_bytes words ≡ lines.statement_words number line) }
{
    let words = format!(in alloc; "statement {number}")?;
    on_line(alloc, words.as_str(), line)
}

/// What the part is.
fn part_words(alloc: Global, sheet: &Sheet<'_>, part: &Part<'_>) -> Result<String, OutOfMemory>
    ensures { IfOk result (λ words.
        string_bytes words ≡ lines.part_words (sheet_shape sheet.now) (part_shape part.now)) }
{
    match *part {
        Part::Field(field) => {
            let kind = kind_of_field(sheet.program, field);
            let name = field_name(sheet.program, field);
            Ok(format!(in alloc; "{kind}{name}")?)
        }
        Part::Head(_) => statement_words(alloc, number_of(part), line_of(part)),
        Part::Statement(_, _) => statement_words(alloc, number_of(part), line_of(part)),
    }
}

/// Adds the line of a part and a host of this name that may not hold it.
fn push_line(
    alloc: Global,
    text: &mut String,
    sheet: &Sheet<'_>,
    part: &Part<'_>,
    host: &str,
    reason: PlaceReason,
) -> Result<(), OutOfMemory>
    ensures { OnOk result (string_bytes text.new ≡ string_bytes text.old
        ++ lines.place_line (sheet_shape sheet.now) (part_shape part.now) host.now reason) }
{
    let words = part_words(alloc, sheet, part)?;
    let why = why_text(alloc, sheet, host, StmtId(number_of(part)), reason)?;
    writeln!(text, "{words} not at {host}: {why}").map_err(|_| OutOfMemory)
}

/// Adds the line of a part and a host, where the host may not hold the part.
fn push_at<'a>(
    alloc: Global,
    text: &mut String,
    holding: &Holding<'a>,
    part: &Part<'a>,
    host: &'a HostRow,
    told: &[Option<Told>],
    answers: &mut KeptAnswers,
) -> Result<(), OutOfMemory>
    requires holding { IsHolding holding.now }
    requires told { AreTold holding.now.hosts.now.principals (labelled_of holding.now.checked.now) host.now.label
        told.now }
    requires part { IsProgramPart holding.now.hosts.now.principals (program_tree holding.now.checked.now.program)
        (part_shape part.now) }
    requires kept { AreAnswers holding.now.hosts.now.principals (program_tree holding.now.checked.now.program)
        answers.old.kept.items }
    ensures text { OnOk result (string_bytes text.new ≡ string_bytes text.old
        ++ lines.line_at (sheet_of holding.now) (labelled_of holding.now.checked.now) (part_shape part.now) host.now) }
    ensures kept { OnOk result (AreAnswers holding.now.hosts.now.principals
        (program_tree holding.now.checked.now.program) answers.new.kept.items) }
{
    let search = search_of(holding);
    match reason_of(alloc, &search, host.label(), told, part, answers)? {
        Some(reason) => {
            let sheet = sheet_of(holding);
            push_line(alloc, text, &sheet, part, host.name(), reason)
        }
        None => Ok(()),
    }
}

/// Adds the lines of a part: one for each host that may not hold it, in order.
fn push_part<'a>(
    alloc: Global,
    text: &mut String,
    holding: &Holding<'a>,
    part: &Part<'a>,
    answers: &mut KeptAnswers,
) -> Result<(), OutOfMemory>
    requires holding { IsHolding holding.now }
    requires part { IsProgramPart holding.now.hosts.now.principals (program_tree holding.now.checked.now.program)
        (part_shape part.now) }
    requires kept { AreAnswers holding.now.hosts.now.principals (program_tree holding.now.checked.now.program)
        answers.old.kept.items }
    ensures text { OnOk result (string_bytes text.new ≡ string_bytes text.old
        ++ lines.part_lines (sheet_of holding.now) (labelled_of holding.now.checked.now) holding.now.hosts.now.hosts
        (part_shape part.now)) }
    ensures kept { OnOk result (AreAnswers holding.now.hosts.now.principals
        (program_tree holding.now.checked.now.program) answers.new.kept.items) }
{
    let hosts = holding.hosts.hosts();
    for place in 0..hosts.len() {
        let told = &holding.told[place];
        push_at(
            alloc,
            text,
            holding,
            part,
            &hosts[place],
            &told.fields,
            answers,
        )?;
    }
    Ok(())
}

/// Adds a line for each of these parts and each host that may not hold it, parts in order and for each the hosts in
/// order.
///
/// # Errors
/// That memory ran out.
pub fn push_lines<'a>(
    alloc: Global,
    text: &mut String,
    holding: &Holding<'a>,
    parts: &[Part<'a>],
) -> Result<(), OutOfMemory>
    requires holding { IsHolding holding.now }
    requires parts { ArePartsOf holding.now.hosts.now.principals (program_tree holding.now.checked.now.program)
        (map part_shape parts.now) }
    ensures { OnOk result (string_bytes text.new ≡ string_bytes text.old
        ++ lines.parts_lines (sheet_of holding.now) (labelled_of holding.now.checked.now) holding.now.hosts.now.hosts
        (map part_shape parts.now)) }
{
    let mut answers = KeptAnswers::new(alloc);
    for part in parts {
        push_part(alloc, text, holding, part, &mut answers)?;
    }
    Ok(())
}
