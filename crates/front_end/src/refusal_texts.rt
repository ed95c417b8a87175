//! The words of refusals.

ghost use Rattle.std.specs.Prelude.{◌≡◌, ◌≢◌, [], IfOk, map, slice_get, slice_index, unwrap_or};
ghost use Rattle.std.specs.Option.{option_map};
ghost use Rattle.std.specs.String.{string_bytes};
ghost use Rattle.jif_tree.specs.Trees.{field_tree, program_tree};
ghost use Rattle.host_decl.specs.Refusal as hosts;
ghost use Rattle.principals.specs.Refusal as principals;
ghost use Rattle.front_end.specs.Refusals as refusals;

use crate::refusal::LineCause;
use crate::statements::statement_lines;
use host_decl::HostsError;
use jif_grammar::What;
use jif_lex::LexError;
use jif_parse::ParseError;
use jif_resolve::ResolveError;
use jif_tree::{Field, Program};
use js_base::{EntryId, FieldId, OutOfMemory, StmtId};
use label_check::CheckError;
use label_lattice::label_text;
use place_rules::PlaceError;
use principals::{PrincipalError, Principals};
use split_file::SplitError;
use std::alloc::{AllocError, Global};

/// The words of a program that has no tokens.
pub fn lexed_text(alloc: Global, why: LexError) -> Result<String, AllocError>
    ensures { IfOk result (λ text. string_bytes text ≡ refusals.refusal_text (refusals.Lex why)) }
{
    let why = why_no_tokens(alloc, why)?;
    format!(in alloc; "program: {why}")
}

/// The words of tokens that are no program.
pub fn parsed_text(alloc: Global, why: ParseError) -> Result<String, AllocError>
    ensures { IfOk result (λ text. string_bytes text ≡ refusals.refusal_text (refusals.Parse why)) }
{
    let why = why_not_parsed(alloc, why)?;
    format!(in alloc; "program: {why}")
}

/// The words of a program of which a name is refused.
pub fn resolved_text(alloc: Global, why: ResolveError) -> Result<String, AllocError>
    ensures { IfOk result (λ text. string_bytes text ≡ refusals.refusal_text (refusals.Resolve why)) }
{
    let why = why_not_resolved(alloc, why)?;
    format!(in alloc; "program: {why}")
}

/// The words of a program whose labels are refused on a line.
pub fn labels_text(
    alloc: Global,
    why: &CheckError,
    line: u32,
    words: &str,
) -> Result<String, AllocError>
    ensures { IfOk result (λ text.
        string_bytes text ≡ refusals.refusal_text (refusals.Labels why.now line words.now)) }
{
    let statement = refused_statement(why).0;
    format!(in alloc; "statement {statement} (line {line}): {words}")
}

/// The words of a host file that is refused.
pub fn hosts_text(alloc: Global, why: &HostsError) -> Result<String, AllocError>
    ensures { IfOk result (λ text.
        string_bytes text ≡ refusals.refusal_text (refusals.Hosts (hosts.refusal_shape why.now))) }
{
    let why = why_no_hosts(alloc, why)?;
    format!(in alloc; "hosts: {why}")
}

/// The words of a file of which a line is refused.
pub fn at_line_text(
    alloc: Global,
    file: &str,
    line: u32,
    why: LineCause,
) -> Result<String, AllocError>
    ensures { IfOk result (λ text.
        string_bytes text ≡ refusals.refusal_text (refusals.AtLine file.now line why)) }
{
    let why = why_not_line(alloc, why)?;
    format!(in alloc; "{file} line {line}: {why}")
}

/// The words of a split file that is refused.
pub fn code_text(alloc: Global, file: &str, why: SplitError) -> Result<String, AllocError>
    ensures { IfOk result (λ text. string_bytes text ≡ refusals.refusal_text (refusals.BadCode file.now why)) }
{
    let why = why_no_code(alloc, why)?;
    format!(in alloc; "{file}: {why}")
}

/// The words of a file of keys that lacks one for a host.
pub fn no_key_text(alloc: Global, file: &str, host: &str) -> Result<String, AllocError>
    ensures { IfOk result (λ text. string_bytes text ≡ refusals.refusal_text (refusals.NoKey file.now host.now)) }
{
    format!(in alloc; "{file}: no key for host {host}")
}

/// The words of a journal of which a line, with those before it, is in no run of its host.
pub fn no_run_text(alloc: Global, file: &str, line: u32, host: &str) -> Result<String, AllocError>
    ensures { IfOk result (λ text.
        string_bytes text ≡ refusals.refusal_text (refusals.NoRun file.now line host.now)) }
{
    format!(in alloc; "{file} line {line}: no run of {host} has this line here")
}

/// The words of a split file in which an entry leads to an instruction that names more than its need has.
pub fn weak_entry_text(
    alloc: Global,
    file: &str,
    entry: EntryId,
    place: u32,
) -> Result<String, AllocError>
    ensures { IfOk result (λ text.
        string_bytes text ≡ refusals.refusal_text (refusals.WeakEntry file.now entry place)) }
{
    let number = entry.0;
    format!(in alloc; "{file}: instruction {place} names more than the need of entry e{number}")
}

/// The words of a split file in which an instruction shows another host what that may not see.
pub fn reveals_text(alloc: Global, file: &str, place: u32) -> Result<String, AllocError>
    ensures { IfOk result (λ text. string_bytes text ≡ refusals.refusal_text (refusals.Reveals file.now place)) }
{
    format!(in alloc; "{file}: instruction {place} shows a host what it may not see")
}

/// Why a text has no tokens.
fn why_no_tokens(alloc: Global, why: LexError) -> Result<String, AllocError>
    ensures { IfOk result (λ text. string_bytes text ≡ refusals.why_no_tokens why) }
{
    match why {
        LexError::OutOfMemory => Err(AllocError),
        LexError::BadByte(at) => format!(in alloc; "bad byte at {at}"),
        LexError::BadNumber(at) => format!(in alloc; "bad number at {at}"),
        LexError::TooLong => String::from_str(alloc, "too long"),
    }
}

/// Why tokens are no program.
fn why_not_parsed(alloc: Global, why: ParseError) -> Result<String, AllocError>
    ensures { IfOk result (λ text. string_bytes text ≡ refusals.why_not_parsed why) }
{
    match why {
        ParseError::OutOfMemory => Err(AllocError),
        ParseError::Unexpected(at) => format!(in alloc; "unexpected token {at}"),
        ParseError::TooDeep(_) => String::from_str(alloc, "nested past 64"),
        ParseError::TooMany(what, _) => {
            let name = name_of(what);
            format!(in alloc; "too many {name}")
        }
    }
}

/// What there is too much of.
fn name_of(what: What) -> &'static str
    ensures { result.now ≡ refusals.name_of what }
{
    match what {
        What::Fields => "fields",
        What::Methods => "methods",
        What::Parameters => "parameters",
        What::Locals => "locals",
        What::Statements => "statements",
        What::Nodes => "expression nodes",
        What::Elements => "array elements",
    }
}

/// Why a name of a program is refused.
fn why_not_resolved(alloc: Global, why: ResolveError) -> Result<String, AllocError>
    ensures { IfOk result (λ text. string_bytes text ≡ refusals.why_not_resolved why) }
{
    match why {
        ResolveError::OutOfMemory => Err(AllocError),
        ResolveError::UnknownName(at) => format!(in alloc; "unknown name at token {at}"),
        ResolveError::Twice(at) => format!(in alloc; "name twice at token {at}"),
        ResolveError::WrongType(at) => format!(in alloc; "wrong type at token {at}"),
        ResolveError::WrongCount(at) => format!(in alloc; "wrong count at token {at}"),
        ResolveError::NoMain => String::from_str(alloc, "no main"),
    }
}

/// The statement at which labels are refused.
pub fn refused_statement(why: &CheckError) -> StmtId
    ensures { result ≡ refusals.refused_statement why.now }
{
    match why {
        CheckError::OutOfMemory => StmtId(0),
        CheckError::BadFlow(statement, _, _) => *statement,
        CheckError::BadBegin(statement, _, _) => *statement,
        CheckError::NoAuthority(statement) => *statement,
        CheckError::WeakProgramLabel(statement) => *statement,
    }
}

/// The line of a statement, where the statements stand on these lines.
pub fn line_of(lines: &[u32], statement: u32) -> u32
    ensures { result ≡ slice_index lines.now statement }
{
    lines.get(statement as usize).copied().unwrap_or(0)
}

/// Why labels are refused.
pub fn why_not_labelled(
    alloc: Global,
    principals: &Principals,
    why: &CheckError,
) -> Result<String, OutOfMemory>
    ensures text { IfOk result (λ text. string_bytes text ≡ refusals.why_not_labelled principals.now why.now) }
    ensures not_memory { IfOk result (λ text. why.now ≢ CheckError.OutOfMemory) }
{
    match why {
        CheckError::OutOfMemory => Err(OutOfMemory),
        CheckError::BadFlow(_, from, to) => {
            let from = label_text(alloc, from, principals)?;
            let to = label_text(alloc, to, principals)?;
            Ok(format!(in alloc; "{from} may not flow to {to}")?)
        }
        CheckError::BadBegin(_, pc, begin) => {
            let pc = label_text(alloc, pc, principals)?;
            let begin = label_text(alloc, begin, principals)?;
            Ok(format!(in alloc; "program label {pc} may not flow to begin label {begin}")?)
        }
        CheckError::NoAuthority(_) => Ok(String::from_str(alloc, "no authority")?),
        CheckError::WeakProgramLabel(_) => Ok(String::from_str(
            alloc,
            "program label not trusted",
        )?),
    }
}

/// What of a program no host may hold.
pub fn unheld(alloc: Global, program: &Program, why: &PlaceError) -> Result<String, OutOfMemory>
    ensures text { IfOk result
        (λ text. string_bytes text ≡ refusals.unheld (program_tree program.now) why.now) }
    ensures not_memory { IfOk result (λ text. why.now ≢ PlaceError.OutOfMemory) }
{
    match why {
        PlaceError::OutOfMemory => Err(OutOfMemory),
        PlaceError::NoHostForField(field) => {
            let name = field_name(&program.fields, *field);
            Ok(format!(in alloc; "field {name}")?)
        }
        PlaceError::NoHostForStatement(statement) => {
            let lines = statement_lines(alloc, program)?;
            let number = statement.0;
            let line = line_of(&lines, number);
            Ok(format!(in alloc; "statement {number} (line {line})")?)
        }
    }
}

/// The name of a field, empty where there is no such field.
fn field_name(fields: &[Field], field: FieldId) -> &str
    ensures { result.now ≡ unwrap_or (option_map (λ one. one.name) (slice_get (map field_tree fields.now) field.0)) [] }
{
    match fields.get(field.0 as usize) {
        Some(one) => one.name.as_str(),
        None => "",
    }
}

/// Why a host file is refused, in the words behind `hosts: `.
///
/// # Errors
/// That memory ran out, here or as the file was read.
pub fn why_no_hosts(alloc: Global, why: &HostsError) -> Result<String, AllocError>
    ensures { IfOk result (λ text. string_bytes text ≡ refusals.why_no_hosts (hosts.refusal_shape why.now)) }
{
    match why {
        HostsError::OutOfMemory => Err(AllocError),
        HostsError::NotToml => String::from_str(alloc, "not TOML"),
        HostsError::BadKey(name) => format!(in alloc; "bad key {name}"),
        HostsError::BadLabel(_, name) => format!(in alloc; "bad label of host {name}"),
        HostsError::Principals(why) => why_no_principals(alloc, why),
        HostsError::TooManyHosts => String::from_str(alloc, "too many hosts"),
        HostsError::HostTwice(name) => format!(in alloc; "host {name} twice"),
        HostsError::NoHost => String::from_str(alloc, "no host"),
        HostsError::BadLink(number) => format!(in alloc; "bad link {number}"),
        HostsError::TooLong => String::from_str(alloc, "too long"),
    }
}

/// Why the principals of a host file are refused.
fn why_no_principals(alloc: Global, why: &PrincipalError) -> Result<String, AllocError>
    ensures { IfOk result
        (λ text. string_bytes text ≡ refusals.why_no_principals (principals.refusal_shape why.now)) }
{
    match why {
        PrincipalError::OutOfMemory => Err(AllocError),
        PrincipalError::TooMany => String::from_str(alloc, "too many principals"),
        PrincipalError::Twice(name) => format!(in alloc; "principal {name} twice"),
        PrincipalError::Unknown(name) => format!(in alloc; "unknown principal {name}"),
    }
}

/// Why a line of a script is refused.
fn why_not_line(alloc: Global, why: LineCause) -> Result<String, AllocError>
    ensures { IfOk result (λ text. string_bytes text ≡ refusals.why_not_line why) }
{
    match why {
        LineCause::NoForm => String::from_str(alloc, "no form"),
        LineCause::NotThere => String::from_str(alloc, "not there"),
        LineCause::HostBusy => String::from_str(alloc, "host busy"),
        LineCause::NotMisbehaving => String::from_str(alloc, "not misbehaving"),
        LineCause::EventsDiffer => String::from_str(alloc, "events differ"),
        LineCause::NotPrompt => String::from_str(alloc, "not prompt"),
        LineCause::NoMatch => String::from_str(alloc, "no list meets this"),
        LineCause::NotEnded => String::from_str(alloc, "not ended"),
        LineCause::NoSuchToken { number, count } => {
            format!(in alloc; "no such token {number}, {count} sent")
        }
    }
}

/// Why a split file is refused.
fn why_no_code(alloc: Global, why: SplitError) -> Result<String, AllocError>
    ensures { IfOk result (λ text. string_bytes text ≡ refusals.why_no_code why) }
{
    match why {
        SplitError::OutOfMemory => Err(AllocError),
        SplitError::Short => String::from_str(alloc, "short"),
        SplitError::BadMagic => String::from_str(alloc, "bad magic"),
        SplitError::BadVersion => String::from_str(alloc, "bad version"),
        SplitError::BadField(at) => format!(in alloc; "bad field at {at}"),
        SplitError::Trailing => String::from_str(alloc, "trailing bytes"),
    }
}
