//! What is told of refused texts, as what is due for them.

ghost use Rattle.std.specs.Prelude.{◌≡◌, ◌≤◌, ℕ, IfOk, List, length};
ghost use Rattle.js_base.specs.declared.limits.TheConstants.{HOSTS_BYTES, PROGRAM_BYTES};
ghost use Rattle.explain_texts.specs.Heads as heads;
ghost use Rattle.explain_texts.specs.Sheets.{sheet_shape};
ghost use Rattle.explain_texts.specs.Told.{told_shape};
ghost use Rattle.front_end.specs.Loading.{IsLoaded};
ghost use Rattle.front_end.specs.Verdicts.{verdict_shape};
ghost use Rattle.host_decl.specs.Refusal as hosts;
ghost use Rattle.jif_grammar.specs.DraftShapes.{draft_shape};
ghost use Rattle.jifexplain.specs.Explained.{HostsExplained};
ghost use Rattle.jifexplain.specs.Texts as texts;
ghost use Rattle.jifexplain.specs.Texts.{readable, told_of, unheld_told};

use explain_texts::{
    Told, field_told, lexed_told, parsed_told, resolved_told, statement_told, told_text,
};
use front_end::{Loaded, Refusal, Verdict};
use host_decl::HostsError;
use host_reasons::hosts_told;
use jif_lex::{LexError, Token};
use jif_parse::ParseError;
use jif_resolve::ResolveError;
use jif_tree::Draft;
use js_base::OutOfMemory;
use js_base::limits::{HOSTS_BYTES, PROGRAM_BYTES};
use place_rules::PlaceError;
use std::alloc::Global;

/// A program or a host file by its name and its text.
#[derive(Clone, Copy)]
pub struct Shown<'a> {
    pub name: &'a str,
    pub text: &'a [u8],
}

/// What is read of a program: nothing of one that is too long.
pub fn readable(program: &Loaded) -> &[u8]
    ensures text { (p : List ℕ) → IsLoaded PROGRAM_BYTES p program.now → result.now ≡ readable p }
    ensures short { length result.now ≤ PROGRAM_BYTES }
{
    match program {
        Loaded::Bytes(bytes) => short_text(bytes),
        Loaded::TooLong => &[],
    }
}

/// A text, or nothing of one that is too long.
fn short_text(bytes: &[u8]) -> &[u8]
    ensures text { result.now ≡ readable bytes.now }
    ensures short { length result.now ≤ PROGRAM_BYTES }
{
    if PROGRAM_BYTES < bytes.len() {
        &[]
    } else {
        bytes
    }
}

/// The program is refused, and this is told of it.
pub fn told_of(alloc: Global, shown: &Shown<'_>, told: &Told) -> Result<Verdict, OutOfMemory>
    requires { length shown.now.text.now ≤ PROGRAM_BYTES }
    ensures { IfOk result (λ verdict. verdict_shape verdict
        ≡ told_of shown.now.name.now shown.now.text.now (told_shape told.now)) }
{
    let text = told_text(alloc, shown.name, shown.text, told)?;
    Ok(Verdict::Refuse(Refusal::SourceExplained { text }))
}

/// It has no tokens.
pub fn lexed_shown(alloc: Global, shown: &Shown<'_>, why: LexError) -> Result<Verdict, OutOfMemory>
    requires { length shown.now.text.now ≤ PROGRAM_BYTES }
    ensures { IfOk result (λ verdict. verdict_shape verdict
        ≡ told_of shown.now.name.now shown.now.text.now (heads.lexed_told shown.now.text.now why)) }
{
    let told = lexed_told(alloc, shown.text, why)?;
    told_of(alloc, shown, &told)
}

/// Its tokens are no program.
pub fn parsed_shown(
    alloc: Global,
    shown: &Shown<'_>,
    tokens: &[Token],
    why: ParseError,
) -> Result<Verdict, OutOfMemory>
    requires { length shown.now.text.now ≤ PROGRAM_BYTES }
    ensures { IfOk result (λ verdict. verdict_shape verdict
        ≡ told_of shown.now.name.now shown.now.text.now (heads.parsed_told shown.now.text.now tokens.now why)) }
{
    let told = parsed_told(alloc, shown.text, tokens, why)?;
    told_of(alloc, shown, &told)
}

/// A name of it is refused.
pub fn resolved_shown(
    alloc: Global,
    shown: &Shown<'_>,
    tokens: &[Token],
    why: ResolveError,
) -> Result<Verdict, OutOfMemory>
    requires { length shown.now.text.now ≤ PROGRAM_BYTES }
    ensures { IfOk result (λ verdict. verdict_shape verdict
        ≡ told_of shown.now.name.now shown.now.text.now (heads.resolved_told tokens.now why)) }
{
    let told = resolved_told(alloc, tokens, why)?;
    told_of(alloc, shown, &told)
}

/// What is told of a part that no host may hold.
pub fn unheld_told(
    alloc: Global,
    tokens: &[Token],
    draft: &Draft,
    why: PlaceError,
) -> Result<Told, OutOfMemory>
    ensures { IfOk result (λ told. told_shape told ≡ unheld_told tokens.now (draft_shape draft.now) why) }
{
    match why {
        PlaceError::OutOfMemory => Err(OutOfMemory),
        PlaceError::NoHostForField(field) => field_told(alloc, tokens, draft, field),
        PlaceError::NoHostForStatement(statement) => statement_told(
            alloc, tokens, draft, statement,
        ),
    }
}

/// What is read of a host file: nothing of one that is too long.
pub fn readable_hosts(hosts: &Loaded) -> &[u8]
    ensures text { (h : List ℕ) → IsLoaded HOSTS_BYTES h hosts.now → result.now ≡ texts.readable_hosts h }
    ensures short { length result.now ≤ HOSTS_BYTES }
{
    match hosts {
        Loaded::Bytes(bytes) => short_hosts(bytes),
        Loaded::TooLong => &[],
    }
}

/// A host file, or nothing of one that is too long.
fn short_hosts(bytes: &[u8]) -> &[u8]
    ensures text { result.now ≡ texts.readable_hosts bytes.now }
    ensures short { length result.now ≤ HOSTS_BYTES }
{
    if HOSTS_BYTES < bytes.len() {
        &[]
    } else {
        bytes
    }
}

/// The host file of this name with this text is refused.
pub fn hosts_shown(
    alloc: Global,
    shown: &Shown<'_>,
    why: &HostsError,
) -> Result<Verdict, OutOfMemory>
    requires { length shown.now.text.now ≤ HOSTS_BYTES }
    ensures { (h : List ℕ) → shown.now.text.now ≡ texts.readable_hosts h → IfOk result (λ verdict.
        HostsExplained shown.now.name.now h (hosts.refusal_shape why.now) (verdict_shape verdict)) }
{
    let told = hosts_told(alloc, shown.text, why)?;
    let text = told_text(alloc, shown.name, shown.text, &told)?;
    Ok(Verdict::Refuse(Refusal::InputExplained { text }))
}
