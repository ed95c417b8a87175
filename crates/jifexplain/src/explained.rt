//! What explains a refusal: what is refused is read once more, up to the stage before the one that refused it.

ghost use Rattle.std.specs.Prelude.{◌≡◌, ◌≤◌, ◌<◌, ◌^◌, ℕ, IfOk, List, length};
ghost use Rattle.js_base.specs.declared.limits.TheConstants.{HOSTS_BYTES, PROGRAM_BYTES};
ghost use Rattle.explain_texts.specs.Sheets.{sheet_shape};
ghost use Rattle.front_end.specs.Loading.{EndsIn, IsLoaded};
ghost use Rattle.front_end.specs.ReadPrograms.{IsReadDraft};
ghost use Rattle.front_end.specs.Refusals.{refusal_shape};
ghost use Rattle.front_end.specs.Verdicts.{verdict_shape};
ghost use Rattle.jif_grammar.specs.DraftShapes.{draft_shape};
ghost use Rattle.jif_lex.specs.TokenLists.{AreTokens};
ghost use Rattle.host_decl.specs.Refusal.{refusal_shape as hosts_shape};
ghost use Rattle.jif_tree.specs.Trees.{program_tree};
ghost use Rattle.label_check.specs.Checking.{AreAuthorities};
ghost use Rattle.label_reasons.specs.Reasons as reasons;
ghost use Rattle.jifexplain.specs.Explained as explained;
ghost use Rattle.jifexplain.specs.Explained.{DraftExplained, ExplainsVerdict, Explains, HostsExplained};
ghost use Rattle.jifexplain.specs.Explained.{LabelsExplained, LexExplained, ParseExplained, ResolveExplained};
ghost use Rattle.jifexplain.specs.Explained.{TokensExplained, TreeExplained};
ghost use Rattle.jifexplain.specs.Questions.{asked_shape};
ghost use Rattle.jifexplain.specs.Texts.{readable};

use crate::places::{Asked, places_told};
use crate::shown::{
    Shown, hosts_shown, lexed_shown, parsed_shown, readable, readable_hosts, resolved_shown,
    told_of,
};
use explain_texts::{Sheet, draft_places, labels_told};
use front_end::{Loaded, Refusal, Stop, Verdict, hosts_read, lexed, parsed, resolved};
use host_decl::{Hosts, HostsError};
use jif_lex::{LexError, Token};
use jif_parse::ParseError;
use jif_resolve::{ResolveError, limit_laws};
use jif_tree::Draft;
use js_base::OutOfMemory;
use label_reasons::label_refusal;
use std::alloc::Global;

/// The names of a program and a host file, and which parts are asked about.
#[derive(Clone, Copy)]
pub struct Names<'a> {
    pub program: &'a str,
    pub hosts: &'a str,
    pub asked: Asked<'a>,
}

/// What explains what is due for a program and a host file.
pub fn explained_verdict(
    alloc: Global,
    names: &Names<'_>,
    program: &Loaded,
    hosts: &Loaded,
    refused: Verdict,
) -> Result<Verdict, Stop>
    ensures { (p h : List ℕ) → IsLoaded PROGRAM_BYTES p program.now → IsLoaded HOSTS_BYTES h hosts.now →
        EndsIn (ExplainsVerdict names.now.program.now names.now.hosts.now p h (asked_shape names.now.asked)
        (verdict_shape refused)) result }
{
    match refused {
        Verdict::Refuse(refusal) => explained(alloc, names, program, hosts, refusal),
        Verdict::Print { status, text } => Ok(Verdict::Print { status, text }),
    }
}

/// What explains a refusal.
fn explained(
    alloc: Global,
    names: &Names<'_>,
    program: &Loaded,
    hosts: &Loaded,
    refusal: Refusal,
) -> Result<Verdict, Stop>
    ensures { (p h : List ℕ) → IsLoaded PROGRAM_BYTES p program.now → IsLoaded HOSTS_BYTES h hosts.now →
        EndsIn (Explains names.now.program.now names.now.hosts.now p h (asked_shape names.now.asked)
        (refusal_shape refusal)) result }
{
    let name = names.program;
    match refusal {
        Refusal::Lex(why) => lexed_explained(alloc, name, program, why),
        Refusal::Parse(why) => parsed_explained(alloc, name, program, why),
        Refusal::Resolve(why) => resolved_explained(alloc, name, program, why),
        Refusal::Labels { why, line, words } => {
            let refusal = Refusal::Labels { why, line, words };
            labels_explained(alloc, name, program, hosts, refusal)
        }
        Refusal::Hosts(why) => hosts_explained(alloc, names.hosts, hosts, &why),
        Refusal::Places { why, words: _ } => {
            places_told(alloc, name, names.asked, Some(why), program, hosts)
        }
        other => Ok(Verdict::Refuse(other)),
    }
}

/// What explains that a host file is refused.
fn hosts_explained(
    alloc: Global,
    name: &str,
    hosts: &Loaded,
    why: &HostsError,
) -> Result<Verdict, Stop>
    ensures { (h : List ℕ) → IsLoaded HOSTS_BYTES h hosts.now →
        EndsIn (HostsExplained name.now h (hosts_shape why.now)) result }
{
    let text = readable_hosts(hosts);
    let shown = Shown { name, text };
    Ok(hosts_shown(alloc, &shown, why)?)
}

/// What explains that a program has no tokens.
fn lexed_explained(
    alloc: Global,
    name: &str,
    program: &Loaded,
    why: LexError,
) -> Result<Verdict, Stop>
    ensures { (p : List ℕ) → IsLoaded PROGRAM_BYTES p program.now → EndsIn (LexExplained name.now p why) result }
{
    let text = readable(program);
    let shown = Shown { name, text };
    Ok(lexed_shown(alloc, &shown, why)?)
}

/// What explains that its tokens are no program.
fn parsed_explained(
    alloc: Global,
    name: &str,
    program: &Loaded,
    why: ParseError,
) -> Result<Verdict, Stop>
    ensures { (p : List ℕ) → IsLoaded PROGRAM_BYTES p program.now → EndsIn (ParseExplained name.now p why) result }
{
    let tokens = lexed(alloc, program)?;
    let text = readable(program);
    let shown = Shown { name, text };
    Ok(parsed_shown(alloc, &shown, &tokens, why)?)
}

/// What explains that a name of it is refused.
fn resolved_explained(
    alloc: Global,
    name: &str,
    program: &Loaded,
    why: ResolveError,
) -> Result<Verdict, Stop>
    ensures { (p : List ℕ) → IsLoaded PROGRAM_BYTES p program.now → EndsIn (ResolveExplained name.now p why) result }
{
    let tokens = lexed(alloc, program)?;
    let text = readable(program);
    let shown = Shown { name, text };
    Ok(resolved_shown(alloc, &shown, &tokens, why)?)
}

/// What explains that its labels are refused.
fn labels_explained(
    alloc: Global,
    name: &str,
    program: &Loaded,
    hosts: &Loaded,
    refusal: Refusal,
) -> Result<Verdict, Stop>
    ensures { (p h : List ℕ) → IsLoaded PROGRAM_BYTES p program.now → IsLoaded HOSTS_BYTES h hosts.now →
        EndsIn (LabelsExplained name.now p h (refusal_shape refusal)) result }
{
    let tokens = lexed(alloc, program)?;
    let text = readable(program);
    let shown = Shown { name, text };
    tokens_explained(alloc, &shown, &tokens, hosts, refusal)
}

/// The same, with the tokens.
fn tokens_explained(
    alloc: Global,
    shown: &Shown<'_>,
    tokens: &[Token],
    hosts: &Loaded,
    refusal: Refusal,
) -> Result<Verdict, Stop>
    requires short { length shown.now.text.now ≤ PROGRAM_BYTES }
    requires tokens { AreTokens tokens.now }
    ensures { (p h : List ℕ) → shown.now.text.now ≡ readable p → IsLoaded HOSTS_BYTES h hosts.now →
        EndsIn (TokensExplained shown.now.name.now p h (refusal_shape refusal) tokens.now) result }
{
    let draft = parsed(alloc, tokens)?;
    draft_explained(alloc, shown, tokens, draft, hosts, refusal)
}

/// The same, with the draft.
fn draft_explained(
    alloc: Global,
    shown: &Shown<'_>,
    tokens: &[Token],
    draft: Draft,
    hosts: &Loaded,
    refusal: Refusal,
) -> Result<Verdict, Stop>
    requires short { length shown.now.text.now ≤ PROGRAM_BYTES }
    requires draft { IsReadDraft (draft_shape draft) }
    ensures { (p h : List ℕ) → shown.now.text.now ≡ readable p → IsLoaded HOSTS_BYTES h hosts.now →
        EndsIn (DraftExplained shown.now.name.now p h (refusal_shape refusal) tokens.now (draft_shape draft)) result }
{
    let file = hosts_read(alloc, hosts)?;
    tree_explained(alloc, shown, tokens, draft, &file, refusal)
}

/// The same, with the hosts.
fn tree_explained(
    alloc: Global,
    shown: &Shown<'_>,
    tokens: &[Token],
    draft: Draft,
    hosts: &Hosts,
    refusal: Refusal,
) -> Result<Verdict, Stop>
    requires short { length shown.now.text.now ≤ PROGRAM_BYTES }
    requires draft { IsReadDraft (draft_shape draft) }
    ensures { (p : List ℕ) → shown.now.text.now ≡ readable p →
        EndsIn (TreeExplained shown.now.name.now p (refusal_shape refusal) tokens.now (draft_shape draft) hosts.now)
        result }
{
    limit_laws();
    let places = draft_places(alloc, &draft)?;
    let program = resolved(alloc, draft, hosts)?;
    let sheet = Sheet {
        tokens,
        places: &places,
        principals: hosts.principals(),
        program: &program,
    };
    Ok(labels_verdict(alloc, shown, &sheet, refusal)?)
}

/// What explains that the labels of a program are refused.
fn labels_verdict(
    alloc: Global,
    shown: &Shown<'_>,
    sheet: &Sheet<'_>,
    refusal: Refusal,
) -> Result<Verdict, OutOfMemory>
    requires short { length shown.now.text.now ≤ PROGRAM_BYTES }
    requires authority { AreAuthorities sheet.now.principals.now (program_tree sheet.now.program.now) }
    requires few { length sheet.now.program.now.vars.items < 2 ^ 32 }
    requires few_methods { length sheet.now.program.now.methods.items < 2 ^ 32 }
    ensures { IfOk result (λ verdict. verdict_shape verdict
        ≡ explained.labels_verdict shown.now.name.now shown.now.text.now (refusal_shape refusal)
        (sheet_shape sheet.now) (reasons.explained sheet.now.principals.now (program_tree sheet.now.program.now))) }
{
    match label_refusal(alloc, sheet.program, sheet.principals)? {
        Some(why) => {
            let told = labels_told(alloc, sheet, &why)?;
            told_of(alloc, shown, &told)
        }
        None => Ok(Verdict::Refuse(refusal)),
    }
}
