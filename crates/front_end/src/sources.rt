//! What a program and a host file say: the hosts, and the program that is accepted with them.

ghost use Rattle.std.specs.Prelude.{◌≤◌, ℕ, List, IfOk, MatchResult, length};
ghost use Rattle.js_base.specs.declared.limits.TheConstants.{PROGRAM_BYTES, HOSTS_BYTES};
ghost use Rattle.jif_lex.specs.Lexing.{LexFails};
ghost use Rattle.jif_lex.specs.TokenLists.{AreTokens};
ghost use Rattle.jif_lex.specs.Tokens.{ReadsAs, tokens};
ghost use Rattle.jif_grammar.specs.DraftShapes.{draft_shape};
ghost use Rattle.host_decl.specs.Reading.{ReadsHosts, RefusesHosts};
ghost use Rattle.jif_tree.specs.Trees.{program_tree};
ghost use Rattle.label_check.specs.Checking.{AreAuthorities};
ghost use Rattle.front_end.specs.Loading.{EndsAs, IsLoaded};
ghost use Rattle.front_end.specs.ReadPrograms.{AreShort, IsReadDraft, IsReadProgram};
ghost use Rattle.front_end.specs.SourceShapes.{source_shape};
ghost use Rattle.front_end.specs.Sources.{DraftAccepted, Lexed, Parsed, Drafted, HostsRead, Resolved, ProgramLabelled};
ghost use Rattle.front_end.specs.Sources.{Sources};

use crate::load::Loaded;
use crate::statements::statement_lines;
use crate::stop::{Stop, stopped};
use crate::verdict::Verdict;
use host_decl::{Hosts, HostsError, host_file_laws, read_hosts};
use jif_lex::{LexError, Token, lex, token_laws};
use jif_parse::{named_laws, parse};
use jif_resolve::{limit_laws, program_laws, resolve};
use jif_tree::{Checked, Draft, Program};
use label_check::check;
use std::alloc::Global;
use std::marker::Model;

/// An accepted program with its labels, and the hosts that it is for.
#[derive(Drop)]
pub struct Source {
    pub hosts: Hosts,
    pub checked: Checked,
}

impl Model for Source {
    ghost use Rattle.std.specs.Coded.{codes};
    ghost use Rattle.jif_tree.specs.contracts.program.Checked.{the_row};
    ghost use Rattle.front_end.specs.SourceShapes.{IsAccepted, SourceModel};

    ghost Value = { SourceModel };

    ghost coded = { Prim.hlevel (codes, the_row.coded) };

    ghost view = { λ s. record { hosts = s.hosts; checked = s.checked } };

    ghost invariant = { λ s. IsAccepted (record { hosts = s.hosts; checked = s.checked }) };
}

/// The hosts and the accepted program of two files, or what is due where one of them is refused.
pub fn read_sources(alloc: Global, program: &Loaded, hosts: &Loaded) -> Result<Source, Stop>
    ensures { (p h : List ℕ) → IsLoaded PROGRAM_BYTES p program.now → IsLoaded HOSTS_BYTES h hosts.now →
        EndsAs source_shape (Sources p h) result }
{
    let draft = drafted(alloc, program)?;
    let hosts = hosts_read(alloc, hosts)?;
    accepted(alloc, draft, hosts)
}

/// The accepted program of a draft with these hosts, or what is due where it is refused.
pub fn accepted(alloc: Global, draft: Draft, hosts: Hosts) -> Result<Source, Stop>
    requires draft { IsReadDraft (draft_shape draft) }
    requires short { AreShort hosts }
    ensures { EndsAs source_shape (DraftAccepted hosts (draft_shape draft)) result }
{
    let program = resolved(alloc, draft, &hosts)?;
    labelled(alloc, program, hosts)
}

/// The draft of a program.
pub fn drafted(alloc: Global, program: &Loaded) -> Result<Draft, Stop>
    ensures drafted { (p : List ℕ) → IsLoaded PROGRAM_BYTES p program.now → EndsAs draft_shape (Drafted p) result }
    ensures read { IfOk result (λ draft. IsReadDraft (draft_shape draft)) }
{
    let tokens = lexed(alloc, program)?;
    parsed(alloc, &tokens)
}

/// The tokens of a program.
pub fn lexed(alloc: Global, program: &Loaded) -> Result<Vec<Token>, Stop>
    ensures lexed { (p : List ℕ) → IsLoaded PROGRAM_BYTES p program.now →
        EndsAs (λ list. list.items) (Lexed p) result }
    ensures sound { IfOk result (λ list. AreTokens list.items) }
{
    match tokens_of(alloc, program) {
        Ok(tokens) => Ok(tokens),
        Err(why) => Err(stopped(Verdict::not_lexed(why))),
    }
}

/// The tokens of a program, or why it has none.
fn tokens_of(alloc: Global, program: &Loaded) -> Result<Vec<Token>, LexError>
    ensures tokens { (p : List ℕ) → IsLoaded PROGRAM_BYTES p program.now → MatchResult result
        (λ list. (length p ≤ PROGRAM_BYTES) × ReadsAs p (tokens list.items))
        (LexFails p) }
    ensures sound { IfOk result (λ list. AreTokens list.items) }
{
    token_laws();
    match program {
        Loaded::Bytes(bytes) => lex(alloc, bytes),
        Loaded::TooLong => Err(LexError::TooLong),
    }
}

/// The draft that tokens are.
pub fn parsed(alloc: Global, tokens: &[Token]) -> Result<Draft, Stop>
    requires { AreTokens tokens.now }
    ensures parsed { EndsAs draft_shape (Parsed tokens.now) result }
    ensures read { IfOk result (λ draft. IsReadDraft (draft_shape draft)) }
{
    match parse(alloc, tokens) {
        Ok(draft) => Ok(draft),
        Err(why) => Err(stopped(Verdict::not_parsed(why))),
    }
}

/// The hosts of a host file, or what is due where it is refused.
pub fn hosts_read(alloc: Global, file: &Loaded) -> Result<Hosts, Stop>
    ensures read { (h : List ℕ) → IsLoaded HOSTS_BYTES h file.now → EndsAs (λ hosts. hosts) (HostsRead h) result }
    ensures short { IfOk result AreShort }
{
    match hosts_of(alloc, file) {
        Ok(hosts) => Ok(hosts),
        Err(why) => Err(stopped(Verdict::hosts_refused(why))),
    }
}

/// The hosts of a host file, or why it is refused.
fn hosts_of(alloc: Global, file: &Loaded) -> Result<Hosts, HostsError>
    ensures read { (h : List ℕ) → IsLoaded HOSTS_BYTES h file.now →
        MatchResult result (ReadsHosts h) (RefusesHosts h) }
    ensures short { IfOk result AreShort }
{
    host_file_laws();
    match file {
        Loaded::Bytes(bytes) => read_hosts(alloc, bytes),
        Loaded::TooLong => Err(HostsError::TooLong),
    }
}

/// The program of a draft, by the principals of these hosts.
pub fn resolved(alloc: Global, draft: Draft, hosts: &Hosts) -> Result<Program, Stop>
    requires { IsReadDraft (draft_shape draft) }
    ensures resolved { EndsAs program_tree (Resolved hosts.now (draft_shape draft)) result }
    ensures read { IfOk result (λ program. IsReadProgram (program_tree program)) }
    ensures authorities { IfOk result (λ program. AreAuthorities hosts.now.principals (program_tree program)) }
{
    named_laws();
    limit_laws();
    program_laws();
    match resolve(alloc, draft, hosts.principals()) {
        Ok(program) => Ok(program),
        Err(why) => Err(stopped(Verdict::not_resolved(why))),
    }
}

/// The program with its labels, by the principals of these hosts.
pub fn labelled(alloc: Global, program: Program, hosts: Hosts) -> Result<Source, Stop>
    requires read { IsReadProgram (program_tree program) }
    requires authorities { AreAuthorities hosts.principals (program_tree program) }
    requires short { AreShort hosts }
    ensures { EndsAs source_shape (ProgramLabelled hosts (program_tree program)) result }
{
    let lines = statement_lines(alloc, &program)?;
    match check(alloc, program, hosts.principals()) {
        Ok(checked) => Ok(Source { hosts, checked }),
        Err(why) => {
            let principals = hosts.principals();
            Err(stopped(Verdict::labels_refused(alloc, principals, &lines, why)))
        }
    }
}
