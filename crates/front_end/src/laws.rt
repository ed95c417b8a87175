//! The laws of what a program and a host file give, and of loads.

ghost use Rattle.std.specs.Prelude.{◌≡◌, ◌<◌, ℕ, List};
ghost use Rattle.js_base.specs.Counts.{last_count};
ghost use Rattle.principals.specs.ActsFor.{IsDeclared};
ghost use Rattle.jif_lex.specs.declared.token.Token.{Token};
ghost use Rattle.jif_tree.specs.Trees.{ProgramTree};
ghost use Rattle.host_decl.specs.Hosts.{HostsShape};
ghost use Rattle.jif_grammar.specs.DraftShapes.{DraftShape};
ghost use Rattle.front_end.specs.Verdicts.{VerdictShape};
ghost use Rattle.front_end.specs.Loads.{FilesChange, IsFileFault};
ghost use Rattle.front_end.specs.PlacedSources.{PlacedSource, PlacedSources};
ghost use Rattle.front_end.specs.Sources.{Drafted, HostsRead, Lexed, Parsed, Resolved, Source, Sources};
ghost use Rattle.front_end.specs.Stages.{StageEnd};

use host_decl::host_file_laws;
use jif_grammar::{grammar_laws, verdict_laws as token_verdicts};
use jif_lex::{lex_laws, reading_laws};
use jif_resolve::{program_laws, resolve_laws, verdict_laws as name_verdicts};
use label_check::failure_laws;
use need_labels::need_laws;
use place_rules::place_rule_laws;
use placement::placement_laws;

/// Laws of what a program and a host file give, and of loads, for who reasons about what is due. The call does nothing.
pub fn source_laws()
    // A program and a host file say one program and its hosts, or are refused for one cause.
    ensures one_source { (program hosts : List ℕ) (first second : StageEnd Source) →
        Sources program hosts first → Sources program hosts second → first ≡ second }

    // One of the two comes of all bytes.
    ensures some_source { (program hosts : List ℕ) → (end : StageEnd Source) × Sources program hosts end }

    // A program alone is one draft, or is refused for one cause.
    ensures one_draft { (program : List ℕ) (first second : StageEnd DraftShape) →
        Drafted program first → Drafted program second → first ≡ second }

    // So each stage alone gives one thing, or stops for one cause: the tokens of a program, their draft, and the
    // program of a draft over declared principals.
    ensures one_tokens { (program : List ℕ) (first second : StageEnd (List Token)) →
        Lexed program first → Lexed program second → first ≡ second }
    ensures one_parse { (list : List Token) (first second : StageEnd DraftShape) →
        Parsed list first → Parsed list second → first ≡ second }
    ensures one_program { (file : HostsShape) (draft : DraftShape) (first second : StageEnd ProgramTree) →
        IsDeclared file.principals → Resolved file draft first → Resolved file draft second → first ≡ second }

    // A host file alone says one row of hosts, or is refused for one cause.
    ensures one_hosts { (bytes : List ℕ) (first second : StageEnd HostsShape) →
        HostsRead bytes first → HostsRead bytes second → first ≡ second }

    // The parts of a program get one row of places, or the first that no host may hold is named.
    ensures one_plan { (program hosts : List ℕ) (first second : StageEnd PlacedSource) →
        PlacedSources program hosts first → PlacedSources program hosts second → first ≡ second }

    // One of the two comes of all bytes.
    ensures some_plan { (program hosts : List ℕ) → (end : StageEnd PlacedSource) × PlacedSources program hosts end }

    // A file fault is due for one place of the names, as long as the count of loads tells it.
    ensures one_fault { (names : List (List ℕ)) (files : FilesChange) (first second : VerdictShape)
        (one : IsFileFault names files first) (two : IsFileFault names files second) →
        files.loads_after < last_count → one.place ≡ two.place }
{
    lex_laws();
    reading_laws();
    grammar_laws();
    token_verdicts();
    host_file_laws();
    resolve_laws();
    program_laws();
    name_verdicts();
    failure_laws();
    need_laws();
    place_rule_laws();
    placement_laws();
}
