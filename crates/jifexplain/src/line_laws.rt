//! Laws of the lines that are told: what each says of a program is so, and one is told wherever one is due.

ghost use Rattle.std.specs.Prelude.{◌≡◌, ◌≢◌, ◌↔◌, ℕ, List, [], All, Option, Some, map};
ghost use Rattle.std.specs.List.{AllZip};
ghost use Rattle.label_lattice.specs.declared.label.Label.{Label};
ghost use Rattle.jif_lex.specs.declared.token.Token.{Token};
ghost use Rattle.jif_grammar.specs.DraftShapes.{DraftShape};
ghost use Rattle.jif_tree.specs.LabelRules.{IsFirstFailure, Obligation, obligations};
ghost use Rattle.jif_tree.specs.Trees.{ProgramTree};
ghost use Rattle.host_decl.specs.Hosts.{HostShape, HostsShape};
ghost use Rattle.label_reasons.specs.Asks.{Ask, obligation_of};
ghost use Rattle.label_reasons.specs.Reasons.{IsLabelReason, explained, label_reasons};
ghost use Rattle.explain_texts.specs.Sheets.{SheetShape};
ghost use Rattle.need_labels.specs.Labelled.{Labelled};
ghost use Rattle.need_labels.specs.Needs.{AreNeedsOf, NeedsShape};
ghost use Rattle.place_reasons.specs.Refuted.{IsCauseTrue};
ghost use Rattle.place_reasons.specs.declared.reason.PlaceReason.{PlaceReason};
ghost use Rattle.place_rules.specs.PlaceRules.{MayHoldField, MayHoldStatement, needed_statements, told_fields};
ghost use Rattle.place_texts.specs.Lines.{HasNoLine, line_at, parts_lines};
ghost use Rattle.place_texts.specs.Parts.{PartShape, fields_of, reason_of, statements_of};
ghost use Rattle.front_end.specs.PlacedSources.{labelled_source};
ghost use Rattle.front_end.specs.Sources.{HostsRead, Parsed, Resolved, Source, Sources};
ghost use Rattle.front_end.specs.Stages.{given};
ghost use Rattle.resolved_laws.specs.Written.{IsWrittenAs};
ghost use Rattle.jifexplain.specs.Claims.{RefutesPart};
ghost use Rattle.jifexplain.specs.Places.{held_line, lines_told};
ghost use Rattle.jifexplain.specs.Texts.{sheet_of};

use host_decl::host_file_laws;
use label_reasons::{reason_laws, refusal_laws};
use place_reasons::refuted_laws;
use place_texts::line_laws as place_line_laws;
use resolved_laws::resolved_program_laws;

/// Laws of the lines that are told of a program. The call does nothing.
pub fn line_laws()
    // What the line of a part and a host says is so, by itself: what it tells of labels fails, or who is to trust the
    // host does not. The source that it names has what it tells, and what that came through is there.
    ensures place_true { (p h : List ℕ) (source : Source) (host : Label) (part : PartShape) (reason : PlaceReason) →
        Sources p h (given source) →
        reason_of source.file.principals (labelled_source source) host part ≡ Some reason →
        RefutesPart source.file.principals (labelled_source source) host part reason
        × IsCauseTrue source.tree reason }

    // A host without a line for a field may hold it, and each that may not has one.
    ensures field_lines { (p h : List ℕ) (source : Source) (needs : NeedsShape) (host : HostShape)
        (list : List Token) (draft : DraftShape) → Sources p h (given source) →
        AreNeedsOf source.file.principals (labelled_source source) needs →
        AllZip (λ part one. HasNoLine (sheet_of list draft source.file source.tree) source.tree host part
        ↔ MayHoldField one host) (fields_of source.tree) (told_fields (labelled_source source) needs) }

    // So it is of heads and statements.
    ensures statement_lines { (p h : List ℕ) (source : Source) (needs : NeedsShape) (host : HostShape)
        (list : List Token) (draft : DraftShape) → Sources p h (given source) →
        AreNeedsOf source.file.principals (labelled_source source) needs →
        AllZip (λ part one. HasNoLine (sheet_of list draft source.file source.tree) source.tree host part
        ↔ MayHoldStatement one host) (statements_of source.tree) (needed_statements needs) }

    // That each host may hold what is asked about is told where there is no line for any part and host. Otherwise the
    // lines are told alone.
    ensures held_told { (sheet : SheetShape) (labelled : Labelled) (hosts : List HostShape) (asked : Option (List ℕ))
        (parts : List PartShape) → All (λ part. All (λ host. line_at sheet labelled part host ≡ []) hosts) parts →
        lines_told sheet labelled hosts asked parts ≡ held_line asked }
    ensures lines_kept { (sheet : SheetShape) (labelled : Labelled) (hosts : List HostShape) (asked : Option (List ℕ))
        (parts : List PartShape) → (¬ All (λ part. All (λ host. line_at sheet labelled part host ≡ []) hosts) parts) →
        lines_told sheet labelled hosts asked parts ≡ parts_lines sheet labelled hosts parts }

    // Where labels are refused, what is explained is the first obligation that fails, and some reasons are told. Each
    // is one: what it tells fails there, and what it names brings that in.
    ensures label_lines { (h : List ℕ) (file : HostsShape) (draft : DraftShape) (tree : ProgramTree)
        (failed : Obligation) → HostsRead h (given file) → Resolved file draft (given tree) →
        IsFirstFailure file.principals (obligations file.principals tree) failed →
        (ask : Ask) × (obligation_of ask ≡ failed)
        × (explained file.principals tree
        ≡ Some (ask.statement, ask.wanted, label_reasons file.principals ask))
        × (label_reasons file.principals ask ≢ [])
        × All (IsLabelReason file.principals ask) (label_reasons file.principals ask) }

    // The fields of a program are those of the draft by which they are named, in order.
    ensures fields_written { (h : List ℕ) (file : HostsShape) (draft : DraftShape) (tree : ProgramTree) →
        HostsRead h (given file) → Resolved file draft (given tree) →
        map (λ field. field.name) tree.fields ≡ map (λ field. field.name.text) draft.fields }

    // So are its methods, and their statements, on the lines of the tokens that the draft names.
    ensures statements_written { (h : List ℕ) (file : HostsShape) (list : List Token) (draft : DraftShape)
        (tree : ProgramTree) → HostsRead h (given file) → Parsed list (given draft) →
        Resolved file draft (given tree) → AllZip (IsWrittenAs list) draft.methods tree.methods }
{
    host_file_laws();
    reason_laws();
    refusal_laws();
    refuted_laws();
    place_line_laws();
    resolved_program_laws();
}
