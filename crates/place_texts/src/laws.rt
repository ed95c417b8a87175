//! Laws of the parts of a program, and worked lines. The calls do nothing: their contracts are the laws.

ghost use Rattle.std.specs.Prelude.{◌≡◌, ◌<◌, ◌++◌, ◌↔◌, ℕ, [], All, List, Some, codes, map, slice_get};
ghost use Rattle.std.specs.List.{AllZip};
ghost use Rattle.principals.specs.ActsFor.{Declared};
ghost use Rattle.label_lattice.specs.declared.label.Label.{Label};
ghost use Rattle.jif_tree.specs.Trees.{ProgramTree};
ghost use Rattle.host_decl.specs.Hosts.{HostShape};
ghost use Rattle.label_check.specs.Checking.{AreAuthorities};
ghost use Rattle.label_reasons.specs.Programs.{IsProgramOver};
ghost use Rattle.need_labels.specs.Labelled.{Labelled};
ghost use Rattle.need_labels.specs.Needs.{AreNeedsOf, NeedsShape};
ghost use Rattle.explain_texts.specs.Sheets.{SheetShape};
ghost use Rattle.place_reasons.specs.ProgramReasons.{field_reasons, statement_reasons};
ghost use Rattle.place_reasons.specs.Programs.{labelled_by};
ghost use Rattle.place_rules.specs.PlaceRules.{MayHoldField, MayHoldStatement, needed_statements, told_fields};
ghost use Rattle.place_rules.specs.declared.place_error.PlaceError.{PlaceError};
ghost use Rattle.place_texts.specs.Holding.{ArePartsOf};
ghost use Rattle.place_texts.specs.Meant.{meant, unheld_parts};
ghost use Rattle.place_texts.specs.Parts.{PartShape, fields_of, parts_of, reason_of, statements_of};
ghost use Rattle.place_reasons.specs.declared.reason.Needed.TheVariants as needed;
ghost use Rattle.place_reasons.specs.declared.reason.PlaceReason.TheVariants.{Begins, Needs, Own, Releases, Untrusted};
ghost use Rattle.place_reasons.specs.PlaceExamples.{alice, first, from_bob, from_outsiders, guarded_read, q, statement};
ghost use Rattle.place_texts.specs.Lines.{HasNoLine, line_at, parts_lines, place_line};
ghost use Rattle.place_texts.specs.LineExamples.{sheet, main_head, of_field, of_statement};

use place_reasons::program_place_laws;

/// Laws of the parts of a program.
pub fn part_laws()
    // Their reasons are those of the fields and the statements of the program, by their numbers.
    ensures fields { (principals : Declared) (labelled : Labelled) (host : Label) →
        map (reason_of principals labelled host) (fields_of labelled.program)
        ≡ field_reasons principals labelled host }
    ensures statements { (principals : Declared) (labelled : Labelled) (host : Label) →
        map (reason_of principals labelled host) (statements_of labelled.program)
        ≡ statement_reasons principals labelled host }
    // All parts are parts of the program, and so are those that a word means, and the one that no host may hold.
    ensures all { (principals : Declared) (tree : ProgramTree) → AreAuthorities principals tree →
        ArePartsOf principals tree (parts_of tree) }
    ensures meant { (principals : Declared) (tree : ProgramTree) (word : List ℕ) → AreAuthorities principals tree →
        ArePartsOf principals tree (meant tree word) }
    ensures unheld { (principals : Declared) (tree : ProgramTree) (why : PlaceError) → AreAuthorities principals tree →
        ArePartsOf principals tree (unheld_parts tree why) }
{}

/// Laws of lines, by the labels that the label check finds.
pub fn line_laws()
    // A field has no line for a host exactly where the host may hold it.
    ensures fields { (sheet : SheetShape) (program : ProgramTree) (needs : NeedsShape) (host : HostShape) →
        IsProgramOver sheet.principals program →
        AreNeedsOf sheet.principals (labelled_by sheet.principals program) needs →
        AllZip (λ part one. HasNoLine sheet program host part ↔ MayHoldField one host) (fields_of program)
        (told_fields (labelled_by sheet.principals program) needs) }
    // So it is of heads and statements.
    ensures statements { (sheet : SheetShape) (program : ProgramTree) (needs : NeedsShape) (host : HostShape) →
        IsProgramOver sheet.principals program →
        AreNeedsOf sheet.principals (labelled_by sheet.principals program) needs →
        AllZip (λ part one. HasNoLine sheet program host part ↔ MayHoldStatement one host) (statements_of program)
        (needed_statements needs) }
    // The lines of some parts are none exactly where no part has one for any host.
    ensures no_lines { (sheet : SheetShape) (labelled : Labelled) (hosts : List HostShape) (parts : List PartShape) →
        (parts_lines sheet labelled hosts parts ≡ [])
        ↔ All (λ part. All (λ host. line_at sheet labelled part host ≡ []) hosts) parts }
{
    program_place_laws();
}

/// Lines of a small program.
pub fn line_examples()
    // Alice keeps a field from outsiders alone.
    ensures outsiders { place_line sheet (of_field first) (codes "P") (Own from_outsiders)
        ≡ codes "field a not at P: Alice keeps it from outsiders, and the label of P does not\n" }
    ensures untrusted { place_line sheet (of_field q) (codes "A") (Untrusted 1)
        ≡ codes "field q not at A: Bob trusts it, and does not trust A\n" }
    ensures begins { place_line sheet main_head (codes "B") (Begins from_bob)
        ≡ codes "statement 0 (line 1) not at B: Alice keeps from Bob that main begins, and the label of B does not\n" }
    ensures head { place_line sheet main_head (codes "A") (Needs 1 needed.Head (statement 0))
        ≡ codes "statement 0 (line 1) not at A: Bob trusts how main begins, and does not trust A\n" }
    // A statement that stands in another is told by its line.
    ensures sets { place_line sheet (of_statement guarded_read) (codes "S") (Needs 0 (needed.Field q) (statement 1))
        ≡ codes "statement 1 (line 1) not at S: Alice trusts q, which it sets, and does not trust S\n" }
    ensures inside { place_line sheet (of_statement guarded_read) (codes "S") (Needs 0 (needed.Field q) (statement 2))
        ≡ codes "statement 1 (line 1) not at S: Alice trusts q, which line 7 in it sets, and does not trust S\n" }
    ensures releases { place_line sheet (of_statement guarded_read) (codes "S") (Releases alice 1 (statement 1))
        ≡ codes "statement 1 (line 1) not at S: it releases a value by the authority of Alice, "
        ++ codes "and Bob does not trust S\n" }
{}
