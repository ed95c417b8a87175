//! The laws of the picture of a program, and of what is due.

ghost use Rattle.std.specs.Prelude.{◌≡◌, ◌≢◌, ◌<◌, ◌↔◌, ◌∷◌, [], ℕ, List, Option, Some, None, All, Bool, true, codes};
ghost use Rattle.std.specs.Prelude.{filter, length, map, slice_get, slice_index};
ghost use Rattle.std.specs.List.{Contains, filter_map, flat_map, range_with_len};
ghost use Rattle.std.specs.Str.{chars};
ghost use Rattle.js_base.specs.Counts.{last_count};
ghost use Rattle.label_lattice.specs.Printed.{printed_label};
ghost use Rattle.host_decl.specs.Hosts.{HostShape};
ghost use Rattle.jif_tree.specs.Numbering.{statement_lines, statement_numbers};
ghost use Rattle.jif_tree.specs.Trees.{FieldTree};
ghost use Rattle.host_code.specs.Code.{CodeFieldShape, field_at};
ghost use Rattle.front_end.specs.Loads.{FilesChange};
ghost use Rattle.front_end.specs.PlacedCode.{code_of};
ghost use Rattle.front_end.specs.PlacedSources.{PlacedSource, PlacedSources};
ghost use Rattle.front_end.specs.Stages.{given};
ghost use Rattle.front_end.specs.Verdicts.{VerdictShape, no_such_file};
ghost use Rattle.releasing_statements.specs.Releases.{program_releases};
ghost use Rattle.statement_texts.specs.Statements.{program_texts};
ghost use Rattle.statement_texts.specs.Texts.{StatementTextShape};
ghost use Rattle.plan_ways.specs.Asks.{apart, code_requests, is_asked, request_of};
ghost use Rattle.plan_ways.specs.declared.ends.Way.{Way};
ghost use Rattle.plan_picture.specs.Boxes.{head_of, head_text, place_of, statement_of, statement_text};
ghost use Rattle.plan_picture.specs.Columns.{has_part};
ghost use Rattle.plan_picture.specs.Paths.{Grid};
ghost use Rattle.plan_picture.specs.Rows.{field_row, rows_of};
ghost use Rattle.plan_picture.specs.Sheets.{SheetShape};
ghost use Rattle.plan_picture.specs.Texts.{field_label};
ghost use Rattle.plan_picture.specs.declared.boxes.Place.{Place};
ghost use Rattle.plan_picture.specs.declared.rows.Row.{Row};
ghost use Rattle.jifpicture.specs.Due.{Due, IsDue, usage};
ghost use Rattle.jifpicture.specs.Picture.{sheet_of};
ghost use Rattle.jifpicture.specs.Standing.{IsDeclaredAs, field_in, statement_in};
ghost use Rattle.jifpicture.specs.Staying.{may_stay};

use front_end::source_laws;
use host_decl::host_file_laws;
use jif_parse::named_laws;
use jif_resolve::program_laws;
use plan_picture::plan_laws;
use plan_ways::way_laws;
use releasing_statements::release_laws;
use run_picture::run_picture_laws;
use statement_texts::text_laws;

/// Laws of the picture of a program and of what is due, for who reads the one or reasons about the other. The call does
/// nothing.
pub fn picture_laws()
    // Each host has a head, with its name and its label, in its own column and in the first row.
    ensures hosts { (placed : PlacedSource) (grid : Grid) (rows : List Row) (number : ℕ) (host : HostShape) →
        slice_get placed.source.file.hosts number ≡ Some host →
        head_of (sheet_of placed) grid rows number
        ≡ head_text (chars host.name) (chars (printed_label placed.source.file.principals host.label))
        (has_part (record { 0 = number }) rows) (place_of grid (record { 0 = number }) 0 44) }
    ensures as_many_hosts { (placed : PlacedSource) →
        length (sheet_of placed).code.hosts ≡ length placed.source.file.hosts }

    // Each field has a row, in the column of its host, and its box says how it is declared, with its label.
    ensures fields { (placed : PlacedSource) (number : ℕ) (field : FieldTree) →
        slice_get placed.source.tree.fields number ≡ Some field →
        (slice_get (rows_of (sheet_of placed)) number ≡ Some (field_row (sheet_of placed) number))
        × ((shown : CodeFieldShape) × (field_at (sheet_of placed).code (record { 0 = number }) ≡ Some shown)
        × IsDeclaredAs field shown)
        × (field_label (sheet_of placed) (record { 0 = number })
        ≡ chars (printed_label placed.source.file.principals field.label)) }
    ensures as_many_fields { (placed : PlacedSource) →
        length (sheet_of placed).code.fields ≡ length placed.source.tree.fields }

    // Each statement has a row, by `statements` of `plan_laws`, and its box shows its text by the tree.
    ensures texts { (program hosts : List ℕ) (placed : PlacedSource) → PlacedSources program hosts (given placed) →
        (sheet_of placed).texts ≡ program_texts placed.source.file.principals placed.source.tree }
    ensures as_many_statements { (program hosts : List ℕ) (placed : PlacedSource) →
        PlacedSources program hosts (given placed) →
        length (sheet_of placed).texts ≡ length (statement_numbers placed.source.tree) }

    // Each of them has one row, in the order of the numbers.
    ensures each_field { (sheet : SheetShape) →
        filter_map field_in (rows_of sheet) ≡ range_with_len 0 (length sheet.code.fields) }
    ensures each_statement { (sheet : SheetShape) →
        filter_map statement_in (rows_of sheet) ≡ range_with_len 0 (length sheet.texts) }

    // The box of a statement has a mark exactly where one of its own expressions releases a value.
    ensures released { (program hosts : List ℕ) (placed : PlacedSource) (number : ℕ) (text : StatementTextShape)
        (room : ℕ) (place : Place) → PlacedSources program hosts (given placed) →
        slice_get (sheet_of placed).texts number ≡ Some text →
        (mark : Bool) × ((mark ≡ true) ↔ Contains (program_releases placed.source.tree) number)
        × (statement_of (sheet_of placed) (record { 0 = number }) room place
        ≡ statement_text text number (slice_index (statement_lines placed.source.tree) number) mark room place) }

    // The ways are what the instructions of the code ask for, one for each, from and to their hosts, beside results
    // and tokens that are given back, and but for those that would begin and end in one row.
    ensures asks { (placed : PlacedSource) → (asked : List Way)
        × (map request_of asked ≡ code_requests (code_of placed) placed.plan)
        × (filter is_asked (sheet_of placed).ways ≡ flat_map apart asked) }
    // A way leads from a host to another, but for calls and what comes back from them.
    ensures between { (placed : PlacedSource) →
        All (λ way. way.from.0 ≡ way.to.0 → may_stay way ≡ true) (sheet_of placed).ways }

    // For words and files that tell what they hold one verdict is due, after one number of loads.
    ensures one_verdict { (words : List (List ℕ)) (holds : List ℕ → Option (List ℕ))
        (number other : ℕ) (first second : VerdictShape) →
        Due words (Some holds) number first → Due words (Some holds) other second →
        (number ≡ other) × (first ≡ second) }

    // So it is too where a load may have failed, as long as the count of faults tells whether one did.
    ensures one_answer { (words : List (List ℕ)) (files : FilesChange)
        (holds : List ℕ → Option (List ℕ)) (first second : VerdictShape) →
        files.held ≡ Some holds → files.faults_before < last_count →
        IsDue words files first → IsDue words files second → first ≡ second }

    // For all words something is due, whatever the files hold and whether they tell or not.
    ensures some_verdict { (words : List (List ℕ)) (held : Option (List ℕ → Option (List ℕ))) →
        (number : ℕ) × (verdict : VerdictShape) × Due words held number verdict }

    // Worked: no words, and four, are due the usage line after no load. Where no file is held, two words are due the
    // line that the program is absent, after one load. Where the program is held and the host file is absent, three are
    // due the line that says so, after two loads.
    ensures worked_no_words { (held : Option (List ℕ → Option (List ℕ))) → Due [] held 0 usage }
    ensures worked_four_words { (held : Option (List ℕ → Option (List ℕ))) →
        Due (codes "P" ∷ codes "H" ∷ codes "E" ∷ codes "F" ∷ []) held 0 usage }
    ensures worked_absent { Due (codes "P" ∷ codes "H" ∷ []) (Some (λ name. None)) 1 (no_such_file (codes "P")) }
    ensures worked_no_hosts { (holds : List ℕ → Option (List ℕ)) (program : List ℕ) →
        holds (codes "P") ≡ Some program → holds (codes "H") ≡ None →
        Due (codes "P" ∷ codes "H" ∷ codes "E" ∷ []) (Some holds) 2 (no_such_file (codes "H")) }
{
    source_laws();
    host_file_laws();
    named_laws();
    program_laws();
    plan_laws();
    way_laws();
    release_laws();
    text_laws();
    run_picture_laws();
}
