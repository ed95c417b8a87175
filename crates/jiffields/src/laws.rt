//! The laws of what is due.

ghost use Rattle.std.specs.Prelude.{◌≡◌, ◌≢◌, ◌<◌, ◌∷◌, ◌++◌, [], ℕ, ℤ, List, Option, Some, None, All, codes, pos};
ghost use Rattle.std.specs.Fmt.{decimal};
ghost use Rattle.js_base.specs.Counts.{last_count};
ghost use Rattle.js_base.specs.declared.ids.HostId.{HostId};
ghost use Rattle.js_base.specs.declared.status.Status.{Status};
ghost use Rattle.js_base.specs.declared.status.Status.TheVariants.{Done};
ghost use Rattle.host_code.specs.Code.{CodeShape};
ghost use Rattle.host_core.specs.Host.{HostState};
ghost use Rattle.host_core.specs.Start.{host_at_start};
ghost use Rattle.journal_laws.specs.Plays.{IsJournalOf};
ghost use Rattle.journal_laws.specs.Steps.{Step};
ghost use Rattle.record_merge.specs.Journals.{journal_lines};
ghost use Rattle.node_starts.specs.NodeSources.{NodeStart};
ghost use Rattle.front_end.specs.Loads.{FilesChange};
ghost use Rattle.front_end.specs.Stages.{given};
ghost use Rattle.front_end.specs.Verdicts.{Print, VerdictShape, no_such_file};
ghost use Rattle.jiffields.specs.Due.{Due, DueForBytes, FieldsHostFound, IsDue, usage};
ghost use Rattle.jiffields.specs.Fields.{fields_text, row_line};
ghost use Rattle.jiffields.specs.Runs.{words_in};
ghost use Rattle.jiffields.specs.Words.{FieldsAsked};

use front_end::source_laws;
use journal_laws::field_laws;
use part_verify::verify_laws;

/// Laws of what is due, for who reads fields or reasons about them. The call does nothing.
pub fn field_report_laws()
    // For words and files that tell what they hold one verdict is due, after one number of loads.
    ensures one_verdict { (words : List (List ℕ)) (holds : List ℕ → Option (List ℕ))
        (number other : ℕ) (first second : VerdictShape) →
        Due words (Some holds) number first → Due words (Some holds) other second →
        (number ≡ other) × (first ≡ second) }

    // So it is too where a load may have failed, as long as the count of faults tells whether one did.
    ensures one_answer { (words : List (List ℕ)) (files : FilesChange)
        (holds : List ℕ → Option (List ℕ)) (first second : VerdictShape) →
        files.held ≡ Some holds → files.faults_before < last_count →
        IsDue words files first → IsDue words files second → first ≡ second }

    // Where fields are due, they are those of each run of the host that has this journal, whatever its key is and
    // whatever tags its tokens have.
    ensures fields { (asked : FieldsAsked) (source hosts start journal : List ℕ) (node : NodeStart) (status : Status)
        (text key : List ℕ) (steps : List Step) (last : HostState) →
        FieldsHostFound asked source hosts start (given node) →
        DueForBytes asked source hosts start journal (Print status text) →
        IsJournalOf node.source.code (host_at_start node.source.code node.source.values key node.me)
        (words_in (journal_lines journal)) steps last →
        (status ≡ Done) × (text ≡ fields_text node.source.code node.me last.rows) }

    // A host on which no field is has none to show.
    ensures no_fields { (code : CodeShape) (me : HostId) (rows : List (List ℤ)) →
        All (λ field. field.host.0 ≢ me.0) code.fields → fields_text code me rows ≡ [] }

    // Worked: the line of an array of two elements.
    ensures worked_line { row_line (codes "a") (pos 1 ∷ pos 20 ∷ [])
        ≡ codes "field a = " ++ (decimal 1 ++ (codes " " ++ decimal 20)) }

    // Worked: no words are due the usage line after no load, and where no file is held, five are due the line that the
    // split file is absent, after one load.
    ensures worked_no_words { (held : Option (List ℕ → Option (List ℕ))) → Due [] held 0 usage }
    ensures worked_absent { Due (codes "C" ∷ codes "H" ∷ codes "A" ∷ codes "S" ∷ codes "J" ∷ []) (Some (λ name. None)) 1
        (no_such_file (codes "C")) }
{
    source_laws();
    verify_laws();
    field_laws();
}
