//! The laws of explanations, and of what is due.

ghost use Rattle.std.specs.Prelude.{◌≡◌, ◌≢◌, ◌<◌, ◌⊎◌, ℕ, List, [], ◌∷◌, Option, Some, None, codes};
ghost use Rattle.js_base.specs.Counts.{last_count};
ghost use Rattle.host_decl.specs.Refusal.{not_toml};
ghost use Rattle.front_end.specs.Loads.{FilesChange};
ghost use Rattle.front_end.specs.PlacedSources.{PlacedSource, PlacedSources};
ghost use Rattle.front_end.specs.Stages.{StageEnd, given, stopped};
ghost use Rattle.front_end.specs.Verdicts.{VerdictShape, hosts_refused, no_such_file};
ghost use Rattle.jifexplain.specs.Due.{DueForBytes, Due, IsDue, usage};
ghost use Rattle.jifexplain.specs.Explained.{ExplainsVerdict};
ghost use Rattle.jifexplain.specs.Places.{PlacesTold, no_part};
ghost use Rattle.jifexplain.specs.Statuses.{HoldsToml, checked_status, verdict_status};

use front_end::source_laws;
use host_decl::host_file_laws;
use host_reasons::host_told_laws;

/// Laws of explanations and of what is due, for who reads the one or reasons about the other. The call does nothing.
pub fn explanation_laws()
    // A refusal has one explanation. Of a host file that is no TOML the place is that of the reader of TOML, of which
    // no more is known than that it lies in the file.
    ensures one_explanation { (program hosts p h : List ℕ) (asked : Option (List ℕ))
        (refused first second : VerdictShape) → PlacedSources p h (stopped refused) →
        refused ≢ hosts_refused not_toml → ExplainsVerdict program hosts p h asked refused first →
        ExplainsVerdict program hosts p h asked refused second → first ≡ second }

    // And it has some.
    ensures some_explanation { (program hosts p h : List ℕ) (asked : Option (List ℕ)) (refused : VerdictShape) →
        PlacedSources p h (stopped refused) →
        (verdict : VerdictShape) × ExplainsVerdict program hosts p h asked refused verdict }

    // So it is with what is told of the places of an accepted program.
    ensures one_telling { (program p h : List ℕ) (asked : Option (List ℕ)) (placed : PlacedSource)
        (first second : VerdictShape) → PlacedSources p h (given placed) → PlacesTold program p h asked None first →
        PlacesTold program p h asked None second → first ≡ second }

    // For a program and a host file alone the status is that of `jifsplit check`.
    ensures same_status { (program hosts p h : List ℕ) (end : StageEnd PlacedSource) (verdict : VerdictShape) →
        PlacedSources p h end → DueForBytes program hosts None p h verdict →
        verdict_status verdict ≡ checked_status end }

    // So it is where a word asks about some parts, but for a word that means none.
    ensures word_status { (program hosts word p h : List ℕ) (end : StageEnd PlacedSource) (verdict : VerdictShape) →
        PlacedSources p h end → DueForBytes program hosts (Some word) p h verdict →
        (verdict_status verdict ≡ checked_status end) ⊎ (verdict ≡ no_part program word) }

    // For words and files that tell what they hold, the host file TOML, one verdict is due, after one number of loads.
    ensures one_verdict { (words : List (List ℕ)) (holds : List ℕ → Option (List ℕ))
        (number other : ℕ) (first second : VerdictShape) → HoldsToml words holds →
        Due words (Some holds) number first → Due words (Some holds) other second →
        (number ≡ other) × (first ≡ second) }

    // So it is too where a load may have failed, as long as the count of faults tells whether one did.
    ensures one_answer { (words : List (List ℕ)) (files : FilesChange)
        (holds : List ℕ → Option (List ℕ)) (first second : VerdictShape) → HoldsToml words holds →
        files.held ≡ Some holds → files.faults_before < last_count →
        IsDue words files first → IsDue words files second → first ≡ second }

    // For all words something is due, whatever the files hold and whether they tell or not.
    ensures some_verdict { (words : List (List ℕ)) (held : Option (List ℕ → Option (List ℕ))) →
        (number : ℕ) × (verdict : VerdictShape) × Due words held number verdict }

    // Worked: no words are due the usage line after no load, and where no file is held, two are due the line that the
    // program is absent, after one load.
    ensures worked_no_words { (held : Option (List ℕ → Option (List ℕ))) → Due [] held 0 usage }
    ensures worked_absent { Due (codes "P" ∷ codes "H" ∷ []) (Some (λ name. None)) 1 (no_such_file (codes "P")) }
{
    source_laws();
    host_file_laws();
    host_told_laws();
}
