//! The laws of what is due.

ghost use Rattle.std.specs.Prelude.{◌≡◌, ◌<◌, ◌+◌, ◌∷◌, [], ℕ, ℤ, List, Option, Some, None, Ok, codes, length, map};
ghost use Rattle.js_base.specs.Counts.{last_count};
ghost use Rattle.event_text.specs.declared.event.Event.{Event};
ghost use Rattle.event_text.specs.Script.{script_of};
ghost use Rattle.event_text.specs.ScriptText.{front_lines, on_lines, script_text};
ghost use Rattle.event_text.specs.Start.{program_form};
ghost use Rattle.front_end.specs.Loads.{FilesChange};
ghost use Rattle.front_end.specs.PlacedCode.{code_of};
ghost use Rattle.front_end.specs.PlacedSources.{PlacedSource, PlacedSources};
ghost use Rattle.front_end.specs.Stages.{given};
ghost use Rattle.front_end.specs.Starting.{StartingValues};
ghost use Rattle.front_end.specs.Verdicts.{VerdictShape, no_such_file};
ghost use Rattle.host_code.specs.Code.{CodeShape};
ghost use Rattle.host_code.specs.Sound.{IsSoundCode};
ghost use Rattle.host_decl.specs.Hosts.{HostShape};
ghost use Rattle.jif_tree.specs.declared.program.Program.{Program};
ghost use Rattle.jif_tree.specs.Trees.{program_tree};
ghost use Rattle.net_world.specs.World.{WorldShape, AreHostsOf, IsRun, world_at_start};
ghost use Rattle.record_merge.specs.Merging.{IsMerged};
ghost use Rattle.jifmerge.specs.Due.{Due, IsDue, usage};
ghost use Rattle.jifmerge.specs.Merged.{first_world};
ghost use Rattle.jifmerge.specs.Replays.{CanBeSaid};

use event_text::script_laws;
use front_end::source_laws;
use host_decl::host_file_laws;
use net_world::laws::fits_laws;
use record_merge::{merge_laws, single_laws};
use saved_code::saved_laws;

/// Laws of what is due, for who reasons about it. The call does nothing.
pub fn merged_laws()
    // For words and files that tell what they hold one verdict is due, after one number of loads.
    ensures one_verdict { (words : List (List ℕ)) (holds : List ℕ → Option (List ℕ))
        (number other : ℕ) (first second : VerdictShape) →
        Due words (Some holds) number first → Due words (Some holds) other second →
        (number ≡ other) × (first ≡ second) }

    // So it is too where a load may have failed, as long as the count of faults tells whether one did.
    ensures one_answer { (words : List (List ℕ)) (files : FilesChange)
        (holds : List ℕ → Option (List ℕ)) (first second : VerdictShape) →
        files.held ≡ Some holds → files.faults_before < last_count →
        IsDue words files first → IsDue words files second → first ≡ second }

    // A script that is due is read again, as `jifsplit replay` reads it: no host misbehaves, the fields start with
    // these values, and the events are these.
    ensures replays { (code : CodeShape) (rows : List HostShape) (values : List (List ℤ)) (journals : List (List ℕ))
        (events : List Event) →
        IsSoundCode code → AreHostsOf code rows → CanBeSaid code values →
        IsMerged code (world_at_start code rows 0 values) journals events →
        script_of code (script_text code 0 values events) ≡ Ok (record {
          bad = 0;
          start = values;
          events = on_lines (length (front_lines code 0 values) + 1) events;
        }) }

    // Every accepted program with its hosts and starting values meets what is asked there.
    ensures can_be_said { (program hosts name start : List ℕ) (placed : PlacedSource) (tree : Program)
        (values : List (List ℤ)) →
        PlacedSources program hosts (given placed) → program_tree tree ≡ placed.source.tree →
        StartingValues name start (map program_form tree.fields.items) (given values) →
        IsSoundCode (code_of placed) × AreHostsOf (code_of placed) placed.source.file.hosts
        × CanBeSaid (code_of placed) values }

    // So each script that is due is read again.
    ensures read_again { (program hosts name start : List ℕ) (placed : PlacedSource) (tree : Program)
        (values : List (List ℤ)) (journals : List (List ℕ)) (events : List Event) →
        PlacedSources program hosts (given placed) → program_tree tree ≡ placed.source.tree →
        StartingValues name start (map program_form tree.fields.items) (given values) →
        IsMerged (code_of placed) (first_world placed values) journals events →
        script_of (code_of placed) (script_text (code_of placed) 0 values events) ≡ Ok (record {
          bad = 0;
          start = values;
          events = on_lines (length (front_lines (code_of placed) 0 values) + 1) events;
        }) }

    // These events happen, so the replay refuses none of them.
    ensures happens { (code : CodeShape) (world : WorldShape) (journals : List (List ℕ)) (events : List Event) →
        IsMerged code world journals events → (last : WorldShape) × IsRun code world events last }

    // Worked: no words and three are due the usage line after no load, and where no file is held, four are due the line
    // that the program is absent, after one load.
    ensures worked_no_words { (held : Option (List ℕ → Option (List ℕ))) → Due [] held 0 usage }
    ensures worked_three_words { (held : Option (List ℕ → Option (List ℕ))) →
        Due (codes "P" ∷ codes "H" ∷ codes "S" ∷ []) held 0 usage }
    ensures worked_absent { Due (codes "P" ∷ codes "H" ∷ codes "S" ∷ codes "J" ∷ []) (Some (λ name. None)) 1
        (no_such_file (codes "P")) }
{
    host_file_laws();
    saved_laws();
    source_laws();
    script_laws();
    fits_laws();
    single_laws();
    merge_laws();
}
