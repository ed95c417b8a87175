//! The laws of what is due.

ghost use Rattle.std.specs.Prelude.{◌≡◌, ◌<◌, ◌≤◌, ◌+◌, ◌*◌, ◌↔◌, ℕ, ℤ, List, [], ◌∷◌, ◌++◌, Option, Some, None, codes};
ghost use Rattle.std.specs.Prelude.{Ok, length, map};
ghost use Rattle.js_base.specs.Counts.{last_count};
ghost use Rattle.js_base.specs.declared.limits.TheConstants.{SCRIPT_BYTES};
ghost use Rattle.js_base.specs.declared.status.Status.{Status};
ghost use Rattle.event_text.specs.declared.event.Event.{Event};
ghost use Rattle.event_text.specs.Start.{program_form, start_of};
ghost use Rattle.host_code.specs.Code.{CodeShape};
ghost use Rattle.net_world.specs.World.{WorldShape, IsRun};
ghost use Rattle.jif_lex.specs.declared.token.Token.{Token};
ghost use Rattle.jif_lex.specs.declared.token.Word.TheVariants as word;
ghost use Rattle.jif_lex.specs.Tokens.{ReadsAs, tokens};
ghost use Rattle.jif_tree.specs.declared.program.Program.{Program};
ghost use Rattle.jif_tree.specs.SourceRun.{HasLength};
ghost use Rattle.jif_tree.specs.Trees.{ProgramTree};
ghost use Rattle.simulation.specs.Driven.{IsDriven};
ghost use Rattle.simulation.specs.Ending.{EVENTS};
ghost use Rattle.source_law.specs.Unendorsed.{EndorsesNothing};
ghost use Rattle.made_laws.specs.MadePrograms.{made_head, made_hosts, made_program};
ghost use Rattle.source_words.specs.Words.{LacksWord};
ghost use Rattle.split_shades.specs.Sites.{ReleasesNothing};
ghost use Rattle.front_end.specs.PlacedSources.{PlacedSource, PlacedSources};
ghost use Rattle.front_end.specs.Stages.{given};
ghost use Rattle.front_end.specs.StepCounts.{IsStepCount};
ghost use Rattle.front_end.specs.Verdicts.{Print, VerdictShape, usage, no_such_file};
ghost use Rattle.front_end.specs.Loads.{FilesChange};
ghost use Rattle.split_words.specs.Commands.{Compare, Drive, IsMadeCount, Make, Replay, forms, words_of};
ghost use Rattle.split_cli.specs.Due.{Due, IsDue};
ghost use Rattle.split_cli.specs.Headline.{IsFaithful, IsFaithfulDrive, IsPlacedAs, IsPrivate};
ghost use Rattle.split_cli.specs.Headline.{OfFourFiles, OfThreeFiles};
ghost use Rattle.releasing_statements.specs.Releases.{program_releases};
ghost use Rattle.front_end.specs.Text.{lines_text};

use event_text::script_laws;
use front_end::source_laws;
use host_decl::host_file_laws;
use integrity::integrity_laws;
use jif_lex::{lex_laws, token_laws};
use jif_parse::{named_laws, number_laws};
use jif_resolve::{labelling_laws, limit_laws, program_laws, result_laws};
use made_laws::made_laws;
use need_labels::need_laws;
use net_world::laws::{fits_laws, secret_laws, step_laws};
use placement::placement_laws;
use simulation::{ending_laws, obeying_laws};
use source_law::steady_laws;
use source_run::run_laws;
use source_words::word_laws;
use split_rules::{asking_laws, split_laws};

/// Laws of what is due, for who reasons about answers. The call does nothing.
pub fn due_laws()
    // For words and files that tell what they hold one verdict is due, after one number of loads.
    ensures one_verdict { (words : List (List ℕ)) (holds : List ℕ → Option (List ℕ))
        (number other : ℕ) (first second : VerdictShape) →
        Due words (Some holds) number first → Due words (Some holds) other second →
        (number ≡ other) × (first ≡ second) }

    // So it is too where a load may have failed, as long as the count of faults tells whether one did.
    ensures one_answer { (words : List (List ℕ)) (files : FilesChange)
        (holds : List ℕ → Option (List ℕ)) (first second : VerdictShape) →
        files.held ≡ Some holds → files.faults_before < last_count →
        IsDue words files first → IsDue words files second → first ≡ second }

    // For all words something is due, whatever the files hold and whether they tell or not.
    ensures some_verdict { (words : List (List ℕ)) (held : Option (List ℕ → Option (List ℕ))) →
        (number : ℕ) × (verdict : VerdictShape) × Due words held number verdict }

    // Worked: no words are due the usage line after no load. Where no file is held, a check is due the line that its
    // program is absent, after one load.
    ensures worked_no_words { (held : Option (List ℕ → Option (List ℕ))) → Due [] held 0 (usage forms) }
    ensures worked_absent { Due (codes "check" ∷ codes "P" ∷ codes "H" ∷ []) (Some (λ name. None)) 1
        (no_such_file (codes "P")) }

    // Worked: the program of two statements.
    ensures worked_made { made_program 2
        ≡ lines_text (made_head ++ codes "a = a + 0;" ∷ codes "b = b + 1;" ∷ codes "}" ∷ []) }

    // The events of a drive are a run of the world.
    ensures driven_runs { (code : CodeShape) (world after : WorldShape) (events : List Event) →
        IsDriven code world events after → IsRun code world events after }

    // No statement of a program releases something exactly where the program releases nothing.
    ensures silent { (program : ProgramTree) → (program_releases program ≡ []) ↔ ReleasesNothing program }
{
    source_laws();
    token_laws();
    named_laws();
    host_file_laws();
    program_laws();
    limit_laws();
    placement_laws();
    run_laws();
    split_laws();
    script_laws();
    fits_laws();
    secret_laws();
    step_laws();
}

/// The headline, for each report that is due: whoever misbehaves and whatever they send, the hosts and one run of the
/// program go on together. The call does nothing.
pub fn headline_laws()
    // A replay has no report but one that is faithful, and it ends well.
    ensures replayed { (program hosts events : List ℕ) (held : Option (List ℕ → Option (List ℕ))) (number : ℕ)
        (status : Status) (text : List ℕ) →
        Due (words_of (Replay program hosts events)) held number (Print status text) →
        (status ≡ Status.Done) × OfThreeFiles IsFaithful program hosts events held text }
    // So it is of a drive.
    ensures driven { (program hosts start : List ℕ) (events : ℕ) (held : Option (List ℕ → Option (List ℕ)))
        (number : ℕ) (status : Status) (text : List ℕ) → IsStepCount events →
        Due (words_of (Drive program hosts start events)) held number (Print status text) →
        OfThreeFiles (λ p h s. IsFaithfulDrive p h s events status) program hosts start held text }
    // So it is of each script of two that are compared, and what they tell is no secret.
    ensures compared { (program hosts one other : List ℕ) (held : Option (List ℕ → Option (List ℕ))) (number : ℕ)
        (status : Status) (text : List ℕ) →
        Due (words_of (Compare program hosts one other)) held number (Print status text) →
        OfFourFiles (λ p h s t. IsPrivate p h s t status) program hosts one other held text }
    // Where the program releases nothing, no comparison has a report that says that the runs differ.
    ensures never_differs { (program hosts one other p h : List ℕ) (holds : List ℕ → Option (List ℕ)) (number : ℕ)
        (text : List ℕ) (placed : PlacedSource) → holds program ≡ Some p → holds hosts ≡ Some h →
        PlacedSources p h (given placed) → ReleasesNothing placed.source.tree →
        ¬ Due (words_of (Compare program hosts one other)) (Some holds) number (Print Status.Differ text) }
    // So it is where the program's text lacks the word `declassify`.
    ensures never_differs_by_text { (program hosts one other p : List ℕ) (list : List Token)
        (holds : List ℕ → Option (List ℕ)) (number : ℕ) (text : List ℕ) → holds program ≡ Some p →
        ReadsAs p (tokens list) → LacksWord word.Declassify list →
        ¬ Due (words_of (Compare program hosts one other)) (Some holds) number (Print Status.Differ text) }
    // Where the plain run ends after so many steps, a drive of 4096 events for each of them, and for one more, has the
    // report of hosts that came to rest.
    ensures comes_to_rest { (program hosts start p h s : List ℕ) (events steps : ℕ)
        (holds : List ℕ → Option (List ℕ)) (placed : PlacedSource) (tree : Program) (values : List (List ℤ)) →
        IsStepCount events → holds program ≡ Some p → holds hosts ≡ Some h → holds start ≡ Some s →
        IsPlacedAs p h placed tree → length s ≤ SCRIPT_BYTES →
        start_of (map program_form tree.fields.items) s ≡ Ok values → HasLength tree values steps →
        EVENTS * (steps + 1) ≤ events →
        (text : List ℕ) × Due (words_of (Drive program hosts start events)) (Some holds) 3 (Print Status.Done text) }
    // The program that is made is accepted with its hosts and has places there, so no stage refuses it.
    ensures made_placed { (statements : ℕ) → IsMadeCount statements →
        (placed : PlacedSource) × PlacedSources (made_program statements) made_hosts (given placed) }
    // What is due for it, whatever the files hold, is the report of hosts that came to rest.
    ensures made_done { (statements : ℕ) (held : Option (List ℕ → Option (List ℕ))) → IsMadeCount statements →
        (text : List ℕ) × Due (words_of (Make statements)) held 0 (Print Status.Done text) }
{
    made_laws();
    host_file_laws();
    token_laws();
    named_laws();
    number_laws();
    limit_laws();
    program_laws();
    labelling_laws();
    result_laws();
    source_laws();
    need_laws();
    placement_laws();
    split_laws();
    asking_laws();
    script_laws();
    fits_laws();
    step_laws();
    agreement::run_laws();
    obeying_laws();
    ending_laws();
    steady_laws();
    integrity_laws();
    lex_laws();
    word_laws();
}

/// What the words of a program's text say of an accepted program. The call does nothing.
pub fn text_laws()
    // Where the text lacks the word `declassify`, the program releases nothing.
    ensures releases { (program hosts : List ℕ) (list : List Token) (placed : PlacedSource) →
        PlacedSources program hosts (given placed) → ReadsAs program (tokens list) →
        LacksWord word.Declassify list → ReleasesNothing placed.source.tree }
    // Where it lacks the word `endorse`, the program endorses nothing.
    ensures endorses { (program hosts : List ℕ) (list : List Token) (placed : PlacedSource) →
        PlacedSources program hosts (given placed) → ReadsAs program (tokens list) → LacksWord word.Endorse list →
        EndorsesNothing placed.source.tree }
{
    lex_laws();
    word_laws();
}
