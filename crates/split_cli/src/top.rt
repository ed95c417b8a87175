//! The top call, from words and files to a status and what is put out.

ghost use Rattle.std.specs.Prelude.{◌≡◌, ◌≢◌, ◌≤◌, ◌+◌, ◌*◌, ◌⊎◌, ℕ, ℤ, List, length, map, string_bytes, IfOk};
ghost use Rattle.std.specs.Prelude.{Ok, Option, Some};
ghost use Rattle.js_base.specs.Counts.{Rose};
ghost use Rattle.js_base.specs.declared.limits.TheConstants.{SCRIPT_BYTES};
ghost use Rattle.js_base.specs.declared.status.Status.{Status};
ghost use Rattle.jif_lex.specs.declared.token.Token.{Token};
ghost use Rattle.jif_lex.specs.declared.token.Word.TheVariants as word;
ghost use Rattle.jif_lex.specs.Tokens.{ReadsAs, tokens};
ghost use Rattle.jif_tree.specs.declared.program.Program.{Program};
ghost use Rattle.jif_tree.specs.SourceRun.{HasLength};
ghost use Rattle.event_text.specs.Start.{program_form, start_of};
ghost use Rattle.simulation.specs.Ending.{EVENTS};
ghost use Rattle.source_words.specs.Words.{LacksWord};
ghost use Rattle.split_shades.specs.Sites.{ReleasesNothing};
ghost use Rattle.front_end.specs.PlacedSources.{PlacedSource, PlacedSources};
ghost use Rattle.front_end.specs.Stages.{given};
ghost use Rattle.split_cli.specs.Answers.{AnswersReport, AnswersTo};
ghost use Rattle.split_words.specs.Commands as command;
ghost use Rattle.split_words.specs.Asked.{command_shape};
ghost use Rattle.split_cli.specs.Due.{Due, IsDue, IsDueForCommand, MaySave, OfCommand};
ghost use Rattle.split_cli.specs.Headline.{IsFaithful, IsFaithfulDrive, IsPlacedAs, IsPrivate};
ghost use Rattle.split_cli.specs.Headline.{OfFourFiles, OfThreeFiles, Puts};
ghost use Rattle.front_end.specs.Answers.{sink_change};
ghost use Rattle.front_end.specs.Loading.{EndsIn};
ghost use Rattle.front_end.specs.Loads.{files_change};
ghost use Rattle.front_end.specs.StepCounts.{IsStepCount};
ghost use Rattle.front_end.specs.Verdicts.{Print, verdict_shape};

use crate::commands::check::verdict_for_check;
use crate::commands::compare::verdict_for_compare;
use crate::commands::drive::verdict_for_drive;
use crate::commands::make::verdict_for_make;
use crate::commands::replay::verdict_for_replay;
use crate::commands::run::verdict_for_run;
use crate::commands::split::verdict_for_split;
use crate::laws::{due_laws, headline_laws};
use front_end::{Stop, Verdict, answer};
use js_base::{Files, OutOfMemory, Sink, Status};
use split_words::{Command, command_of};
use std::alloc::Global;

/// The program's name, which stands in front of its lines on the error output.
const PROGRAM: &str = "jifsplit";

/// The line that says that memory ran out.
const NO_MEMORY: &str = "jifsplit: no memory\n";

/// All forms of the words.
const FORMS: &str =
    "check P H / split P H OUT / run P H START N / replay P H EVENTS / drive P H START N / \
    compare P H EVENTS1 EVENTS2 / make N";

/// Runs `jifsplit` on the words after its name.
///
/// It answers `Done` where the report of the command was put on `out`, `Spent` where it was put for a run that its
/// steps did not end, or for hosts that its events did not bring to their rest, and `Differ` where it says that
/// misbehaving hosts were sent other messages in one run than in the other. Any other answer is a refusal or a fault:
/// - `Usage`: the words ask for no command.
/// - `SourceRefused`: the program is refused for its text, its names or its labels; or no host may hold some part of
///   it.
/// - `InputRefused`: a file is absent, the host file is refused, or the file of starting values or of events is too
///   long, or a line of it has no form or asks for what cannot happen; or two runs cannot be compared.
/// - `FileFault`: a file could not be read.
/// - `OutFault`: what was due could not all be put out.
/// - `NoMemory`: memory ran out.
///
/// Files are loaded in the order of the words, and after the first that is absent or could not be read none is loaded.
/// `Usage`, `SourceRefused`, `InputRefused` and `FileFault` put a line on `err` that says why. Where memory runs out, a
/// front of what was due may have been put, and the line `jifsplit: no memory` follows on `err` where it can.
pub fn jifsplit<F: Files, S: Sink, E: Sink>(
    alloc: Global,
    words: &[String],
    files: &mut F,
    out: &mut S,
    err: &mut E,
) -> Status
    // What is answered and put out is what is due.
    ensures answer { AnswersTo (map string_bytes words.now)
        (files_change F.Files files.old files.new)
        result
        (sink_change S.Sink out.old out.new)
        (sink_change E.Sink err.old err.new) }
    // Whoever misbehaves and whatever they send: every field they may not affect, on every obeying host, at every
    // moment, has a value of one run of the program in which only what they may affect was changed or left out. So a
    // replay that went well has put the report of such hosts.
    ensures headline { (program hosts events : List ℕ) →
        map string_bytes words.now ≡ command.words_of (command.Replay program hosts events) → result ≡ Status.Done →
        Puts (OfThreeFiles IsFaithful program hosts events (F.held files.old)) (S.taken out.old) (S.taken out.new) }
    // Where nobody misbehaves that run is the plain one, in a drive to the hosts' rest or by all its events. At rest
    // the program has halted, and 4096 events for each step of the plain run, and for one more, are enough to come to
    // rest.
    ensures driven { (program hosts start : List ℕ) (events : ℕ) → IsStepCount events →
        map string_bytes words.now ≡ command.words_of (command.Drive program hosts start events) →
        (result ≡ Status.Done) ⊎ (result ≡ Status.Spent) →
        Puts (OfThreeFiles (λ p h s. IsFaithfulDrive p h s events result) program hosts start (F.held files.old))
        (S.taken out.old) (S.taken out.new) }
    // Where two scripts were compared, each was played so, and what was put tells whether misbehaving hosts were sent
    // the same in both runs. Without `declassify` they were, as far as both runs go, and it never says they differ.
    ensures compared { (program hosts one other : List ℕ) →
        map string_bytes words.now ≡ command.words_of (command.Compare program hosts one other) →
        (result ≡ Status.Done) ⊎ (result ≡ Status.Differ) →
        Puts (OfFourFiles (λ p h s t. IsPrivate p h s t result) program hosts one other (F.held files.old))
        (S.taken out.old) (S.taken out.new) }
    // So `Differ` is never answered for a program that releases nothing.
    ensures never_differs { (program hosts one other p h : List ℕ) (holds : List ℕ → Option (List ℕ))
        (placed : PlacedSource) →
        map string_bytes words.now ≡ command.words_of (command.Compare program hosts one other) →
        F.held files.old ≡ Some holds → holds program ≡ Some p → holds hosts ≡ Some h →
        PlacedSources p h (given placed) → ReleasesNothing placed.source.tree → result ≢ Status.Differ }
    // Nor is it for one whose text lacks the word `declassify`.
    ensures never_differs_by_text { (program hosts one other p : List ℕ) (list : List Token)
        (holds : List ℕ → Option (List ℕ)) →
        map string_bytes words.now ≡ command.words_of (command.Compare program hosts one other) →
        F.held files.old ≡ Some holds → holds program ≡ Some p → ReadsAs p (tokens list) →
        LacksWord word.Declassify list → result ≢ Status.Differ }
    // Where the plain run ends after so many steps, and so many events were asked for, a drive comes to rest. Otherwise
    // memory ran out, or the files or an output counted a fault.
    ensures comes_to_rest { (program hosts start p h s : List ℕ) (events steps : ℕ)
        (holds : List ℕ → Option (List ℕ)) (placed : PlacedSource) (tree : Program) (values : List (List ℤ)) →
        IsStepCount events →
        map string_bytes words.now ≡ command.words_of (command.Drive program hosts start events) →
        F.held files.old ≡ Some holds → holds program ≡ Some p → holds hosts ≡ Some h → holds start ≡ Some s →
        IsPlacedAs p h placed tree → length s ≤ SCRIPT_BYTES →
        start_of (map program_form tree.fields.items) s ≡ Ok values → HasLength tree values steps →
        EVENTS * (steps + 1) ≤ events →
        AnswersReport Status.Done (files_change F.Files files.old files.new) result
        (sink_change S.Sink out.old out.new) (sink_change E.Sink err.old err.new) }
    // What is made is never refused, and its hosts come to rest: `make` answers `Done`. Otherwise memory ran out, or
    // the output counted a fault.
    ensures made { (statements : ℕ) → command.IsMadeCount statements →
        map string_bytes words.now ≡ command.words_of (command.Make statements) →
        (result ≡ Status.Done) ⊎ (result ≡ Status.NoMemory)
        ⊎ ((result ≡ Status.OutFault) × Rose (S.faults out.old) (S.faults out.new)) }
    // Where a report is due for what the files hold, the answer is the status of the report. Otherwise memory ran out,
    // or the files or an output counted a fault.
    ensures complete { (holds : List ℕ → Option (List ℕ)) (number : ℕ) (status : Status) (text : List ℕ) →
        F.held files.old ≡ Some holds → Due (map string_bytes words.now) (Some holds) number (Print status text) →
        AnswersReport status (files_change F.Files files.old files.new) result
        (sink_change S.Sink out.old out.new) (sink_change E.Sink err.old err.new) }
    // Whatever it answers, it asks for no more loads than its words name files, saves nothing, and leaves what is held,
    // but for one save of a split whose report is due, after its loads, under its last word alone.
    ensures loads { (asked : command.CommandShape) → command.IsCommand asked →
        map string_bytes words.now ≡ command.words_of asked →
        F.loads files.new ≤ F.loads files.old + length (command.files_of asked) }
    ensures no_loads { command.HaveNoForm (map string_bytes words.now) → F.loads files.new ≡ F.loads files.old }
    ensures saves { OfCommand (λ asked. MaySave asked (files_change F.Files files.old files.new))
        (map string_bytes words.now) (files_change F.Files files.old files.new) }
{
    due_laws();
    headline_laws();
    let found = due_verdict(alloc, words, files);
    answer(alloc, PROGRAM, NO_MEMORY, found, out, err)
}

/// What is due for the words.
fn due_verdict<F: Files>(
    alloc: Global,
    words: &[String],
    files: &mut F,
) -> Result<Verdict, OutOfMemory>
    ensures due { IfOk result (λ verdict. IsDue (map string_bytes words.now)
        (files_change F.Files files.old files.new)
        (verdict_shape verdict)) }
    ensures loads { (asked : command.CommandShape) → command.IsCommand asked →
        map string_bytes words.now ≡ command.words_of asked →
        F.loads files.new ≤ F.loads files.old + length (command.files_of asked) }
    ensures no_loads { command.HaveNoForm (map string_bytes words.now) → F.loads files.new ≡ F.loads files.old }
    ensures saves { OfCommand (λ asked. MaySave asked (files_change F.Files files.old files.new))
        (map string_bytes words.now) (files_change F.Files files.old files.new) }
{
    match command_of(words) {
        Some(asked) => verdict_for_command(alloc, &asked, files),
        None => Verdict::usage(alloc, FORMS),
    }
}

/// What is due for a command.
fn verdict_for_command<F: Files>(
    alloc: Global,
    asked: &Command<'_>,
    files: &mut F,
) -> Result<Verdict, OutOfMemory>
    requires { command.IsCommand (command_shape asked.now) }
    ensures due { IfOk result (λ verdict. IsDueForCommand (command_shape asked.now)
        (files_change F.Files files.old files.new)
        (verdict_shape verdict)) }
    ensures loads { F.loads files.new ≤ F.loads files.old + length (command.files_of (command_shape asked.now)) }
    ensures saves { MaySave (command_shape asked.now) (files_change F.Files files.old files.new) }
{
    match verdict_or_stop(alloc, asked, files) {
        Ok(verdict) => Ok(verdict),
        Err(Stop::Due(verdict)) => Ok(verdict),
        Err(Stop::OutOfMemory) => Err(OutOfMemory),
    }
}

/// How a command ends: what is due for it, whether it stops early or not.
fn verdict_or_stop<F: Files>(
    alloc: Global,
    asked: &Command<'_>,
    files: &mut F,
) -> Result<Verdict, Stop>
    requires { command.IsCommand (command_shape asked.now) }
    ensures due { EndsIn (IsDueForCommand (command_shape asked.now) (files_change F.Files files.old files.new)) result }
    ensures loads { F.loads files.new ≤ F.loads files.old + length (command.files_of (command_shape asked.now)) }
    ensures saves { MaySave (command_shape asked.now) (files_change F.Files files.old files.new) }
{
    match asked {
        Command::Check { program, hosts } => verdict_for_check(alloc, program, hosts, files),
        Command::Run {
            program,
            hosts,
            start,
            steps,
        } => verdict_for_run(alloc, program, hosts, start, *steps, files),
        Command::Replay {
            program,
            hosts,
            events,
        } => verdict_for_replay(alloc, program, hosts, events, files),
        Command::Drive {
            program,
            hosts,
            start,
            events,
        } => verdict_for_drive(alloc, program, hosts, start, *events, files),
        Command::Compare {
            program,
            hosts,
            one,
            other,
        } => verdict_for_compare(alloc, program, hosts, one, other, files),
        Command::Split {
            program,
            hosts,
            out,
        } => verdict_for_split(alloc, program, hosts, out, files),
        Command::Make { statements } => verdict_for_make(alloc, *statements, files),
    }
}
