//! What is due for the words: from files to a script, or to a refusal.

ghost use Rattle.std.specs.Prelude.{◌≡◌, ◌≤◌, ◌+◌, ℕ, List, drop, length, map, string_bytes};
ghost use Rattle.std.specs.Prelude.{IfOk};
ghost use Rattle.std.specs.List.{AllZip};
ghost use Rattle.js_base.specs.declared.limits.TheConstants.{HOSTS_BYTES, PROGRAM_BYTES, SCRIPT_BYTES};
ghost use Rattle.jif_grammar.specs.DraftShapes.{draft_shape};
ghost use Rattle.front_end.specs.Loading.{EndsIn, IsLoaded};
ghost use Rattle.front_end.specs.Loads.{AreKept, files_change};
ghost use Rattle.front_end.specs.ReadPrograms.{AreShort, IsReadDraft};
ghost use Rattle.front_end.specs.Verdicts.{verdict_shape};
ghost use Rattle.jifmerge.specs.Due.{AreLoaded, DueForAccepted, DueForBytes, DueForContents};
ghost use Rattle.jifmerge.specs.Due.{IsDue, most_of, names_with_most};
ghost use Rattle.jifmerge.specs.declared.due.TheConstants.{FEWEST};

use crate::merged::verdict_for_placed;
use front_end::{
    Asked, Loaded, Refusal, Stop, Verdict, accepted, drafted, hosts_read, load_all, on_hosts,
};
use host_decl::Hosts;
use jif_tree::Draft;
use js_base::limits::{HOSTS_BYTES, PROGRAM_BYTES, SCRIPT_BYTES};
use js_base::{Files, OutOfMemory};
use std::alloc::Global;

/// The only form of the words.
const FORMS: &str = "P H START J1 .. Jn";

/// How many words there are at least: a program, a host file, a file of starting values, and one journal.
const FEWEST: usize = 4;

/// What is due for the words.
pub fn due_verdict<F: Files>(
    alloc: Global,
    words: &[String],
    files: &mut F,
) -> Result<Verdict, OutOfMemory>
    ensures due { IfOk result (λ verdict. IsDue (map string_bytes words.now)
        (files_change F.Files files.old files.new)
        (verdict_shape verdict)) }
    ensures loads { F.loads files.new ≤ F.loads files.old + length words.now }
    ensures kept { AreKept (files_change F.Files files.old files.new) }
{
    if words.len() < FEWEST {
        return Verdict::usage(alloc, FORMS);
    }
    match verdict_or_stop(alloc, words, files) {
        Ok(verdict) => Ok(verdict),
        Err(Stop::Due(verdict)) => Ok(verdict),
        Err(Stop::OutOfMemory) => Err(OutOfMemory),
    }
}

/// How words end that name a program, a host file, a file of starting values and journals: what is due for them,
/// whether they stop early or not.
fn verdict_or_stop<F: Files>(
    alloc: Global,
    words: &[String],
    files: &mut F,
) -> Result<Verdict, Stop>
    requires { FEWEST ≤ length words.now }
    ensures due { EndsIn (IsDue (map string_bytes words.now) (files_change F.Files files.old files.new)) result }
    ensures loads { F.loads files.new ≤ F.loads files.old + length words.now }
    ensures kept { AreKept (files_change F.Files files.old files.new) }
{
    let asked = asked_files(alloc, words)?;
    let loaded = load_all(alloc, files, &asked)?;
    verdict_for_loaded(alloc, words, &loaded)
}

/// The files of the words, of which the first is a program, the second a host file, and the others are scripts and
/// journals.
fn asked_files<'a>(alloc: Global, words: &'a [String]) -> Result<Vec<Asked<'a>>, OutOfMemory>
    ensures { IfOk result (λ asked. map (λ one. (one.name.now, one.most)) asked.items
        ≡ names_with_most 0 (map string_bytes words.now)) }
{
    let mut asked = Vec::new(alloc);
    for (place, word) in words.iter().enumerate() {
        let most = most_of(place);
        asked.push(Asked {
            name: word.as_str(),
            most,
        })?;
    }
    Ok(asked)
}

/// How many bytes are read of the file at this place of the words.
fn most_of(place: usize) -> usize
    ensures { result ≡ most_of place }
{
    match place {
        0 => PROGRAM_BYTES,
        1 => HOSTS_BYTES,
        _ => SCRIPT_BYTES,
    }
}

/// What is due for the words, whose files were loaded.
fn verdict_for_loaded(alloc: Global, words: &[String], loaded: &[Loaded]) -> Result<Verdict, Stop>
    requires words { FEWEST ≤ length words.now }
    requires count { length loaded.now ≡ length words.now }
    ensures { (bytes : List (List ℕ)) → AreLoaded 0 bytes loaded.now →
        EndsIn (DueForBytes (map string_bytes words.now) bytes) result }
{
    verdict_for_files(
        alloc,
        words[2].as_str(),
        journal_names(words),
        &loaded[0],
        &loaded[1],
        &loaded[2],
        journals_of(loaded),
    )
}

/// The words that name journals.
fn journal_names(words: &[String]) -> &[String]
    requires { FEWEST ≤ length words.now }
    ensures { result.now ≡ drop 3 words.now }
{
    &words[3..]
}

/// The journals of what was loaded.
fn journals_of(loaded: &[Loaded]) -> &[Loaded]
    requires { FEWEST ≤ length loaded.now }
    ensures { result.now ≡ drop 3 loaded.now }
{
    &loaded[3..]
}

/// What is due for a program, a host file, a file of starting values of this name, and journals of these names, which
/// were loaded.
fn verdict_for_files(
    alloc: Global,
    name: &str,
    names: &[String],
    program: &Loaded,
    file: &Loaded,
    start: &Loaded,
    journals: &[Loaded],
) -> Result<Verdict, Stop>
    requires { length names.now ≡ length journals.now }
    ensures { (p h s : List ℕ) (js : List (List ℕ)) → IsLoaded PROGRAM_BYTES p program.now →
        IsLoaded HOSTS_BYTES h file.now → IsLoaded SCRIPT_BYTES s start.now →
        AllZip (IsLoaded SCRIPT_BYTES) js journals.now →
        EndsIn (DueForContents name.now (map string_bytes names.now) p h s js) result }
{
    let draft = drafted(alloc, program)?;
    let hosts = hosts_read(alloc, file)?;
    if journals.len() != hosts.hosts().len() {
        return Ok(Verdict::Refuse(Refusal::WrongJournals));
    }
    verdict_for_accepted(alloc, name, names, draft, hosts, start, journals)
}

/// What is due for a draft and hosts that were read, a file of starting values of this name, and journals of these
/// names, one for each host.
fn verdict_for_accepted(
    alloc: Global,
    name: &str,
    names: &[String],
    draft: Draft,
    hosts: Hosts,
    start: &Loaded,
    journals: &[Loaded],
) -> Result<Verdict, Stop>
    requires draft { IsReadDraft (draft_shape draft) }
    requires short { AreShort hosts }
    requires names { length names.now ≡ length journals.now }
    requires count { length journals.now ≡ length hosts.hosts }
    ensures { (s : List ℕ) (js : List (List ℕ)) → IsLoaded SCRIPT_BYTES s start.now →
        AllZip (IsLoaded SCRIPT_BYTES) js journals.now →
        EndsIn (DueForAccepted name.now (map string_bytes names.now) s js hosts (draft_shape draft)) result }
{
    let source = accepted(alloc, draft, hosts)?;
    let placed = on_hosts(alloc, source)?;
    verdict_for_placed(alloc, name, names, &placed, start, journals)
}
