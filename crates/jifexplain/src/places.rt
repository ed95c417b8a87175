//! What is told of the places of an accepted program: which hosts may not hold which of its parts, and why.

ghost use Rattle.std.specs.Prelude.{◌≡◌, ◌++◌, ◌≤◌, ◌<◌, ◌^◌, ℕ, IfOk, List, Some, length, map};
ghost use Rattle.std.specs.Option.{option_map};
ghost use Rattle.std.specs.String.{string_bytes};
ghost use Rattle.js_base.specs.declared.limits.TheConstants.{HOSTS_BYTES, PROGRAM_BYTES};
ghost use Rattle.jif_lex.specs.TokenLists.{AreTokens};
ghost use Rattle.jif_grammar.specs.DraftShapes.{draft_shape};
ghost use Rattle.jif_tree.specs.Trees.{program_tree};
ghost use Rattle.event_text.specs.Numbers.{is_plain_number};
ghost use Rattle.explain_texts.specs.Told.{told_shape};
ghost use Rattle.label_check.specs.Checking.{AreAuthorities};
ghost use Rattle.need_labels.specs.Labelled.{all_labels, labelled_of};
ghost use Rattle.place_texts.specs.Holding.{ArePartsOf, AreToldHosts, IsHolding, sheet_of};
ghost use Rattle.place_texts.specs.Parts.{part_shape};
ghost use Rattle.front_end.specs.Loading.{EndsIn, IsLoaded};
ghost use Rattle.front_end.specs.ReadPrograms.{AreShort, IsReadDraft};
ghost use Rattle.front_end.specs.Verdicts.{verdict_shape};
ghost use Rattle.jifexplain.specs.Places as places;
ghost use Rattle.jifexplain.specs.Places.{DraftPlaced, PlacesTold, SourcePlaced, TokensPlaced};
ghost use Rattle.jifexplain.specs.Questions.{asked_shape};
ghost use Rattle.jifexplain.specs.Texts.{readable};

use crate::shown::{Shown, readable, told_of, unheld_told};
use explain_texts::{Told, draft_places};
use front_end::{Loaded, Refusal, Stop, Verdict, accepted, hosts_read, lexed, parsed};
use host_decl::Hosts;
use jif_lex::Token;
use jif_resolve::limit_laws;
use jif_tree::{Checked, Draft, Program};
use js_base::digits::are_digits;
use js_base::{OutOfMemory, Status};
use label_lattice::Label;
use place_reasons::{Search, labels_of};
use place_rules::PlaceError;
use place_texts::{
    Holding, HostTold, Part, meant, part_laws, parts_of, push_lines, told_hosts, unheld_parts,
};
use std::alloc::Global;

/// Which parts of a program are asked about.
#[derive(Clone, Copy)]
pub enum Asked<'a> {
    All,
    /// Those that this word means.
    Meant(&'a str),
}

/// What is asked about an accepted program.
#[derive(Clone, Copy)]
pub struct Question<'a> {
    /// Its name and its text.
    pub shown: Shown<'a>,
    pub asked: Asked<'a>,
    /// Where no host may hold some part of it: the first such part.
    pub why: Option<PlaceError>,
}

/// What is told of an accepted program of this name. The cause is there where no host may hold some part of it.
pub fn places_told(
    alloc: Global,
    name: &str,
    asked: Asked<'_>,
    why: Option<PlaceError>,
    program: &Loaded,
    hosts: &Loaded,
) -> Result<Verdict, Stop>
    ensures { (p h : List ℕ) → IsLoaded PROGRAM_BYTES p program.now → IsLoaded HOSTS_BYTES h hosts.now →
        EndsIn (PlacesTold name.now p h (asked_shape asked.entry) why) result }
{
    let tokens = lexed(alloc, program)?;
    let text = readable(program);
    let shown = Shown { name, text };
    let question = Question { shown, asked, why };
    tokens_placed(alloc, &question, &tokens, hosts)
}

/// The same, with the tokens.
fn tokens_placed(
    alloc: Global,
    question: &Question<'_>,
    tokens: &[Token],
    hosts: &Loaded,
) -> Result<Verdict, Stop>
    requires short { length question.now.shown.text.now ≤ PROGRAM_BYTES }
    requires tokens { AreTokens tokens.now }
    ensures { (p h : List ℕ) → question.now.shown.text.now ≡ readable p → IsLoaded HOSTS_BYTES h hosts.now →
        EndsIn (TokensPlaced question.now.shown.name.now p h (asked_shape question.now.asked) question.now.why
        tokens.now) result }
{
    let draft = parsed(alloc, tokens)?;
    draft_placed(alloc, question, tokens, draft, hosts)
}

/// The same, with the draft.
fn draft_placed(
    alloc: Global,
    question: &Question<'_>,
    tokens: &[Token],
    draft: Draft,
    hosts: &Loaded,
) -> Result<Verdict, Stop>
    requires short { length question.now.shown.text.now ≤ PROGRAM_BYTES }
    requires draft { IsReadDraft (draft_shape draft) }
    ensures { (p h : List ℕ) → question.now.shown.text.now ≡ readable p → IsLoaded HOSTS_BYTES h hosts.now →
        EndsIn (DraftPlaced question.now.shown.name.now p h (asked_shape question.now.asked) question.now.why
        tokens.now (draft_shape draft)) result }
{
    let file = hosts_read(alloc, hosts)?;
    file_placed(alloc, question, tokens, draft, file)
}

/// The same, with the hosts.
fn file_placed(
    alloc: Global,
    question: &Question<'_>,
    tokens: &[Token],
    draft: Draft,
    file: Hosts,
) -> Result<Verdict, Stop>
    requires short { length question.now.shown.text.now ≤ PROGRAM_BYTES }
    requires draft { IsReadDraft (draft_shape draft) }
    requires names { AreShort file }
    ensures { (p : List ℕ) → question.now.shown.text.now ≡ readable p →
        EndsIn (SourcePlaced question.now.shown.name.now p (asked_shape question.now.asked) question.now.why tokens.now
        (draft_shape draft) file) result }
{
    limit_laws();
    let places = draft_places(alloc, &draft)?;
    let head = head_told(alloc, tokens, &draft, question.why)?;
    let source = accepted(alloc, draft, file)?;
    let labels = labels_of(alloc, &source.checked)?;
    let told = told_for(alloc, &source.hosts, &source.checked, &labels)?;
    let holding = Holding {
        tokens,
        places: &places,
        hosts: &source.hosts,
        checked: &source.checked,
        labels: &labels,
        told: &told,
    };
    Ok(places_verdict(alloc, question, &holding, head)?)
}

/// What the reads of a checked program tell each of these hosts.
fn told_for<'a>(
    alloc: Global,
    hosts: &'a Hosts,
    checked: &'a Checked,
    labels: &'a [Option<Label>],
) -> Result<Vec<HostTold>, OutOfMemory>
    requires labels { labels.now ≡ all_labels (labelled_of checked.now) }
    requires few { length checked.now.program.vars.items < 2 ^ 32 }
    requires few_methods { length checked.now.program.methods.items < 2 ^ 32 }
    ensures { IfOk result (λ told.
        AreToldHosts hosts.now.principals (labelled_of checked.now) hosts.now.hosts told.items) }
{
    let search = Search {
        principals: hosts.principals(),
        checked,
        labels,
    };
    told_hosts(alloc, &search, hosts.hosts())
}

/// What is told of the part that no host may hold, where there is one.
fn head_told(
    alloc: Global,
    tokens: &[Token],
    draft: &Draft,
    why: Option<PlaceError>,
) -> Result<Option<Told>, OutOfMemory>
    ensures { IfOk result (λ head.
        option_map told_shape head ≡ places.head_told tokens.now (draft_shape draft.now) why) }
{
    match why {
        Some(why) => Ok(Some(unheld_told(alloc, tokens, draft, why)?)),
        None => Ok(None),
    }
}

/// What is due for the parts asked about.
fn places_verdict<'a>(
    alloc: Global,
    question: &Question<'_>,
    holding: &Holding<'a>,
    head: Option<Told>,
) -> Result<Verdict, OutOfMemory>
    requires short { length question.now.shown.text.now ≤ PROGRAM_BYTES }
    requires holding { IsHolding holding.now }
    requires authorities { AreAuthorities holding.now.hosts.now.principals
        (program_tree holding.now.checked.now.program) }
    requires few { length holding.now.checked.now.program.fields.items < 2 ^ 32 }
    ensures { IfOk result (λ verdict. verdict_shape verdict
        ≡ places.places_verdict question.now.shown.name.now question.now.shown.text.now (option_map told_shape head)
        (sheet_of holding.now) (labelled_of holding.now.checked.now) holding.now.hosts.now.hosts question.now.why
        (asked_shape question.now.asked)) }
{
    part_laws();
    let program = &holding.checked.program;
    match question.asked {
        Asked::All => {
            let parts = whole_parts(alloc, program, question.why)?;
            let lines = lines_told(alloc, &question.asked, holding, &parts)?;
            lines_verdict(alloc, &question.shown, head, lines)
        }
        Asked::Meant(word) => {
            let parts = meant(alloc, program, word)?;
            parts_verdict(alloc, question, word, holding, &parts, head)
        }
    }
}

/// All parts of the program, or the one that no host may hold.
fn whole_parts<'a>(
    alloc: Global,
    program: &'a Program,
    why: Option<PlaceError>,
) -> Result<Vec<Part<'a>>, OutOfMemory>
    requires { length program.now.fields.items < 2 ^ 32 }
    ensures { IfOk result (λ parts.
        map part_shape parts.items ≡ places.whole_parts (program_tree program.now) why) }
{
    match why {
        None => parts_of(alloc, program),
        Some(why) => unheld_parts(alloc, program, why),
    }
}

/// What is due for the parts that a word means, if it means any.
fn parts_verdict<'a>(
    alloc: Global,
    question: &Question<'_>,
    word: &str,
    holding: &Holding<'a>,
    parts: &[Part<'a>],
    head: Option<Told>,
) -> Result<Verdict, OutOfMemory>
    requires short { length question.now.shown.text.now ≤ PROGRAM_BYTES }
    requires asked { asked_shape question.now.asked ≡ Some word.now }
    requires holding { IsHolding holding.now }
    requires parts { ArePartsOf holding.now.hosts.now.principals (program_tree holding.now.checked.now.program)
        (map part_shape parts.now) }
    ensures { IfOk result (λ verdict. verdict_shape verdict
        ≡ places.parts_verdict question.now.shown.name.now question.now.shown.text.now (option_map told_shape head)
        (sheet_of holding.now) (labelled_of holding.now.checked.now) holding.now.hosts.now.hosts word.now
        (map part_shape parts.now)) }
{
    if parts.is_empty() {
        return no_part(alloc, question.shown.name, word);
    }
    let lines = lines_told(alloc, &question.asked, holding, parts)?;
    lines_verdict(alloc, &question.shown, head, lines)
}

/// The word means no part of the program of this name.
fn no_part(alloc: Global, program: &str, word: &str) -> Result<Verdict, OutOfMemory>
    ensures { IfOk result (λ verdict. verdict_shape verdict ≡ places.no_part program.now word.now) }
{
    let text = if is_line_number(word) {
        format!(in alloc; "no statement begins on line {word} of {program}")?
    } else {
        format!(in alloc; "{program} has no field or method {word}")?
    };
    Ok(Verdict::Refuse(Refusal::InputExplained { text }))
}

/// Whether a word is `0`, or digits without a leading 0, which stand for a line of the program.
fn is_line_number(word: &str) -> bool
    ensures { result ≡ is_plain_number word.now }
{
    match word.as_bytes() {
        [] => false,
        [b'0', _, ..] => false,
        digits => are_digits(digits),
    }
}

/// A line for each of these parts and each host that may not hold it, or the one that each host may hold them.
fn lines_told<'a>(
    alloc: Global,
    asked: &Asked<'_>,
    holding: &Holding<'a>,
    parts: &[Part<'a>],
) -> Result<String, OutOfMemory>
    requires holding { IsHolding holding.now }
    requires parts { ArePartsOf holding.now.hosts.now.principals (program_tree holding.now.checked.now.program)
        (map part_shape parts.now) }
    ensures { IfOk result (λ lines. string_bytes lines
        ≡ places.lines_told (sheet_of holding.now) (labelled_of holding.now.checked.now) holding.now.hosts.now.hosts
        (asked_shape asked.now) (map part_shape parts.now)) }
{
    let mut lines = String::new(alloc);
    push_lines(alloc, &mut lines, holding, parts)?;
    if lines.is_empty() {
        return held_line(alloc, asked);
    }
    Ok(lines)
}

/// The line that says that each host may hold the parts asked about.
fn held_line(alloc: Global, asked: &Asked<'_>) -> Result<String, OutOfMemory>
    ensures { IfOk result (λ line. string_bytes line ≡ places.held_line (asked_shape asked.now)) }
{
    match *asked {
        Asked::All => Ok(format!(in alloc; "each host may hold each part\n")?),
        Asked::Meant(word) => held_word_line(alloc, word),
    }
}

/// The line that says that each host may hold what a word means.
fn held_word_line(alloc: Global, word: &str) -> Result<String, OutOfMemory>
    ensures { IfOk result (λ line. string_bytes line ≡ places.held_line (Some word.now)) }
{
    if is_line_number(word) {
        return Ok(format!(in alloc; "each host may hold what begins on line {word}\n")?);
    }
    Ok(format!(in alloc; "each host may hold {word}\n")?)
}

/// The lines, behind the head of a part that no host may hold where there is one.
fn lines_verdict(
    alloc: Global,
    shown: &Shown<'_>,
    head: Option<Told>,
    lines: String,
) -> Result<Verdict, OutOfMemory>
    requires { length shown.now.text.now ≤ PROGRAM_BYTES }
    ensures { IfOk result (λ verdict. verdict_shape verdict
        ≡ places.lines_verdict shown.now.name.now shown.now.text.now (option_map told_shape head)
        (string_bytes lines)) }
{
    match head {
        None => Ok(Verdict::Print {
            status: Status::Done,
            text: lines,
        }),
        Some(head) => {
            let told = with_lines(head, lines.as_str())?;
            told_of(alloc, shown, &told)
        }
    }
}

/// What is told, with lines behind it.
fn with_lines(head: Told, lines: &str) -> Result<Told, OutOfMemory>
    ensures { IfOk result (λ told. told_shape told ≡ record {
      at = head.at;
      message = string_bytes head.message;
      lines = string_bytes head.lines ++ lines.now;
    }) }
{
    let mut told = head;
    told.lines.push_str(lines)?;
    Ok(told)
}
