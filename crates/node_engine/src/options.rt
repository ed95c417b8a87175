//! The command line of a node.

ghost use Rattle.std.specs.Prelude.{◌≡◌, ◌≢◌, ◌∷◌, [], List, None, Some, false, codes, map, option_map, string_bytes};
ghost use Rattle.std.specs.Prelude.{IfErr, IfNone, IfOk, IfSome};
ghost use Rattle.clap.specs.Words.{HasMatchesOf, Text, app_of, fault_of, kind_of, new_app, rule_of};
ghost use Rattle.node_engine.specs.Options.{Asked, IsAsked, IsSource, asked_shape, node_command, required_option};
ghost use Rattle.node_starts.specs.SourceNames.{Code, Program, SourceName, source_name};
ghost use Rattle.node_engine.specs.Options.{set_option, without_name};

use clap::error::ErrorKind;
use clap::{Arg, ArgAction, ArgMatches, Command, Error};
use front_end::step_count;
use node_starts::SourceWord;
use std::alloc::{AllocError, Global};

/// What the words of a node ask for.
#[derive(Clone, Copy)]
pub struct Options<'a> {
    pub source: SourceWord<'a>,
    pub hosts: &'a str,
    pub host: &'a str,
    pub start: &'a str,
    pub turns: u64,
    /// the file of keys, where frames are to be sealed
    pub seals: Option<&'a str>,
}

/// Why no options were read.
#[derive(Clone, Copy, Debug, PartialEq, Eq, thiserror::Error)]
pub enum OptionError {
    #[error("out of memory")]
    OutOfMemory,
    /// The words ask for no node.
    #[error("usage")]
    Usage,
}

impl From<AllocError> for OptionError {
    ghost use Rattle.std.specs.Prelude.{◌≡◌};
    ghost use Rattle.node_engine.specs.declared.options.OptionError.TheVariants as option_error;

    ghost from_gives = { λ _ e. e ≡ option_error.OutOfMemory };

    fn from(_error: AllocError) -> OptionError {
        OptionError::OutOfMemory
    }
}

/// The node that the words ask for. `Usage` comes where they do not parse as just these options, where both or neither
/// of `--program` and `--code` are given, and where the turns are no number of steps.
pub fn read_options<'a>(alloc: Global, words: &'a [String]) -> Result<Options<'a>, OptionError>
    ensures ok { IfOk result (λ options. IsAsked (map string_bytes words.now) (asked_shape options)) }
    ensures usage { IfErr result (λ e. e ≡ OptionError.Usage →
        (asked : Asked) → ¬ IsAsked (map string_bytes words.now) asked) }
{
    let matches = parsed(alloc, words)?;
    match asked_by(&matches) {
        Some(options) => Ok(options),
        None => Err(OptionError::Usage),
    }
}

/// What the matches of words that parse ask for, where they ask for a node.
fn asked_by<'a>(matches: &ArgMatches<'a>) -> Option<Options<'a>>
    ensures found { (words : List Text) → fault_of node_command words ≡ [] →
        HasMatchesOf node_command words matches.now → IfSome result (λ options. IsAsked words (asked_shape options)) }
    ensures none { (words : List Text) → HasMatchesOf node_command words matches.now →
        IfNone result ((asked : Asked) → ¬ IsAsked words asked) }
{
    let hosts = matches.get_str("hosts")?;
    let host = matches.get_str("host")?;
    let start = matches.get_str("start")?;
    let word = matches.get_str("turns")?;
    let turns = step_count(word)?;
    let source = one_source(matches.get_str("program"), matches.get_str("code"))?;
    let seals = matches.get_str("seals");
    Some(Options {
        source,
        hosts,
        host,
        start,
        turns,
        seals,
    })
}

/// The source of a node's code, where exactly one is given.
fn one_source<'a>(program: Option<&'a str>, code: Option<&'a str>) -> Option<SourceWord<'a>>
    ensures found { IfSome result (λ source.
        IsSource (option_map (λ p. p.now) program.entry) (option_map (λ c. c.now) code.entry) (source_name source)) }
    ensures none { IfNone result ((source : SourceName) →
        ¬ IsSource (option_map (λ p. p.now) program.entry) (option_map (λ c. c.now) code.entry) source) }
{
    match (program, code) {
        (Some(program), None) => Some(SourceWord::Program(program)),
        (None, Some(code)) => Some(SourceWord::Code(code)),
        (Some(_), Some(_)) => None,
        (None, None) => None,
    }
}

/// What `clap` makes of the words.
fn parsed<'a>(alloc: Global, words: &'a [String]) -> Result<ArgMatches<'a>, OptionError>
    ensures matches { IfOk result (HasMatchesOf node_command (map string_bytes words.now)) }
    ensures accepted { IfOk result (λ _. fault_of node_command (map string_bytes words.now) ≡ []) }
    ensures usage { IfErr result (λ e. e ≡ OptionError.Usage →
        fault_of node_command (map string_bytes words.now) ≢ []) }
{
    let command = command(alloc)?;
    match command.try_get_matches_from(words) {
        Ok(matches) => Ok(matches),
        Err(error) => Err(refusal(&error)),
    }
}

/// What an error of `clap` comes to.
fn refusal(error: &Error) -> OptionError
    ensures { result ≡ OptionError.Usage → kind_of error.now ≢ ErrorKind.OutOfMemory }
{
    match error.kind() {
        ErrorKind::OutOfMemory => OptionError::OutOfMemory,
        _ => OptionError::Usage,
    }
}

/// The command of just a node's options.
fn command<'a>(alloc: Global) -> Result<Command<'a>, AllocError>
    ensures { IfOk result (λ made. app_of made ≡ node_command) }
{
    bare_command(alloc)
        .arg(required_option(alloc, "hosts"))?
        .arg(required_option(alloc, "host"))?
        .arg(required_option(alloc, "start"))?
        .arg(required_option(alloc, "turns"))?
        .arg(set_option(alloc, "program"))?
        .arg(set_option(alloc, "code"))?
        .arg(set_option(alloc, "seals"))
}

/// The command without options, whose words begin behind the program's name.
fn bare_command<'a>(alloc: Global) -> Command<'a>
    ensures { app_of result ≡ without_name (new_app (codes "jifhost")) }
{
    Command::new(alloc, "jifhost").no_binary_name(true)
}

/// An option that takes one value and has to be given.
fn required_option<'a>(alloc: Global, name: &'a str) -> Arg<'a>
    ensures rule { rule_of result ≡ required_option name.now }
    ensures local { result.global ≡ false }
{
    set_option(alloc, name).required(true)
}

/// An option that takes one value.
fn set_option<'a>(alloc: Global, name: &'a str) -> Arg<'a>
    ensures rule { rule_of result ≡ set_option name.now }
    ensures local { result.global ≡ false }
{
    Arg::new(alloc, name).long(name).action(ArgAction::Set)
}

/// Laws of the words that ask for a node. The call does nothing.
pub fn option_laws()
    ensures one_asked { (words : List Text) (first second : Asked) →
        IsAsked words first → IsAsked words second → first ≡ second }
    ensures no_words { (asked : Asked) → ¬ IsAsked [] asked }
    ensures all_options { IsAsked (codes "--program" ∷ codes "P" ∷ codes "--hosts" ∷ codes "H" ∷ codes "--host" ∷
        codes "A" ∷ codes "--start" ∷ codes "S" ∷ codes "--turns" ∷ codes "4" ∷ []) (record {
          source = Program (codes "P");
          hosts = codes "H";
          host = codes "A";
          start = codes "S";
          turns = 4;
          seals = None;
        }) }
    ensures with_seals { IsAsked (codes "--code" ∷ codes "C" ∷ codes "--hosts" ∷ codes "H" ∷ codes "--host" ∷
        codes "A" ∷ codes "--start" ∷ codes "S" ∷ codes "--turns" ∷ codes "4" ∷ codes "--seals" ∷ codes "K" ∷ [])
        (record {
          source = Code (codes "C");
          hosts = codes "H";
          host = codes "A";
          start = codes "S";
          turns = 4;
          seals = Some (codes "K");
        }) }
{}
