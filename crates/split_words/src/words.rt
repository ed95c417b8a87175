//! The words of commands.

ghost use Rattle.std.specs.Prelude.{◌≡◌, ◌≢◌, ◌↔◌, ◌∷◌, [], ℕ, map, string_bytes, IfSome, IfNone, IsTrue};
ghost use Rattle.std.specs.Fmt.{decimal};
ghost use Rattle.split_words.specs.Asked.{command_shape};
ghost use Rattle.split_words.specs.Commands.{IsCommand, IsMadeCount, words_of, HaveNoForm};

use front_end::step_count;

/// The most statements of a program that can be made.
pub const MADE_STATEMENTS: u64 = 2_000;

/// A command with the names of its files.
#[derive(Drop)]
pub enum Command<'a> {
    /// `check P H`
    Check {
        program: &'a str,
        hosts: &'a str,
    },
    /// `run P H START N`, for at most N steps
    Run {
        program: &'a str,
        hosts: &'a str,
        start: &'a str,
        steps: u64,
    },
    /// `replay P H EVENTS`
    Replay {
        program: &'a str,
        hosts: &'a str,
        events: &'a str,
    },
    /// `compare P H EVENTS1 EVENTS2`
    Compare {
        program: &'a str,
        hosts: &'a str,
        one: &'a str,
        other: &'a str,
    },
    /// `split P H OUT`
    Split {
        program: &'a str,
        hosts: &'a str,
        out: &'a str,
    },
    /// `drive P H START N`, for at most N events
    Drive {
        program: &'a str,
        hosts: &'a str,
        start: &'a str,
        events: u64,
    },
    /// `make N`
    Make {
        statements: u64,
    },
}

/// The command that the words ask for, or `None` where they ask for none.
pub fn command_of(words: &[String]) -> Option<Command<'_>>
    ensures command { IfSome result (λ asked. IsCommand (command_shape asked)) }
    ensures found { IfSome result (λ asked. map string_bytes words.now ≡ words_of (command_shape asked)) }
    ensures none { IfNone result (HaveNoForm (map string_bytes words.now)) }
{
    match words {
        [verb, last] => command_of_two(verb, last),
        [verb, program, hosts] if verb.as_str() == "check" => Some(Command::Check {
            program,
            hosts,
        }),
        [verb, program, hosts, last] => command_of_four(verb, program, hosts, last),
        [verb, program, hosts, third, last] => command_of_five(verb, program, hosts, third, last),
        _ => None,
    }
}

/// The command that four words ask for.
fn command_of_four<'a>(
    verb: &str,
    program: &'a str,
    hosts: &'a str,
    last: &'a str,
) -> Option<Command<'a>>
    ensures command { IfSome result (λ asked. IsCommand (command_shape asked)) }
    ensures found { IfSome result (λ asked.
        verb.now ∷ program.now ∷ hosts.now ∷ last.now ∷ [] ≡ words_of (command_shape asked)) }
    ensures none { IfNone result (HaveNoForm (verb.now ∷ program.now ∷ hosts.now ∷ last.now ∷ [])) }
{
    if verb == "replay" {
        return Some(Command::Replay {
            program,
            hosts,
            events: last,
        });
    }
    if verb == "split" {
        return Some(Command::Split {
            program,
            hosts,
            out: last,
        });
    }
    None
}

/// The command that two words ask for, of which the second is a number.
fn command_of_two<'a>(verb: &str, last: &str) -> Option<Command<'a>>
    ensures command { IfSome result (λ asked. IsCommand (command_shape asked)) }
    ensures found { IfSome result (λ asked. verb.now ∷ last.now ∷ [] ≡ words_of (command_shape asked)) }
    ensures none { IfNone result (HaveNoForm (verb.now ∷ last.now ∷ [])) }
{
    if verb == "make" {
        let statements = made_count(last)?;
        return Some(Command::Make { statements });
    }
    None
}

/// The command that five words ask for: one that compares, or one whose last word is a number.
fn command_of_five<'a>(
    verb: &str,
    program: &'a str,
    hosts: &'a str,
    third: &'a str,
    last: &'a str,
) -> Option<Command<'a>>
    ensures command { IfSome result (λ asked. IsCommand (command_shape asked)) }
    ensures found { IfSome result (λ asked.
        verb.now ∷ program.now ∷ hosts.now ∷ third.now ∷ last.now ∷ [] ≡ words_of (command_shape asked)) }
    ensures none { IfNone result (HaveNoForm (verb.now ∷ program.now ∷ hosts.now ∷ third.now ∷ last.now ∷ [])) }
{
    if verb == "compare" {
        return Some(Command::Compare {
            program,
            hosts,
            one: third,
            other: last,
        });
    }
    let count = step_count(last)?;
    if verb == "run" {
        return Some(Command::Run {
            program,
            hosts,
            start: third,
            steps: count,
        });
    }
    if verb == "drive" {
        return Some(Command::Drive {
            program,
            hosts,
            start: third,
            events: count,
        });
    }
    None
}

/// The number of statements that a word writes so, where a program of so many can be made.
fn made_count(word: &str) -> Option<u64>
    ensures count { IfSome result IsMadeCount }
    ensures found { IfSome result (λ statements. word.now ≡ decimal statements) }
    ensures none { IfNone result ((statements : ℕ) → IsMadeCount statements → word.now ≢ decimal statements) }
{
    let statements = step_count(word)?;
    if statements <= MADE_STATEMENTS {
        Some(statements)
    } else {
        None
    }
}
