//! The words: which host's fields they ask for.

ghost use Rattle.std.specs.Prelude.{◌≡◌, ◌≢◌, ◌≤◌, ◌∷◌, [], IfSome, IfNone, length, map, string_bytes};
ghost use Rattle.jiffields.specs.Words as asking;
ghost use Rattle.jiffields.specs.Words.{asked_shape, words_of};

use node_starts::SourceWord;

/// What is asked for: the source of the code, the name of a host, and the names of files.
#[derive(Clone, Copy)]
pub struct Asked<'a> {
    pub source: SourceWord<'a>,
    pub hosts: &'a str,
    pub host: &'a str,
    pub start: &'a str,
    pub journal: &'a str,
}

/// What the words ask for.
pub fn asked_for(words: &[String]) -> Option<Asked<'_>>
    ensures found { IfSome result (λ asked. map string_bytes words.now ≡ words_of (asked_shape asked)) }
    ensures many { IfSome result (λ _. 4 ≤ length words.now) }
    ensures none { IfNone result ((asked : asking.FieldsAsked) → map string_bytes words.now ≢ words_of asked) }
{
    match words {
        [code, hosts, host, start, journal] => Some(Asked {
            source: SourceWord::Code(code),
            hosts,
            host,
            start,
            journal,
        }),
        [flag, program, hosts, host, start, journal] => {
            asked_of_program(flag, program, hosts, host, start, journal)
        }
        _ => None,
    }
}

/// What six words ask for, of which the first says that the second names a program.
fn asked_of_program<'a>(
    flag: &str,
    program: &'a str,
    hosts: &'a str,
    host: &'a str,
    start: &'a str,
    journal: &'a str,
) -> Option<Asked<'a>>
    ensures found { IfSome result (λ asked.
        flag.now ∷ program.now ∷ hosts.now ∷ host.now ∷ start.now ∷ journal.now ∷ [] ≡ words_of (asked_shape asked)) }
    ensures none { IfNone result ((asked : asking.FieldsAsked) →
        flag.now ∷ program.now ∷ hosts.now ∷ host.now ∷ start.now ∷ journal.now ∷ [] ≢ words_of asked) }
{
    if flag != "--program" {
        return None;
    }
    Some(Asked {
        source: SourceWord::Program(program),
        hosts,
        host,
        start,
        journal,
    })
}
