//! Why words or files are refused.

ghost use Rattle.std.specs.Prelude.{◌≡◌, IfOk};
ghost use Rattle.std.specs.String.{string_bytes};
ghost use Rattle.front_end.specs.Refusals.{refusal_shape, refusal_status, refusal_text};

use crate::refusal_texts::{
    at_line_text, code_text, hosts_text, labels_text, lexed_text, no_key_text, no_run_text,
    parsed_text, resolved_text, reveals_text, weak_entry_text,
};
use host_decl::HostsError;
use jif_lex::LexError;
use jif_parse::ParseError;
use jif_resolve::ResolveError;
use js_base::{EntryId, Status};
use label_check::CheckError;
use place_rules::PlaceError;
use split_file::SplitError;
use std::alloc::{AllocError, Global};

/// Why a line of a script, or of a file of starting values, is refused.
#[derive(Clone, Copy)]
pub enum LineCause {
    /// It has no form.
    NoForm,
    /// There is no such event as it says.
    NotThere,
    /// The host of its event runs a thread.
    HostBusy,
    /// Its act presents the token of this number, and misbehaving hosts were sent only so many.
    NoSuchToken { number: u64, count: u64 },
    /// The sender of its act obeys.
    NotMisbehaving,
    /// Two runs go apart at its event.
    EventsDiffer,
    /// Something secret goes on while its event may be seen.
    NotPrompt,
    /// No list of events meets the journal behind this line.
    NoMatch,
    /// It is the last, and no line feed ends it.
    NotEnded,
}

/// Why words or files are refused: the cause, with its place. It says nothing of the program that refuses them, which
/// puts its own name in front.
#[derive(Drop)]
pub enum Refusal {
    /// The words have none of these forms.
    Usage {
        forms: String,
    },
    /// Nothing is held under the name of the file.
    NoSuchFile {
        file: String,
    },
    /// The files failed at the file.
    FileFault {
        file: String,
    },
    /// The program has no tokens.
    Lex(LexError),
    /// Its tokens are no program.
    Parse(ParseError),
    /// A name of it is refused.
    Resolve(ResolveError),
    /// Its labels are refused at a statement on this line. The words name labels as the host file has their principals.
    Labels {
        why: CheckError,
        line: u32,
        words: String,
    },
    /// The host file is refused.
    Hosts(HostsError),
    /// No host may hold some part of the program, which the words name.
    Places {
        why: PlaceError,
        words: String,
    },
    /// The file has too many bytes.
    TooLong {
        file: String,
    },
    /// A line of the file, from 1, is refused.
    AtLine {
        file: String,
        line: u32,
        why: LineCause,
    },
    /// Not the same hosts misbehave in two runs.
    BadDiffer,
    /// A field of this name starts unlike in two runs.
    StartsDiffer {
        field: String,
    },
    /// The split file is refused.
    BadCode {
        file: String,
        why: SplitError,
    },
    /// The host file has no host of this name.
    NoHost {
        name: String,
    },
    /// The code of one file is for other hosts than another file has.
    OtherHosts {
        code: String,
        hosts: String,
    },
    /// A file of keys has none for the link to a host of this name, or none for the link from it.
    NoKey {
        file: String,
        host: String,
    },
    /// An entry of the split file leads to the instruction at this place of a host's part, which names more than the
    /// entry's need has.
    WeakEntry {
        file: String,
        entry: EntryId,
        place: u32,
    },
    /// The instruction at this place of a host's part shows another host what that may not see.
    Reveals {
        file: String,
        place: u32,
    },
    /// There is not one journal for each host.
    WrongJournals,
    /// No run of the host has the lines of its journal up to this line, from 1.
    NoRun {
        file: String,
        line: u32,
        host: String,
    },
    /// Two fields of the code have this name.
    TwoFields {
        file: String,
        name: String,
    },
    /// Two variables of the code have this name.
    TwoVariables {
        file: String,
        name: String,
    },
    /// A program is refused, which these words explain. They are lines, and no line feed ends the last.
    SourceExplained {
        text: String,
    },
    /// So is another file, or what is asked of a program.
    InputExplained {
        text: String,
    },
}

impl Refusal {
    /// The status with which a program ends that refuses for this cause.
    pub fn status(&self) -> Status
        ensures { result ≡ refusal_status (refusal_shape self.now) }
    {
        match self {
            Refusal::Usage { .. } => Status::Usage,
            Refusal::FileFault { .. } => Status::FileFault,
            Refusal::Lex(_)
            | Refusal::Parse(_)
            | Refusal::Resolve(_)
            | Refusal::Labels { .. }
            | Refusal::Places { .. }
            | Refusal::SourceExplained { .. } => Status::SourceRefused,
            Refusal::NoSuchFile { .. }
            | Refusal::Hosts(_)
            | Refusal::TooLong { .. }
            | Refusal::AtLine { .. }
            | Refusal::BadDiffer
            | Refusal::StartsDiffer { .. }
            | Refusal::BadCode { .. }
            | Refusal::NoHost { .. }
            | Refusal::OtherHosts { .. }
            | Refusal::NoKey { .. }
            | Refusal::WeakEntry { .. }
            | Refusal::Reveals { .. }
            | Refusal::WrongJournals
            | Refusal::NoRun { .. }
            | Refusal::TwoFields { .. }
            | Refusal::TwoVariables { .. }
            | Refusal::InputExplained { .. } => Status::InputRefused,
        }
    }

    /// The words that say it, without the name of a program in front and with no line feed.
    pub fn text(&self, alloc: Global) -> Result<String, AllocError>
        ensures { IfOk result (λ text. string_bytes text ≡ refusal_text (refusal_shape self.now)) }
    {
        match self {
            Refusal::Usage { forms } => format!(in alloc; "usage: {forms}"),
            Refusal::NoSuchFile { file } => format!(in alloc; "{file}: no such file"),
            Refusal::FileFault { file } => format!(in alloc; "file fault: {file}"),
            Refusal::Lex(why) => lexed_text(alloc, *why),
            Refusal::Parse(why) => parsed_text(alloc, *why),
            Refusal::Resolve(why) => resolved_text(alloc, *why),
            Refusal::Labels { why, line, words } => labels_text(alloc, why, *line, words),
            Refusal::Hosts(why) => hosts_text(alloc, why),
            Refusal::Places { why: _, words } => format!(in alloc; "no host may hold {words}"),
            Refusal::TooLong { file } => format!(in alloc; "{file}: too long"),
            Refusal::AtLine { file, line, why } => at_line_text(alloc, file, *line, *why),
            Refusal::BadDiffer => String::from_str(alloc, "the misbehaving hosts differ"),
            Refusal::StartsDiffer { field } => {
                format!(in alloc; "starting values of {field} differ")
            }
            Refusal::BadCode { file, why } => code_text(alloc, file, *why),
            Refusal::NoHost { name } => format!(in alloc; "no host {name}"),
            Refusal::OtherHosts { code, hosts } => {
                format!(in alloc; "the hosts of {code} are not those of {hosts}")
            }
            Refusal::NoKey { file, host } => no_key_text(alloc, file, host),
            Refusal::WeakEntry { file, entry, place } => {
                weak_entry_text(alloc, file, *entry, *place)
            }
            Refusal::Reveals { file, place } => reveals_text(alloc, file, *place),
            Refusal::WrongJournals => String::from_str(alloc, "wrong number of journals"),
            Refusal::NoRun { file, line, host } => no_run_text(alloc, file, *line, host),
            Refusal::TwoFields { file, name } => {
                format!(in alloc; "{file}: {name} is the name of two fields")
            }
            Refusal::TwoVariables { file, name } => {
                format!(in alloc; "{file}: {name} is the name of two variables")
            }
            Refusal::SourceExplained { text } | Refusal::InputExplained { text } => {
                String::from_str(alloc, text)
            }
        }
    }
}
