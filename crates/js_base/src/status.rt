//! How a run ends, its exit code and its name.

ghost use Rattle.std.specs.Prelude.{◌≡◌};

/// How a run of a program ends.
#[derive(Clone, Copy, Debug, PartialEq, Eq)]
pub enum Status {
    /// All went well.
    Done,
    /// The words on the command line have no form that the program knows.
    Usage,
    /// The program was refused.
    SourceRefused,
    /// Another file was refused.
    InputRefused,
    /// Two runs that should agree do not.
    Differ,
    /// A file could not be read or written.
    FileFault,
    /// The output could not be written.
    OutFault,
    /// Memory ran out.
    NoMemory,
    /// The steps, events or turns that were given are used up.
    Spent,
    /// A link to another host failed.
    LinkFault,
    /// A program could not be started or waited for.
    ChildFault,
    /// A program that was started ended with another status than `Done`.
    ChildEnded,
}

impl Status {
    ghost use Rattle.js_base.specs.Status.{exit_code, status_name};

    /// The exit code of the process: 0 for `Done`, and 2 to 12 for the others in order.
    pub fn code(self) -> u8
        ensures { result ≡ exit_code self }
    {
        match self {
            Status::Done => 0,
            Status::Usage => 2,
            Status::SourceRefused => 3,
            Status::InputRefused => 4,
            Status::Differ => 5,
            Status::FileFault => 6,
            Status::OutFault => 7,
            Status::NoMemory => 8,
            Status::Spent => 9,
            Status::LinkFault => 10,
            Status::ChildFault => 11,
            Status::ChildEnded => 12,
        }
    }
    /// The name of the status, as `main` of a node prints it.
    pub fn name(self) -> &'static str
        ensures { result.now ≡ status_name self }
    {
        match self {
            Status::Done => "Done",
            Status::Usage => "Usage",
            Status::SourceRefused => "SourceRefused",
            Status::InputRefused => "InputRefused",
            Status::Differ => "Differ",
            Status::FileFault => "FileFault",
            Status::OutFault => "OutFault",
            Status::NoMemory => "NoMemory",
            Status::Spent => "Spent",
            Status::LinkFault => "LinkFault",
            Status::ChildFault => "ChildFault",
            Status::ChildEnded => "ChildEnded",
        }
    }
}
