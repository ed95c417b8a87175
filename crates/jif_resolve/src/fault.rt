//! Faults of a draft.

ghost use Rattle.std.specs.Prelude.{◌≡◌};
ghost use Rattle.jif_resolve.specs.First.{rank, comes_before, with_fault};

/// What is wrong with a name.
#[derive(Clone, Copy)]
pub enum FaultKind {
    /// It stands for nothing.
    UnknownName,
    /// Another has it.
    Twice,
    /// It stands for something else than what is used here.
    WrongType,
    /// It is called with another number of arguments than it has parameters.
    WrongCount,
}

/// A fault at a token, which is counted from 0.
#[derive(Clone, Copy)]
pub struct Fault {
    pub at: u32,
    pub kind: FaultKind,
}

impl FaultKind {
    /// The place of the kind among those at one token.
    fn rank(self) -> u8
        ensures { result ≡ rank self }
    {
        match self {
            FaultKind::UnknownName => 0,
            FaultKind::Twice => 1,
            FaultKind::WrongType => 2,
            FaultKind::WrongCount => 3,
        }
    }
}

impl Fault {
    /// Whether a draft is refused for this fault where it has both.
    fn comes_before(self, other: Fault) -> bool
        ensures { result ≡ comes_before self other }
    {
        self.at < other.at || (self.at == other.at && self.kind.rank() < other.kind.rank())
    }
}

/// The first of the faults so far and one more.
pub fn sooner(first: Option<Fault>, fault: Fault) -> Option<Fault>
    ensures { result ≡ with_fault first fault }
{
    match first {
        None => Some(fault),
        Some(other) => {
            if fault.comes_before(other) {
                Some(fault)
            } else {
                Some(other)
            }
        }
    }
}
