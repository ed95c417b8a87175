//! How a child of a launch ended.

/// How a child of a launch ended.
#[derive(Clone, Copy, Debug, PartialEq, Eq)]
pub enum ChildEnd {
    /// With this exit status, or -1 where it has none, since a signal ended it.
    Ended(i32),
    /// It could not be started.
    NotStarted,
    /// It was started, and could not be waited for.
    NotWaited,
    /// Memory ran out when it was to be started or waited for.
    NoMemory,
}
