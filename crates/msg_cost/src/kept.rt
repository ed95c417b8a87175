//! What is kept of a plan while its cost is counted.

use js_base::limits::{METHODS, PARAMETERS, STATEMENTS};
use js_base::{HostId, VarId};

/// For how many variables it is kept on which hosts they are read. A program has no more: each local has a statement
/// that declares it, and each method has its parameters and one result.
pub const KEPT_VARIABLES: usize = STATEMENTS + METHODS * (PARAMETERS + 1);

/// What is kept of a plan while its cost is counted, so that no statement is gone over again and again.
#[derive(Clone, Copy)]
pub struct Kept<'a> {
    /// The hosts on which methods end, by the methods' numbers.
    pub ends: &'a [HostId],
    /// For each variable a word with a bit for each host on which a statement reads it.
    pub reading: &'a [u64],
    /// For how many variables these words are found.
    pub found: usize,
}

/// Nothing is kept.
pub const NOTHING: Kept<'static> = Kept {
    ends: &[],
    reading: &[],
    found: 0,
};

/// Of how many variables it is kept who reads them while a move is tried: a row of pieces mostly speaks of few.
pub const RECENT_VARIABLES: usize = 16;

/// A variable, and a word with a bit for each host on which a statement reads it.
#[derive(Clone, Copy)]
pub struct ReadingWord {
    pub variable: VarId,
    pub word: u64,
}

/// What is kept of the statements that read a variable while a move is tried.
#[derive(Clone, Copy)]
pub struct VariableReaders {
    /// The hosts on which they stand.
    pub reading: ReadingWord,
    /// Whether the moved statement is one of them.
    pub moved: bool,
}

/// What is kept of the readers of some variables, each at a place of its own number.
pub type RecentReaders = [Option<VariableReaders>; RECENT_VARIABLES];
