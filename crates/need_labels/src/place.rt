//! Where a statement stands, and what was found before it.

use jif_tree::{Checked, Method};
use js_base::StmtId;
use label_lattice::Label;
use principals::Principals;

/// A method of a checked program over these principals.
#[derive(Clone, Copy)]
pub struct Place<'a> {
    pub principals: &'a Principals,
    pub checked: &'a Checked,
    pub method: &'a Method,
}

/// What the reads so far tell, and who reads the variables.
#[derive(Drop)]
pub struct Reads {
    /// For each field the label of what its reads tell.
    pub loc: Vec<Label>,
    /// For each variable the statements that read it.
    pub readers: Vec<Vec<StmtId>>,
    /// For each variable the turn of the last statement that reads it, and 0 before the first. Two statements may have
    /// one number, and never one turn.
    pub marks: Vec<usize>,
}

/// What was found up to a statement.
#[derive(Drop)]
pub struct Found {
    /// For each statement what its execution tells.
    pub used: Vec<Label>,
    /// For each statement a word with a bit for each principal that has to trust its host.
    pub need: Vec<u64>,
    pub reads: Reads,
}

/// A statement whose expressions are walked.
#[derive(Clone, Copy)]
pub struct Current {
    pub id: StmtId,
    /// Which statement it is in the order of the text, from 1.
    pub turn: usize,
    /// Its program label.
    pub pc: Label,
    /// What its execution tells, as far as its expressions were walked.
    pub used: Label,
    /// Whether one of these releases a value.
    pub releases: bool,
}
