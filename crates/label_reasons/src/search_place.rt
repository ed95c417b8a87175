//! Where a search for the refused statement stands.

use crate::demand::Demand;
use crate::reason::{Cause, Trait, Wanted};
use jif_tree::{Method, Program};
use js_base::StmtId;
use label_lattice::Label;
use principals::Principals;

/// A method of a program over these principals, and what brings what in is looked for.
#[derive(Clone, Copy)]
pub struct Place<'a> {
    pub principals: &'a Principals,
    pub program: &'a Program,
    pub method: &'a Method,
    /// What is looked for.
    pub held: Trait,
    /// All pairs that may be listed.
    pub pairs: &'a [Trait],
    /// All principals that may be listed.
    pub distrusts: &'a [Trait],
}

/// The program label of a block, and what brings the trait into it.
#[derive(Clone, Copy)]
pub struct Stand {
    pub pc: Label,
    pub of_pc: Option<Cause>,
}

/// What is known of variables up to a statement.
#[derive(Drop)]
pub struct Known {
    /// The label of each. A local that is declared without a label has none before its declaration.
    pub labels: Vec<Option<Label>>,
    /// What brings the trait into each.
    pub causes: Vec<Option<Cause>>,
}

/// What a refused statement asks for.
#[derive(Clone, Copy)]
pub struct Found {
    pub statement: StmtId,
    pub wanted: Wanted,
    pub demand: Demand,
    /// What brings the trait into the label that is asked about.
    pub cause: Option<Cause>,
}

/// What a refused statement asks for, and the place of its method.
#[derive(Clone, Copy)]
pub struct Located {
    pub method: usize,
    pub found: Found,
}
