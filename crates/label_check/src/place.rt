//! Where a statement stands, and what was found before it.

use jif_tree::{Method, Program};
use label_lattice::Label;
use principals::Principals;

/// A method of a program over these principals.
#[derive(Clone, Copy)]
pub struct Place<'a> {
    pub principals: &'a Principals,
    pub program: &'a Program,
    pub method: &'a Method,
}

/// What was found up to a statement.
#[derive(Drop)]
pub struct Found {
    /// The label of each variable. A local that is declared without a label has none before its declaration.
    pub labels: Vec<Option<Label>>,
    /// The program label of each statement.
    pub pcs: Vec<Label>,
}
