//! What is demanded of labels.

use label_lattice::Label;

/// What is demanded of labels, without the authority by which it is.
#[derive(Clone, Copy)]
pub enum Demand {
    /// To release a value of the first label as one of the second.
    Release(Label, Label),
    /// That this program label is trusted.
    Trust(Label),
    /// To endorse a value of the first label as one of the second.
    Endorse(Label, Label),
    /// To call a method of the second begin label under the first.
    Begin(Label, Label),
    /// That the first label flows to the second.
    Flow(Label, Label),
}
