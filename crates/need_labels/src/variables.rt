//! The labels of statements and of variables.

ghost use Rattle.std.specs.Prelude.{◌≡◌};
ghost use Rattle.need_labels.specs.Labelled.{labelled_of, pc_of};
ghost use Rattle.need_labels.specs.Needs.{label_of};

use jif_tree::Checked;
use js_base::{StmtId, VarId};
use label_lattice::Label;

/// The program label of a statement, `{}` where there is no such statement.
pub fn pc_of(checked: &Checked, statement: StmtId) -> Label
    ensures { result ≡ pc_of (labelled_of checked.now) statement }
{
    match checked.pc.get(statement.0 as usize) {
        Some(label) => *label,
        None => Label::empty(),
    }
}

/// The label of a variable, `{}` where there is no such variable.
pub fn label_of(checked: &Checked, variable: VarId) -> Label
    ensures { result ≡ label_of (labelled_of checked.now) variable }
{
    match checked.var_labels.get(variable.0 as usize) {
        Some(label) => *label,
        None => Label::empty(),
    }
}
