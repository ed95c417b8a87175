//! The labels of fields and methods, and the label of a value that was released or endorsed.

ghost use Rattle.std.specs.Prelude.{◌≡◌};
ghost use Rattle.jif_tree.specs.LabelRules.{crossed, field_label, method_at, begin_label};
ghost use Rattle.jif_tree.specs.Trees.{program_tree};

use crate::program::Program;
use js_base::{FieldId, MethodId};
use label_lattice::Label;

/// The label of a field, `{}` where there is no such field.
pub fn field_label(program: &Program, field: FieldId) -> Label
    ensures { result ≡ field_label (program_tree program.now) field }
{
    match program.fields.get(field.0 as usize) {
        Some(field) => field.label,
        None => Label::empty(),
    }
}

/// The begin label of a method, `{}` where there is no such method.
pub fn begin_label(program: &Program, method: MethodId) -> Label
    ensures { result ≡ begin_label (method_at (program_tree program.now) method) }
{
    match program.methods.get(method.0 as usize) {
        Some(method) => method.begin,
        None => Label::empty(),
    }
}

/// The confidentiality of the first label and the integrity of the second.
pub fn crossed(first: &Label, second: &Label) -> Label
    ensures { result ≡ crossed first.now second.now }
{
    first.join(Label::empty()).meet_integrity(*second)
}
