//! The labels of variables.

ghost use Rattle.std.specs.Prelude.{◌≡◌, IfOk, IfErr, map, unwrap_or};
ghost use Rattle.label_lattice.specs.Lattice.{empty_label};
ghost use Rattle.label_check.specs.declared.check_error.CheckError.TheVariants as error;
ghost use Rattle.jif_tree.specs.LabelRules.{variable_label, labels_after_assignment, declared_labels};
ghost use Rattle.jif_tree.specs.Trees.{program_tree};

use crate::CheckError;
use jif_tree::Program;
use js_base::VarId;
use label_lattice::Label;
use std::alloc::Global;

/// The label of a variable, `{}` where it has none yet.
pub fn variable_label(labels: &[Option<Label>], var: VarId) -> Label
    ensures { result ≡ variable_label labels.now var }
{
    match labels.get(var.0 as usize) {
        Some(Some(label)) => *label,
        _ => Label::empty(),
    }
}

/// Gives a variable that has no label yet the label of what is assigned to it.
pub fn assign_label(labels: &mut Vec<Option<Label>>, var: VarId, label: Label)
    ensures { labels.new.items ≡ labels_after_assignment labels.old.items var label }
{
    if let Some(None) = labels.get(var.0 as usize) {
        labels[var.0 as usize] = Some(label);
    }
}

/// The labels with which the variables of a program are declared.
pub fn declared_labels(alloc: Global, program: &Program) -> Result<Vec<Option<Label>>, CheckError>
    ensures labels { IfOk result (λ labels. labels.items ≡ declared_labels (program_tree program.now)) }
    ensures err { IfErr result (λ why. why ≡ error.OutOfMemory) }
{
    let mut labels = Vec::new(alloc);
    for var in &program.vars {
        labels.push(var.label)?;
    }
    Ok(labels)
}

/// The labels of all variables, `{}` for one that has none.
pub fn given_labels(alloc: Global, labels: &[Option<Label>]) -> Result<Vec<Label>, CheckError>
    ensures labels { IfOk result (λ given. given.items ≡ map (λ label. unwrap_or label empty_label) labels.now) }
    ensures err { IfErr result (λ why. why ≡ error.OutOfMemory) }
{
    let mut given = Vec::new(alloc);
    for label in labels {
        given.push(label_or_empty(*label))?;
    }
    Ok(given)
}

/// The label, `{}` where there is none.
fn label_or_empty(label: Option<Label>) -> Label
    ensures { result ≡ unwrap_or label empty_label }
{
    match label {
        Some(label) => label,
        None => Label::empty(),
    }
}
