//! Where what is asked about stands.

ghost use Rattle.std.specs.Prelude.{◌≡◌, IfOk};
ghost use Rattle.jif_tree.specs.Trees.{expr_tree, program_tree, method_tree};
ghost use Rattle.jif_tree.specs.LabelRules.{expr_label, setting_of};
ghost use Rattle.need_labels.specs.Labelled.{all_labels, labelled_of};
ghost use Rattle.place_reasons.specs.Reasons.{pc_at, label_at};
ghost use Rattle.place_reasons.specs.Search.{IsSite, site_is};

use jif_tree::{Checked, Expr, Method};
use js_base::{OutOfMemory, StmtId};
use label_lattice::Label;
use label_reasons::{Place, Trait, expr_label};
use principals::Principals;
use std::alloc::Global;

/// A checked program over these principals, about whose parts is asked.
#[derive(Clone, Copy)]
pub struct Search<'a> {
    pub principals: &'a Principals,
    pub checked: &'a Checked,
    /// The label of each variable, as `labels_of` makes them.
    pub labels: &'a [Option<Label>],
}

/// A method of a checked program, of which a host of this label is to hold something.
#[derive(Clone, Copy)]
pub struct HostSite<'a> {
    pub principals: &'a Principals,
    pub checked: &'a Checked,
    pub method: &'a Method,
    /// The label of each variable.
    pub labels: &'a [Option<Label>],
    pub host: &'a Label,
}

/// The labels of the variables, each as one that is there.
///
/// # Errors
/// That memory ran out.
pub fn labels_of(alloc: Global, checked: &Checked) -> Result<Vec<Option<Label>>, OutOfMemory>
    ensures { IfOk result (λ labels. labels.items ≡ all_labels (labelled_of checked.now)) }
{
    let mut labels = Vec::new(alloc);
    for label in &checked.var_labels {
        labels.push(Some(*label))?;
    }
    Ok(labels)
}

/// The site of a method for a host of this label.
pub fn site_of<'a>(search: &Search<'a>, host: &'a Label, method: &'a Method) -> HostSite<'a>
    ensures principals { result.principals.now ≡ search.now.principals.now }
    ensures checked { result.checked.now ≡ search.now.checked.now }
    ensures method { result.method.now ≡ method.now }
    ensures labels { result.labels.now ≡ search.now.labels.now }
    ensures host { result.host.now ≡ host.now }
{
    HostSite {
        principals: search.principals,
        checked: search.checked,
        method,
        labels: search.labels,
        host,
    }
}

/// The program label of a statement.
pub fn pc_at(site: &HostSite<'_>, here: StmtId) -> Label
    ensures { result ≡ pc_at (site_is site.now) here }
{
    match site.checked.pc.get(here.0 as usize) {
        Some(label) => *label,
        None => Label::empty(),
    }
}

/// The label of an expression of a statement.
pub fn label_at(site: &HostSite<'_>, here: StmtId, value: &Expr) -> Label
    requires { IsSite site.now }
    ensures { result ≡ label_at (site_is site.now) here (expr_tree value.now) }
{
    let place = Place {
        principals: site.principals,
        program: &site.checked.program,
        method: site.method,
        held: Trait::Distrusts(0),
        pairs: &[],
        distrusts: &[],
    };
    let pc = pc_at(site, here);
    expr_label(&place, &pc, site.labels, value)
}
