//! Labels of guards.

ghost use Rattle.std.specs.Prelude.{◌≡◌};
ghost use Rattle.jif_tree.specs.LabelRules.{expr_label, guarded};
ghost use Rattle.jif_tree.specs.Trees.{expr_tree};
ghost use Rattle.need_labels.specs.Labelled.{all_labels};
ghost use Rattle.control_split.specs.Views.{walked_of, labelled_in};

use crate::walk::Walk;
use jif_tree::{Expr, crossed, field_label};
use label_lattice::Label;
use need_labels::label_of;

/// The label of an expression under a program label.
fn expr_label(walk: &Walk<'_>, pc: &Label, expr: &Expr) -> Label
    ensures { result ≡ expr_label (walked_of walk.now).setting pc.now (all_labels (labelled_in walk.now.split))
        (expr_tree expr.now) }
{
    match expr {
        Expr::Number(_) => Label::bottom(walk.split.hosts.principals()),
        Expr::Local(variable) => label_of(walk.split.checked, *variable),
        Expr::Scalar(field) => field_label(&walk.split.checked.program, *field),
        Expr::Element(field, index) => {
            let inner = expr_label(walk, pc, index);
            field_label(&walk.split.checked.program, *field).join(inner)
        }
        Expr::Not(operand) | Expr::Negate(operand) => expr_label(walk, pc, operand),
        Expr::Binary(_, left, right) => {
            let first = expr_label(walk, pc, left);
            first.join(expr_label(walk, pc, right))
        }
        Expr::Declassify(operand, to) => {
            let from = expr_label(walk, pc, operand);
            crossed(&to.join(*pc), &from)
        }
        Expr::Endorse(operand, to) => {
            let from = expr_label(walk, pc, operand);
            crossed(&from, &to.join(*pc))
        }
    }
}

/// The program label inside a branch or a loop.
pub fn guarded(walk: &Walk<'_>, pc: &Label, guard: &Expr) -> Label
    ensures { result ≡ guarded (walked_of walk.now).setting pc.now (all_labels (labelled_in walk.now.split))
        (expr_tree guard.now) }
{
    pc.join(expr_label(walk, pc, guard))
}
