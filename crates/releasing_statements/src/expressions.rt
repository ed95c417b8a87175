//! Whether an expression, or a statement itself, releases a value.

ghost use Rattle.std.specs.List.{list_any};
ghost use Rattle.std.specs.Prelude.{◌≡◌};
ghost use Rattle.jif_tree.specs.Trees.{expr_tree};
ghost use Rattle.need_labels.specs.Needs.{releases};
ghost use Rattle.releasing_statements.specs.Kinds.{own_exprs};

use jif_tree::{Expr, StmtKind};

/// Whether one of a statement's own expressions releases a value. Those in its blocks are not its own.
pub fn releases_itself(what: &StmtKind) -> bool
    ensures { result ≡ list_any releases (own_exprs what.now) }
{
    match what {
        StmtKind::Let { value, .. }
        | StmtKind::SetField { value, .. }
        | StmtKind::Return { value } => releases(value),
        StmtKind::SetElement { index, value, .. } => releases(index) || releases(value),
        StmtKind::If { guard, .. } | StmtKind::While { guard, .. } => releases(guard),
        StmtKind::Call { args, .. } => some_releases(args),
    }
}

/// Whether one of these expressions releases a value.
fn some_releases(exprs: &[Expr]) -> bool
    ensures { result ≡ list_any (λ expr. releases (expr_tree expr)) exprs.now }
{
    exprs.iter().any(|expr| releases(expr))
}

/// Whether a value is released in an expression: whether it holds a `declassify`.
pub fn releases(expr: &Expr) -> bool
    ensures { result ≡ releases (expr_tree expr.now) }
{
    match expr {
        Expr::Number(_) | Expr::Local(_) | Expr::Scalar(_) => false,
        Expr::Element(_, index) => releases(index),
        Expr::Binary(_, left, right) => releases(left) || releases(right),
        Expr::Not(operand) | Expr::Negate(operand) | Expr::Endorse(operand, _) => releases(operand),
        Expr::Declassify(_, _) => true,
    }
}
