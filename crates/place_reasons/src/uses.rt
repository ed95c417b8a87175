//! The first that a statement's own expressions tell and a host may not see.

ghost use Rattle.std.specs.Prelude.{◌≡◌, OnOk};
ghost use Rattle.jif_tree.specs.Trees.{BlockTree, expr_tree, tree_before};
ghost use Rattle.place_reasons.specs.Firsts.{or_first, first_some};
ghost use Rattle.place_reasons.specs.Reasons.{own_use, used_inside, used_in, used_by, exprs_of};
ghost use Rattle.place_reasons.specs.Search.{IsSite, site_is};

use crate::pairs::pair_at;
use crate::site::{HostSite, label_at};
use jif_tree::{Expr, Stmt, StmtKind, tree_laws};
use js_base::{OutOfMemory, StmtId};
use label_reasons::Trait;
use std::alloc::Global;

/// The first pair of an expression's own label.
fn own_use(
    alloc: Global,
    site: &HostSite<'_>,
    here: StmtId,
    expr: &Expr,
    found: &mut Option<Trait>,
) -> Result<(), OutOfMemory>
    requires { IsSite site.now }
    ensures { OnOk result (found.new ≡ or_first found.old (own_use (site_is site.now) here (expr_tree expr.now))) }
{
    match found {
        Some(_) => {}
        None => {
            let label = label_at(site, here, expr);
            *found = pair_at(alloc, site, &label)?;
        }
    }
    Ok(())
}

/// The first pair of the first of the expressions inside an expression.
#[cycle(uses)]
fn used_inside(
    alloc: Global,
    site: &HostSite<'_>,
    here: StmtId,
    expr: &Expr,
    found: &mut Option<Trait>,
) -> Result<(), OutOfMemory>
    requires { IsSite site.now }
    ensures { OnOk result (found.new ≡ or_first found.old (used_inside (site_is site.now) here (expr_tree expr.now))) }
{
    match expr {
        Expr::Number(_) | Expr::Local(_) | Expr::Scalar(_) => Ok(()),
        Expr::Element(_, index) => { used_in(alloc, site, here, index, found) }
        Expr::Not(operand) => { used_in(alloc, site, here, operand, found) }
        Expr::Negate(operand) => { used_in(alloc, site, here, operand, found) }
        Expr::Binary(_, left, right) => {
            used_in(alloc, site, here, left, found)?;
            used_in(alloc, site, here, right, found)
        }
        Expr::Declassify(operand, _) => { used_in(alloc, site, here, operand, found) }
        Expr::Endorse(operand, _) => { used_in(alloc, site, here, operand, found) }
    }
}

/// The first pair of the first of the expressions in an expression, of which it is the last.
#[cycle(uses)]
fn used_in(
    alloc: Global,
    site: &HostSite<'_>,
    here: StmtId,
    expr: &Expr,
    found: &mut Option<Trait>,
) -> Result<(), OutOfMemory>
    requires { IsSite site.now }
    ensures { OnOk result (found.new ≡ or_first found.old (used_in (site_is site.now) here (expr_tree expr.now))) }
{
    used_inside(alloc, site, here, expr, found)?;
    own_use(alloc, site, here, expr, found)
}

/// The same of some expressions.
fn used_in_all(
    alloc: Global,
    site: &HostSite<'_>,
    here: StmtId,
    values: &[Expr],
    found: &mut Option<Trait>,
) -> Result<(), OutOfMemory>
    requires { IsSite site.now }
    ensures { OnOk result (found.new ≡ or_first found.old
        (first_some (λ value. used_in (site_is site.now) here (expr_tree value)) values.now)) }
{
    for value in values {
        used_in(alloc, site, here, value, found)?;
    }
    Ok(())
}

/// The same of a statement's own expressions.
///
/// # Errors
/// That memory ran out.
pub fn used_by(
    alloc: Global,
    site: &HostSite<'_>,
    statement: &Stmt,
    found: &mut Option<Trait>,
) -> Result<(), OutOfMemory>
    requires { IsSite site.now }
    ensures { OnOk result ((rest : BlockTree) → found.new ≡ or_first found.old
        (used_by (site_is site.now) statement.now.id (exprs_of (tree_before statement.now rest)))) }
{
    tree_laws();
    let here = statement.id;
    match &statement.kind {
        StmtKind::Let { value, .. } => used_in(alloc, site, here, value, found),
        StmtKind::SetField { value, .. } => used_in(alloc, site, here, value, found),
        StmtKind::SetElement { index, value, .. } => {
            used_in(alloc, site, here, index, found)?;
            used_in(alloc, site, here, value, found)
        }
        StmtKind::If { guard, .. } => used_in(alloc, site, here, guard, found),
        StmtKind::While { guard, .. } => used_in(alloc, site, here, guard, found),
        StmtKind::Call { args, .. } => {
            used_in_all(alloc, site, here, args, found)?;
            Ok(())
        }
        StmtKind::Return { value } => used_in(alloc, site, here, value, found),
    }
}
