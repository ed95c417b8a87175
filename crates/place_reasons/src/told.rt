//! The first that the reads of a field tell and a host may not see.

ghost use Rattle.std.specs.Prelude.{◌≡◌, ◌<◌, IfOk, IsSome, IsTrue, None, OnOk, false, length};
ghost use Rattle.js_base.specs.declared.ids.FieldId.{FieldId};
ghost use Rattle.std.specs.Option.{option_map};
ghost use Rattle.jif_tree.specs.Trees.{BlockTree, expr_tree, block_tree, tree_before};
ghost use Rattle.place_reasons.specs.Firsts.{or_first, first_some};
ghost use Rattle.place_reasons.specs.declared.told.Told.TheVariants.{Read, Index};
ghost use Rattle.place_reasons.specs.Reasons.{pair_at, pc_at, label_at, run_told, index_told, told_in, own_told};
ghost use Rattle.place_reasons.specs.Reasons.{block_told};
ghost use Rattle.place_reasons.specs.Search.{IsSite, site_is, told_for};

use crate::pairs::pair_at;
use crate::site::{HostSite, label_at, pc_at};
use jif_tree::{Expr, Stmt, StmtKind, tree_laws};
use js_base::{FieldId, OutOfMemory, StmtId};
use label_reasons::Trait;
use std::alloc::Global;

/// What a read tells that a host may not see: the pair, and the statement that reads.
#[derive(Clone, Copy, PartialEq, Eq)]
pub enum Told {
    /// That it reads the field.
    Read(Trait, StmtId),
    /// Which element it reads.
    Index(Trait, StmtId),
}

/// What a read of a field tells: that the statement reads it.
fn run_told(alloc: Global, site: &HostSite<'_>, here: StmtId) -> Result<Option<Told>, OutOfMemory>
    ensures { IfOk result (λ told. told
        ≡ option_map (λ pair. Read pair here) (pair_at (site_is site.now) (pc_at (site_is site.now) here))) }
{
    let pc = pc_at(site, here);
    match pair_at(alloc, site, &pc)? {
        Some(pair) => Ok(Some(Told::Read(pair, here))),
        None => Ok(None),
    }
}

/// What a read of an element tells: which element.
fn index_told(
    alloc: Global,
    site: &HostSite<'_>,
    here: StmtId,
    index: &Expr,
) -> Result<Option<Told>, OutOfMemory>
    requires { IsSite site.now }
    ensures { IfOk result (λ told. told ≡ option_map (λ pair. Index pair here)
        (pair_at (site_is site.now) (label_at (site_is site.now) here (expr_tree index.now)))) }
{
    let label = label_at(site, here, index);
    match pair_at(alloc, site, &label)? {
        Some(pair) => Ok(Some(Told::Index(pair, here))),
        None => Ok(None),
    }
}

/// What was told of a field, where it is one of these.
pub fn told_for(found: &[Option<Told>], field: FieldId) -> Option<Told>
    ensures { result ≡ told_for found.now field }
{
    match found.get(field.0 as usize) {
        Some(told) => *told,
        None => None,
    }
}

/// Whether nothing was told yet of a field that is one of these.
fn is_open(found: &[Option<Told>], field: FieldId) -> bool
    ensures open { IsTrue result → (field.0 < length found.now) × (told_for found.now field ≡ None) }
    ensures told { field.0 < length found.now → result ≡ false → IsSome (told_for found.now field) }
{
    match found.get(field.0 as usize) {
        Some(told) => told.is_none(),
        None => false,
    }
}

/// Adds what a read tells, where nothing was told of its field yet: that the statement reads it.
fn or_run_told(
    alloc: Global,
    site: &HostSite<'_>,
    here: StmtId,
    field: FieldId,
    found: &mut [Option<Told>],
) -> Result<(), OutOfMemory>
    ensures { OnOk result ((wanted : FieldId) → wanted.0 < length found.old → told_for found.new wanted
        ≡ or_first (told_for found.old wanted) (run_told (site_is site.now) wanted here field)) }
{
    if is_open(found, field) {
        found[field.0 as usize] = run_told(alloc, site, here)?;
    }
    Ok(())
}

/// Adds what the index of a read tells, where nothing was told of its field yet.
fn or_index_told(
    alloc: Global,
    site: &HostSite<'_>,
    here: StmtId,
    field: FieldId,
    index: &Expr,
    found: &mut [Option<Told>],
) -> Result<(), OutOfMemory>
    requires { IsSite site.now }
    ensures { OnOk result ((wanted : FieldId) → wanted.0 < length found.old → told_for found.new wanted
        ≡ or_first (told_for found.old wanted)
        (index_told (site_is site.now) wanted here field (expr_tree index.now))) }
{
    if is_open(found, field) {
        found[field.0 as usize] = index_told(alloc, site, here, index)?;
    }
    Ok(())
}

/// What the reads of an expression tell.
#[cycle(reads)]
fn told_in(
    alloc: Global,
    site: &HostSite<'_>,
    here: StmtId,
    expr: &Expr,
    found: &mut [Option<Told>],
) -> Result<(), OutOfMemory>
    requires { IsSite site.now }
    ensures { OnOk result ((wanted : FieldId) → wanted.0 < length found.old → told_for found.new wanted
        ≡ or_first (told_for found.old wanted) (told_in (site_is site.now) wanted here (expr_tree expr.now))) }
{
    match expr {
        Expr::Number(_) | Expr::Local(_) => Ok(()),
        Expr::Scalar(field) => or_run_told(alloc, site, here, *field, found),
        Expr::Element(field, index) => {
            told_in(alloc, site, here, index, found)?;
            or_run_told(alloc, site, here, *field, found)?;
            or_index_told(alloc, site, here, *field, index, found)?;
            Ok(())
        }
        Expr::Not(operand) => told_in(alloc, site, here, operand, found),
        Expr::Negate(operand) => told_in(alloc, site, here, operand, found),
        Expr::Binary(_, left, right) => {
            told_in(alloc, site, here, left, found)?;
            told_in(alloc, site, here, right, found)
        }
        Expr::Declassify(operand, _) => told_in(alloc, site, here, operand, found),
        Expr::Endorse(operand, _) => told_in(alloc, site, here, operand, found),
    }
}

/// What the reads of some expressions tell.
fn told_in_all(
    alloc: Global,
    site: &HostSite<'_>,
    here: StmtId,
    values: &[Expr],
    found: &mut [Option<Told>],
) -> Result<(), OutOfMemory>
    requires { IsSite site.now }
    ensures { OnOk result ((wanted : FieldId) → wanted.0 < length found.old → told_for found.new wanted
        ≡ or_first (told_for found.old wanted)
        (first_some (λ value. told_in (site_is site.now) wanted here (expr_tree value)) values.now)) }
{
    for value in values {
        told_in(alloc, site, here, value, found)?;
    }
    Ok(())
}

/// What the reads of a statement's own expressions tell.
fn told_by(
    alloc: Global,
    site: &HostSite<'_>,
    statement: &Stmt,
    found: &mut [Option<Told>],
) -> Result<(), OutOfMemory>
    requires { IsSite site.now }
    ensures { OnOk result ((wanted : FieldId) (rest : BlockTree) → wanted.0 < length found.old →
        told_for found.new wanted ≡ or_first (told_for found.old wanted)
        (own_told (site_is site.now) wanted (tree_before statement.now rest))) }
{
    tree_laws();
    let here = statement.id;
    match &statement.kind {
        StmtKind::Let { value, .. } => told_in(alloc, site, here, value, found),
        StmtKind::SetField { value, .. } => told_in(alloc, site, here, value, found),
        StmtKind::SetElement { index, value, .. } => {
            told_in(alloc, site, here, index, found)?;
            told_in(alloc, site, here, value, found)
        }
        StmtKind::If { guard, .. } => told_in(alloc, site, here, guard, found),
        StmtKind::While { guard, .. } => told_in(alloc, site, here, guard, found),
        StmtKind::Call { args, .. } => {
            told_in_all(alloc, site, here, args, found)?;
            Ok(())
        }
        StmtKind::Return { value } => told_in(alloc, site, here, value, found),
    }
}

/// Adds what the reads of the statements of a block tell of these fields.
///
/// # Errors
/// That memory ran out.
#[cycle(blocks)]
pub fn block_told(
    alloc: Global,
    site: &HostSite<'_>,
    statements: &[Stmt],
    found: &mut [Option<Told>],
) -> Result<(), OutOfMemory>
    requires { IsSite site.now }
    ensures { OnOk result ((wanted : FieldId) → wanted.0 < length found.old → told_for found.new wanted
        ≡ or_first (told_for found.old wanted) (block_told (site_is site.now) wanted (block_tree statements.now))) }
{
    for statement in statements {
        statement_told(alloc, site, statement, found)?;
    }
    Ok(())
}

/// Adds what the reads of a statement and of those in it tell.
///
/// # Errors
/// That memory ran out.
#[cycle(blocks)]
fn statement_told(
    alloc: Global,
    site: &HostSite<'_>,
    statement: &Stmt,
    found: &mut [Option<Told>],
) -> Result<(), OutOfMemory>
    requires { IsSite site.now }
    ensures { OnOk result ((wanted : FieldId) (rest : BlockTree) → wanted.0 < length found.old →
        or_first (told_for found.new wanted) (block_told (site_is site.now) wanted rest)
        ≡ or_first (told_for found.old wanted)
        (block_told (site_is site.now) wanted (tree_before statement.now rest))) }
{
    tree_laws();
    told_by(alloc, site, statement, found)?;
    match &statement.kind {
        StmtKind::If { yes, no, .. } => {
            block_told(alloc, site, yes, found)?;
            block_told(alloc, site, no, found)?;
            Ok(())
        }
        StmtKind::While { body, .. } => {
            block_told(alloc, site, body, found)?;
            Ok(())
        }
        StmtKind::Let { .. } => Ok(()),
        StmtKind::SetField { .. } => Ok(()),
        StmtKind::SetElement { .. } => Ok(()),
        StmtKind::Call { .. } => Ok(()),
        StmtKind::Return { .. } => Ok(()),
    }
}
