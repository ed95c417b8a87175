//! Why a host may not hold a statement or the head of a method.

ghost use Rattle.std.specs.Prelude.{◌≡◌, ◌<◌, ◌^◌, IfOk, OnOk, length, map};
ghost use Rattle.principals.specs.ActsFor.{AreDeclared};
ghost use Rattle.jif_tree.specs.Trees.{done, program_tree, method_tree, tree_before};
ghost use Rattle.need_labels.specs.Labelled.{labelled_of, all_labels};
ghost use Rattle.place_reasons.specs.Firsts.{or_first, first_some};
ghost use Rattle.place_reasons.specs.Reasons.{run_row, use_row, kept_row, told_by_call, call_row, need_of};
ghost use Rattle.place_reasons.specs.Reasons.{need_row, backed_reason, statement_reason, head_reason};
ghost use Rattle.place_reasons.specs.Kept.{AreAnswers};
ghost use Rattle.place_reasons.specs.Search.{IsSearch, IsSite, site_is};

use crate::backed::{Backed, statement_backed};
use crate::kept::{KeptAnswers, answer_at};
use crate::pairs::{first_pair, first_untrusting, is_trusted_by, pair_at};
use crate::question::Question;
use crate::reason::{Needed, PlaceReason};
use crate::site::{HostSite, Search, pc_at, site_of};
use crate::uses::used_by;
use jif_tree::{Method, Stmt, StmtKind, begin_label, result_of, tree_laws};
use js_base::{MethodId, OutOfMemory, StmtId, VarId};
use label_lattice::Label;
use label_reasons::Trait;
use need_labels::label_of;
use principals::Principals;
use std::alloc::Global;

/// What the program label of a statement keeps.
fn run_row(
    alloc: Global,
    site: &HostSite<'_>,
    statement: &Stmt,
    answers: &mut KeptAnswers,
) -> Result<Option<PlaceReason>, OutOfMemory>
    requires few { length site.now.checked.now.program.vars.items < 2 ^ 32 }
    requires few_methods { length site.now.checked.now.program.methods.items < 2 ^ 32 }
    requires kept { AreAnswers site.now.principals.now (program_tree site.now.checked.now.program)
        answers.old.kept.items }
    ensures reason { IfOk result (λ reason.
        reason ≡ run_row (site_is site.now) (tree_before statement.now done)) }
    ensures kept { OnOk result (AreAnswers site.now.principals.now (program_tree site.now.checked.now.program)
        answers.new.kept.items) }
{
    let here = statement.id;
    let program = &site.checked.program;
    let _count = site.principals.count();
    let pc = pc_at(site, here);
    let found = pair_at(alloc, site, &pc)?;
    match found {
        Some(pair) => {
            let question = Question::OfRun;
            let cause = answer_at(
                alloc,
                site.principals,
                program,
                question,
                here,
                pair,
                answers,
            )?;
            Ok(Some(PlaceReason::Runs(pair, cause)))
        }
        None => Ok(None),
    }
}

/// What the expressions of a statement keep.
fn use_row(
    alloc: Global,
    site: &HostSite<'_>,
    statement: &Stmt,
    answers: &mut KeptAnswers,
) -> Result<Option<PlaceReason>, OutOfMemory>
    requires labels { IsSite site.now }
    requires few { length site.now.checked.now.program.vars.items < 2 ^ 32 }
    requires few_methods { length site.now.checked.now.program.methods.items < 2 ^ 32 }
    requires kept { AreAnswers site.now.principals.now (program_tree site.now.checked.now.program)
        answers.old.kept.items }
    ensures reason { IfOk result (λ reason.
        reason ≡ use_row (site_is site.now) (tree_before statement.now done)) }
    ensures kept { OnOk result (AreAnswers site.now.principals.now (program_tree site.now.checked.now.program)
        answers.new.kept.items) }
{
    let here = statement.id;
    let program = &site.checked.program;
    let _count = site.principals.count();
    let mut found = None;
    used_by(alloc, site, statement, &mut found)?;
    match found {
        Some(pair) => {
            let question = Question::OfUse;
            let cause = answer_at(
                alloc,
                site.principals,
                program,
                question,
                here,
                pair,
                answers,
            )?;
            Ok(Some(PlaceReason::Uses(pair, cause)))
        }
        None => Ok(None),
    }
}

/// What a call gives back, where it is kept.
fn kept_row(
    alloc: Global,
    site: &HostSite<'_>,
    method: MethodId,
    into: Option<VarId>,
    kept: Option<VarId>,
) -> Result<Option<PlaceReason>, OutOfMemory>
    ensures { IfOk result (λ reason. reason ≡ kept_row (site_is site.now) method into kept) }
{
    match (into, kept) {
        (Some(_), Some(variable)) => {
            let label = label_of(site.checked, variable);
            match pair_at(alloc, site, &label)? {
                Some(pair) => Ok(Some(PlaceReason::CallGives(pair, method))),
                None => Ok(None),
            }
        }
        _ => Ok(None),
    }
}

/// What a call tells beside its arguments.
fn told_by_call(
    alloc: Global,
    site: &HostSite<'_>,
    method: MethodId,
    into: Option<VarId>,
) -> Result<Option<PlaceReason>, OutOfMemory>
    ensures { IfOk result (λ reason. reason ≡ told_by_call (site_is site.now) method into) }
{
    let program = &site.checked.program;
    let begin = begin_label(program, method);
    match pair_at(alloc, site, &begin)? {
        Some(pair) => Ok(Some(PlaceReason::CallBegins(pair, method))),
        None => {
            let reason = kept_row(alloc, site, method, into, result_of(program, method))?;
            Ok(reason)
        }
    }
}

/// What a statement tells beside its expressions.
fn call_row(
    alloc: Global,
    site: &HostSite<'_>,
    statement: &Stmt,
) -> Result<Option<PlaceReason>, OutOfMemory>
    ensures { IfOk result (λ reason.
        reason ≡ call_row (site_is site.now) (tree_before statement.now done)) }
{
    tree_laws();
    match &statement.kind {
        StmtKind::Call { method, into, .. } => {
            let reason = told_by_call(alloc, site, *method, *into)?;
            Ok(reason)
        }
        StmtKind::Let { .. } => Ok(None),
        StmtKind::SetField { .. } => Ok(None),
        StmtKind::SetElement { .. } => Ok(None),
        StmtKind::If { .. } => Ok(None),
        StmtKind::While { .. } => Ok(None),
        StmtKind::Return { .. } => Ok(None),
    }
}

/// For what a principal has to trust the host.
fn backed_reason(principal: u8, backed: Backed) -> PlaceReason
    ensures { result ≡ backed_reason principal backed }
{
    match backed {
        Backed::Change(what, here) => PlaceReason::Needs(principal, what, here),
        Backed::Release(member, here) => PlaceReason::Releases(member, principal, here),
    }
}

/// Why a principal has to trust the host, where it does not.
fn need_of(site: &HostSite<'_>, statement: &Stmt, principal: u8) -> Option<PlaceReason>
    requires declared { principal < length site.now.principals.now.names }
    requires authority { AreDeclared site.now.principals.now site.now.method.now.authority.items }
    ensures { result ≡ need_of (site_is site.now) (tree_before statement.now done) principal }
{
    let _count = site.principals.count();
    if is_trusted_by(site.host, principal) {
        return None;
    }
    let mut found = None;
    statement_backed(site, principal, statement, &mut found);
    match found {
        Some(backed) => Some(backed_reason(principal, backed)),
        None => None,
    }
}

/// What was found, and otherwise why a principal has to trust the host.
fn or_need(
    found: Option<PlaceReason>,
    site: &HostSite<'_>,
    statement: &Stmt,
    principal: u8,
) -> Option<PlaceReason>
    requires declared { principal < length site.now.principals.now.names }
    requires authority { AreDeclared site.now.principals.now site.now.method.now.authority.items }
    ensures { result ≡ or_first found (need_of (site_is site.now) (tree_before statement.now done) principal) }
{
    match found {
        Some(_) => found,
        None => need_of(site, statement, principal),
    }
}

/// The first principal that has to trust the host and does not.
fn need_row(site: &HostSite<'_>, statement: &Stmt) -> Option<PlaceReason>
    requires { AreDeclared site.now.principals.now site.now.method.now.authority.items }
    ensures { result ≡ need_row (site_is site.now) (tree_before statement.now done) }
{
    let mut found = None;
    for principal in 0..site.principals.count() {
        found = or_need(found, site, statement, principal);
    }
    found
}

/// Why a host may not hold a statement of a site.
fn reason_at(
    alloc: Global,
    site: &HostSite<'_>,
    statement: &Stmt,
    answers: &mut KeptAnswers,
) -> Result<Option<PlaceReason>, OutOfMemory>
    requires labels { IsSite site.now }
    requires authority { AreDeclared site.now.principals.now site.now.method.now.authority.items }
    requires few { length site.now.checked.now.program.vars.items < 2 ^ 32 }
    requires few_methods { length site.now.checked.now.program.methods.items < 2 ^ 32 }
    requires kept { AreAnswers site.now.principals.now (program_tree site.now.checked.now.program)
        answers.old.kept.items }
    ensures reason { IfOk result (λ reason. reason ≡ or_first
        (run_row (site_is site.now) (tree_before statement.now done))
        (or_first (use_row (site_is site.now) (tree_before statement.now done))
        (or_first (call_row (site_is site.now) (tree_before statement.now done))
        (need_row (site_is site.now) (tree_before statement.now done))))) }
    ensures kept { OnOk result (AreAnswers site.now.principals.now (program_tree site.now.checked.now.program)
        answers.new.kept.items) }
{
    if let Some(reason) = run_row(alloc, site, statement, answers)? {
        return Ok(Some(reason));
    }
    if let Some(reason) = use_row(alloc, site, statement, answers)? {
        return Ok(Some(reason));
    }
    if let Some(reason) = call_row(alloc, site, statement)? {
        return Ok(Some(reason));
    }
    Ok(need_row(site, statement))
}

/// Why a host of this label may not hold a statement of a method: the first of what its program label keeps, of what
/// its expressions and its call keep, and of who has to trust the host, also for the statements in it. `None` where it
/// may.
///
/// # Errors
/// That memory ran out.
pub fn statement_reason<'a>(
    alloc: Global,
    search: &Search<'a>,
    host: &'a Label,
    method: &'a Method,
    statement: &Stmt,
    answers: &mut KeptAnswers,
) -> Result<Option<PlaceReason>, OutOfMemory>
    requires search { IsSearch search.now }
    requires authority { AreDeclared search.now.principals.now method.now.authority.items }
    requires kept { AreAnswers search.now.principals.now (program_tree search.now.checked.now.program)
        answers.old.kept.items }
    ensures reason { IfOk result (λ reason. reason ≡ statement_reason search.now.principals.now
        (labelled_of search.now.checked.now) host.now (method_tree method.now) (tree_before statement.now done)) }
    ensures kept { OnOk result (AreAnswers search.now.principals.now (program_tree search.now.checked.now.program)
        answers.new.kept.items) }
{
    let site = site_of(search, host, method);
    reason_at(alloc, &site, statement, answers)
}

/// Why a host of this label may not hold the head of a method, which stands for how it begins. `None` where it may.
///
/// # Errors
/// That memory ran out.
pub fn head_reason(
    alloc: Global,
    principals: &Principals,
    host: &Label,
    method: &Method,
) -> Result<Option<PlaceReason>, OutOfMemory>
    ensures { IfOk result (λ reason. reason ≡ head_reason principals.now host.now (method_tree method.now)) }
{
    if let Some(pair) = first_pair(alloc, principals, &method.begin, host)? {
        return Ok(Some(PlaceReason::Begins(pair)));
    }
    match first_untrusting(principals, host, &method.begin) {
        Some(principal) => {
            let head = method.head;
            Ok(Some(PlaceReason::Needs(principal, Needed::Head, head)))
        }
        None => Ok(None),
    }
}
