//! For what the host of a statement has to be trusted by a principal.

ghost use Rattle.std.specs.Prelude.{◌≡◌, ◌<◌, length, List, map};
ghost use Rattle.std.specs.List.{list_any};
ghost use Rattle.js_base.specs.declared.ids.VarId.{VarId};
ghost use Rattle.principals.specs.ActsFor.{AreDeclared};
ghost use Rattle.jif_tree.specs.Trees.{BlockTree, block_tree, tree_before};
ghost use Rattle.need_labels.specs.Needs.{label_of, releases};
ghost use Rattle.place_reasons.specs.declared.reason.Needed.TheVariants as needed;
ghost use Rattle.place_reasons.specs.Firsts.{or_first, first_some};
ghost use Rattle.place_reasons.specs.Reasons.{change_backed, variable_backed, kept_backed, member_backed};
ghost use Rattle.place_reasons.specs.Reasons.{call_backed, changed_by, own_backed, block_backed, exprs_of};
ghost use Rattle.place_reasons.specs.Search.{site_is};

use crate::pairs::is_trusted_by;
use crate::reason::Needed;
use crate::site::HostSite;
use jif_tree::{Stmt, StmtKind, begin_label, field_label, params_of, tree_laws};
use js_base::{MethodId, PrincipalId, StmtId, VarId};
use label_lattice::{Label, READERS};
use label_reasons::acts_for;
use need_labels::label_of;
use releasing_statements::releases_itself;

/// For what the host of a statement has to be trusted, and by which statement: that one, or one in it.
#[derive(Clone, Copy, PartialEq, Eq)]
pub enum Backed {
    /// For what it changes.
    Change(Needed, StmtId),
    /// For a value that it releases by the authority of this principal.
    Release(PrincipalId, StmtId),
}

/// For what changes, where the principal trusts its label.
fn change_backed(
    principal: u8,
    here: StmtId,
    label: &Label,
    what: Needed,
    found: &mut Option<Backed>,
)
    requires { principal < READERS }
    ensures { found.new ≡ or_first found.old (change_backed principal here label.now what) }
{
    if found.is_none() && is_trusted_by(label, principal) {
        *found = Some(Backed::Change(what, here));
    }
}

/// For a variable that changes.
fn variable_backed(
    site: &HostSite<'_>,
    principal: u8,
    here: StmtId,
    variable: VarId,
    what: Needed,
    found: &mut Option<Backed>,
)
    requires { principal < READERS }
    ensures { found.new
        ≡ or_first found.old (variable_backed (site_is site.now) principal here (λ _. what) variable) }
{
    let label = label_of(site.checked, variable);
    change_backed(principal, here, &label, what, found);
}

/// For the parameters of a method that a call sets.
fn params_backed(
    site: &HostSite<'_>,
    principal: u8,
    here: StmtId,
    method: MethodId,
    params: &[VarId],
    found: &mut Option<Backed>,
)
    requires { principal < READERS }
    ensures { found.new ≡ or_first found.old
        (first_some (variable_backed (site_is site.now) principal here (λ x. needed.Parameter x method)) params.now) }
{
    for param in params {
        let what = Needed::Parameter(*param, method);
        variable_backed(site, principal, here, *param, what, found);
    }
}

/// For what a call changes.
fn call_backed(
    site: &HostSite<'_>,
    principal: u8,
    here: StmtId,
    method: MethodId,
    into: Option<VarId>,
    found: &mut Option<Backed>,
)
    requires { principal < READERS }
    ensures { found.new ≡ or_first found.old (call_backed (site_is site.now) principal here method into) }
{
    let program = &site.checked.program;
    let begin = begin_label(program, method);
    change_backed(principal, here, &begin, Needed::Begin(method), found);
    params_backed(
        site,
        principal,
        here,
        method,
        params_of(program, method),
        found,
    );
    if let Some(variable) = into {
        variable_backed(
            site,
            principal,
            here,
            variable,
            Needed::Variable(variable),
            found,
        );
    }
}

/// By a member of the authority of the method.
fn member_backed(
    site: &HostSite<'_>,
    principal: u8,
    here: StmtId,
    member: PrincipalId,
    found: &mut Option<Backed>,
)
    requires declared { principal < length site.now.principals.now.names }
    requires member { member.0 < length site.now.principals.now.names }
    ensures { found.new ≡ or_first found.old (member_backed site.now.principals.now principal here member) }
{
    if found.is_none() && acts_for(site.principals, member.0, principal) {
        *found = Some(Backed::Release(member, here));
    }
}

/// By the members of the authority of the method.
fn members_backed(site: &HostSite<'_>, principal: u8, here: StmtId, found: &mut Option<Backed>)
    requires declared { principal < length site.now.principals.now.names }
    requires authority { AreDeclared site.now.principals.now site.now.method.now.authority.items }
    ensures { found.new ≡ or_first found.old (first_some (member_backed site.now.principals.now principal here)
        site.now.method.now.authority.items) }
{
    for member in &site.method.authority {
        member_backed(site, principal, here, *member, found);
    }
}

/// Whether a value is released in the statement's own expressions.
fn statement_releases(statement: &Stmt) -> bool
    ensures { (rest : BlockTree) → result ≡ list_any releases (exprs_of (tree_before statement.now rest)) }
{
    releases_itself(&statement.kind)
}

/// For what a statement changes itself.
fn changed_by(site: &HostSite<'_>, principal: u8, statement: &Stmt, found: &mut Option<Backed>)
    requires { principal < READERS }
    ensures { (rest : BlockTree) → found.new
        ≡ or_first found.old (changed_by (site_is site.now) principal (tree_before statement.now rest)) }
{
    tree_laws();
    let here = statement.id;
    let program = &site.checked.program;
    match &statement.kind {
        StmtKind::Let { var, .. } => {
            variable_backed(site, principal, here, *var, Needed::Variable(*var), found)
        }
        StmtKind::SetField { field, .. } => {
            let label = field_label(program, *field);
            change_backed(principal, here, &label, Needed::Field(*field), found)
        }
        StmtKind::SetElement { field, .. } => {
            let label = field_label(program, *field);
            change_backed(principal, here, &label, Needed::Field(*field), found)
        }
        StmtKind::If { .. } => {}
        StmtKind::While { .. } => {}
        StmtKind::Call { method, into, .. } => {
            call_backed(site, principal, here, *method, *into, found)
        }
        StmtKind::Return { .. } => {
            if let Some(variable) = site.method.result {
                variable_backed(
                    site,
                    principal,
                    here,
                    variable,
                    Needed::Result(variable),
                    found,
                )
            }
        }
    }
}

/// For what a statement changes or releases itself.
fn own_backed(site: &HostSite<'_>, principal: u8, statement: &Stmt, found: &mut Option<Backed>)
    requires declared { principal < length site.now.principals.now.names }
    requires reader { principal < READERS }
    requires authority { AreDeclared site.now.principals.now site.now.method.now.authority.items }
    ensures { (rest : BlockTree) → found.new
        ≡ or_first found.old (own_backed (site_is site.now) principal (tree_before statement.now rest)) }
{
    changed_by(site, principal, statement, found);
    if statement_releases(statement) {
        members_backed(site, principal, statement.id, found);
    }
}

/// For what the statements of a block change or release.
#[cycle(blocks)]
fn block_backed(site: &HostSite<'_>, principal: u8, statements: &[Stmt], found: &mut Option<Backed>)
    requires declared { principal < length site.now.principals.now.names }
    requires reader { principal < READERS }
    requires authority { AreDeclared site.now.principals.now site.now.method.now.authority.items }
    ensures { found.new
        ≡ or_first found.old (block_backed (site_is site.now) principal (block_tree statements.now)) }
{
    for statement in statements {
        statement_backed(site, principal, statement, found);
    }
}

/// For what a statement and those in it change or release.
#[cycle(blocks)]
pub fn statement_backed(
    site: &HostSite<'_>,
    principal: u8,
    statement: &Stmt,
    found: &mut Option<Backed>,
)
    requires declared { principal < length site.now.principals.now.names }
    requires reader { principal < READERS }
    requires authority { AreDeclared site.now.principals.now site.now.method.now.authority.items }
    ensures { (rest : BlockTree) → or_first found.new (block_backed (site_is site.now) principal rest)
        ≡ or_first found.old (block_backed (site_is site.now) principal (tree_before statement.now rest)) }
{
    tree_laws();
    own_backed(site, principal, statement, found);
    match &statement.kind {
        StmtKind::If { yes, no, .. } => {
            block_backed(site, principal, yes, found);
            block_backed(site, principal, no, found);
        }
        StmtKind::While { body, .. } => block_backed(site, principal, body, found),
        StmtKind::Let { .. } => {}
        StmtKind::SetField { .. } => {}
        StmtKind::SetElement { .. } => {}
        StmtKind::Call { .. } => {}
        StmtKind::Return { .. } => {}
    }
}
