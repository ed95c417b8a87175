//! Statements and blocks.

ghost use Rattle.std.specs.Prelude.{◌≡◌, ◌++◌, [], ◌∷◌, OnOk, IfErr};
ghost use Rattle.principals.specs.ActsFor.{AreDeclared};
ghost use Rattle.jif_tree.specs.Trees.{BlockTree, done, block_tree, tree_before};
ghost use Rattle.label_check.specs.declared.check_error.CheckError.TheVariants as error;
ghost use Rattle.label_check.specs.Parts.{RefusesFor};
ghost use Rattle.label_check.specs.Places.{asks_of, PassesTo};

use crate::CheckError;
use crate::assignments::{assign_element, assign_field, assign_variable, give_back};
use crate::calls::check_call;
use crate::guards::{enter_branch, enter_loop};
use crate::place::{Found, Place};
use jif_tree::{Stmt, StmtKind, tree_laws};
use label_lattice::Label;
use std::alloc::Global;

/// Checks the statements of a block under a program label.
#[cycle(blocks)]
pub fn check_block(
    alloc: Global,
    place: &Place<'_>,
    pc: &Label,
    statements: &[Stmt],
    found: &mut Found,
) -> Result<(), CheckError>
    requires { AreDeclared place.now.principals.now place.now.method.now.authority.items }
    ensures ok { OnOk result (PassesTo place.now pc.now found.old (block_tree statements.now) found.new done) }
    ensures err { IfErr result (RefusesFor place.now.principals.now
        (asks_of place.now pc.now found.old (block_tree statements.now))) }
{
    for statement in statements {
        check_statement(alloc, place, pc, statement, found)?;
    }
    Ok(())
}

/// Checks a statement under a program label, and those in it.
#[cycle(blocks)]
fn check_statement(
    alloc: Global,
    place: &Place<'_>,
    pc: &Label,
    statement: &Stmt,
    found: &mut Found,
) -> Result<(), CheckError>
    requires { AreDeclared place.now.principals.now place.now.method.now.authority.items }
    ensures ok { OnOk result ((rest : BlockTree) →
        PassesTo place.now pc.now found.old (tree_before statement.now rest) found.new rest) }
    ensures err { IfErr result (λ why. (rest : BlockTree) → RefusesFor place.now.principals.now
        (asks_of place.now pc.now found.old (tree_before statement.now rest)) why) }
{
    tree_laws();
    let id = statement.id;
    match &statement.kind {
        StmtKind::Let { var, value } => {
            assign_variable(place, id, pc, &mut found.labels, *var, value)?;
            push_label(&mut found.pcs, pc)
        }
        StmtKind::SetField { field, value } => {
            assign_field(place, id, pc, &found.labels, *field, value)?;
            push_label(&mut found.pcs, pc)
        }
        StmtKind::SetElement {
            field,
            index,
            value,
        } => {
            assign_element(place, id, pc, &found.labels, *field, index, value)?;
            push_label(&mut found.pcs, pc)
        }
        StmtKind::If { guard, yes, no } => {
            let inside = enter_branch(place, id, pc, &found.labels, guard, &mut found.pcs)?;
            check_block(alloc, place, &inside, yes, found)?;
            check_block(alloc, place, &inside, no, found)
        }
        StmtKind::While { guard, body } => {
            let inside = enter_loop(place, id, pc, &found.labels, guard, &mut found.pcs)?;
            check_block(alloc, place, &inside, body, found)
        }
        StmtKind::Call {
            method,
            args,
            into,
            ..
        } => {
            check_call(alloc, place, id, pc, &found.labels, *method, args, *into)?;
            push_label(&mut found.pcs, pc)
        }
        StmtKind::Return { value } => {
            give_back(place, id, pc, &found.labels, value)?;
            push_label(&mut found.pcs, pc)
        }
    }
}

/// Adds the program label of a statement.
fn push_label(pcs: &mut Vec<Label>, pc: &Label) -> Result<(), CheckError>
    ensures ok { OnOk result (pcs.new.items ≡ pcs.old.items ++ pc.now ∷ []) }
    ensures err { IfErr result (λ why. why ≡ error.OutOfMemory) }
{
    pcs.push(*pc)?;
    Ok(())
}
