//! Whether a program is well labelled.

ghost use Rattle.std.specs.Prelude.{◌≡◌, ◌∷◌, [], List, map, OnOk, IfOk, IfErr};
ghost use Rattle.principals.specs.ActsFor.{AreDeclared};
ghost use Rattle.jif_tree.specs.Trees.{MethodTree, program_tree, method_tree};
ghost use Rattle.label_check.specs.Checking.{AreAuthorities, IsChecked, IsLabelRefusedFor};
ghost use Rattle.label_check.specs.Parts.{RefusesFor};
ghost use Rattle.label_check.specs.Places.{PassesMethods, asks_of_methods};

use crate::CheckError;
use crate::place::{Found, Place};
use crate::statements::check_block;
use crate::variables::{declared_labels, given_labels};
use jif_tree::{Checked, Method, Program};
use principals::Principals;
use std::alloc::Global;

/// The program, with the label of each variable and the program label of each statement, where it is well labelled.
///
/// # Errors
/// The first rule that fails: by statements in the order of the text; within one first what its expressions ask for,
/// inner before outer and from the left, then the begin label of a called method, then flows from the left. Or that
/// memory ran out.
pub fn check(
    alloc: Global,
    program: Program,
    principals: &Principals,
) -> Result<Checked, CheckError>
    requires { AreAuthorities principals.now (program_tree program) }
    ensures accepted { IfOk result (IsChecked principals.now program) }
    ensures refused { IfErr result (IsLabelRefusedFor principals.now (program_tree program)) }
{
    let labels = declared_labels(alloc, &program)?;
    let pcs = Vec::new(alloc);
    let mut found = Found { labels, pcs };
    check_methods(alloc, principals, &program, &mut found)?;
    let var_labels = given_labels(alloc, &found.labels)?;
    Ok(Checked {
        program,
        var_labels,
        pc: found.pcs,
    })
}

/// Checks the methods of a program.
fn check_methods(
    alloc: Global,
    principals: &Principals,
    program: &Program,
    found: &mut Found,
) -> Result<(), CheckError>
    requires { AreAuthorities principals.now (program_tree program.now) }
    ensures ok { OnOk result (PassesMethods principals.now (program_tree program.now) found.old
        (map method_tree program.now.methods.items) found.new []) }
    ensures err { IfErr result (RefusesFor principals.now (asks_of_methods principals.now (program_tree program.now)
        found.old (map method_tree program.now.methods.items))) }
{
    for method in &program.methods {
        check_method(alloc, principals, program, method, found)?;
    }
    Ok(())
}

/// Checks a method. Its head counts as a statement, whose program label is the begin label.
fn check_method(
    alloc: Global,
    principals: &Principals,
    program: &Program,
    method: &Method,
    found: &mut Found,
) -> Result<(), CheckError>
    requires { AreDeclared principals.now method.now.authority.items }
    ensures ok { OnOk result ((rest : List MethodTree) → PassesMethods principals.now (program_tree program.now)
        found.old (method_tree method.now ∷ rest) found.new rest) }
    ensures err { IfErr result (λ why. (rest : List MethodTree) → RefusesFor principals.now
        (asks_of_methods principals.now (program_tree program.now) found.old (method_tree method.now ∷ rest)) why) }
{
    found.pcs.push(method.begin)?;
    let place = Place {
        principals,
        program,
        method,
    };
    check_block(alloc, &place, &method.begin, &method.body, found)
}
