//! What a program needs.

ghost use Rattle.std.specs.Prelude.{◌≡◌, ℕ, ◌∷◌, [], map, replicate, length, IfOk, OnOk};
ghost use Rattle.js_base.specs.declared.ids.StmtId.{StmtId};
ghost use Rattle.principals.specs.ActsFor.{AreDeclared};
ghost use Rattle.label_lattice.specs.Lattice.{bottom_of};
ghost use Rattle.jif_tree.specs.Trees.{program_tree, method_tree};
ghost use Rattle.need_labels.specs.Labelled.{Labelled, labelled_of};
ghost use Rattle.need_labels.specs.Needs.{AreAuthoritiesDeclared, AreNeedsOf, method_uses};
ghost use Rattle.need_labels.specs.Finding.{AreReads, AddsFound, labelled_at};

use crate::Needs;
use crate::backing::need_of;
use crate::place::{Found, Place, Reads};
use crate::statements::add_block;
use jif_tree::{Checked, Program};
use js_base::{OutOfMemory, StmtId};
use label_lattice::Label;
use principals::Principals;
use std::alloc::Global;

/// What the statements of a checked program need of the hosts that run them, what the reads of its fields tell, and who
/// reads its variables. It goes over the program once.
///
/// # Errors
/// That memory ran out.
pub fn needs_of(
    alloc: Global,
    checked: &Checked,
    principals: &Principals,
) -> Result<Needs, OutOfMemory>
    requires { AreAuthoritiesDeclared principals.now (program_tree checked.now.program) }
    ensures { IfOk result (λ needs. AreNeedsOf principals.now (labelled_of checked.now) needs) }
{
    let mut found = Found {
        used: Vec::with_capacity(alloc, checked.pc.len())?,
        need: Vec::with_capacity(alloc, checked.pc.len())?,
        reads: no_reads(alloc, &checked.program, principals)?,
    };
    for method in &checked.program.methods {
        let place = Place {
            principals,
            checked,
            method,
        };
        add_method(&place, &mut found)?;
    }
    Ok(Needs::new(found.used, found.need, found.reads.loc, found.reads.readers))
}

/// The rows of a program of which no read was found yet.
///
/// # Errors
/// That memory ran out.
fn no_reads(alloc: Global, program: &Program, principals: &Principals) -> Result<Reads, OutOfMemory>
    ensures { IfOk result (λ reads. (labelled : Labelled) → labelled.program ≡ program_tree program.now →
        (id : StmtId) → AreReads principals.now labelled [] id 1 [] [] reads) }
{
    Ok(Reads {
        loc: vec![in alloc; Label::bottom(principals); program.fields.len()]?,
        readers: no_readers(alloc, program.vars.len())?,
        marks: vec![in alloc; 0; program.vars.len()]?,
    })
}

/// For each variable nobody who reads it.
///
/// # Errors
/// That memory ran out.
fn no_readers(alloc: Global, vars: usize) -> Result<Vec<Vec<StmtId>>, OutOfMemory>
    ensures { IfOk result (λ rows. map (λ row. row.items) rows.items ≡ replicate vars []) }
{
    let mut rows = Vec::new(alloc);
    for _ in 0..vars {
        rows.push(Vec::new(alloc))?;
    }
    Ok(rows)
}

/// Adds the head of a method and its statements.
///
/// # Errors
/// That memory ran out.
fn add_method(place: &Place<'_>, found: &mut Found) -> Result<(), OutOfMemory>
    requires { AreDeclared place.now.principals.now place.now.method.now.authority.items }
    ensures { OnOk result (AddsFound place.now.principals.now (labelled_at place.now) found.old
        (method_uses place.now.principals.now (labelled_at place.now) (method_tree place.now.method.now)) found.new) }
{
    let begin = place.method.begin;
    found.used.push(begin)?;
    found.need.push(need_of(&begin))?;
    add_block(place, &place.method.body, found)?;
    Ok(())
}
