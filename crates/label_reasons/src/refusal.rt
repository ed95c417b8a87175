//! Why the labels of a program are refused.

ghost use Rattle.std.specs.Prelude.{◌≡◌, ◌<◌, ◌^◌, All, Some, IfOk, length};
ghost use Rattle.std.specs.List.{filter_map};
ghost use Rattle.js_base.specs.declared.ids.VarId.{VarId};
ghost use Rattle.principals.specs.ActsFor.{AreDeclared};
ghost use Rattle.jif_tree.specs.Trees.{program_tree, method_tree};
ghost use Rattle.jif_tree.specs.LabelRules.{declared_labels};
ghost use Rattle.label_check.specs.Checking.{AreAuthorities};
ghost use Rattle.label_reasons.specs.Traits.{IsTrait};
ghost use Rattle.label_reasons.specs.Causes.{declared_causes, label_cause};
ghost use Rattle.label_reasons.specs.Asks.{Ask};
ghost use Rattle.label_reasons.specs.Listed.{all_pairs, all_distrusts};
ghost use Rattle.label_reasons.specs.Reasons.{reason_of, explained};
ghost use Rattle.label_reasons.specs.Search.{listed_cause, AreCausesKnown, WalksMethod, Locates, authority_of};
ghost use Rattle.label_reasons.specs.Search.{found_cause};
ghost use Rattle.label_reasons.specs.Search.{IsFirstRefused, seen_refusal};

use crate::listed_traits::listed;
use crate::reason::{Cause, Reason, Source, Trait, Wanted};
use crate::search::search_block;
use crate::search_place::{Found, Known, Located, Place, Stand};
use crate::traits::{all_distrusts, all_pairs};
use crate::values::cause_where;
use jif_tree::{Method, Program};
use js_base::{MethodId, OutOfMemory, PrincipalId, StmtId, VarId};
use label_lattice::Label;
use principals::Principals;
use std::alloc::Global;

/// Why a statement is refused.
#[derive(Drop)]
pub struct Refusal {
    pub statement: StmtId,
    /// What it wants.
    pub wanted: Wanted,
    /// Why it may not: pairs by owners, and then principals, in declared order. Some are there.
    pub reasons: Vec<Reason>,
}

/// What brings the trait into a variable that is declared with a label.
fn declared_cause(held: Trait, label: &Option<Label>, var: VarId) -> Option<Cause>
    requires { IsTrait held }
    ensures { result ≡ label_cause held var (Some label.now) }
{
    match label {
        Some(label) => cause_where(held, label, Source::OfVariable(var)),
        None => None,
    }
}

/// What is known of variables where a program begins.
///
/// # Errors
/// That memory ran out.
pub fn declared(alloc: Global, program: &Program, held: Trait) -> Result<Known, OutOfMemory>
    requires held { IsTrait held }
    requires few { length program.now.vars.items < 2 ^ 32 }
    ensures labels { IfOk result (λ known. known.labels.items ≡ declared_labels (program_tree program.now)) }
    ensures causes { IfOk result (λ known. (x : VarId) →
        listed_cause known.causes.items x ≡ declared_causes held (declared_labels (program_tree program.now)) x) }
    ensures long { IfOk result AreCausesKnown }
{
    let mut labels = Vec::new(alloc);
    let mut causes = Vec::new(alloc);
    let mut number = 0;
    for var in &program.vars {
        labels.push(var.label)?;
        causes.push(declared_cause(held, &var.label, VarId(number)))?;
        number += 1;
    }
    Ok(Known { labels, causes })
}

/// What is asked for where a method is refused.
fn search_method(
    principals: &Principals,
    program: &Program,
    number: u32,
    method: &Method,
    held: Trait,
    pairs: &[Trait],
    distrusts: &[Trait],
    known: &mut Known,
) -> Option<Found>
    requires held { IsTrait held }
    requires authority { AreDeclared principals.now method.now.authority.items }
    requires pairs { pairs.now ≡ all_pairs principals.now }
    requires distrusts { distrusts.now ≡ all_distrusts principals.now }
    requires known { AreCausesKnown known.old }
    ensures { WalksMethod principals.now (program_tree program.now) held number (method_tree method.now) known.old
        known.new result }
{
    let place = Place {
        principals,
        program,
        method,
        held,
        pairs,
        distrusts,
    };
    let stand = Stand {
        pc: method.begin,
        of_pc: cause_where(held, &method.begin, Source::OfBegin(MethodId(number))),
    };
    let mut found = None;
    search_block(&place, &stand, &method.body, known, &mut found);
    found
}

/// What the first refused statement asks for, and what brings the trait in.
fn search(
    alloc: Global,
    principals: &Principals,
    program: &Program,
    held: Trait,
    pairs: &[Trait],
    distrusts: &[Trait],
) -> Result<Option<Located>, OutOfMemory>
    requires held { IsTrait held }
    requires authority { AreAuthorities principals.now (program_tree program.now) }
    requires pairs { pairs.now ≡ all_pairs principals.now }
    requires distrusts { distrusts.now ≡ all_distrusts principals.now }
    requires few { length program.now.vars.items < 2 ^ 32 }
    requires few_methods { length program.now.methods.items < 2 ^ 32 }
    ensures { IfOk result (Locates principals.now (program_tree program.now) held) }
{
    let mut known = declared(alloc, program, held)?;
    for (number, method) in program.methods.iter().enumerate() {
        let found = search_method(
            principals,
            program,
            number as u32,
            method,
            held,
            pairs,
            distrusts,
            &mut known,
        );
        match found {
            Some(found) => {
                return Ok(Some(Located {
                    method: number,
                    found,
                }));
            }
            None => {}
        }
    }
    Ok(None)
}

/// By whose authority the method at a place releases and endorses.
fn authority_of(program: &Program, place: usize) -> &[PrincipalId]
    ensures { result.now ≡ authority_of (program_tree program.now) place }
{
    match program.methods.get(place) {
        Some(method) => &method.authority,
        None => &[],
    }
}

/// What is held where it may not be, and what was found to bring it in.
fn found_reason(held: Trait, located: Option<Located>) -> Option<Reason>
    ensures { result ≡ reason_of (λ _. found_cause located) held }
{
    match located {
        Some(located) => match located.found.cause {
            Some(cause) => Some(Reason { held, cause }),
            None => None,
        },
        None => None,
    }
}

/// Why the first refused statement is, by one of what is held where it may not be.
fn reason_by(
    alloc: Global,
    principals: &Principals,
    program: &Program,
    held: Trait,
    pairs: &[Trait],
    distrusts: &[Trait],
) -> Result<Option<Reason>, OutOfMemory>
    requires held { IsTrait held }
    requires authority { AreAuthorities principals.now (program_tree program.now) }
    requires pairs { pairs.now ≡ all_pairs principals.now }
    requires distrusts { distrusts.now ≡ all_distrusts principals.now }
    requires few { length program.now.vars.items < 2 ^ 32 }
    requires few_methods { length program.now.methods.items < 2 ^ 32 }
    ensures { IfOk result (λ reason. (ask : Ask) → IsFirstRefused principals.now (program_tree program.now) ask →
        reason ≡ reason_of ask.cause held) }
{
    let located = search(alloc, principals, program, held, pairs, distrusts)?;
    Ok(found_reason(held, located))
}

/// Why the first refused statement is, by what is held where it may not be.
fn reasons_of(
    alloc: Global,
    principals: &Principals,
    program: &Program,
    traits: &[Trait],
    pairs: &[Trait],
    distrusts: &[Trait],
) -> Result<Vec<Reason>, OutOfMemory>
    requires held { All IsTrait traits.now }
    requires authority { AreAuthorities principals.now (program_tree program.now) }
    requires pairs { pairs.now ≡ all_pairs principals.now }
    requires distrusts { distrusts.now ≡ all_distrusts principals.now }
    requires few { length program.now.vars.items < 2 ^ 32 }
    requires few_methods { length program.now.methods.items < 2 ^ 32 }
    ensures { IfOk result (λ reasons. (ask : Ask) → IsFirstRefused principals.now (program_tree program.now) ask →
        reasons.items ≡ filter_map (reason_of ask.cause) traits.now) }
{
    let mut reasons = Vec::new(alloc);
    for held in traits {
        match reason_by(alloc, principals, program, *held, pairs, distrusts)? {
            Some(reason) => reasons.push(reason)?,
            None => {}
        }
    }
    Ok(reasons)
}

/// Why the labels of a program are refused: the first statement that asks for what fails, and why it does. `None`
/// where nothing fails.
///
/// # Errors
/// That memory ran out.
pub fn label_refusal(
    alloc: Global,
    program: &Program,
    principals: &Principals,
) -> Result<Option<Refusal>, OutOfMemory>
    requires authority { AreAuthorities principals.now (program_tree program.now) }
    requires few { length program.now.vars.items < 2 ^ 32 }
    requires few_methods { length program.now.methods.items < 2 ^ 32 }
    ensures { IfOk result (λ refusal. seen_refusal refusal ≡ explained principals.now (program_tree program.now)) }
{
    let _count = principals.count();
    let pairs = all_pairs(alloc, principals)?;
    let distrusts = all_distrusts(alloc, principals)?;
    // Which trait is looked for makes no difference to what is refused.
    let located = search(
        alloc,
        principals,
        program,
        Trait::Distrusts(0),
        &pairs,
        &distrusts,
    )?;
    let Some(located) = located else {
        return Ok(None);
    };
    let authority = authority_of(program, located.method);
    let demand = &located.found.demand;
    let traits = listed(alloc, principals, authority, demand, &pairs, &distrusts)?;
    let reasons = reasons_of(alloc, principals, program, &traits, &pairs, &distrusts)?;
    Ok(Some(Refusal {
        statement: located.found.statement,
        wanted: located.found.wanted,
        reasons,
    }))
}
