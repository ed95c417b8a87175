//! Why a host may not hold a field.

ghost use Rattle.std.specs.Prelude.{◌≡◌, ◌<◌, ◌^◌, IfOk, None, OnOk, length, replicate};
ghost use Rattle.js_base.specs.declared.ids.FieldId.{FieldId};
ghost use Rattle.jif_tree.specs.Trees.{method_tree, program_tree};
ghost use Rattle.label_reasons.specs.Traits.{IsTrait};
ghost use Rattle.need_labels.specs.Labelled.{labelled_of};
ghost use Rattle.place_reasons.specs.Firsts.{first_some, or_first};
ghost use Rattle.place_reasons.specs.Kept.{AreAnswers};
ghost use Rattle.place_reasons.specs.Search.{AreTold, IsSearch, told_for, told_pair};
ghost use Rattle.place_reasons.specs.Reasons.{method_told, told_reason, own_row, told_row, trust_row, field_reason};

use crate::kept::{KeptAnswers, answer_at};
use crate::pairs::{first_pair, first_untrusting};
use crate::question::Question;
use crate::reason::PlaceReason;
use crate::site::{Search, site_of};
use crate::told::{Told, block_told, told_for};
use jif_tree::{Checked, Program, field_label};
use js_base::{FieldId, OutOfMemory};
use label_lattice::Label;
use principals::Principals;
use std::alloc::Global;

/// What the label of the field keeps.
fn own_row(
    alloc: Global,
    principals: &Principals,
    checked: &Checked,
    host: &Label,
    field: FieldId,
) -> Result<Option<PlaceReason>, OutOfMemory>
    ensures { IfOk result (λ reason. reason ≡ own_row principals.now (labelled_of checked.now) host.now field) }
{
    let label = field_label(&checked.program, field);
    match first_pair(alloc, principals, &label, host)? {
        Some(pair) => Ok(Some(PlaceReason::Own(pair))),
        None => Ok(None),
    }
}

/// Nothing is told of so many fields.
fn nothing_told(alloc: Global, count: usize) -> Result<Vec<Option<Told>>, OutOfMemory>
    ensures { IfOk result (λ found. found.items ≡ replicate count None) }
{
    let mut found = Vec::new(alloc);
    for _ in 0..count {
        found.push(None)?;
    }
    Ok(found)
}

/// Adds what the reads of the methods tell of these fields.
fn methods_told<'a>(
    alloc: Global,
    search: &Search<'a>,
    host: &'a Label,
    found: &mut [Option<Told>],
) -> Result<(), OutOfMemory>
    requires { IsSearch search.now }
    ensures { OnOk result ((field : FieldId) → field.0 < length found.old → told_for found.new field
        ≡ or_first (told_for found.old field) (first_some (λ method. method_told search.now.principals.now
        (labelled_of search.now.checked.now) host.now field (method_tree method))
        search.now.checked.now.program.methods.items)) }
{
    for method in &search.checked.program.methods {
        let site = site_of(search, host, method);
        block_told(alloc, &site, &method.body, found)?;
    }
    Ok(())
}

/// For each field, the first that the reads of the program tell a host of this label and it may not see. One walk over
/// the program finds it for all fields.
///
/// # Errors
/// That memory ran out.
pub fn fields_told<'a>(
    alloc: Global,
    search: &Search<'a>,
    host: &'a Label,
) -> Result<Vec<Option<Told>>, OutOfMemory>
    requires { IsSearch search.now }
    ensures { IfOk result (λ found.
        AreTold search.now.principals.now (labelled_of search.now.checked.now) host.now found.items) }
{
    let mut found = nothing_told(alloc, search.checked.program.fields.len())?;
    methods_told(alloc, search, host, &mut found)?;
    Ok(found)
}

/// What is told, with what brings the pair in.
fn told_reason(
    alloc: Global,
    principals: &Principals,
    program: &Program,
    field: FieldId,
    told: Told,
    answers: &mut KeptAnswers,
) -> Result<PlaceReason, OutOfMemory>
    requires held { IsTrait (told_pair told) }
    requires few { length program.now.vars.items < 2 ^ 32 }
    requires few_methods { length program.now.methods.items < 2 ^ 32 }
    requires kept { AreAnswers principals.now (program_tree program.now) answers.old.kept.items }
    ensures reason { IfOk result (λ reason.
        reason ≡ told_reason principals.now (program_tree program.now) field told) }
    ensures kept { OnOk result (AreAnswers principals.now (program_tree program.now) answers.new.kept.items) }
{
    match told {
        Told::Read(pair, statement) => {
            let question = Question::OfRun;
            let cause = answer_at(
                alloc, principals, program, question, statement, pair, answers,
            )?;
            Ok(PlaceReason::Read(pair, statement, cause))
        }
        Told::Index(pair, statement) => {
            let question = Question::OfIndex(field);
            let cause = answer_at(
                alloc, principals, program, question, statement, pair, answers,
            )?;
            Ok(PlaceReason::Index(pair, statement, cause))
        }
    }
}

/// What the reads of the field tell, of which this is told.
fn told_row(
    alloc: Global,
    search: &Search<'_>,
    host: &Label,
    told: Option<Told>,
    field: FieldId,
    answers: &mut KeptAnswers,
) -> Result<Option<PlaceReason>, OutOfMemory>
    requires search { IsSearch search.now }
    requires told { told ≡ first_some
        (method_told search.now.principals.now (labelled_of search.now.checked.now) host.now field)
        (labelled_of search.now.checked.now).program.methods }
    requires kept { AreAnswers search.now.principals.now (program_tree search.now.checked.now.program)
        answers.old.kept.items }
    ensures reason { IfOk result (λ reason. reason
        ≡ told_row search.now.principals.now (labelled_of search.now.checked.now) host.now field) }
    ensures kept { OnOk result (AreAnswers search.now.principals.now (program_tree search.now.checked.now.program)
        answers.new.kept.items) }
{
    let principals = search.principals;
    let program = &search.checked.program;
    let _count = principals.count();
    match told {
        Some(told) => {
            let reason = told_reason(alloc, principals, program, field, told, answers)?;
            Ok(Some(reason))
        }
        None => Ok(None),
    }
}

/// Who trusts the field and not the host.
fn trust_row(
    principals: &Principals,
    checked: &Checked,
    host: &Label,
    field: FieldId,
) -> Option<PlaceReason>
    ensures { result ≡ trust_row principals.now (labelled_of checked.now) host.now field }
{
    match first_untrusting(principals, host, &field_label(&checked.program, field)) {
        Some(principal) => Some(PlaceReason::Untrusted(principal)),
        None => None,
    }
}

/// Why a host of this label may not hold the field: the first of what its own label keeps, of what its reads tell, and
/// of who trusts it. `None` where it may. What its reads tell is what `fields_told` found.
///
/// # Errors
/// That memory ran out.
pub fn field_reason(
    alloc: Global,
    search: &Search<'_>,
    host: &Label,
    told: &[Option<Told>],
    field: FieldId,
    answers: &mut KeptAnswers,
) -> Result<Option<PlaceReason>, OutOfMemory>
    requires search { IsSearch search.now }
    requires told { AreTold search.now.principals.now (labelled_of search.now.checked.now) host.now told.now }
    requires within { field.0 < length search.now.checked.now.program.fields.items }
    requires kept { AreAnswers search.now.principals.now (program_tree search.now.checked.now.program)
        answers.old.kept.items }
    ensures reason { IfOk result (λ reason. reason
        ≡ field_reason search.now.principals.now (labelled_of search.now.checked.now) host.now field) }
    ensures kept { OnOk result (AreAnswers search.now.principals.now (program_tree search.now.checked.now.program)
        answers.new.kept.items) }
{
    let (principals, checked) = (search.principals, search.checked);
    if let Some(reason) = own_row(alloc, principals, checked, host, field)? {
        return Ok(Some(reason));
    }
    let told = told_for(told, field);
    if let Some(reason) = told_row(alloc, search, host, told, field, answers)? {
        return Ok(Some(reason));
    }
    Ok(trust_row(principals, checked, host, field))
}
