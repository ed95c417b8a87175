//! Which hosts may hold what.

ghost use Rattle.std.specs.Prelude.{◌≡◌, ◌==◌, ◌≤◌, ◌⊎◌, IfOk, IfErr, length, map, position};
ghost use Rattle.std.specs.List.{AllZip, zip};
ghost use Rattle.jif_tree.specs.Trees.{field_tree};
ghost use Rattle.need_labels.specs.Labelled.{labelled_of};
ghost use Rattle.place_rules.specs.PlaceRules.{MayHoldField, MayHoldStatement, IsWordOf, AreAllowed};
ghost use Rattle.place_rules.specs.Refusal.{IsPlaceRefused};

use crate::holders::{holders_of_field, holders_of_statement};
use crate::{Allowed, PlaceError};
use host_decl::{HostRow, Hosts};
use jif_tree::{Checked, Field};
use js_base::limits::HOSTS;
use js_base::{FieldId, OutOfMemory, StmtId};
use label_lattice::Label;
use need_labels::Needs;
use std::alloc::Global;

/// Which hosts may hold each field and each statement of the program, by its needs. Each has one at least.
///
/// # Errors
/// The first field that no host may hold, or where each field has a host the first such statement; or that memory ran
/// out.
pub fn allowed_on(
    alloc: Global,
    checked: &Checked,
    needs: &Needs,
    hosts: &Hosts,
) -> Result<Allowed, PlaceError>
    ensures allowed { IfOk result (AreAllowed (labelled_of checked.now) needs.now hosts.now) }
    ensures refused { IfErr result (IsPlaceRefused (labelled_of checked.now) needs.now hosts.now) }
{
    let rows = hosts.hosts();
    let fields = field_words(alloc, rows, &checked.program.fields, needs.loc())?;
    let statements = statement_words(alloc, rows, needs.used(), needs.need())?;
    if let Some(number) = first_empty(&fields) {
        return Err(no_host_for_field(number));
    }
    if let Some(number) = first_empty(&statements) {
        return Err(no_host_for_statement(number));
    }
    Ok(Allowed::new(fields, statements))
}

/// The hosts that may hold each of the fields, each with the label of what its reads tell.
fn field_words(
    alloc: Global,
    hosts: &[HostRow],
    fields: &[Field],
    told: &[Label],
) -> Result<Vec<u16>, OutOfMemory>
    requires { length hosts.now ≤ HOSTS }
    ensures { IfOk result (λ words. AllZip (λ one word. IsWordOf (MayHoldField one) hosts.now word)
        (zip (map field_tree fields.now) told.now) words.items) }
{
    let mut words = Vec::new(alloc);
    for (field, label) in fields.iter().zip(told) {
        words.push(holders_of_field(hosts, field, label))?;
    }
    Ok(words)
}

/// The hosts that may hold each of the statements, by what their execution tells and who has to trust their hosts.
fn statement_words(
    alloc: Global,
    hosts: &[HostRow],
    used: &[Label],
    need: &[u64],
) -> Result<Vec<u16>, OutOfMemory>
    requires { length hosts.now ≤ HOSTS }
    ensures { IfOk result (λ words. AllZip (λ one word. IsWordOf (MayHoldStatement one) hosts.now word)
        (zip used.now need.now) words.items) }
{
    let mut words = Vec::new(alloc);
    for (label, trusting) in used.iter().zip(need) {
        words.push(holders_of_statement(hosts, label, *trusting))?;
    }
    Ok(words)
}

/// The place of the first word without a host.
fn first_empty(words: &[u16]) -> Option<usize>
    ensures { result ≡ position (λ word. word == 0) words.now }
{
    words.iter().position(|word| *word == 0)
}

/// That no host may hold the field of this number, or that memory ran out where the number is too large for a field.
fn no_host_for_field(number: usize) -> PlaceError
    ensures { (result ≡ PlaceError.NoHostForField (record { 0 = number })) ⊎ (result ≡ PlaceError.OutOfMemory) }
{
    match u32::try_from(number) {
        Ok(number) => PlaceError::NoHostForField(FieldId(number)),
        Err(_) => PlaceError::OutOfMemory,
    }
}

/// That no host may hold the statement of this number, or that memory ran out where the number is too large for a
/// statement.
fn no_host_for_statement(number: usize) -> PlaceError
    ensures { (result ≡ PlaceError.NoHostForStatement (record { 0 = number })) ⊎ (result ≡ PlaceError.OutOfMemory) }
{
    match u32::try_from(number) {
        Ok(number) => PlaceError::NoHostForStatement(StmtId(number)),
        Err(_) => PlaceError::OutOfMemory,
    }
}
