//! The first bad key of a host file: unknown, missing or of a wrong form, and in which table.

ghost use Rattle.std.specs.Prelude.{◌≡◌, ◌<◌, ◌^◌, IfOk, IfSome, IfNone, MatchOption};
ghost use Rattle.std.specs.List.{AllByRecursion};
ghost use Rattle.toml.specs.Data.{get_member};
ghost use Rattle.toml.specs.View.{view, items_view, table_view};
ghost use Rattle.host_decl.specs.Schema.{IsBadKey, IsLeast, IsSound, IsSoundFile, tables_of};
ghost use Rattle.host_reasons.specs.BadKeys.{IsBadAmong, IsBadKeyOf, bad_key_shape, key_fault};

use host_decl::{Form, TableKind, bad_key_of, form_at, items_at, value_at};
use js_base::OutOfMemory;
use js_base::text::owned_text;
use std::alloc::Global;
use toml::{Table, Value};

/// In which way a key is bad.
#[derive(Clone, Copy)]
pub enum KeyFault {
    /// It has to be there.
    Missing,
    /// No such table has it.
    Unknown,
    /// Its value has to have this form.
    OtherForm(Form),
}

/// A bad key of a host file.
#[derive(Drop)]
pub struct BadKey {
    pub kind: TableKind,
    /// The number of its table, from 0, among the tables of the kind.
    pub number: usize,
    pub key: String,
    pub fault: KeyFault,
}

/// A bad key as it stands in the file.
#[derive(Clone, Copy)]
struct Found<'a> {
    kind: TableKind,
    number: usize,
    key: &'a str,
    fault: KeyFault,
}

/// The first bad key of a host file, in the order in which a file is refused: the file's own keys, then those of the
/// hosts in order, then those of the links in order, within each table by the bytes of the key. `None` where no key is
/// bad.
///
/// # Errors
/// That memory ran out.
pub fn first_bad_key(alloc: Global, file: &Table) -> Result<Option<BadKey>, OutOfMemory>
    ensures found { IfOk result (λ found. MatchOption found
        (IsSoundFile (table_view file.now))
        (λ bad. IsBadKeyOf (table_view file.now) (bad_key_shape bad))) }
    ensures few { IfOk result (λ found. IfSome found (λ bad. bad.number < 2 ^ 63)) }
{
    let Some(found) = found_in(file) else {
        return Ok(None);
    };
    let key = owned_text(alloc, found.key)?;
    let (kind, number, fault) = (found.kind, found.number, found.fault);
    Ok(Some(BadKey {
        kind,
        number,
        key,
        fault,
    }))
}

/// The same, as it stands in the file.
fn found_in(file: &Table) -> Option<Found<'_>>
    ensures none { IfNone result (IsSoundFile (table_view file.now)) }
    ensures few { IfSome result (λ found. found.number < 2 ^ 63) }
    ensures some { IfSome result (λ found. IsBadKeyOf (table_view file.now) (record {
      kind = found.kind;
      number = found.number;
      key = found.key.now;
      fault = found.fault;
    })) }
{
    if let Some(found) = found_of(TableKind::File, 0, file) {
        return Some(found);
    }
    if let Some(found) = found_among(TableKind::Host, items_at(file, "host")) {
        return Some(found);
    }
    if let Some(found) = found_among(TableKind::Link, items_at(file, "link")) {
        return Some(found);
    }
    None
}

/// The first bad key of the tables among the items.
fn found_among(kind: TableKind, items: &[Value]) -> Option<Found<'_>>
    ensures none { IfNone result (AllByRecursion (IsSound kind) (tables_of (items_view items.now))) }
    ensures kind { IfSome result (λ found. found.kind ≡ kind) }
    ensures few { IfSome result (λ found. found.number < 2 ^ 63) }
    ensures some { IfSome result (λ found.
        IsBadAmong kind (tables_of (items_view items.now)) found.number found.key.now found.fault) }
{
    let mut number = 0;
    for item in items {
        let Some(table) = item.as_table() else {
            continue;
        };
        if let Some(found) = found_of(kind, number, table) {
            return Some(found);
        }
        number += 1;
    }
    None
}

/// The least bad key of a table that has this number.
fn found_of(kind: TableKind, number: usize, table: &Table) -> Option<Found<'_>>
    ensures none { IfNone result (IsSound kind (table_view table.now)) }
    ensures kind { IfSome result (λ found. found.kind ≡ kind) }
    ensures number { IfSome result (λ found. found.number ≡ number) }
    ensures least { IfSome result (λ found. IsLeast (IsBadKey kind (table_view table.now)) found.key.now) }
    ensures fault { IfSome result (λ found.
        found.fault ≡ key_fault kind found.key.now (get_member found.key.now (table_view table.now))) }
{
    match bad_key_of(kind, table) {
        Some(key) => Some(Found {
            kind,
            number,
            key,
            fault: key_fault(kind, table, key),
        }),
        None => None,
    }
}

/// In which way a bad key of a table is bad.
fn key_fault(kind: TableKind, table: &Table, key: &str) -> KeyFault
    ensures { result ≡ key_fault kind key.now (get_member key.now (table_view table.now)) }
{
    match value_at(table, key) {
        None => KeyFault::Missing,
        Some(_) => match form_at(kind, key) {
            None => KeyFault::Unknown,
            Some(form) => KeyFault::OtherForm(form),
        },
    }
}
