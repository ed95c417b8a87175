//! The text of a host's label, as it stands in a host file.

ghost use Rattle.std.specs.Prelude.{◌≡◌, IfOk, option_map, slice_get};
ghost use Rattle.std.specs.String.{string_bytes};
ghost use Rattle.toml.specs.View.{items_view, table_view};
ghost use Rattle.host_decl.specs.Draft.{or_empty, text_at};
ghost use Rattle.host_decl.specs.Schema.{tables_of};
ghost use Rattle.host_reasons.specs.HostsTold.{label_in};

use host_decl::{items_at, value_at};
use js_base::text::owned_text;
use js_base::{HostId, OutOfMemory};
use std::alloc::Global;
use toml::{Table, Value};

/// The text of the label of a host, empty where there is none.
///
/// # Errors
/// That memory ran out.
pub fn label_in(alloc: Global, file: &Table, host: HostId) -> Result<String, OutOfMemory>
    ensures { IfOk result (λ label. string_bytes label ≡ label_in (table_view file.now) host.0) }
{
    match table_at(items_at(file, "host"), host.0 as usize) {
        Some(table) => owned_text(alloc, text_or_empty(table, "label")),
        None => owned_text(alloc, ""),
    }
}

/// The table of this number, from 0, among the tables of some items.
fn table_at(items: &[Value], number: usize) -> Option<&Table>
    ensures { option_map (λ table. table_view table.now) result
        ≡ slice_get (tables_of (items_view items.now)) number }
{
    let mut left = number;
    for item in items {
        let Some(table) = item.as_table() else {
            continue;
        };
        if left == 0 {
            return Some(table);
        }
        left -= 1;
    }
    None
}

/// The text at a key, empty where there is none.
fn text_or_empty<'a>(table: &'a Table, key: &str) -> &'a str
    ensures { result.now ≡ or_empty (text_at key.now (table_view table.now)) }
{
    match text_at(table, key) {
        Some(text) => text,
        None => "",
    }
}

/// The text at a key.
fn text_at<'a>(table: &'a Table, key: &str) -> Option<&'a str>
    ensures { option_map (λ text. text.now) result ≡ text_at key.now (table_view table.now) }
{
    match value_at(table, key) {
        Some(value) => value.as_str(),
        None => None,
    }
}
