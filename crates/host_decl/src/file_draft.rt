//! From the tables of a sound file to what they say.

ghost use Rattle.std.specs.Prelude.{◌≡◌, map, option_copied, IfOk, codes};
ghost use Rattle.std.specs.List.{AllByRecursion};
ghost use Rattle.std.specs.String.{string_bytes};
ghost use Rattle.toml.specs.Data.{as_str};
ghost use Rattle.toml.specs.View.{view, items_view, table_view};
ghost use Rattle.principals.specs.Declaring.{written_pair, written_pairs};
ghost use Rattle.host_decl.specs.declared.schema.TableKind.TheVariants.{Host};
ghost use Rattle.host_decl.specs.Schema.{IsSound, IsSoundFile, tables_of};
ghost use Rattle.host_decl.specs.Draft.{texts_of, pairs_of, pair_of, host_of, link_of, draft_of, key_of, path_of};
ghost use Rattle.host_decl.specs.Draft.{text_at, or_empty, whole_at};
ghost use Rattle.host_decl.specs.DraftView.{hosts_draft, host_draft, link_draft};

use crate::draft::{HostDraft, HostsDraft, LinkDraft};
use crate::key::{KEY_BYTES, default_key, key_of_digits};
use crate::schema::{items_at, value_at};
use js_base::OutOfMemory;
use js_base::text::owned_text;
use std::alloc::Global;
use toml::{Table, Value};

/// What a sound file says.
pub fn file_draft(alloc: Global, file: &Table) -> Result<HostsDraft, OutOfMemory>
    requires { IsSoundFile (table_view file.now) }
    ensures { IfOk result (λ draft. hosts_draft draft ≡ draft_of (table_view file.now)) }
{
    let names = texts_of(alloc, items_at(file, "principals"))?;
    let pairs = pairs_of(alloc, items_at(file, "acts_for"))?;
    let hosts = hosts_of(alloc, items_at(file, "host"))?;
    let links = links_of(alloc, items_at(file, "link"))?;
    Ok(HostsDraft {
        names,
        pairs,
        hosts,
        links,
    })
}

/// The texts among the items.
fn texts_of(alloc: Global, items: &[Value]) -> Result<Vec<String>, OutOfMemory>
    ensures { IfOk result (λ texts. map string_bytes texts.items ≡ texts_of (items_view items.now)) }
{
    let mut texts = Vec::new(alloc);
    for item in items {
        if let Some(text) = item.as_str() {
            texts.push(owned_text(alloc, text)?)?;
        }
    }
    Ok(texts)
}

/// The pairs of texts among the items.
fn pairs_of(alloc: Global, items: &[Value]) -> Result<Vec<(String, String)>, OutOfMemory>
    ensures { IfOk result (λ pairs. written_pairs pairs.items ≡ pairs_of (items_view items.now)) }
{
    let mut pairs = Vec::new(alloc);
    for item in items {
        if let Some(pair) = item.as_array() {
            pairs.push(pair_of(alloc, pair)?)?;
        }
    }
    Ok(pairs)
}

/// The first two items as texts.
fn pair_of(alloc: Global, items: &[Value]) -> Result<(String, String), OutOfMemory>
    ensures { IfOk result (λ pair. written_pair pair ≡ pair_of (items_view items.now)) }
{
    match items {
        [first, second, ..] => owned_pair(alloc, text_of(first), text_of(second)),
        _ => owned_pair(alloc, "", ""),
    }
}

/// Owned copies of two texts.
fn owned_pair(alloc: Global, first: &str, second: &str) -> Result<(String, String), OutOfMemory>
    ensures { IfOk result (λ pair. written_pair pair ≡ (first.now, second.now)) }
{
    Ok((owned_text(alloc, first)?, owned_text(alloc, second)?))
}

/// The hosts among the items.
fn hosts_of(alloc: Global, items: &[Value]) -> Result<Vec<HostDraft>, OutOfMemory>
    requires { AllByRecursion (IsSound Host) (tables_of (items_view items.now)) }
    ensures { IfOk result (λ hosts. map host_draft hosts.items ≡ map host_of (tables_of (items_view items.now))) }
{
    let mut hosts = Vec::new(alloc);
    for item in items {
        if let Some(table) = item.as_table() {
            hosts.push(host_of(alloc, table)?)?;
        }
    }
    Ok(hosts)
}

/// The host that a sound table says.
fn host_of(alloc: Global, table: &Table) -> Result<HostDraft, OutOfMemory>
    requires { IsSound Host (table_view table.now) }
    ensures { IfOk result (λ host. host_draft host ≡ host_of (table_view table.now)) }
{
    let name = text_or_empty(table, "name");
    let key = key_at(table, name);
    let path = path_at(alloc, table, name)?;
    let label = owned_text(alloc, text_or_empty(table, "label"))?;
    let name = owned_text(alloc, name)?;
    Ok(HostDraft {
        name,
        label,
        key,
        path,
    })
}

/// The key that a sound table writes, or the default key of the name.
fn key_at(table: &Table, name: &str) -> [u8; KEY_BYTES]
    requires { IsSound Host (table_view table.now) }
    ensures { result ≡ key_of name.now (text_at (codes "key") (table_view table.now)) }
{
    match text_at(table, "key") {
        Some(digits) => key_of_digits(digits.as_bytes()),
        None => default_key(name),
    }
}

/// The path that a table writes. Where it writes none, the name and `.sock`.
fn path_at(alloc: Global, table: &Table, name: &str) -> Result<String, OutOfMemory>
    ensures { IfOk result (λ path.
        string_bytes path ≡ path_of name.now (text_at (codes "path") (table_view table.now))) }
{
    match text_at(table, "path") {
        Some(path) => owned_text(alloc, path),
        None => Ok(format!(in alloc; "{name}.sock")?),
    }
}

/// The links among the items.
fn links_of(alloc: Global, items: &[Value]) -> Result<Vec<LinkDraft>, OutOfMemory>
    ensures { IfOk result (λ links. map link_draft links.items ≡ map link_of (tables_of (items_view items.now))) }
{
    let mut links = Vec::new(alloc);
    for item in items {
        if let Some(table) = item.as_table() {
            links.push(link_of(alloc, table)?)?;
        }
    }
    Ok(links)
}

/// The link that a table says.
fn link_of(alloc: Global, table: &Table) -> Result<LinkDraft, OutOfMemory>
    ensures { IfOk result (λ link. link_draft link ≡ link_of (table_view table.now)) }
{
    let from = owned_text(alloc, text_or_empty(table, "from"))?;
    let to = owned_text(alloc, text_or_empty(table, "to"))?;
    let cost = whole_at(table, "cost");
    Ok(LinkDraft { from, to, cost })
}

/// The text at a key.
fn text_at<'a>(table: &'a Table, key: &str) -> Option<&'a str>
    ensures { option_copied result ≡ text_at key.now (table_view table.now) }
{
    match value_at(table, key) {
        Some(value) => value.as_str(),
        None => None,
    }
}

/// The text at a key, or an empty one.
fn text_or_empty<'a>(table: &'a Table, key: &str) -> &'a str
    ensures { result.now ≡ or_empty (text_at key.now (table_view table.now)) }
{
    match text_at(table, key) {
        Some(text) => text,
        None => "",
    }
}

/// The text of a value, or an empty one.
fn text_of(value: &Value) -> &str
    ensures { result.now ≡ or_empty (as_str (view value.now)) }
{
    match value.as_str() {
        Some(text) => text,
        None => "",
    }
}

/// The whole number at a key, or 0.
fn whole_at(table: &Table, key: &str) -> i64
    ensures { result ≡ whole_at key.now (table_view table.now) }
{
    match value_at(table, key) {
        Some(value) => value.as_integer().unwrap_or(0),
        None => 0,
    }
}
