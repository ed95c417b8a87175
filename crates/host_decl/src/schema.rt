//! Which keys the tables of a host file may and must have, and the forms of the values.

ghost use Rattle.std.specs.Prelude.{◌≡◌, ℕ, List, map, option_map, IfSome, IfNone};
ghost use Rattle.std.specs.List.{AllByRecursion, list_all};
ghost use Rattle.std.specs.Char.{is_ascii_hexdigit};
ghost use Rattle.toml.specs.Data.{get_member};
ghost use Rattle.toml.specs.View.{view, items_view, table_view};
ghost use Rattle.host_decl.specs.Schema.{is_key, is_text_of, is_array_of, are_two_texts, is_pair};
ghost use Rattle.host_decl.specs.Schema.{is_table, has_form, form_at, required_keys, is_unfit, HoldsUnfit, IsMissing};
ghost use Rattle.host_decl.specs.Schema.{IsBadKey, IsSound, IsLeast, IsFirstBadKey, IsSoundFile, items_in, items_at};
ghost use Rattle.host_decl.specs.Schema.{tables_of, table_in, of_kind, file_tables};
ghost use Rattle.js_base.specs.Name.{is_name};

use crate::key::KEY_BYTES;
use js_base::names::is_name;
use toml::{Table, Value};

/// The kinds of tables in a host file.
#[derive(Clone, Copy)]
pub enum TableKind {
    /// The file itself.
    File,
    /// A host.
    Host,
    /// A link from one host to another.
    Link,
}

/// The forms that values have to have.
#[derive(Clone, Copy)]
pub enum Form {
    /// A text that is a name.
    Name,
    /// A text.
    Text,
    /// The hexadecimal digits of a key.
    Key,
    /// A whole number.
    Whole,
    /// An array of names.
    Names,
    /// An array of arrays of exactly two texts.
    Pairs,
    /// An array of tables.
    Tables,
}

/// The first bad key of a host file: unknown, missing or of a wrong form. The file's own keys come first, then those of
/// the hosts in order, then those of the links in order, within each table by the bytes of the key.
pub fn bad_key(file: &Table) -> Option<&str>
    ensures none { IfNone result (IsSoundFile (table_view file.now)) }
    ensures some { IfSome result (λ key. IsFirstBadKey (file_tables (table_view file.now)) key.now) }
{
    if let Some(key) = bad_key_of(TableKind::File, file) {
        return Some(key);
    }
    if let Some(key) = bad_key_among(TableKind::Host, items_at(file, "host")) {
        return Some(key);
    }
    if let Some(key) = bad_key_among(TableKind::Link, items_at(file, "link")) {
        return Some(key);
    }
    None
}

/// The first bad key of the tables among the items.
fn bad_key_among(kind: TableKind, items: &[Value]) -> Option<&str>
    ensures none { IfNone result (AllByRecursion (IsSound kind) (tables_of (items_view items.now))) }
    ensures some { IfSome result (λ key.
        IsFirstBadKey (of_kind kind (tables_of (items_view items.now))) key.now) }
{
    for item in items {
        if let Some(key) = bad_key_in(kind, item) {
            return Some(key);
        }
    }
    None
}

/// The least bad key of a value that is a table.
fn bad_key_in(kind: TableKind, value: &Value) -> Option<&str>
    ensures none { IfNone result (AllByRecursion (IsSound kind) (table_in (view value.now))) }
    ensures some { IfSome result (λ key. IsFirstBadKey (of_kind kind (table_in (view value.now))) key.now) }
{
    match value.as_table() {
        Some(table) => bad_key_of(kind, table),
        None => None,
    }
}

/// The least bad key of a table, by its bytes.
pub fn bad_key_of(kind: TableKind, table: &Table) -> Option<&str>
    ensures none { IfNone result (IsSound kind (table_view table.now)) }
    ensures some { IfSome result (λ key. IsLeast (IsBadKey kind (table_view table.now)) key.now) }
{
    let Some(unfit) = unfit_key(kind, table) else {
        return missing_key(kind, table);
    };
    let Some(missing) = missing_key(kind, table) else {
        return Some(unfit);
    };
    if missing < unfit {
        Some(missing)
    } else {
        Some(unfit)
    }
}

/// The least key that holds a value that it may not hold.
fn unfit_key(kind: TableKind, table: &Table) -> Option<&str>
    ensures none { IfNone result ((key : List ℕ) → ¬ HoldsUnfit kind (table_view table.now) key) }
    ensures some { IfSome result (λ key. IsLeast (HoldsUnfit kind (table_view table.now)) key.now) }
{
    for (key, value) in table {
        if is_unfit(kind, key.as_str(), value) {
            return Some(key.as_str());
        }
    }
    None
}

/// The least required key that holds nothing.
fn missing_key(kind: TableKind, table: &Table) -> Option<&'static str>
    ensures none { IfNone result ((key : List ℕ) → ¬ IsMissing kind (table_view table.now) key) }
    ensures some { IfSome result (λ key. IsLeast (IsMissing kind (table_view table.now)) key.now) }
{
    for key in required_keys(kind) {
        if value_at(table, *key).is_none() {
            return Some(*key);
        }
    }
    None
}

/// The keys that such a table must have, in order.
fn required_keys(kind: TableKind) -> &'static [&'static str]
    ensures { map (λ key. key.now) result.now ≡ required_keys kind }
{
    match kind {
        TableKind::File => &["principals"],
        TableKind::Host => &["label", "name"],
        TableKind::Link => &["cost", "from", "to"],
    }
}

/// Whether the key may not hold the value.
fn is_unfit(kind: TableKind, key: &str, value: &Value) -> bool
    ensures { result ≡ is_unfit kind key.now (view value.now) }
{
    match form_at(kind, key) {
        Some(form) => !has_form(form, value),
        None => true,
    }
}

/// The form of the value at a key, for each key that such a table may have.
pub fn form_at(kind: TableKind, key: &str) -> Option<Form>
    ensures { result ≡ form_at kind key.now }
{
    match kind {
        TableKind::File => file_form(key),
        TableKind::Host => host_form(key),
        TableKind::Link => link_form(key),
    }
}

fn file_form(key: &str) -> Option<Form>
    ensures { result ≡ form_at TableKind.File key.now }
{
    match key {
        "acts_for" => Some(Form::Pairs),
        "host" => Some(Form::Tables),
        "link" => Some(Form::Tables),
        "principals" => Some(Form::Names),
        _ => None,
    }
}

fn host_form(key: &str) -> Option<Form>
    ensures { result ≡ form_at TableKind.Host key.now }
{
    match key {
        "key" => Some(Form::Key),
        "label" => Some(Form::Text),
        "name" => Some(Form::Name),
        "path" => Some(Form::Text),
        _ => None,
    }
}

fn link_form(key: &str) -> Option<Form>
    ensures { result ≡ form_at TableKind.Link key.now }
{
    match key {
        "cost" => Some(Form::Whole),
        "from" => Some(Form::Text),
        "to" => Some(Form::Text),
        _ => None,
    }
}

/// Whether the value has the form.
fn has_form(form: Form, value: &Value) -> bool
    ensures { result ≡ has_form form (view value.now) }
{
    match form {
        Form::Name => is_name_text(value),
        Form::Text => value.is_str(),
        Form::Key => is_key_text(value),
        Form::Whole => value.is_integer(),
        Form::Names => are_names(value),
        Form::Pairs => are_pairs(value),
        Form::Tables => are_tables(value),
    }
}

fn is_name_text(value: &Value) -> bool
    ensures { result ≡ is_text_of is_name (view value.now) }
{
    match value.as_str() {
        Some(text) => is_name(text.as_bytes()),
        None => false,
    }
}

fn is_key_text(value: &Value) -> bool
    ensures { result ≡ is_text_of is_key (view value.now) }
{
    match value.as_str() {
        Some(text) => is_key(text.as_bytes()),
        None => false,
    }
}

/// Whether the text is hexadecimal digits, two for each byte of a key.
fn is_key(text: &[u8]) -> bool
    ensures { result ≡ is_key text.now }
{
    text.len() == 2 * KEY_BYTES && are_hexadecimal(text)
}

fn are_hexadecimal(text: &[u8]) -> bool
    ensures { result ≡ list_all is_ascii_hexdigit text.now }
{
    text.iter().all(|byte| byte.is_ascii_hexdigit())
}

#[tactic(auto, using(crate::proofs::Items::all_items_view))]
fn are_names(value: &Value) -> bool
    ensures { result ≡ is_array_of (is_text_of is_name) (view value.now) }
{
    match value.as_array() {
        Some(items) => all_names(items),
        None => false,
    }
}

fn all_names(items: &[Value]) -> bool
    ensures { result ≡ list_all (λ value. is_text_of is_name (view value)) items.now }
{
    items.iter().all(is_name_text)
}

#[tactic(auto, using(crate::proofs::Items::all_items_view))]
fn are_pairs(value: &Value) -> bool
    ensures { result ≡ is_array_of is_pair (view value.now) }
{
    match value.as_array() {
        Some(items) => all_pairs(items),
        None => false,
    }
}

fn all_pairs(items: &[Value]) -> bool
    ensures { result ≡ list_all (λ value. is_pair (view value)) items.now }
{
    items.iter().all(is_pair)
}

#[tactic(auto, using(crate::proofs::Items::all_items_view))]
fn are_tables(value: &Value) -> bool
    ensures { result ≡ is_array_of is_table (view value.now) }
{
    match value.as_array() {
        Some(items) => all_tables(items),
        None => false,
    }
}

fn all_tables(items: &[Value]) -> bool
    ensures { result ≡ list_all (λ value. is_table (view value)) items.now }
{
    items.iter().all(Value::is_table)
}

/// Whether the value is an array of exactly two texts.
fn is_pair(value: &Value) -> bool
    ensures { result ≡ is_pair (view value.now) }
{
    match value.as_array() {
        Some(items) => are_two_texts(items),
        None => false,
    }
}

fn are_two_texts(items: &[Value]) -> bool
    ensures { result ≡ are_two_texts (items_view items.now) }
{
    match items {
        [first, second] => first.is_str() && second.is_str(),
        _ => false,
    }
}

/// The items of the array at a key, and none where there is no array.
pub fn items_at<'a>(table: &'a Table, key: &str) -> &'a [Value]
    ensures { items_view result.now ≡ items_at key.now (table_view table.now) }
{
    match value_at(table, key) {
        Some(value) => items_in(value),
        None => &[],
    }
}

/// The value at a key.
pub fn value_at<'a>(table: &'a Table, key: &str) -> Option<&'a Value>
    ensures { option_map (λ value. view value.now) result ≡ get_member key.now (table_view table.now) }
{
    table.get(key)
}

/// The items of an array, and none of another value.
fn items_in(value: &Value) -> &[Value]
    ensures { items_view result.now ≡ items_in (view value.now) }
{
    match value.as_array() {
        Some(items) => items,
        None => &[],
    }
}
