//! What is told of a host file that is refused.

ghost use Rattle.std.specs.Prelude.{◌≡◌, ◌++◌, ◌<◌, ◌^◌, [], None, IfOk, IfSome, OnOk, MatchOption};
ghost use Rattle.std.specs.String.{string_bytes};
ghost use Rattle.toml.specs.Data.{Members};
ghost use Rattle.toml.specs.View.{table_view};
ghost use Rattle.host_decl.specs.Reading.{IsDocument};
ghost use Rattle.host_decl.specs.Refusal.{bad_key, bad_label, not_toml, refusal_shape};
ghost use Rattle.principals.specs.Refusal as principals;
ghost use Rattle.explain_texts.specs.Heads.{told};
ghost use Rattle.explain_texts.specs.Told.{told_shape};
ghost use Rattle.host_reasons.specs.BadKeys.{BadKeyShape, bad_key_shape};
ghost use Rattle.host_reasons.specs.HostsTold as texts;
ghost use Rattle.host_reasons.specs.HostsTold.{HasBadKey, HostsTold, KeyTold, LabelTold, NotTomlTold};

use crate::bad_key::{BadKey, KeyFault, first_bad_key};
use crate::labels::label_in;
use explain_texts::{Told, message_told};
use front_end::why_no_hosts;
use host_decl::{Form, HostsError, TableKind, document};
use js_base::limits::HOSTS_BYTES;
use js_base::{HostId, OutOfMemory};
use principals::PrincipalError;
use std::alloc::Global;
use std::fmt::Write;
use toml::Table;

/// What is told of the bytes of a host file that are refused for this cause, and what to try. Of a key the table and
/// the way in which it is bad are told, of a label its text, and of a text that is no TOML where the reader of TOML
/// stopped. Where the bytes are not refused so it is the words of the cause alone.
///
/// # Errors
/// That memory ran out.
pub fn hosts_told(alloc: Global, bytes: &[u8], why: &HostsError) -> Result<Told, OutOfMemory>
    ensures { IfOk result (λ what. HostsTold bytes.now (refusal_shape why.now) (told_shape what)) }
{
    match why {
        HostsError::NotToml => toml_told(alloc, bytes, why),
        HostsError::BadKey(key) => key_told(alloc, bytes, key.as_str(), why),
        HostsError::BadLabel(host, name) => label_told(alloc, bytes, *host, name.as_str(), why),
        HostsError::TooLong => message_told(
            alloc,
            None,
            "the host file has more than 65536 bytes",
            "",
        ),
        HostsError::OutOfMemory => Err(OutOfMemory),
        HostsError::Principals(_) => plain(alloc, why),
        HostsError::TooManyHosts => plain(alloc, why),
        HostsError::HostTwice(_) => plain(alloc, why),
        HostsError::NoHost => plain(alloc, why),
        HostsError::BadLink(_) => plain(alloc, why),
    }
}

/// The words of the refusal, and what to try.
fn plain(alloc: Global, why: &HostsError) -> Result<Told, OutOfMemory>
    ensures { IfOk result (λ what. told_shape what ≡ texts.plain (refusal_shape why.now)) }
{
    let message = why_no_hosts(alloc, why)?;
    message_told(alloc, None, message.as_str(), remedy(why))
}

/// What to try.
fn remedy(why: &HostsError) -> &'static str
    ensures { result.now ≡ texts.remedy (refusal_shape why.now) }
{
    match why {
        HostsError::Principals(why) => principals_remedy(why),
        HostsError::TooManyHosts => "try: drop hosts that need hold nothing\n",
        HostsError::HostTwice(_) => "try: rename one of the two\n",
        HostsError::NoHost => "try: give one [[host]] at least\n",
        HostsError::BadLink(_) => {
            "try: name two hosts of the file, each pair once, and a cost from 1 to 1000\n"
        }
        HostsError::OutOfMemory => "",
        HostsError::NotToml => "",
        HostsError::BadKey(_) => "",
        HostsError::BadLabel(_, _) => "",
        HostsError::TooLong => "",
    }
}

fn principals_remedy(why: &PrincipalError) -> &'static str
    ensures { result.now ≡ texts.principals_remedy (principals.refusal_shape why.now) }
{
    match why {
        PrincipalError::OutOfMemory => "",
        PrincipalError::TooMany => "try: principals that trust the same may be one\n",
        PrincipalError::Twice(_) => "try: drop one of the two\n",
        PrincipalError::Unknown(_) => "try: declare it among the principals, or mend the name\n",
    }
}

// ---- texts that are no TOML

/// Where the reader of TOML stopped.
fn toml_told(alloc: Global, bytes: &[u8], why: &HostsError) -> Result<Told, OutOfMemory>
    requires { refusal_shape why.now ≡ not_toml }
    ensures { IfOk result (λ what. NotTomlTold bytes.now (told_shape what)) }
{
    match toml::table_from_slice(alloc, bytes) {
        Ok(_) => plain(alloc, why),
        Err(error) => match error.span() {
            Some(span) => message_told(alloc, Some(span.start), "not TOML", ""),
            None => Err(OutOfMemory),
        },
    }
}

// ---- keys

/// Which key is bad, and how.
fn key_told(alloc: Global, bytes: &[u8], key: &str, why: &HostsError) -> Result<Told, OutOfMemory>
    requires { refusal_shape why.now ≡ bad_key key.now }
    ensures { IfOk result (λ what. KeyTold bytes.now key.now (told_shape what)) }
{
    match bad_key_in(alloc, bytes)? {
        Some(bad) => told_of_key(alloc, &bad),
        None => plain(alloc, why),
    }
}

/// What is told of a bad key.
fn told_of_key(alloc: Global, bad: &BadKey) -> Result<Told, OutOfMemory>
    requires { bad.now.number < 2 ^ 63 }
    ensures { IfOk result (λ what.
        told_shape what ≡ told None (texts.key_message (bad_key_shape bad.now)) []) }
{
    let message = key_message(alloc, bad)?;
    message_told(alloc, None, message.as_str(), "")
}

/// The first bad key of the document in the bytes, where there is one.
fn bad_key_in(alloc: Global, bytes: &[u8]) -> Result<Option<BadKey>, OutOfMemory>
    ensures found { IfOk result (λ found. MatchOption found
        ((bad : BadKeyShape) → ¬ HasBadKey bytes.now bad)
        (λ bad. HasBadKey bytes.now (bad_key_shape bad))) }
    ensures few { IfOk result (λ found. IfSome found (λ bad. bad.number < 2 ^ 63)) }
{
    let Some(file) = document_in(alloc, bytes)? else {
        return Ok(None);
    };
    first_bad_key(alloc, &file)
}

/// The document in the bytes, where they are one.
fn document_in(alloc: Global, bytes: &[u8]) -> Result<Option<Table>, OutOfMemory>
    ensures { IfOk result (λ found. MatchOption found ((file : Members) → ¬ IsDocument bytes.now file)
        (λ file. IsDocument bytes.now (table_view file))) }
{
    if HOSTS_BYTES < bytes.len() {
        return Ok(None);
    }
    match document(alloc, bytes) {
        Ok(file) => Ok(Some(file)),
        Err(HostsError::NotToml) => Ok(None),
        Err(_) => Err(OutOfMemory),
    }
}

/// A table and what is wrong with a key of it.
fn key_message(alloc: Global, bad: &BadKey) -> Result<String, OutOfMemory>
    requires { bad.now.number < 2 ^ 63 }
    ensures { IfOk result (λ text. string_bytes text ≡ texts.key_message (bad_key_shape bad.now)) }
{
    let mut text = String::new(alloc);
    push_table(&mut text, bad.kind, bad.number)?;
    push_fault(&mut text, bad.key.as_str(), bad.fault)?;
    Ok(text)
}

/// Adds which table it is. Tables of hosts and links are counted from 1.
fn push_table(text: &mut String, kind: TableKind, number: usize) -> Result<(), OutOfMemory>
    requires { number < 2 ^ 63 }
    ensures { OnOk result (string_bytes text.new ≡ string_bytes text.old ++ texts.table_text kind number) }
{
    match kind {
        TableKind::File => Ok(text.push_str("the file")?),
        TableKind::Host => push_number(text, "host", number),
        TableKind::Link => push_number(text, "link", number),
    }
}

fn push_number(text: &mut String, array: &str, number: usize) -> Result<(), OutOfMemory>
    requires { number < 2 ^ 63 }
    ensures { OnOk result (string_bytes text.new
        ≡ string_bytes text.old ++ texts.numbered_text array.now number) }
{
    let counted = number + 1;
    write!(text, "[[{array}]] number {counted}").map_err(|_| OutOfMemory)
}

/// Adds what is wrong with a key.
fn push_fault(text: &mut String, key: &str, fault: KeyFault) -> Result<(), OutOfMemory>
    ensures { OnOk result (string_bytes text.new ≡ string_bytes text.old ++ texts.fault_text key.now fault) }
{
    let written = match fault {
        KeyFault::Missing => write!(text, ": key '{key}' is missing"),
        KeyFault::Unknown => write!(text, ": there is no key '{key}'"),
        KeyFault::OtherForm(form) => {
            let form = form_text(form);
            write!(text, ": key '{key}' has to be {form}")
        }
    };
    written.map_err(|_| OutOfMemory)
}

/// What the value at a key has to be.
fn form_text(form: Form) -> &'static str
    ensures { result.now ≡ texts.form_text form }
{
    match form {
        Form::Name => "a name",
        Form::Text => "a text",
        Form::Key => "a text of 64 hexadecimal digits",
        Form::Whole => "a whole number",
        Form::Names => "an array of names",
        Form::Pairs => "an array of pairs of texts",
        Form::Tables => "an array of tables",
    }
}

// ---- labels

/// The text that is no label.
fn label_told(
    alloc: Global,
    bytes: &[u8],
    host: HostId,
    name: &str,
    why: &HostsError,
) -> Result<Told, OutOfMemory>
    requires { refusal_shape why.now ≡ bad_label host.0 name.now }
    ensures { IfOk result (λ what. LabelTold bytes.now host.0 name.now (told_shape what)) }
{
    let Some(file) = document_in(alloc, bytes)? else {
        return plain(alloc, why);
    };
    let label = label_in(alloc, &file, host)?;
    let message = format!(in alloc; "host {name}: '{label}' is no label of these principals")?;
    message_told(alloc, None, message.as_str(), "")
}
