//! Writing a split file.
#![tactic(auto, using(crate::proofs::Appends::appends))]

ghost use Rattle.std.specs.Prelude.{◌≡◌, ◌++◌, ◌≤◌, ◌<◌, ◌^◌, length, All, IfOk, OnOk, Ok, FitsSigned};
ghost use Rattle.std.specs.Int.{w64};
ghost use Rattle.std.specs.List.{flat_map};
ghost use Rattle.label_lattice.specs.Label.{IsLabel};
ghost use Rattle.host_code.specs.declared.code.TheConstants.{MOST_ITEMS};
ghost use Rattle.host_code.specs.Sound.{IsSoundCode};
ghost use Rattle.byte_format.specs.Lists.{list_bytes};
ghost use Rattle.split_file.specs.File.{IsRealInstruction, IsRealCode, file_code};
ghost use Rattle.split_file.specs.Spelling.{host_id_bytes, host_bytes, label_bytes, field_bytes, variable_bytes};
ghost use Rattle.split_file.specs.Spelling.{entry_bytes, part_bytes, version_of, table_bytes, start_bytes, split_file};

use crate::appending::{put_count, put_flag, put_host_id, put_label, put_text};
use crate::operation_bytes::put_part;
use crate::reading::MAGIC;
use crate::versions::{PLAIN, RIDING, any_ride};
use byte_format::{put_integer, put_number, put_word};
use host_code::{Code, CodeField, CodeHost, CodeVar, Entry};
use js_base::{HostId, OutOfMemory};
use label_lattice::Label;
use std::alloc::Global;

/// Adds a host.
fn put_host(out: &mut Vec<u8>, host: &CodeHost) -> Result<(), OutOfMemory>
    requires { length host.now.name ≤ MOST_ITEMS }
    ensures bytes { OnOk result (out.new.items ≡ out.old.items ++ host_bytes host.now) }
    ensures real { OnOk result (IsLabel host.now.label) }
{
    put_text(out, host.name().as_bytes())?;
    put_label(out, host.label())
}

/// Adds the hosts.
fn put_hosts(out: &mut Vec<u8>, hosts: &[CodeHost]) -> Result<(), OutOfMemory>
    requires few { length hosts.now ≤ MOST_ITEMS }
    requires names { All (λ host. length host.name ≤ MOST_ITEMS) hosts.now }
    ensures bytes { OnOk result (out.new.items ≡ out.old.items ++ list_bytes host_bytes hosts.now) }
    ensures real { OnOk result (All (λ host. IsLabel host.label) hosts.now) }
{
    put_count(out, hosts.len())?;
    for host in hosts {
        put_host(out, host)?;
    }
    Ok(())
}

/// Adds the labels.
fn put_labels(out: &mut Vec<u8>, labels: &[Label]) -> Result<(), OutOfMemory>
    requires { length labels.now ≤ MOST_ITEMS }
    ensures bytes { OnOk result (out.new.items ≡ out.old.items ++ list_bytes label_bytes labels.now) }
    ensures real { OnOk result (All IsLabel labels.now) }
{
    put_count(out, labels.len())?;
    for label in labels {
        put_label(out, label)?;
    }
    Ok(())
}

/// Adds a field.
fn put_field(out: &mut Vec<u8>, field: &CodeField) -> Result<(), OutOfMemory>
    requires { length field.now.name ≤ MOST_ITEMS }
    ensures bytes { OnOk result (out.new.items ≡ out.old.items ++ field_bytes field.now) }
    ensures real { OnOk result (FitsSigned w64 field.now.first) }
{
    put_text(out, field.name().as_bytes())?;
    put_number(out, field.label())?;
    put_number(out, field.size())?;
    put_flag(out, field.is_array())?;
    put_integer(out, field.first())?;
    put_host_id(out, field.host())
}

/// Adds the fields.
fn put_fields(out: &mut Vec<u8>, fields: &[CodeField]) -> Result<(), OutOfMemory>
    requires few { length fields.now ≤ MOST_ITEMS }
    requires names { All (λ field. length field.name ≤ MOST_ITEMS) fields.now }
    ensures bytes { OnOk result (out.new.items ≡ out.old.items ++ list_bytes field_bytes fields.now) }
    ensures real { OnOk result (All (λ field. FitsSigned w64 field.first) fields.now) }
{
    put_count(out, fields.len())?;
    for field in fields {
        put_field(out, field)?;
    }
    Ok(())
}

/// Adds a variable.
fn put_variable(out: &mut Vec<u8>, variable: &CodeVar) -> Result<(), OutOfMemory>
    requires { length variable.now.name ≤ MOST_ITEMS }
    ensures { OnOk result (out.new.items ≡ out.old.items ++ variable_bytes variable.now) }
{
    put_text(out, variable.name().as_bytes())?;
    put_number(out, variable.label())
}

/// Adds the variables.
fn put_variables(out: &mut Vec<u8>, variables: &[CodeVar]) -> Result<(), OutOfMemory>
    requires few { length variables.now ≤ MOST_ITEMS }
    requires names { All (λ variable. length variable.name ≤ MOST_ITEMS) variables.now }
    ensures { OnOk result (out.new.items ≡ out.old.items ++ list_bytes variable_bytes variables.now) }
{
    put_count(out, variables.len())?;
    for variable in variables {
        put_variable(out, variable)?;
    }
    Ok(())
}

/// Adds an entry.
fn put_entry(out: &mut Vec<u8>, entry: &Entry) -> Result<(), OutOfMemory>
    ensures bytes { OnOk result (out.new.items ≡ out.old.items ++ entry_bytes entry.now) }
    ensures real { OnOk result (entry.now.need < 2 ^ 64) }
{
    put_host_id(out, entry.host)?;
    put_number(out, entry.at)?;
    put_number(out, entry.label)?;
    put_word(out, entry.need)
}

/// Adds the entries.
fn put_entries(out: &mut Vec<u8>, entries: &[Entry]) -> Result<(), OutOfMemory>
    requires { length entries.now ≤ MOST_ITEMS }
    ensures bytes { OnOk result (out.new.items ≡ out.old.items ++ list_bytes entry_bytes entries.now) }
    ensures real { OnOk result (All (λ entry. entry.need < 2 ^ 64) entries.now) }
{
    put_count(out, entries.len())?;
    for entry in entries {
        put_entry(out, entry)?;
    }
    Ok(())
}

/// Adds the hosts of the sites.
fn put_sites(out: &mut Vec<u8>, sites: &[HostId]) -> Result<(), OutOfMemory>
    requires { length sites.now ≤ MOST_ITEMS }
    ensures { OnOk result (out.new.items ≡ out.old.items ++ list_bytes host_id_bytes sites.now) }
{
    put_count(out, sites.len())?;
    for site in sites {
        put_host_id(out, *site)?;
    }
    Ok(())
}

/// Adds what instructions name.
fn put_tables(out: &mut Vec<u8>, code: &Code) -> Result<(), OutOfMemory>
    ensures bytes { OnOk result (out.new.items ≡ out.old.items ++ table_bytes code.now) }
    ensures sound { OnOk result (IsSoundCode code.now) }
    ensures hosts { OnOk result (All (λ host. IsLabel host.label) code.now.hosts) }
    ensures labels { OnOk result (All IsLabel code.now.labels) }
    ensures fields { OnOk result (All (λ field. FitsSigned w64 field.first) code.now.fields) }
{
    put_hosts(out, code.hosts())?;
    put_labels(out, code.labels())?;
    put_fields(out, code.fields())?;
    put_variables(out, code.vars())
}

/// Adds where threads and calls start.
fn put_starts(out: &mut Vec<u8>, code: &Code) -> Result<(), OutOfMemory>
    ensures bytes { OnOk result (out.new.items ≡ out.old.items ++ start_bytes code.now) }
    ensures real { OnOk result (All (λ entry. entry.need < 2 ^ 64) code.now.entries) }
{
    put_entries(out, code.entries())?;
    put_sites(out, code.sites())?;
    put_host_id(out, code.root())?;
    put_number(out, code.main().0)
}

/// Adds the instructions of each host.
fn put_parts(out: &mut Vec<u8>, code: &Code) -> Result<(), OutOfMemory>
    ensures bytes { OnOk result (out.new.items ≡ out.old.items ++ flat_map part_bytes code.now.parts) }
    ensures real { OnOk result (All (All IsRealInstruction) code.now.parts) }
{
    let count = code.hosts().len() as u8;
    for host in 0..count {
        put_part(out, code.part(HostId(host)))?;
    }
    Ok(())
}

/// The version of the file of a code.
fn version_of(code: &Code) -> u16
    ensures { result ≡ version_of code.now }
{
    let count = code.hosts().len() as u8;
    for host in 0..count {
        if any_ride(code.part(HostId(host))) {
            return RIDING;
        }
    }
    PLAIN
}

/// The split file of a code.
///
/// # Errors
/// Memory ran out.
#[tactic(auto, using(crate::proofs::Appends::appends), unfolding(crate::specs::Spelling::split_file))]
pub fn write(alloc: Global, code: &Code) -> Result<Vec<u8>, OutOfMemory>
    ensures spelled { IfOk result (λ bytes. bytes.items ≡ split_file code.now) }
    // The numbers in memory fit their types, and the expressions leave one value.
    ensures real { IfOk result (λ _. IsRealCode code.now) }
    // So it is read again.
    ensures again { IfOk result (λ bytes. file_code bytes.items ≡ Ok code.now) }
{
    let mut out = Vec::new(alloc);
    out.extend_from_slice(MAGIC)?;
    out.extend_from_slice(&version_of(code).to_be_bytes())?;
    put_tables(&mut out, code)?;
    put_starts(&mut out, code)?;
    put_parts(&mut out, code)?;
    Ok(out)
}
