//! Readers of what instructions name: hosts, labels, fields and variables.
#![tactic(auto, unfolding(byte_format::specs::Reader::sequel, byte_format::specs::Reader::given, byte_format::specs::Reader::refused, crate::specs::Reader::place, byte_format::specs::Reader::require, crate::specs::Reader::in_range, crate::specs::Reading::host_id_at, crate::specs::Reading::label_at, crate::specs::Reading::host_row_at, crate::specs::Reading::hosts_at, crate::specs::Reading::shape_at, crate::specs::Reading::field_row_at, crate::specs::Reading::variable_row_at, crate::specs::Reading::tables_at, byte_format::specs::Reader::items_at, byte_format::specs::Reader::list_at,))]

ghost use Rattle.std.specs.Prelude.{◌≡◌, ◌+◌, ◌≤◌, length, [], IfOk};
ghost use Rattle.std.specs.Int.{w32, w64};
ghost use Rattle.js_base.specs.declared.limits.TheConstants.{HOSTS, ELEMENTS};
ghost use Rattle.byte_format.specs.Reader.{items_at};
ghost use Rattle.split_file.specs.Reader.{GivesRead, in_range, list_at, number_at};
ghost use Rattle.split_file.specs.Reading.{host_id_at, label_at, host_row_at, hosts_at, shape_at, field_row_at};
ghost use Rattle.split_file.specs.Reading.{variable_row_at, tables_at, elements_of, is_size};
ghost use Rattle.split_file.specs.Shapes.{tables_shape};

use crate::fault::ReadError;
use crate::names::{name_of, variable_name_of};
use crate::numbers::{byte_of, flag_of, i64_of, index_of, out_of_range, u32_of, u64_of};
use host_code::{CodeField, CodeHost, CodeVar};
use js_base::HostId;
use js_base::limits::{ARRAY_SIZE, ELEMENTS, HOSTS, PRINCIPALS};
use label_lattice::Label;
use std::alloc::Global;

/// What instructions name, and what they are labelled with.
#[derive(Drop)]
pub struct Tables {
    pub hosts: Vec<CodeHost>,
    pub labels: Vec<Label>,
    pub fields: Vec<CodeField>,
    pub vars: Vec<CodeVar>,
}

/// One of so many hosts.
pub fn host_id_of(hosts: usize, bytes: &[u8]) -> Result<(HostId, &[u8]), ReadError>
    ensures { GivesRead (λ x. (x.0, x.1.now)) result (host_id_at hosts bytes.now) }
{
    let (host, rest) = byte_of(bytes)?;
    if host as usize >= hosts {
        return Err(out_of_range(bytes));
    }
    Ok((HostId(host), rest))
}

/// A word for each owner of a label.
fn rows_of(bytes: &[u8]) -> Result<([u64; PRINCIPALS], &[u8]), ReadError>
    ensures { GivesRead (λ x. (x.0, x.1.now)) result (items_at (λ _. number_at w64) [] PRINCIPALS bytes.now) }
{
    let mut rows = [0; PRINCIPALS];
    let mut rest = bytes;
    for owner in 0..PRINCIPALS {
        let (row, after) = u64_of(rest)?;
        rows[owner] = row;
        rest = after;
    }
    Ok((rows, rest))
}

/// A label.
fn label_of(bytes: &[u8]) -> Result<(Label, &[u8]), ReadError>
    ensures { GivesRead (λ x. (x.0, x.1.now)) result (label_at bytes.now) }
{
    let (rows, rest) = rows_of(bytes)?;
    let (trust, rest) = u64_of(rest)?;
    Ok((Label::from_words(rows, trust), rest))
}

/// A host.
fn host_row_of(alloc: Global, bytes: &[u8]) -> Result<(CodeHost, &[u8]), ReadError>
    ensures { GivesRead (λ x. (x.0, x.1.now)) result (host_row_at bytes.now) }
{
    let (name, rest) = name_of(alloc, bytes)?;
    let (label, rest) = label_of(rest)?;
    Ok((CodeHost::new(name, label), rest))
}

/// So many hosts.
fn host_rows_of(
    alloc: Global,
    count: u32,
    bytes: &[u8],
) -> Result<(Vec<CodeHost>, &[u8]), ReadError>
    ensures hosts { GivesRead (λ x. (x.0.items, x.1.now)) result (items_at (λ _. host_row_at) [] count bytes.now) }
    ensures count { IfOk result (λ x. length x.0.items ≡ count) }
{
    let mut hosts = Vec::new(alloc);
    let mut rest = bytes;
    for _ in 0..count {
        let (host, after) = host_row_of(alloc, rest)?;
        hosts.push(host)?;
        rest = after;
    }
    Ok((hosts, rest))
}

/// The hosts, of which there are 1 to 16.
fn hosts_of(alloc: Global, bytes: &[u8]) -> Result<(Vec<CodeHost>, &[u8]), ReadError>
    ensures hosts { GivesRead (λ x. (x.0.items, x.1.now)) result (hosts_at bytes.now) }
    ensures few { IfOk result (λ x. length x.0.items ≤ HOSTS) }
{
    let (count, rest) = u32_of(bytes)?;
    if count == 0 || count as usize > HOSTS {
        return Err(out_of_range(bytes));
    }
    host_rows_of(alloc, count, rest)
}

/// So many labels.
fn label_rows_of(alloc: Global, count: u32, bytes: &[u8]) -> Result<(Vec<Label>, &[u8]), ReadError>
    ensures { GivesRead (λ x. (x.0.items, x.1.now)) result (items_at (λ _. label_at) [] count bytes.now) }
{
    let mut labels = Vec::new(alloc);
    let mut rest = bytes;
    for _ in 0..count {
        let (label, after) = label_of(rest)?;
        labels.push(label)?;
        rest = after;
    }
    Ok((labels, rest))
}

/// The labels.
fn labels_of(alloc: Global, bytes: &[u8]) -> Result<(Vec<Label>, &[u8]), ReadError>
    ensures { GivesRead (λ x. (x.0.items, x.1.now)) result (list_at (λ _. label_at) bytes.now) }
{
    let (count, rest) = u32_of(bytes)?;
    label_rows_of(alloc, count, rest)
}

/// A size within the limits, where there are so many elements before.
fn size_of(before: u32, bytes: &[u8]) -> Result<(u32, &[u8]), ReadError>
    requires { before ≤ ELEMENTS }
    ensures size { GivesRead (λ x. (x.0, x.1.now)) result (in_range (is_size before) (number_at w32) bytes.now) }
    ensures within { IfOk result (λ x. before + x.0 ≤ ELEMENTS) }
{
    let (size, rest) = u32_of(bytes)?;
    if size == 0 || size > ARRAY_SIZE || size > ELEMENTS - before {
        return Err(out_of_range(bytes));
    }
    Ok((size, rest))
}

/// The size of a field, and whether it is an array.
fn shape_of(before: u32, bytes: &[u8]) -> Result<((u32, bool), &[u8]), ReadError>
    requires { before ≤ ELEMENTS }
    ensures shape { GivesRead (λ x. (x.0, x.1.now)) result (shape_at before bytes.now) }
    ensures within { IfOk result (λ x. before + x.0.0 ≤ ELEMENTS) }
{
    let (size, rest) = size_of(before, bytes)?;
    let (array, rest) = flag_of(rest)?;
    if !array && size != 1 {
        return Err(out_of_range(bytes));
    }
    Ok(((size, array), rest))
}

/// A field, where the fields before it have so many elements.
fn field_row_of(
    alloc: Global,
    hosts: usize,
    labels: usize,
    before: u32,
    bytes: &[u8],
) -> Result<(CodeField, &[u8]), ReadError>
    requires { before ≤ ELEMENTS }
    ensures field { GivesRead (λ x. (x.0, x.1.now)) result (field_row_at hosts labels before bytes.now) }
    ensures within { IfOk result (λ x. before + x.0.size ≤ ELEMENTS) }
{
    let (name, rest) = name_of(alloc, bytes)?;
    let (label, rest) = index_of(labels, rest)?;
    let ((size, array), rest) = shape_of(before, rest)?;
    let (first, rest) = i64_of(rest)?;
    let (host, rest) = host_id_of(hosts, rest)?;
    Ok((CodeField::new(name, label, size, array, first, host), rest))
}

/// So many fields.
fn field_rows_of(
    alloc: Global,
    hosts: usize,
    labels: usize,
    count: u32,
    bytes: &[u8],
) -> Result<(Vec<CodeField>, &[u8]), ReadError>
    ensures { GivesRead (λ x. (x.0.items, x.1.now)) result
        (items_at (λ before. field_row_at hosts labels (elements_of before)) [] count bytes.now) }
{
    let mut fields = Vec::new(alloc);
    let mut elements = 0;
    let mut rest = bytes;
    for _ in 0..count {
        let (field, after) = field_row_of(alloc, hosts, labels, elements, rest)?;
        elements += field.size();
        fields.push(field)?;
        rest = after;
    }
    Ok((fields, rest))
}

/// The fields.
fn fields_of<'a>(
    alloc: Global,
    hosts: &[CodeHost],
    labels: &[Label],
    bytes: &'a [u8],
) -> Result<(Vec<CodeField>, &'a [u8]), ReadError>
    ensures { GivesRead (λ x. (x.0.items, x.1.now)) result
        (list_at (λ before. field_row_at (length hosts.now) (length labels.now) (elements_of before)) bytes.now) }
{
    let (count, rest) = u32_of(bytes)?;
    field_rows_of(alloc, hosts.len(), labels.len(), count, rest)
}

/// A variable.
fn variable_row_of(
    alloc: Global,
    labels: usize,
    bytes: &[u8],
) -> Result<(CodeVar, &[u8]), ReadError>
    ensures { GivesRead (λ x. (x.0, x.1.now)) result (variable_row_at labels bytes.now) }
{
    let (name, rest) = variable_name_of(alloc, bytes)?;
    let (label, rest) = index_of(labels, rest)?;
    Ok((CodeVar::new(name, label), rest))
}

/// So many variables.
fn variable_rows_of(
    alloc: Global,
    labels: usize,
    count: u32,
    bytes: &[u8],
) -> Result<(Vec<CodeVar>, &[u8]), ReadError>
    ensures { GivesRead (λ x. (x.0.items, x.1.now)) result
        (items_at (λ _. variable_row_at labels) [] count bytes.now) }
{
    let mut vars = Vec::new(alloc);
    let mut rest = bytes;
    for _ in 0..count {
        let (var, after) = variable_row_of(alloc, labels, rest)?;
        vars.push(var)?;
        rest = after;
    }
    Ok((vars, rest))
}

/// The variables.
fn variables_of<'a>(
    alloc: Global,
    labels: &[Label],
    bytes: &'a [u8],
) -> Result<(Vec<CodeVar>, &'a [u8]), ReadError>
    ensures { GivesRead (λ x. (x.0.items, x.1.now)) result
        (list_at (λ _. variable_row_at (length labels.now)) bytes.now) }
{
    let (count, rest) = u32_of(bytes)?;
    variable_rows_of(alloc, labels.len(), count, rest)
}

/// What instructions name.
pub fn tables_of(alloc: Global, bytes: &[u8]) -> Result<(Tables, &[u8]), ReadError>
    ensures tables { GivesRead (λ x. (tables_shape x.0, x.1.now)) result (tables_at bytes.now) }
    ensures few { IfOk result (λ x. length x.0.hosts.items ≤ HOSTS) }
{
    let (hosts, rest) = hosts_of(alloc, bytes)?;
    let (labels, rest) = labels_of(alloc, rest)?;
    let (fields, rest) = fields_of(alloc, &hosts, &labels, rest)?;
    let (vars, rest) = variables_of(alloc, &labels, rest)?;
    let tables = Tables {
        hosts,
        labels,
        fields,
        vars,
    };
    Ok((tables, rest))
}
