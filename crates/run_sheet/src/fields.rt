//! The fields at the end of a run: their values, and who may have affected them.

ghost use Rattle.std.specs.Prelude.{◌≡◌, ◌++◌, ◌<◌, ◌^◌, [], ◌∷◌, IfOk, OnOk, Some, codes, flat_map, length, map};
ghost use Rattle.std.specs.Prelude.{option_copied, slice_get, string_bytes};
ghost use Rattle.std.specs.Fmt.{signed_decimal};
ghost use Rattle.host_core.specs.Host.{state_of};
ghost use Rattle.std.specs.Option.{option_map};
ghost use Rattle.host_code.specs.MessageText.{host_text};
ghost use Rattle.net_world.specs.Fits.{WorldFits, world_of};
ghost use Rattle.net_world.specs.World.{misbehaves, state_at};
ghost use Rattle.run_chart.specs.Sheets.{chart_field_shape};
ghost use Rattle.run_sheet.specs.FieldMarks.{chart_field, chart_fields, elements_on, elements_words, field_mark};
ghost use Rattle.run_sheet.specs.FieldMarks.{listed_hosts, misbehaving_in, reaches_field, reaching, value_words};
ghost use Rattle.run_sheet.specs.FieldMarks.{who_affects, who_words};

use host_code::{Code, CodeField, host_name};
use host_core::Host;
use js_base::limits::HOSTS;
use js_base::{FieldId, HostId, OutOfMemory};
use net_world::World;
use run_chart::{ChartField, Mark};
use std::alloc::Global;
use std::fmt::Write;

/// Whether a host of the code misbehaves.
pub fn misbehaves(code: &Code, world: &World, host: HostId) -> bool
    requires fits { WorldFits code.now world.now }
    requires host { host.0 < length code.now.hosts }
    ensures { result ≡ misbehaves (world_of world.now) host }
{
    let _sound = code.hosts();
    world.host(host).is_none()
}

/// The hosts that misbehave, in order.
pub fn misbehaving_of(alloc: Global, code: &Code, world: &World) -> Result<Vec<HostId>, OutOfMemory>
    requires { WorldFits code.now world.now }
    ensures { IfOk result (λ bad. bad.items ≡ misbehaving_in code.now (world_of world.now)) }
{
    let count = code.hosts().len();
    prove!(count <= HOSTS);
    let mut bad = Vec::new(alloc);
    for number in 0..count {
        let host = HostId(number as u8);
        if misbehaves(code, world, host) {
            bad.push(host)?;
        }
    }
    Ok(bad)
}

/// The fields on a host, where these misbehave.
pub fn chart_fields(
    alloc: Global,
    code: &Code,
    world: &World,
    bad: &[HostId],
    host: HostId,
) -> Result<Vec<ChartField>, OutOfMemory>
    requires { WorldFits code.now world.now }
    ensures { IfOk result (λ fields. map chart_field_shape fields.items
        ≡ chart_fields code.now (world_of world.now) bad.now host 0 code.now.fields) }
{
    let mut fields = Vec::new(alloc);
    for (number, field) in code.fields().iter().enumerate() {
        if field.host().0 == host.0 {
            fields.push(chart_field(alloc, code, world, bad, number, field)?)?;
        }
    }
    Ok(fields)
}

/// A field of a number, where these hosts misbehave.
fn chart_field(
    alloc: Global,
    code: &Code,
    world: &World,
    bad: &[HostId],
    number: usize,
    field: &CodeField,
) -> Result<ChartField, OutOfMemory>
    requires fits { WorldFits code.now world.now }
    requires host { field.now.host.0 < length code.now.hosts }
    requires number { number < 2 ^ 32 }
    ensures { IfOk result (λ found. chart_field_shape found
        ≡ chart_field code.now (world_of world.now) bad.now number field.now) }
{
    let on_bad = misbehaves(code, world, field.host());
    let affecting = reaching(alloc, code, field, bad)?;
    let text = field_text(alloc, world, number, field)?;
    let who = who_text(alloc, code, field.host(), on_bad, affecting.as_slice())?;
    Ok(ChartField {
        text,
        mark: field_mark(on_bad, bad, affecting.as_slice()),
        who,
    })
}

/// The name and the value of a field.
fn field_text(
    alloc: Global,
    world: &World,
    number: usize,
    field: &CodeField,
) -> Result<String, OutOfMemory>
    requires { number < 2 ^ 32 }
    ensures { IfOk result (λ text. string_bytes text ≡ field.now.name ++ codes " = "
        ++ value_words (state_at (world_of world.now) field.now.host) number field.now.size) }
{
    let name = field.name();
    let mut text = format!(in alloc; "{name} = ")?;
    match world.host(field.host()) {
        Some(host) => {
            let elements = elements_on(alloc, host, FieldId(number as u32), field.size())?;
            push_elements(&mut text, elements.as_slice())?;
        }
        None => text.push_str("?")?,
    }
    Ok(text)
}

/// So many elements of a field on a host.
fn elements_on(
    alloc: Global,
    host: &Host,
    field: FieldId,
    size: u32,
) -> Result<Vec<i64>, OutOfMemory>
    ensures { IfOk result (λ elements.
        elements.items ≡ elements_on (state_of host.now) field.0 size) }
{
    let mut elements = Vec::new(alloc);
    for index in 0..size {
        elements.push(host.field(field, i64::from(index)))?;
    }
    Ok(elements)
}

/// Adds elements, parted by blanks.
fn push_elements(text: &mut String, elements: &[i64]) -> Result<(), OutOfMemory>
    ensures { OnOk result (string_bytes text.new ≡ string_bytes text.old ++ elements_words elements.now) }
{
    let Some((first, rest)) = elements.split_first() else {
        return Ok(());
    };
    write!(text, "{first}").map_err(|_| OutOfMemory)?;
    push_others(text, rest)
}

/// Adds the elements behind the first, each after a blank.
fn push_others(text: &mut String, elements: &[i64]) -> Result<(), OutOfMemory>
    ensures { OnOk result (string_bytes text.new ≡ string_bytes text.old
        ++ flat_map (λ element. 32 ∷ signed_decimal element) elements.now) }
{
    for element in elements {
        write!(text, " {element}").map_err(|_| OutOfMemory)?;
    }
    Ok(())
}

/// Who of these hosts may affect a field.
fn reaching(
    alloc: Global,
    code: &Code,
    field: &CodeField,
    bad: &[HostId],
) -> Result<Vec<HostId>, OutOfMemory>
    ensures { IfOk result (λ affecting. affecting.items ≡ reaching code.now field.now bad.now) }
{
    let mut affecting = Vec::new(alloc);
    for host in bad {
        if reaches(code, field, *host) {
            affecting.push(*host)?;
        }
    }
    Ok(affecting)
}

/// Whether a host that misbehaves may affect a field: whoever trusts the field trusts the host.
fn reaches(code: &Code, field: &CodeField, host: HostId) -> bool
    ensures { result ≡ reaches_field code.now field.now host }
{
    match (code.host(host), code.label(field.label())) {
        (Some(host), Some(label)) => host.label().integ_flows(label),
        _ => false,
    }
}

/// The mark of a field on a host that misbehaves or not, where these misbehave and these of them may affect the field.
fn field_mark(on_bad: bool, bad: &[HostId], affecting: &[HostId]) -> Mark
    ensures { result ≡ field_mark on_bad bad.now affecting.now }
{
    if bad.is_empty() {
        Mark::Plain
    } else if on_bad || !affecting.is_empty() {
        Mark::Open
    } else {
        Mark::Kept
    }
}

/// Who may affect a field on this host, which misbehaves or not.
fn who_text(
    alloc: Global,
    code: &Code,
    host: HostId,
    on_bad: bool,
    affecting: &[HostId],
) -> Result<String, OutOfMemory>
    ensures { IfOk result (λ text. string_bytes text ≡ who_words code.now host on_bad affecting.now) }
{
    if on_bad {
        let name = host_name(code, host);
        Ok(format!(in alloc; "as {name} likes")?)
    } else {
        affecting_text(alloc, code, affecting)
    }
}

/// Who may affect a field.
fn affecting_text(alloc: Global, code: &Code, affecting: &[HostId]) -> Result<String, OutOfMemory>
    ensures { IfOk result (λ text. string_bytes text ≡ who_affects code.now affecting.now) }
{
    let mut text = String::new(alloc);
    if let Some((first, others)) = affecting.split_first() {
        text.push_str(host_name(code, *first))?;
        push_hosts(&mut text, code, others)?;
        text.push_str(" may affect it")?;
    }
    Ok(text)
}

/// Adds the names of hosts, each after a comma.
fn push_hosts(text: &mut String, code: &Code, hosts: &[HostId]) -> Result<(), OutOfMemory>
    ensures { OnOk result (string_bytes text.new ≡ string_bytes text.old
        ++ flat_map (λ host. codes ", " ++ host_text code.now host) hosts.now) }
{
    for host in hosts {
        text.push_str(", ")?;
        text.push_str(host_name(code, *host))?;
    }
    Ok(())
}
