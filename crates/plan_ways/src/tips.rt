//! What a way stands for, in words.

ghost use Rattle.std.specs.Prelude.{◌≡◌, ◌++◌, OnOk, map, slice_get};
ghost use Rattle.std.specs.String.{string_bytes};
ghost use Rattle.jif_tree.specs.Trees.{method_tree, program_tree};
ghost use Rattle.host_code.specs.InstructionText.{variables_text};
ghost use Rattle.plan_ways.specs.Tips as tips;

use crate::ends::{Way, WayKind, WayText};
use host_code::{Code, Op, RiderVars, field_name, host_name, var_name};
use jif_tree::{Method, Program};
use js_base::{EntryId, HostId, OutOfMemory};
use std::fmt::Write;

/// Adds what a way stands for: `statement K: HOST reads FIELD of HOST` and the like, with the variables whose values
/// ride along. Letters that mean something in a page are not written otherwise.
///
/// # Errors
/// Memory ran out.
pub fn push_tip(
    text: &mut String,
    code: &Code,
    program: &Program,
    way: &Way,
) -> Result<(), OutOfMemory>
    ensures { OnOk result (string_bytes text.new
        ≡ string_bytes text.old ++ tips.tip_text code.now (program_tree program.now) way.now) }
{
    push_who(text, code, way)?;
    push_what(text, code, program, way.what)?;
    text.push_str(link_of(way.kind, way.what))?;
    text.push_str(host_name(code, other_of(way)))?;
    push_riders(text, code, way)
}

/// Adds for which statement a host does it.
fn push_who(text: &mut String, code: &Code, way: &Way) -> Result<(), OutOfMemory>
    ensures { OnOk result (string_bytes text.new ≡ string_bytes text.old ++ tips.who_text code.now way.now) }
{
    let number = way.statement.0;
    let name = host_name(code, way.host);
    let verb = verb_of(way.kind, way.what);
    write!(text, "statement {number}: {name}{verb}").map_err(|_| OutOfMemory)?;
    Ok(())
}

/// What the host does, in words.
fn verb_of(kind: WayKind, what: WayText) -> &'static str
    ensures { result.now ≡ tips.verb_of kind what }
{
    match kind {
        WayKind::Get => " reads ",
        WayKind::Set => " sets ",
        WayKind::Forward => " sends ",
        WayKind::Sync => " pushes ",
        WayKind::Go => {
            if is_call(what) {
                " calls "
            } else {
                " goes on at "
            }
        }
        WayKind::Back => " gives the token of ",
    }
}

/// How the other host is joined to it.
fn link_of(kind: WayKind, what: WayText) -> &'static str
    ensures { result.now ≡ tips.link_of kind what }
{
    match kind {
        WayKind::Get => " of ",
        WayKind::Set => " of ",
        WayKind::Forward => " to ",
        WayKind::Sync => " on ",
        WayKind::Go => { if is_call(what) { " on " } else { " of " } }
        WayKind::Back => " back to ",
    }
}

/// Whether it is about a method that is called.
fn is_call(what: WayText) -> bool
    ensures { result ≡ tips.is_call what }
{
    match what {
        WayText::Method(_) => true,
        _ => false,
    }
}

/// The other host: that of the field that is read, or the one to which the way leads.
fn other_of(way: &Way) -> HostId
    ensures { result ≡ tips.other_of way.now }
{
    match way.kind {
        WayKind::Get => way.from,
        _ => way.to,
    }
}

/// Adds what it is about.
fn push_what(
    text: &mut String,
    code: &Code,
    program: &Program,
    what: WayText,
) -> Result<(), OutOfMemory>
    ensures { OnOk result (string_bytes text.new
        ≡ string_bytes text.old ++ tips.what_text code.now (program_tree program.now) what) }
{
    match what {
        WayText::Field(field) => text.push_str(field_name(code, field))?,
        WayText::Variable(variable) => text.push_str(var_name(code, variable))?,
        WayText::Result(variable) => text.push_str(var_name(code, variable))?,
        WayText::Entry(entry) => push_entry(text, entry)?,
        WayText::Method(entry) => push_method(text, program, entry)?,
    }
    Ok(())
}

/// Adds the name of an entry.
fn push_entry(text: &mut String, entry: EntryId) -> Result<(), OutOfMemory>
    ensures { OnOk result (string_bytes text.new ≡ string_bytes text.old ++ tips.entry_text entry) }
{
    let number = entry.0;
    write!(text, "e{number}").map_err(|_| OutOfMemory)?;
    Ok(())
}

/// Adds the name of the method that is entered at an entry.
fn push_method(text: &mut String, program: &Program, entry: EntryId) -> Result<(), OutOfMemory>
    ensures { OnOk result (string_bytes text.new
        ≡ string_bytes text.old ++ tips.method_text (program_tree program.now) entry) }
{
    match entry.0 {
        0 => {}
        place => push_name(text, &program.methods, place as usize - 1)?,
    }
    Ok(())
}

/// Adds the name of a method, where there is one at the place.
fn push_name(text: &mut String, methods: &[Method], place: usize) -> Result<(), OutOfMemory>
    ensures { OnOk result (string_bytes text.new
        ≡ string_bytes text.old ++ tips.name_of_method (slice_get (map method_tree methods.now) place)) }
{
    let Some(method) = methods.get(place) else {
        return Ok(());
    };
    text.push_str(method.name.as_str())?;
    Ok(())
}

/// Adds the variables whose values ride along.
fn push_riders(text: &mut String, code: &Code, way: &Way) -> Result<(), OutOfMemory>
    ensures { OnOk result (string_bytes text.new ≡ string_bytes text.old ++ tips.riders_text code.now way.now) }
{
    if !way.rides {
        return Ok(());
    }
    let Some(instruction) = code.part(way.host).get(way.at) else {
        return Ok(());
    };
    push_riders_of(text, code, &instruction.op)
}

/// Adds the variables whose values ride with what an instruction sends.
fn push_riders_of(text: &mut String, code: &Code, op: &Op) -> Result<(), OutOfMemory>
    ensures { OnOk result (string_bytes text.new ≡ string_bytes text.old ++ tips.riders_of code.now op.now) }
{
    match op {
        Op::GoWith(_, _, riders) => push_variables(text, code, riders),
        Op::CallWith(_, _, riders) => push_variables(text, code, riders),
        _ => Ok(()),
    }
}

/// Adds the names of these variables.
fn push_variables(text: &mut String, code: &Code, riders: &RiderVars) -> Result<(), OutOfMemory>
    ensures { OnOk result (string_bytes text.new ≡ string_bytes text.old ++ tips.with_text code.now riders.now) }
{
    text.push_str(" with")?;
    let riders = riders.vars();
    for variable in riders {
        text.push_str(" ")?;
        text.push_str(var_name(code, *variable))?;
    }
    Ok(())
}
