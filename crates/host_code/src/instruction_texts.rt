//! How instructions are printed.

ghost use Rattle.std.specs.Prelude.{◌≡◌, ◌++◌, IfOk, codes};
ghost use Rattle.std.specs.Fmt.{decimal};
ghost use Rattle.std.specs.String.{string_bytes};
ghost use Rattle.host_code.specs.InstructionText as text;
ghost use Rattle.host_code.specs.MessageText.{entry_text};

use crate::code::Code;
use crate::instruction::Op;
use crate::message_texts::{field_name, host_name, var_name};
use js_base::{EntryId, OutOfMemory, VarId};
use std::alloc::Global;

/// An instruction as it is listed: its name and what it names, without its expressions.
pub fn instruction_text(alloc: Global, code: &Code, op: &Op) -> Result<String, OutOfMemory>
    ensures { IfOk result (λ printed. string_bytes printed ≡ text.instruction_text code.now op.now) }
{
    match op {
        Op::Read(field, _) => of_name(alloc, "read", field_name(code, *field)),
        Op::Let(var, _) => of_name(alloc, "let", var_name(code, *var)),
        Op::Put(field, _, _) => of_name(alloc, "store", field_name(code, *field)),
        Op::Send(var, to) => of_names(alloc, "send", var_name(code, *var), host_name(code, *to)),
        Op::Frame(site) => of_number(alloc, "frame", site.0),
        Op::Arg(var, _) => of_name(alloc, "arg", var_name(code, *var)),
        Op::Pass(var, to) => of_names(alloc, "pass", var_name(code, *var), host_name(code, *to)),
        Op::Push(entry) => Ok(format!(in alloc; "push e{}", entry.0)?),
        Op::Ask(entry, on) => of_entry(alloc, "ask", *entry, host_name(code, *on)),
        Op::Go(entry, on) => of_entry(alloc, "go", *entry, host_name(code, *on)),
        Op::Call(entry, on) => of_entry(alloc, "call", *entry, host_name(code, *on)),
        Op::Ret(var, _) => of_name(alloc, "ret", var_name(code, *var)),
        Op::Back => Ok(String::from_str(alloc, "back")?),
        Op::Branch(_, target) => of_number(alloc, "branch", *target),
        Op::GoWith(entry, on, riders) => {
            of_riders(
                alloc,
                "go",
                *entry,
                host_name(code, *on),
                variables_text(alloc, code, riders.vars())?.as_str(),
            )
        }
        Op::CallWith(entry, on, riders) => {
            of_riders(
                alloc,
                "call",
                *entry,
                host_name(code, *on),
                variables_text(alloc, code, riders.vars())?.as_str(),
            )
        }
    }
}

fn of_name(alloc: Global, verb: &str, name: &str) -> Result<String, OutOfMemory>
    ensures { IfOk result (λ printed. string_bytes printed ≡ verb.now ++ codes " " ++ name.now) }
{
    Ok(format!(in alloc; "{verb} {name}")?)
}

fn of_names(alloc: Global, verb: &str, first: &str, second: &str) -> Result<String, OutOfMemory>
    ensures { IfOk result (λ printed.
        string_bytes printed ≡ verb.now ++ codes " " ++ first.now ++ codes " " ++ second.now) }
{
    Ok(format!(in alloc; "{verb} {first} {second}")?)
}

fn of_number(alloc: Global, verb: &str, number: u32) -> Result<String, OutOfMemory>
    ensures { IfOk result (λ printed. string_bytes printed ≡ verb.now ++ codes " " ++ decimal number) }
{
    Ok(format!(in alloc; "{verb} {number}")?)
}

fn of_entry(alloc: Global, verb: &str, entry: EntryId, on: &str) -> Result<String, OutOfMemory>
    ensures { IfOk result (λ printed.
        string_bytes printed ≡ verb.now ++ codes " " ++ entry_text entry ++ codes " " ++ on.now) }
{
    Ok(format!(in alloc; "{verb} e{} {on}", entry.0)?)
}

fn of_riders(
    alloc: Global,
    verb: &str,
    entry: EntryId,
    on: &str,
    riders: &str,
) -> Result<String, OutOfMemory>
    ensures { IfOk result (λ printed. string_bytes printed ≡
        verb.now ++ codes " " ++ entry_text entry ++ codes " " ++ on.now ++ codes " with" ++ riders.now) }
{
    Ok(format!(in alloc; "{verb} e{} {on} with{riders}", entry.0)?)
}

/// The names of the variables that ride, with a blank before each.
fn variables_text(alloc: Global, code: &Code, vars: &[VarId]) -> Result<String, OutOfMemory>
    ensures { IfOk result (λ printed. string_bytes printed ≡ text.variables_text code.now vars.now) }
{
    let mut printed = String::new(alloc);
    for var in vars {
        printed.push_str(" ")?;
        printed.push_str(var_name(code, *var))?;
    }
    Ok(printed)
}
