//! Programs and a host file that are made, for a number of statements.

ghost use Rattle.std.specs.Prelude.{◌≡◌, ◌++◌, IfOk, OnOk};
ghost use Rattle.std.specs.String.{string_bytes};
ghost use Rattle.made_laws.specs.MadePrograms.{made_field, made_hosts, made_program, made_statement};
ghost use Rattle.made_laws.specs.MadePrograms.{made_statements};
ghost use Rattle.front_end.specs.Text.{line_text, lines_text};

use js_base::OutOfMemory;
use std::alloc::Global;
use std::fmt::Write;

/// What stands before the statements.
const HEAD: &str = "int{Alice:; ?:Alice} a;\nint{Bob:; ?:Bob} b;\nvoid main{?:Alice, Bob}() {\n";

/// The host file of all programs that are made.
const HOSTS: &str = "principals = ['Alice', 'Bob']\n\
    [[host]]\nname = 'T'\nlabel = '{?:Alice, Bob}'\n\
    [[host]]\nname = 'A'\nlabel = '{Alice:; ?:Alice}'\n\
    [[host]]\nname = 'B'\nlabel = '{Bob:; ?:Bob}'\n";

/// The host file.
pub fn made_hosts(alloc: Global) -> Result<String, OutOfMemory>
    ensures { IfOk result (λ text. string_bytes text ≡ made_hosts) }
{
    Ok(String::from_str(alloc, HOSTS)?)
}

/// The program of so many statements.
#[tactic(auto, using(crate::proofs::MadeTexts::program_parts))]
pub fn made_program(alloc: Global, statements: u64) -> Result<String, OutOfMemory>
    ensures { IfOk result (λ text. string_bytes text ≡ made_program statements) }
{
    let mut text = String::from_str(alloc, HEAD)?;
    push_statements(&mut text, statements)?;
    text.push_str("}\n")?;
    Ok(text)
}

/// Adds so many statements, numbered from 0.
fn push_statements(text: &mut String, statements: u64) -> Result<(), OutOfMemory>
    ensures { OnOk result (
        string_bytes text.new ≡ string_bytes text.old ++ lines_text (made_statements statements)) }
{
    for number in 0..statements {
        push_statement(text, number)?;
    }
    Ok(())
}

/// Adds the statement of this number, which adds its number to its field.
fn push_statement(text: &mut String, number: u64) -> Result<(), OutOfMemory>
    ensures { OnOk result (string_bytes text.new ≡ string_bytes text.old ++ line_text (made_statement number)) }
{
    let field = made_field(number);
    writeln!(text, "{field} = {field} + {number};").map_err(|_| OutOfMemory)
}

/// The field that the statement of this number sets.
fn made_field(number: u64) -> &'static str
    ensures { result.now ≡ made_field number }
{
    if number % 2 == 0 { "a" } else { "b" }
}
