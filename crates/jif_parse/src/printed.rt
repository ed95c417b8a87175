//! Programs as they are printed.

ghost use Rattle.std.specs.Prelude.{◌≡◌, IfOk, map, string_bytes};
ghost use Rattle.std.specs.List.{flat_map};
ghost use Rattle.jif_tree.specs.Trees.{program_tree, field_tree};
ghost use Rattle.jif_parse.specs.PrintedProgram.{printed_program, field_text};

mod exprs;
mod laws;
mod methods;
mod names;
mod operators;
mod statements;

pub use crate::printed::laws::program_text_laws;
use crate::printed::methods::methods_text;
use crate::printed::names::Names;
use jif_tree::{Field, Program};
use js_base::OutOfMemory;
use label_lattice::label_text;
use principals::Principals;
use std::alloc::Global;

/// A program as it is printed, with the names of the principals that it was resolved over: the fields, and then the
/// methods, each statement on a line of its own. An expression has no more parentheses than its operators ask for.
pub fn program_text(
    alloc: Global,
    program: &Program,
    principals: &Principals,
) -> Result<String, OutOfMemory>
    ensures { IfOk result (λ text. string_bytes text ≡ printed_program principals.now (program_tree program.now)) }
{
    let names = Names {
        principals,
        program,
    };
    let fields = fields_text(alloc, principals, &program.fields)?;
    let methods = methods_text(alloc, &names)?;
    Ok(format!(in alloc; "{fields}{methods}")?)
}

/// The fields, each on a line.
fn fields_text(
    alloc: Global,
    principals: &Principals,
    fields: &[Field],
) -> Result<String, OutOfMemory>
    ensures { IfOk result (λ text. string_bytes text
        ≡ flat_map (field_text principals.now) (map field_tree fields.now)) }
{
    let mut text = String::new(alloc);
    for field in fields {
        text.push_str(field_text(alloc, principals, field)?.as_str())?;
    }
    Ok(text)
}

/// A field, with its size where it is an array, and otherwise with its first value where that is not 0.
fn field_text(alloc: Global, principals: &Principals, field: &Field) -> Result<String, OutOfMemory>
    ensures { IfOk result (λ text. string_bytes text ≡ field_text principals.now (field_tree field.now)) }
{
    let label = label_text(alloc, &field.label, principals)?;
    let name = field.name.as_str();
    let (size, first) = (field.size, field.first);
    if field.array {
        return Ok(format!(in alloc; "int{label} {name}[{size}];\n")?);
    }
    if first == 0 {
        return Ok(format!(in alloc; "int{label} {name};\n")?);
    }
    Ok(format!(in alloc; "int{label} {name} = {first};\n")?)
}
