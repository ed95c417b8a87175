//! The names that a program is printed with. What has no name there has an empty one.

ghost use Rattle.std.specs.Prelude.{◌≡◌};
ghost use Rattle.jif_parse.specs.PrintedNames.{naming_of, field_name, variable_name, variable_label, method_name};
ghost use Rattle.jif_parse.specs.PrintedNames.{principal_name};

use jif_tree::Program;
use js_base::{FieldId, MethodId, PrincipalId, VarId};
use label_lattice::Label;
use principals::Principals;

/// A program, and the principals that it was resolved over.
#[derive(Clone, Copy)]
pub struct Names<'a> {
    pub principals: &'a Principals,
    pub program: &'a Program,
}

/// The name of a field.
pub fn field_name<'a>(names: &Names<'a>, field: FieldId) -> &'a str
    ensures { result.now ≡ field_name (naming_of names.now) field }
{
    match names.program.fields.get(field.0 as usize) {
        Some(field) => field.name.as_str(),
        None => "",
    }
}

/// The name of a variable.
pub fn variable_name<'a>(names: &Names<'a>, variable: VarId) -> &'a str
    ensures { result.now ≡ variable_name (naming_of names.now) variable }
{
    match names.program.vars.get(variable.0 as usize) {
        Some(variable) => variable.name.as_str(),
        None => "",
    }
}

/// The label with which a variable is declared.
pub fn variable_label(names: &Names<'_>, variable: VarId) -> Option<Label>
    ensures { result ≡ variable_label (naming_of names.now) variable }
{
    match names.program.vars.get(variable.0 as usize) {
        Some(variable) => variable.label,
        None => None,
    }
}

/// The name of a method.
pub fn method_name<'a>(names: &Names<'a>, method: MethodId) -> &'a str
    ensures { result.now ≡ method_name (naming_of names.now) method }
{
    match names.program.methods.get(method.0 as usize) {
        Some(method) => method.name.as_str(),
        None => "",
    }
}

/// The name of a principal.
pub fn principal_name<'a>(names: &Names<'a>, principal: PrincipalId) -> &'a str
    ensures { result.now ≡ principal_name (naming_of names.now) principal }
{
    if principal.0 < names.principals.count() {
        names.principals.name(principal)
    } else {
        ""
    }
}
