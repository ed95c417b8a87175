//! How the parts of a program are named.

ghost use Rattle.std.specs.Prelude.{◌≡◌, IfOk, Some, count_by, map, nat_le, slice_get};
ghost use Rattle.std.specs.String.{string_bytes};
ghost use Rattle.jif_tree.specs.Trees.{field_tree, method_tree, program_tree, var_tree};
ghost use Rattle.explain_texts.specs.Names as names;

use crate::token_texts::earlier;
use jif_tree::{Method, Program, Var};
use js_base::{FieldId, MethodId, OutOfMemory, PrincipalId, StmtId, VarId};
use principals::Principals;
use std::alloc::Global;

/// The name of a principal, or what stands for all that are not declared.
pub fn principal_name(principals: &Principals, number: u8) -> &str
    ensures { result.now ≡ names.principal_name principals.now number }
{
    if number < principals.count() {
        principals.name(PrincipalId(number))
    } else {
        "outsiders"
    }
}

/// The name of a field, empty where there is no such field.
pub fn field_name(program: &Program, field: FieldId) -> &str
    ensures { result.now ≡ names.field_name (program_tree program.now) field }
{
    match program.fields.get(field.0 as usize) {
        Some(one) => one.name.as_str(),
        None => "",
    }
}

/// Whether it is a field or an array.
pub fn kind_of_field(program: &Program, field: FieldId) -> &'static str
    ensures { result.now ≡ names.kind_of_field (slice_get (map field_tree program.now.fields.items) field.0) }
{
    match program.fields.get(field.0 as usize) {
        Some(one) => { if one.array { "array " } else { "field " } }
        None => "",
    }
}

/// The name of a variable, empty where there is no such variable.
pub fn variable_name(program: &Program, x: VarId) -> &str
    ensures { result.now ≡ names.variable_name (program_tree program.now) x }
{
    match program.vars.get(x.0 as usize) {
        Some(one) => one.name.as_str(),
        None => "",
    }
}

/// The name of a method, empty where there is no such method.
pub fn method_name(program: &Program, method: MethodId) -> &str
    ensures { result.now ≡ names.method_name (program_tree program.now) method }
{
    match program.methods.get(method.0 as usize) {
        Some(one) => one.name.as_str(),
        None => "",
    }
}

/// A variable: a local behind these words, a parameter or a result.
pub fn variable_words(
    alloc: Global,
    program: &Program,
    front: &str,
    x: VarId,
) -> Result<String, OutOfMemory>
    ensures { IfOk result (λ words.
        string_bytes words ≡ names.variable_words (program_tree program.now) front.now x) }
{
    match program.vars.get(x.0 as usize) {
        Some(var) => words_of(alloc, program, front, x, var),
        None => Ok(String::new(alloc)),
    }
}

/// A variable that is there.
fn words_of(
    alloc: Global,
    program: &Program,
    front: &str,
    x: VarId,
    var: &Var,
) -> Result<String, OutOfMemory>
    ensures { IfOk result (λ words.
        string_bytes words ≡ names.words_of (program_tree program.now) front.now x (Some (var_tree var.now))) }
{
    let name = var.name.as_str();
    match program.methods.get(var.method.0 as usize) {
        Some(method) => words_in(alloc, front, x, name, method),
        None => Ok(format!(in alloc; "{front}{name}")?),
    }
}

/// A variable of this name and this method.
fn words_in(
    alloc: Global,
    front: &str,
    x: VarId,
    name: &str,
    method: &Method,
) -> Result<String, OutOfMemory>
    ensures { IfOk result (λ words.
        string_bytes words ≡ names.words_in front.now x name.now (Some (method_tree method.now))) }
{
    let own = method.name.as_str();
    if is_result(method.result, x) {
        return Ok(format!(in alloc; "the result of {own}")?);
    }
    if is_param(&method.params, x) {
        return Ok(format!(in alloc; "parameter {name} of {own}")?);
    }
    Ok(format!(in alloc; "{front}{name}")?)
}

/// Whether the variable keeps this result.
fn is_result(kept: Option<VarId>, x: VarId) -> bool
    ensures { result ≡ names.is_result kept x }
{
    match kept {
        Some(other) => other.0 == x.0,
        None => false,
    }
}

/// Whether the variable is one of these parameters.
fn is_param(params: &[VarId], x: VarId) -> bool
    ensures { result ≡ names.is_param params.now x }
{
    params.iter().any(|other| other.0 == x.0)
}

/// The name of the method in which a statement stands.
pub fn method_around(program: &Program, statement: StmtId) -> &str
    ensures { result.now ≡ names.method_around (program_tree program.now) statement }
{
    let count = heads_before(&program.methods, statement);
    name_at(program, earlier(count, 1))
}

/// The name of the method at a place, empty where there is none.
fn name_at(program: &Program, place: usize) -> &str
    ensures { result.now ≡ names.name_at (program_tree program.now) place }
{
    match program.methods.get(place) {
        Some(one) => one.name.as_str(),
        None => "",
    }
}

/// How many methods have a head that is not behind a statement.
fn heads_before(methods: &[Method], statement: StmtId) -> usize
    ensures { result ≡ count_by (λ method. nat_le method.head.0 statement.0) methods.now }
{
    methods
        .iter()
        .filter(|method| method.head.0 <= statement.0)
        .count()
}
