//! Whether the lines of a journal tell which field and which variable is meant.

ghost use Rattle.std.specs.Prelude.{◌≡◌, IfOk, IfSome, IfNone, map, string_bytes};
ghost use Rattle.std.specs.List.{IsDistinct};
ghost use Rattle.std.specs.Str.{bytes_eq};
ghost use Rattle.js_base.specs.Named.{IsFirstRepeated};
ghost use Rattle.journal_laws.specs.Plays.{HaveOwnNames};
ghost use Rattle.front_end.specs.Loading.{EndsAs, StopsWith};
ghost use Rattle.node_starts.specs.NodeSources.{AreHostsOf};
ghost use Rattle.jiffields.specs.Names.{NamesRead, field_names, two_fields, two_variables, variable_names};

use front_end::{Refusal, Stop, Verdict};
use host_code::Code;
use host_decl::Hosts;
use js_base::OutOfMemory;
use js_base::named::first_repeated;
use js_base::text::owned_text;
use node_starts::copies;
use std::alloc::{AllocError, Global};

/// That no two fields and no two variables of the code of a file have one name, or what is due where two have.
pub fn names_read(alloc: Global, file: &str, code: &Code, hosts: &Hosts) -> Result<(), Stop>
    requires { AreHostsOf code.now hosts.now.hosts }
    ensures due { EndsAs (λ _. code.now) (NamesRead file.now code.now) result }
    ensures own { IfOk result (λ _. HaveOwnNames code.now) }
{
    let _rows = hosts.hosts();
    let _hosts = code.hosts();
    let fields = field_names(alloc, code)?;
    if let Some(name) = repeated(&fields) {
        return Err(two_fields(alloc, file, name));
    }
    let variables = variable_names(alloc, code)?;
    if let Some(name) = repeated(&variables) {
        return Err(two_variables(alloc, file, name));
    }
    Ok(())
}

/// The names of the fields, in order.
fn field_names(alloc: Global, code: &Code) -> Result<Vec<String>, OutOfMemory>
    ensures { IfOk result (λ names. map string_bytes names.items ≡ field_names code.now) }
{
    let fields = code.fields();
    let mut names = Vec::new(alloc);
    for field in fields {
        names.push(owned_text(alloc, field.name())?)?;
    }
    Ok(names)
}

/// The names of the variables, in order.
fn variable_names(alloc: Global, code: &Code) -> Result<Vec<String>, OutOfMemory>
    ensures { IfOk result (λ names. map string_bytes names.items ≡ variable_names code.now) }
{
    let variables = code.vars();
    let mut names = Vec::new(alloc);
    for variable in variables {
        names.push(owned_text(alloc, variable.name())?)?;
    }
    Ok(names)
}

/// The first name that repeats an earlier one.
fn repeated(names: &[String]) -> Option<&str>
    ensures some { IfSome result (λ name. IsFirstRepeated (map string_bytes names.now) name.now) }
    ensures none { IfNone result (IsDistinct bytes_eq (map string_bytes names.now)) }
{
    match first_repeated(names) {
        Some(place) => Some(names[place].as_str()),
        None => None,
    }
}

/// The code of the file has two fields of this name.
fn two_fields(alloc: Global, file: &str, name: &str) -> Stop
    ensures { StopsWith (λ verdict. verdict ≡ two_fields file.now name.now) result }
{
    match copies(alloc, file, name) {
        Ok((file, name)) => Stop::Due(Verdict::Refuse(Refusal::TwoFields { file, name })),
        Err(AllocError) => Stop::OutOfMemory,
    }
}

/// The code of the file has two variables of this name.
fn two_variables(alloc: Global, file: &str, name: &str) -> Stop
    ensures { StopsWith (λ verdict. verdict ≡ two_variables file.now name.now) result }
{
    match copies(alloc, file, name) {
        Ok((file, name)) => Stop::Due(Verdict::Refuse(Refusal::TwoVariables { file, name })),
        Err(AllocError) => Stop::OutOfMemory,
    }
}
