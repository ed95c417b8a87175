//! Methods as they are printed.

ghost use Rattle.std.specs.Prelude.{◌≡◌, IfOk, OnOk, map, string_bytes, codes};
ghost use Rattle.std.specs.List.{join_by};
ghost use Rattle.jif_tree.specs.Trees.{method_tree};
ghost use Rattle.jif_parse.specs.PrintedNames.{naming_of, principal_name};
ghost use Rattle.jif_parse.specs.PrintedProgram.{declared_text, kind_text, authority_text, method_text, methods_text};
ghost use Rattle.jif_parse.specs.PrintedProgram.{seen_after_all, seen_after_method};

use crate::printed::names::{Names, principal_name, variable_label};
use crate::printed::statements::{block_text, declared_text, optional_label_text, see};
use jif_tree::Method;
use js_base::text::owned_text;
use js_base::{OutOfMemory, PrincipalId, VarId};
use label_lattice::label_text;
use std::alloc::Global;

/// The methods of a program, one after the other.
pub fn methods_text(alloc: Global, names: &Names<'_>) -> Result<String, OutOfMemory>
    ensures { IfOk result (λ text. string_bytes text
        ≡ methods_text (naming_of names.now) 0 (map method_tree names.now.program.now.methods.items)) }
{
    let mut text = String::new(alloc);
    let mut seen = 0;
    for method in &names.program.methods {
        text.push_str(method_text(alloc, names, &mut seen, method)?.as_str())?;
    }
    Ok(text)
}

/// A method.
fn method_text(
    alloc: Global,
    names: &Names<'_>,
    seen: &mut u64,
    method: &Method,
) -> Result<String, OutOfMemory>
    ensures text { IfOk result (λ text. string_bytes text
        ≡ method_text (naming_of names.now) seen.old (method_tree method.now)) }
    ensures seen { OnOk result (seen.new ≡ seen_after_method seen.old (method_tree method.now)) }
{
    let kind = kind_text(alloc, names, method.result)?;
    let name = method.name.as_str();
    let begin = label_text(alloc, &method.begin, names.principals)?;
    let params = params_text(alloc, names, &method.params)?;
    let authority = authority_text(alloc, names, &method.authority)?;
    see_all(seen, &method.params);
    let body = block_text(alloc, names, seen, &method.body)?;
    if let Some(result) = method.result {
        see(seen, result);
    }
    Ok(format!(in alloc; "{kind} {name}{begin}({params}){authority} {{\n{body}}}\n")?)
}

/// `void`, or `int` with the label of the result.
fn kind_text(alloc: Global, names: &Names<'_>, kept: Option<VarId>) -> Result<String, OutOfMemory>
    ensures { IfOk result (λ text. string_bytes text ≡ kind_text (naming_of names.now) kept) }
{
    match kept {
        Some(variable) => {
            let label = optional_label_text(
                alloc,
                variable_label(names, variable),
                names.principals,
            )?;
            Ok(format!(in alloc; "int{label}")?)
        }
        None => owned_text(alloc, "void"),
    }
}

/// The parameters, which commas part.
fn params_text(alloc: Global, names: &Names<'_>, params: &[VarId]) -> Result<String, OutOfMemory>
    ensures { IfOk result (λ text. string_bytes text
        ≡ join_by (declared_text (naming_of names.now)) (codes ", ") params.now) }
{
    let mut texts = Vec::new(alloc);
    for param in params {
        texts.push(declared_text(alloc, names, *param)?)?;
    }
    Ok(texts.join(alloc, ", ")?)
}

/// A number above those of variables and above those before.
fn see_all(seen: &mut u64, variables: &[VarId])
    ensures { seen.new ≡ seen_after_all seen.old variables.now }
{
    for variable in variables {
        see(seen, *variable);
    }
}

/// By whose authority a method releases and endorses, where there is somebody.
fn authority_text(
    alloc: Global,
    names: &Names<'_>,
    principals: &[PrincipalId],
) -> Result<String, OutOfMemory>
    ensures { IfOk result (λ text. string_bytes text ≡ authority_text (naming_of names.now) principals.now) }
{
    if principals.is_empty() {
        return Ok(String::new(alloc));
    }
    let all = principals_text(alloc, names, principals)?;
    Ok(format!(in alloc; " where authority({all})")?)
}

/// Names of principals, which commas part.
fn principals_text(
    alloc: Global,
    names: &Names<'_>,
    principals: &[PrincipalId],
) -> Result<String, OutOfMemory>
    ensures { IfOk result (λ text. string_bytes text
        ≡ join_by (principal_name (naming_of names.now)) (codes ", ") principals.now) }
{
    let mut texts = Vec::new(alloc);
    for principal in principals {
        texts.push(owned_text(alloc, principal_name(names, *principal))?)?;
    }
    Ok(texts.join(alloc, ", ")?)
}
