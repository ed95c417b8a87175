//! Statements as they are printed.

ghost use Rattle.std.specs.Prelude.{◌≡◌, ◌++◌, IfOk, OnOk, map, string_bytes, codes};
ghost use Rattle.std.specs.List.{join_by};
ghost use Rattle.jif_tree.specs.Trees.{BlockTree, block_tree, expr_tree, tree_before};
ghost use Rattle.jif_parse.specs.PrintedNames.{naming_of, field_name, method_name};
ghost use Rattle.jif_parse.specs.PrintedExprs.{expr_text};
ghost use Rattle.jif_parse.specs.PrintedProgram.{optional_label_text, declared_text, assigned_text, into_text};
ghost use Rattle.jif_parse.specs.PrintedProgram.{else_text, is_done, block_text, seen_after, seen_behind};
ghost use Rattle.jif_parse.specs.PrintedBlocks.{PrintsBefore};

use crate::printed::exprs::{args_text, expr_text};
use crate::printed::names::{Names, field_name, method_name, variable_label, variable_name};
use jif_tree::{Expr, Stmt, StmtKind, tree_laws};
use js_base::text::owned_text;
use js_base::{FieldId, MethodId, OutOfMemory, VarId};
use label_lattice::{Label, label_text};
use principals::Principals;
use std::alloc::Global;

/// A label, where there is one.
pub fn optional_label_text(
    alloc: Global,
    label: Option<Label>,
    principals: &Principals,
) -> Result<String, OutOfMemory>
    ensures { IfOk result (λ text. string_bytes text ≡ optional_label_text principals.now label) }
{
    match label {
        Some(label) => label_text(alloc, &label, principals),
        None => Ok(String::new(alloc)),
    }
}

/// A variable as it is declared, with its label where it has one.
pub fn declared_text(
    alloc: Global,
    names: &Names<'_>,
    variable: VarId,
) -> Result<String, OutOfMemory>
    ensures { IfOk result (λ text. string_bytes text ≡ declared_text (naming_of names.now) variable) }
{
    let label = optional_label_text(alloc, variable_label(names, variable), names.principals)?;
    let name = variable_name(names, variable);
    Ok(format!(in alloc; "int{label} {name}")?)
}

/// A number above that of a variable and above those before.
pub fn see(seen: &mut u64, variable: VarId)
    ensures { seen.new ≡ seen_after seen.old variable }
{
    if u64::from(variable.0) >= *seen {
        *seen = u64::from(variable.0) + 1;
    }
}

/// A variable that is assigned to. It is declared where its number is not below those of the variables so far.
fn assigned_text(
    alloc: Global,
    names: &Names<'_>,
    seen: u64,
    variable: VarId,
) -> Result<String, OutOfMemory>
    ensures { IfOk result (λ text. string_bytes text ≡ assigned_text (naming_of names.now) seen variable) }
{
    if u64::from(variable.0) < seen {
        return owned_text(alloc, variable_name(names, variable));
    }
    declared_text(alloc, names, variable)
}

/// Where the result of a call is kept, where it is kept.
fn into_text(alloc: Global, names: &Names<'_>, into: Option<VarId>) -> Result<String, OutOfMemory>
    ensures { IfOk result (λ text. string_bytes text ≡ into_text (naming_of names.now) into) }
{
    match into {
        Some(variable) => {
            let name = variable_name(names, variable);
            Ok(format!(in alloc; "{name} = ")?)
        }
        None => Ok(String::new(alloc)),
    }
}

/// The text of a block behind an `else`, where it has statements.
fn else_text(alloc: Global, statements: &[Stmt], block: &str) -> Result<String, OutOfMemory>
    ensures { IfOk result (λ text. string_bytes text
        ≡ else_text (is_done (block_tree statements.now)) block.now) }
{
    if statements.is_empty() {
        return Ok(String::new(alloc));
    }
    Ok(format!(in alloc; " else {{\n{block}}}")?)
}

/// The statements of a block.
#[cycle(printed_blocks)]
pub fn block_text(
    alloc: Global,
    names: &Names<'_>,
    seen: &mut u64,
    statements: &[Stmt],
) -> Result<String, OutOfMemory>
    ensures text { IfOk result (λ text. string_bytes text
        ≡ block_text (naming_of names.now) seen.old (block_tree statements.now)) }
    ensures seen { OnOk result (seen.new ≡ seen_behind seen.old (block_tree statements.now)) }
{
    let mut text = String::new(alloc);
    for statement in statements {
        text.push_str(statement_text(alloc, names, seen, statement)?.as_str())?;
    }
    Ok(text)
}

/// A statement, with those in it.
#[cycle(printed_blocks)]
fn statement_text(
    alloc: Global,
    names: &Names<'_>,
    seen: &mut u64,
    statement: &Stmt,
) -> Result<String, OutOfMemory>
    ensures text { IfOk result (λ text. (rest : BlockTree) →
        PrintsBefore (naming_of names.now) seen.old (tree_before statement.now rest) (string_bytes text) seen.new
        rest) }
{
    tree_laws();
    match &statement.kind {
        StmtKind::Let { var, value } => {
            let variable = assigned_text(alloc, names, *seen, *var)?;
            see(seen, *var);
            assignment_text(alloc, names, variable.as_str(), value)
        }
        StmtKind::SetField { field, value } => {
            assignment_text(alloc, names, field_name(names, *field), value)
        }
        StmtKind::SetElement {
            field,
            index,
            value,
        } => element_assignment_text(alloc, names, *field, index, value),
        StmtKind::If { guard, yes, no } => {
            let guard = expr_text(alloc, names, guard)?;
            let first = block_text(alloc, names, seen, yes)?;
            let second = block_text(alloc, names, seen, no)?;
            let otherwise = else_text(alloc, no, second.as_str())?;
            Ok(format!(in alloc; "if ({guard}) {{\n{first}}}{otherwise}\n")?)
        }
        StmtKind::While { guard, body } => {
            let guard = expr_text(alloc, names, guard)?;
            let body = block_text(alloc, names, seen, body)?;
            Ok(format!(in alloc; "while ({guard}) {{\n{body}}}\n")?)
        }
        StmtKind::Call {
            method,
            args,
            into,
            ..
        } => call_text(alloc, names, *method, args, *into),
        StmtKind::Return { value } => return_text(alloc, names, value),
    }
}

/// An assignment to what is named so.
fn assignment_text(
    alloc: Global,
    names: &Names<'_>,
    name: &str,
    value: &Expr,
) -> Result<String, OutOfMemory>
    ensures { IfOk result (λ text. string_bytes text
        ≡ name.now ++ codes " = " ++ expr_text (naming_of names.now) (expr_tree value.now) ++ codes ";\n") }
{
    let value = expr_text(alloc, names, value)?;
    Ok(format!(in alloc; "{name} = {value};\n")?)
}

/// An assignment to an element of an array.
fn element_assignment_text(
    alloc: Global,
    names: &Names<'_>,
    field: FieldId,
    index: &Expr,
    value: &Expr,
) -> Result<String, OutOfMemory>
    ensures { IfOk result (λ text. string_bytes text
        ≡ field_name (naming_of names.now) field ++ codes "[" ++ expr_text (naming_of names.now) (expr_tree index.now)
        ++ codes "] = " ++ expr_text (naming_of names.now) (expr_tree value.now) ++ codes ";\n") }
{
    let index = expr_text(alloc, names, index)?;
    let value = expr_text(alloc, names, value)?;
    let name = field_name(names, field);
    Ok(format!(in alloc; "{name}[{index}] = {value};\n")?)
}

/// A call, with what keeps its result where it is kept.
fn call_text(
    alloc: Global,
    names: &Names<'_>,
    method: MethodId,
    args: &[Expr],
    into: Option<VarId>,
) -> Result<String, OutOfMemory>
    ensures { IfOk result (λ text. string_bytes text
        ≡ into_text (naming_of names.now) into ++ method_name (naming_of names.now) method ++ codes "("
        ++ join_by (expr_text (naming_of names.now)) (codes ", ") (map expr_tree args.now) ++ codes ");\n") }
{
    let into = into_text(alloc, names, into)?;
    let args = args_text(alloc, names, args)?;
    let name = method_name(names, method);
    Ok(format!(in alloc; "{into}{name}({args});\n")?)
}

/// A `return` of a value.
fn return_text(alloc: Global, names: &Names<'_>, value: &Expr) -> Result<String, OutOfMemory>
    ensures { IfOk result (λ text. string_bytes text
        ≡ codes "return " ++ expr_text (naming_of names.now) (expr_tree value.now) ++ codes ";\n") }
{
    let value = expr_text(alloc, names, value)?;
    Ok(format!(in alloc; "return {value};\n")?)
}
