//! Expressions as they are printed.

ghost use Rattle.std.specs.Prelude.{◌≡◌, IfOk, map, string_bytes, codes};
ghost use Rattle.std.specs.List.{join_by};
ghost use Rattle.jif_tree.specs.Trees.{expr_tree};
ghost use Rattle.jif_parse.specs.PrintedNames.{naming_of};
ghost use Rattle.jif_parse.specs.PrintedExprs.{expr_phrase, expr_text, operand, phrase_text};

use crate::operators::level_of;
use crate::printed::names::{Names, field_name, variable_name};
use crate::printed::operators::{TIGHTEST, expr_level, operator_text};
use jif_tree::Expr;
use js_base::OutOfMemory;
use js_base::text::owned_text;
use label_lattice::label_text;
use std::alloc::Global;

/// An expression.
#[cycle(printed_exprs)]
pub fn expr_text(alloc: Global, names: &Names<'_>, expr: &Expr) -> Result<String, OutOfMemory>
    ensures { IfOk result (λ text. string_bytes text ≡ expr_text (naming_of names.now) (expr_tree expr.now)) }
{
    match expr {
        Expr::Number(number) => Ok(format!(in alloc; "{number}")?),
        Expr::Local(variable) => owned_text(alloc, variable_name(names, *variable)),
        Expr::Scalar(field) => owned_text(alloc, field_name(names, *field)),
        Expr::Element(field, index) => {
            let index = expr_text(alloc, names, index)?;
            let name = field_name(names, *field);
            Ok(format!(in alloc; "{name}[{index}]")?)
        }
        Expr::Not(inner) => {
            let inner = operand_text(alloc, names, TIGHTEST, inner)?;
            Ok(format!(in alloc; "!{inner}")?)
        }
        Expr::Negate(inner) => {
            let inner = operand_text(alloc, names, TIGHTEST, inner)?;
            Ok(format!(in alloc; "-{inner}")?)
        }
        Expr::Binary(operator, left, right) => {
            let least = level_of(*operator);
            let left = operand_text(alloc, names, least, left)?;
            let right = operand_text(alloc, names, least + 1, right)?;
            let symbol = operator_text(*operator);
            Ok(format!(in alloc; "{left} {symbol} {right}")?)
        }
        Expr::Declassify(inner, label) => {
            let inner = expr_text(alloc, names, inner)?;
            let label = label_text(alloc, label, names.principals)?;
            Ok(format!(in alloc; "declassify({inner}, {label})")?)
        }
        Expr::Endorse(inner, label) => {
            let inner = expr_text(alloc, names, inner)?;
            let label = label_text(alloc, label, names.principals)?;
            Ok(format!(in alloc; "endorse({inner}, {label})")?)
        }
    }
}

/// An operand that has to bind at least so tightly, in parentheses where it does not.
#[cycle(printed_exprs)]
fn operand_text(
    alloc: Global,
    names: &Names<'_>,
    least: u32,
    inner: &Expr,
) -> Result<String, OutOfMemory>
    ensures { IfOk result (λ text. string_bytes text
        ≡ phrase_text (operand least (expr_phrase (naming_of names.now) (expr_tree inner.now)))) }
{
    let text = expr_text(alloc, names, inner)?;
    if expr_level(names, inner) < least {
        return Ok(format!(in alloc; "({text})")?);
    }
    Ok(text)
}

/// Arguments, which commas part.
pub fn args_text(alloc: Global, names: &Names<'_>, args: &[Expr]) -> Result<String, OutOfMemory>
    ensures { IfOk result (λ text. string_bytes text
        ≡ join_by (expr_text (naming_of names.now)) (codes ", ") (map expr_tree args.now)) }
{
    let mut texts = Vec::new(alloc);
    for arg in args {
        texts.push(expr_text(alloc, names, arg)?)?;
    }
    Ok(texts.join(alloc, ", ")?)
}
