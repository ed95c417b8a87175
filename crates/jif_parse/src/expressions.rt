//! Expressions and arguments.

ghost use Rattle.std.specs.Prelude.{◌≡◌, ◌≤◌, IfOk, IfErr};
ghost use Rattle.js_base.specs.declared.limits.TheConstants.{NESTING};
ghost use Rattle.jif_grammar.specs.Operators.{tightest_level};
ghost use Rattle.jif_grammar.specs.DraftShapes.{expr_shape, binary_shape};
ghost use Rattle.jif_parse.specs.Failing.{IsOutOfMemory};
ghost use Rattle.jif_parse.specs.Phrases.{ReadsExpr, FailsExpr, closing_of, ReadsUpTo, FailsUpTo};
ghost use Rattle.jif_parse.specs.Phrases.{ReadsArgs, FailsArgs};

use crate::ParseError;
use crate::counts::Begins;
use crate::cursor::Cursor;
use crate::endings::Ending;
use crate::operands::operand;
use crate::operators::{level_of, next_operator};
use jif_lex::Symbol;
use jif_tree::ExprDraft;
use js_base::BinOp;
use std::alloc::Global;

/// An expression that is made by operators of this level or tighter ones, as far as such operators go on. So many
/// constructs are open around it.
#[cycle(expressions)]
pub fn expression(
    alloc: Global,
    cursor: &mut Cursor,
    least: u32,
    depth: usize,
) -> Result<ExprDraft, ParseError>
    requires loose { least ≤ tightest_level }
    requires nested { depth ≤ NESTING }
    ensures read { IfOk result (ReadsExpr cursor.old cursor.new least depth depth) }
    ensures fails { IfErr result (FailsExpr cursor.old depth depth) }
{
    let mut left = operand(alloc, cursor, depth, depth)?;
    while let Some(operator) = next_operator(cursor, least) {
        cursor.take(depth, Begins::Node)?;
        let right = expression(alloc, cursor, level_of(operator) + 1, depth)?;
        left = binary(alloc, operator, left, right)?;
    }
    Ok(left)
}

/// Joins two operands by an operator.
fn binary(
    alloc: Global,
    operator: BinOp,
    left: ExprDraft,
    right: ExprDraft,
) -> Result<ExprDraft, ParseError>
    ensures draft { IfOk result (λ draft.
        expr_shape draft ≡ binary_shape operator (expr_shape left) (expr_shape right)) }
    ensures memory { IfErr result IsOutOfMemory }
{
    let left = Box::new(alloc, left)?;
    let right = Box::new(alloc, right)?;
    Ok(ExprDraft::Binary(operator, left, right))
}

/// A whole expression and the symbol that ends it. So many constructs are open around it.
#[cycle(expressions)]
pub fn up_to(
    alloc: Global,
    cursor: &mut Cursor,
    ending: Ending,
    depth: usize,
) -> Result<ExprDraft, ParseError>
    requires { depth ≤ NESTING }
    ensures read { IfOk result (ReadsUpTo cursor.old cursor.new (closing_of ending) depth) }
    ensures fails { IfErr result (FailsUpTo cursor.old (closing_of ending) depth) }
{
    let value = expression(alloc, cursor, 0, depth)?;
    cursor.expect(ending.symbol())?;
    Ok(value)
}

/// The arguments of a call, and the parenthesis behind them. So many constructs are open around the call.
pub fn args(alloc: Global, cursor: &mut Cursor, depth: usize) -> Result<Vec<ExprDraft>, ParseError>
    requires { depth ≤ NESTING }
    ensures read { IfOk result (λ drafts. ReadsArgs cursor.old cursor.new depth drafts.items) }
    ensures fails { IfErr result (FailsArgs cursor.old depth) }
{
    let mut args = Vec::new(alloc);
    if cursor.is_next(Symbol::RightParenthesis) {
        cursor.pass();
        return Ok(args);
    }
    loop {
        let arg = expression(alloc, cursor, 0, depth)?;
        args.push(arg)?;
        if !cursor.is_next(Symbol::Comma) {
            cursor.expect(Symbol::RightParenthesis)?;
            return Ok(args);
        }
        cursor.pass();
    }
}
