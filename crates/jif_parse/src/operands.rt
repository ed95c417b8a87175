//! Operands of expressions.

ghost use Rattle.std.specs.Prelude.{◌≡◌, ◌≤◌, IfOk, IfErr};
ghost use Rattle.js_base.specs.declared.limits.TheConstants.{NESTING};
ghost use Rattle.jif_lex.specs.declared.token.TokenKind.TheVariants as token;
ghost use Rattle.jif_lex.specs.declared.token.Symbol.TheVariants.{LeftParenthesis};
ghost use Rattle.jif_grammar.specs.DraftShapes.{expr_shape, number_shape, element_shape, name_shape, label_shape};
ghost use Rattle.jif_grammar.specs.Drafts.{signed_shape, relabelled_shape};
ghost use Rattle.jif_grammar.specs.Operators.{sign_symbol, change_word, tightest_level};
ghost use Rattle.jif_parse.specs.Failing.{IsOutOfMemory};
ghost use Rattle.jif_parse.specs.Reading.{IsNextKind, IsNextSymbol};
ghost use Rattle.jif_parse.specs.Phrases.{ReadsExpr, FailsExpr};
ghost use Rattle.jif_parse.specs.Starts.{Starts, sign_of, change_of};

use crate::ParseError;
use crate::counts::Begins;
use crate::cursor::Cursor;
use crate::endings::Ending;
use crate::expressions::up_to;
use crate::labels::label;
use crate::names::name_draft;
use crate::starts::{Change, Sign, Start, start_of};
use jif_lex::{Name, Symbol};
use jif_tree::{ExprDraft, LabelDraft, NameDraft};
use std::alloc::Global;

/// An operand of operators, with the signs before it. Around it stand so many constructs, and the inner ones have the
/// signs before the operand too.
#[cycle(expressions)]
pub fn operand(
    alloc: Global,
    cursor: &mut Cursor,
    depth: usize,
    inner: usize,
) -> Result<ExprDraft, ParseError>
    requires { inner ≤ NESTING }
    ensures read { IfOk result (ReadsExpr cursor.old cursor.new tightest_level depth inner) }
    ensures fails { IfErr result (FailsExpr cursor.old depth inner) }
{
    let Some(token) = cursor.next() else {
        return Err(cursor.unexpected());
    };
    match start_of(&token.kind) {
        Start::Number(number) => {
            cursor.take(inner, Begins::Node)?;
            Ok(number_draft(number))
        }
        Start::Name(name) => named(alloc, cursor, name, depth, inner),
        Start::Parenthesis => parenthesized(alloc, cursor, depth, inner),
        Start::Sign(sign) => signed(alloc, cursor, sign, depth, inner),
        Start::Change(change) => relabelled(alloc, cursor, change, depth, inner),
        Start::Other => Err(cursor.unexpected()),
    }
}

fn number_draft(number: i64) -> ExprDraft
    ensures { expr_shape result ≡ number_shape number }
{
    ExprDraft::Number(number)
}

/// A variable or an element, whose name is next.
#[cycle(expressions)]
fn named(
    alloc: Global,
    cursor: &mut Cursor,
    name: &Name,
    depth: usize,
    inner: usize,
) -> Result<ExprDraft, ParseError>
    requires nested { inner ≤ NESTING }
    requires next { IsNextKind cursor.old (token.Name name.now) }
    ensures read { IfOk result (ReadsExpr cursor.old cursor.new tightest_level depth inner) }
    ensures fails { IfErr result (FailsExpr cursor.old depth inner) }
{
    let name = name_draft(alloc, name, cursor.at)?;
    cursor.take(inner, Begins::Node)?;
    if !cursor.is_next(Symbol::LeftBracket) {
        return Ok(ExprDraft::Name(name));
    }
    cursor.take(inner + 1, Begins::Nothing)?;
    let index = up_to(alloc, cursor, Ending::Bracket, inner + 1)?;
    element(alloc, name, index)
}

fn element(alloc: Global, name: NameDraft, index: ExprDraft) -> Result<ExprDraft, ParseError>
    ensures draft { IfOk result (λ draft. expr_shape draft ≡ element_shape (name_shape name) (expr_shape index)) }
    ensures memory { IfErr result IsOutOfMemory }
{
    let index = Box::new(alloc, index)?;
    Ok(ExprDraft::Element(name, index))
}

/// An expression between parentheses, of which the first is next.
#[cycle(expressions)]
fn parenthesized(
    alloc: Global,
    cursor: &mut Cursor,
    depth: usize,
    inner: usize,
) -> Result<ExprDraft, ParseError>
    requires nested { inner ≤ NESTING }
    requires next { IsNextSymbol cursor.old LeftParenthesis }
    ensures read { IfOk result (ReadsExpr cursor.old cursor.new tightest_level depth inner) }
    ensures fails { IfErr result (FailsExpr cursor.old depth inner) }
{
    cursor.take(inner + 1, Begins::Nothing)?;
    up_to(alloc, cursor, Ending::Parenthesis, inner + 1)
}

/// An operand with a sign, which is next.
#[cycle(expressions)]
fn signed(
    alloc: Global,
    cursor: &mut Cursor,
    sign: Sign,
    depth: usize,
    inner: usize,
) -> Result<ExprDraft, ParseError>
    requires nested { inner ≤ NESTING }
    requires next { IsNextSymbol cursor.old (sign_symbol (sign_of sign)) }
    ensures read { IfOk result (ReadsExpr cursor.old cursor.new tightest_level depth inner) }
    ensures fails { IfErr result (FailsExpr cursor.old depth inner) }
{
    cursor.take(inner + 1, Begins::Node)?;
    let value = operand(alloc, cursor, depth, inner + 1)?;
    with_sign(alloc, sign, value)
}

fn with_sign(alloc: Global, sign: Sign, value: ExprDraft) -> Result<ExprDraft, ParseError>
    ensures draft { IfOk result (λ draft. expr_shape draft ≡ signed_shape (sign_of sign) (expr_shape value)) }
    ensures memory { IfErr result IsOutOfMemory }
{
    let value = Box::new(alloc, value)?;
    Ok(match sign {
        Sign::Complement => ExprDraft::Not(value),
        Sign::Minus => ExprDraft::Negate(value),
    })
}

/// An expression with a new label, at the word that says so.
#[cycle(expressions)]
fn relabelled(
    alloc: Global,
    cursor: &mut Cursor,
    change: Change,
    depth: usize,
    inner: usize,
) -> Result<ExprDraft, ParseError>
    requires nested { inner ≤ NESTING }
    requires next { IsNextKind cursor.old (token.Word (change_word (change_of change))) }
    ensures read { IfOk result (ReadsExpr cursor.old cursor.new tightest_level depth inner) }
    ensures fails { IfErr result (FailsExpr cursor.old depth inner) }
{
    cursor.take(inner + 1, Begins::Node)?;
    cursor.expect(Symbol::LeftParenthesis)?;
    let value = up_to(alloc, cursor, Ending::Comma, inner + 1)?;
    let label = label(alloc, cursor)?;
    cursor.expect(Symbol::RightParenthesis)?;
    with_change(alloc, change, value, label)
}

fn with_change(
    alloc: Global,
    change: Change,
    value: ExprDraft,
    label: LabelDraft,
) -> Result<ExprDraft, ParseError>
    ensures draft { IfOk result (λ draft. expr_shape draft
        ≡ relabelled_shape (change_of change) (expr_shape value) (label_shape label)) }
    ensures memory { IfErr result IsOutOfMemory }
{
    let value = Box::new(alloc, value)?;
    Ok(match change {
        Change::Release => ExprDraft::Declassify(value, label),
        Change::Acceptance => ExprDraft::Endorse(value, label),
    })
}
