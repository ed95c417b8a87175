//! Statements and blocks.

ghost use Rattle.std.specs.Prelude.{◌≤◌, ◌+◌, ◌↔◌, IsTrue, IfOk, IfErr};
ghost use Rattle.js_base.specs.declared.limits.TheConstants.{NESTING};
ghost use Rattle.jif_lex.specs.declared.token.Word.TheVariants.{If, While};
ghost use Rattle.jif_lex.specs.declared.token.TokenKind.TheVariants as token;
ghost use Rattle.jif_parse.specs.Reading.{IsNextKind};
ghost use Rattle.jif_parse.specs.Statements.{StartsStatement, BeginsStatement, ReadsStatement, FailsStatement};
ghost use Rattle.jif_parse.specs.Statements.{ReadsKind, ReadsStatements, ReadsBraced, FailsBraced, ReadsGuarded};
ghost use Rattle.jif_parse.specs.Statements.{FailsGuarded};

use crate::ParseError;
use crate::assignments::{local, named};
use crate::counts::Begins;
use crate::cursor::Cursor;
use crate::endings::Ending;
use crate::expressions::up_to;
use crate::laws::widths_of_phrases;
use crate::lines::next_line;
use crate::words::is_word_next;
use jif_lex::{Symbol, TokenKind, Word};
use jif_tree::{ExprDraft, StmtDraft, StmtKindDraft};
use std::alloc::Global;

/// Whether a statement begins with the next token.
fn begins_statement(cursor: &Cursor) -> bool
    ensures { IsTrue result ↔ BeginsStatement cursor.now }
{
    match cursor.next() {
        Some(token) => begins_with(&token.kind),
        None => false,
    }
}

/// Whether a statement begins with this token.
fn begins_with(kind: &TokenKind) -> bool
    ensures { IsTrue result ↔ StartsStatement kind.now }
{
    match kind {
        TokenKind::Name(_) => true,
        TokenKind::Word(Word::Int | Word::If | Word::While) => true,
        _ => false,
    }
}

/// Statements, up to the first token with which none begins. So many constructs are open around them.
#[cycle(statements)]
pub fn statements(
    alloc: Global,
    cursor: &mut Cursor,
    depth: usize,
) -> Result<Vec<StmtDraft>, ParseError>
    requires { depth ≤ NESTING }
    ensures read { IfOk result (λ drafts. ReadsStatements cursor.old cursor.new depth drafts.items) }
    ensures fails { IfErr result (FailsStatement cursor.old depth) }
{
    widths_of_phrases();
    let mut drafts = Vec::new(alloc);
    while begins_statement(cursor) {
        let draft = statement(alloc, cursor, depth)?;
        drafts.push(draft)?;
    }
    Ok(drafts)
}

/// A statement, with which the next token begins.
#[cycle(statements)]
fn statement(alloc: Global, cursor: &mut Cursor, depth: usize) -> Result<StmtDraft, ParseError>
    requires nested { depth ≤ NESTING }
    requires begins { BeginsStatement cursor.old }
    ensures read { IfOk result (ReadsStatement cursor.old cursor.new depth) }
    ensures fails { IfErr result (FailsStatement cursor.old depth) }
{
    let at = cursor.at;
    let line = next_line(cursor);
    let kind = statement_kind(alloc, cursor, depth)?;
    Ok(StmtDraft { at, line, kind })
}

/// What a statement does, with which the next token begins.
#[cycle(statements)]
fn statement_kind(
    alloc: Global,
    cursor: &mut Cursor,
    depth: usize,
) -> Result<StmtKindDraft, ParseError>
    requires nested { depth ≤ NESTING }
    requires begins { BeginsStatement cursor.old }
    ensures read { IfOk result (ReadsKind cursor.old cursor.new depth) }
    ensures fails { IfErr result (FailsStatement cursor.old depth) }
{
    let Some(token) = cursor.next() else {
        return Err(cursor.unexpected());
    };
    match &token.kind {
        TokenKind::Name(name) => named(alloc, cursor, name, depth),
        TokenKind::Word(Word::Int) => local(alloc, cursor, depth),
        TokenKind::Word(Word::If) => branch(alloc, cursor, depth),
        TokenKind::Word(Word::While) => repetition(alloc, cursor, depth),
        _ => Err(cursor.unexpected()),
    }
}

/// An `if`, which is next, with its `else` where one follows.
#[cycle(statements)]
fn branch(alloc: Global, cursor: &mut Cursor, depth: usize) -> Result<StmtKindDraft, ParseError>
    requires nested { depth ≤ NESTING }
    requires next { IsNextKind cursor.old (token.Word If) }
    ensures read { IfOk result (ReadsKind cursor.old cursor.new depth) }
    ensures fails { IfErr result (FailsStatement cursor.old depth) }
{
    widths_of_phrases();
    cursor.take(depth, Begins::Statement)?;
    let (guard, yes) = guarded(alloc, cursor, depth)?;
    if !is_word_next(cursor, Word::Else) {
        let no = Vec::new(alloc);
        return Ok(StmtKindDraft::If { guard, yes, no });
    }
    cursor.pass();
    let no = braced(alloc, cursor, depth + 1)?;
    Ok(StmtKindDraft::If { guard, yes, no })
}

/// A `while`, which is next.
#[cycle(statements)]
fn repetition(alloc: Global, cursor: &mut Cursor, depth: usize) -> Result<StmtKindDraft, ParseError>
    requires nested { depth ≤ NESTING }
    requires next { IsNextKind cursor.old (token.Word While) }
    ensures read { IfOk result (ReadsKind cursor.old cursor.new depth) }
    ensures fails { IfErr result (FailsStatement cursor.old depth) }
{
    widths_of_phrases();
    cursor.take(depth, Begins::Statement)?;
    let (guard, body) = guarded(alloc, cursor, depth)?;
    Ok(StmtKindDraft::While { guard, body })
}

/// A guard between parentheses, and the block behind it. So many constructs are open around the statement.
#[cycle(statements)]
fn guarded(
    alloc: Global,
    cursor: &mut Cursor,
    depth: usize,
) -> Result<(ExprDraft, Vec<StmtDraft>), ParseError>
    requires { depth ≤ NESTING }
    ensures read { IfOk result (λ drafts. ReadsGuarded cursor.old cursor.new depth drafts.0 drafts.1.items) }
    ensures fails { IfErr result (FailsGuarded cursor.old depth) }
{
    cursor.expect(Symbol::LeftParenthesis)?;
    let guard = up_to(alloc, cursor, Ending::Parenthesis, depth)?;
    let block = braced(alloc, cursor, depth + 1)?;
    Ok((guard, block))
}

/// A block with its braces. So many constructs are open within it.
#[cycle(statements)]
fn braced(alloc: Global, cursor: &mut Cursor, depth: usize) -> Result<Vec<StmtDraft>, ParseError>
    requires { depth ≤ NESTING + 1 }
    ensures read { IfOk result (λ drafts. ReadsBraced cursor.old cursor.new depth drafts.items) }
    ensures fails { IfErr result (FailsBraced cursor.old depth) }
{
    if !cursor.is_next(Symbol::LeftBrace) {
        return Err(cursor.unexpected());
    }
    cursor.take(depth, Begins::Nothing)?;
    let block = statements(alloc, cursor, depth)?;
    cursor.expect(Symbol::RightBrace)?;
    Ok(block)
}
