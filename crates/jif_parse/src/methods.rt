//! Methods.

ghost use Rattle.std.specs.Prelude.{IfOk, IfErr};
ghost use Rattle.jif_lex.specs.declared.token.Word.TheVariants.{Return};
ghost use Rattle.jif_lex.specs.declared.token.TokenKind.TheVariants as token;
ghost use Rattle.jif_parse.specs.Reading.{IsNextKind};
ghost use Rattle.jif_parse.specs.Methods.{ReadsTail, FailsTail, ReadsParams, FailsParams, ReadsParam, FailsParam};
ghost use Rattle.jif_parse.specs.Methods.{ReadsAuthority, FailsAuthority, ReadsNamed, FailsNamed, ReadsBody, FailsBody};
ghost use Rattle.jif_parse.specs.Methods.{ReadsReturn, FailsReturn};

use crate::ParseError;
use crate::counts::Begins;
use crate::cursor::Cursor;
use crate::endings::Ending;
use crate::expressions::up_to;
use crate::labels::{label, names};
use crate::laws::widths_of_phrases;
use crate::lines::next_line;
use crate::statements::statements;
use crate::words::{expect_word, is_word_next};
use jif_lex::{Symbol, Word};
use jif_tree::{LabelDraft, NameDraft, ParamDraft, StmtDraft, StmtKindDraft};
use std::alloc::Global;

/// What follows the begin label of a method.
#[derive(Drop)]
pub struct MethodTail {
    pub params: Vec<ParamDraft>,
    /// No names where nothing is said of authority.
    pub authority: Vec<NameDraft>,
    pub body: Vec<StmtDraft>,
}

/// What follows the begin label of a method, up to its last brace.
pub fn tail(alloc: Global, cursor: &mut Cursor) -> Result<MethodTail, ParseError>
    ensures read { IfOk result (ReadsTail cursor.old cursor.new) }
    ensures fails { IfErr result (FailsTail cursor.old) }
{
    cursor.expect(Symbol::LeftParenthesis)?;
    let params = params(alloc, cursor)?;
    let authority = authority(alloc, cursor)?;
    let body = body(alloc, cursor)?;
    Ok(MethodTail {
        params,
        authority,
        body,
    })
}

/// The parameters of a method, and the parenthesis behind them.
fn params(alloc: Global, cursor: &mut Cursor) -> Result<Vec<ParamDraft>, ParseError>
    ensures read { IfOk result (λ drafts. ReadsParams cursor.old cursor.new drafts.items) }
    ensures fails { IfErr result (FailsParams cursor.old) }
{
    let mut params = Vec::new(alloc);
    if cursor.is_next(Symbol::RightParenthesis) {
        cursor.pass();
        return Ok(params);
    }
    loop {
        let param = param(alloc, cursor)?;
        params.push(param)?;
        if !cursor.is_next(Symbol::Comma) {
            cursor.expect(Symbol::RightParenthesis)?;
            return Ok(params);
        }
        cursor.pass();
    }
}

/// A parameter.
fn param(alloc: Global, cursor: &mut Cursor) -> Result<ParamDraft, ParseError>
    ensures read { IfOk result (ReadsParam cursor.old cursor.new) }
    ensures fails { IfErr result (FailsParam cursor.old) }
{
    if !is_word_next(cursor, Word::Int) {
        return Err(cursor.unexpected());
    }
    widths_of_phrases();
    cursor.take(0, Begins::Parameter)?;
    let (label, name) = labelled_name(alloc, cursor)?;
    Ok(ParamDraft { label, name })
}

/// A label and the name behind it.
pub fn labelled_name(
    alloc: Global,
    cursor: &mut Cursor,
) -> Result<(LabelDraft, NameDraft), ParseError>
    ensures read { IfOk result (λ drafts. ReadsNamed cursor.old cursor.new drafts.0 drafts.1) }
    ensures fails { IfErr result (FailsNamed cursor.old) }
{
    let label = label(alloc, cursor)?;
    let name = cursor.name(alloc)?;
    Ok((label, name))
}

/// The authority of a method, where it has some, and the brace behind it.
fn authority(alloc: Global, cursor: &mut Cursor) -> Result<Vec<NameDraft>, ParseError>
    ensures read { IfOk result (λ drafts. ReadsAuthority cursor.old cursor.new drafts.items) }
    ensures fails { IfErr result (FailsAuthority cursor.old) }
{
    if cursor.is_next(Symbol::LeftBrace) {
        cursor.pass();
        return Ok(Vec::new(alloc));
    }
    expect_word(cursor, Word::Where)?;
    expect_word(cursor, Word::Authority)?;
    cursor.expect(Symbol::LeftParenthesis)?;
    let names = names(alloc, cursor)?;
    cursor.expect(Symbol::RightParenthesis)?;
    cursor.expect(Symbol::LeftBrace)?;
    Ok(names)
}

/// The statements of a method behind its first brace, up to its last.
fn body(alloc: Global, cursor: &mut Cursor) -> Result<Vec<StmtDraft>, ParseError>
    ensures read { IfOk result (λ drafts. ReadsBody cursor.old cursor.new drafts.items) }
    ensures fails { IfErr result (FailsBody cursor.old) }
{
    let mut body = statements(alloc, cursor, 0)?;
    if is_word_next(cursor, Word::Return) {
        let last = last_statement(alloc, cursor)?;
        body.push(last)?;
        return Ok(body);
    }
    cursor.expect(Symbol::RightBrace)?;
    Ok(body)
}

/// A `return`, which is next, with the brace behind it.
fn last_statement(alloc: Global, cursor: &mut Cursor) -> Result<StmtDraft, ParseError>
    requires { IsNextKind cursor.old (token.Word Return) }
    ensures read { IfOk result (ReadsReturn cursor.old cursor.new) }
    ensures fails { IfErr result (FailsReturn cursor.old) }
{
    let at = cursor.at;
    let line = next_line(cursor);
    cursor.take(0, Begins::Statement)?;
    let value = up_to(alloc, cursor, Ending::Semicolon, 0)?;
    cursor.expect(Symbol::RightBrace)?;
    Ok(StmtDraft {
        at,
        line,
        kind: StmtKindDraft::Return { value },
    })
}
