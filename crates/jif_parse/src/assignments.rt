//! Statements without blocks.

ghost use Rattle.std.specs.Prelude.{◌≤◌, ℕ, List, IfOk, IfErr, IfSome, IfNone};
ghost use Rattle.js_base.specs.declared.limits.TheConstants.{NESTING};
ghost use Rattle.jif_lex.specs.declared.token.Word.TheVariants.{Int};
ghost use Rattle.jif_lex.specs.declared.token.TokenKind.TheVariants as token;
ghost use Rattle.jif_parse.specs.Reading.{IsNextKind};
ghost use Rattle.jif_parse.specs.Statements.{ReadsKind, FailsStatement, ReadsLocalName, FailsLocalName};
ghost use Rattle.jif_parse.specs.Statements.{ReadsAssignment, FailsAssignment, ReadsElement, FailsElement, ReadsCall};
ghost use Rattle.jif_parse.specs.Statements.{FailsCall};
ghost use Rattle.jif_parse.specs.Statements.{IsCallNext};

use crate::ParseError;
use crate::counts::Begins;
use crate::cursor::Cursor;
use crate::endings::Ending;
use crate::expressions::{args, up_to};
use crate::labels::parts;
use crate::laws::widths_of_phrases;
use crate::names::name_draft;
use jif_lex::{Name, Symbol, TokenKind};
use jif_tree::{ExprDraft, LabelDraft, NameDraft, StmtKindDraft};
use std::alloc::Global;

/// A declaration of a local, whose `int` is next. So many constructs are open around it.
pub fn local(alloc: Global, cursor: &mut Cursor, depth: usize) -> Result<StmtKindDraft, ParseError>
    requires nested { depth ≤ NESTING }
    requires next { IsNextKind cursor.old (token.Word Int) }
    ensures read { IfOk result (ReadsKind cursor.old cursor.new depth) }
    ensures fails { IfErr result (FailsStatement cursor.old depth) }
{
    widths_of_phrases();
    cursor.take(depth, Begins::Local)?;
    let (label, name) = local_name(alloc, cursor)?;
    cursor.expect(Symbol::Assign)?;
    let value = up_to(alloc, cursor, Ending::Semicolon, depth)?;
    Ok(StmtKindDraft::Declare { label, name, value })
}

/// The label and the name of a local, of which the label may be left out.
fn local_name(
    alloc: Global,
    cursor: &mut Cursor,
) -> Result<(Option<LabelDraft>, NameDraft), ParseError>
    ensures read { IfOk result (λ drafts. ReadsLocalName cursor.old cursor.new drafts.0 drafts.1) }
    ensures fails { IfErr result (FailsLocalName cursor.old) }
{
    if cursor.is_next(Symbol::LeftBrace) {
        cursor.pass();
        let label = parts(alloc, cursor)?;
        let name = cursor.name(alloc)?;
        return Ok((Some(label), name));
    }
    let name = cursor.name(alloc)?;
    Ok((None, name))
}

/// A statement that begins with this name, which is next. So many constructs are open around it.
pub fn named(
    alloc: Global,
    cursor: &mut Cursor,
    name: &Name,
    depth: usize,
) -> Result<StmtKindDraft, ParseError>
    requires nested { depth ≤ NESTING }
    requires next { IsNextKind cursor.old (token.Name name.now) }
    ensures read { IfOk result (ReadsKind cursor.old cursor.new depth) }
    ensures fails { IfErr result (FailsStatement cursor.old depth) }
{
    widths_of_phrases();
    let name = name_draft(alloc, name, cursor.at)?;
    cursor.take(depth, Begins::Statement)?;
    if cursor.is_next(Symbol::Assign) {
        cursor.pass();
        return assignment(alloc, cursor, name, depth);
    }
    if cursor.is_next(Symbol::LeftBracket) {
        cursor.pass();
        let (index, value) = element(alloc, cursor, depth)?;
        return Ok(StmtKindDraft::AssignElement {
            array: name,
            index,
            value,
        });
    }
    cursor.expect(Symbol::LeftParenthesis)?;
    let args = call(alloc, cursor, depth)?;
    Ok(StmtKindDraft::Call {
        method: name,
        args,
        into: None,
    })
}

/// What is assigned to this name, behind `=`.
fn assignment(
    alloc: Global,
    cursor: &mut Cursor,
    name: NameDraft,
    depth: usize,
) -> Result<StmtKindDraft, ParseError>
    requires { depth ≤ NESTING }
    ensures read { IfOk result (ReadsAssignment cursor.old cursor.new depth name) }
    ensures fails { IfErr result (FailsAssignment cursor.old depth) }
{
    widths_of_phrases();
    let Some(method) = called_method(cursor) else {
        let value = up_to(alloc, cursor, Ending::Semicolon, depth)?;
        return Ok(StmtKindDraft::Assign { name, value });
    };
    let method = name_draft(alloc, method, cursor.at)?;
    cursor.take(depth, Begins::Node)?;
    cursor.take(depth, Begins::Arguments)?;
    let args = call(alloc, cursor, depth)?;
    Ok(StmtKindDraft::Call {
        method,
        args,
        into: Some(name),
    })
}

/// The method that is called, where a name and a parenthesis are next.
fn called_method<'a>(cursor: &Cursor<'a>) -> Option<&'a Name>
    ensures called { IfSome result (λ name. IsCallNext cursor.now name.now) }
    ensures none { IfNone result ((name : List ℕ) → ¬ IsCallNext cursor.now name) }
{
    let (first, behind) = cursor.rest.split_first()?;
    let (second, _) = behind.split_first()?;
    if !second.kind.is_symbol(Symbol::LeftParenthesis) {
        return None;
    }
    match &first.kind {
        TokenKind::Name(name) => Some(name),
        _ => None,
    }
}

/// The arguments of a call up to its semicolon, behind the first parenthesis.
fn call(alloc: Global, cursor: &mut Cursor, depth: usize) -> Result<Vec<ExprDraft>, ParseError>
    requires { depth ≤ NESTING }
    ensures read { IfOk result (λ drafts. ReadsCall cursor.old cursor.new depth drafts.items) }
    ensures fails { IfErr result (FailsCall cursor.old depth) }
{
    let args = args(alloc, cursor, depth)?;
    cursor.expect(Symbol::Semicolon)?;
    Ok(args)
}

/// An index and the value that is assigned there, behind the first bracket.
fn element(
    alloc: Global,
    cursor: &mut Cursor,
    depth: usize,
) -> Result<(ExprDraft, ExprDraft), ParseError>
    requires { depth ≤ NESTING }
    ensures read { IfOk result (λ drafts. ReadsElement cursor.old cursor.new depth drafts.0 drafts.1) }
    ensures fails { IfErr result (FailsElement cursor.old depth) }
{
    let index = up_to(alloc, cursor, Ending::Bracket, depth)?;
    cursor.expect(Symbol::Assign)?;
    let value = up_to(alloc, cursor, Ending::Semicolon, depth)?;
    Ok((index, value))
}
