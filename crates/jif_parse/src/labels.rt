//! Names and labels.

ghost use Rattle.std.specs.Prelude.{IfOk, IfErr};
ghost use Rattle.jif_lex.specs.declared.token.Symbol.TheVariants.{Question};
ghost use Rattle.jif_parse.specs.Reading.{IsNextSymbol};
ghost use Rattle.jif_parse.specs.Parts.{ReadsAnyNames, FailsAnyNames, FailsPart, ReadsPolicy, ReadsTrust};
ghost use Rattle.jif_parse.specs.Phrases.{ReadsNames, FailsNames, ReadsParts, FailsParts, ReadsLabel, FailsLabel};

use crate::ParseError;
use crate::cursor::Cursor;
use jif_lex::Symbol;
use jif_tree::{LabelDraft, NameDraft, PolicyDraft};
use std::alloc::Global;

/// A label.
pub fn label(alloc: Global, cursor: &mut Cursor) -> Result<LabelDraft, ParseError>
    ensures read { IfOk result (ReadsLabel cursor.old cursor.new) }
    ensures fails { IfErr result (FailsLabel cursor.old) }
{
    cursor.expect(Symbol::LeftBrace)?;
    parts(alloc, cursor)
}

/// A label behind its first brace.
pub fn parts(alloc: Global, cursor: &mut Cursor) -> Result<LabelDraft, ParseError>
    ensures read { IfOk result (ReadsParts cursor.old cursor.new) }
    ensures fails { IfErr result (FailsParts cursor.old) }
{
    let mut policies = Vec::new(alloc);
    if cursor.is_next(Symbol::RightBrace) {
        cursor.pass();
        return Ok(LabelDraft {
            policies,
            trust: None,
        });
    }
    while !cursor.is_next(Symbol::Question) {
        let (policy, more) = policy(alloc, cursor)?;
        policies.push(policy)?;
        if !more {
            return Ok(LabelDraft {
                policies,
                trust: None,
            });
        }
    }
    let members = trust(alloc, cursor)?;
    Ok(LabelDraft {
        policies,
        trust: Some(members),
    })
}

/// A policy with what ends it, and whether that is the semicolon before more parts. It does not begin with `?`.
fn policy(alloc: Global, cursor: &mut Cursor) -> Result<(PolicyDraft, bool), ParseError>
    requires { ¬ IsNextSymbol cursor.old Question }
    ensures read { IfOk result (λ read. ReadsPolicy cursor.old cursor.new read.0 read.1) }
    ensures fails { IfErr result (FailsPart cursor.old) }
{
    let owner = cursor.name(alloc)?;
    cursor.expect(Symbol::Colon)?;
    let readers = names_or_none(alloc, cursor)?;
    if cursor.is_next(Symbol::Semicolon) {
        cursor.pass();
        return Ok((PolicyDraft { owner, readers }, true));
    }
    cursor.expect(Symbol::RightBrace)?;
    Ok((PolicyDraft { owner, readers }, false))
}

/// Who trusts, from the `?` to the brace behind them.
fn trust(alloc: Global, cursor: &mut Cursor) -> Result<Vec<NameDraft>, ParseError>
    requires { IsNextSymbol cursor.old Question }
    ensures read { IfOk result (λ drafts. ReadsTrust cursor.old cursor.new drafts.items) }
    ensures fails { IfErr result (FailsPart cursor.old) }
{
    cursor.pass();
    cursor.expect(Symbol::Colon)?;
    let members = names_or_none(alloc, cursor)?;
    cursor.expect(Symbol::RightBrace)?;
    Ok(members)
}

/// Names joined by commas, if any name is next.
fn names_or_none(alloc: Global, cursor: &mut Cursor) -> Result<Vec<NameDraft>, ParseError>
    ensures read { IfOk result (λ drafts. ReadsAnyNames cursor.old cursor.new drafts.items) }
    ensures fails { IfErr result (FailsAnyNames cursor.old) }
{
    if cursor.is_name_next() {
        names(alloc, cursor)
    } else {
        Ok(Vec::new(alloc))
    }
}

/// Names joined by commas, at least one.
pub fn names(alloc: Global, cursor: &mut Cursor) -> Result<Vec<NameDraft>, ParseError>
    ensures read { IfOk result (λ drafts. ReadsNames cursor.old cursor.new drafts.items) }
    ensures fails { IfErr result (FailsNames cursor.old) }
{
    let mut names = Vec::new(alloc);
    'listed: loop {
        let name = cursor.name(alloc)?;
        names.push(name)?;
        if !cursor.is_next(Symbol::Comma) {
            return Ok(names);
        }
        cursor.pass();
    }
}
