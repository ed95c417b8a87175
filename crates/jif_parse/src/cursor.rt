//! Where the parser stands among the tokens.

ghost use Rattle.std.specs.Prelude.{◌≤◌, ◌+◌, length};

use crate::ParseError;
use crate::counts::{Begins, Counts};
use crate::names::name_draft;
use jif_lex::{Symbol, Token, TokenKind};
use jif_tree::NameDraft;
use js_base::limits::NESTING;
use std::alloc::Global;

/// The tokens that are left, the number of the first of them, and what has begun.
#[derive(Drop)]
pub struct Cursor<'a> {
    pub rest: &'a [Token],
    pub at: u32,
    pub counts: Counts,
    ghost few: { at + length rest.now ≤ 4294967295 },
}

impl<'a> Cursor<'a> {
    ghost use Rattle.std.specs.Prelude.{◌≡◌, ◌↔◌, ◌⊎◌, [], IsTrue, IfOk, IfErr, IfSome, IfNone};
    ghost use Rattle.jif_parse.specs.Counting.{beginning_of};
    ghost use Rattle.jif_parse.specs.Reading.{IsNext, IsNextSymbol, IsNextName, Steps, Passes, Counted, IsOver};
    ghost use Rattle.jif_parse.specs.Phrases.{ReadsName, PassesSymbol};

    /// The next token.
    pub fn next(&self) -> Option<&'a Token>
        ensures there { IfSome result (λ token. IsNext self.now token.now) }
        ensures none { IfNone result (self.now.rest.now ≡ []) }
    {
        self.rest.first()
    }

    /// Whether this symbol is next.
    pub fn is_next(&self, symbol: Symbol) -> bool
        ensures { IsTrue result ↔ IsNextSymbol self.now symbol }
    {
        match self.rest.first() {
            Some(token) => token.kind.is_symbol(symbol),
            None => false,
        }
    }

    /// Whether a name is next.
    pub fn is_name_next(&self) -> bool
        ensures { IsTrue result ↔ IsNextName self.now }
    {
        match self.rest.first() {
            Some(token) => matches!(token.kind, TokenKind::Name(_)),
            None => false,
        }
    }

    /// The next token is not due here.
    pub fn unexpected(&self) -> ParseError
        ensures { result ≡ ParseError.Unexpected self.now.at }
    {
        ParseError::Unexpected(self.at)
    }

    /// Steps behind the next token, at which nothing begins that is counted.
    pub fn pass(&mut self)
        ensures { Passes self.old self.new }
    {
        self.pass_with(self.counts);
    }

    /// Steps behind the next token, and takes over these counts.
    fn pass_with(&mut self, counts: Counts)
        ensures steps { Steps self.old self.new }
        ensures counts { self.new.counts ≡ counts }
    {
        match self.rest.split_first() {
            Some((_, rest)) => {
                *self = Cursor {
                    rest,
                    at: self.at + 1,
                    counts,
                }
            }
            None => self.counts = counts,
        }
    }

    /// Steps behind the next token, around which so many constructs are open, and where something begins.
    pub fn take(&mut self, nesting: usize, begins: Begins) -> Result<(), ParseError>
        ensures counted { IfOk result (λ done. Counted self.old self.new nesting (beginning_of begins)) }
        ensures over { IfErr result (IsOver self.old nesting (beginning_of begins)) }
    {
        if nesting > NESTING {
            return Err(ParseError::TooDeep(self.at));
        }
        match self.counts.with(begins) {
            Ok(counts) => {
                self.pass_with(counts);
                Ok(())
            }
            Err(what) => Err(ParseError::TooMany(what, self.at)),
        }
    }

    /// Steps behind this symbol, which is due.
    pub fn expect(&mut self, symbol: Symbol) -> Result<(), ParseError>
        ensures passed { IfOk result (λ done. PassesSymbol self.old self.new symbol) }
        ensures other { IfErr result (λ error. (error ≡ ParseError.Unexpected self.old.at)
            × ¬ IsNextSymbol self.old symbol) }
    {
        if !self.is_next(symbol) {
            return Err(self.unexpected());
        }
        self.pass();
        Ok(())
    }

    /// Steps behind a name, which is due.
    pub fn name(&mut self, alloc: Global) -> Result<NameDraft, ParseError>
        ensures read { IfOk result (ReadsName self.old self.new) }
        ensures other { IfErr result (λ error. (error ≡ ParseError.OutOfMemory)
            ⊎ (error ≡ ParseError.Unexpected self.old.at) × ¬ IsNextName self.old) }
    {
        let Some(token) = self.next() else {
            return Err(self.unexpected());
        };
        let TokenKind::Name(name) = &token.kind else {
            return Err(self.unexpected());
        };
        let draft = name_draft(alloc, name, self.at)?;
        self.pass();
        Ok(draft)
    }
}
