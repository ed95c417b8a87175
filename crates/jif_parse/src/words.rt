//! Keywords that are due.

ghost use Rattle.std.specs.Prelude.{◌≡◌, ◌↔◌, IsTrue, IfOk, IfErr};
ghost use Rattle.jif_lex.specs.declared.token.TokenKind.TheVariants as token;
ghost use Rattle.jif_parse.specs.Reading.{IsNextKind};
ghost use Rattle.jif_parse.specs.Words.{PassesWord};

use crate::ParseError;
use crate::cursor::Cursor;
use jif_lex::Word;

/// Whether this keyword is next.
pub fn is_word_next(cursor: &Cursor, word: Word) -> bool
    ensures { IsTrue result ↔ IsNextKind cursor.now (token.Word word) }
{
    match cursor.next() {
        Some(token) => token.kind.is_word(word),
        None => false,
    }
}

/// Steps behind this keyword, which is due.
pub fn expect_word(cursor: &mut Cursor, word: Word) -> Result<(), ParseError>
    ensures passed { IfOk result (λ done. PassesWord cursor.old cursor.new word) }
    ensures other { IfErr result (λ error.
        (error ≡ ParseError.Unexpected cursor.old.at) × ¬ IsNextKind cursor.old (token.Word word)) }
{
    if !is_word_next(cursor, word) {
        return Err(cursor.unexpected());
    }
    cursor.pass();
    Ok(())
}
