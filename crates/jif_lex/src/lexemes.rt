//! The lexeme that a text begins with, and its token.

ghost use Rattle.std.specs.Prelude.{IfSome, IfNone, IfOk, MatchResult};
ghost use Rattle.jif_lex.specs.Tokens.{OpensComment, BeginsBadNumber};
ghost use Rattle.jif_lex.specs.Lexing.{HasFront, IsTokenFront, LexemeFails, BeginsWord, BeginsDigits};

use crate::TokenKind;
use crate::lexer::LexError;
use crate::numbers::{begins_digits, digits_len, number};
use crate::symbols::first_symbol;
use crate::words::{begins_word, word_kind, word_len};
use js_base::OutOfMemory;
use std::alloc::Global;

/// The token that a text begins with, and how many bytes it has. The text stands at this place of the whole.
pub fn first_lexeme(alloc: Global, text: &[u8], at: u32) -> Result<(TokenKind, usize), LexError>
    requires { ¬ OpensComment text.now }
    ensures { MatchResult result (λ found. HasFront text.now found.1 (IsTokenFront found.0))
        (LexemeFails text.now at) }
{
    if begins_word(text) {
        return Ok(first_word(alloc, text)?);
    }
    if begins_digits(text) {
        return match first_number(text) {
            Some((value, len)) => Ok((TokenKind::Number(value), len)),
            None => Err(LexError::BadNumber(at)),
        };
    }
    match first_symbol(text) {
        Some((symbol, len)) => Ok((TokenKind::Symbol(symbol), len)),
        None => Err(LexError::BadByte(at)),
    }
}

/// The keyword or the name that a text begins with, and how many bytes it has.
fn first_word(alloc: Global, text: &[u8]) -> Result<(TokenKind, usize), OutOfMemory>
    requires begins { BeginsWord text.now }
    requires plain { ¬ OpensComment text.now }
    ensures { IfOk result (λ found. HasFront text.now found.1 (IsTokenFront found.0)) }
{
    let len = word_len(text);
    Ok((word_kind(alloc, &text[..len])?, len))
}

/// The number that a text begins with, and how many bytes it has.
fn first_number(text: &[u8]) -> Option<(i64, usize)>
    requires begins { BeginsDigits text.now }
    requires plain { ¬ OpensComment text.now }
    ensures some { IfSome result (λ found. HasFront text.now found.1 (IsTokenFront (TokenKind.Number found.0))) }
    ensures none { IfNone result (BeginsBadNumber text.now) }
{
    let len = digits_len(text);
    if begins_word(&text[len..]) {
        return None;
    }
    Some((number(&text[..len])?, len))
}
