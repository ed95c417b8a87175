//! The tokens of a text, one after the other.

ghost use Rattle.std.specs.Prelude.{◌≡◌, ◌≢◌, ◌≤◌, length, [], MatchResult};
ghost use Rattle.jif_lex.specs.Tokens.{ReadsAs, tokens, line_feeds};
ghost use Rattle.jif_lex.specs.Lexing.{LexFails, IsFront, IsTaken, FailsAt};

use crate::lexemes::first_lexeme;
use crate::skipped::{opens_comment, skipped_len};
use crate::{Token, TokenKind};
use js_base::OutOfMemory;
use js_base::limits::PROGRAM_BYTES;
use js_base::text::LINE_FEED;
use std::alloc::{AllocFailed, Global};
use thiserror::Error;

/// Why a text has no tokens.
#[derive(Clone, Copy, Debug, PartialEq, Eq, Error)]
pub enum LexError {
    #[error("out of memory")]
    OutOfMemory,
    /// The place, from 0, of the first byte that begins no token and is not skipped, or of a `/*` that is never closed.
    #[error("byte {0}: begins no token")]
    BadByte(u32),
    /// The place, from 0, of a run of digits that is above `LARGEST_NUMBER`, or that a letter or `_` follows at once.
    #[error("byte {0}: no number")]
    BadNumber(u32),
    /// It has more than `PROGRAM_BYTES` bytes.
    #[error("too long")]
    TooLong,
}

impl From<OutOfMemory> for LexError {
    ghost use Rattle.std.specs.Prelude.{◌≡◌};
    ghost use Rattle.jif_lex.specs.declared.lexer.LexError.TheVariants.{OutOfMemory};

    ghost from_gives = { λ _ error. error ≡ OutOfMemory };

    fn from(_error: OutOfMemory) -> Self {
        LexError::OutOfMemory
    }
}

impl<T: Drop> From<AllocFailed<T>> for LexError {
    ghost use Rattle.std.specs.Prelude.{◌≡◌};
    ghost use Rattle.jif_lex.specs.declared.lexer.LexError.TheVariants.{OutOfMemory};

    ghost from_gives = { λ _ error. error ≡ OutOfMemory };

    fn from(_error: AllocFailed<T>) -> Self {
        LexError::OutOfMemory
    }
}

/// What a text begins with, of so many bytes.
#[derive(Drop)]
pub enum Front {
    /// A blank or a comment.
    Skipped(usize),
    /// A token.
    Lexeme(TokenKind, usize),
}

/// The tokens of a program's text.
pub fn lex(alloc: Global, bytes: &[u8]) -> Result<Vec<Token>, LexError>
    ensures { MatchResult result
        (λ list. (length bytes.now ≤ PROGRAM_BYTES) × ReadsAs bytes.now (tokens list.items))
        (LexFails bytes.now) }
{
    if bytes.len() > PROGRAM_BYTES {
        return Err(LexError::TooLong);
    }
    let mut found = Vec::new(alloc);
    let mut rest = bytes;
    let mut at = 0;
    let mut line = 1;
    while !rest.is_empty() {
        let (len, feeds) = take_piece(alloc, rest, at, line, &mut found)?;
        at += len as u32;
        line += feeds;
        rest = &rest[len..];
    }
    Ok(found)
}

/// Takes the token or the blank or comment that a text begins with, and answers how many bytes it has, and how many
/// line feeds. The text stands at this place and on this line of the whole.
fn take_piece(
    alloc: Global,
    text: &[u8],
    at: u32,
    line: u32,
    found: &mut Vec<Token>,
) -> Result<(usize, u32), LexError>
    requires some { text.now ≢ [] }
    requires short { length text.now ≤ PROGRAM_BYTES }
    ensures { MatchResult result
        (λ taken. IsTaken text.now at line found.old.items found.new.items taken.0 taken.1)
        (FailsAt text.now at) }
{
    match first_piece(alloc, text, at)? {
        Front::Skipped(len) => Ok((len, line_feeds(&text[..len]))),
        Front::Lexeme(kind, len) => {
            found.push(Token { kind, at, line })?;
            Ok((len, 0))
        }
    }
}

/// What a text begins with. The text stands at this place of the whole.
fn first_piece(alloc: Global, text: &[u8], at: u32) -> Result<Front, LexError>
    requires { text.now ≢ [] }
    ensures { MatchResult result (IsFront text.now) (FailsAt text.now at) }
{
    if let Some(len) = skipped_len(text) {
        return Ok(Front::Skipped(len));
    }
    if opens_comment(text) {
        return Err(LexError::BadByte(at));
    }
    let (kind, len) = first_lexeme(alloc, text, at)?;
    Ok(Front::Lexeme(kind, len))
}

/// How many line feeds there are.
fn line_feeds(bytes: &[u8]) -> u32
    requires { length bytes.now ≤ PROGRAM_BYTES }
    ensures { result ≡ line_feeds bytes.now }
{
    bytes.iter().filter(|byte| **byte == LINE_FEED).count() as u32
}
