//! How tokens are spelled, and where they stand.

ghost use Rattle.std.specs.Prelude.{◌≡◌, ◌-◌, IfOk};
ghost use Rattle.std.specs.String.{string_bytes};
ghost use Rattle.explain_texts.specs.TokenTexts.{token_line, token_place, token_text};

use jif_lex::Token;
use js_base::OutOfMemory;
use std::alloc::Global;
use text_places::push_kind;

/// How the token of a number is spelled, empty where there is none.
pub fn token_text(alloc: Global, tokens: &[Token], number: usize) -> Result<String, OutOfMemory>
    ensures { IfOk result (λ text. string_bytes text ≡ token_text tokens.now number) }
{
    let mut text = String::new(alloc);
    match tokens.get(number) {
        Some(token) => push_kind(&mut text, &token.kind)?,
        None => {}
    }
    Ok(text)
}

/// The place of the first byte of a token.
pub fn token_place(tokens: &[Token], number: usize) -> Option<usize>
    ensures { result ≡ token_place tokens.now number }
{
    match tokens.get(number) {
        Some(token) => Some(token.at as usize),
        None => None,
    }
}

/// The line of a token, 0 where there is none.
pub fn token_line(tokens: &[Token], number: usize) -> u32
    ensures { result ≡ token_line tokens.now number }
{
    match tokens.get(number) {
        Some(token) => token.line,
        None => 0,
    }
}

/// So many before a number, 0 where there are not so many.
pub fn earlier(number: usize, count: usize) -> usize
    ensures { result ≡ number - count }
{
    if number < count { 0 } else { number - count }
}
