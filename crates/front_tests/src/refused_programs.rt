//! What becomes of texts.

use jif_lex::{lex, token_laws};
use jif_parse::{ParseError, parse};
use std::alloc::{AllocError, Global};
use std::test::Fail;

/// Why a text is no program.
pub fn refusal(alloc: Global, text: &str) -> Result<Option<ParseError>, Fail> {
    token_laws();
    let tokens = lex(alloc, text.as_bytes())?;
    Ok(parse(alloc, tokens.as_slice()).err())
}

/// Puts so many copies of a filler behind a text.
pub fn push_copies(text: &mut String, filler: &str, count: usize) -> Result<(), AllocError> {
    for _ in 0..count {
        text.push_str(filler)?;
    }
    Ok(())
}
