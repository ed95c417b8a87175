//! Names and keywords.

ghost use Rattle.std.specs.Prelude.{◌≡◌, ◌≢◌, ◌≤◌, ◌↔◌, length, IfOk, IfSome, IfNone, IsTrue};
ghost use Rattle.std.specs.List.{prefix_len};
ghost use Rattle.js_base.specs.Name.{IsName, continues_name};
ghost use Rattle.jif_lex.specs.declared.token.Word.{Word};
ghost use Rattle.jif_lex.specs.Symbols.{word_text};
ghost use Rattle.jif_lex.specs.Tokens.{IsWordLike, IsKind};
ghost use Rattle.jif_lex.specs.Lexing.{BeginsWord};

use crate::{Name, TokenKind, Word};
use js_base::OutOfMemory;
use js_base::names::{continues_name, name_text, starts_name};
use std::alloc::Global;

/// Whether a text begins with an ASCII letter or `_`.
pub fn begins_word(text: &[u8]) -> bool
    ensures { IsTrue result ↔ BeginsWord text.now }
{
    match text.first() {
        Some(first) => starts_name(*first),
        None => false,
    }
}

/// How many letters, digits and `_` a text begins with.
pub fn word_len(text: &[u8]) -> usize
    ensures len { result ≡ prefix_len continues_name text.now }
    ensures within { result ≤ length text.now }
{
    text.iter()
        .take_while(|byte| continues_name(**byte))
        .count()
}

/// The keyword or the name that a text is.
pub fn word_kind(alloc: Global, text: &[u8]) -> Result<TokenKind, OutOfMemory>
    requires { IsWordLike text.now }
    ensures { IfOk result (IsKind text.now) }
{
    if let Some(word) = keyword(text) {
        return Ok(TokenKind::Word(word));
    }
    Ok(TokenKind::Name(name_of(alloc, text)?))
}

/// The name that a text is.
fn name_of(alloc: Global, text: &[u8]) -> Result<Name, OutOfMemory>
    requires { IsName text.now }
    ensures { IfOk result (λ name. name ≡ text.now) }
{
    Ok(Name::new(name_text(alloc, text)?))
}

/// The keyword that a text is.
fn keyword(text: &[u8]) -> Option<Word>
    ensures some { IfSome result (λ word. text.now ≡ word_text word) }
    ensures none { IfNone result ((word : Word) → text.now ≢ word_text word) }
{
    if text == b"int".as_slice() {
        Some(Word::Int)
    } else if text == b"void".as_slice() {
        Some(Word::Void)
    } else if text == b"if".as_slice() {
        Some(Word::If)
    } else if text == b"else".as_slice() {
        Some(Word::Else)
    } else if text == b"while".as_slice() {
        Some(Word::While)
    } else if text == b"return".as_slice() {
        Some(Word::Return)
    } else if text == b"where".as_slice() {
        Some(Word::Where)
    } else if text == b"authority".as_slice() {
        Some(Word::Authority)
    } else if text == b"declassify".as_slice() {
        Some(Word::Declassify)
    } else if text == b"endorse".as_slice() {
        Some(Word::Endorse)
    } else {
        None
    }
}
