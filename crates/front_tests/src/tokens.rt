//! Texts that have no tokens, and what tokens are.

use crate::tables::{column, told};
use jif_lex::{LexError, Symbol, TokenKind, Word, lex};
use js_base::limits::PROGRAM_BYTES;
use std::alloc::{AllocError, Global};
use std::test::Fail;

/// What texts are refused for. `^` stands for a line feed, and `$` and `%` for the bytes 128 and 255.
const REFUSED: &str = "\
    BadNumber(0) | 9223372036854775808\n\
    BadNumber(1) | ^99999999999999999999999999\n\
    BadNumber(6) | int{} 9x;\n\
    BadNumber(2) | a 0_\n\
    BadNumber(4) | 1 2 007Z\n\
    BadByte(1) | 0@ 9x\n\
    BadByte(0) | &\n\
    BadByte(2) | a & b\n\
    BadByte(2) | &&& b\n\
    BadByte(1) | a|\n\
    BadByte(1) | a.b\n\
    BadByte(0) | \"\"\n\
    BadByte(1) | a\x0B\n\
    BadByte(0) | \x00\n\
    BadByte(1) | a$\n\
    BadByte(4) | a//^%\n\
    BadByte(0) | /*\n\
    BadByte(2) | a /*/\n\
    BadByte(2) | a^/* * / % @ 9x\n\
    BadByte(5) | /**/ /**";

/// The byte that a letter of the table stands for.
fn byte_of(letter: u8) -> u8 {
    match letter {
        b'^' => b'\n',
        b'$' => 128,
        b'%' => 255,
        itself => itself,
    }
}

/// The text that a column stands for.
fn bytes_of(alloc: Global, letters: &str) -> Result<Vec<u8>, AllocError> {
    let mut bytes = Vec::new(alloc);
    for letter in letters.bytes() {
        bytes.push(byte_of(letter))?;
    }
    Ok(bytes)
}

#[test]
fn refuses_bad_numbers_and_bytes(rt: HostRuntime) -> Result<(), Fail> {
    let alloc = rt.alloc();
    for row in REFUSED.lines() {
        let text = bytes_of(alloc, column(row, 1))?;
        let found = told(alloc, lex(alloc, &text).err())?;
        assert_eq!(rt; found.as_str(), column(row, 0), "at {row}");
    }
    Ok(())
}

#[test]
fn refuses_long_texts_first(rt: HostRuntime) -> Result<(), Fail> {
    let mut text = vec![in rt.alloc(); b'@'; PROGRAM_BYTES]?;
    let outcome = lex(rt.alloc(), text.as_slice());
    assert_eq!(rt; outcome.err(), Some(LexError::BadByte(0)));
    text.push(b'@')?;
    let outcome = lex(rt.alloc(), text.as_slice());
    assert_eq!(rt; outcome.err(), Some(LexError::TooLong));
    Ok(())
}

#[test]
fn knows_its_symbols_and_words(rt: HostRuntime) -> Result<(), Fail> {
    let if_word = TokenKind::Word(Word::If);
    let or_symbol = TokenKind::Symbol(Symbol::Or);
    assert!(rt; if_word.is_word(Word::If));
    assert!(rt; !if_word.is_word(Word::Int));
    assert!(rt; !if_word.is_symbol(Symbol::Or));
    assert!(rt; or_symbol.is_symbol(Symbol::Or));
    assert!(rt; !or_symbol.is_symbol(Symbol::And));
    Ok(())
}
