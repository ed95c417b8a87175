//! How tokens are spelled.

ghost use Rattle.std.specs.Prelude.{◌≡◌, ◌++◌, OnOk};
ghost use Rattle.std.specs.String.{string_bytes};
ghost use Rattle.jif_lex.specs.Spelled.{kind_text};
ghost use Rattle.jif_lex.specs.Symbols.{word_text, symbol_text};

use jif_lex::{Symbol, TokenKind, Word};
use js_base::OutOfMemory;
use std::fmt::Write;

/// Adds a token as the language spells it.
pub fn push_kind(text: &mut String, kind: &TokenKind) -> Result<(), OutOfMemory>
    ensures { OnOk result (string_bytes text.new ≡ string_bytes text.old ++ kind_text kind.now) }
{
    match kind {
        TokenKind::Name(name) => {
            text.push_str(name.as_str())?;
            Ok(())
        }
        TokenKind::Number(value) => write!(text, "{value}").map_err(|_| OutOfMemory),
        TokenKind::Word(word) => {
            text.push_str(word_text(*word))?;
            Ok(())
        }
        TokenKind::Symbol(symbol) => {
            text.push_str(symbol_text(*symbol))?;
            Ok(())
        }
    }
}

/// How a keyword is spelled.
fn word_text(word: Word) -> &'static str
    ensures { result.now ≡ word_text word }
{
    match word {
        Word::Int => "int",
        Word::Void => "void",
        Word::If => "if",
        Word::Else => "else",
        Word::While => "while",
        Word::Return => "return",
        Word::Where => "where",
        Word::Authority => "authority",
        Word::Declassify => "declassify",
        Word::Endorse => "endorse",
    }
}

/// How a symbol is spelled.
fn symbol_text(symbol: Symbol) -> &'static str
    ensures { result.now ≡ symbol_text symbol }
{
    match symbol {
        Symbol::LeftBrace => "{",
        Symbol::RightBrace => "}",
        Symbol::LeftParenthesis => "(",
        Symbol::RightParenthesis => ")",
        Symbol::LeftBracket => "[",
        Symbol::RightBracket => "]",
        Symbol::Semicolon => ";",
        Symbol::Colon => ":",
        Symbol::Comma => ",",
        Symbol::Question => "?",
        Symbol::Assign => "=",
        Symbol::Equal => "==",
        Symbol::NotEqual => "!=",
        Symbol::Less => "<",
        Symbol::LessOrEqual => "<=",
        Symbol::Greater => ">",
        Symbol::GreaterOrEqual => ">=",
        Symbol::Plus => "+",
        Symbol::Minus => "-",
        Symbol::Star => "*",
        Symbol::Slash => "/",
        Symbol::Percent => "%",
        Symbol::Not => "!",
        Symbol::And => "&&",
        Symbol::Or => "||",
    }
}
