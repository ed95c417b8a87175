//! Tokens.

ghost use Rattle.std.specs.Prelude.{◌≡◌, ◌↔◌, IsTrue};

use crate::Name;

/// A token, and the place at which it stands in the text.
#[derive(Drop)]
pub struct Token {
    pub kind: TokenKind,
    /// The place of its first byte, from 0.
    pub at: u32,
    /// The line of its first byte, from 1.
    pub line: u32,
}

/// What a token is.
#[derive(Drop)]
pub enum TokenKind {
    Name(Name),
    /// A number, at least 0.
    Number(i64),
    Word(Word),
    Symbol(Symbol),
}

impl TokenKind {
    /// Whether it is this symbol.
    pub fn is_symbol(&self, symbol: Symbol) -> bool
        ensures { IsTrue result ↔ self.now ≡ TokenKind.Symbol symbol }
    {
        match self {
            TokenKind::Symbol(own) => *own == symbol,
            _ => false,
        }
    }

    /// Whether it is this keyword.
    pub fn is_word(&self, word: Word) -> bool
        ensures { IsTrue result ↔ self.now ≡ TokenKind.Word word }
    {
        match self {
            TokenKind::Word(own) => *own == word,
            _ => false,
        }
    }
}

/// A word that the language has for itself.
#[derive(Clone, Copy)]
pub enum Word {
    Int,
    Void,
    If,
    Else,
    While,
    Return,
    Where,
    Authority,
    Declassify,
    Endorse,
}

/// A symbol.
#[derive(Clone, Copy)]
pub enum Symbol {
    /// `{`
    LeftBrace,
    /// `}`
    RightBrace,
    /// `(`
    LeftParenthesis,
    /// `)`
    RightParenthesis,
    /// `[`
    LeftBracket,
    /// `]`
    RightBracket,
    /// `;`
    Semicolon,
    /// `:`
    Colon,
    /// `,`
    Comma,
    /// `?`
    Question,
    /// `=`
    Assign,
    /// `==`
    Equal,
    /// `!=`
    NotEqual,
    /// `<`
    Less,
    /// `<=`
    LessOrEqual,
    /// `>`
    Greater,
    /// `>=`
    GreaterOrEqual,
    /// `+`
    Plus,
    /// `-`
    Minus,
    /// `*`
    Star,
    /// `/`
    Slash,
    /// `%`
    Percent,
    /// `!`
    Not,
    /// `&&`
    And,
    /// `||`
    Or,
}
