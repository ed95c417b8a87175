//! What ends an expression.

ghost use Rattle.std.specs.Prelude.{◌≡◌};
ghost use Rattle.jif_parse.specs.Phrases.{closing_of, closing_symbol};

use jif_lex::Symbol;

/// The symbol behind an expression.
#[derive(Clone, Copy)]
pub enum Ending {
    Semicolon,
    Comma,
    Bracket,
    Parenthesis,
}

impl Ending {
    pub fn symbol(self) -> Symbol
        ensures { result ≡ closing_symbol (closing_of self) }
    {
        match self {
            Ending::Semicolon => Symbol::Semicolon,
            Ending::Comma => Symbol::Comma,
            Ending::Bracket => Symbol::RightBracket,
            Ending::Parenthesis => Symbol::RightParenthesis,
        }
    }
}
