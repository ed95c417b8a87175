//! What operands begin with.

ghost use Rattle.std.specs.Prelude.{◌≡◌};
ghost use Rattle.jif_lex.specs.declared.token.TokenKind.TheVariants as token;
ghost use Rattle.jif_parse.specs.Starts.{Starts};

use jif_lex::{Name, Symbol, TokenKind, Word};

/// What an operand begins with.
pub enum Start<'a> {
    Number(i64),
    Name(&'a Name),
    Parenthesis,
    Sign(Sign),
    Change(Change),
    /// With this token no operand begins.
    Other,
}

/// `!` and `-` before an operand.
#[derive(Clone, Copy)]
pub enum Sign {
    Complement,
    Minus,
}

/// `declassify` and `endorse`.
#[derive(Clone, Copy)]
pub enum Change {
    Release,
    Acceptance,
}

/// What an operand with this first token begins with.
pub fn start_of(kind: &TokenKind) -> Start<'_>
    ensures { Starts kind.now result }
{
    match kind {
        TokenKind::Number(number) if *number < 0 => Start::Other,
        TokenKind::Number(number) => Start::Number(*number),
        TokenKind::Name(name) => Start::Name(name),
        TokenKind::Symbol(symbol) => start_of_symbol(*symbol),
        TokenKind::Word(word) => start_of_word(*word),
    }
}

fn start_of_symbol<'a>(symbol: Symbol) -> Start<'a>
    ensures { Starts (token.Symbol symbol) result }
{
    match symbol {
        Symbol::LeftParenthesis => Start::Parenthesis,
        Symbol::Not => Start::Sign(Sign::Complement),
        Symbol::Minus => Start::Sign(Sign::Minus),
        _ => Start::Other,
    }
}

fn start_of_word<'a>(word: Word) -> Start<'a>
    ensures { Starts (token.Word word) result }
{
    match word {
        Word::Declassify => Start::Change(Change::Release),
        Word::Endorse => Start::Change(Change::Acceptance),
        _ => Start::Other,
    }
}
