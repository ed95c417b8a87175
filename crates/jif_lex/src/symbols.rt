//! Symbols.

ghost use Rattle.std.specs.Prelude.{◌≡◌, ◌≢◌, [], ◌∷◌, IfSome, IfNone};
ghost use Rattle.jif_lex.specs.declared.token.Symbol.{Symbol};
ghost use Rattle.jif_lex.specs.Symbols.{symbol_text};
ghost use Rattle.jif_lex.specs.Lexing.{IsSymbolFront, LacksSymbol};

use crate::Symbol;

/// The longest symbol that a text begins with, and how many bytes it has.
pub fn first_symbol(text: &[u8]) -> Option<(Symbol, usize)>
    ensures some { IfSome result (λ found. IsSymbolFront text.now found.0 found.1) }
    ensures none { IfNone result (LacksSymbol text.now) }
{
    let (first, after) = text.split_first()?;
    if let Some(second) = after.first() {
        if let Some(symbol) = pair(*first, *second) {
            return Some((symbol, 2));
        }
    }
    Some((single(*first)?, 1))
}

/// The symbol of these two bytes.
fn pair(first: u8, second: u8) -> Option<Symbol>
    ensures some { IfSome result (λ symbol. symbol_text symbol ≡ first ∷ second ∷ []) }
    ensures none { IfNone result ((symbol : Symbol) → symbol_text symbol ≢ first ∷ second ∷ []) }
{
    match (first, second) {
        (b'=', b'=') => Some(Symbol::Equal),
        (b'!', b'=') => Some(Symbol::NotEqual),
        (b'<', b'=') => Some(Symbol::LessOrEqual),
        (b'>', b'=') => Some(Symbol::GreaterOrEqual),
        (b'&', b'&') => Some(Symbol::And),
        (b'|', b'|') => Some(Symbol::Or),
        _ => None,
    }
}

/// The symbol of this byte.
fn single(byte: u8) -> Option<Symbol>
    ensures some { IfSome result (λ symbol. symbol_text symbol ≡ byte ∷ []) }
    ensures none { IfNone result ((symbol : Symbol) → symbol_text symbol ≢ byte ∷ []) }
{
    match byte {
        b'{' => Some(Symbol::LeftBrace),
        b'}' => Some(Symbol::RightBrace),
        b'(' => Some(Symbol::LeftParenthesis),
        b')' => Some(Symbol::RightParenthesis),
        b'[' => Some(Symbol::LeftBracket),
        b']' => Some(Symbol::RightBracket),
        b';' => Some(Symbol::Semicolon),
        b':' => Some(Symbol::Colon),
        b',' => Some(Symbol::Comma),
        b'?' => Some(Symbol::Question),
        b'=' => Some(Symbol::Assign),
        b'<' => Some(Symbol::Less),
        b'>' => Some(Symbol::Greater),
        b'+' => Some(Symbol::Plus),
        b'-' => Some(Symbol::Minus),
        b'*' => Some(Symbol::Star),
        b'/' => Some(Symbol::Slash),
        b'%' => Some(Symbol::Percent),
        b'!' => Some(Symbol::Not),
        _ => None,
    }
}
