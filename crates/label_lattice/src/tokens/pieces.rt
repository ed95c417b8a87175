//! Cuts of lists of tokens.

ghost use Rattle.std.specs.Prelude.{◌≡◌, ◌≢◌, ◌↔◌, List, [], ◌∷◌, ◌++◌, IfSome, IfNone};
ghost use Rattle.std.specs.Prelude.{IsTrue};
ghost use Rattle.std.specs.Option.{option_map};
ghost use Rattle.jif_lex.specs.declared.token.TokenKind.{TokenKind};
ghost use Rattle.jif_lex.specs.declared.token.Symbol.TheVariants.{LeftBrace, RightBrace, Colon, Question};
ghost use Rattle.label_lattice.specs.Written.{kinds, symbol};
ghost use Rattle.label_lattice.specs.Reading.{CutsAt, IsAllLeft, MayStand};

use jif_lex::{Symbol, Token};

/// The tokens between the first, `{`, and the last, `}`.
pub fn between_braces(tokens: &[Token]) -> Option<&[Token]>
    ensures found { IfSome result (λ inside.
        kinds tokens.now ≡ symbol LeftBrace ∷ kinds inside.now ++ symbol RightBrace ∷ []) }
    ensures none { IfNone result ((inside : List TokenKind) →
        kinds tokens.now ≢ symbol LeftBrace ∷ inside ++ symbol RightBrace ∷ []) }
{
    let (first, rest) = tokens.split_first()?;
    let (last, inside) = rest.split_last()?;
    if first.kind.is_symbol(Symbol::LeftBrace) && last.kind.is_symbol(Symbol::RightBrace) {
        Some(inside)
    } else {
        None
    }
}

/// The tokens, or `None` where there are none.
pub fn unless_empty(tokens: &[Token]) -> Option<&[Token]>
    ensures { IsAllLeft (kinds tokens.now) (option_map (λ same. kinds same.now) result) }
{
    if tokens.is_empty() {
        None
    } else {
        Some(tokens)
    }
}

/// The tokens before the first of these symbols, and those after it where there is one.
pub fn cut_at(tokens: &[Token], separator: Symbol) -> (&[Token], Option<&[Token]>)
    ensures { CutsAt (symbol separator) (kinds tokens.now) (kinds result.0.now)
        (option_map (λ rest. kinds rest.now) result.1) }
{
    for (place, token) in tokens.iter().enumerate() {
        if token.kind.is_symbol(separator) {
            return (&tokens[..place], Some(&tokens[place + 1..]));
        }
    }
    (tokens, None)
}

/// Whether a part may stand before these tokens: one that says who trusts may only be the last.
pub fn may_stand(part: &[Token], after: Option<&[Token]>) -> bool
    ensures { IsTrue result ↔ MayStand (kinds part.now) (option_map (λ rest. kinds rest.now) after.entry) }
{
    match after {
        Some(_) => !says_who_trusts(part),
        None => true,
    }
}

/// Whether the first token is `?`.
fn says_who_trusts(part: &[Token]) -> bool
    ensures yes { IsTrue result → (rest : List TokenKind) × (kinds part.now ≡ symbol Question ∷ rest) }
    ensures no { (rest : List TokenKind) → kinds part.now ≡ symbol Question ∷ rest → IsTrue result }
{
    match part.split_first() {
        Some((first, _)) => first.kind.is_symbol(Symbol::Question),
        None => false,
    }
}

/// The first token, and those after the `:` that follows it.
pub fn after_colon(part: &[Token]) -> Option<(&Token, &[Token])>
    ensures found { IfSome result (λ cut.
        kinds part.now ≡ cut.0.now.kind ∷ symbol Colon ∷ kinds cut.1.now) }
    ensures none { IfNone result ((head : TokenKind) (names : List TokenKind) →
        kinds part.now ≢ head ∷ symbol Colon ∷ names) }
{
    let (head, rest) = part.split_first()?;
    let (colon, names) = rest.split_first()?;
    if colon.kind.is_symbol(Symbol::Colon) {
        Some((head, names))
    } else {
        None
    }
}
