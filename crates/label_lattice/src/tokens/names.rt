//! The principals that names stand for.

ghost use Rattle.std.specs.Prelude.{◌≡◌, ℕ, ◌<◌, List, All, IfOk, IfSome, IfNone, length};
ghost use Rattle.js_base.specs.declared.ids.PrincipalId.{PrincipalId};
ghost use Rattle.label_lattice.specs.Written.{IsKnown, AreKnown, kinds, name_tokens, names_tokens};

use crate::tokens::pieces::{cut_at, unless_empty};
use jif_lex::{Symbol, Token, TokenKind};
use js_base::{OutOfMemory, PrincipalId};
use principals::Principals;
use std::alloc::Global;

/// The principals of names that are joined by commas.
pub fn known_names(
    alloc: Global,
    tokens: &[Token],
    principals: &Principals,
) -> Result<Option<Vec<PrincipalId>>, OutOfMemory>
    ensures found { IfOk result (λ read. IfSome read (λ known. (names : List (List ℕ))
        × (kinds tokens.now ≡ names_tokens names) × AreKnown principals.now names known.items)) }
    ensures declared { IfOk result (λ read. IfSome read (λ known.
        All (λ named. named.0 < length principals.now.names) known.items)) }
    ensures none { IfOk result (λ read. IfNone read ((names : List (List ℕ)) (known : List PrincipalId) →
        kinds tokens.now ≡ names_tokens names → ¬ AreKnown principals.now names known)) }
{
    let mut known = Vec::new(alloc);
    let mut left = unless_empty(tokens);
    while let Some(rest) = left {
        let (name, after) = cut_at(rest, Symbol::Comma);
        let Some(principal) = known_name(name, principals) else {
            return Ok(None);
        };
        known.push(principal)?;
        left = after;
    }
    Ok(Some(known))
}

/// The principal of this one name.
fn known_name(tokens: &[Token], principals: &Principals) -> Option<PrincipalId>
    ensures found { IfSome result (λ principal. (name : List ℕ)
        × (kinds tokens.now ≡ name_tokens name) × IsKnown principals.now name principal) }
    ensures declared { IfSome result (λ principal. principal.0 < length principals.now.names) }
    ensures none { IfNone result ((name : List ℕ) (principal : PrincipalId) →
        kinds tokens.now ≡ name_tokens name → ¬ IsKnown principals.now name principal) }
{
    let [token] = tokens else {
        return None;
    };
    match &token.kind {
        TokenKind::Name(name) => principals.find(name.as_str()),
        _ => None,
    }
}
