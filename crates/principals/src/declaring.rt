//! The pairs of principals that are declared, by their names.

ghost use Rattle.std.specs.Prelude.{◌≤◌, length, map, IfOk, IfErr, [], ◌∷◌, string_bytes};
ghost use Rattle.std.specs.List.{AllZip};
ghost use Rattle.principals.specs.Declaring.{IsNamed, IsPairOf, IsUnknownIn, mentioned_names};
ghost use Rattle.principals.specs.Declaring.{written_pair, written_pairs};
ghost use Rattle.principals.specs.Pairs.{pair_of, pairs_of};

use crate::PrincipalError;
use js_base::PrincipalId;
use js_base::limits::PRINCIPALS;
use js_base::named::place_of;
use js_base::text::owned_text;
use std::alloc::Global;

/// The principal of this name.
fn known(alloc: Global, names: &[String], name: &str) -> Result<PrincipalId, PrincipalError>
    requires { length names.now ≤ PRINCIPALS }
    ensures known { IfOk result (λ p. IsNamed (map string_bytes names.now) name.now p.0) }
    ensures unknown { IfErr result (IsUnknownIn (map string_bytes names.now) (name.now ∷ [])) }
{
    match place_of(names, name) {
        Some(place) => Ok(PrincipalId(place as u8)),
        None => Err(PrincipalError::Unknown(owned_text(alloc, name)?)),
    }
}

/// The principals of two names.
fn known_pair(
    alloc: Global,
    names: &[String],
    pair: &(String, String),
) -> Result<(PrincipalId, PrincipalId), PrincipalError>
    requires { length names.now ≤ PRINCIPALS }
    ensures known { IfOk result (λ ids.
        IsPairOf (map string_bytes names.now) (written_pair pair.now) (pair_of ids)) }
    ensures unknown { IfErr result
        (IsUnknownIn (map string_bytes names.now) (mentioned_names (written_pair pair.now ∷ []))) }
{
    let first = known(alloc, names, pair.0.as_str())?;
    let second = known(alloc, names, pair.1.as_str())?;
    Ok((first, second))
}

/// The principals of these pairs of names.
pub fn pair_ids(
    alloc: Global,
    names: &[String],
    pairs: &[(String, String)],
) -> Result<Vec<(PrincipalId, PrincipalId)>, PrincipalError>
    requires { length names.now ≤ PRINCIPALS }
    ensures known { IfOk result (λ ids.
        AllZip (IsPairOf (map string_bytes names.now)) (written_pairs pairs.now) (pairs_of ids.items)) }
    ensures unknown { IfErr result
        (IsUnknownIn (map string_bytes names.now) (mentioned_names (written_pairs pairs.now))) }
{
    let mut ids = Vec::new(alloc);
    for pair in pairs {
        ids.push(known_pair(alloc, names, pair)?)?;
    }
    Ok(ids)
}
