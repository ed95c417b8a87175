//! Principals, and who acts for whom.
//!
//! Declared pairs are kept. Who acts for whom is asked of rows of bits. The pairs that were declared are kept beside
//! them, so that a contract sees a list of pairs, and the relation is a chain of such pairs.
//!
//! A principal is looked for by the end of its name first. There are at most 63, so they are gone over one by one.
//! Names are often numbered, and a whole name is compared only where its last byte is the same.

ghost use Rattle.std.specs.Prelude.{◌≡◌, ◌<◌, ◌↔◌, length, map, Some, IsTrue, IfSome, IfNone, All};
ghost use Rattle.std.specs.Prelude.{Contains};
ghost use Rattle.std.specs.Prelude.{slice_get, MatchResult, string_bytes};
ghost use Rattle.js_base.specs.Name.{IsName};
ghost use Rattle.principals.specs.ActsFor.{ActsFor, IsDeclared};
ghost use Rattle.principals.specs.Declaring.{AreDeclaredAs, Refuses, written_pairs};

use crate::closure::rows_of;
use crate::declaring::pair_ids;
use js_base::bits::has_bit;
use js_base::limits::PRINCIPALS;
use js_base::named::{first_repeated, place_of};
use js_base::text::{owned_text, owned_texts};
use js_base::{OutOfMemory, PrincipalId};
use std::alloc::{AllocFailed, Global};
use std::marker::Model;
use thiserror::Error;

/// Why principals were not declared.
#[derive(Debug, PartialEq, Eq, Drop, Error)]
pub enum PrincipalError {
    #[error("out of memory")]
    OutOfMemory,
    /// There are more than `PRINCIPALS` names.
    #[error("too many principals")]
    TooMany,
    /// The first name that repeats an earlier one.
    #[error("principal {0} twice")]
    Twice(String),
    /// The first name in the pairs that is not declared.
    #[error("unknown principal {0}")]
    Unknown(String),
}

impl From<OutOfMemory> for PrincipalError {
    ghost use Rattle.std.specs.Prelude.{◌≡◌};
    ghost use Rattle.principals.specs.declared.principals.PrincipalError.TheVariants.{OutOfMemory};

    ghost from_gives = { λ _ error. error ≡ OutOfMemory };

    fn from(_error: OutOfMemory) -> Self {
        PrincipalError::OutOfMemory
    }
}

impl<T: Drop> From<AllocFailed<T>> for PrincipalError {
    ghost use Rattle.std.specs.Prelude.{◌≡◌};
    ghost use Rattle.principals.specs.declared.principals.PrincipalError.TheVariants.{OutOfMemory};

    ghost from_gives = { λ _ error. error ≡ OutOfMemory };

    fn from(_error: AllocFailed<T>) -> Self {
        PrincipalError::OutOfMemory
    }
}

/// The declared principals by their names, at most `PRINCIPALS` and no two of one name, and who acts for whom.
#[derive(Drop)]
pub struct Principals {
    names: Vec<String>,
    /// The declared pairs. The first principal acts for the second.
    pairs: Vec<(PrincipalId, PrincipalId)>,
    /// For each principal a word with a bit for each principal that it acts for.
    rows: [u64; PRINCIPALS],
}

impl Model for Principals {
    ghost use Rattle.std.specs.Prelude.{map};
    ghost use Rattle.std.specs.String.{string_bytes};
    ghost use Rattle.principals.specs.ActsFor.{Declared, IsDeclared};
    ghost use Rattle.principals.specs.Closure.{AreRowsOf};
    ghost use Rattle.principals.specs.Pairs.{pairs_of};

    ghost Value = { Declared };

    ghost view = { λ p. record { names = map string_bytes p.names.items; pairs = pairs_of p.pairs.items } };

    ghost invariant = { λ p.
        IsDeclared (record { names = map string_bytes p.names.items; pairs = pairs_of p.pairs.items })
        × AreRowsOf (pairs_of p.pairs.items) p.rows };
}

impl Principals {
    /// The principals of these names, in their order, where the first of each pair acts for the second.
    ///
    /// # Errors
    /// More than `PRINCIPALS` names, otherwise a name that stands twice, otherwise an undeclared name in a pair.
    pub fn new(
        alloc: Global,
        names: &[String],
        pairs: &[(String, String)],
    ) -> Result<Principals, PrincipalError>
        requires { All (λ name. IsName (string_bytes name)) names.now }
        ensures { MatchResult result
            (AreDeclaredAs (map string_bytes names.now) (written_pairs pairs.now))
            (Refuses (map string_bytes names.now) (written_pairs pairs.now)) }
    {
        if names.len() > PRINCIPALS {
            return Err(PrincipalError::TooMany);
        }
        if let Some(place) = first_repeated(names) {
            return Err(PrincipalError::Twice(owned_text(alloc, names[place].as_str())?));
        }
        let pairs = pair_ids(alloc, names, pairs)?;
        let names = owned_texts(alloc, names)?;
        let rows = rows_of(&pairs);
        Ok(Principals { names, pairs, rows })
    }

    /// How many are declared, at most `PRINCIPALS`.
    pub fn count(&self) -> u8
        ensures count { result ≡ length self.now.names }
        ensures declared { IsDeclared self.now }
    {
        self.names.len() as u8
    }

    /// The name of a declared principal.
    pub fn name(&self, p: PrincipalId) -> &str
        requires { p.0 < length self.now.names }
        ensures { slice_get self.now.names p.0 ≡ Some result.now }
    {
        self.names[p.0 as usize].as_str()
    }

    /// The principal of this name, if it is declared.
    pub fn find(&self, name: &str) -> Option<PrincipalId>
        ensures found { IfSome result (λ p. slice_get self.now.names p.0 ≡ Some name.now) }
        ensures declared { IfSome result (λ p. p.0 < length self.now.names) }
        ensures none { IfNone result (¬ Contains self.now.names name.now) }
    {
        let place = place_of(&self.names, name)?;
        Some(PrincipalId(place as u8))
    }

    /// Whether `p` acts for `q`: a chain of declared pairs leads from the one to the other. Each acts for itself.
    pub fn acts_for(&self, p: PrincipalId, q: PrincipalId) -> bool
        requires first { p.0 < length self.now.names }
        requires second { q.0 < length self.now.names }
        ensures { IsTrue result ↔ ActsFor self.now p.0 q.0 }
    {
        has_bit(self.rows[p.0 as usize], q.0)
    }
}
