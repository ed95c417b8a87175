//! Who acts for whom, as a row of bits for each principal.
//!
//! Each declared pair is added at once. The rows are closed under chains after each pair: who acts for the first of the
//! pair gains all whom the second acts for. This takes 63 steps a pair, and its proof needs one lemma on chains with
//! one more pair.

ghost use Rattle.std.specs.Prelude.{ℕ, ◌<◌, List, [], ◌∷◌, ◌++◌, All};
ghost use Rattle.principals.specs.Closure.{AreRowsOf};
ghost use Rattle.principals.specs.Pairs.{pair_of, pairs_of};

use js_base::PrincipalId;
use js_base::bits::{all_bits, has_bit, with_bit};
use js_base::limits::PRINCIPALS;

/// The rows where no pair is declared: each principal acts for itself.
fn own_rows() -> [u64; PRINCIPALS]
    ensures { AreRowsOf [] result }
{
    let mut rows = [0; PRINCIPALS];
    for place in 0..PRINCIPALS {
        rows[place] = with_bit(0, place as u8);
    }
    rows
}

/// Adds a pair: who acts for its first principal also acts for all whom the second acts for.
fn add_pair(rows: &mut [u64; PRINCIPALS], pair: &(PrincipalId, PrincipalId))
    requires first { pair.now.0.0 < PRINCIPALS }
    requires second { pair.now.1.0 < PRINCIPALS }
    ensures { (pairs : List (ℕ × ℕ)) → AreRowsOf pairs rows.old →
        AreRowsOf (pairs ++ pair_of pair.now ∷ []) rows.new }
{
    let (first, second) = *pair;
    let reached = rows[second.0 as usize];
    for place in 0..PRINCIPALS {
        if has_bit(rows[place], first.0) {
            rows[place] = all_bits(rows[place], reached);
        }
    }
}

/// The rows of these pairs.
pub fn rows_of(pairs: &[(PrincipalId, PrincipalId)]) -> [u64; PRINCIPALS]
    requires { All (λ pair. (pair.0.0 < PRINCIPALS) × (pair.1.0 < PRINCIPALS)) pairs.now }
    ensures { AreRowsOf (pairs_of pairs.now) result }
{
    let mut rows = own_rows();
    for pair in pairs {
        add_pair(&mut rows, pair);
    }
    rows
}
