//! Laws of principals, for whoever reasons about them. The calls do nothing.

ghost use Rattle.std.specs.Prelude.{◌≡◌, ◌≢◌, ℕ, List, ◌<◌, length, Contains, Bool, IsTrue};
ghost use Rattle.principals.specs.ActsFor.{Declared, ActsFor, IsDeclared, IsPreorder, outsider};
ghost use Rattle.principals.specs.Declaring.{AreDeclaredAs, Refuses};
ghost use Rattle.principals.specs.Refusal.{refusal_shape};

use crate::PrincipalError;

/// Laws of who acts for whom.
pub fn acts_for_laws()
    // It is the smallest relation that leads from each to itself, goes on over another, and holds the declared pairs.
    ensures reflexive { (principals : Declared) (p : ℕ) → ActsFor principals p p }
    ensures transitive { (principals : Declared) (p q r : ℕ) →
        ActsFor principals p q → ActsFor principals q r → ActsFor principals p r }
    ensures declared { (principals : Declared) (p q : ℕ) → Contains principals.pairs (p, q) →
        ActsFor principals p q }
    ensures smallest { (principals : Declared) (relation : ℕ → ℕ → Bool) → IsPreorder relation →
        ((p q : ℕ) → Contains principals.pairs (p, q) → IsTrue (relation p q)) →
        (p q : ℕ) → ActsFor principals p q → IsTrue (relation p q) }

    // The outsider acts for itself alone, and only itself acts for it.
    ensures of_outsider { (principals : Declared) (p : ℕ) →
        IsDeclared principals → ActsFor principals outsider p → p ≡ outsider }
    ensures for_outsider { (principals : Declared) (p : ℕ) →
        IsDeclared principals → ActsFor principals p outsider → p ≡ outsider }

    // Whom a declared principal acts for is declared, and so is who acts for one.
    ensures of_declared { (principals : Declared) (p q : ℕ) →
        IsDeclared principals → p < length principals.names → ActsFor principals p q →
        q < length principals.names }
    ensures for_declared { (principals : Declared) (p q : ℕ) →
        IsDeclared principals → q < length principals.names → ActsFor principals p q →
        p < length principals.names }
{}

/// Laws of declaring: names and pairs of names are declared in one way or refused for one cause, and never both. Only
/// memory can run out beside these.
pub fn principals_laws()
    ensures declared_once { (names : List (List ℕ)) (pairs : List (List ℕ × List ℕ))
        (first second : Declared) →
        AreDeclaredAs names pairs first → AreDeclaredAs names pairs second → first ≡ second }
    ensures one_refusal { (names : List (List ℕ)) (pairs : List (List ℕ × List ℕ))
        (first second : PrincipalError) →
        Refuses names pairs first → Refuses names pairs second →
        first ≢ PrincipalError.OutOfMemory → second ≢ PrincipalError.OutOfMemory →
        refusal_shape first ≡ refusal_shape second }
    ensures never_both { (names : List (List ℕ)) (pairs : List (List ℕ × List ℕ)) (principals : Declared)
        (why : PrincipalError) →
        AreDeclaredAs names pairs principals → Refuses names pairs why → why ≡ PrincipalError.OutOfMemory }
{}
