//! Laws of needs, for whoever reasons about them. The calls do nothing.

ghost use Rattle.std.specs.Prelude.{◌≡◌, ℕ, ◌<◌, ◌↔◌, List, [], ◌∷◌, map, length, Any, Contains, slice_get, unwrap_or};
ghost use Rattle.std.specs.Prelude.{Some};
ghost use Rattle.std.specs.List.{flat_map};
ghost use Rattle.js_base.specs.declared.ids.VarId.{VarId};
ghost use Rattle.js_base.specs.declared.ids.StmtId.{StmtId};
ghost use Rattle.principals.specs.ActsFor.{Declared};
ghost use Rattle.jif_tree.specs.Numbering.{statement_numbers, CountsFrom};
ghost use Rattle.need_labels.specs.Labelled.{Labelled};
ghost use Rattle.need_labels.specs.Needs.{NeedsShape, AreNeedsOf, StatementUse, statement_uses};
ghost use Rattle.need_labels.specs.Needs.{for_label, for_release, readers_of};
ghost use Rattle.need_labels.specs.NeedExamples.{only_alice, alice, guarded_sum, begins, of_q, of_x, outside, inside};
ghost use Rattle.need_labels.specs.NeedExamples.{a, b, x};

/// Laws of the needs of a program.
pub fn need_laws()
    // A program has one answer at most.
    ensures one_needs { (principals : Declared) (labelled : Labelled) (first second : NeedsShape) →
        AreNeedsOf principals labelled first → AreNeedsOf principals labelled second → first ≡ second }

    // And it has one.
    ensures some_needs { (principals : Declared) (labelled : Labelled) →
        (needs : NeedsShape) × AreNeedsOf principals labelled needs }

    // There is an item for each statement, field and variable.
    ensures lengths { (principals : Declared) (labelled : Labelled) (needs : NeedsShape) →
        AreNeedsOf principals labelled needs →
        (length needs.used ≡ length (statement_numbers labelled.program))
        × (length needs.need ≡ length (statement_numbers labelled.program))
        × (length needs.loc ≡ length labelled.program.fields)
        × (length needs.readers ≡ length labelled.program.vars) }

    // The statements stand in the order of the text, so by their numbers where these count up from 0.
    ensures in_order { (principals : Declared) (labelled : Labelled) →
        map (λ one. one.id.0) (statement_uses principals labelled) ≡ statement_numbers labelled.program }
    ensures by_number { (principals : Declared) (labelled : Labelled) (place : ℕ) (one : StatementUse) →
        CountsFrom 0 (statement_numbers labelled.program) →
        slice_get (statement_uses principals labelled) place ≡ Some one → one.id.0 ≡ place }

    // A statement is a reader of a variable exactly where its own expressions read it.
    ensures readers { (principals : Declared) (labelled : Labelled) (needs : NeedsShape) (x : VarId) (id : StmtId) →
        AreNeedsOf principals labelled needs → x.0 < length labelled.program.vars →
        (Contains (unwrap_or (slice_get needs.readers x.0) []) id
        ↔ Any (λ one. (one.id ≡ id) × Contains one.reads x) (statement_uses principals labelled)) }
{}

/// What the statements of a program need.
pub fn need_examples()
    // The host of a branch is trusted for the release in its guard, and for what changes inside.
    ensures backing { map (λ one. one.backing) (statement_uses only_alice guarded_sum)
        ≡ (for_label begins ∷ []) ∷ (for_release (alice ∷ []) ∷ for_label of_q ∷ []) ∷ (for_label of_q ∷ []) ∷ [] }
    // A read tells the program label, and of an array the label of the index too.
    ensures told { flat_map (λ one. one.tellings) (statement_uses only_alice guarded_sum)
        ≡ record { field = a; label = outside } ∷ record { field = b; label = inside }
        ∷ record { field = b; label = of_x } ∷ [] }
    // A statement that reads a variable twice is a reader of it once.
    ensures readers { readers_of (statement_uses only_alice guarded_sum) x.0 ≡ record { 0 = 2 } ∷ [] }
{}
