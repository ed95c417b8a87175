//! Laws of trees, for whoever makes or compares them. The calls do nothing.

ghost use Rattle.std.specs.Prelude.{◌≡◌, ◌≢◌, ◌^◌, ℕ, ℤ, pos, List, [], ◌∷◌, length};
ghost use Rattle.std.specs.Global.{Vec};
ghost use Rattle.js_base.specs.declared.ids.FieldId.{FieldId};
ghost use Rattle.js_base.specs.declared.ids.VarId.{VarId};
ghost use Rattle.jif_tree.specs.declared.program.Stmt.{Stmt};
ghost use Rattle.jif_tree.specs.declared.program.StmtKind.{If, While};
ghost use Rattle.jif_tree.specs.declared.program.Expr.{Expr};
ghost use Rattle.jif_tree.specs.declared.program.Expr as expr;
ghost use Rattle.jif_tree.specs.declared.program.Program.{Program};
ghost use Rattle.jif_tree.specs.SourceRun.{Configuration, Item, keep, variable, after_steps};
ghost use Rattle.jif_tree.specs.Numbers.{IsNumber};
ghost use Rattle.jif_tree.specs.Altered.{Exposure, Altered, Alters, FieldIsAffected, MayBeLeft, MayGive, MayStep};
ghost use Rattle.jif_tree.specs.AlteredExamples.{one_bad, none_bad, field_of_0, field_of_1, for_0, for_1};
ghost use Rattle.jif_tree.specs.AlteredExamples.{pending_with, variable_of_0, variable_of_1};
ghost use Rattle.jif_tree.specs.Store.{element_at, row_of};
ghost use Rattle.jif_tree.specs.Trees.{Heading, BlockTree, branch, loop, expr_tree, statement_tree, block_tree};

/// The tree of a nested block is that of its statements.
pub fn tree_laws()
    ensures branches { (guard : Expr) (first second : Vec Stmt) (heading : Heading) (rest : BlockTree) →
        statement_tree (If guard first second) heading rest
        ≡ branch heading (expr_tree guard) (block_tree first.items) (block_tree second.items) rest }
    ensures loops { (guard : Expr) (body : Vec Stmt) (heading : Heading) (rest : BlockTree) →
        statement_tree (While guard body) heading rest
        ≡ loop heading (expr_tree guard) (block_tree body.items) rest }
{}

/// What misbehaving hosts may make of a plain run.
pub fn altered_laws()
    // Where no host misbehaves, an altered run is the plain run.
    ensures plain { (program : Program) (exposure : Exposure) (c now : Configuration) (others : List Configuration) →
        exposure.bad ≡ [] → Altered program exposure c others now → now ≡ after_steps program (length others) c }
    // To leave out a result that is to be kept comes to keeping it, and to putting back what the variable had.
    ensures left_kept { (program : Program) (exposure : Exposure) (c : Configuration) (call : ℕ) (into result : VarId)
        (behind : List Item) → c.pending ≡ keep call into result ∷ behind →
        MayBeLeft exposure (keep call into result) → IsNumber (variable c.calls call into.0) →
        (next : Configuration) × MayStep program exposure c c.pending next
        × Alters program exposure next (record c { pending = behind }) }
{}

/// What a misbehaving host that principal 0 trusts may make of two fields and two statements.
pub fn altered_examples()
    // A field that principal 0 trusts may be read as any number of 64 bits.
    ensures read_as_any { (value : ℤ) → IsNumber value →
        MayGive one_bad (pending_with []) 0 (expr.Scalar field_of_0) value }
    // No number of more bits is read.
    ensures no_wider { ¬ MayGive one_bad (pending_with []) 0 (expr.Scalar field_of_0) (pos (2 ^ 63)) }
    // A field that principal 1 trusts is read as what is there.
    ensures read_as_is { MayGive one_bad (pending_with []) 0 (expr.Scalar field_of_1) (pos 7) }
    // It is read as no other number.
    ensures no_other { (value : ℤ) → value ≢ pos 7 →
        ¬ MayGive one_bad (pending_with []) 0 (expr.Scalar field_of_1) value }
    // A statement for principal 0 may be left out.
    ensures left_out { (program : Program) →
        Alters program one_bad (pending_with (for_0 ∷ for_1 ∷ [])) (pending_with (for_1 ∷ [])) }
    // A statement for principal 1 may not.
    ensures stays { ¬ MayBeLeft one_bad for_1 }
    // So nothing takes it away and changes no field.
    ensures not_skipped { (program : Program) →
        ¬ Alters program one_bad (pending_with (for_1 ∷ [])) (pending_with []) }
    // A local that principal 0 trusts may be read as any number, and one that principal 1 trusts as what is there
    // alone.
    ensures local_as_any { (value : ℤ) → IsNumber value →
        MayGive one_bad (pending_with []) 0 (expr.Local variable_of_0) value }
    ensures local_as_is { (value : ℤ) → value ≢ pos 0 →
        ¬ MayGive one_bad (pending_with []) 0 (expr.Local variable_of_1) value }
    // A result that is kept where principal 0 trusts it may be left out, and one kept where principal 1 does may not.
    ensures result_left_out { MayBeLeft one_bad (keep 0 variable_of_0 variable_of_1) }
    ensures result_stays { ¬ MayBeLeft one_bad (keep 0 variable_of_1 variable_of_0) }
    // A field that principal 1 trusts, and that holds 7, never holds 9 next where nothing is to be done.
    ensures field_stays { (program : Program) (next : Configuration) →
        Alters program one_bad (pending_with []) next → element_at (row_of next.store 1) (pos 0) ≢ pos 9 }
    // Where no host misbehaves, no field is affected.
    ensures none_affected { (field : FieldId) → ¬ FieldIsAffected none_bad field }
{}
