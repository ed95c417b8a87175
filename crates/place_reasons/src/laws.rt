//! Laws of why a host may not hold a part of a program. The calls do nothing: their contracts are the laws.

ghost use Rattle.std.specs.Prelude.{◌≡◌, ◌<◌, ◌↔◌, ℕ, List, ◌∷◌, [], All, Some, None, length, map};
ghost use Rattle.std.specs.List.{AllZip};
ghost use Rattle.principals.specs.ActsFor.{Declared, IsDeclared, AreDeclared};
ghost use Rattle.label_lattice.specs.declared.label.Label.{Label};
ghost use Rattle.label_lattice.specs.Label.{ConfFlows, IntegFlows, Trusts};
ghost use Rattle.label_lattice.specs.Over.{IsLabelOver};
ghost use Rattle.host_decl.specs.Hosts.{HostShape};
ghost use Rattle.js_base.specs.declared.ids.FieldId.{FieldId};
ghost use Rattle.jif_tree.specs.Trees.{BlockTree, done, FieldTree, MethodTree, ProgramTree};
ghost use Rattle.jif_tree.specs.LabelRules.{setting_of};
ghost use Rattle.need_labels.specs.Labelled.{Labelled};
ghost use Rattle.label_reasons.specs.declared.reason.Trait.{Trait};
ghost use Rattle.label_reasons.specs.Traits.{TraitIsLacking, IsDeclaredTrait};
ghost use Rattle.label_reasons.specs.Programs.{IsProgramOver};
ghost use Rattle.need_labels.specs.Needs.{IsNeed, StatementUse, NeedsShape, AreNeedsOf, block_uses, for_label};
ghost use Rattle.place_rules.specs.PlaceRules.{MayHoldField, MayHoldStatement, told_fields, needed_statements};
ghost use Rattle.place_reasons.specs.Programs.{IsFieldOver, IsUseOver, IsBackingOver, all_told, rest_of, labelled_by};
ghost use Rattle.place_reasons.specs.declared.reason.PlaceReason.{PlaceReason};
ghost use Rattle.place_reasons.specs.Reasons.{first_pair, first_untrusting, field_reason, head_reason};
ghost use Rattle.place_reasons.specs.Reasons.{statement_reason, site_of, kept_rows};
ghost use Rattle.place_reasons.specs.ProgramReasons.{field_reasons, block_reasons, statement_reasons};
ghost use Rattle.place_reasons.specs.Refuted.{statements_in, RefutesField, RefutesHead, RefutesStatement, IsCauseTrue};
ghost use Rattle.place_reasons.specs.Refuted.{NamesDeclared};
ghost use Rattle.label_reasons.specs.declared.reason.Source.TheVariants.{OfField};
ghost use Rattle.label_reasons.specs.declared.reason.Via.TheVariants.{Itself, ByLocal, ByGuard};
ghost use Rattle.place_reasons.specs.declared.reason.Needed.TheVariants.{Field, Head};
ghost use Rattle.place_reasons.specs.declared.reason.PlaceReason.TheVariants.{Own, Read, Index, Untrusted, Begins};
ghost use Rattle.place_reasons.specs.declared.reason.PlaceReason.TheVariants.{Runs, Uses, Needs, Releases};
ghost use Rattle.place_reasons.specs.PlaceExamples.{from_bob, from_alice, from_outsiders, caused, first, second, q, o};
ghost use Rattle.place_reasons.specs.PlaceExamples.{host_a, host_b, host_s, host_t, host_p, statement, alice};
ghost use Rattle.place_reasons.specs.PlaceExamples.{field_at, statement_at, head_at, fields_at, statements_at};
ghost use Rattle.place_reasons.specs.PlaceExamples.{guarded_program, guarded_read};
ghost use Rattle.place_reasons.specs.PlaceExamples.{read_inside, chosen_program, sum_program, sum, local_program};
ghost use Rattle.place_reasons.specs.PlaceExamples.{told_later, released_program, released, secret_begin};
ghost use Rattle.place_reasons.specs.PlaceExamples.{trusted_begin};

use label_lattice::{label_laws, text_laws};
use principals::acts_for_laws;

/// Laws of the pairs and principals by which a host may not hold something, and of the heads of methods.
pub fn place_laws()
    // A pair has a place in labels, and is held against the first label and not against the second.
    ensures pair_true { (principals : Declared) (from to : Label) (pair : Trait) → IsDeclared principals →
        first_pair principals from to ≡ Some pair → IsDeclaredTrait principals pair × TraitIsLacking pair from to }
    // So not all that the first may be known of may flow to the second.
    ensures pair_denies { (principals : Declared) (from to : Label) (pair : Trait) → IsDeclared principals →
        first_pair principals from to ≡ Some pair → ¬ ConfFlows from to }
    // Where there is no pair, it may.
    ensures pair_due { (principals : Declared) (from to : Label) → IsLabelOver principals from →
        first_pair principals from to ≡ None → ConfFlows from to }
    // A principal is declared, trusts the label, and does not trust the host.
    ensures trust_true { (principals : Declared) (host label : Label) (principal : ℕ) →
        first_untrusting principals host label ≡ Some principal →
        (principal < length principals.names) × Trusts label principal × (¬ Trusts host principal) }
    // Where there is none, all who trust the label trust the host.
    ensures trust_due { (principals : Declared) (host label : Label) → IsLabelOver principals label →
        first_untrusting principals host label ≡ None → IntegFlows host label }
    // Where there is a reason for a head, the host may not hold it.
    ensures head_true { (principals : Declared) (host : HostShape) (method : MethodTree) (need : ℕ)
        (reason : PlaceReason) → IsDeclared principals → IsNeed principals (for_label method.begin ∷ []) need →
        head_reason principals host.label method ≡ Some reason → ¬ MayHoldStatement (method.begin, need) host }
    // Where there is none, it may.
    ensures head_due { (principals : Declared) (host : HostShape) (method : MethodTree) (need : ℕ) →
        IsLabelOver principals method.begin → IsNeed principals (for_label method.begin ∷ []) need →
        head_reason principals host.label method ≡ None → MayHoldStatement (method.begin, need) host }
    // Where there is a reason for a field, the host may not hold it, by what its reads tell.
    ensures field_true { (principals : Declared) (labelled : Labelled) (host : HostShape) (field : FieldId)
        (tree : FieldTree) (reason : PlaceReason) → IsDeclared principals →
        IsFieldOver principals labelled field tree → field_reason principals labelled host.label field ≡ Some reason →
        ¬ MayHoldField (tree, all_told principals labelled field) host }
    // Where there is none, it may.
    ensures field_due { (principals : Declared) (labelled : Labelled) (host : HostShape) (field : FieldId)
        (tree : FieldTree) → IsDeclared principals → IsFieldOver principals labelled field tree →
        field_reason principals labelled host.label field ≡ None →
        MayHoldField (tree, all_told principals labelled field) host }
    // Where there is a reason for the one statement of a block, the host may not hold it.
    ensures statement_true { (principals : Declared) (labelled : Labelled) (host : HostShape) (method : MethodTree)
        (block : BlockTree) (one : StatementUse) (inside : List StatementUse) (need : ℕ) (reason : PlaceReason) →
        IsDeclared principals → rest_of block ≡ done →
        block_uses labelled (setting_of principals labelled.program method) block ≡ one ∷ inside →
        IsUseOver principals labelled (setting_of principals labelled.program method) block →
        IsNeed principals one.backing need →
        statement_reason principals labelled host.label method block ≡ Some reason →
        ¬ MayHoldStatement (one.used, need) host }
    // Where there is none, it may.
    ensures statement_due { (principals : Declared) (labelled : Labelled) (host : HostShape) (method : MethodTree)
        (block : BlockTree) (one : StatementUse) (inside : List StatementUse) (need : ℕ) →
        IsDeclared principals → rest_of block ≡ done →
        block_uses labelled (setting_of principals labelled.program method) block ≡ one ∷ inside →
        IsUseOver principals labelled (setting_of principals labelled.program method) block →
        All (IsBackingOver principals) one.backing → IsNeed principals one.backing need →
        statement_reason principals labelled host.label method block ≡ None →
        MayHoldStatement (one.used, need) host }
    // Where no reason is in what its labels keep, all that its execution tells may flow to the host.
    ensures statement_tells { (principals : Declared) (labelled : Labelled) (host : HostShape) (method : MethodTree)
        (block : BlockTree) (one : StatementUse) (inside : List StatementUse) → IsDeclared principals →
        block_uses labelled (setting_of principals labelled.program method) block ≡ one ∷ inside →
        IsUseOver principals labelled (setting_of principals labelled.program method) block →
        kept_rows (site_of principals labelled host.label method) block ≡ None → ConfFlows one.used host.label }
{
    acts_for_laws();
    label_laws();
    text_laws();
}

/// Laws of what each row of a reason claims.
pub fn refuted_laws()
    // What a reason for a field claims is so, by itself.
    ensures field_refuted { (principals : Declared) (labelled : Labelled) (host : Label) (field : FieldId)
        (reason : PlaceReason) → IsDeclared principals → field_reason principals labelled host field ≡ Some reason →
        RefutesField principals labelled host field reason }
    // So is what a reason for a head claims.
    ensures head_refuted { (principals : Declared) (host : Label) (method : MethodTree) (reason : PlaceReason) →
        IsDeclared principals → head_reason principals host method ≡ Some reason → RefutesHead host method reason }
    // And so is what a reason for a statement claims.
    ensures statement_refuted { (principals : Declared) (labelled : Labelled) (host : Label) (method : MethodTree)
        (block : BlockTree) (reason : PlaceReason) → IsDeclared principals →
        statement_reason principals labelled host method block ≡ Some reason →
        RefutesStatement principals labelled host method block reason }
    // Each principal that it names is declared, but for the outsider as the reader of a pair.
    ensures field_names { (principals : Declared) (labelled : Labelled) (host : Label) (field : FieldId)
        (reason : PlaceReason) → field_reason principals labelled host field ≡ Some reason →
        NamesDeclared principals reason }
    ensures head_names { (principals : Declared) (host : Label) (method : MethodTree) (reason : PlaceReason) →
        head_reason principals host method ≡ Some reason → NamesDeclared principals reason }
    ensures statement_names { (principals : Declared) (labelled : Labelled) (host : Label) (method : MethodTree)
        (block : BlockTree) (reason : PlaceReason) → AreDeclared principals method.authority →
        statement_reason principals labelled host method block ≡ Some reason → NamesDeclared principals reason }
    // The source of the cause that it tells has the pair, and what that came through last is there.
    ensures field_cause_true { (principals : Declared) (labelled : Labelled) (host : Label) (field : FieldId)
        (reason : PlaceReason) → field_reason principals labelled host field ≡ Some reason →
        IsCauseTrue labelled.program reason }
    ensures statement_cause_true { (principals : Declared) (labelled : Labelled) (host : Label) (method : MethodTree)
        (block : BlockTree) (reason : PlaceReason) →
        statement_reason principals labelled host method block ≡ Some reason → IsCauseTrue labelled.program reason }
{
    acts_for_laws();
    text_laws();
}

/// Laws of the reasons for all parts of a program whose labels are those of the label check.
pub fn program_place_laws()
    // A field has no reason exactly where the host may hold it.
    ensures fields { (principals : Declared) (program : ProgramTree) (needs : NeedsShape) (host : HostShape) →
        IsProgramOver principals program → AreNeedsOf principals (labelled_by principals program) needs →
        AllZip (λ reason one. (reason ≡ None) ↔ MayHoldField one host)
        (field_reasons principals (labelled_by principals program) host.label)
        (told_fields (labelled_by principals program) needs) }
    // So it is of heads and statements, nested ones among them.
    ensures statements { (principals : Declared) (program : ProgramTree) (needs : NeedsShape) (host : HostShape) →
        IsProgramOver principals program → AreNeedsOf principals (labelled_by principals program) needs →
        AllZip (λ reason one. (reason ≡ None) ↔ MayHoldStatement one host)
        (statement_reasons principals (labelled_by principals program) host.label) (needed_statements needs) }
    // The reasons of a block are those of its statements and of the statements in these, one by one.
    ensures one_by_one { (principals : Declared) (labelled : Labelled) (host : Label) (method : MethodTree)
        (block : BlockTree) → block_reasons principals labelled host method block
        ≡ map (statement_reason principals labelled host method) (statements_in block) }
{
    acts_for_laws();
    label_laws();
    text_laws();
}

/// Why hosts of Alice and of Bob, and one that nobody trusts, may not hold parts of some programs.
pub fn place_examples()
    // Alice keeps a field from outsiders alone.
    ensures outsiders { field_at local_program host_p first ≡ Some (Own from_outsiders) }
    // The host of Alice may not see what Bob keeps from her. What it adds up comes from the right operand.
    ensures right_operand { statement_at sum_program host_a sum
        ≡ Some (Uses from_alice (caused (OfField second) Itself)) }
    ensures left_operand { statement_at sum_program host_b sum
        ≡ Some (Uses from_bob (caused (OfField first) Itself)) }
    // An array is kept from Alice, and its index from Bob.
    ensures array { field_at chosen_program host_a second ≡ Some (Own from_alice) }
    ensures index { field_at chosen_program host_b second
        ≡ Some (Index from_bob (statement 1) (caused (OfField first) Itself)) }
    // A read inside a guard tells what the guard does. The label of the field comes first, and trust last.
    ensures guarded { field_at guarded_program host_a second
        ≡ Some (Read from_alice (statement 2) (caused (OfField first) (ByGuard (statement 1)))) }
    ensures own_first { field_at guarded_program host_b second ≡ Some (Own from_bob) }
    ensures untrusted { field_at guarded_program host_s second ≡ Some (Untrusted 0) }
    ensures held { field_at guarded_program host_t second ≡ None }
    // So does the statement inside, and the guard uses it.
    ensures runs { statement_at guarded_program host_a read_inside
        ≡ Some (Runs from_alice (caused (OfField first) (ByGuard (statement 1)))) }
    ensures guard { statement_at guarded_program host_a guarded_read
        ≡ Some (Uses from_alice (caused (OfField first) Itself)) }
    // The host of the guard is to be trusted for what the statement inside sets.
    ensures inside { statement_at guarded_program host_s guarded_read ≡ Some (Needs 0 (Field q) (statement 2)) }
    ensures held_guard { statement_at guarded_program host_t guarded_read ≡ None }
    // Both trust a field, and neither the host of the other.
    ensures distrusts_alice { field_at local_program host_a q ≡ Some (Untrusted 1) }
    ensures distrusts_bob { field_at local_program host_b q ≡ Some (Untrusted 0) }
    // A value came through a local.
    ensures through_local { statement_at local_program host_a told_later
        ≡ Some (Uses from_alice (caused (OfField second) (ByLocal o (statement 1)))) }
    // A value is released by the authority of Alice, who does not trust the host.
    ensures releases { statement_at released_program host_s released ≡ Some (Releases alice 0 (statement 1)) }
    // A head stands for how its method begins.
    ensures begins { head_at secret_begin host_b ≡ Some (Begins from_bob) }
    ensures begins_trusted { head_at trusted_begin host_a ≡ Some (Needs 1 Head (statement 0)) }
    ensures begins_anywhere { head_at trusted_begin host_t ≡ None }
    // Of a whole program: its fields, and its head with the statements, of which the nested one comes last.
    ensures fields_by_number { fields_at guarded_program host_a ≡ Some (Own from_alice)
        ∷ Some (Read from_alice (statement 2) (caused (OfField first) (ByGuard (statement 1)))) ∷ None ∷ [] }
    ensures statements_by_number { statements_at guarded_program host_a ≡ None
        ∷ Some (Uses from_alice (caused (OfField first) Itself))
        ∷ Some (Runs from_alice (caused (OfField first) (ByGuard (statement 1)))) ∷ [] }
    // What the statement inside sets counts for both.
    ensures nested_by_number { statements_at guarded_program host_s ≡ None
        ∷ Some (Needs 0 (Field q) (statement 2)) ∷ Some (Needs 0 (Field q) (statement 2)) ∷ [] }
    ensures held_by_number { statements_at guarded_program host_t ≡ None ∷ None ∷ None ∷ [] }
{}
