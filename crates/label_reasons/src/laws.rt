//! Laws of what is held against labels, of what brings it in, and of what is told of refused statements. The calls do
//! nothing: their contracts are the laws.

ghost use Rattle.std.specs.Prelude.{◌≡◌, ◌≢◌, ◌↔◌, ◌⊎◌, ℕ, ℤ, Bool, List, [], All, map, Option, Some, None, IsTrue};
ghost use Rattle.js_base.specs.declared.ids.MethodId.{MethodId};
ghost use Rattle.js_base.specs.declared.ids.StmtId.{StmtId};
ghost use Rattle.js_base.specs.declared.ids.VarId.{VarId};
ghost use Rattle.principals.specs.ActsFor.{Declared, ActsFor, IsDeclared};
ghost use Rattle.label_lattice.specs.declared.label.Label.{Label};
ghost use Rattle.label_lattice.specs.Label.{IsLabel, Flows};
ghost use Rattle.label_lattice.specs.Lattice.{empty_label, join_of};
ghost use Rattle.label_lattice.specs.PrintedExamples.{alice_and_bob, keeps_bob_out};
ghost use Rattle.jif_tree.specs.Trees.{ExprTree, BlockTree, ProgramTree, local, number, scalar};
ghost use Rattle.jif_tree.specs.LabelRules.{MethodSetting, VariableLabels, expr_label, guarded, labels_after};
ghost use Rattle.jif_tree.specs.LabelRules.{Obligation, Holds, obligations, IsFirstFailure, IsWellLabelled};
ghost use Rattle.jif_tree.specs.ValueLabels.{IsExprLabelled, AreValuesLabelled};
ghost use Rattle.label_reasons.specs.declared.reason.Trait.{Trait};
ghost use Rattle.label_reasons.specs.declared.reason.Source.TheVariants.{OfBegin, OfField, OfVariable, Written};
ghost use Rattle.label_reasons.specs.declared.reason.Via.TheVariants.{Itself, ByLocal, ByGuard};
ghost use Rattle.label_reasons.specs.declared.reason.Cause.{Cause};
ghost use Rattle.label_reasons.specs.Traits.{has, IsTrait, IsDeclaredTrait, TraitIsLacking};
ghost use Rattle.label_reasons.specs.Causes.{begin_cause, declared_causes, expr_cause, guarded_cause, causes_after};
ghost use Rattle.label_reasons.specs.Causes.{TellsCause, TellsVariables, IsMadeOfLabels, IsBlockOfLabels};
ghost use Rattle.label_reasons.specs.CauseExamples.{from_bob, not_by_alice, not_by_bob, a, q, x, y, main};
ghost use Rattle.label_reasons.specs.CauseExamples.{statement, caused, cause_under, cause_of, cause_inside};
ghost use Rattle.label_reasons.specs.CauseExamples.{cause_behind, told_before, sum, chosen, released, endorsed_again};
ghost use Rattle.label_reasons.specs.CauseExamples.{copied, copied_inside, told, overwritten, released_again};
ghost use Rattle.label_reasons.specs.declared.reason.Reason.{Reason};
ghost use Rattle.label_reasons.specs.Reasons.{label_reasons, IsLabelReason, IsConstraintOver, IsTold};
ghost use Rattle.label_reasons.specs.Reasons.{first_refused, asked_by, explained};
ghost use Rattle.label_reasons.specs.Programs.{IsProgramOver};
ghost use Rattle.label_reasons.specs.ReasonExamples.{guarded_assignment, by_the_guard, alice_for_bob};
ghost use Rattle.label_reasons.specs.ReasonExamples.{acted_for, by_alice_alone, released_for_nobody};
ghost use Rattle.label_reasons.specs.ReasonExamples.{by_the_begin_label, released_by_nobody, by_no_authority, four};
ghost use Rattle.label_reasons.specs.ReasonExamples.{unreleased, by_two_locals, not_trusted, by_trust, guarded_call};
ghost use Rattle.label_reasons.specs.ReasonExamples.{by_the_guard_of_a_call};
ghost use Rattle.label_reasons.specs.Asks.{Ask, program_asks, obligation_of};
ghost use Rattle.label_reasons.specs.Listed.{acts_for, failing, listed};

use label_lattice::{label_laws, text_laws};
use principals::acts_for_laws;

/// Laws of what is held against labels.
pub fn trait_laws()
    // A join has what one of its parts has.
    ensures has_join { (trait : Trait) (first second : Label) → IsTrait trait → IsLabel first → IsLabel second →
        (IsTrue (has trait (join_of first second)) ↔ (IsTrue (has trait first) ⊎ IsTrue (has trait second))) }
    // What fails forbids the flow.
    ensures fails_flow { (trait : Trait) (from to : Label) → IsTrait trait → TraitIsLacking trait from to →
        ¬ Flows from to }
    // What forbids a flow is something that fails.
    ensures flows_else { (from to : Label) → ((trait : Trait) → IsTrait trait → ¬ TraitIsLacking trait from to) →
        Flows from to }
{
    text_laws();
    label_laws();
}

/// Laws of causes.
pub fn cause_laws()
    // The begin label of a method has a trait exactly where there is a cause.
    ensures begins { (trait : Trait) (method : MethodId) (begin : Label) →
        TellsCause trait (begin_cause trait method begin) begin }
    // So has each variable that is declared with a label.
    ensures declared { (trait : Trait) (labels : VariableLabels) →
        TellsVariables trait (declared_causes trait labels) labels }
    // Where this is so of the program label and of variables, it is so of an expression.
    ensures expression { (trait : Trait) (setting : MethodSetting) (here : StmtId) (of_pc : Option Cause) (pc : Label)
        (causes : VarId → Option Cause) (labels : VariableLabels) (value : ExprTree) →
        IsDeclaredTrait setting.principals trait → IsLabel pc → IsMadeOfLabels setting pc labels value →
        TellsCause trait of_pc pc → TellsVariables trait causes labels → IsExprLabelled labels value →
        TellsCause trait (expr_cause trait setting here of_pc causes value) (expr_label setting pc labels value) }
    // It is so of the program label inside a branch or a loop.
    ensures guard { (trait : Trait) (setting : MethodSetting) (here : StmtId) (of_pc : Option Cause) (pc : Label)
        (causes : VarId → Option Cause) (labels : VariableLabels) (guard : ExprTree) →
        IsDeclaredTrait setting.principals trait → IsLabel pc → IsMadeOfLabels setting pc labels guard →
        IsLabel (expr_label setting pc labels guard) → TellsCause trait of_pc pc → TellsVariables trait causes labels →
        IsExprLabelled labels guard →
        TellsCause trait (guarded_cause trait setting here of_pc causes guard) (guarded setting pc labels guard) }
    // And it is so of the variables behind a block.
    ensures block { (trait : Trait) (setting : MethodSetting) (pc : Label) (of_pc : Option Cause)
        (labels : VariableLabels) (causes : VarId → Option Cause) (block : BlockTree) →
        IsDeclaredTrait setting.principals trait → IsLabel pc → IsBlockOfLabels setting pc labels block →
        AreValuesLabelled setting pc labels block → TellsCause trait of_pc pc → TellsVariables trait causes labels →
        TellsVariables trait (causes_after trait setting pc of_pc labels causes block)
        (labels_after setting pc labels block) }
{
    label_laws();
    text_laws();
}

/// What brings a trait into the labels of a small program of Alice and Bob, in which Alice keeps a field from Bob.
pub fn cause_examples()
    // What Alice keeps from Bob fails towards the label `{}`, and does not fail the other way.
    ensures fails { TraitIsLacking from_bob keeps_bob_out empty_label }
    ensures passes { ¬ TraitIsLacking from_bob empty_label keeps_bob_out }
    // There it is her trust that fails.
    ensures distrusted { TraitIsLacking not_by_alice empty_label keeps_bob_out }
    // A number has no cause, a field is its own, and a variable with a label too.
    ensures number_alone { (value : ℤ) → cause_of from_bob (number value) ≡ None }
    ensures secret_field { cause_of from_bob (scalar a) ≡ caused (OfField a) Itself }
    ensures public_field { cause_of from_bob (scalar q) ≡ None }
    ensures declared_variable { cause_of from_bob (local y) ≡ caused (OfVariable y) Itself }
    // So is the label under which a method begins.
    ensures begin_label { begin_cause from_bob main keeps_bob_out ≡ caused (OfBegin main) Itself }
    // The cause of a sum is the first part that has the trait, and an index comes before its array.
    ensures first_of_sum { cause_of from_bob (sum (local y) (scalar a)) ≡ caused (OfVariable y) Itself }
    ensures second_of_sum { cause_of from_bob (sum (scalar q) (scalar a)) ≡ caused (OfField a) Itself }
    ensures index_first { cause_of from_bob chosen ≡ caused (OfField a) Itself }
    // A release takes away what its operand keeps from Bob, and not what the program label does, before which the label
    // that is written comes. Whoever does not trust the operand does not trust what is released.
    ensures release { cause_of from_bob released ≡ None }
    ensures release_inside { cause_under told_before from_bob released ≡ told_before }
    ensures written_first { cause_under told_before from_bob released_again ≡ caused (Written (statement 1)) Itself }
    ensures release_trust { cause_of not_by_bob released ≡ caused (OfField a) Itself }
    // An endorsed value keeps from Bob what its operand does. Whoever does not trust the label that is written does not
    // trust it, and Alice does.
    ensures endorse_keeps { cause_of from_bob endorsed_again ≡ caused (OfField a) Itself }
    ensures endorse_trust { cause_of not_by_bob endorsed_again ≡ caused (Written (statement 1)) Itself }
    ensures endorsed_for { cause_of not_by_alice endorsed_again ≡ None }
    // Inside a guard, and in a local without a label, it is the same field, through the guard or the local. What the
    // local is declared with comes before the guard.
    ensures through_guard { cause_inside None from_bob (scalar a) ≡ caused (OfField a) (ByGuard (statement 1)) }
    ensures through_local { cause_behind from_bob copied x ≡ caused (OfField a) (ByLocal x (statement 1)) }
    ensures local_inside { cause_behind from_bob told x ≡ caused (OfField a) (ByLocal x (statement 2)) }
    ensures value_first { cause_behind from_bob copied_inside x ≡ caused (OfField a) (ByLocal x (statement 2)) }
    // An outer guard comes first.
    ensures outer_guard { cause_inside told_before from_bob (scalar a) ≡ told_before }
    // A variable with a label keeps its cause, whatever is assigned to it.
    ensures labelled_kept { cause_behind from_bob overwritten y ≡ caused (OfVariable y) Itself }
{}

/// Laws of what is listed of what fails.
pub fn listing_laws()
    // The test of who acts for whom tells of chains of declared pairs.
    ensures acts { (principals : Declared) (first second : ℕ) →
        (IsTrue (acts_for principals first second) ↔ ActsFor principals first second) }
    // What is listed fails.
    ensures listed_fails { (principals : Declared) (test : Trait → Bool) →
        All (λ trait. IsTrue (test trait)) (listed principals test) }
    // Something is listed where something fails.
    ensures listed_some { (principals : Declared) (test : Trait → Bool) →
        failing principals test ≢ [] → listed principals test ≢ [] }
{
    acts_for_laws();
}

/// Laws of what is asked for and why it fails.
pub fn reason_laws()
    // Without names and causes, what is asked for are the obligations of the program.
    ensures asked { (principals : Declared) (program : ProgramTree) →
        map obligation_of (program_asks principals program) ≡ obligations principals program }
    // Each reason tells something that fails, and what brings it in.
    ensures reason_true { (principals : Declared) (ask : Ask) → IsDeclared principals →
        All (IsLabelReason principals ask) (label_reasons principals ask) }
    // Where there is one, the constraint does not hold.
    ensures reason_denies { (principals : Declared) (ask : Ask) (reason : Reason) →
        IsLabelReason principals ask reason → ¬ Holds principals ask.constraint }
    // A constraint that does not hold has a reason.
    ensures reason_due { (principals : Declared) (ask : Ask) → IsDeclared principals →
        IsConstraintOver principals ask.constraint → IsTold principals ask → ¬ Holds principals ask.constraint →
        label_reasons principals ask ≢ [] }
{
    acts_for_laws();
    text_laws();
}

/// Laws of what is told of a refused program, whose names are resolved.
pub fn refusal_laws()
    // The first obligation that fails is that of the first of which something is listed, and it has reasons.
    ensures statement_due { (principals : Declared) (program : ProgramTree) (failed : Obligation) →
        IsProgramOver principals program → IsFirstFailure principals (obligations principals program) failed →
        (ask : Ask) × (first_refused principals (program_asks principals program) ≡ Some ask)
        × (obligation_of ask ≡ failed) × (label_reasons principals ask ≢ []) }
    // It is also the first of what its statement asks for.
    ensures of_statement { (principals : Declared) (here : StmtId) (asks : List Ask) (ask : Ask) →
        first_refused principals asks ≡ Some ask → ask.statement ≡ here →
        first_refused principals (asked_by here asks) ≡ Some ask }
    // A well labelled program has none.
    ensures none_refused { (principals : Declared) (program : ProgramTree) → IsDeclared principals →
        IsWellLabelled principals program → first_refused principals (program_asks principals program) ≡ None }
{
    acts_for_laws();
    label_laws();
    text_laws();
}

/// What is told of some refused programs.
pub fn reason_examples()
    // A guard tells the secret, through which it is kept from Bob.
    ensures guarded { explained alice_and_bob guarded_assignment ≡ by_the_guard }
    // Of three pairs that fail, where Alice acts for Bob, one is listed.
    ensures acting { explained alice_for_bob acted_for ≡ by_alice_alone }
    // Who releases has to trust that the program comes there, and has to own what is released.
    ensures untrusted_release { explained alice_and_bob released_for_nobody ≡ by_the_begin_label }
    ensures unowned_release { explained alice_and_bob released_by_nobody ≡ by_no_authority }
    // Each owner keeps from the others what came through a local.
    ensures two_secrets { explained four unreleased ≡ by_two_locals }
    // What Alice trusts is given what she does not trust.
    ensures untrusted { explained alice_and_bob not_trusted ≡ by_trust }
    // A call tells the secret that guards it.
    ensures called { explained alice_and_bob guarded_call ≡ by_the_guard_of_a_call }
{}
