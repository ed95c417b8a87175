//! Laws of the label check, for whoever reasons about refusals. The call does nothing.

ghost use Rattle.std.specs.Prelude.{◌≡◌, ◌≢◌, ◌⊎◌, List, [], ◌∷◌, map, All};
ghost use Rattle.js_base.specs.declared.ids.PrincipalId.{PrincipalId};
ghost use Rattle.principals.specs.ActsFor.{Declared};
ghost use Rattle.jif_tree.specs.LabelRules.{Obligation, Meets, IsFirstFailure, IsWellLabelled, obligations};
ghost use Rattle.jif_tree.specs.LabelRules.{program_labels};
ghost use Rattle.label_lattice.specs.declared.label.Label.{Label};
ghost use Rattle.label_lattice.specs.Label.{Flows};
ghost use Rattle.label_lattice.specs.Over.{IsLabelOver};
ghost use Rattle.jif_tree.specs.Trees.{ExprTree, BlockTree, ProgramTree};
ghost use Rattle.jif_tree.specs.LabelRules.{MethodSetting, VariableLabels, expr_label, block_labels};
ghost use Rattle.jif_tree.specs.WrittenLabels.{written_in, written_in_block};
ghost use Rattle.label_check.specs.Checking.{IsLabelRefusedFor};
ghost use Rattle.label_check.specs.declared.check_error.CheckError.{CheckError};
ghost use Rattle.label_check.specs.declared.check_error.CheckError.TheVariants as error;
ghost use Rattle.label_check.specs.RuleLaws.{AreNamedOver, read_in};
ghost use Rattle.label_check.specs.RuleExamples.{only_alice, guarded_assignment, guarded_flow, released_assignment};
ghost use Rattle.label_check.specs.RuleExamples.{release_asks, release_trust, released_argument, call_asks_for};
ghost use Rattle.label_check.specs.RuleExamples.{trusted_only, endorsed_assignment, endorse_asks, alice_and_bob};
ghost use Rattle.label_check.specs.RuleExamples.{endorsed_by_bob, released_guard, in_loop, outer_trust, inner_trust};
ghost use Rattle.label_check.specs.RuleExamples.{loop_asks, returned_field, return_flow};

use label_lattice::label_laws;

/// Of a list of obligations one fails first at most, and none where all are met. So a program is well labelled or is
/// refused for one cause, and never both. That memory ran out is no cause here.
pub fn failure_laws()
    ensures one_failure { (principals : Declared) (all : List Obligation) (first second : Obligation) →
        IsFirstFailure principals all first → IsFirstFailure principals all second → first ≡ second }
    ensures none_fails { (principals : Declared) (all : List Obligation) (failed : Obligation) →
        All (Meets principals) all → ¬ IsFirstFailure principals all failed }
    ensures one_refusal { (principals : Declared) (program : ProgramTree) (first second : CheckError) →
        IsLabelRefusedFor principals program first → IsLabelRefusedFor principals program second →
        first ≢ error.OutOfMemory → second ≢ error.OutOfMemory → first ≡ second }
    ensures never_both { (principals : Declared) (program : ProgramTree) (why : CheckError) →
        IsWellLabelled principals program → IsLabelRefusedFor principals program why → why ≡ error.OutOfMemory }
    ensures accepted_or_refused { (principals : Declared) (program : ProgramTree) → IsWellLabelled principals program
        ⊎ ((why : CheckError) × (why ≢ error.OutOfMemory) × IsLabelRefusedFor principals program why) }
{}

/// Laws of the rules, where all labels are labels over the declared principals.
pub fn label_rule_laws()
    // The program label of a block flows to that of each statement in it, also in the blocks inside it.
    ensures above { (setting : MethodSetting) (pc : Label) (labels : VariableLabels) (block : BlockTree) →
        IsLabelOver setting.principals pc → AreNamedOver setting labels →
        All (IsLabelOver setting.principals) (written_in_block block) →
        All (λ one. Flows pc one.pc) (block_labels setting pc labels block) }
    // The label of each field, array and variable that is read in an expression flows to the label of the expression,
    // but for what is released or endorsed.
    ensures read { (setting : MethodSetting) (pc : Label) (labels : VariableLabels) (expr : ExprTree) →
        IsLabelOver setting.principals pc → AreNamedOver setting labels →
        All (IsLabelOver setting.principals) (written_in expr) →
        All (λ label. Flows label (expr_label setting pc labels expr)) (read_in setting labels expr) }
{
    label_laws();
}

/// What some programs ask for, in order.
pub fn rule_examples()
    // A value that a secret guards may not flow to a public field.
    ensures guarded { obligations only_alice guarded_assignment ≡ guarded_flow ∷ [] }
    ensures guarded_fails { IsFirstFailure only_alice (obligations only_alice guarded_assignment) guarded_flow }
    // A value is not released where the program label is not trusted.
    ensures released { obligations only_alice released_assignment ≡ release_asks }
    ensures release_fails { ¬ Meets only_alice release_trust }
    // A call asks for its arguments, its begin label, the flows of the arguments from the left, and that of the result.
    ensures called { obligations only_alice released_argument ≡ call_asks_for }
    // An endorsement asks for the authority to endorse, and then for the flow of what is endorsed.
    ensures endorsed { (authority : List PrincipalId) →
        obligations only_alice (endorsed_assignment authority) ≡ endorse_asks authority }
    // Bob may not endorse what Alice is to trust, for whom he does not act.
    ensures endorse_fails { ¬ Meets alice_and_bob endorsed_by_bob }
    // The guard of a loop is asked for under the outer program label and under the inner one.
    ensures looped { obligations only_alice released_guard ≡ loop_asks }
    // Alice trusts the program label outside the loop, and not that inside it, which the guard told.
    ensures outer_met { Meets only_alice outer_trust }
    ensures inner_fails { ¬ Meets only_alice inner_trust }
    // The program label of a loop is the inner one, as that of its body.
    ensures loop_labels { map (λ one. one.pc) (program_labels only_alice released_guard)
        ≡ trusted_only ∷ in_loop ∷ in_loop ∷ [] }
    // What a method gives back, joined with the program label, flows to its result.
    ensures given_back { obligations only_alice returned_field ≡ return_flow ∷ [] }
{}
