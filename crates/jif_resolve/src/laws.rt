//! Laws of names, for whoever resolves programs. The calls do nothing.

ghost use Rattle.std.specs.Prelude.{◌≡◌, ◌⊎◌, ◌<◌, ℕ, true, [], ◌∷◌, Some, None, codes, length, slice_get, All, List};
ghost use Rattle.js_base.specs.declared.ids.VarId.{VarId};
ghost use Rattle.principals.specs.ActsFor.{Declared, IsDeclared};
ghost use Rattle.label_lattice.specs.Over.{TrustsOver};
ghost use Rattle.label_lattice.specs.declared.label.TheConstants.{READERS};
ghost use Rattle.jif_tree.specs.LabelRules.{declared_labels};
ghost use Rattle.jif_tree.specs.Labelling.{AreLabelledMethods, IsLabelledIfAny};
ghost use Rattle.jif_tree.specs.Limits.{IsWithinLimits};
ghost use Rattle.jif_tree.specs.ValueLabels.{AreAllValuesLabelled};
ghost use Rattle.jif_tree.specs.Results.{AreGivenBack, AreUnread};
ghost use Rattle.jif_tree.specs.Returns.{ReturnsLast};
ghost use Rattle.jif_tree.specs.Trees.{MethodTree, ProgramTree};
ghost use Rattle.jif_tree.specs.WellNumbered.{IsWellNumbered};
ghost use Rattle.jif_lex.specs.declared.token.Token.{Token};
ghost use Rattle.jif_grammar.specs.DraftShapes.{DraftShape};
ghost use Rattle.jif_grammar.specs.Programs as grammar;
ghost use Rattle.jif_resolve.specs.Meanings.{main_of};
ghost use Rattle.jif_resolve.specs.declared.fault.Fault.{Fault};
ghost use Rattle.jif_resolve.specs.declared.fault.FaultKind.TheVariants.{UnknownName, Twice, WrongType, WrongCount};
ghost use Rattle.jif_resolve.specs.Faults.{fault, faults_of};
ghost use Rattle.jif_resolve.specs.First.{rank, with_faults};
ghost use Rattle.jif_tree.specs.Numbering.{CountsFrom, statement_numbers, site_numbers};
ghost use Rattle.jif_resolve.specs.Verdicts.{Refusal, IsRefused, IsProgramOf, IsFirst};
ghost use Rattle.jif_resolve.specs.Returns.{AreReturnedLast};
ghost use Rattle.jif_resolve.specs.Sizes.{KeepsLimits};
ghost use Rattle.jif_resolve.specs.Worked.{only_alice, used_after_its_block, used_before_it_is_known};
ghost use Rattle.jif_resolve.specs.Worked.{declared_in_both_blocks, called_badly, calls_itself, variable_names};

use label_lattice::written_laws;

/// A draft has one program or is refused for one cause, and never both.
pub fn resolve_laws()
    ensures one_refusal { (principals : Declared) (draft : DraftShape) (first second : Refusal) →
        IsRefused principals draft first → IsRefused principals draft second → first ≡ second }
    ensures never_both { (principals : Declared) (draft : DraftShape) (tree : ProgramTree) (refusal : Refusal) →
        IsProgramOf principals draft tree → ¬ IsRefused principals draft refusal }
{}

/// No draft is neither: it has a program or is refused.
pub fn verdict_laws()
    ensures program_or_refusal { (principals : Declared) (draft : DraftShape) → IsDeclared principals →
        ((tree : ProgramTree) × IsProgramOf principals draft tree)
        ⊎ ((refusal : Refusal) × IsRefused principals draft refusal) }
{
    written_laws();
}

/// A draft has one program. Its statements and call sites are numbered in the order of the text, and each number in it
/// stands for something of the right kind. The principals of each authority are declared, as the label check asks.
pub fn program_laws()
    ensures one_program { (principals : Declared) (draft : DraftShape) (first second : ProgramTree) →
        IsDeclared principals → IsProgramOf principals draft first → IsProgramOf principals draft second →
        first ≡ second }
    ensures statements { (principals : Declared) (draft : DraftShape) (tree : ProgramTree) →
        IsProgramOf principals draft tree → CountsFrom 0 (statement_numbers tree) }
    ensures sites { (principals : Declared) (draft : DraftShape) (tree : ProgramTree) →
        IsProgramOf principals draft tree → CountsFrom 1 (site_numbers tree) }
    ensures well_numbered { (principals : Declared) (draft : DraftShape) (tree : ProgramTree) →
        IsProgramOf principals draft tree → IsWellNumbered tree }
    ensures authorities { (principals : Declared) (draft : DraftShape) (tree : ProgramTree) →
        IsProgramOf principals draft tree →
        All (λ method. All (λ member. member.0 < length principals.names) method.authority) tree.methods }
    // The parameters of a method have numbers that rise in their order.
    ensures parameters { (principals : Declared) (draft : DraftShape) (tree : ProgramTree) →
        IsProgramOf principals draft tree →
        (place first second : ℕ) (method : MethodTree) (x y : VarId) →
        slice_get tree.methods place ≡ Some method → slice_get method.params first ≡ Some x →
        slice_get method.params second ≡ Some y → first < second → x.0 < y.0 }
{}

/// A draft of the parser keeps the limits that `resolve` asks for, and returns only where a method ends. The program of
/// a draft that keeps its limits is within those of programs.
pub fn limit_laws()
    ensures kept { (list : List Token) (draft : DraftShape) → grammar.IsProgramOf list draft → KeepsLimits draft }
    ensures returns { (list : List Token) (draft : DraftShape) → grammar.IsProgramOf list draft →
        AreReturnedLast draft }
    ensures within { (principals : Declared) (draft : DraftShape) (tree : ProgramTree) →
        KeepsLimits draft → IsProgramOf principals draft tree → IsWithinLimits tree }
{}

/// What typed code asks of a program beside the label check and a plan.
pub fn labelling_laws()
    // A `return` stands last in a body, and in no block inside it.
    ensures returns { (principals : Declared) (draft : DraftShape) (tree : ProgramTree) →
        AreReturnedLast draft → IsProgramOf principals draft tree →
        All (λ method. ReturnsLast true method.body) tree.methods }
    // Those who trust a begin label are declared, and with each of them all trust it for whom it acts.
    ensures begins { (principals : Declared) (draft : DraftShape) (tree : ProgramTree) →
        IsProgramOf principals draft tree → All (λ method. TrustsOver principals method.begin) tree.methods }
    ensures readers { (principals : Declared) (draft : DraftShape) (tree : ProgramTree) →
        IsDeclared principals → IsProgramOf principals draft tree →
        All (λ method. All (λ member. member.0 < READERS) method.authority) tree.methods }
    // All of these, and parameters, results and what keeps a result have labels where they are set.
    ensures labelled { (principals : Declared) (draft : DraftShape) (tree : ProgramTree) →
        IsDeclared principals → AreReturnedLast draft → IsProgramOf principals draft tree →
        AreLabelledMethods principals tree (declared_labels tree) tree.methods }
    // Each variable that a statement reads has a label where the statement stands.
    ensures values { (principals : Declared) (draft : DraftShape) (tree : ProgramTree) →
        IsProgramOf principals draft tree →
        AreAllValuesLabelled principals tree (declared_labels tree) tree.methods }
    // Each method that has a result declares it with a label.
    ensures results { (principals : Declared) (draft : DraftShape) (tree : ProgramTree) →
        IsProgramOf principals draft tree → (place : ℕ) (method : MethodTree) →
        slice_get tree.methods place ≡ Some method → IsLabelledIfAny (declared_labels tree) method.result }
{}

/// What becomes of results: a method that has one gives it back, and no expression reads it.
pub fn result_laws()
    // Each method with a result gives it back at its end.
    ensures given { (principals : Declared) (draft : DraftShape) (tree : ProgramTree) →
        AreReturnedLast draft → IsProgramOf principals draft tree → AreGivenBack tree }
    // No expression reads a result: names stand for fields, parameters and locals.
    ensures unread { (principals : Declared) (draft : DraftShape) (tree : ProgramTree) →
        IsProgramOf principals draft tree → AreUnread tree }
{}

/// The fault that is found one by one is the first, and none is found where there is none.
pub fn first_laws()
    ensures first { (faults : List Fault) (fault : Fault) →
        with_faults None faults ≡ Some fault → IsFirst faults fault }
    ensures none { (faults : List Fault) → with_faults None faults ≡ None → faults ≡ [] }
{}

/// The faults of small drafts, and the order of faults at one token.
pub fn worked_laws()
    // A local is known up to the end of its block, and from the statement after its declaration.
    ensures after_block { faults_of only_alice used_after_its_block ≡ fault 21 UnknownName ∷ [] }
    ensures before_declaration { faults_of only_alice used_before_it_is_known
        ≡ fault 10 UnknownName ∷ fault 15 UnknownName ∷ [] }
    // Its name stays taken.
    ensures both_blocks { faults_of only_alice declared_in_both_blocks ≡ fault 21 Twice ∷ [] }
    // One token may have two faults.
    ensures bad_call { faults_of only_alice called_badly ≡ fault 29 WrongType ∷ fault 29 WrongCount ∷ [] }
    ensures order { (rank UnknownName < rank Twice) × (rank Twice < rank WrongType)
        × (rank WrongType < rank WrongCount) }
    // Methods are known before they are declared, and principals are no names of the program.
    ensures recursion { faults_of only_alice calls_itself ≡ [] }
    // The result is the last variable of its method.
    ensures variables { variable_names called_badly
        ≡ codes "p" ∷ codes "x" ∷ codes "y" ∷ codes "return" ∷ [] }
    // `main` has no parameters and no result.
    ensures mains { (main_of calls_itself ≡ Some (record { 0 = 0 })) × (main_of called_badly ≡ None) }
{}
