//! What a plain run of an accepted program without `endorse` and an altered run of it have in common: laws, and small
//! cases of their definitions. The calls do nothing: their contracts are the laws.

ghost use Rattle.std.specs.Prelude.{◌≡◌, ℕ, ℤ, pos, List, [], ◌∷◌, None, Some};
ghost use Rattle.std.specs.Global.{Vec};
ghost use Rattle.js_base.specs.declared.ids.FieldId.{FieldId};
ghost use Rattle.js_base.specs.declared.ids.MethodId.{MethodId};
ghost use Rattle.js_base.specs.declared.ids.SiteId.{SiteId};
ghost use Rattle.js_base.specs.declared.ids.VarId.{VarId};
ghost use Rattle.principals.specs.ActsFor.{Declared};
ghost use Rattle.label_lattice.specs.declared.label.Label.{Label};
ghost use Rattle.jif_tree.specs.declared.program.Expr.{Expr};
ghost use Rattle.jif_tree.specs.declared.program.Expr as expr;
ghost use Rattle.jif_tree.specs.declared.program.Method.{Method};
ghost use Rattle.jif_tree.specs.declared.program.Program.{Program};
ghost use Rattle.jif_tree.specs.declared.program.Stmt.{Stmt};
ghost use Rattle.jif_tree.specs.declared.program.StmtKind as kind;
ghost use Rattle.jif_tree.specs.Altered.{Exposure, Altered};
ghost use Rattle.jif_tree.specs.AlteredExamples.{field_of_0, field_of_1, one_bad, pending_with, variable_of_0};
ghost use Rattle.jif_tree.specs.AlteredExamples.{variable_of_1};
ghost use Rattle.jif_tree.specs.SourceRun.{Configuration, HasLength, configuration_at_start, main_body, method_at};
ghost use Rattle.jif_tree.specs.Trees.{BlockTree, Heading, MethodTree, ProgramTree, program_tree, branch, call, done};
ghost use Rattle.jif_tree.specs.Trees.{give_back, loop, set_element, set_local, declassified, element, endorsed, local};
ghost use Rattle.need_labels.specs.Labelled.{Labelled};
ghost use Rattle.need_labels.specs.Needs.{NeedsShape};
ghost use Rattle.source_law.specs.Checked.{PassesLabelCheck, exposed_to};
ghost use Rattle.source_law.specs.Follows.{ComesTo, EndsAfter, FollowsPlain, KeepsUp};
ghost use Rattle.source_law.specs.Related.{AreRelated};
ghost use Rattle.source_law.specs.SteadyExamples.{begun, endorsed_0, only, second_pending, sets_0, sets_1_by, sets_9};
ghost use Rattle.source_law.specs.SteadyExamples.{two_fields};
ghost use Rattle.source_law.specs.Steady.{DoesWell, IsIdle, IsSteady, IsSteadyProgram};
ghost use Rattle.source_law.specs.Unendorsed.{EndorsesNothing, IsUnendorsedBlock};

/// What hosts that misbehave leave of a plain run.
pub fn steady_laws()
    // In a checked program that endorses nothing, what may be affected decides on nothing else.
    ensures steady { (principals : Declared) (program : Program) (labelled : Labelled) (needs : NeedsShape)
        (bad : List Label) → program_tree program ≡ labelled.program → PassesLabelCheck principals labelled needs →
        EndorsesNothing labelled.program → IsSteadyProgram program (exposed_to labelled needs bad) }
    // So an altered run and the plain run are related where they start.
    ensures starts { (program : Program) (exposure : Exposure) (store : List (List ℤ)) →
        IsSteadyProgram program exposure →
        AreRelated program exposure (configuration_at_start program store) (configuration_at_start program store) }
    // And however the altered run goes on from a configuration that is related to one of a plain run which ends, the
    // plain run goes on by some of its steps so that they are related again; to its end, where the altered run is.
    ensures keeps_up { (program : Program) (exposure : Exposure) (left : ℕ) (c d now : Configuration)
        (others : List Configuration) → IsSteadyProgram program exposure → EndsAfter program left d →
        AreRelated program exposure c d → Altered program exposure c others now →
        KeepsUp program exposure d left now }
    // Where the plain run from a store ends, the fields that may not be affected are, at each moment of any altered
    // run from there, those of the plain run after some number of steps: none less than the one before, and all of
    // them where the altered run is at its end.
    ensures plainly { (principals : Declared) (program : Program) (labelled : Labelled) (needs : NeedsShape)
        (bad : List Label) (store : List (List ℤ)) (length_of : ℕ) (moments : List Configuration) →
        program_tree program ≡ labelled.program → PassesLabelCheck principals labelled needs →
        EndorsesNothing labelled.program → HasLength program store length_of →
        ComesTo program (exposed_to labelled needs bad) (configuration_at_start program store) moments →
        FollowsPlain program (exposed_to labelled needs bad) store length_of
        (configuration_at_start program store ∷ moments) }
{}

/// What a misbehaving host that principal 0 trusts leaves of statements, and of runs of a program whose `main` has one
/// statement.
pub fn steady_examples()
    // A statement that sets what principal 0 trusts changes only what may be affected, whatever it reads.
    ensures idle { (program : Program) → IsIdle program one_bad None sets_0 }
    // One that sets what principal 1 trusts changes more.
    ensures not_idle { (program : Program) → ¬ IsIdle program one_bad None (sets_1_by (expr.Scalar field_of_1)) }
    // A call changes what the method may, which its begin label says.
    ensures idle_call { (program : Program) (method : Method) (site : SiteId) (called : MethodId) (args : Vec Expr) →
        method_at program called.0 ≡ Some method → method.begin.trust ≡ 1 →
        IsIdle program one_bad None (kind.Call site called args None) }
    ensures not_idle_call { (program : Program) (method : Method) (site : SiteId) (called : MethodId)
        (args : Vec Expr) → method_at program called.0 ≡ Some method → method.begin.trust ≡ 2 →
        ¬ IsIdle program one_bad None (kind.Call site called args None) }
    // It also changes the variable that keeps its result, and a `return` that of its method.
    ensures not_idle_kept { (program : Program) (site : SiteId) (called : MethodId) (args : Vec Expr) →
        ¬ IsIdle program one_bad None (kind.Call site called args (Some variable_of_1)) }
    ensures idle_return { (program : Program) (value : Expr) →
        IsIdle program one_bad (Some variable_of_0) (kind.Return value) }
    ensures not_idle_return { (program : Program) (value : Expr) →
        ¬ IsIdle program one_bad (Some variable_of_1) (kind.Return value) }
    // A statement that sets what principal 1 trusts does well where it reads that alone, and not where it reads what
    // may be affected, also where that is endorsed.
    ensures does_well { (program : Program) → DoesWell program one_bad None (sets_1_by (expr.Scalar field_of_1)) }
    ensures does_ill { (program : Program) → ¬ DoesWell program one_bad None (sets_1_by (expr.Scalar field_of_0)) }
    ensures endorsed_ill { (program : Program) → ¬ DoesWell program one_bad None (sets_1_by endorsed_0) }
    // A guard that may be affected may decide on what may be affected, and on nothing else.
    ensures guard_well { (program : Program) (body : Vec Stmt) → body.items ≡ only sets_0 ∷ [] →
        DoesWell program one_bad None (kind.While (expr.Scalar field_of_0) body) }
    ensures guard_ill { (program : Program) (body : Vec Stmt) → body.items ≡ only sets_9 ∷ [] →
        ¬ DoesWell program one_bad None (kind.While (expr.Scalar field_of_0) body) }
    // A statement that sets what principal 1 trusts is not steady where it may be left out.
    ensures left_ill { (program : Program) →
        ¬ IsSteady program one_bad None (record { 0 = 0 }) (sets_1_by (expr.Scalar field_of_1)) }
    // Where only the first of two statements may be left out, nothing is related that lacks the second.
    ensures not_related { (program : Program) → ¬ AreRelated program one_bad (pending_with []) second_pending }
    // Where `main` sets principal 1's field to 9, an altered run may change principal 0's field first. It is followed
    // all the same: by no step, by none, and by one.
    ensures followed { (program : Program) → main_body program ≡ only sets_9 ∷ [] →
        let moments = begun program (pos 8) (pos 7) (only sets_9 ∷ []) ∷ begun program (pos 8) (pos 9) [] ∷ [] in
        ComesTo program one_bad (configuration_at_start program two_fields) moments
        × FollowsPlain program one_bad two_fields 1 (configuration_at_start program two_fields ∷ moments) }
    // A run at whose end that statement was left out is not followed.
    ensures not_left_out { (program : Program) → main_body program ≡ only sets_9 ∷ [] →
        ¬ FollowsPlain program one_bad two_fields 1 (begun program (pos 5) (pos 7) [] ∷ []) }
    // Nor is one that goes back.
    ensures not_back { (program : Program) → main_body program ≡ only sets_9 ∷ [] →
        ¬ FollowsPlain program one_bad two_fields 1
        (begun program (pos 5) (pos 9) [] ∷ begun program (pos 5) (pos 7) (only sets_9 ∷ []) ∷ []) }
    // Where `main` endorses principal 0's field an altered run may set the other to 9, which no plain run does. So the
    // law asks for a program that endorses nothing.
    ensures endorsing { (program : Program) → main_body program ≡ only (sets_1_by endorsed_0) ∷ [] →
        let moments = begun program (pos 5) (pos 9) [] ∷ [] in
        ComesTo program one_bad (configuration_at_start program two_fields) moments
        × ((length_of : ℕ) → ¬ FollowsPlain program one_bad two_fields length_of
        (configuration_at_start program two_fields ∷ moments)) }
{}

/// Where an `endorse` is found.
pub fn unendorsed_examples()
    // A block that only releases endorses nothing.
    ensures released { (heading : Heading) (x : VarId) (label : Label) →
        IsUnendorsedBlock (set_local heading x (declassified (local x) label) done) }
    // It is found in what is released, in an index that is read and one that is written.
    ensures in_release { (heading : Heading) (x : VarId) (label : Label) →
        ¬ IsUnendorsedBlock (set_local heading x (declassified (endorsed (local x) label) label) done) }
    ensures in_read { (heading : Heading) (x : VarId) (field : FieldId) (label : Label) →
        ¬ IsUnendorsedBlock (set_local heading x (element field (endorsed (local x) label)) done) }
    ensures in_write { (heading : Heading) (x : VarId) (field : FieldId) (label : Label) →
        ¬ IsUnendorsedBlock (set_element heading field (endorsed (local x) label) (local x) done) }
    // It is found in a guard, in a block inside and in one behind.
    ensures in_guard { (heading : Heading) (x : VarId) (label : Label) (first second : BlockTree) →
        ¬ IsUnendorsedBlock (branch heading (endorsed (local x) label) first second done) }
    ensures in_loop { (heading : Heading) (x : VarId) (label : Label) (inner : BlockTree) →
        ¬ IsUnendorsedBlock (loop heading (endorsed (local x) label) inner done) }
    ensures inside { (heading : Heading) (x : VarId) (label : Label) →
        ¬ IsUnendorsedBlock (loop heading (local x) (give_back heading (endorsed (local x) label) done) done) }
    ensures behind { (heading : Heading) (x : VarId) (label : Label) →
        ¬ IsUnendorsedBlock (give_back heading (local x) (give_back heading (endorsed (local x) label) done)) }
    // It is found in an argument and in a result.
    ensures in_argument { (heading : Heading) (site : SiteId) (method : MethodId) (x : VarId) (label : Label) →
        ¬ IsUnendorsedBlock
        (call heading site method (local x ∷ endorsed (local x) label ∷ []) None done) }
    ensures in_result { (heading : Heading) (x : VarId) (label : Label) →
        ¬ IsUnendorsedBlock (give_back heading (endorsed (local x) label) done) }
    // And it is found in a second method.
    ensures in_program { (program : ProgramTree) (first second : MethodTree) (heading : Heading) (x : VarId)
        (label : Label) → program.methods ≡ first ∷ second ∷ [] →
        second.body ≡ give_back heading (endorsed (local x) label) done → ¬ EndorsesNothing program }
{}
