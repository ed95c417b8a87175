//! Laws of what may be seen at the places of a split program. The calls do nothing.

ghost use Rattle.split_rules.specs.Placed.{PlacedProgram, planned_from};
ghost use Rattle.split_rules.specs.Splittable.{IsSplittable};
ghost use Rattle.split_rules.specs.Allowed.{IsAllowed};
ghost use Rattle.split_rules.specs.Held.{IsWellHeld};
ghost use Rattle.split_rules.specs.Emissions.{counts_after};
ghost use Rattle.split_rules.specs.Walk.{methods_emissions};
ghost use Rattle.split_rules.specs.WalkStart.{front_emissions};
ghost use Rattle.split_shades.specs.Flows.{AreResultsLabelled, AllFlow};
ghost use Rattle.split_shades.specs.Shading.{ShadeKnown, nowhere, AreShaded, shades_start, Rides, EndsInShade};
ghost use Rattle.split_shades.specs.Sites.{ReleasesNothing, scene_of};
ghost use Rattle.split_shades.specs.Carried.{AreCarried, IsPushedFor};
ghost use Rattle.split_shades.specs.ShadedCode.{Shades, IsShadedCode, ReleaseNothing, IsTabled, AreKnownInCode};
ghost use Rattle.split_rules.specs.SplitCode.{split_code};
ghost use Rattle.split_rules.specs.Releases.{operands_at, releases_of};
ghost use Rattle.split_shades.specs.Shades.{EntryShade};
ghost use Rattle.split_rules.specs.Expressions.{released_by};
ghost use Rattle.split_shades.specs.Worked.{branching, looping, scene_on, code_on, entry_words, instruction_words};
ghost use Rattle.split_shades.specs.Worked.{outer, branching_basis};
ghost use Rattle.split_shades.specs.Worked.{basis_on, telling, read_at, indexed_by, released_field};
ghost use Rattle.split_shades.specs.Worked.{secret, scene_with, shade_under, entry_under};
ghost use Rattle.split_shades.specs.Basis.{read_label};
ghost use Rattle.jif_tree.specs.LabelRules.{field_label};
ghost use Rattle.split_rules.specs.Worked.{host_id, field_id, var_id, statement_id};
ghost use Rattle.js_base.specs.declared.ids.EntryId.{EntryId};
ghost use Rattle.js_base.specs.declared.ids.HostId.{HostId};
ghost use Rattle.host_code.specs.declared.instruction.Op.TheVariants as op;
ghost use Rattle.host_code.specs.declared.code_expr.Node.TheVariants as node;
ghost use Rattle.std.specs.Prelude.{◌≡◌, ℕ, Bool, false, List, [], ◌∷◌, Some, slice_get};

/// In a program that was checked and placed, each value flows to where its statement keeps it, and so does the program
/// label under which it is evaluated. Whoever answers a read may see which element is asked for.
pub fn flow_laws()
    ensures flows { (placed : PlacedProgram) → IsSplittable placed → IsAllowed placed → IsWellHeld placed →
        AreResultsLabelled placed.labelled.program →
        AllFlow (record { principals = placed.hosts.principals; labelled = placed.labelled }) (planned_from placed) }
{}

/// What the walk over such a program gives is shaded: each instruction runs under the program label of its block, or of
/// the loop whose guard it evaluates, what the temporaries tell is what was read, and each entry stands in a block and
/// under a token whose labels flow to its own. Where the program releases nothing, no instruction does.
pub fn walk_laws()
    ensures shaded { (placed : PlacedProgram) (may_release : Bool) →
        IsSplittable placed → IsAllowed placed → IsWellHeld placed →
        AreResultsLabelled placed.labelled.program → (may_release ≡ false → ReleasesNothing placed.labelled.program) →
        let planned = planned_from placed in
        let counts = counts_after (record { entries = 0; branches = 0 }) (front_emissions placed.labelled planned) in
        (last : ShadeKnown) × (last.place ≡ nowhere) × AreShaded (scene_of placed may_release)
        (shades_start placed.labelled.program)
        (methods_emissions placed.hosts.principals placed.labelled planned counts 0 placed.labelled.program.methods)
        last }
{}

/// The code of such a program has a table of shades: for each instruction the program label under which it runs, that
/// of its block, what its temporaries tell and what it releases, and for each entry the labels that flow to its own.
/// Each instruction keeps the law of its kind, and where the program releases nothing, no instruction does.
pub fn shade_laws()
    ensures shaded { (placed : PlacedProgram) (may_release : Bool) →
        IsSplittable placed → IsAllowed placed → IsWellHeld placed →
        AreResultsLabelled placed.labelled.program → (may_release ≡ false → ReleasesNothing placed.labelled.program) →
        (shades : Shades) × IsShadedCode (scene_of placed may_release)
        (split_code placed) shades }
    // What an instruction releases by its shade is its row of the table of releases.
    ensures tabled { (placed : PlacedProgram) (may_release : Bool) →
        IsSplittable placed → IsAllowed placed → IsWellHeld placed →
        AreResultsLabelled placed.labelled.program → (may_release ≡ false → ReleasesNothing placed.labelled.program) →
        (shades : Shades) × IsShadedCode (scene_of placed may_release) (split_code placed) shades
        × IsTabled (split_code placed) shades (releases_of placed) }
    ensures silent { (placed : PlacedProgram) → IsSplittable placed → IsAllowed placed → IsWellHeld placed →
        AreResultsLabelled placed.labelled.program → ReleasesNothing placed.labelled.program →
        (shades : Shades) × IsShadedCode (scene_of placed false)
        (split_code placed) shades × ReleaseNothing (split_code placed) shades }
    // The table of releases of a program that releases nothing has no operand at any place.
    ensures untold { (placed : PlacedProgram) → IsSplittable placed → IsAllowed placed → IsWellHeld placed →
        AreResultsLabelled placed.labelled.program → ReleasesNothing placed.labelled.program → (host : HostId)
        (place : ℕ) → operands_at (releases_of placed) host place ≡ [] }
    // Each instruction carries the program label of the statement that it is for, which stands on its host, or that of
    // a block where the right to go on moves. Each entry carries the label of what it is named for: its method, its
    // block, the blocks inside its branch or loop, or its call. A call enters its method.
    ensures carried { (placed : PlacedProgram) → IsSplittable placed → IsAllowed placed → IsWellHeld placed →
        AreCarried (record { principals = placed.hosts.principals; labelled = placed.labelled })
        (planned_from placed) (split_code placed) }
    // The code has the labels of fields and variables that shades speak of, each field stands on a host that may see
    // it, and a host may see by the code what it may see by the plan.
    ensures known { (placed : PlacedProgram) → IsSplittable placed → IsAllowed placed → IsWellHeld placed →
        AreKnownInCode (record { principals = placed.hosts.principals; labelled = placed.labelled })
        (planned_from placed) (split_code placed) }
{}

/// The shades of some small programs, which deny other rules.
pub fn worked_laws()
    // The join of a branch and what is handed on inside have the label to which the guard flows.
    ensures branch_entries { entry_words branching ≡ 3 ∷ 3 ∷ 1 ∷ 1 ∷ [] }
    // The join is pushed and the guard evaluated before that.
    ensures branch_words { instruction_words branching 0 ≡ 3 ∷ 3 ∷ 3 ∷ 1 ∷ 1 ∷ 3 ∷ [] }
    // What is done inside has that label too, up to where the token is given back.
    ensures branch_elsewhere { instruction_words branching 1 ≡ 1 ∷ 1 ∷ [] }
    // A loop has its label from the guard on, again and again.
    ensures loop_entries { entry_words looping ≡ 3 ∷ 3 ∷ 1 ∷ 1 ∷ [] }
    ensures loop_words { instruction_words looping 0 ≡ 1 ∷ 1 ∷ 1 ∷ 1 ∷ 3 ∷ [] }
    // No join is pushed under its own label.
    ensures join { (shades : Shades) (it : EntryShade) →
        IsShadedCode (scene_on branching) (code_on branching) shades → slice_get shades.entries 2 ≡ Some it →
        ¬ (it.pushed ≡ Some it.label) }
    // What is pushed for a branch, its join or a return point inside, has not the label of the block around it.
    ensures pushed_inside { ¬ (IsPushedFor branching_basis (statement_id 1) outer) }
    // No head of a loop is pushed under the label of the block around it.
    ensures head { (shades : Shades) (it : EntryShade) →
        IsShadedCode (scene_on looping) (code_on looping) shades → slice_get shades.entries 2 ≡ Some it →
        ¬ (it.pushed ≡ Some outer) }
    // No segment in a branch has the label of the block around it.
    ensures segment { (shades : Shades) (it : EntryShade) →
        IsShadedCode (scene_on branching) (code_on branching) shades → slice_get shades.entries 3 ≡ Some it →
        ¬ (it.label ≡ outer) }
    // The guard of a loop has not the label of the block around it.
    ensures guard_apart { (shades : Shades) →
        IsShadedCode (scene_on looping) (code_on looping) shades → ¬ ((shades.at (host_id 0) 0).pc ≡ outer) }
    // An element tells by which index it was read, so it has not the label of its field.
    ensures index_told { ¬ (read_label (basis_on telling) outer read_at ≡ field_label telling.program (field_id 1)) }
    // What is released in an index is released by the read of the element, and not where the expression around it is
    // evaluated.
    ensures in_index { released_by 0 (indexed_by released_field) ≡ [] }
    ensures by_read { released_by 0 released_field ≡ (node.Temp 0 ∷ []) ∷ [] }
    // A value rides to a host that may see its variable.
    ensures rides { (there : EntryId) → there.0 ≡ 0 →
        EndsInShade (scene_with outer) (entry_under outer ∷ []) (shade_under outer)
        (op.GoWith there (host_id 0) (var_id 0 ∷ [])) }
    // None rides to one that may not.
    ensures rides_unseen { (entries : List EntryShade) (there : EntryId) →
        ¬ (EndsInShade (scene_with secret) entries (shade_under outer) (op.GoWith there (host_id 0) (var_id 0 ∷ []))) }
    ensures rides_unseen_there { (entries : List EntryShade) (to : EntryId) →
        ¬ (EndsInShade (scene_with secret) entries (shade_under outer) (op.CallWith to (host_id 0) (var_id 0 ∷ []))) }
    // What all may see does not ride where the program label is secret.
    ensures rides_low { ¬ (Rides (scene_with outer) (shade_under secret) (var_id 0 ∷ []) (host_id 0)) }
{}
