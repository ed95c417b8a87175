//! Laws of plain runs, for whoever proves something about them. The calls do nothing.

ghost use Rattle.std.specs.Prelude.{◌≡◌, ◌<◌, ℕ, ℤ, List};
ghost use Rattle.jif_tree.specs.declared.program.Program.{Program};
ghost use Rattle.jif_tree.specs.Trees.{program_tree};
ghost use Rattle.jif_tree.specs.SourceRun.{Item, Configuration, step, after_steps, prefix, IsAtEnd, HasLength};
ghost use Rattle.source_run.specs.Alike.{RunAlike};
ghost use Rattle.source_run.specs.Behind.{with_behind};
ghost use Rattle.source_run.specs.Changes.{ChangesByOne};
ghost use Rattle.source_run.specs.Origins.{HaveOrigins};
ghost use Rattle.source_run.specs.Runs.{RunsTo};
ghost use Rattle.source_run.specs.declared.plain.RunEnd.{RunEnd};

/// Programs with the same tree run alike, and a run has one length at most. For the program, the starting values and
/// the steps there is one answer of `run`, with one store that it leaves, but for want of memory.
pub fn run_laws()
    ensures same_runs { (program other : Program) → program_tree program ≡ program_tree other →
        RunAlike program other }
    ensures one_length { (program : Program) (store : List (List ℤ)) (m n : ℕ) →
        HasLength program store m → HasLength program store n → m ≡ n }
    ensures one_answer { (program : Program) (start : List (List ℤ)) (steps : ℕ) (first second : RunEnd)
        (one other : List (List ℤ)) → RunsTo program start steps first one →
        RunsTo program start steps second other → (first ≡ second) × (one ≡ other) }
    ensures some_answer { (program : Program) (start : List (List ℤ)) (steps : ℕ) →
        (end : RunEnd) × (stop : List (List ℤ)) × RunsTo program start steps end stop }
{}

/// What is pending behind other items is left alone until these are done: until then each step is one of a run of these
/// items alone.
pub fn behind_laws()
    ensures left_alone { (program : Program) (c : Configuration) (behind : List Item) (n : ℕ) →
        ((m : ℕ) → m < n → ¬ IsAtEnd (after_steps program m c)) →
        after_steps program n (with_behind c behind) ≡ with_behind (after_steps program n c) behind }
{}

/// A step writes one element, sets one variable of a call, makes one call, or does none of these, and no more than its
/// item may do: a statement sets variables of its own call alone, but for a `return`, which sets that of the caller.
pub fn change_laws()
    ensures one_change { (program : Program) (c : Configuration) → ChangesByOne program c (step program c) }
{}

/// All that is pending in a run comes from the program: a statement is one of the body of the method of its call, and
/// an assignment behind a call comes from such a statement.
pub fn origin_laws()
    ensures of_program { (program : Program) (store : List (List ℤ)) (n : ℕ) →
        HaveOrigins program (prefix program store n) }
{}
