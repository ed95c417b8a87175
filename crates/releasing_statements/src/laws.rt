//! That marks and numbers tell the same, and small cases.

ghost use Rattle.std.specs.Prelude.{◌≡◌, ◌↔◌, ℕ, ℤ, pos, List, [], ◌∷◌, Some, true, false, length, slice_get};
ghost use Rattle.std.specs.List.{Contains};
ghost use Rattle.jif_tree.specs.Numbering.{CountsFrom, statement_numbers};
ghost use Rattle.jif_tree.specs.Trees.{ProgramTree};
ghost use Rattle.releasing_statements.specs.Marks.{block_marks, marked, released_statements};
ghost use Rattle.releasing_statements.specs.Releases.{block_releases, program_releases};
ghost use Rattle.releasing_statements.specs.Samples.{sample_block};

/// Laws of the statements that release something. The call does nothing.
pub fn release_laws()
    // There is a mark for each statement.
    ensures as_many { (program : ProgramTree) →
        length (released_statements program) ≡ length (statement_numbers program) }
    // The numbers that have a mark are those of the statements that release something, in this order.
    ensures numbers { (program : ProgramTree) →
        marked (statement_numbers program) (released_statements program) ≡ program_releases program }
    // Where statements are numbered in the order of the text, the mark of a number is set exactly where the statement
    // of this number releases something.
    ensures by_number { (program : ProgramTree) → CountsFrom 0 (statement_numbers program) → (number : ℕ) →
        (slice_get (released_statements program) number ≡ Some true) ↔ Contains (program_releases program) number }
{}

/// Statements that release something, worked out. The call does nothing.
pub fn release_examples()
    // A branch that releases nothing in its guard, with a release on one side and an endorsement on the other, and a
    // release behind it.
    ensures worked_marks { block_marks sample_block ≡ false ∷ true ∷ false ∷ true ∷ [] }
    ensures worked_numbers { block_releases sample_block ≡ 4 ∷ 6 ∷ [] }
{}
