//! That texts are those of the tree, and small cases.

ghost use Rattle.std.specs.Prelude.{◌≡◌, ◌∷◌, [], codes, false, length, map, true};
ghost use Rattle.principals.specs.ActsFor.{Declared, IsDeclared};
ghost use Rattle.jif_tree.specs.Named.{AreNamed};
ghost use Rattle.jif_tree.specs.Numbering.{statement_numbers};
ghost use Rattle.jif_tree.specs.Trees.{ProgramTree};
ghost use Rattle.statement_texts.specs.Short.{short};
ghost use Rattle.statement_texts.specs.Statements.{program_texts};
ghost use Rattle.statement_texts.specs.Texts.{outermost, sample_lines, statement_texts, texts_from};

/// Laws of the texts of a program whose names may be written, as a parser and its host file give it. The call does
/// nothing.
pub fn text_laws()
    // The texts are those of its statements, one by one, with the blocks and loops around each in the tree.
    ensures by_tree { (principals : Declared) (program : ProgramTree) → IsDeclared principals → AreNamed program →
        statement_texts principals program ≡ program_texts principals program }
    // There is one for each number of a statement.
    ensures as_many { (principals : Declared) (program : ProgramTree) → IsDeclared principals → AreNamed program →
        length (statement_texts principals program) ≡ length (statement_numbers program) }
{}

/// Texts of statements, worked out. The call does nothing.
pub fn text_examples()
    // The labels of what is declared are left out, and those in which values are released stay.
    ensures worked_head { short false (codes "void main{?: Alice}(int{Bob:} b) {") ≡ codes "void main(int b)" }
    ensures worked_release { short false (codes "r = endorse(o, {?: Alice});") ≡ codes "r = endorse(o, {?: Alice});" }
    ensures worked_else { short true (codes "while (a_1 < 2) {") ≡ codes "else: while (a_1 < 2)" }

    // A loop with a branch in it that has a statement on each side, of which the second is done otherwise, and a
    // statement behind the loop.
    ensures worked_texts { map (λ one. one.text) (texts_from outermost sample_lines)
        ≡ codes "while (a) {" ∷ codes "if (a) {" ∷ codes "b = 1;" ∷ codes "b = 2;" ∷ codes "c = 3;" ∷ [] }
    ensures worked_blocks { map (λ one. one.blocks) (texts_from outermost sample_lines) ≡ 0 ∷ 1 ∷ 2 ∷ 2 ∷ 0 ∷ [] }
    ensures worked_loops { map (λ one. one.loops) (texts_from outermost sample_lines) ≡ 0 ∷ 1 ∷ 1 ∷ 1 ∷ 0 ∷ [] }
    ensures worked_otherwise { map (λ one. one.otherwise) (texts_from outermost sample_lines)
        ≡ false ∷ false ∷ false ∷ true ∷ false ∷ [] }
{}
