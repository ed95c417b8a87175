//! Laws of printed programs.

ghost use Rattle.std.specs.Prelude.{◌≡◌, ◌<◌, ◌≤◌, ℕ, List, codes};
ghost use Rattle.principals.specs.ActsFor.{Declared, IsDeclared};
ghost use Rattle.jif_lex.specs.declared.token.Token.{Token};
ghost use Rattle.jif_lex.specs.TokenLists.{AreTokens};
ghost use Rattle.jif_tree.specs.Trees.{ProgramTree};
ghost use Rattle.jif_grammar.specs.Phrases.{ExprPhrase, parenthesized};
ghost use Rattle.jif_grammar.specs.Grouping.{level};
ghost use Rattle.jif_grammar.specs.DraftShapes.{DraftShape};
ghost use Rattle.jif_grammar.specs.Programs as grammar;
ghost use Rattle.jif_resolve.specs.Verdicts.{IsProgramOf};
ghost use Rattle.jif_parse.specs.PrintedBack.{ReadsBack};
ghost use Rattle.jif_parse.specs.PrintedExprs.{operand, expr_text};
ghost use Rattle.jif_parse.specs.PrintedExamples.{nobody, of_letters, small_program, differences, products, signs};
ghost use Rattle.jif_parse.specs.PrintedProgram.{printed_program};

use jif_grammar::verdict_laws;
use jif_lex::{lex_laws, spelled_laws};
use jif_resolve::limit_laws;
use label_lattice::text_laws;

/// Laws of printed programs, for whoever reads them again. The call does nothing.
pub fn program_text_laws()
    // The text of a program that was resolved is read as the same program, but for its lines. Its tokens are within the
    // limits of programs, and its length alone may be too large.
    ensures reads_back { (principals : Declared) (list : List Token) (draft : DraftShape) (program : ProgramTree) →
        IsDeclared principals → AreTokens list → grammar.IsProgramOf list draft →
        IsProgramOf principals draft program → ReadsBack principals program }

    // An operand has parentheses exactly where it binds more loosely than it has to.
    ensures bare { (least : ℕ) (e : ExprPhrase) → least ≤ level e → operand least e ≡ e }
    ensures wrapped { (least : ℕ) (e : ExprPhrase) → level e < least → operand least e ≡ parenthesized e }

    // A program, and expressions with the parentheses that they need.
    ensures worked_program { printed_program nobody small_program ≡ codes "void main{}() {\n}\n" }
    ensures worked_differences { expr_text of_letters differences ≡ codes "a - b - (c - d)" }
    ensures worked_products { expr_text of_letters products ≡ codes "(a + b) * c + d * e" }
    ensures worked_signs { expr_text of_letters signs ≡ codes "--a - -!(b < c)" }
{
    text_laws();
    lex_laws();
    spelled_laws();
    verdict_laws();
    limit_laws();
}
