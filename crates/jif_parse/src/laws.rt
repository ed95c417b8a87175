//! Laws of phrases and of programs that were read. The calls do nothing.

ghost use Rattle.std.specs.Prelude.{◌≤◌, ℕ, List, length};
ghost use Rattle.js_base.specs.declared.limits.TheConstants.{PROGRAM_BYTES};
ghost use Rattle.principals.specs.ActsFor.{Declared};
ghost use Rattle.jif_lex.specs.declared.token.Token.{Token};
ghost use Rattle.jif_lex.specs.Tokens.{ReadsAs, tokens};
ghost use Rattle.jif_lex.specs.TokenLists.{AreTokens};
ghost use Rattle.jif_tree.specs.Named.{AreNamed};
ghost use Rattle.jif_tree.specs.Numbers.{HasNumbers};
ghost use Rattle.jif_tree.specs.Trees.{ProgramTree};
ghost use Rattle.jif_grammar.specs.DraftShapes.{DraftShape};
ghost use Rattle.jif_grammar.specs.Programs as grammar;
ghost use Rattle.jif_resolve.specs.Verdicts.{IsProgramOf};
ghost use Rattle.jif_parse.specs.Widths.{Widths};

use jif_grammar::width_laws;
use jif_lex::token_laws;

/// The laws of widths as one.
pub fn widths_of_phrases()
    ensures { Widths }
{
    width_laws();
}

/// The fields, variables and methods of a program that was read and resolved have names, which are no longer than its
/// text may be. Whoever makes its code needs this.
pub fn named_laws()
    // For whoever lexed a text, parsed its tokens and resolved their draft.
    ensures of_text { (text : List ℕ) (list : List Token) (principals : Declared) (draft : DraftShape)
        (program : ProgramTree) → length text ≤ PROGRAM_BYTES → ReadsAs text (tokens list) →
        grammar.IsProgramOf list draft → IsProgramOf principals draft program → AreNamed program }

    // For whoever has the tokens alone, and knows that they are those of some text.
    ensures of_tokens { (list : List Token) (principals : Declared) (draft : DraftShape) (program : ProgramTree) →
        AreTokens list → grammar.IsProgramOf list draft → IsProgramOf principals draft program → AreNamed program }
{
    token_laws();
}

/// The numbers of a program that was read and resolved have 64 bits: its literals, and the starting values of its
/// fields.
pub fn number_laws()
    ensures numbers { (list : List Token) (principals : Declared) (draft : DraftShape) (program : ProgramTree) →
        AreTokens list → grammar.IsProgramOf list draft → IsProgramOf principals draft program → HasNumbers program }
{}
