//! What a program's tree lacks where its text lacks a word: laws. The call does nothing.

ghost use Rattle.std.specs.Prelude.{◌≡◌, List, ◌∷◌, ◌++◌};
ghost use Rattle.principals.specs.ActsFor.{Declared};
ghost use Rattle.jif_lex.specs.declared.token.Token.{Token};
ghost use Rattle.jif_lex.specs.declared.token.TokenKind.TheVariants as kind;
ghost use Rattle.jif_lex.specs.declared.token.Word.{Word};
ghost use Rattle.jif_lex.specs.declared.token.Word.TheVariants as word;
ghost use Rattle.jif_tree.specs.Trees.{ProgramTree};
ghost use Rattle.jif_grammar.specs.DraftShapes.{DraftShape};
ghost use Rattle.jif_grammar.specs.Programs as grammar;
ghost use Rattle.jif_resolve.specs.Verdicts.{IsProgramOf};
ghost use Rattle.split_shades.specs.Sites.{ReleasesNothing};
ghost use Rattle.source_law.specs.Unendorsed.{EndorsesNothing};
ghost use Rattle.source_words.specs.Words.{LacksWord};

/// A program releases only by the word `declassify`, and endorses only by the word `endorse`.
pub fn word_laws()
    // A program of tokens that lack the one releases nothing.
    ensures releases { (list : List Token) (principals : Declared) (draft : DraftShape) (program : ProgramTree) →
        grammar.IsProgramOf list draft → IsProgramOf principals draft program → LacksWord word.Declassify list →
        ReleasesNothing program }
    // One of tokens that lack the other endorses nothing.
    ensures endorses { (list : List Token) (principals : Declared) (draft : DraftShape) (program : ProgramTree) →
        grammar.IsProgramOf list draft → IsProgramOf principals draft program → LacksWord word.Endorse list →
        EndorsesNothing program }
    // No tokens lack a word that is one of them, wherever it stands.
    ensures found { (which : Word) (before after : List Token) (token : Token) → token.kind ≡ kind.Word which →
        ¬ LacksWord which (before ++ token ∷ after) }
{}
