//! Laws of programs whose names were resolved. The call does nothing: its contract is the laws.

ghost use Rattle.std.specs.Prelude.{◌≡◌, List, map};
ghost use Rattle.std.specs.List.{AllZip};
ghost use Rattle.principals.specs.ActsFor.{Declared, IsDeclared};
ghost use Rattle.jif_lex.specs.declared.token.Token.{Token};
ghost use Rattle.jif_grammar.specs.DraftShapes.{DraftShape};
ghost use Rattle.jif_grammar.specs.Programs as grammar;
ghost use Rattle.jif_resolve.specs.Verdicts.{IsProgramOf};
ghost use Rattle.jif_tree.specs.Trees.{ProgramTree};
ghost use Rattle.label_reasons.specs.Programs.{IsProgramOver};
ghost use Rattle.resolved_laws.specs.Written.{IsWrittenAs};

use jif_resolve::{labelling_laws, program_laws};

/// Laws of a program by its draft.
pub fn resolved_program_laws()
    // Its labels are labels over the declared principals, and each variable that it reads has one.
    ensures labels_over { (principals : Declared) (draft : DraftShape) (tree : ProgramTree) → IsDeclared principals →
        IsProgramOf principals draft tree → IsProgramOver principals tree }
    // Its fields are those of the draft, in order.
    ensures fields { (principals : Declared) (draft : DraftShape) (tree : ProgramTree) →
        IsProgramOf principals draft tree →
        map (λ field. field.name) tree.fields ≡ map (λ field. field.name.text) draft.fields }
    // So are its methods, and the statements of each, which have the lines of the tokens where the draft has them.
    ensures methods { (principals : Declared) (list : List Token) (draft : DraftShape) (tree : ProgramTree) →
        grammar.IsProgramOf list draft → IsProgramOf principals draft tree →
        AllZip (IsWrittenAs list) draft.methods tree.methods }
{
    program_laws();
    labelling_laws();
}
