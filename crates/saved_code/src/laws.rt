//! Laws of the files of split programs.

ghost use Rattle.std.specs.Prelude.{◌≡◌, ℕ, List, Ok};
ghost use Rattle.jif_tree.specs.Numbers.{HasNumbers};
ghost use Rattle.split_rules.specs.Allowed.{IsAllowed};
ghost use Rattle.split_rules.specs.Placed.{PlacedProgram};
ghost use Rattle.split_rules.specs.SplitCode.{split_code};
ghost use Rattle.split_rules.specs.Splittable.{IsSplittable};
ghost use Rattle.split_file.specs.File.{IsRealCode, file_code};
ghost use Rattle.split_file.specs.Spelling.{split_file};
ghost use Rattle.front_end.specs.PlacedCode.{code_of};
ghost use Rattle.front_end.specs.PlacedSources.{PlacedSource, PlacedSources};
ghost use Rattle.front_end.specs.Stages.{given};
ghost use Rattle.saved_code.specs.ProgramLabels.{HasLabels};

use host_decl::host_file_laws;
use jif_lex::token_laws;
use jif_parse::{named_laws, number_laws};
use jif_resolve::{labelling_laws, limit_laws, program_laws};
use need_labels::need_laws;
use placement::placement_laws;

/// The code of a program that is accepted and has its places is one that there may be in memory, so its file is read as
/// this code. The call does nothing.
///
/// Nothing is said of how long the file is, and it may be longer than what is read of one: the name of a method may be
/// almost as long as a program, and it stands in the names of all variables of the method.
pub fn saved_laws()
    // A program and a host file that are accepted, with the places that are chosen.
    ensures saved_again { (program hosts : List ℕ) (placed : PlacedSource) →
        PlacedSources program hosts (given placed) →
        IsRealCode (code_of placed) × (file_code (split_file (code_of placed)) ≡ Ok (code_of placed)) }

    // Any program in any places that passed the label check, where its numbers have 64 bits and its labels are labels.
    ensures real { (placed : PlacedProgram) → IsSplittable placed → IsAllowed placed →
        HasNumbers placed.labelled.program → HasLabels placed.labelled →
        IsRealCode (split_code placed) }
    ensures again { (placed : PlacedProgram) → IsSplittable placed → IsAllowed placed →
        HasNumbers placed.labelled.program → HasLabels placed.labelled →
        file_code (split_file (split_code placed)) ≡ Ok (split_code placed) }
{
    host_file_laws();
    token_laws();
    named_laws();
    number_laws();
    limit_laws();
    program_laws();
    labelling_laws();
    need_laws();
    placement_laws();
}
