//! What is proved of typed code says that its parts are sound.

ghost use Rattle.js_base.specs.declared.ids.HostId.{HostId};
ghost use Rattle.part_verify.specs.SoundPart.{IsSoundPart};
ghost use Rattle.split_rules.specs.Placed.{PlacedProgram};
ghost use Rattle.split_rules.specs.SplitCode.{split_code};
ghost use Rattle.split_rules.specs.Splittable.{IsSplittable};
ghost use Rattle.split_rules.specs.Allowed.{IsAllowed};
ghost use Rattle.split_rules.specs.Held.{IsWellHeld};
ghost use Rattle.split_shades.specs.Flows.{AreResultsLabelled};

use split_rules::{asking_laws, opening_laws, split_laws, trust_laws};
use split_shades::shade_laws;

/// Each part of the code of a program that was checked and placed is sound, so no host refuses it.
pub fn part_laws()
    ensures sound { (placed : PlacedProgram) (me : HostId) → IsSplittable placed → IsAllowed placed →
        IsWellHeld placed →
        AreResultsLabelled placed.labelled.program → IsSoundPart (split_code placed) me }
{
    split_laws();
    trust_laws();
    asking_laws();
    opening_laws();
    shade_laws();
}
