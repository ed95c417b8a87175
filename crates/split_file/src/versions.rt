//! The versions of split files.

ghost use Rattle.std.specs.Prelude.{◌≡◌, if◌then◌else◌};
ghost use Rattle.std.specs.List.{list_any};
ghost use Rattle.split_file.specs.Spelling.{has_riders, any_ride};

use host_code::{Instr, Op, Part};

/// The version of a file in which no values ride with an instruction.
pub const PLAIN: u16 = 1;

/// The version of a file in which values ride with some instruction.
pub const RIDING: u16 = 2;

/// Whether values ride with an operation.
fn has_riders(op: &Op) -> bool
    ensures { result ≡ has_riders op.now }
{
    matches!(op, Op::GoWith(..) | Op::CallWith(..))
}

/// Whether values ride with some of these instructions.
pub fn any_ride(part: &[Instr]) -> bool
    ensures { result ≡ any_ride part.now }
{
    part.iter().any(|one| has_riders(&one.op))
}

/// Whether values ride with some instruction of these hosts.
fn some_ride(parts: &[Part]) -> bool
    ensures { result ≡ list_any any_ride parts.now }
{
    parts.iter().any(|part| any_ride(part.instructions()))
}

/// The version of a file with these instructions.
pub fn version_with(parts: &[Part]) -> u16
    ensures { result ≡ (if list_any any_ride parts.now then 2 else 1) }
{
    if some_ride(parts) { RIDING } else { PLAIN }
}
