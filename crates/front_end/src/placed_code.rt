//! The code of a program in its places, and what it releases.

ghost use Rattle.std.specs.Prelude.{◌≡◌, IfOk};
ghost use Rattle.front_end.specs.PlacedCode.{code_of, program_of};
ghost use Rattle.front_end.specs.PlacedShapes.{placed_shape};
ghost use Rattle.split_rules.specs.Releases.{releases_of};

use crate::placed::PlacedSource;
use control_split::emit;
use host_code::Code;
use js_base::OutOfMemory;
use split_rules::{ReleaseTable, releases_in};
use std::alloc::Global;

/// The code of all hosts for a program in its places.
pub fn code_of(alloc: Global, placed: &PlacedSource) -> Result<Code, OutOfMemory>
    ensures { IfOk result (λ code. code ≡ code_of (placed_shape placed.now)) }
{
    let source = &placed.source;
    emit(
        alloc,
        &source.checked,
        &placed.needs,
        &source.hosts,
        &placed.plan,
    )
}

/// Which values the instructions of that code release.
///
/// # Errors
/// Memory ran out.
pub fn releases_of(
    alloc: Global,
    placed: &PlacedSource,
    code: &Code,
) -> Result<ReleaseTable, OutOfMemory>
    requires code { code.now ≡ code_of (placed_shape placed.now) }
    ensures { IfOk result (λ table. table ≡ releases_of (program_of (placed_shape placed.now))) }
{
    let source = &placed.source;
    releases_in(alloc, &source.checked, code)
}
