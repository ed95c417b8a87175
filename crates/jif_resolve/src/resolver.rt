//! The program of a draft, or its first fault.

ghost use Rattle.std.specs.Prelude.{◌≡◌, IfOk, IfErr};
ghost use Rattle.jif_grammar.specs.DraftShapes.{draft_shape};
ghost use Rattle.jif_tree.specs.Limits.{IsWithinLimits};
ghost use Rattle.jif_tree.specs.Trees.{program_tree};
ghost use Rattle.jif_resolve.specs.Sizes.{KeepsLimits};
ghost use Rattle.jif_resolve.specs.Refusals.{IsRefusedFor, error_for};
ghost use Rattle.jif_resolve.specs.Verdicts.{IsProgramOf};

use crate::ResolveError;
use crate::draft_faults::{first_fault, main_of};
use crate::fault::{Fault, FaultKind};
use crate::globals::globals_of;
use crate::laws::first_laws;
use crate::program_of::program_of;
use jif_tree::{Draft, Program};
use principals::Principals;
use std::alloc::Global;

/// The program of a draft, with numbers in place of names. The draft keeps the limits of the parser.
///
/// Unless memory runs out, this is exact on both sides: a draft has one program or is refused for one cause, and never
/// both (`resolve_laws`, `program_laws`).
///
/// # Errors
/// The first fault of the draft, or that it has no `main`, or that memory ran out.
pub fn resolve(
    alloc: Global,
    draft: Draft,
    principals: &Principals,
) -> Result<Program, ResolveError>
    requires { KeepsLimits (draft_shape draft) }
    ensures found { IfOk result (λ program.
        IsProgramOf principals.now (draft_shape draft) (program_tree program)) }
    ensures limits { IfOk result (λ program. IsWithinLimits (program_tree program)) }
    ensures refused { IfErr result (IsRefusedFor principals.now (draft_shape draft)) }
{
    first_laws();
    let globals = globals_of(alloc, &draft)?;
    if let Some(fault) = first_fault(alloc, &draft, principals, &globals)? {
        return Err(error_for(fault));
    }
    let Some(main) = main_of(&draft) else {
        return Err(ResolveError::NoMain);
    };
    let program = program_of(alloc, draft, principals, &globals, main)?;
    Ok(program)
}

/// The refusal for a fault.
fn error_for(fault: Fault) -> ResolveError
    ensures { result ≡ error_for fault }
{
    match fault.kind {
        FaultKind::UnknownName => ResolveError::UnknownName(fault.at),
        FaultKind::Twice => ResolveError::Twice(fault.at),
        FaultKind::WrongType => ResolveError::WrongType(fault.at),
        FaultKind::WrongCount => ResolveError::WrongCount(fault.at),
    }
}
