//! The program of a draft without faults.

ghost use Rattle.std.specs.Prelude.{◌≡◌, [], Some, IfOk};
ghost use Rattle.jif_tree.specs.Trees.{program_tree};
ghost use Rattle.jif_grammar.specs.DraftShapes.{draft_shape};
ghost use Rattle.jif_resolve.specs.Meanings.{globals_of, main_of};
ghost use Rattle.jif_resolve.specs.Faults.{faults_of};
ghost use Rattle.jif_resolve.specs.Sizes.{KeepsLimits};
ghost use Rattle.jif_resolve.specs.Resolved.{IsTreeOf};

use crate::fields::fields_of;
use crate::globals::Globals;
use crate::method_of::methods_of;
use crate::variables::variables_of;
use jif_tree::{Draft, Program};
use js_base::{MethodId, OutOfMemory};
use principals::Principals;
use std::alloc::Global;

/// The program of a draft without faults, whose `main` is this method.
pub fn program_of(
    alloc: Global,
    draft: Draft,
    principals: &Principals,
    globals: &Globals,
    main: MethodId,
) -> Result<Program, OutOfMemory>
    requires limits { KeepsLimits (draft_shape draft) }
    requires sound { faults_of principals.now (draft_shape draft) ≡ [] }
    requires main { main_of (draft_shape draft) ≡ Some main }
    requires globals { globals.now ≡ globals_of (draft_shape draft) }
    ensures { IfOk result (λ program. IsTreeOf principals.now (draft_shape draft) (program_tree program)) }
{
    let vars = variables_of(alloc, &draft.methods, principals)?;
    let fields = fields_of(alloc, draft.fields, principals)?;
    let methods = methods_of(alloc, draft.methods, principals, globals)?;
    Ok(Program {
        fields,
        vars,
        methods,
        main,
    })
}
