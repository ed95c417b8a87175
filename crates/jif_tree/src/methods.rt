//! What a method takes and gives, in words of the label rules (`tree`) and of the plain run (`run`).

ghost use Rattle.std.specs.Prelude.{◌≡◌};
ghost use Rattle.jif_tree.specs.LabelRules.{method_at, params_of, result_of};
ghost use Rattle.jif_tree.specs.SourceRun.{method_at as method_run, params_of as params_run, result_of as result_run};
ghost use Rattle.jif_tree.specs.Trees.{program_tree};

use crate::program::Program;
use js_base::{MethodId, VarId};

/// The parameters of a method, none where there is no such method.
pub fn params_of(program: &Program, method: MethodId) -> &[VarId]
    ensures tree { result.now ≡ params_of (method_at (program_tree program.now) method) }
    ensures run { result.now ≡ params_run (method_run program.now method.0) }
{
    match program.methods.get(method.0 as usize) {
        Some(method) => &method.params,
        None => &[],
    }
}

/// The variable in which a method leaves its result.
pub fn result_of(program: &Program, method: MethodId) -> Option<VarId>
    ensures tree { result ≡ result_of (method_at (program_tree program.now) method) }
    ensures run { result ≡ result_run (method_run program.now method.0) }
{
    match program.methods.get(method.0 as usize) {
        Some(method) => method.result,
        None => None,
    }
}
