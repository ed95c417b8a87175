//! Calls of methods.

ghost use Rattle.std.specs.Prelude.{◌≡◌, IfOk, OnOk, map};
ghost use Rattle.jif_tree.specs.SourceRun.{method_at, body_of, params_of};
ghost use Rattle.source_run.specs.Cells.{value_in};
ghost use Rattle.source_run.specs.Values.{value_with};
ghost use Rattle.source_run.specs.Variables.{cells_read};
ghost use Rattle.source_run.specs.Windows.{with_cells, blank_of};
ghost use Rattle.source_run.specs.Machine.{target_of};

use crate::frames::{Frame, Target, Variables};
use crate::values::value_of;
use crate::windows::{Window, window_of};
use jif_tree::{Expr, Method, Program, Stmt, Store, params_of};
use js_base::{MethodId, OutOfMemory, VarId};
use std::alloc::Global;

/// The statements of a method, none where there is no such method.
pub fn body_of(program: &Program, method: MethodId) -> &[Stmt]
    ensures { result.now ≡ body_of (method_at program.now method.0) }
{
    match program.methods.get(method.0 as usize) {
        Some(method) => &method.body,
        None => &[],
    }
}

/// The frame of a call at its start, whose arguments the caller's variables give. Its result goes nowhere yet.
pub fn frame_of_call(
    alloc: Global,
    program: &Program,
    windows: &[Window],
    method: MethodId,
    args: &[Expr],
    variables: &Variables<'_>,
    store: &Store,
) -> Result<Frame, OutOfMemory>
    ensures { IfOk result (λ frame. frame.cells
        ≡ with_cells (blank_of windows.now method.0) (params_of (method_at program.now method.0))
        (map (value_with (value_in (cells_read variables.now)) store.now) args.now)) }
{
    let mut frame = Frame::blank(alloc, window_of(windows, method))?;
    pass(
        &mut frame,
        params_of(program, method),
        args,
        variables,
        store,
    )?;
    Ok(frame)
}

/// Gives parameters the values of arguments, which the caller's variables give. The first argument of a parameter that
/// repeats counts.
fn pass(
    frame: &mut Frame,
    params: &[VarId],
    args: &[Expr],
    variables: &Variables<'_>,
    store: &Store,
) -> Result<(), OutOfMemory>
    ensures { OnOk result (frame.new ≡ record frame.old {
      cells = with_cells frame.old.cells params.now
          (map (value_with (value_in (cells_read variables.now)) store.now) args.now);
    }) }
{
    let [param, more @ ..] = params else {
        return Ok(());
    };
    let [arg, others @ ..] = args else {
        return Ok(());
    };
    pass(frame, more, others, variables, store)?;
    frame.set(*param, value_of(arg, variables, store))
}

/// Where the result of a method goes whose caller has this frame, when so many frames are kept.
pub fn target_of(frame: usize, kept: usize, returned: Option<VarId>) -> Option<Target>
    ensures { result ≡ target_of frame kept returned }
{
    match returned {
        Some(var) if frame < kept => Some(Target { frame, var }),
        _ => None,
    }
}
