//! What is left to do, in the order in which it will be done.

ghost use Rattle.std.specs.Prelude.{◌≡◌, OnOk};
ghost use Rattle.js_base.specs.declared.ids.VarId.{VarId};
ghost use Rattle.source_run.specs.Machine.{tasks_of, with_block, with_keep, kept_frames};

use crate::frames::Frame;
use jif_tree::Stmt;
use js_base::{OutOfMemory, VarId};

/// Something that is left to do in a frame.
#[derive(Clone, Copy)]
pub enum Task<'a> {
    /// These statements, one after the other.
    Run {
        frame: usize,
        statements: &'a [Stmt],
    },
    /// A variable takes the value of another, in which a method left its result.
    Keep {
        frame: usize,
        into: VarId,
        result: VarId,
    },
}

/// Puts the statements of a frame before all that is left to do. There is no task without statements.
pub fn push_block<'a>(
    tasks: &mut Vec<Task<'a>>,
    frame: usize,
    statements: &'a [Stmt],
) -> Result<(), OutOfMemory>
    ensures { OnOk result (tasks_of tasks.new.items ≡ with_block frame statements.now (tasks_of tasks.old.items)) }
{
    if !statements.is_empty() {
        tasks.push(Task::Run { frame, statements })?;
    }
    Ok(())
}

/// Puts the assignment behind a call before all that is left to do, where the method has a result and it is kept.
pub fn push_keep<'a>(
    tasks: &mut Vec<Task<'a>>,
    frame: usize,
    into: Option<VarId>,
    returned: Option<VarId>,
) -> Result<(), OutOfMemory>
    ensures { OnOk result (tasks_of tasks.new.items ≡ with_keep frame into returned (tasks_of tasks.old.items)) }
{
    if let (Some(into), Some(result)) = (into, returned) {
        tasks.push(Task::Keep {
            frame,
            into,
            result,
        })?;
    }
    Ok(())
}

/// Gives back the frames in which nothing is left to do.
pub fn give_back(frames: &mut Vec<Frame>, tasks: &[Task<'_>])
    ensures { frames.new.items ≡ kept_frames (tasks_of tasks.now) frames.old.items }
{
    match tasks.last() {
        None => frames.clear(),
        Some(Task::Run { frame, .. } | Task::Keep { frame, .. }) => {
            if *frame < frames.len() {
                frames.truncate(*frame + 1);
            }
        }
    }
}
