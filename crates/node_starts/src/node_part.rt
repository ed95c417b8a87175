//! Whether a node may run its own part of the code of a split file.

ghost use Rattle.std.specs.Prelude.{IfOk, string_bytes};
ghost use Rattle.front_end.specs.Loading.{EndsAs, StopsWith};
ghost use Rattle.node_starts.specs.NodeSources.{IsStarted, PartChecked, PartRefused, node_start};
ghost use Rattle.node_starts.specs.SourceNames.{Code as from_code, source_name};

use crate::node_start::NodeStart;
use crate::source_word::SourceWord;
use front_end::{Refusal, Stop, Verdict};
use part_verify::{VerifyError, verify};
use std::alloc::{AllocError, Global};

/// The node again, where its code is that of a program, or its part of the split file is sound; otherwise what is due.
pub fn part_checked(
    alloc: Global,
    source: SourceWord<'_>,
    node: NodeStart,
) -> Result<NodeStart, Stop>
    requires { IsStarted node }
    ensures due { EndsAs node_start (PartChecked (source_name source.entry) (node_start node)) result }
    ensures started { IfOk result IsStarted }
{
    match source {
        SourceWord::Program(_) => Ok(node),
        SourceWord::Code(name) => sound_node(alloc, name, node),
    }
}

/// The node again, where its part of the split file of this name is sound.
fn sound_node(alloc: Global, name: &str, node: NodeStart) -> Result<NodeStart, Stop>
    requires { IsStarted node }
    ensures due { EndsAs node_start (PartChecked (from_code name.now) (node_start node)) result }
    ensures started { IfOk result IsStarted }
{
    match verify(alloc, &node.source.code, node.me) {
        Ok(()) => Ok(node),
        Err(why) => Err(part_refused(alloc, name, why)),
    }
}

/// A part of the split file of this name is refused.
fn part_refused(alloc: Global, name: &str, why: VerifyError) -> Stop
    ensures { StopsWith (PartRefused name.now why) result }
{
    match String::from_str(alloc, name) {
        Ok(file) => refusal_of(file, why),
        Err(AllocError) => Stop::OutOfMemory,
    }
}

/// A part of the split file of this name is refused.
fn refusal_of(file: String, why: VerifyError) -> Stop
    ensures { StopsWith (PartRefused (string_bytes file) why) result }
{
    match why {
        VerifyError::OutOfMemory => Stop::OutOfMemory,
        VerifyError::WeakEntry(entry, place) => {
            Stop::Due(Verdict::Refuse(Refusal::WeakEntry { file, entry, place }))
        }
        VerifyError::Reveals(place) => {
            Stop::Due(Verdict::Refuse(Refusal::Reveals { file, place }))
        }
    }
}
