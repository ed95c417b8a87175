//! What a node begins with: the code of all hosts, the host file, and the starting values of the fields.

ghost use Rattle.std.specs.Prelude.{◌≡◌, ℕ, List};
ghost use Rattle.js_base.specs.declared.limits.TheConstants.{HOSTS_BYTES, PROGRAM_BYTES, SCRIPT_BYTES};
ghost use Rattle.js_base.specs.declared.limits.TheConstants.{SPLIT_FILE_BYTES};
ghost use Rattle.front_end.specs.Loading.{EndsAs, IsLoaded, StopsWith};
ghost use Rattle.front_end.specs.PlacedShapes.{placed_shape};
ghost use Rattle.node_starts.specs.NodeSources.{CodeRead, FromCode, FromProgram, PlacedNode, Valued, bad_code};
ghost use Rattle.node_starts.specs.NodeSources.{node_source};

use front_end::{
    Loaded, PlacedSource, Refusal, Stop, Verdict, code_of, hosts_read, read_places,
    starting_values, stopped,
};
use host_code::Code;
use host_decl::Hosts;
use jif_tree::Store;
use js_base::limits::SPLIT_FILE_BYTES;
use split_file::{SplitError, read};
use std::alloc::{AllocError, Global};

/// What a node begins with.
#[derive(Drop)]
pub struct NodeSource {
    /// The code of all hosts.
    pub code: Code,
    pub hosts: Hosts,
    /// The starting values of the fields of all hosts.
    pub store: Store,
}

/// The source of a node whose code is that of a program, with starting values of a file of this name.
pub fn program_source(
    alloc: Global,
    name: &str,
    program: &Loaded,
    hosts: &Loaded,
    start: &Loaded,
) -> Result<NodeSource, Stop>
    ensures { (p h s : List ℕ) → IsLoaded PROGRAM_BYTES p program.now → IsLoaded HOSTS_BYTES h hosts.now →
        IsLoaded SCRIPT_BYTES s start.now → EndsAs node_source (FromProgram p h name.now s) result }
{
    let placed = read_places(alloc, program, hosts)?;
    placed_node(alloc, name, placed, start)
}

/// The source of a node for a program in its places.
fn placed_node(
    alloc: Global,
    name: &str,
    placed: PlacedSource,
    start: &Loaded,
) -> Result<NodeSource, Stop>
    ensures { (s : List ℕ) → IsLoaded SCRIPT_BYTES s start.now →
        EndsAs node_source (PlacedNode name.now s (placed_shape placed)) result }
{
    let code = code_of(alloc, &placed)?;
    let hosts = placed.into_hosts();
    valued(alloc, name, code, hosts, start)
}

/// The source of a node whose code is that of a split file, with starting values. Both files have these names.
pub fn code_source(
    alloc: Global,
    name: &str,
    file: &str,
    code: &Loaded,
    hosts: &Loaded,
    start: &Loaded,
) -> Result<NodeSource, Stop>
    ensures { (c h s : List ℕ) → IsLoaded SPLIT_FILE_BYTES c code.now → IsLoaded HOSTS_BYTES h hosts.now →
        IsLoaded SCRIPT_BYTES s start.now → EndsAs node_source (FromCode name.now c h file.now s) result }
{
    let code = code_read(alloc, name, code)?;
    let hosts = hosts_read(alloc, hosts)?;
    valued(alloc, file, code, hosts, start)
}

/// The code of a split file of this name.
fn code_read(alloc: Global, name: &str, file: &Loaded) -> Result<Code, Stop>
    ensures { (c : List ℕ) → IsLoaded SPLIT_FILE_BYTES c file.now → EndsAs (λ code. code) (CodeRead name.now c) result }
{
    let Loaded::Bytes(bytes) = file else {
        return Err(stopped(Verdict::too_long(alloc, name)));
    };
    if bytes.len() > SPLIT_FILE_BYTES {
        return Err(stopped(Verdict::too_long(alloc, name)));
    }
    match read(alloc, bytes) {
        Ok(code) => Ok(code),
        Err(SplitError::OutOfMemory) => Err(Stop::OutOfMemory),
        Err(why) => Err(bad_code(alloc, name, why)),
    }
}

/// A split file of this name is refused.
fn bad_code(alloc: Global, name: &str, why: SplitError) -> Stop
    ensures { StopsWith (λ verdict. verdict ≡ bad_code name.now why) result }
{
    match String::from_str(alloc, name) {
        Ok(file) => Stop::Due(Verdict::Refuse(Refusal::BadCode { file, why })),
        Err(AllocError) => Stop::OutOfMemory,
    }
}

/// The source of a node for a code and hosts, with starting values of a file of this name.
fn valued(
    alloc: Global,
    name: &str,
    code: Code,
    hosts: Hosts,
    start: &Loaded,
) -> Result<NodeSource, Stop>
    ensures { (s : List ℕ) → IsLoaded SCRIPT_BYTES s start.now →
        EndsAs node_source (Valued name.now s code hosts) result }
{
    let store = starting_values(alloc, name, start, code.fields())?;
    Ok(NodeSource { code, hosts, store })
}
