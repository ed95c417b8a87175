//! The starting values that a file gives.

ghost use Rattle.std.specs.Prelude.{ℕ, List, ◌<◌, ◌^◌, length, map};
ghost use Rattle.js_base.specs.declared.limits.TheConstants.{SCRIPT_BYTES};
ghost use Rattle.front_end.specs.Loading.{EndsAs, IsLoaded};
ghost use Rattle.front_end.specs.Starting.{StartingValues};

use crate::load::Loaded;
use crate::refusal::LineCause;
use crate::stop::{Stop, stopped};
use crate::verdict::Verdict;
use event_text::{EventsError, ScriptField, read_values};
use jif_tree::Store;
use std::alloc::Global;

/// The starting values that a file of this name gives these fields, of a program or of a code.
///
/// # Errors
/// `Due` where the file is too long or a line of it has no form.
pub fn starting_values<F: ScriptField>(
    alloc: Global,
    name: &str,
    start: &Loaded,
    fields: &[F],
) -> Result<Store, Stop>
    requires { length fields.now < 2 ^ 32 }
    ensures { (s : List ℕ) → IsLoaded SCRIPT_BYTES s start.now →
        EndsAs (λ store. store) (StartingValues name.now s (map F.form fields.now)) result }
{
    let Loaded::Bytes(bytes) = start else {
        return Err(stopped(Verdict::too_long(alloc, name)));
    };
    match read_values(alloc, fields, bytes) {
        Ok(store) => Ok(store),
        Err(EventsError::BadLine(line)) => {
            Err(stopped(Verdict::at_line(alloc, name, line, LineCause::NoForm)))
        }
        Err(EventsError::TooLong) => Err(stopped(Verdict::too_long(alloc, name))),
        Err(EventsError::OutOfMemory) => Err(Stop::OutOfMemory),
    }
}
