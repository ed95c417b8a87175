//! Files of starting values.

ghost use Rattle.std.specs.Prelude.{◌≡◌, ◌≤◌, ◌<◌, ◌^◌, length, map, Ok, MatchResult, IfOk};
ghost use Rattle.event_text.specs.Settings.{HasRows};
ghost use Rattle.event_text.specs.Start.{program_form, start_of, StartFails};

use crate::lines::{Lines, next_line};
use crate::script::EventsError;
use crate::settings::{ScriptField, starting_store, take_settings};
use jif_tree::{Field, Program, Store};
use js_base::limits::SCRIPT_BYTES;
use std::alloc::Global;

impl ScriptField for Field {
    ghost use Rattle.event_text.specs.Start.{program_form};

    ghost form = { program_form };

    fn name(&self) -> &str {
        self.name.as_str()
    }

    fn size(&self) -> u32 {
        self.size
    }

    fn is_array(&self) -> bool {
        self.array
    }

    fn first(&self) -> i64 {
        self.first
    }
}

/// The starting values that a file gives fields: those of its `set` lines, of which the last for an element counts, and
/// where there is none what the field starts with.
///
/// # Errors
/// `TooLong` where it has more than 16,777,216 bytes, otherwise `BadLine` of the first line that sets nothing.
#[tactic(auto, using(crate::proofs::Rows::sizes_after))]
pub fn read_values<F: ScriptField>(
    alloc: Global,
    fields: &[F],
    bytes: &[u8],
) -> Result<Store, EventsError>
    requires { length fields.now < 2 ^ 32 }
    ensures answer { MatchResult result
        (λ start. (length bytes.now ≤ SCRIPT_BYTES) × (start_of (map F.form fields.now) bytes.now ≡ Ok start))
        (StartFails (map F.form fields.now) bytes.now) }
    ensures rows { IfOk result (HasRows (map F.form fields.now)) }
{
    if bytes.len() > SCRIPT_BYTES {
        return Err(EventsError::TooLong);
    }
    let mut start = starting_store(alloc, fields)?;
    let left = take_settings(fields, Lines { bytes, number: 1 }, &mut start);
    match next_line(left) {
        Some((line, _)) => Err(EventsError::BadLine(line.number)),
        None => Ok(start),
    }
}

/// The starting values that a file gives the fields of a program.
///
/// # Errors
/// As `read_values`.
pub fn read_start(alloc: Global, program: &Program, bytes: &[u8]) -> Result<Store, EventsError>
    requires { length program.now.fields.items < 2 ^ 32 }
    ensures answer { MatchResult result
        (λ start. (length bytes.now ≤ SCRIPT_BYTES)
        × (start_of (map program_form program.now.fields.items) bytes.now ≡ Ok start))
        (StartFails (map program_form program.now.fields.items) bytes.now) }
    ensures rows { IfOk result (HasRows (map program_form program.now.fields.items)) }
{
    read_values(alloc, &program.fields, bytes)
}
