//! What a sheet is made of.

use host_code::Code;
use net_world::World;
use principals::Principals;
use run_rows::{Row, Senders};
use statement_texts::StatementText;

/// What the sheet of a run is made of.
#[derive(Clone, Copy)]
pub struct RunSource<'a> {
    /// The code that ran.
    pub code: &'a Code,
    /// Who is declared, for labels.
    pub principals: &'a Principals,
    /// The texts of the statements.
    pub texts: &'a [StatementText],
    /// The lines of the statements.
    pub lines: &'a [u32],
    /// The rows of the events.
    pub rows: &'a [Row],
    /// The events that sent what is in flight at the end.
    pub senders: &'a Senders,
    /// On which hosts a thread ran before the first event (`running_of`).
    pub running: &'a [bool],
    /// The world at the end. Who misbehaves has no state in it.
    pub world: &'a World,
}
