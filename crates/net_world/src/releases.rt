//! What an event releases that may be seen.

ghost use Rattle.std.specs.Prelude.{◌≡◌, IfOk, map};
ghost use Rattle.host_core.specs.Host.{state_of, value_in_running};
ghost use Rattle.net_world.specs.Fits.{WorldFits, world_of};
ghost use Rattle.net_world.specs.Released.{Releases, released_at, released_by_thread};

use crate::world::World;
use event_text::Event;
use host_code::{Code, CodeExpr};
use host_core::Host;
use js_base::{HostId, OutOfMemory};
use split_rules::ReleaseTable;
use std::alloc::Global;

impl World {
    /// The values that an event would release here, from the left and inner before outer: those of the operands of its
    /// instruction where it is a turn that may be seen, and else none. The table is that of the code.
    ///
    /// # Errors
    /// Memory ran out.
    pub fn releases(
        &self,
        alloc: Global,
        code: &Code,
        table: &ReleaseTable,
        event: &Event,
    ) -> Result<Vec<i64>, OutOfMemory>
        requires fits { WorldFits code.now self.now }
        ensures exact { IfOk result (λ values.
            Releases code.now table.now (world_of self.now) event.now values.items) }
    {
        match *event {
            Event::Turn(host) if !self.secret(code, event) => self.released_at(alloc, table, host),
            _ => Ok(Vec::new(alloc)),
        }
    }

    /// What the instruction releases that a host runs at its turn.
    fn released_at(
        &self,
        alloc: Global,
        table: &ReleaseTable,
        host: HostId,
    ) -> Result<Vec<i64>, OutOfMemory>
        ensures { IfOk result (λ values. values.items ≡ released_at table.now (world_of self.now) host) }
    {
        match self.host(host) {
            Some(there) => released_by(alloc, there, table, host),
            None => Ok(Vec::new(alloc)),
        }
    }
}

/// What the instruction releases that a host of this number runs next.
fn released_by(
    alloc: Global,
    there: &Host,
    table: &ReleaseTable,
    me: HostId,
) -> Result<Vec<i64>, OutOfMemory>
    ensures { IfOk result (λ values. values.items
        ≡ released_by_thread table.now me (state_of there.now) there.now.running) }
{
    match there.place() {
        Some(at) => values_of(alloc, there, table.operands(me, at)),
        None => Ok(Vec::new(alloc)),
    }
}

/// The values of expressions in the thread that a host runs.
fn values_of(alloc: Global, there: &Host, expressions: &[CodeExpr]) -> Result<Vec<i64>, OutOfMemory>
    ensures { IfOk result (λ values. values.items
        ≡ map (value_in_running (state_of there.now) there.now.running) expressions.now) }
{
    let mut values = Vec::new(alloc);
    for expression in expressions {
        values.push(there.value(expression))?;
    }
    Ok(values)
}
