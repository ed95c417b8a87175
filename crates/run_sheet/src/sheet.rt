//! The sheet of the chart of a run.

ghost use Rattle.std.specs.Prelude.{◌≡◌, IfOk};
ghost use Rattle.net_world.specs.Fits.{world_of};
ghost use Rattle.net_world.specs.World.{state_at};
ghost use Rattle.run_rows.specs.Rows.{runs_in};
ghost use Rattle.run_chart.specs.Sheets.{chart_sheet_shape};
ghost use Rattle.run_sheet.specs.Charts.{chart_of};
ghost use Rattle.run_sheet.specs.RunSources.{SourceFits, run_source_shape, running_in};

use crate::columns::chart_columns;
use crate::fields::misbehaving_of;
use crate::flights::flights_left;
use crate::lanes::lanes_of;
use crate::rows::chart_rows;
use crate::source::RunSource;
use host_code::Code;
use js_base::limits::HOSTS;
use js_base::{HostId, OutOfMemory};
use net_world::World;
use run_chart::ChartSheet;
use std::alloc::Global;

/// On which hosts of the code a thread runs. A sheet wants it of the world before the first event.
///
/// # Errors
/// Memory ran out.
pub fn running_of(alloc: Global, code: &Code, world: &World) -> Result<Vec<bool>, OutOfMemory>
    ensures { IfOk result (λ running. running.items ≡ running_in code.now (world_of world.now)) }
{
    let count = code.hosts().len();
    prove!(count <= HOSTS);
    let mut running = Vec::new(alloc);
    for number in 0..count {
        running.push(runs_on(world, HostId(number as u8)))?;
    }
    Ok(running)
}

/// Whether a thread runs on a host.
fn runs_on(world: &World, host: HostId) -> bool
    ensures { result ≡ runs_in (state_at (world_of world.now) host) }
{
    match world.host(host) {
        Some(there) => !there.rest(),
        None => false,
    }
}

/// What the chart of a run is drawn by. The world and the rows have to be of the code.
///
/// # Errors
/// Memory ran out.
pub fn sheet_of(alloc: Global, source: &RunSource<'_>) -> Result<ChartSheet, OutOfMemory>
    requires { SourceFits source.now }
    ensures { IfOk result (λ sheet. chart_sheet_shape sheet ≡ chart_of (run_source_shape source.now)) }
{
    let lanes = lanes_of(alloc, source.rows)?;
    let bad = misbehaving_of(alloc, source.code, source.world)?;
    let hosts = chart_columns(alloc, source, bad.as_slice())?;
    let rows = chart_rows(alloc, source, lanes.as_slice())?;
    let flights = flights_left(alloc, source, lanes.as_slice())?;
    Ok(ChartSheet {
        hosts,
        root: source.code.root(),
        rows,
        flights,
        halted: source.world.halted(),
    })
}
