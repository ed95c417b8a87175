//! The hosts of a chart, each with its fields.

ghost use Rattle.std.specs.Prelude.{◌≡◌, ◌<◌, IfOk, length, map, option_copied, string_bytes};
ghost use Rattle.net_world.specs.Fits.{WorldFits};
ghost use Rattle.run_chart.specs.Sheets.{chart_host_shape};
ghost use Rattle.run_sheet.specs.ChartColumns.{chart_column, chart_columns, label_words};
ghost use Rattle.run_sheet.specs.RunSources.{run_source_shape};

use crate::fields::{chart_fields, misbehaves};
use crate::source::RunSource;
use host_code::{CodeHost, host_name};
use js_base::limits::HOSTS;
use js_base::text::owned_text;
use js_base::{HostId, OutOfMemory};
use label_lattice::label_text;
use principals::Principals;
use run_chart::ChartHost;
use std::alloc::Global;

/// All hosts, where these misbehave.
pub fn chart_columns(
    alloc: Global,
    source: &RunSource<'_>,
    bad: &[HostId],
) -> Result<Vec<ChartHost>, OutOfMemory>
    requires { WorldFits source.now.code.now source.now.world.now }
    ensures { IfOk result (λ hosts. map chart_host_shape hosts.items
        ≡ chart_columns (run_source_shape source.now) bad.now) }
{
    let count = source.code.hosts().len();
    prove!(count <= HOSTS);
    let mut hosts = Vec::new(alloc);
    for number in 0..count {
        hosts.push(chart_column(alloc, source, bad, HostId(number as u8))?)?;
    }
    Ok(hosts)
}

/// A host, where these misbehave.
fn chart_column(
    alloc: Global,
    source: &RunSource<'_>,
    bad: &[HostId],
    host: HostId,
) -> Result<ChartHost, OutOfMemory>
    requires fits { WorldFits source.now.code.now source.now.world.now }
    requires host { host.0 < length source.now.code.now.hosts }
    ensures { IfOk result (λ found. chart_host_shape found
        ≡ chart_column (run_source_shape source.now) bad.now host) }
{
    let code = source.code;
    let name = owned_text(alloc, host_name(code, host))?;
    let label = label_of(alloc, source.principals, code.host(host))?;
    let fields = chart_fields(alloc, code, source.world, bad, host)?;
    Ok(ChartHost {
        name,
        label,
        misbehaves: misbehaves(code, source.world, host),
        runs: source
            .running
            .get(host.0 as usize)
            .copied()
            .unwrap_or(false),
        fields,
    })
}

/// The label of a host as it is printed.
fn label_of(
    alloc: Global,
    principals: &Principals,
    host: Option<&CodeHost>,
) -> Result<String, OutOfMemory>
    ensures { IfOk result (λ text.
        string_bytes text ≡ label_words principals.now (option_copied host.entry)) }
{
    match host {
        Some(host) => label_text(alloc, host.label(), principals),
        None => Ok(String::new(alloc)),
    }
}
