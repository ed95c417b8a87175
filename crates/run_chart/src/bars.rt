//! The bars on lifelines, made in one walk over the events.

ghost use Rattle.std.specs.Prelude.{◌≡◌, ◌<◌, ◌≤◌, ◌++◌, ◌∷◌, [], IfOk, OnOk, length, map, replicate};
ghost use Rattle.std.specs.String.{string_bytes};
ghost use Rattle.run_chart.specs.Bars as shown;
ghost use Rattle.run_chart.specs.Sheets.{chart_host_shape, chart_row_shape};

use crate::columns::{ChartColumn, column_at};
use crate::rows::{ChartPlace, own_host, place_at};
use crate::sheet::{ChartHost, ChartRow};
use js_base::{HostId, OutOfMemory};
use std::alloc::Global;
use std::fmt::Write;
use std::marker::Model;

/// Whether a thread of a host runs, and whether one waits.
#[derive(Clone, Copy)]
pub struct ChartThreads {
    pub runs: bool,
    pub waits: bool,
}

/// What the threads of a host do from a line on.
#[derive(Clone, Copy)]
pub struct ChartMoment {
    pub host: HostId,
    pub line: u32,
    pub threads: ChartThreads,
}

/// A bar, from one height to another.
#[derive(Clone, Copy)]
pub struct ChartBar {
    pub from: u32,
    pub to: u32,
    pub filled: bool,
}

/// The moments of a host.
#[derive(Drop)]
struct Moments {
    moments: Vec<ChartMoment>,
}

impl Model for Moments {
    ghost use Rattle.std.specs.Prelude.{List};
    ghost use Rattle.run_chart.specs.declared.bars.ChartMoment.{ChartMoment};

    ghost Value = { List ChartMoment };

    ghost view = { λ m. m.moments.items };
}

/// What the threads of a host do from the line of its event on.
fn moment_of(line: u32, row: &ChartRow) -> ChartMoment
    ensures { result ≡ shown.moment_of line (chart_row_shape row.now) }
{
    ChartMoment {
        host: own_host(row.event),
        line,
        threads: ChartThreads {
            runs: row.runs,
            waits: row.waits,
        },
    }
}

/// Nothing for each of so many hosts.
fn no_moments(alloc: Global, count: usize) -> Result<Vec<Moments>, OutOfMemory>
    ensures { IfOk result (λ found. found.items ≡ replicate count []) }
{
    let mut found = Vec::new(alloc);
    for _number in 0..count {
        found.push(Moments {
            moments: Vec::new(alloc),
        })?;
    }
    Ok(found)
}

/// Adds a moment to those of its host.
fn add_moment(found: &mut Vec<Moments>, moment: ChartMoment) -> Result<(), OutOfMemory>
    ensures { OnOk result (found.new.items ≡ shown.with_moment found.old.items moment) }
{
    let number = moment.host.0 as usize;
    if number < found.len() {
        push_moment(&mut found[number], moment)?;
    }
    Ok(())
}

/// Adds a moment.
fn push_moment(found: &mut Moments, moment: ChartMoment) -> Result<(), OutOfMemory>
    ensures { OnOk result (found.new ≡ found.old ++ moment ∷ []) }
{
    found.moments.push(moment)?;
    Ok(())
}

/// The moments of each of so many hosts.
fn all_moments(
    alloc: Global,
    count: usize,
    places: &[ChartPlace],
    rows: &[ChartRow],
) -> Result<Vec<Moments>, OutOfMemory>
    ensures { IfOk result (λ found. found.items
        ≡ shown.all_moments count (shown.moments_from places.now 0 (map chart_row_shape rows.now))) }
{
    let mut found = no_moments(alloc, count)?;
    for (number, row) in rows.iter().enumerate() {
        let line = place_at(places, number).line;
        add_moment(&mut found, moment_of(line, row))?;
    }
    Ok(found)
}

/// The moments of the host of a number.
fn moments_at(found: &[Moments], number: usize) -> &[ChartMoment]
    ensures { result.now ≡ shown.moments_at found.entry.now number }
{
    match found.get(number) {
        Some(own) => &own.moments,
        None => &[],
    }
}

/// Adds a bar from one height to another, if a thread runs or waits.
fn push_bar(
    bars: &mut Vec<ChartBar>,
    from: u32,
    to: u32,
    threads: ChartThreads,
) -> Result<(), OutOfMemory>
    ensures { OnOk result (bars.new.items ≡ bars.old.items ++ shown.bar_of from to threads) }
{
    if threads.runs {
        bars.push(ChartBar {
            from,
            to,
            filled: true,
        })?;
    } else if threads.waits {
        bars.push(ChartBar {
            from,
            to,
            filled: false,
        })?;
    }
    Ok(())
}

/// Whether threads do the same.
fn are_same(one: ChartThreads, other: ChartThreads) -> bool
    ensures { result ≡ shown.are_same one other }
{
    one.runs == other.runs && one.waits == other.waits
}

/// The bars of a host from here to the end, where its threads were these and then change so.
fn bars_from(
    alloc: Global,
    from: u32,
    end: u32,
    first: ChartThreads,
    moments: &[ChartMoment],
) -> Result<Vec<ChartBar>, OutOfMemory>
    ensures { IfOk result (λ bars. bars.items ≡ shown.bars_from from end first moments.now) }
{
    let mut bars = Vec::new(alloc);
    let mut threads = first;
    let mut since = from;
    for moment in moments {
        if !are_same(threads, moment.threads) {
            push_bar(&mut bars, since, moment.line, threads)?;
            threads = moment.threads;
            since = moment.line;
        }
    }
    push_bar(&mut bars, since, end, threads)?;
    Ok(bars)
}

/// Adds a bar beside a lifeline.
fn push_drawn(
    text: &mut String,
    x: u32,
    from: u32,
    height: u32,
    filled: bool,
) -> Result<(), OutOfMemory>
    ensures { OnOk result (string_bytes text.new ≡ string_bytes text.old ++ shown.bar_text x from height filled) }
{
    if filled {
        push_filled(text, x, from, height)
    } else {
        push_open(text, x, from, height)
    }
}

/// Adds a filled bar.
fn push_filled(text: &mut String, x: u32, from: u32, height: u32) -> Result<(), OutOfMemory>
    ensures { OnOk result (string_bytes text.new ≡ string_bytes text.old ++ shown.filled_text x from height) }
{
    writeln!(
        text,
        "<rect class='run' x='{x}' y='{from}' width='6' height='{height}'/>"
    )
    .map_err(|_| OutOfMemory)?;
    Ok(())
}

/// Adds an open bar.
fn push_open(text: &mut String, x: u32, from: u32, height: u32) -> Result<(), OutOfMemory>
    ensures { OnOk result (string_bytes text.new ≡ string_bytes text.old ++ shown.open_text x from height) }
{
    writeln!(
        text,
        "<rect class='wait' x='{x}.5' y='{from}' width='5' height='{height}'/>"
    )
    .map_err(|_| OutOfMemory)?;
    Ok(())
}

/// Adds a bar of a lifeline.
fn push_bar_at(text: &mut String, x: u32, bar: &ChartBar) -> Result<(), OutOfMemory>
    ensures { OnOk result (string_bytes text.new ≡ string_bytes text.old ++ shown.bar_at x bar.now) }
{
    let height = bar.to.saturating_sub(bar.from);
    push_drawn(text, x.saturating_sub(3), bar.from, height, bar.filled)
}

/// Adds the bars of a lifeline.
fn push_bars(text: &mut String, x: u32, bars: &[ChartBar]) -> Result<(), OutOfMemory>
    ensures { OnOk result (string_bytes text.new ≡ string_bytes text.old ++ shown.bars_text x bars.now) }
{
    for bar in bars {
        push_bar_at(text, x, bar)?;
    }
    Ok(())
}

/// Adds the bars of a host, of which a misbehaving one has none.
fn push_host_bars(
    alloc: Global,
    text: &mut String,
    from: u32,
    end: u32,
    x: u32,
    moments: &[ChartMoment],
    misbehaves: bool,
    runs: bool,
) -> Result<(), OutOfMemory>
    ensures { OnOk result (string_bytes text.new ≡ string_bytes text.old
        ++ shown.host_bars from end x moments.now misbehaves runs) }
{
    if !misbehaves {
        let first = ChartThreads { runs, waits: false };
        let bars = bars_from(alloc, from, end, first, moments)?;
        push_bars(text, x, bars.as_slice())?;
    }
    Ok(())
}

/// Adds the bars of all hosts, from here to there.
pub fn push_all_bars(
    alloc: Global,
    text: &mut String,
    from: u32,
    end: u32,
    columns: &[ChartColumn],
    places: &[ChartPlace],
    rows: &[ChartRow],
    hosts: &[ChartHost],
) -> Result<(), OutOfMemory>
    ensures { OnOk result (string_bytes text.new ≡ string_bytes text.old
        ++ shown.all_bars from end columns.now (shown.moments_from places.now 0 (map chart_row_shape rows.now)) 0
        (map chart_host_shape hosts.now)) }
{
    let found = all_moments(alloc, hosts.len(), places, rows)?;
    for (number, host) in hosts.iter().enumerate() {
        let x = column_at(columns, number).middle;
        let moments = moments_at(&found, number);
        push_host_bars(
            alloc,
            text,
            from,
            end,
            x,
            moments,
            host.misbehaves,
            host.runs,
        )?;
    }
    Ok(())
}
