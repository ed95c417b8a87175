//! The rows of a chart.

ghost use Rattle.std.specs.Prelude.{◌≡◌, All, IfOk, OnOk, map};
ghost use Rattle.run_chart.specs.Sheets.{chart_row_shape};
ghost use Rattle.host_code.specs.Messages.{MessageFits};
ghost use Rattle.net_world.specs.Fits.{WorldFits};
ghost use Rattle.run_rows.specs.Rows.{WhatFits};
ghost use Rattle.run_sheet.specs.ChartRows.{chart_event, chart_row, chart_rows, first_tracks, track_at, track_behind};
ghost use Rattle.run_sheet.specs.ChartRows.{track_shape, track_shapes, tracks_behind};
ghost use Rattle.run_sheet.specs.RunEvents.{host_moved};
ghost use Rattle.run_sheet.specs.RunSources.{SourceFits, run_source_shape};

use crate::events::{event_text, host_moved, ignored_text, told_text};
use crate::lanes::sent_start;
use crate::source::RunSource;
use crate::stacks::stack_note;
use crate::statements::turn_note;
use crate::strokes::message_stroke;
use crate::tracks::{HostTrack, first_tracks, go_on, no_track, stepped_in};
use js_base::OutOfMemory;
use run_chart::{ChartEvent, ChartRow};
use run_rows::{Row, What};
use std::alloc::Global;

/// The rows of all events, by the lanes of what is sent in them.
pub fn chart_rows(
    alloc: Global,
    source: &RunSource<'_>,
    lanes: &[u8],
) -> Result<Vec<ChartRow>, OutOfMemory>
    requires { SourceFits source.now }
    ensures { IfOk result (λ rows. map chart_row_shape rows.items
        ≡ chart_rows (run_source_shape source.now) lanes.now (first_tracks source.now.code.now)
        source.now.rows.now) }
{
    let mut tracks = first_tracks(alloc, source.code)?;
    let mut rows = Vec::new(alloc);
    for row in source.rows {
        let made = next_row(alloc, source, lanes, &mut tracks, row)?;
        rows.push(made)?;
    }
    Ok(rows)
}

/// The row of an event, which is followed of its host.
fn next_row(
    alloc: Global,
    source: &RunSource<'_>,
    lanes: &[u8],
    tracks: &mut Vec<HostTrack>,
    row: &Row,
) -> Result<ChartRow, OutOfMemory>
    requires world { WorldFits source.now.code.now source.now.world.now }
    requires row { WhatFits source.now.code.now row.now.what }
    ensures row { IfOk result (λ found. chart_row_shape found
        ≡ chart_row (run_source_shape source.now) lanes.now
        (track_at (track_shapes tracks.old.items) (host_moved row.now.what)) row.now) }
    ensures tracks { OnOk result (track_shapes tracks.new.items
        ≡ tracks_behind source.now.code.now (track_shapes tracks.old.items) row.now) }
{
    let place = host_moved(&row.what).0 as usize;
    if place < tracks.len() {
        let track = &mut tracks[place];
        return host_row(alloc, source, lanes, track, row);
    }
    let mut track = no_track(alloc);
    host_row(alloc, source, lanes, &mut track, row)
}

/// The row of an event, by what is followed of its host.
fn host_row(
    alloc: Global,
    source: &RunSource<'_>,
    lanes: &[u8],
    track: &mut HostTrack,
    row: &Row,
) -> Result<ChartRow, OutOfMemory>
    requires world { WorldFits source.now.code.now source.now.world.now }
    requires row { WhatFits source.now.code.now row.now.what }
    ensures row { IfOk result (λ found. chart_row_shape found
        ≡ chart_row (run_source_shape source.now) lanes.now (track_shape track.old) row.now) }
    ensures track { OnOk result (track_shape track.new
        ≡ track_behind source.now.code.now (track_shape track.old) row.now) }
{
    let code = source.code;
    let stepped = stepped_in(code, &row.what);
    let note = turn_note(alloc, source.texts, source.lines, track.stepped, stepped)?;
    go_on(code, track, row)?;
    let text = event_text(alloc, code, &row.what)?;
    let ignored = ignored_text(alloc, code, &row.what, row.ignored)?;
    let told = told_text(alloc, code, source.world.sent(), row.told)?;
    let host = host_moved(&row.what);
    let stack = stack_note(alloc, code, host, &track.stack, row.change)?;
    Ok(ChartRow {
        line: row.line,
        event: chart_event(lanes, row),
        text,
        note,
        ignored,
        told,
        stack,
        halts: row.halts,
        runs: row.runs,
        waits: row.waits,
    })
}

/// What an event was.
fn chart_event(lanes: &[u8], row: &Row) -> ChartEvent
    ensures { result ≡ chart_event lanes.now row.now row.now.what }
{
    match &row.what {
        What::Turn(host, _) => ChartEvent::Turn(*host),
        What::Take(from, to, message) => {
            let start = sent_start(lanes, row.sent_by);
            ChartEvent::Take(*from, *to, message_stroke(message), start)
        }
        What::Act(from, to, _) => ChartEvent::Act(*from, *to),
    }
}
