//! What is in flight at the end of a run.

ghost use Rattle.std.specs.Prelude.{◌≡◌, ◌++◌, All, IfOk, OnOk, map, slice_get};
ghost use Rattle.host_code.specs.Messages.{MessageFits};
ghost use Rattle.net_world.specs.Fits.{WorldFits};
ghost use Rattle.run_chart.specs.Sheets.{chart_flight_shape};
ghost use Rattle.run_sheet.specs.FlightsLeft.{flight_of, flights_from, flights_in_queue, flights_left};
ghost use Rattle.run_sheet.specs.RunSources.{run_source_shape};

use crate::lanes::sent_start;
use crate::source::RunSource;
use crate::strokes::message_stroke;
use host_code::{Code, Message, message_text};
use js_base::limits::HOSTS;
use js_base::{HostId, OutOfMemory};
use run_chart::ChartFlight;
use std::alloc::Global;

/// What is in flight, by senders and receivers, and by the lanes of what was sent.
pub fn flights_left(
    alloc: Global,
    source: &RunSource<'_>,
    lanes: &[u8],
) -> Result<Vec<ChartFlight>, OutOfMemory>
    requires { WorldFits source.now.code.now source.now.world.now }
    ensures { IfOk result (λ flights. map chart_flight_shape flights.items
        ≡ flights_left (run_source_shape source.now) lanes.now) }
{
    let count = source.code.hosts().len();
    prove!(count <= HOSTS);
    let mut flights = Vec::new(alloc);
    for number in 0..count {
        push_from(alloc, &mut flights, source, lanes, HostId(number as u8))?;
    }
    Ok(flights)
}

/// Adds what is in flight from a host.
fn push_from(
    alloc: Global,
    flights: &mut Vec<ChartFlight>,
    source: &RunSource<'_>,
    lanes: &[u8],
    from: HostId,
) -> Result<(), OutOfMemory>
    requires { WorldFits source.now.code.now source.now.world.now }
    ensures { OnOk result (map chart_flight_shape flights.new.items
        ≡ map chart_flight_shape flights.old.items ++ flights_from (run_source_shape source.now) lanes.now from) }
{
    let count = source.code.hosts().len();
    prove!(count <= HOSTS);
    for number in 0..count {
        let to = HostId(number as u8);
        let queue = source.world.flying(from, to);
        let numbers = source.senders.flying(from, to);
        push_queue(
            alloc,
            flights,
            source.code,
            lanes,
            (from, to),
            numbers,
            queue,
        )?;
    }
    Ok(())
}

/// Adds the messages in flight from the first host of a pair to the second, which these events sent.
fn push_queue(
    alloc: Global,
    flights: &mut Vec<ChartFlight>,
    code: &Code,
    lanes: &[u8],
    pair: (HostId, HostId),
    numbers: &[u64],
    queue: &[Message],
) -> Result<(), OutOfMemory>
    requires { All (MessageFits code.now) queue.now }
    ensures { OnOk result (map chart_flight_shape flights.new.items
        ≡ map chart_flight_shape flights.old.items
        ++ flights_in_queue code.now lanes.now pair.0 pair.1 numbers.now 0 queue.now) }
{
    for (place, message) in queue.iter().enumerate() {
        let sent_by = event_at(numbers, place);
        flights.push(flight_of(alloc, code, lanes, pair, sent_by, message)?)?;
    }
    Ok(())
}

/// The event that sent the message at a place of a queue, beside which these stand.
fn event_at(numbers: &[u64], place: usize) -> Option<u64>
    ensures { result ≡ slice_get numbers.now place }
{
    numbers.get(place).copied()
}

/// A message in flight from the first host of a pair to the second, which an event sent.
fn flight_of(
    alloc: Global,
    code: &Code,
    lanes: &[u8],
    pair: (HostId, HostId),
    sent_by: Option<u64>,
    message: &Message,
) -> Result<ChartFlight, OutOfMemory>
    requires { MessageFits code.now message.now }
    ensures { IfOk result (λ found. chart_flight_shape found
        ≡ flight_of code.now lanes.now pair.0 pair.1 sent_by message.now) }
{
    let text = message_text(alloc, code, message)?;
    Ok(ChartFlight {
        from: pair.0,
        to: pair.1,
        stroke: message_stroke(message),
        start: sent_start(lanes, sent_by),
        text,
    })
}
