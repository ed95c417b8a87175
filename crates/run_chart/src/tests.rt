//! A chart of one host with one turn.

use crate::style::CHART_STYLE;
use crate::{ChartEvent, ChartField, ChartHost, ChartNote, ChartRow, ChartSheet, Mark, push_chart};
use js_base::HostId;
use std::alloc::Global;
use std::test::Fail;

/// What is before the style.
const BEFORE: &str =
    "<svg xmlns='http://www.w3.org/2000/svg' width='480' height='286' viewBox='0 0 480 286'>\n\
    <title>A run of the hosts</title>\n";

/// What is behind it.
const BEHIND: &str = "<rect class='ground' width='480' height='286'/>\n\
    <text class='t p' x='20' y='28'>A run of the hosts</text>\
    <text class='d p' x='20' y='46'>1 events, the program has halted</text>\n\
    <g class='push'><text class='s push' x='20' y='70'>+e -e</text></g>\
    <text class='d p' x='64' y='70'>pushed on the control stack, taken off</text>\n\
    <g class='bar'><rect class='run' x='26' y='79' width='6' height='14'/>\
    <rect class='wait' x='40' y='80' width='5' height='13'/></g>\
    <text class='d p' x='64' y='90'>a thread runs; waits for an answer</text>\n\
    <path class='life' d='M157 156V224'/>\n\
    <rect class='run' x='154' y='164' width='6' height='30'/>\n\
    <text class='s push' x='133' y='174' text-anchor='end'>+e0</text>\n\
    <text class='s d' x='41' y='198' text-anchor='end'>1</text><text class='s' x='181' y='198'>store a</text>\
    <g><title>control stack of A: empty</title><text class='s push' x='133' y='198' text-anchor='end'>-e0</text></g>\
    <g class='halt'><title>A has halted</title><path d='M145 201h24M145 206h24'/></g>\
    <g><title>statement 0 line 2: a = 1 &lt; 2;</title><text class='s d' x='317' y='198'>2: a = 1 &lt; 2;</text></g>\n\
    <svg class='host' x='55' y='112' width='204' height='44'><title>host A {Alice: Alice}</title>\
    <rect x='.5' y='.5' width='203' height='43' rx='4'/><text class='b' x='8' y='18'>A</text>\
    <text class='s d' x='8' y='35'>{Alice: Alice}</text></svg>\n\
    <svg class='kept' x='55' y='224' width='204' height='30'><title>a = 1</title>\
    <rect x='1' y='1' width='202' height='28' rx='4'/><text class='b' x='8' y='19'>a = 1</text></svg>\n\
    </svg>\n";

/// A text of its own.
fn text(alloc: Global, what: &str) -> Result<String, Fail> {
    Ok(String::from_str(alloc, what)?)
}

/// A turn in which the program halts.
fn turn(alloc: Global) -> Result<ChartRow, Fail> {
    Ok(ChartRow {
        line: 1,
        event: ChartEvent::Turn(HostId(0)),
        text: text(alloc, "store a")?,
        note: Some(ChartNote {
            text: text(alloc, "2: a = 1 < 2;")?,
            tip: text(alloc, "statement 0 line 2: a = 1 < 2;")?,
        }),
        ignored: None,
        told: None,
        stack: Some(ChartNote {
            text: text(alloc, "-e0")?,
            tip: text(alloc, "control stack of A: empty")?,
        }),
        halts: true,
        runs: false,
        waits: false,
    })
}

/// A host with a field.
fn host(alloc: Global) -> Result<ChartHost, Fail> {
    let mut fields = Vec::new(alloc);
    fields.push(ChartField {
        text: text(alloc, "a = 1")?,
        mark: Mark::Plain,
        who: String::new(alloc),
    })?;
    Ok(ChartHost {
        name: text(alloc, "A")?,
        label: text(alloc, "{Alice: Alice}")?,
        misbehaves: false,
        runs: true,
        fields,
    })
}

/// A run of this host with this turn.
fn run(alloc: Global) -> Result<ChartSheet, Fail> {
    let mut hosts = Vec::new(alloc);
    hosts.push(host(alloc)?)?;
    let mut rows = Vec::new(alloc);
    rows.push(turn(alloc)?)?;
    Ok(ChartSheet {
        hosts,
        root: HostId(0),
        rows,
        flights: Vec::new(alloc),
        halted: true,
    })
}

/// The chart of this run.
fn chart(alloc: Global) -> Result<String, Fail> {
    let mut drawn = String::new(alloc);
    let Ok(()) = push_chart(alloc, &mut drawn, &run(alloc)?) else {
        return Err(Fail::from("no memory"));
    };
    Ok(drawn)
}

/// What the chart has to be.
fn due(alloc: Global) -> Result<String, Fail> {
    let mut all = text(alloc, BEFORE)?;
    all.push_str(CHART_STYLE)?;
    all.push_str(BEHIND)?;
    Ok(all)
}

#[test]
fn one_turn_is_drawn(rt: HostRuntime) -> Result<(), Fail> {
    let alloc = rt.alloc();
    let drawn = chart(alloc)?;
    assert_eq!(rt; drawn.as_str(), due(alloc)?.as_str());
    Ok(())
}
