//! Where things in a row begin.

ghost use Rattle.std.specs.Prelude.{◌≡◌, ◌<◌, ◌≤◌, ◌^◌, IfOk, length};
ghost use Rattle.drawing_text.specs.Spans.{past_all, starts_from};

use js_base::OutOfMemory;
use std::alloc::Global;

/// A thing in a row: how much is free before it, how long it is, and how much is free after it.
#[derive(Clone, Copy)]
pub struct Span {
    pub before: u16,
    pub length: u16,
    pub after: u16,
}

/// Where the things of a row begin, and what is behind the last one.
#[derive(Drop)]
pub struct Starts {
    pub starts: Vec<u64>,
    pub past: u64,
}

/// Where these begin, of which the first has room from here on.
pub fn starts_of(alloc: Global, from: u64, spans: &[Span]) -> Result<Starts, OutOfMemory>
    requires from { from < 2 ^ 32 }
    requires few { length spans.now < 2 ^ 33 }
    ensures starts { IfOk result (λ found. found.starts.items ≡ starts_from from spans.now) }
    ensures past { IfOk result (λ found. found.past ≡ past_all from spans.now) }
    ensures within { IfOk result (λ found. found.past < 2 ^ 52) }
{
    let mut starts = Vec::new(alloc);
    let mut past = from;
    for span in spans {
        starts.push(past + span.before as u64)?;
        past += span.before as u64 + span.length as u64 + span.after as u64;
    }
    Ok(Starts { starts, past })
}
