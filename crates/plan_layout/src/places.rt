//! Where columns and rows begin.

ghost use Rattle.std.specs.Prelude.{◌≡◌, ◌<◌, ◌^◌, IfOk, length};
ghost use Rattle.drawing_text.specs.Spans.{past_all, starts_from};

use drawing_text::{Span, starts_of};
use js_base::OutOfMemory;
use std::alloc::Global;
use std::marker::Model;

/// Where things in a row begin, and what is behind the last one, in pixels.
#[derive(Drop)]
pub struct Places {
    starts: Vec<u64>,
    past: u64,
}

impl Model for Places {
    ghost use Rattle.std.specs.Prelude.{◌<◌, ◌^◌, All};
    ghost use Rattle.plan_layout.specs.Places.{PlacesShape};

    ghost Value = { PlacesShape };

    ghost view = { λ p. record { starts = p.starts.items; past = p.past } };

    ghost invariant = { λ p. All (λ start. start < 2 ^ 52) p.starts.items × (p.past < 2 ^ 52) };
}

impl Places {
    ghost use Rattle.std.specs.Prelude.{◌≡◌, ◌<◌, ◌^◌, slice_index};

    /// Where the thing of a number begins.
    pub fn start(&self, number: usize) -> u64
        ensures value { result ≡ slice_index self.now.starts number }
        ensures within { result < 2 ^ 52 }
    {
        match self.starts.get(number) {
            Some(start) => *start,
            None => 0,
        }
    }

    /// What is behind the last one.
    pub fn past(&self) -> u64
        ensures value { result ≡ self.now.past }
        ensures within { result < 2 ^ 52 }
    {
        self.past
    }
}

/// Where these begin, of which the first has room from here on.
pub fn places_of(alloc: Global, from: u64, spans: &[Span]) -> Result<Places, OutOfMemory>
    requires from { from < 2 ^ 32 }
    requires few { length spans.now < 2 ^ 33 }
    ensures { IfOk result (λ places. places ≡ record {
      starts = starts_from from spans.now;
      past = past_all from spans.now;
    }) }
{
    let found = starts_of(alloc, from, spans)?;
    Ok(Places {
        starts: found.starts,
        past: found.past,
    })
}
