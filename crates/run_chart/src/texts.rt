//! Texts in a chart.

ghost use Rattle.std.specs.Prelude.{◌≡◌, ◌<◌, ◌^◌, ◌++◌, IfOk, OnOk};
ghost use Rattle.std.specs.String.{string_bytes};
ghost use Rattle.run_chart.specs.Texts as texts;

use drawing_text::{cut, letters, push_escaped};
use js_base::OutOfMemory;
use std::alloc::Global;

/// How many letters a text has.
pub fn letters_in(alloc: Global, text: &str) -> Result<usize, OutOfMemory>
    ensures { IfOk result (λ count. count ≡ texts.letters_in text.now) }
{
    let found = letters(alloc, text)?;
    Ok(found.len())
}

/// Adds a text, in which the marks of SVG are written by their names.
pub fn push_whole(alloc: Global, text: &mut String, what: &str) -> Result<(), OutOfMemory>
    ensures { OnOk result (string_bytes text.new ≡ string_bytes text.old ++ texts.whole_text what.now) }
{
    let found = letters(alloc, what)?;
    push_escaped(text, found.as_slice())
}

/// Adds a text, of which so many letters have room, two at least.
pub fn push_cut(
    alloc: Global,
    text: &mut String,
    what: &str,
    room: usize,
) -> Result<(), OutOfMemory>
    ensures { OnOk result (string_bytes text.new ≡ string_bytes text.old ++ texts.cut_text what.now room) }
{
    let found = letters(alloc, what)?;
    let kept = cut(alloc, found.as_slice(), room.max(2))?;
    push_escaped(text, kept.as_slice())
}

/// How many letters of a message have room on a way, of which so much is taken.
pub fn room_of(way: u32, less: u32) -> usize
    ensures { result ≡ texts.room_of way less }
{
    let free = way.saturating_sub(less) as u64;
    (2 * free / 13) as usize
}

/// A number that is below 2^32, as all lengths of a chart are.
pub fn small(number: u64) -> Result<u32, OutOfMemory>
    ensures { IfOk result (λ same. same ≡ number) }
{
    u32::try_from(number).ok().ok_or(OutOfMemory)
}
