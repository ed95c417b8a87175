//! The values that two runs released, as lines.

ghost use Rattle.std.specs.Prelude.{◌≡◌, ◌++◌, OnOk, length, max, option_copied, slice_get};
ghost use Rattle.std.specs.String.{string_bytes};
ghost use Rattle.run_comparison.specs.ReleaseLines.{release_line, release_lines, value_or_dash};

use js_base::OutOfMemory;
use std::fmt::Write;

/// Adds a line for each value of the run that released more.
pub fn push_release_lines(text: &mut String, one: &[i64], other: &[i64]) -> Result<(), OutOfMemory>
    ensures { OnOk result (string_bytes text.new ≡ string_bytes text.old ++ release_lines one.now other.now) }
{
    for number in 0..longer_len(one, other) {
        push_line(text, number, value_at(one, number), value_at(other, number))?;
    }
    Ok(())
}

/// The length of the longer of two lists.
fn longer_len(one: &[i64], other: &[i64]) -> usize
    ensures { result ≡ max (length one.now) (length other.now) }
{
    if one.len() < other.len() {
        other.len()
    } else {
        one.len()
    }
}

/// The value of a number, none where a run released no more.
fn value_at(values: &[i64], number: usize) -> Option<&i64>
    ensures { option_copied result ≡ slice_get values.now number }
{
    values.get(number)
}

/// Adds the line of a number, with the value of each run that released so many.
fn push_line(
    text: &mut String,
    number: usize,
    one: Option<&i64>,
    other: Option<&i64>,
) -> Result<(), OutOfMemory>
    ensures { OnOk result (string_bytes text.new ≡ string_bytes text.old
        ++ release_line number (option_copied one.entry) (option_copied other.entry)) }
{
    write!(text, "release {number} ").map_err(|_| OutOfMemory)?;
    push_value(text, one)?;
    text.push(' ')?;
    push_value(text, other)?;
    text.push('\n')?;
    Ok(())
}

/// Adds a value, or `-` where there is none.
fn push_value(text: &mut String, value: Option<&i64>) -> Result<(), OutOfMemory>
    ensures { OnOk result (string_bytes text.new
        ≡ string_bytes text.old ++ value_or_dash (option_copied value.entry)) }
{
    match value {
        Some(value) => write!(text, "{value}").map_err(|_| OutOfMemory),
        None => Ok(text.push('-')?),
    }
}
