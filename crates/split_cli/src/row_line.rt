//! The elements of a field, and its line.

ghost use Rattle.std.specs.Prelude.{◌≡◌, ◌∷◌, ◌++◌, OnOk};
ghost use Rattle.std.specs.Fmt.{signed_decimal};
ghost use Rattle.std.specs.List.{flat_map};
ghost use Rattle.std.specs.String.{string_bytes};
ghost use Rattle.split_cli.specs.Report.{row_line, row_text};
ghost use Rattle.front_end.specs.Text.{line_text};

use js_base::OutOfMemory;
use std::fmt::Write;

/// Adds the line of a field of this name and these elements.
pub fn push_row_line(text: &mut String, name: &str, row: &[i64]) -> Result<(), OutOfMemory>
    ensures { OnOk result (string_bytes text.new ≡ string_bytes text.old ++ line_text (row_line name.now row.now)) }
{
    write!(text, "field {name} = ").map_err(|_| OutOfMemory)?;
    push_row(text, row)?;
    text.push('\n')?;
    Ok(())
}

/// Adds elements, parted by spaces.
#[tactic(auto, using(crate::proofs::ReportLines::join_with_byte_cons))]
pub fn push_row(text: &mut String, row: &[i64]) -> Result<(), OutOfMemory>
    ensures { OnOk result (string_bytes text.new ≡ string_bytes text.old ++ row_text row.now) }
{
    let Some((first, rest)) = row.split_first() else {
        return Ok(());
    };
    write!(text, "{first}").map_err(|_| OutOfMemory)?;
    push_rest(text, rest)
}

/// Adds the elements after the first, each after a space.
fn push_rest(text: &mut String, rest: &[i64]) -> Result<(), OutOfMemory>
    ensures { OnOk result (
        string_bytes text.new ≡ string_bytes text.old
        ++ flat_map (λ element. 32 ∷ signed_decimal element) rest.now) }
{
    for element in rest {
        write!(text, " {element}").map_err(|_| OutOfMemory)?;
    }
    Ok(())
}
