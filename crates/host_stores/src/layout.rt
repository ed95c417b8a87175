//! Rows of elements in one vector, with a table of offsets.

ghost use Rattle.std.specs.Prelude.{◌≡◌, ◌≤◌, ◌+◌, ◌∷◌, ◌++◌, [], OnOk, IfSome, IfNone, pos, length};
ghost use Rattle.jif_tree.specs.Store.{row_of, store_after_write};
ghost use Rattle.host_stores.specs.Layout.{rows_at, AreOffsets, IsRow};

use js_base::{FieldId, OutOfMemory};

/// Where the row of a field begins and ends, where there is such a field.
fn bounds_of(elements: &[i64], offsets: &[usize], field: FieldId) -> Option<(usize, usize)>
    requires { AreOffsets elements.now offsets.now }
    ensures there { IfSome result (λ bounds. IsRow elements.now offsets.now field.0 bounds.0 bounds.1) }
    ensures none { IfNone result (length offsets.now ≤ field.0 + 1) }
{
    let place = field.0 as usize;
    if place + 1 >= offsets.len() {
        return None;
    }
    Some((offsets[place], offsets[place + 1]))
}

/// The row of a field, empty where there is no such field.
pub fn row_in<'a>(elements: &'a [i64], offsets: &[usize], field: FieldId) -> &'a [i64]
    requires { AreOffsets elements.now offsets.now }
    ensures { result.now ≡ row_of (rows_at elements.now offsets.now) field.0 }
{
    match bounds_of(elements, offsets, field) {
        Some((start, end)) => &elements[start..end],
        None => &[],
    }
}

/// Writes the element of a field at an index. Where there is none nothing changes.
pub fn set_in(elements: &mut [i64], offsets: &[usize], field: FieldId, index: usize, value: i64)
    requires { AreOffsets elements.old offsets.now }
    ensures offsets { AreOffsets elements.new offsets.now }
    ensures rows { rows_at elements.new offsets.now
        ≡ store_after_write (rows_at elements.old offsets.now) field.0 (pos index) value }
{
    let Some((start, end)) = bounds_of(elements, offsets, field) else {
        return;
    };
    if index < end - start {
        elements[start + index] = value;
    }
}

/// Adds a row behind the others.
pub fn add_row(
    elements: &mut Vec<i64>,
    offsets: &mut Vec<usize>,
    row: &[i64],
) -> Result<(), OutOfMemory>
    requires { AreOffsets elements.old.items offsets.old.items }
    ensures offsets { OnOk result (AreOffsets elements.new.items offsets.new.items) }
    ensures rows { OnOk result (rows_at elements.new.items offsets.new.items
        ≡ rows_at elements.old.items offsets.old.items ++ row.now ∷ []) }
{
    elements.extend_from_slice(row)?;
    offsets.push(elements.len())?;
    Ok(())
}
