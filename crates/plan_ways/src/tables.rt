//! Tables by number.

ghost use Rattle.std.specs.Prelude.{◌≡◌, slice_set};
ghost use Rattle.plan_ways.specs.Tables.{noted};

/// Writes a value at a place of a table, where there is one.
pub fn write<T: Copy>(table: &mut [T], place: usize, value: T)
    ensures { table.new ≡ slice_set table.old place value }
{
    if place < table.len() {
        table[place] = value;
    }
}

/// Notes a value at a place of a table that has none.
pub fn note<T: Copy>(table: &mut [Option<T>], place: usize, value: T)
    ensures { table.new ≡ noted table.old place value }
{
    if let Some(None) = table.get(place) {
        table[place] = Some(value);
    }
}
