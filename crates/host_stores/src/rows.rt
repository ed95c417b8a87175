//! The elements of a host's fields: one row behind another in one vector, with a table of offsets.

ghost use Rattle.std.specs.Prelude.{◌≡◌, IfOk, flat_map};
ghost use Rattle.jif_tree.specs.Store.{row_of, element_at, store_after_write};
ghost use Rattle.host_stores.specs.Stores.{own_row, own_rows};

use crate::layout::{add_row, row_in, set_in};
use host_code::{Code, CodeField};
use jif_tree::{Row, Store};
use js_base::{FieldId, HostId, OutOfMemory};
use std::alloc::Global;
use std::marker::Model;

/// A row of elements for each field of the code, empty where the field is on another host.
#[derive(Drop)]
pub struct Rows {
    /// The elements of all rows.
    elements: Vec<i64>,
    /// Where each row begins, and then where the last one ends.
    offsets: Vec<usize>,
}

impl Model for Rows {
    ghost use Rattle.std.specs.Prelude.{List, ℤ};
    ghost use Rattle.host_stores.specs.Layout.{rows_at, AreOffsets};

    ghost Value = { List (List ℤ) };

    ghost view = { λ r. rows_at r.elements.items r.offsets.items };

    ghost invariant = { λ r. AreOffsets r.elements.items r.offsets.items };
}

impl Rows {
    /// The rows that host `me` has of a store.
    pub fn new(alloc: Global, code: &Code, me: HostId, store: &Store) -> Result<Rows, OutOfMemory>
        ensures { IfOk result (λ rows. rows ≡ own_rows me store.now 0 code.now.fields) }
    {
        let mut elements = Vec::new(alloc);
        let mut offsets = vec![in alloc; 0]?;
        for (number, field) in code.fields().iter().enumerate() {
            let row = own_row(me, store.rows(), number, field);
            add_row(&mut elements, &mut offsets, row)?;
        }
        Ok(Rows { elements, offsets })
    }

    /// The elements of all rows.
    pub fn elements(&self) -> &[i64]
        ensures { result.now ≡ flat_map (λ row. row) self.now }
    {
        &self.elements
    }

    /// The element of a field at an index, 0 where there is none.
    pub fn element(&self, field: FieldId, index: i64) -> i64
        ensures { result ≡ element_at (row_of self.now field.0) index }
    {
        match usize::try_from(index) {
            Ok(index) => {
                let row = row_in(&self.elements, &self.offsets, field);
                row.get(index).copied().unwrap_or(0)
            }
            Err(_) => 0,
        }
    }

    /// Writes the element of a field at an index. Where there is none nothing changes.
    pub fn set_element(&mut self, field: FieldId, index: i64, value: i64)
        ensures { self.new ≡ store_after_write self.old field.0 index value }
    {
        let Ok(index) = usize::try_from(index) else {
            return;
        };
        set_in(&mut self.elements, &self.offsets, field, index, value);
    }
}

/// The row that host `me` has for a field of this number.
fn own_row<'a>(me: HostId, store: &'a [Row], number: usize, field: &CodeField) -> &'a [i64]
    ensures { result.now ≡ own_row me store.now number field.now }
{
    if field.host().0 != me.0 {
        return &[];
    }
    match store.get(number) {
        Some(row) => row.elements(),
        None => &[],
    }
}
