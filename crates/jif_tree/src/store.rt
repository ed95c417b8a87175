//! Stores: the elements of fields.

ghost use Rattle.std.specs.Prelude.{◌≡◌, length, replicate, IfOk, [], List};
ghost use Rattle.jif_tree.specs.Store.{starting_values, starting_row, element_at, with_element, store_after_write};

use crate::program::{Field, Program};
use js_base::{FieldId, OutOfMemory};
use std::alloc::Global;
use std::marker::Model;

/// The elements of a field. An element that is read out of range is 0, and a write out of range does nothing.
#[derive(Drop)]
pub struct Row {
    elements: Vec<i64>,
}

impl Model for Row {
    ghost use Rattle.std.specs.Prelude.{List, ℤ};

    ghost Value = { List ℤ };

    ghost view = { λ r. r.elements.items };
}

impl Row {
    /// The row that a field starts with.
    pub fn starting(alloc: Global, field: &Field) -> Result<Row, OutOfMemory>
        ensures { IfOk result (λ row. row ≡ starting_row field.now) }
    {
        Row::filled(alloc, field.first, field.size as usize)
    }

    /// A row of so many elements, each of which is the value.
    pub fn filled(alloc: Global, value: i64, count: usize) -> Result<Row, OutOfMemory>
        ensures { IfOk result (λ row. row ≡ replicate count value) }
    {
        let elements = vec![in alloc; value; count]?;
        Ok(Row { elements })
    }

    /// A row of no elements.
    pub fn empty(alloc: Global) -> Row
        ensures { result ≡ [] }
    {
        Row {
            elements: Vec::new(alloc),
        }
    }

    /// A row of the same elements.
    pub fn copied(&self, alloc: Global) -> Result<Row, OutOfMemory>
        ensures { IfOk result (λ row. row ≡ self.now) }
    {
        let elements = Vec::from_slice(alloc, &self.elements)?;
        Ok(Row { elements })
    }

    /// The elements in order.
    pub fn elements(&self) -> &[i64]
        ensures { result.now ≡ self.now }
    {
        &self.elements
    }

    /// The element at an index.
    pub fn element(&self, index: i64) -> i64
        ensures { result ≡ element_at self.now index }
    {
        match usize::try_from(index) {
            Ok(index) => self.elements.get(index).copied().unwrap_or(0),
            Err(_) => 0,
        }
    }

    /// Writes the element at an index.
    pub fn set_element(&mut self, index: i64, value: i64)
        ensures { self.new ≡ with_element self.old index value }
    {
        if let Ok(index) = usize::try_from(index)
            && index < self.elements.len()
        {
            self.elements[index] = value;
        }
    }
}

/// A number for each element of each field: a row a field, in order. A plain field has a row of one element.
#[derive(Drop)]
pub struct Store {
    rows: Vec<Row>,
}

impl Model for Store {
    ghost use Rattle.std.specs.Prelude.{List, ℤ};

    ghost Value = { List (List ℤ) };

    ghost view = { λ s. s.rows.items };
}

impl Store {
    /// The store of the values that the program's text gives.
    pub fn starting(alloc: Global, program: &Program) -> Result<Store, OutOfMemory>
        ensures { IfOk result (λ store. store ≡ starting_values program.now) }
    {
        let mut rows = Vec::new(alloc);
        for field in &program.fields {
            let row = Row::starting(alloc, field)?;
            rows.push(row)?;
        }
        Ok(Store { rows })
    }

    /// The store of these rows, one for each field in order.
    pub fn of_rows(rows: Vec<Row>) -> Store
        ensures { result ≡ rows.items }
    {
        Store { rows }
    }

    /// Writes the element of a field at an index. Where there is no such field or the index is out of range nothing
    /// changes.
    pub fn set_element(&mut self, field: FieldId, index: i64, value: i64)
        ensures { self.new ≡ store_after_write self.old field.0 index value }
    {
        let place = field.0 as usize;
        if place < self.rows.len() {
            self.rows[place].set_element(index, value);
        }
    }

    /// The rows in the order of the fields.
    pub fn rows(&self) -> &[Row]
        ensures { result.now ≡ self.now }
    {
        &self.rows
    }
}
