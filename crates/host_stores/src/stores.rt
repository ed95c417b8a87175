//! The fields and variables of a host.

ghost use Rattle.std.specs.Prelude.{◌≡◌, ◌<◌, ◌≤◌, ◌+◌, ◌||◌, [], IfOk, OnOk, flat_map, pos};
ghost use Rattle.js_base.specs.declared.ids.FrameId.{FrameId};
ghost use Rattle.js_base.specs.declared.ids.VarId.{VarId};
ghost use Rattle.jif_tree.specs.Store.{row_of, element_at, store_after_write};
ghost use Rattle.host_stores.specs.Order.{AreInOrder};
ghost use Rattle.host_stores.specs.Stores.{own_rows, with_variable, is_same_variable, is_set};

use crate::rows::Rows;
use crate::variables::{VarCell, set_in, value_in};
use host_code::Code;
use jif_tree::Store;
use js_base::{FieldId, FrameId, HostId, OutOfMemory, VarId};
use std::alloc::Global;
use std::marker::Model;

/// The elements of a host's fields, and the variables of frames.
#[derive(Drop)]
pub struct Stores {
    rows: Rows,
    /// The variables that were set, in order.
    cells: Vec<VarCell>,
}

impl Model for Stores {
    ghost use Rattle.std.specs.Prelude.{◌-◌};
    ghost use Rattle.std.specs.Vec.{vec_len, vec_capacity};
    ghost use Rattle.host_stores.specs.Order.{AreInOrder};
    ghost use Rattle.host_stores.specs.Stores.{StoresShape};

    ghost Value = { StoresShape };

    ghost view = { λ s. record {
      rows = s.rows;
      cells = s.cells.items;
      spare = vec_capacity s.cells - vec_len s.cells;
    } };

    ghost invariant = { λ s. AreInOrder s.cells.items };
}

impl Stores {
    ghost use Rattle.host_stores.specs.Stores.{variable_of};

    /// What host `me` keeps at first: the elements of its fields have the values of the store, and no variable is set.
    pub fn new(alloc: Global, code: &Code, me: HostId, store: &Store) -> Result<Stores, OutOfMemory>
        ensures rows { IfOk result (λ stores. stores.rows ≡ own_rows me store.now 0 code.now.fields) }
        ensures variables { IfOk result (λ stores. (frame : FrameId) (var : VarId) →
            variable_of stores frame var ≡ pos 0) }
        ensures unset { IfOk result (λ stores. stores.cells ≡ []) }
    {
        let rows = Rows::new(alloc, code, me, store)?;
        let cells = Vec::new(alloc);
        Ok(Stores { rows, cells })
    }

    /// The element of a field at an index, 0 where the field is on another host or the index is out of range.
    pub fn field(&self, field: FieldId, index: i64) -> i64
        ensures { result ≡ element_at (row_of self.now.rows field.0) index }
    {
        self.rows.element(field, index)
    }

    /// Writes the element of a field at an index. Where the field is on another host or the index is out of range
    /// nothing changes.
    pub fn set_field(&mut self, field: FieldId, index: i64, value: i64)
        ensures rows { self.new.rows ≡ store_after_write self.old.rows field.0 index value }
        ensures cells { self.new.cells ≡ self.old.cells }
        ensures spare { self.new.spare ≡ self.old.spare }
    {
        self.rows.set_element(field, index, value);
    }

    /// The value of a variable of a frame, 0 where none was set.
    pub fn var(&self, frame: FrameId, var: VarId) -> i64
        ensures { result ≡ variable_of self.now frame var }
    {
        value_in(&self.cells, frame, var)
    }

    /// Makes room for so many more variables, and changes nothing else, also after an error.
    pub fn reserve_vars(&mut self, count: usize) -> Result<(), OutOfMemory>
        ensures room { OnOk result (count ≤ self.new.spare) }
        ensures no_less { self.old.spare ≤ self.new.spare }
        ensures same { self.new ≡ record self.old { spare = self.new.spare } }
    {
        self.cells.reserve(count)?;
        Ok(())
    }

    /// Sets a variable of a frame. There has to be room for one more.
    pub fn set_var(&mut self, frame: FrameId, var: VarId, value: i64)
        requires { 0 < self.old.spare }
        ensures variables { (other : FrameId) (another : VarId) →
            variable_of self.new other another
            ≡ with_variable (variable_of self.old) frame var value other another }
        ensures set { (other : FrameId) (another : VarId) → is_set self.new.cells other another
            ≡ (is_same_variable frame var other another || is_set self.old.cells other another) }
        ensures rows { self.new.rows ≡ self.old.rows }
        ensures spare { self.old.spare ≤ self.new.spare + 1 }
    {
        set_in(&mut self.cells, frame, var, value);
    }

    /// The elements of all fields of the host, in the order of fields and then of elements.
    pub fn elements(&self) -> &[i64]
        ensures { result.now ≡ flat_map (λ row. row) self.now.rows }
    {
        self.rows.elements()
    }

    /// The variables that were set, each once with its value, by the sites of their frames, then by the counts of
    /// these, then by the variables.
    pub fn cells(&self) -> &[VarCell]
        ensures cells { result.now ≡ self.now.cells }
        ensures order { AreInOrder result.now }
    {
        &self.cells
    }
}
