//! Frames: the variables of the calls that have something left to do.

ghost use Rattle.std.specs.Prelude.{◌≡◌, ◌≢◌, ◌+◌, ◌<◌, ℕ, IfOk, OnOk, MatchOption, None};
ghost use Rattle.js_base.specs.declared.ids.VarId.{VarId};
ghost use Rattle.source_run.specs.Cells.{value_in, with_cell};
ghost use Rattle.source_run.specs.Windows.{blank_cells};

use crate::cells::{Cell, set_in, value_in};
use crate::windows::Window;
use js_base::{OutOfMemory, VarId};
use std::alloc::Global;
use std::marker::Model;

/// Where a `return` leaves its value: a variable of a frame.
#[derive(Clone, Copy)]
pub struct Target {
    pub frame: usize,
    pub var: VarId,
}

/// The variables of a call, and where its method's result goes: nowhere where the method has none, or where the frame
/// of its caller was given back.
#[derive(Drop)]
pub struct Frame {
    /// The number of the first variable that has a fixed place.
    first: usize,
    /// The values of the variables that have a fixed place.
    own: Vec<i64>,
    /// All other variables that were set, as the results of methods that were called.
    others: Vec<Cell>,
    returns: Option<Target>,
}

impl Model for Frame {
    ghost use Rattle.std.specs.Prelude.{◌++◌};
    ghost use Rattle.source_run.specs.Windows.{own_cells};
    ghost use Rattle.source_run.specs.Frames.{FrameShape};

    ghost Value = { FrameShape };

    ghost view = { λ f. record {
      cells = own_cells f.first f.own.items ++ f.others.items;
      returns = f.returns;
    } };
}

/// The variables of a frame, to be read.
#[derive(Clone, Copy)]
pub struct Variables<'a> {
    first: usize,
    own: &'a [i64],
    others: &'a [Cell],
}

impl Frame {
    ghost use Rattle.source_run.specs.Frames.{FrameShape, cells_at, returns_at, with_variable};
    ghost use Rattle.source_run.specs.Variables.{cells_read};

    /// A frame in which nothing was set.
    pub fn blank(alloc: Global, window: Window) -> Result<Frame, OutOfMemory>
        ensures cells { IfOk result (λ frame. frame.cells ≡ blank_cells window) }
        ensures returns { IfOk result (λ frame. frame.returns ≡ None) }
    {
        let own = vec![in alloc; 0; window.count]?;
        Ok(Frame {
            first: window.first,
            own,
            others: Vec::new(alloc),
            returns: None,
        })
    }

    /// The frame of a call whose method leaves its result there.
    pub fn returning(self, returns: Option<Target>) -> Frame
        ensures { result ≡ record { cells = self.cells; returns = returns } }
    {
        Frame {
            first: self.first,
            own: self.own,
            others: self.others,
            returns,
        }
    }

    /// Sets a variable.
    pub fn set(&mut self, var: VarId, value: i64) -> Result<(), OutOfMemory>
        ensures { OnOk result (self.new ≡ record self.old { cells = with_cell self.old.cells var value }) }
    {
        match place_of(self.first, self.own.len(), var) {
            Some(place) => self.own[place] = value,
            None => set_in(&mut self.others, var, value)?,
        }
        Ok(())
    }

    /// The variables of a frame, none where it is not there.
    pub fn variables(frames: &[Frame], frame: usize) -> Variables<'_>
        ensures { cells_read result ≡ cells_at frames.now frame }
    {
        match frames.get(frame) {
            Some(found) => Variables {
                first: found.first,
                own: &found.own,
                others: &found.others,
            },
            None => Variables {
                first: 0,
                own: &[],
                others: &[],
            },
        }
    }

    /// Where the result of a frame's method goes.
    pub fn returns_at(frames: &[Frame], frame: usize) -> Option<Target>
        ensures { result ≡ returns_at frames.now frame }
    {
        match frames.get(frame) {
            Some(found) => found.returns,
            None => None,
        }
    }

    /// Sets a variable of a frame. Nothing changes where the frame is not there.
    pub fn set_at(
        frames: &mut Vec<Frame>,
        frame: usize,
        var: VarId,
        value: i64,
    ) -> Result<(), OutOfMemory>
        ensures { OnOk result (frames.new.items ≡ with_variable frames.old.items frame var value) }
    {
        if frame < frames.len() {
            frames[frame].set(var, value)?;
        }
        Ok(())
    }
}

impl Variables<'_> {
    ghost use Rattle.source_run.specs.Variables.{cells_read};

    /// The value of a variable, 0 where none was set.
    pub fn value(&self, var: VarId) -> i64
        ensures { result ≡ value_in (cells_read self.now) var.0 }
    {
        match place_of(self.first, self.own.len(), var) {
            Some(place) => self.own[place],
            None => value_in(self.others, var),
        }
    }
}

/// The place of a variable among so many that follow one another.
fn place_of(first: usize, count: usize, var: VarId) -> Option<usize>
    ensures { MatchOption result ((k : ℕ) → k < count → first + k ≢ var.0)
        (λ place. (place < count) × (first + place ≡ var.0)) }
{
    match (var.0 as usize).checked_sub(first) {
        Some(place) if place < count => Some(place),
        _ => None,
    }
}
