//! The machine that runs a program: what is left to do, and the frames of the calls that have something left to do.

ghost use Rattle.std.specs.Prelude.{◌≡◌, ◌↔◌, if◌then◌else◌, IfOk, IsTrue, OnOk, OnErr, List, ℕ, ℤ, [], ◌∷◌};
ghost use Rattle.js_base.specs.declared.ids.VarId.{VarId};
ghost use Rattle.jif_tree.specs.declared.program.Expr.{Expr};
ghost use Rattle.jif_tree.specs.Operators.{is_true};
ghost use Rattle.jif_tree.specs.SourceRun.{method_at, params_of};
ghost use Rattle.jif_tree.specs.Store.{store_after_write};
ghost use Rattle.source_run.specs.Cells.{value_in};
ghost use Rattle.source_run.specs.Values.{value_with};
ghost use Rattle.source_run.specs.Frames.{cells_at, with_variable, returns_at};
ghost use Rattle.source_run.specs.Machine.{tasks_of, frames_after_return, with_block, run_all};
ghost use Rattle.source_run.specs.Windows.{with_cells, blank_of};
ghost use Rattle.source_run.specs.declared.cells.Cell.{Cell};

use crate::calls::{body_of, frame_of_call, target_of};
use crate::frames::Frame;
use crate::tasks::{Task, give_back, push_block, push_keep};
use crate::values::value_of;
use crate::windows::{Window, window_of};
use jif_tree::{Expr, Program, Stmt, StmtKind, Store, result_of};
use js_base::{FieldId, MethodId, OutOfMemory, VarId};
use std::alloc::Global;

/// A machine at work on a program.
#[derive(Drop)]
pub struct Machine<'a> {
    /// What is left to do. The last task is done first.
    tasks: Vec<Task<'a>>,
    /// The frames in which something is left to do, from that of the call that was made first.
    frames: Vec<Frame>,
}

/// A statement that is to be done.
#[derive(Clone, Copy)]
struct At<'a> {
    frame: usize,
    kind: &'a StmtKind,
    /// What comes after it.
    rest: &'a [Stmt],
    /// The statement itself, and what comes after it.
    again: &'a [Stmt],
}

impl<'a> Machine<'a> {
    ghost use Rattle.source_run.specs.Shapes.{shape_of};
    ghost use Rattle.source_run.specs.Machine.{after_call, after_statement, machine_step, machine_at_start};

    /// The machine that has called `main`.
    pub fn start(
        alloc: Global,
        program: &'a Program,
        windows: &[Window],
    ) -> Result<Machine<'a>, OutOfMemory>
        ensures { IfOk result (λ machine. (store : List (List ℤ)) →
            shape_of machine store ≡ machine_at_start program.now (blank_of windows.now) store) }
    {
        let returns = target_of(0, 1, result_of(program, program.main));
        let first = Frame::blank(alloc, window_of(windows, program.main))?.returning(returns);
        let frames = vec![in alloc; first]?;
        let mut tasks = Vec::new(alloc);
        push_block(&mut tasks, 0, body_of(program, program.main))?;
        Ok(Machine { tasks, frames })
    }

    /// Whether nothing is left to do.
    pub fn is_at_end(&self) -> bool
        ensures { IsTrue result ↔ (tasks_of self.now.tasks.items ≡ []) }
    {
        self.tasks.is_empty()
    }

    /// Does one step. Nothing changes at the end.
    pub fn step(
        &mut self,
        alloc: Global,
        program: &'a Program,
        windows: &[Window],
        store: &mut Store,
    ) -> Result<(), OutOfMemory>
        ensures ok { OnOk result (shape_of self.new store.new
            ≡ machine_step program.now (blank_of windows.now) (shape_of self.old store.old)) }
        ensures err { OnErr result (store.new ≡ store.old) }
    {
        match self.tasks.pop() {
            None => Ok(()),
            Some(
                Task::Keep {
                    frame,
                    into,
                    result,
                },
            ) => {
                let value = Frame::variables(&self.frames, frame).value(result);
                Frame::set_at(&mut self.frames, frame, into, value)
            }
            Some(Task::Run { frame, statements }) => match statements {
                [] => Ok(()),
                [statement, rest @ ..] => {
                    let at = At {
                        frame,
                        kind: &statement.kind,
                        rest,
                        again: statements,
                    };
                    self.execute(alloc, program, windows, store, at)
                }
            },
        }
    }

    /// Does a statement.
    fn execute(
        &mut self,
        alloc: Global,
        program: &'a Program,
        windows: &[Window],
        store: &mut Store,
        at: At<'a>,
    ) -> Result<(), OutOfMemory>
        ensures ok { OnOk result (shape_of self.new store.new
            ≡ after_statement program.now (blank_of windows.now) (shape_of self.old store.old) at.entry.frame
            at.entry.kind.now
            (with_block at.entry.frame at.entry.rest.now (tasks_of self.old.tasks.items))
            (run_all at.entry.frame at.entry.again.now ∷ tasks_of self.old.tasks.items)) }
        ensures err { OnErr result (store.new ≡ store.old) }
    {
        match at.kind {
            StmtKind::Let { var, value } => {
                let value = self.operand(at.frame, store, value);
                push_block(&mut self.tasks, at.frame, at.rest)?;
                Frame::set_at(&mut self.frames, at.frame, *var, value)
            }
            StmtKind::SetField { field, value } => {
                let value = self.operand(at.frame, store, value);
                self.write(store, at, *field, 0, value)
            }
            StmtKind::SetElement {
                field,
                index,
                value,
            } => {
                let index = self.operand(at.frame, store, index);
                let value = self.operand(at.frame, store, value);
                self.write(store, at, *field, index, value)
            }
            StmtKind::If { guard, yes, no } => self.choose(store, at, guard, yes, no),
            StmtKind::While { guard, body } => self.repeat(store, at, guard, body),
            StmtKind::Call {
                method,
                args,
                into,
                ..
            } => {
                let own = Frame::variables(&self.frames, at.frame);
                let called = frame_of_call(alloc, program, windows, *method, args, &own, store)?;
                push_block(&mut self.tasks, at.frame, at.rest)?;
                self.call(program, at.frame, *method, called, *into)
            }
            StmtKind::Return { value } => {
                let value = self.operand(at.frame, store, value);
                push_block(&mut self.tasks, at.frame, at.rest)?;
                self.give_result(at.frame, value)
            }
        }
    }

    /// Calls a method from a frame, with a frame for the call.
    fn call(
        &mut self,
        program: &'a Program,
        frame: usize,
        method: MethodId,
        called: Frame,
        into: Option<VarId>,
    ) -> Result<(), OutOfMemory>
        ensures { OnOk result ((store : List (List ℤ)) (values : List ℤ) (blank : ℕ → List Cell) →
            called.cells ≡ with_cells (blank method.0) (params_of (method_at program.now method.0)) values →
            shape_of self.new store
            ≡ after_call program.now blank (shape_of self.old store) frame method.0 values into
            (tasks_of self.old.tasks.items)) }
    {
        let returned = result_of(program, method);
        push_keep(&mut self.tasks, frame, into, returned)?;
        give_back(&mut self.frames, &self.tasks);
        let kept = self.frames.len();
        self.frames
            .push(called.returning(target_of(frame, kept, returned)))?;
        push_block(&mut self.tasks, kept, body_of(program, method))
    }

    /// Goes behind the statement, and writes the element of a field.
    fn write(
        &mut self,
        store: &mut Store,
        at: At<'a>,
        field: FieldId,
        index: i64,
        value: i64,
    ) -> Result<(), OutOfMemory>
        ensures ok { OnOk result ((tasks_of self.new.tasks.items
            ≡ with_block at.entry.frame at.entry.rest.now (tasks_of self.old.tasks.items))
            × (self.new.frames ≡ self.old.frames)
            × (store.new ≡ store_after_write store.old field.0 index value)) }
        ensures err { OnErr result (store.new ≡ store.old) }
    {
        push_block(&mut self.tasks, at.frame, at.rest)?;
        store.set_element(field, index, value);
        Ok(())
    }

    /// Goes on in one of two blocks, and then behind them.
    fn choose(
        &mut self,
        store: &Store,
        at: At<'a>,
        guard: &Expr,
        first: &'a [Stmt],
        second: &'a [Stmt],
    ) -> Result<(), OutOfMemory>
        ensures { OnOk result ((tasks_of self.new.tasks.items
            ≡ with_block at.entry.frame
            (if is_true (value_with (value_in (cells_at self.old.frames.items at.entry.frame)) store.now guard.now)
            then first.now else second.now)
            (with_block at.entry.frame at.entry.rest.now (tasks_of self.old.tasks.items)))
            × (self.new.frames ≡ self.old.frames)) }
    {
        let truth = self.holds(at.frame, store, guard);
        push_block(&mut self.tasks, at.frame, at.rest)?;
        if truth {
            push_block(&mut self.tasks, at.frame, first)
        } else {
            push_block(&mut self.tasks, at.frame, second)
        }
    }

    /// Goes on in the body of a `while` before the `while` itself, or behind it.
    fn repeat(
        &mut self,
        store: &Store,
        at: At<'a>,
        guard: &Expr,
        body: &'a [Stmt],
    ) -> Result<(), OutOfMemory>
        ensures { OnOk result ((tasks_of self.new.tasks.items
            ≡ (if is_true (value_with (value_in (cells_at self.old.frames.items at.entry.frame)) store.now guard.now)
            then with_block at.entry.frame body.now
            (run_all at.entry.frame at.entry.again.now ∷ tasks_of self.old.tasks.items)
            else with_block at.entry.frame at.entry.rest.now (tasks_of self.old.tasks.items)))
            × (self.new.frames ≡ self.old.frames)) }
    {
        if self.holds(at.frame, store, guard) {
            self.tasks.push(Task::Run {
                frame: at.frame,
                statements: at.again,
            })?;
            push_block(&mut self.tasks, at.frame, body)
        } else {
            push_block(&mut self.tasks, at.frame, at.rest)
        }
    }

    /// Leaves a result where the frame's method leaves its result.
    fn give_result(&mut self, frame: usize, value: i64) -> Result<(), OutOfMemory>
        ensures tasks { self.new.tasks ≡ self.old.tasks }
        ensures frames { OnOk result (self.new.frames.items
            ≡ frames_after_return self.old.frames.items (returns_at self.old.frames.items frame) value) }
    {
        match Frame::returns_at(&self.frames, frame) {
            Some(target) => Frame::set_at(&mut self.frames, target.frame, target.var, value),
            None => Ok(()),
        }
    }

    /// The value of an expression in a frame.
    fn operand(&self, frame: usize, store: &Store, expr: &Expr) -> i64
        ensures { result ≡ value_with (value_in (cells_at self.now.frames.items frame)) store.now expr.now }
    {
        value_of(expr, &Frame::variables(&self.frames, frame), store)
    }

    /// Whether an expression counts as true in a frame.
    fn holds(&self, frame: usize, store: &Store, guard: &Expr) -> bool
        ensures { result
            ≡ is_true (value_with (value_in (cells_at self.now.frames.items frame)) store.now guard.now) }
    {
        self.operand(frame, store, guard) != 0
    }
}
