//! Which variables of a method have a fixed place in its frames.

ghost use Rattle.std.specs.Prelude.{◌≡◌};
ghost use Rattle.source_run.specs.Windows.{window_of};

use jif_tree::Program;
use js_base::{MethodId, OutOfMemory};
use std::alloc::Global;

/// Variables that follow one another: the number of the first one, and how many there are.
#[derive(Clone, Copy)]
pub struct Window {
    pub first: usize,
    pub count: usize,
}

/// No variables.
const NOTHING: Window = Window { first: 0, count: 0 };

/// A window for each method: its first variables that follow one another. Where variables are numbered method by method
/// these are all of them. Whatever the windows are, a run is the same: they only make it fast.
pub fn find_windows(alloc: Global, program: &Program) -> Result<Vec<Window>, OutOfMemory> {
    let mut windows = vec![in alloc; NOTHING; program.methods.len()]?;
    for (number, var) in program.vars.iter().enumerate() {
        let method = var.method.0 as usize;
        if method < windows.len() {
            windows[method] = widened(windows[method], number);
        }
    }
    Ok(windows)
}

/// The window with one more variable, where it follows.
fn widened(window: Window, number: usize) -> Window {
    if window.count == 0 {
        return Window {
            first: number,
            count: 1,
        };
    }
    if number.checked_sub(window.first) == Some(window.count) {
        return Window {
            first: window.first,
            count: window.count.saturating_add(1),
        };
    }
    window
}

/// The window of a method.
pub fn window_of(windows: &[Window], method: MethodId) -> Window
    ensures { result ≡ window_of windows.now method.0 }
{
    match windows.get(method.0 as usize) {
        Some(window) => *window,
        None => NOTHING,
    }
}
