//! The entries that are there from the start, and the bodies of the methods.

ghost use Rattle.std.specs.Prelude.{◌≡◌, ◌≤◌, ◌∷◌, [], OnOk, All, length, map};
ghost use Rattle.js_base.specs.declared.limits.TheConstants.{METHODS};
ghost use Rattle.jif_tree.specs.Trees.{method_tree, program_tree, block_tree};
ghost use Rattle.jif_tree.specs.LabelRules.{method_at};
ghost use Rattle.split_rules.specs.Walk.{method_entry, halt_entries, method_emissions, methods_emissions};
ghost use Rattle.split_rules.specs.Walk.{program_emissions};
ghost use Rattle.control_split.specs.Trace.{traced, no_counts};
ghost use Rattle.control_split.specs.Views.{labelled_in, placed_in, planned_in, IsSizedBlock};

use crate::blocks::block;
use crate::calls::entry_of;
use crate::trace::Trace;
use crate::walk::{Around, Split, Walk};
use jif_tree::Method;
use js_base::{MethodId, OutOfMemory};

/// The entry of a method, which is on its home.
fn method_entry(split: &Split<'_>, trace: &mut Trace, method: &Method) -> Result<(), OutOfMemory>
    ensures { OnOk result (trace.new ≡ traced trace.old
        (method_entry (planned_in split.now) (method_tree method.now) ∷ [])) }
{
    let home = split.plan.host_of(method.head);
    trace.entry(home, &method.begin, split.need_of(method.head))
}

/// The entry that ends the program, on the home of `main`, under whose begin label it stands.
fn halt_entry(split: &Split<'_>, trace: &mut Trace) -> Result<(), OutOfMemory>
    ensures { OnOk result (trace.new ≡ traced trace.old (halt_entries (planned_in split.now)
        (method_at (labelled_in split.now).program (labelled_in split.now).program.main))) }
{
    let program = &split.checked.program;
    if let Some(main) = program.methods.get(program.main.0 as usize) {
        method_entry(split, trace, main)?;
        trace.stands(split.plan.host_of(main.head), 0)?;
    }
    Ok(())
}

/// The body of a method.
fn body(
    split: &Split<'_>,
    trace: &mut Trace,
    number: MethodId,
    method: &Method,
) -> Result<(), OutOfMemory>
    requires { IsSizedBlock (method_tree method.now).body }
    ensures { OnOk result (trace.new ≡ traced trace.old (method_emissions split.now.hosts.now.principals
        (labelled_in split.now) (planned_in split.now) trace.old.counts number.0 (method_tree method.now))) }
{
    let home = split.plan.host_of(method.head);
    let walk = Walk {
        split: *split,
        method,
    };
    let around = Around {
        owner: method.head,
        pc: &method.begin,
    };
    trace.stands(home, entry_of(number)?.0)?;
    block(&walk, trace, &around, home, &method.body)
}

/// The entries of the methods.
fn method_entries(split: &Split<'_>, trace: &mut Trace) -> Result<(), OutOfMemory>
    ensures { OnOk result (trace.new ≡ traced trace.old
        (map (method_entry (planned_in split.now)) (labelled_in split.now).program.methods)) }
{
    for method in &split.checked.program.methods {
        method_entry(split, trace, method)?;
    }
    Ok(())
}

/// The bodies of the methods.
fn bodies(split: &Split<'_>, trace: &mut Trace) -> Result<(), OutOfMemory>
    requires few { length (labelled_in split.now).program.methods ≤ METHODS }
    requires sized { All (λ method. IsSizedBlock method.body) (labelled_in split.now).program.methods }
    ensures { OnOk result (trace.new ≡ traced trace.old (methods_emissions split.now.hosts.now.principals
        (labelled_in split.now) (planned_in split.now) trace.old.counts 0 (labelled_in split.now).program.methods)) }
{
    for (number, method) in split.checked.program.methods.iter().enumerate() {
        body(split, trace, MethodId(number as u32), method)?;
    }
    Ok(())
}

/// The entries that are there from the start, and then the bodies of the methods.
///
/// # Errors
/// Memory ran out.
pub fn program(split: &Split<'_>, trace: &mut Trace) -> Result<(), OutOfMemory>
    requires few { length (labelled_in split.now).program.methods ≤ METHODS }
    requires sized { All (λ method. IsSizedBlock method.body) (labelled_in split.now).program.methods }
    requires first { trace.old.counts ≡ no_counts }
    ensures { OnOk result (trace.new ≡ traced trace.old
        (program_emissions (placed_in split.now))) }
{
    halt_entry(split, trace)?;
    method_entries(split, trace)?;
    bodies(split, trace)
}
