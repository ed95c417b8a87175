//! The code of a program that is split by a plan.

ghost use Rattle.std.specs.Prelude.{◌≡◌, IfOk};
ghost use Rattle.host_code.specs.CodeParts.{shape_of};
ghost use Rattle.split_rules.specs.Placed.{placed_of};
ghost use Rattle.split_rules.specs.SplitCode.{split_code};
ghost use Rattle.split_rules.specs.Splittable.{IsSplittable};
ghost use Rattle.control_split.specs.Views.{placed_in};

use crate::calls::entry_of;
use crate::methods::program;
use crate::parts::assembly_of;
use crate::tables::{code_fields, code_hosts, code_sites, code_vars};
use crate::trace::Trace;
use crate::walk::Split;
use host_code::{Code, CodeParts};
use host_decl::Hosts;
use jif_tree::Checked;
use js_base::OutOfMemory;
use msg_cost::called_home;
use need_labels::{Needs, Plan};
use split_rules::split_laws;
use std::alloc::Global;

/// The parts of the code of a program that is split.
fn code_parts(split: &Split<'_>) -> Result<CodeParts, OutOfMemory>
    requires splittable { IsSplittable (placed_in split.now) }
    ensures { IfOk result (λ parts. shape_of parts ≡ split_code (placed_in split.now)) }
{
    split_laws();
    let main = split.checked.program.main;
    let mut trace = Trace::new(split.alloc);
    let fields = code_fields(split, &mut trace)?;
    let vars = code_vars(split, &mut trace)?;
    program(split, &mut trace)?;
    let entry_count = trace.entries();
    let branch_count = trace.branches();
    let labels = trace.labels(split.alloc)?;
    let items = trace.into_items();
    let assembly = assembly_of(split.alloc, items, entry_count, branch_count)?;
    let rows = split.hosts.hosts();
    let hosts = code_hosts(split.alloc, rows)?;
    let entries = assembly.settled_entries(split.alloc)?;
    let sites = code_sites(split)?;
    let parts = assembly.into_parts(split.alloc, rows.len())?;
    let root = called_home(&split.planned(), main);
    let main = entry_of(main)?;
    Ok(CodeParts {
        hosts,
        labels,
        fields,
        vars,
        entries,
        sites,
        parts,
        root,
        main,
    })
}

/// The code of a program that is split by a plan: each host's instructions, in the order in which the program's text is
/// walked.
///
/// # Errors
/// Memory ran out.
pub fn emit(
    alloc: Global,
    checked: &Checked,
    needs: &Needs,
    hosts: &Hosts,
    plan: &Plan,
) -> Result<Code, OutOfMemory>
    requires splittable { IsSplittable (placed_of checked.now needs.now hosts.now plan.now) }
    ensures { IfOk result (λ code. code ≡ split_code (placed_of checked.now needs.now hosts.now plan.now)) }
{
    split_laws();
    let split = Split {
        alloc,
        checked,
        needs,
        hosts,
        plan,
    };
    let parts = code_parts(&split)?;
    Ok(Code::new(parts))
}
