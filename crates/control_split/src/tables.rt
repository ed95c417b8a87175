//! The hosts, fields, variables and call sites of a code.

ghost use Rattle.std.specs.Prelude.{◌≡◌, ◌+◌, ◌≤◌, ◌∷◌, [], ◌++◌, IfOk, OnOk, length, map};
ghost use Rattle.std.specs.List.{flat_map, zip};
ghost use Rattle.std.specs.String.{string_bytes};
ghost use Rattle.js_base.specs.declared.limits.TheConstants.{FIELDS};
ghost use Rattle.jif_tree.specs.Trees.{field_tree, var_tree, program_tree, block_tree, done, tree_before};
ghost use Rattle.split_rules.specs.SplitCode.{label_place, placed_code_fields, code_variable, method_name, site_hosts};
ghost use Rattle.control_split.specs.Tables.{naming, code_hosts};
ghost use Rattle.control_split.specs.Views.{labelled_in};

use crate::trace::Trace;
use crate::walk::Split;
use host_code::{CodeField, CodeHost, CodeVar};
use host_decl::HostRow;
use jif_tree::{Field, Program, Stmt, StmtKind, Var, tree_laws};
use js_base::text::owned_text;
use js_base::{FieldId, HostId, MethodId, OutOfMemory};
use label_lattice::Label;
use need_labels::Plan;
use std::alloc::Global;

/// A host of a code.
fn code_host(alloc: Global, host: &HostRow) -> Result<CodeHost, OutOfMemory>
    ensures { IfOk result (λ row. row ≡ record { name = host.now.name; label = host.now.label }) }
{
    let name = owned_text(alloc, host.name())?;
    Ok(CodeHost::new(name, *host.label()))
}

/// The hosts in order.
///
/// # Errors
/// Memory ran out.
pub fn code_hosts(alloc: Global, hosts: &[HostRow]) -> Result<Vec<CodeHost>, OutOfMemory>
    ensures { IfOk result (λ rows. rows.items ≡ code_hosts hosts.now) }
{
    let mut rows = Vec::new(alloc);
    for host in hosts {
        rows.push(code_host(alloc, host)?)?;
    }
    Ok(rows)
}

/// A field on its host.
fn code_field(
    alloc: Global,
    trace: &mut Trace,
    field: &Field,
    host: HostId,
) -> Result<CodeField, OutOfMemory>
    ensures trace { OnOk result (trace.new ≡ naming trace.old (field.now.label ∷ [])) }
    ensures row { IfOk result (λ row. row ≡ record {
      name = string_bytes field.now.name;
      label = label_place 0 field.now.label trace.new.labels;
      size = field.now.size;
      array = field.now.array;
      first = field.now.first;
      host = host;
    }) }
{
    let name = owned_text(alloc, field.name.as_str())?;
    let label = trace.label_place(&field.label)?;
    Ok(CodeField::new(name, label, field.size, field.array, field.first, host))
}

/// The fields in order, each on its host.
///
/// # Errors
/// Memory ran out.
pub fn code_fields(split: &Split<'_>, trace: &mut Trace) -> Result<Vec<CodeField>, OutOfMemory>
    requires { length (labelled_in split.now).program.fields ≤ FIELDS }
    ensures trace { OnOk result (trace.new ≡ naming trace.old
        (map (λ field. field.label) (labelled_in split.now).program.fields)) }
    ensures rows { IfOk result (λ rows. rows.items ≡ placed_code_fields trace.new.labels split.now.plan.now 0
        (labelled_in split.now).program.fields) }
{
    let mut rows = Vec::new(split.alloc);
    for (number, field) in split.checked.program.fields.iter().enumerate() {
        let host = split.plan.host_of_field(FieldId(number as u32));
        rows.push(code_field(split.alloc, trace, field, host)?)?;
    }
    Ok(rows)
}

/// The name of a method, nothing where there is no such method.
fn method_name(program: &Program, method: MethodId) -> &str
    ensures { result.now ≡ method_name (program_tree program.now) method }
{
    match program.methods.get(method.0 as usize) {
        Some(method) => method.name.as_str(),
        None => "",
    }
}

/// A variable, named by its method and its own name.
fn code_var(
    alloc: Global,
    trace: &mut Trace,
    program: &Program,
    var: &Var,
    label: &Label,
) -> Result<CodeVar, OutOfMemory>
    ensures trace { OnOk result (trace.new ≡ naming trace.old (label.now ∷ [])) }
    ensures row { IfOk result (λ row. row
        ≡ code_variable (program_tree program.now) trace.new.labels (var_tree var.now, label.now)) }
{
    let method = method_name(program, var.method);
    let name = format!(in alloc; "{}.{}", method, var.name.as_str())?;
    let place = trace.label_place(label)?;
    Ok(CodeVar::new(name, place))
}

/// The variables in order, each with its label.
///
/// # Errors
/// Memory ran out.
pub fn code_vars(split: &Split<'_>, trace: &mut Trace) -> Result<Vec<CodeVar>, OutOfMemory>
    requires { length (labelled_in split.now).var_labels ≡ length (labelled_in split.now).program.vars }
    ensures trace { OnOk result (trace.new ≡ naming trace.old (labelled_in split.now).var_labels) }
    ensures rows { IfOk result (λ rows. rows.items
        ≡ map (code_variable (labelled_in split.now).program trace.new.labels)
        (zip (labelled_in split.now).program.vars (labelled_in split.now).var_labels)) }
{
    let program = &split.checked.program;
    let labels = split.checked.var_labels.as_slice();
    let mut rows = Vec::new(split.alloc);
    for (number, var) in program.vars.iter().enumerate() {
        rows.push(code_var(split.alloc, trace, program, var, &labels[number])?)?;
    }
    Ok(rows)
}

/// The hosts of the call sites in order.
///
/// # Errors
/// Memory ran out.
pub fn code_sites(split: &Split<'_>) -> Result<Vec<HostId>, OutOfMemory>
    ensures { IfOk result (λ sites. sites.items
        ≡ flat_map (λ method. site_hosts split.now.plan.now method.body) (labelled_in split.now).program.methods) }
{
    let mut sites = Vec::new(split.alloc);
    for method in &split.checked.program.methods {
        add_sites(split.plan, &mut sites, &method.body)?;
    }
    Ok(sites)
}

/// Adds the hosts of the calls of a block, with those in the blocks inside it.
#[cycle(site_blocks)]
fn add_sites(plan: &Plan, sites: &mut Vec<HostId>, block: &[Stmt]) -> Result<(), OutOfMemory>
    ensures { OnOk result (sites.new.items ≡ sites.old.items ++ site_hosts plan.now (block_tree block.now)) }
{
    for statement in block {
        add_sites_of(plan, sites, statement)?;
    }
    Ok(())
}

/// Adds the hosts of the calls of a statement.
#[cycle(site_blocks)]
fn add_sites_of(plan: &Plan, sites: &mut Vec<HostId>, statement: &Stmt) -> Result<(), OutOfMemory>
    ensures { OnOk result (sites.new.items
        ≡ sites.old.items ++ site_hosts plan.now (tree_before statement.now done)) }
{
    tree_laws();
    match &statement.kind {
        StmtKind::If { yes, no, .. } => {
            add_sites(plan, sites, yes)?;
            add_sites(plan, sites, no)
        }
        StmtKind::While { body, .. } => add_sites(plan, sites, body),
        StmtKind::Call { .. } => Ok(sites.push(plan.host_of(statement.id))?),
        _ => Ok(()),
    }
}
