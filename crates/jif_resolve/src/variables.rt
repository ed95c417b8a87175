//! The variables of a program: for each method its parameters, its locals, and its result.

ghost use Rattle.std.specs.Prelude.{◌≡◌, ◌<◌, ◌^◌, ◌∷◌, [], IfOk, OnOk, length, map};
ghost use Rattle.std.specs.List.{AllZip};
ghost use Rattle.std.specs.Option.{option_map};
ghost use Rattle.jif_tree.specs.Trees.{var_tree};
ghost use Rattle.jif_grammar.specs.DraftShapes.{name_shape, label_shape, param_shape, block_shape, method_shape};
ghost use Rattle.jif_resolve.specs.Variables.{result_variables, method_variables, variables_from};
ghost use Rattle.jif_resolve.specs.Faults.{label_faults, optional_label_faults};
ghost use Rattle.jif_resolve.specs.Labels.{IsOptionalLabelFor};
ghost use Rattle.jif_resolve.specs.Resolved.{IsVariableFor};
ghost use Rattle.jif_resolve.specs.AddedVariables.{param_variable, local_variables, AreLabelled, AddsVariables};

use crate::label_of::{label_of, optional_label_of};
use jif_tree::{LabelDraft, MethodDraft, NameDraft, ParamDraft, StmtDraft, StmtKindDraft, Var};
use js_base::text::owned_text;
use js_base::{MethodId, OutOfMemory};
use principals::Principals;
use std::alloc::Global;

/// The name of a method's result.
const RESULT: &str = "return";

/// Adds a parameter of this method.
#[tactic(auto, using(crate::proofs::VariableLists::adds_one))]
fn push_param(
    alloc: Global,
    variables: &mut Vec<Var>,
    method: MethodId,
    param: &ParamDraft,
    principals: &Principals,
) -> Result<(), OutOfMemory>
    requires { label_faults principals.now (label_shape param.now.label) ≡ [] }
    ensures { OnOk result (AddsVariables principals.now (param_variable method (param_shape param.now) ∷ [])
        variables.old.items variables.new.items) }
{
    let label = label_of(alloc, &param.label, principals)?;
    let name = owned_text(alloc, param.name.text.as_str())?;
    variables.push(Var {
        method,
        name,
        label: Some(label),
    })?;
    Ok(())
}

/// Adds the parameters of this method.
fn push_params(
    alloc: Global,
    variables: &mut Vec<Var>,
    method: MethodId,
    params: &[ParamDraft],
    principals: &Principals,
) -> Result<(), OutOfMemory>
    requires { AreLabelled principals.now (map (param_variable method) (map param_shape params.now)) }
    ensures { OnOk result (AddsVariables principals.now (map (param_variable method) (map param_shape params.now))
        variables.old.items variables.new.items) }
{
    for param in params {
        push_param(alloc, variables, method, param, principals)?;
    }
    Ok(())
}

/// Adds a local of this method.
#[tactic(auto, using(crate::proofs::VariableLists::adds_one))]
fn push_local(
    alloc: Global,
    variables: &mut Vec<Var>,
    method: MethodId,
    written: &Option<LabelDraft>,
    name: &NameDraft,
    principals: &Principals,
) -> Result<(), OutOfMemory>
    requires { optional_label_faults principals.now (option_map label_shape written.now) ≡ [] }
    ensures { OnOk result (AddsVariables principals.now
        (record {
          method = method;
          name = (name_shape name.now).text;
          label = option_map label_shape written.now;
        } ∷ [])
        variables.old.items variables.new.items) }
{
    let label = optional_label_of(alloc, written, principals)?;
    let name = owned_text(alloc, name.text.as_str())?;
    variables.push(Var {
        method,
        name,
        label,
    })?;
    Ok(())
}

/// Adds the locals of a block.
#[cycle(locals)]
fn push_locals(
    alloc: Global,
    variables: &mut Vec<Var>,
    method: MethodId,
    block: &[StmtDraft],
    principals: &Principals,
) -> Result<(), OutOfMemory>
    requires { AreLabelled principals.now (local_variables method (block_shape block.now)) }
    ensures { OnOk result (AddsVariables principals.now (local_variables method (block_shape block.now))
        variables.old.items variables.new.items) }
{
    for statement in block {
        push_locals_of(alloc, variables, method, statement, principals)?;
    }
    Ok(())
}

/// Adds the local that a statement declares, or those in its blocks.
#[cycle(locals)]
fn push_locals_of(
    alloc: Global,
    variables: &mut Vec<Var>,
    method: MethodId,
    statement: &StmtDraft,
    principals: &Principals,
) -> Result<(), OutOfMemory>
    requires { AreLabelled principals.now (local_variables method (block_shape (statement.now ∷ []))) }
    ensures { OnOk result (AddsVariables principals.now (local_variables method (block_shape (statement.now ∷ [])))
        variables.old.items variables.new.items) }
{
    match &statement.kind {
        StmtKindDraft::Declare { label, name, .. } => {
            push_local(alloc, variables, method, label, name, principals)
        }
        StmtKindDraft::If { yes, no, .. } => {
            push_locals(alloc, variables, method, yes, principals)?;
            push_locals(alloc, variables, method, no, principals)
        }
        StmtKindDraft::While { body, .. } => {
            push_locals(alloc, variables, method, body, principals)
        }
        StmtKindDraft::Assign { .. } => Ok(()),
        StmtKindDraft::AssignElement { .. } => Ok(()),
        StmtKindDraft::Call { .. } => Ok(()),
        StmtKindDraft::Return { .. } => Ok(()),
    }
}

/// Adds the result of this method, where it has one.
#[tactic(auto, using(crate::proofs::VariableLists::adds_one, crate::proofs::VariableLists::adds_none))]
fn push_result(
    alloc: Global,
    variables: &mut Vec<Var>,
    method: MethodId,
    written: &Option<LabelDraft>,
    principals: &Principals,
) -> Result<(), OutOfMemory>
    requires { AreLabelled principals.now (result_variables method (option_map label_shape written.now)) }
    ensures { OnOk result (AddsVariables principals.now (result_variables method (option_map label_shape written.now))
        variables.old.items variables.new.items) }
{
    let Some(written) = written else {
        return Ok(());
    };
    let label = Some(label_of(alloc, written, principals)?);
    let name = owned_text(alloc, RESULT)?;
    variables.push(Var {
        method,
        name,
        label,
    })?;
    Ok(())
}

/// Adds the variables of a method.
fn push_method(
    alloc: Global,
    variables: &mut Vec<Var>,
    method: MethodId,
    draft: &MethodDraft,
    principals: &Principals,
) -> Result<(), OutOfMemory>
    requires { AreLabelled principals.now (method_variables method (method_shape draft.now)) }
    ensures { OnOk result (AddsVariables principals.now (method_variables method (method_shape draft.now))
        variables.old.items variables.new.items) }
{
    push_params(alloc, variables, method, &draft.params, principals)?;
    push_locals(alloc, variables, method, &draft.body, principals)?;
    push_result(alloc, variables, method, &draft.result, principals)
}

/// The variables of methods, which are numbered from 0.
pub fn variables_of(
    alloc: Global,
    methods: &[MethodDraft],
    principals: &Principals,
) -> Result<Vec<Var>, OutOfMemory>
    requires labelled { AreLabelled principals.now (variables_from 0 (map method_shape methods.now)) }
    requires few { length methods.now < 2 ^ 32 }
    ensures { IfOk result (λ variables. AllZip (IsVariableFor principals.now)
        (variables_from 0 (map method_shape methods.now)) (map var_tree variables.items)) }
{
    let mut variables = Vec::new(alloc);
    for (number, method) in methods.iter().enumerate() {
        push_method(
            alloc,
            &mut variables,
            MethodId(number as u32),
            method,
            principals,
        )?;
    }
    Ok(variables)
}
