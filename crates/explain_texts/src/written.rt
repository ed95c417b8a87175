//! Where the parts of a program are written.

ghost use Rattle.std.specs.Prelude.{◌≡◌, ◌++◌, IfOk, OnOk, map};
ghost use Rattle.std.specs.List.{flat_map};
ghost use Rattle.std.specs.Option.{option_map};
ghost use Rattle.jif_grammar.specs.DraftShapes.{block_shape, draft_shape, field_shape, label_shape};
ghost use Rattle.jif_grammar.specs.DraftShapes.{method_shape, param_shape};
ghost use Rattle.explain_texts.specs.DraftPlaces.{block_locals, block_starts, draft_places, kind_locals, kind_starts};
ghost use Rattle.explain_texts.specs.DraftPlaces.{method_starts, method_variables, places_shape, result_token};

use jif_tree::{Draft, FieldDraft, LabelDraft, MethodDraft, ParamDraft, StmtDraft, StmtKindDraft};
use js_base::OutOfMemory;
use std::alloc::Global;

/// The numbers of tokens, from 0: of the names of fields, variables and methods, and of the first tokens of statements.
/// For the head of a method that is its name.
#[derive(Drop)]
pub struct Places {
    pub fields: Vec<u32>,
    pub variables: Vec<u32>,
    pub methods: Vec<u32>,
    pub statements: Vec<u32>,
}

/// Where the parts of a draft are written.
pub fn draft_places(alloc: Global, draft: &Draft) -> Result<Places, OutOfMemory>
    ensures { IfOk result (λ places. places_shape places ≡ draft_places (draft_shape draft.now)) }
{
    let fields = field_tokens(alloc, &draft.fields)?;
    let methods = method_tokens(alloc, &draft.methods)?;
    let variables = variable_tokens(alloc, &draft.methods)?;
    let statements = statement_tokens(alloc, &draft.methods)?;
    Ok(Places {
        fields,
        variables,
        methods,
        statements,
    })
}

/// The names of fields.
fn field_tokens(alloc: Global, fields: &[FieldDraft]) -> Result<Vec<u32>, OutOfMemory>
    ensures { IfOk result (λ tokens. tokens.items ≡ map (λ field. field.name.at) (map field_shape fields.now)) }
{
    let mut tokens = Vec::new(alloc);
    for field in fields {
        tokens.push(field.name.at)?;
    }
    Ok(tokens)
}

/// The names of methods.
fn method_tokens(alloc: Global, methods: &[MethodDraft]) -> Result<Vec<u32>, OutOfMemory>
    ensures { IfOk result (λ tokens. tokens.items ≡ map (λ method. method.name.at) (map method_shape methods.now)) }
{
    let mut tokens = Vec::new(alloc);
    for method in methods {
        tokens.push(method.name.at)?;
    }
    Ok(tokens)
}

/// The names of the variables of methods.
fn variable_tokens(alloc: Global, methods: &[MethodDraft]) -> Result<Vec<u32>, OutOfMemory>
    ensures { IfOk result (λ tokens. tokens.items ≡ flat_map (λ one. method_variables (method_shape one)) methods.now) }
{
    let mut tokens = Vec::new(alloc);
    for method in methods {
        push_variables(&mut tokens, method)?;
    }
    Ok(tokens)
}

/// Adds the names of the variables of a method.
fn push_variables(tokens: &mut Vec<u32>, method: &MethodDraft) -> Result<(), OutOfMemory>
    ensures { OnOk result (tokens.new.items ≡ tokens.old.items ++ method_variables (method_shape method.now)) }
{
    push_params(tokens, &method.params)?;
    push_locals(tokens, &method.body)?;
    push_result(tokens, &method.result, method.name.at)?;
    Ok(())
}

/// Adds the names of parameters.
fn push_params(tokens: &mut Vec<u32>, params: &[ParamDraft]) -> Result<(), OutOfMemory>
    ensures { OnOk result (tokens.new.items
        ≡ tokens.old.items ++ map (λ param. param.name.at) (map param_shape params.now)) }
{
    for param in params {
        tokens.push(param.name.at)?;
    }
    Ok(())
}

/// Adds the name of a method that has a result.
fn push_result(
    tokens: &mut Vec<u32>,
    given: &Option<LabelDraft>,
    name: u32,
) -> Result<(), OutOfMemory>
    ensures { OnOk result
        (tokens.new.items ≡ tokens.old.items ++ result_token (option_map label_shape given.now) name) }
{
    match given {
        Some(_) => {
            tokens.push(name)?;
            Ok(())
        }
        None => Ok(()),
    }
}

/// The first tokens of the statements of methods.
fn statement_tokens(alloc: Global, methods: &[MethodDraft]) -> Result<Vec<u32>, OutOfMemory>
    ensures { IfOk result (λ tokens. tokens.items ≡ flat_map (λ one. method_starts (method_shape one)) methods.now) }
{
    let mut tokens = Vec::new(alloc);
    for method in methods {
        tokens.push(method.name.at)?;
        push_starts(&mut tokens, &method.body)?;
    }
    Ok(tokens)
}

/// Adds the first tokens of the statements of a block, and of the blocks in it.
#[cycle(starts)]
fn push_starts(tokens: &mut Vec<u32>, block: &[StmtDraft]) -> Result<(), OutOfMemory>
    ensures { OnOk result (tokens.new.items ≡ tokens.old.items ++ block_starts (block_shape block.now)) }
{
    for statement in block {
        tokens.push(statement.at)?;
        push_nested_starts(tokens, &statement.kind)?;
    }
    Ok(())
}

/// Adds those of the statements in the blocks of a statement.
#[cycle(starts)]
fn push_nested_starts(tokens: &mut Vec<u32>, what: &StmtKindDraft) -> Result<(), OutOfMemory>
    ensures { OnOk result (tokens.new.items ≡ tokens.old.items ++ kind_starts what.now) }
{
    match what {
        StmtKindDraft::If { guard: _, yes, no } => {
            push_starts(tokens, yes)?;
            push_starts(tokens, no)?;
        }
        StmtKindDraft::While { guard: _, body } => push_starts(tokens, body)?,
        _ => {}
    }
    Ok(())
}

/// Adds the names of the locals that a block declares.
#[cycle(locals)]
fn push_locals(tokens: &mut Vec<u32>, block: &[StmtDraft]) -> Result<(), OutOfMemory>
    ensures { OnOk result (tokens.new.items ≡ tokens.old.items ++ block_locals (block_shape block.now)) }
{
    for statement in block {
        push_own_locals(tokens, &statement.kind)?;
    }
    Ok(())
}

/// Adds those that a statement declares.
#[cycle(locals)]
fn push_own_locals(tokens: &mut Vec<u32>, what: &StmtKindDraft) -> Result<(), OutOfMemory>
    ensures { OnOk result (tokens.new.items ≡ tokens.old.items ++ kind_locals what.now) }
{
    match what {
        StmtKindDraft::Declare { name, .. } => tokens.push(name.at)?,
        StmtKindDraft::If { guard: _, yes, no } => {
            push_locals(tokens, yes)?;
            push_locals(tokens, no)?;
        }
        StmtKindDraft::While { guard: _, body } => push_locals(tokens, body)?,
        _ => {}
    }
    Ok(())
}
