//! What is asked of labels, as far as its reasons are told alike.

ghost use Rattle.std.specs.Prelude.{◌≡◌, IfOk};
ghost use Rattle.std.specs.String.{string_bytes};
ghost use Rattle.explain_texts.specs.ReasonLines as lines;
ghost use Rattle.explain_texts.specs.ReasonLines.{asked_shape};
ghost use Rattle.explain_texts.specs.Sheets.{sheet_shape};

use crate::names::{field_name, method_around, method_name, variable_name, variable_words};
use crate::sheet::Sheet;
use js_base::text::owned_text;
use js_base::{MethodId, OutOfMemory, StmtId, VarId};
use label_reasons::Wanted;
use std::alloc::Global;

/// What is asked for.
#[derive(Clone, Copy)]
pub enum Asking {
    /// That a value may flow.
    Flowing,
    /// That a method may begin.
    Beginning,
    /// That a value may be released.
    Releasing,
    /// That those by whose authority it is released trust what leads there.
    Trusting,
    /// That a value may be endorsed.
    Endorsing,
}

/// What is asked for, with the names that its reasons have.
#[derive(Drop)]
pub struct Asked {
    pub asking: Asking,
    /// Where a value goes, or which method begins.
    pub target: String,
    /// The method of the statement.
    pub method: String,
}

/// What is asked for by a statement that wants this.
pub fn asked_of(
    alloc: Global,
    sheet: &Sheet<'_>,
    statement: StmtId,
    wanted: Wanted,
) -> Result<Asked, OutOfMemory>
    ensures { IfOk result (λ asked.
        asked_shape asked ≡ lines.asked_of (sheet_shape sheet.now) statement wanted) }
{
    let target = target_text(alloc, sheet, wanted)?;
    let method = owned_text(alloc, method_around(sheet.program, statement))?;
    Ok(Asked {
        asking: asking_of(wanted),
        target,
        method,
    })
}

/// What its reasons are told by.
fn asking_of(wanted: Wanted) -> Asking
    ensures { result ≡ lines.asking_of wanted }
{
    match wanted {
        Wanted::KeptInField(_) => Asking::Flowing,
        Wanted::KeptInElement(_) => Asking::Flowing,
        Wanted::KeptInLocal(_) => Asking::Flowing,
        Wanted::Given(_, _, _) => Asking::Flowing,
        Wanted::ResultKept(_, _) => Asking::Flowing,
        Wanted::GivenBack(_) => Asking::Flowing,
        Wanted::Begun(_) => Asking::Beginning,
        Wanted::Released => Asking::Releasing,
        Wanted::ReleaseTrusted => Asking::Trusting,
        Wanted::Endorsed => Asking::Endorsing,
    }
}

/// Where a value is to go, or which method is to begin. Empty where a value is released or endorsed.
fn target_text(alloc: Global, sheet: &Sheet<'_>, wanted: Wanted) -> Result<String, OutOfMemory>
    ensures { IfOk result (λ text.
        string_bytes text ≡ lines.target_text (sheet_shape sheet.now) wanted) }
{
    let program = sheet.program;
    match wanted {
        Wanted::KeptInField(field) => owned_text(alloc, field_name(program, field)),
        Wanted::KeptInElement(field) => owned_text(alloc, field_name(program, field)),
        Wanted::KeptInLocal(x) => variable_words(alloc, program, "", x),
        Wanted::Given(_, param, method) => param_text(alloc, sheet, param, method),
        Wanted::ResultKept(_, into) => variable_words(alloc, program, "", into),
        Wanted::GivenBack(x) => variable_words(alloc, program, "", x),
        Wanted::Begun(method) => owned_text(alloc, method_name(program, method)),
        Wanted::Released => Ok(String::new(alloc)),
        Wanted::ReleaseTrusted => Ok(String::new(alloc)),
        Wanted::Endorsed => Ok(String::new(alloc)),
    }
}

/// A parameter of a method.
pub fn param_text(
    alloc: Global,
    sheet: &Sheet<'_>,
    param: VarId,
    method: MethodId,
) -> Result<String, OutOfMemory>
    ensures { IfOk result (λ text. string_bytes text ≡ lines.param_text (sheet_shape sheet.now) param method) }
{
    let name = variable_name(sheet.program, param);
    let own = method_name(sheet.program, method);
    Ok(format!(in alloc; "parameter {name} of {own}")?)
}
