//! The label that a text is.

ghost use Rattle.std.specs.Prelude.{IfOk, IfSome, IfNone};
ghost use Rattle.label_lattice.specs.declared.label.Label.{Label};
ghost use Rattle.host_decl.specs.LabelText.{IsLabelText};

use jif_lex::{LexError, lex, lex_laws};
use js_base::OutOfMemory;
use label_lattice::{Label, read_label};
use principals::Principals;
use std::alloc::Global;

/// The label that a text is, written with names of these principals. `None` where it is not a label, or where a name in
/// it is not declared.
pub fn label_of_text(
    alloc: Global,
    text: &str,
    principals: &Principals,
) -> Result<Option<Label>, OutOfMemory>
    ensures found { IfOk result (λ read. IfSome read (IsLabelText principals.now text.now)) }
    ensures none { IfOk result
        (λ read. IfNone read ((label : Label) → ¬ IsLabelText principals.now text.now label)) }
{
    lex_laws();
    match lex(alloc, text.as_bytes()) {
        Ok(tokens) => read_label(alloc, &tokens, principals),
        Err(LexError::OutOfMemory) => Err(OutOfMemory),
        Err(LexError::BadByte(_)) => Ok(None),
        Err(LexError::BadNumber(_)) => Ok(None),
        Err(LexError::TooLong) => Ok(None),
    }
}
