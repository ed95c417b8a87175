//! Drafts of names.

ghost use Rattle.std.specs.Prelude.{◌≡◌, IfOk, IfErr};
ghost use Rattle.jif_grammar.specs.DraftShapes.{name_shape};
ghost use Rattle.jif_grammar.specs.Drafts.{name_at};
ghost use Rattle.jif_parse.specs.Failing.{IsOutOfMemory};

use crate::ParseError;
use jif_lex::Name;
use jif_tree::NameDraft;
use js_base::text::owned_text;
use std::alloc::Global;

/// A draft of the name at this place.
pub fn name_draft(alloc: Global, name: &Name, at: u32) -> Result<NameDraft, ParseError>
    ensures draft { IfOk result (λ draft. name_shape draft ≡ name_at at name.now) }
    ensures memory { IfErr result IsOutOfMemory }
{
    let text = owned_text(alloc, name.as_str())?;
    Ok(NameDraft { text, at })
}
