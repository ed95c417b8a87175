//! What is told of a part of a program that no host may hold.

ghost use Rattle.std.specs.Prelude.{◌≡◌, Some, IfOk};
ghost use Rattle.std.specs.String.{string_bytes};
ghost use Rattle.explain_texts.specs.DraftPlaces.{places_shape};
ghost use Rattle.explain_texts.specs.Told.{told_shape};
ghost use Rattle.explain_texts.specs.Unheld as unheld;
ghost use Rattle.jif_grammar.specs.DraftShapes.{draft_shape, field_shape};

use crate::sheet::token_number;
use crate::token_texts::{token_place, token_text};
use crate::told::{Told, message_told};
use crate::written::{Places, draft_places};
use jif_lex::Token;
use jif_tree::{Draft, FieldDraft};
use js_base::{FieldId, OutOfMemory, StmtId};
use std::alloc::Global;

/// What is told of a field.
pub fn field_told(
    alloc: Global,
    tokens: &[Token],
    draft: &Draft,
    field: FieldId,
) -> Result<Told, OutOfMemory>
    ensures { IfOk result (λ told.
        told_shape told ≡ unheld.field_told tokens.now (draft_shape draft.now) field) }
{
    match draft.fields.get(field.0 as usize) {
        Some(one) => field_part(alloc, tokens, one),
        None => message_told(alloc, None, "no host may hold a field", ""),
    }
}

/// What is told of a field that is there.
fn field_part(alloc: Global, tokens: &[Token], field: &FieldDraft) -> Result<Told, OutOfMemory>
    ensures { IfOk result (λ told.
        told_shape told ≡ unheld.field_part tokens.now (Some (field_shape field.now))) }
{
    let name = field.name.text.as_str();
    let kind = if field.array { "array " } else { "field " };
    let message = format!(in alloc; "no host may hold {kind}{name}")?;
    let at = token_place(tokens, field.name.at as usize);
    message_told(alloc, at, message.as_str(), "")
}

/// What is told of a statement.
pub fn statement_told(
    alloc: Global,
    tokens: &[Token],
    draft: &Draft,
    statement: StmtId,
) -> Result<Told, OutOfMemory>
    ensures { IfOk result (λ told.
        told_shape told ≡ unheld.statement_told tokens.now (draft_shape draft.now) statement) }
{
    let places = draft_places(alloc, draft)?;
    let token = token_number(&places.statements, statement.0);
    statement_part(alloc, tokens, &places, token)
}

/// What is told of the statement that begins with a token.
fn statement_part(
    alloc: Global,
    tokens: &[Token],
    places: &Places,
    token: usize,
) -> Result<Told, OutOfMemory>
    ensures { IfOk result (λ told.
        told_shape told ≡ unheld.statement_part tokens.now (places_shape places.now) token) }
{
    let words = statement_words(alloc, tokens, places, token)?;
    let message = format!(in alloc; "no host may hold {words}")?;
    message_told(alloc, token_place(tokens, token), message.as_str(), "")
}

/// What the statement is.
fn statement_words(
    alloc: Global,
    tokens: &[Token],
    places: &Places,
    token: usize,
) -> Result<String, OutOfMemory>
    ensures { IfOk result (λ words.
        string_bytes words ≡ unheld.statement_words tokens.now (places_shape places.now) token) }
{
    if is_head(places, token) {
        let name = token_text(alloc, tokens, token)?;
        return Ok(format!(in alloc; "the head of {name}")?);
    }
    Ok(String::from_str(alloc, "this statement")?)
}

/// Whether it is the name of a method.
fn is_head(places: &Places, token: usize) -> bool
    ensures { result ≡ unheld.is_head (places_shape places.now) token }
{
    places.methods.iter().any(|other| *other as usize == token)
}
