//! Fields and methods, and programs of them.

ghost use Rattle.std.specs.Prelude.{◌≢◌, [], IfOk, IfErr};
ghost use Rattle.jif_lex.specs.declared.token.Word.TheVariants.{Int, Void};
ghost use Rattle.jif_lex.specs.declared.token.TokenKind.TheVariants as token;
ghost use Rattle.jif_parse.specs.Reading.{IsNextKind};
ghost use Rattle.jif_parse.specs.Items.{ReadsItem, FailsItem, HasAdded, ReadsItems};
ghost use Rattle.jif_parse.specs.Failing.{IsOutOfMemory};

use crate::ParseError;
use crate::counts::Begins;
use crate::cursor::Cursor;
use crate::fields::field_ending;
use crate::labels::{label, parts};
use crate::laws::widths_of_phrases;
use crate::lines::next_line;
use crate::methods::{labelled_name, tail};
use crate::words::is_word_next;
use jif_lex::{Symbol, Word};
use jif_tree::{Draft, FieldDraft, MethodDraft};
use std::alloc::Global;

/// A field or a method.
#[derive(Drop)]
pub enum ItemDraft {
    Field(FieldDraft),
    Method(MethodDraft),
}

/// Fields and methods up to the last token.
pub fn items(alloc: Global, cursor: &mut Cursor) -> Result<Draft, ParseError>
    ensures read { IfOk result (ReadsItems cursor.old) }
    ensures fails { IfErr result (FailsItem cursor.old) }
{
    widths_of_phrases();
    let mut draft = Draft {
        fields: Vec::new(alloc),
        methods: Vec::new(alloc),
    };
    while !cursor.rest.is_empty() {
        let next = item(alloc, cursor)?;
        add(&mut draft, next)?;
    }
    Ok(draft)
}

/// Adds a field or a method to a draft.
fn add(draft: &mut Draft, item: ItemDraft) -> Result<(), ParseError>
    ensures added { IfOk result (λ done. HasAdded draft.old draft.new item) }
    ensures memory { IfErr result IsOutOfMemory }
{
    match item {
        ItemDraft::Field(field) => draft.fields.push(field)?,
        ItemDraft::Method(method) => draft.methods.push(method)?,
    }
    Ok(())
}

/// A field or a method. Some token is next.
fn item(alloc: Global, cursor: &mut Cursor) -> Result<ItemDraft, ParseError>
    requires { cursor.old.rest.now ≢ [] }
    ensures read { IfOk result (ReadsItem cursor.old cursor.new) }
    ensures fails { IfErr result (FailsItem cursor.old) }
{
    if is_word_next(cursor, Word::Int) {
        return int_item(alloc, cursor);
    }
    if is_word_next(cursor, Word::Void) {
        return void_method(alloc, cursor);
    }
    Err(cursor.unexpected())
}

/// A method without a result, whose `void` is next.
fn void_method(alloc: Global, cursor: &mut Cursor) -> Result<ItemDraft, ParseError>
    requires { IsNextKind cursor.old (token.Word Void) }
    ensures read { IfOk result (ReadsItem cursor.old cursor.new) }
    ensures fails { IfErr result (FailsItem cursor.old) }
{
    widths_of_phrases();
    let line = next_line(cursor);
    cursor.take(0, Begins::Method)?;
    let name = cursor.name(alloc)?;
    let begin = label(alloc, cursor)?;
    let tail = tail(alloc, cursor)?;
    Ok(ItemDraft::Method(MethodDraft {
        result: None,
        name,
        begin,
        params: tail.params,
        authority: tail.authority,
        line,
        body: tail.body,
    }))
}

/// A field, or a method with a result, whose `int` is next.
fn int_item(alloc: Global, cursor: &mut Cursor) -> Result<ItemDraft, ParseError>
    requires { IsNextKind cursor.old (token.Word Int) }
    ensures read { IfOk result (ReadsItem cursor.old cursor.new) }
    ensures fails { IfErr result (FailsItem cursor.old) }
{
    widths_of_phrases();
    let line = next_line(cursor);
    cursor.pass();
    let (label, name) = labelled_name(alloc, cursor)?;
    if cursor.is_next(Symbol::LeftBrace) {
        cursor.take(0, Begins::Method)?;
        let begin = parts(alloc, cursor)?;
        let tail = tail(alloc, cursor)?;
        return Ok(ItemDraft::Method(MethodDraft {
            result: Some(label),
            name,
            begin,
            params: tail.params,
            authority: tail.authority,
            line,
            body: tail.body,
        }));
    }
    let ending = field_ending(cursor)?;
    Ok(ItemDraft::Field(FieldDraft {
        label,
        name,
        size: ending.size,
        array: ending.array,
        first: ending.first,
    }))
}
