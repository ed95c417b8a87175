//! A statement's text in short.

ghost use Rattle.std.specs.Prelude.{◌≡◌, ◌++◌, IfOk, OnOk};
ghost use Rattle.statement_texts.specs.Short as short;
ghost use Rattle.statement_texts.specs.declared.short.Place.TheVariants.{Apart, InLabel, InWord};

use js_base::OutOfMemory;
use std::alloc::Global;

/// Where a letter stands.
#[derive(Clone, Copy)]
enum Place {
    /// Behind no word and outside of labels that are left out.
    Apart,
    /// Right behind a letter of a name or a number.
    InWord,
    /// In a label that is left out.
    InLabel,
}

/// A statement's text without the labels of what it declares and without the brace that opens its block. What is done
/// otherwise begins with `else: `.
pub fn short_text(
    alloc: Global,
    letters: &[char],
    otherwise: bool,
) -> Result<Vec<char>, OutOfMemory>
    ensures { IfOk result (λ text. text.items ≡ short.short otherwise letters.now) }
{
    let kept = unlabelled(alloc, letters)?;
    let mut text = else_front(alloc, otherwise)?;
    text.extend_from_slice(without_brace(kept.as_slice()))?;
    Ok(text)
}

/// What stands before the first statement behind an `else`.
fn else_front(alloc: Global, otherwise: bool) -> Result<Vec<char>, OutOfMemory>
    ensures { IfOk result (λ text. text.items ≡ short.else_front otherwise) }
{
    if otherwise {
        Ok(Vec::from_slice(alloc, &['e', 'l', 's', 'e', ':', ' '])?)
    } else {
        Ok(Vec::new(alloc))
    }
}

/// A text without the labels behind words.
fn unlabelled(alloc: Global, letters: &[char]) -> Result<Vec<char>, OutOfMemory>
    ensures { IfOk result (λ kept. kept.items ≡ short.unlabelled Apart letters.now) }
{
    let mut kept = Vec::new(alloc);
    let mut place = Place::Apart;
    for letter in letters {
        keep(&mut kept, place, *letter)?;
        place = place_behind(place, *letter);
    }
    Ok(kept)
}

/// Adds what stays of a letter at a place.
fn keep(kept: &mut Vec<char>, place: Place, letter: char) -> Result<(), OutOfMemory>
    ensures { OnOk result (kept.new.items ≡ kept.old.items ++ short.kept_of place letter) }
{
    if stays(place, letter) {
        kept.push(letter)?;
    }
    Ok(())
}

/// Whether a letter stays at a place.
fn stays(place: Place, letter: char) -> bool
    ensures { result ≡ short.stays place letter }
{
    match place {
        Place::Apart => true,
        Place::InWord => letter != '{',
        Place::InLabel => false,
    }
}

/// The place behind a letter at a place.
fn place_behind(place: Place, letter: char) -> Place
    ensures { result ≡ short.place_behind place letter }
{
    match place {
        Place::Apart => place_of(letter),
        Place::InWord => behind_word(letter),
        Place::InLabel => inside_label(letter),
    }
}

/// The place behind a letter that stands right behind a word.
fn behind_word(letter: char) -> Place
    ensures { result ≡ short.place_behind InWord letter }
{
    if letter == '{' {
        Place::InLabel
    } else {
        place_of(letter)
    }
}

/// The place behind a letter of a label.
fn inside_label(letter: char) -> Place
    ensures { result ≡ short.place_behind InLabel letter }
{
    if letter == '}' {
        Place::Apart
    } else {
        Place::InLabel
    }
}

/// The place behind a letter that is kept.
fn place_of(letter: char) -> Place
    ensures { result ≡ short.place_of letter }
{
    if is_word(letter) {
        Place::InWord
    } else {
        Place::Apart
    }
}

/// Whether it is a letter of a name or a number.
fn is_word(letter: char) -> bool
    ensures { result ≡ short.is_word letter }
{
    letter.is_ascii_alphanumeric() || letter == '_'
}

/// A text without the blank and the brace that may end it.
fn without_brace(letters: &[char]) -> &[char]
    ensures { result.now ≡ short.without_brace letters.now }
{
    if opens_block(letters) {
        &letters[..letters.len() - 2]
    } else {
        letters
    }
}

/// Whether a text ends with a blank and a brace.
fn opens_block(letters: &[char]) -> bool
    ensures { result ≡ short.opens_block letters.now }
{
    let count = letters.len();
    1 < count && letters[count - 2] == ' ' && letters[count - 1] == '{'
}
